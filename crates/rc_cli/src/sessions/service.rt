//! What a session is launched for, and its devices.
use crate::sessions::keeping::TextKeeper;
use rc_args::Once;
use rc_streams::Noted;

/// What a session is launched for.
#[derive(Clone, Copy)]
pub enum Service<'a> {
    /// The lines of an input.
    Lines,
    /// One line. What only shows something leaves the file of the session alone.
    Line(&'a Once),
    /// A restart of these names: they go down, and what went down comes up again.
    Restart(&'a [String]),
}

/// Where the answers of a session go, and where it is kept.
#[derive(Drop)]
pub struct Outputs<W, S> {
    pub writer: Noted<W>,
    pub keeper: TextKeeper<S>,
}

/// The devices of a session: what it reads, where its answers go, and where faults go.
#[derive(Drop)]
pub struct Devices<R, W, F, S> {
    pub reader: Noted<R>,
    pub outputs: Outputs<W, S>,
    pub faults: F,
}
