//! What a command of several steps runs with.
use crate::opened::Opened;

/// The runtime, its threads, and the command with what was read for it.
#[derive(Drop)]
pub(crate) struct Execution<'x, 'o, T> {
    pub rt: &'x HostRuntime,
    pub threads: &'x T,
    pub opened: &'x Opened<'o>,
}
