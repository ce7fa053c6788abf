//! Why services move, in messages after what an update, an undo or a redo would do was shown.
use rc_args::{Once, SessionCommand, UpdateRequest, Verbosity};
use rc_launch::Opened;
use rc_launch::frontend::{tell_entries, tell_moves};
use rc_streams::ending::DONE;

/// Prints why an update, an undo or a redo would move services, if it was shown with this status.
/// The command has read this input.
pub fn tell_why(rt: &HostRuntime, opened: &Opened<'_>, input: Option<&[u8]>, status: u8) {
    if status != DONE || opened.session().verbosity == Verbosity::Quiet {
        return;
    }
    match opened.command() {
        SessionCommand::Update(request) if request.dry => tell_update(rt, opened, request),
        SessionCommand::Line(request) => tell_line(rt, opened, &request.once, input),
        _ => {}
    }
}

/// Prints why an update moves services.
fn tell_update(rt: &HostRuntime, opened: &Opened<'_>, request: &UpdateRequest<'_>) {
    if let (Some(old), Some(new), Some(live)) = (
        opened.base(),
        opened.new_base(),
        opened.live().bytes(),
    ) {
        tell_moves(rt, old.bytes(), new.bytes(), &request.conversions, live);
    }
}

/// Prints which entries of the journal an undo or a redo that was shown takes back or makes again.
fn tell_line(rt: &HostRuntime, opened: &Opened<'_>, once: &Once, input: Option<&[u8]>) {
    let is_on = match once {
        Once::DryUndo => false,
        Once::DryRedo => true,
        _ => return,
    };
    let base = match opened.base() {
        Some(base) => Some(base.bytes()),
        None => None,
    };
    tell_entries(rt, opened.live(), base, input.unwrap_or(&[]), is_on);
}
