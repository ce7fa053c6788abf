//! `restart`: says which of its names are down, and stay down.
use log::info;
use rc_args::SessionCommand;
use rc_dbtext::lexer::NameWord;
use rc_launch::frontend::{FileOptions, ForShell};
use rc_launch::{LiveText, Opened};
use rc_livetext::{LiveForm, read_form};
use rc_streams::ending::{FAILED, REFUSED};
use rc_streams::messages::{HINT, MESSAGE, Messages};

/// Prints which names of a restart were down before it and are down after it, if the restart was
/// carried out.
pub fn tell_down(rt: &HostRuntime, opened: &Opened<'_>, files: FileOptions<'_>, status: u8) {
    let SessionCommand::Restart(request) = opened.command() else {
        return;
    };
    if status == REFUSED || status == FAILED {
        return;
    }
    let Ok(live) = LiveText::read(rt, files.live) else {
        return;
    };
    let before = opened.live().bytes();
    if let Some(after) = live.bytes() {
        tell_names(rt, &request.names, before, after, files);
    }
    drop(live);
}

/// Prints which of these names are down in two texts of a session. Without the first text all are
/// down in it. In a text that can't be read none is.
fn tell_names(
    rt: &HostRuntime,
    names: &[String],
    before: Option<&[u8]>,
    after: &[u8],
    files: FileOptions<'_>,
) {
    let begun = match before {
        Some(text) => form_of(rt, text),
        None => None,
    };
    if let Some(ended) = form_of(rt, after) {
        for name in names {
            let name = name.as_str();
            let was_down = match &begun {
                Some(form) => is_down(form, name),
                None => before.is_none(),
            };
            if was_down && is_down(&ended, name) {
                tell_name(rt, name, files);
            }
        }
        drop(ended);
    }
    drop(begun);
}

/// Prints that a name is down, and what brings it up.
fn tell_name(rt: &HostRuntime, name: &str, files: FileOptions<'_>) {
    let word = ForShell(name);
    info!(Messages(rt); target: MESSAGE, "{name} is down, and a restart leaves it down");
    info!(Messages(rt); target: HINT, "undorc start{files} {word} brings it up");
}

/// Returns what the text of a session says, if it can be read.
fn form_of<'a>(rt: &HostRuntime, text: &'a [u8]) -> Option<LiveForm<'a>> {
    match read_form(rt.alloc(), text) {
        Ok((form, _)) => Some(form),
        Err(_) => None,
    }
}

/// Returns true if a service is down in the current state, or each of the services of a bundle that
/// has some.
fn is_down(form: &LiveForm<'_>, name: &str) -> bool {
    let state = &form.current;
    if has_name(&form.services, name) {
        return !has_name(&state.live, name);
    }
    for bundle in &state.bundles {
        if bundle.name.text() == name {
            return !bundle.members.is_empty() && are_down(&bundle.members, &state.live);
        }
    }
    false
}

/// Returns true if none of these services is among those that are live.
fn are_down(members: &[NameWord<'_>], live: &[NameWord<'_>]) -> bool {
    for member in members {
        if has_name(live, member.text()) {
            return false;
        }
    }
    true
}

/// Returns true if a name is among these.
fn has_name(names: &[NameWord<'_>], name: &str) -> bool {
    for other in names {
        if other.text() == name {
            return true;
        }
    }
    false
}
