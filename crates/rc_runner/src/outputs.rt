//! What the programs of services wrote, where that is kept.

ghost use Rattle.std.specs.Prelude.{◌≡◌, None, option_map};
ghost use Rattle.rc_runner.specs.Progress.{event_for, says_more};

use crate::progress::Event;
use log::{Log, info};
use rc_core::Outcome;
use rc_streams::messages::HINT;
use rc_streams::output_folder::OutputFolder;
use std::alloc::Global;

/// Logs each line that the program of a service wrote, behind the name of the service.
pub(crate) fn show_output<L: Log>(log: &L, alloc: Global, folder: OutputFolder<'_>, name: &str) {
    let Ok(bytes) = folder.last_lines(name, usize::MAX) else {
        return;
    };
    if let Ok(text) = String::from_utf8_lossy(alloc, &bytes) {
        for line in text.as_str().lines() {
            info!(log; target: HINT, "{name}: {line}");
        }
        drop(text);
    }
    drop(bytes);
}

/// Returns the last line that the program of a service wrote. Returns `None` if nothing is kept, if
/// that line is empty, or if it can't be read.
pub(crate) fn last_line(
    alloc: Global,
    folder: Option<OutputFolder<'_>>,
    name: &str,
) -> Option<String> {
    let bytes = folder?.last_lines(name, 1).ok()?;
    let line = String::from_utf8_lossy(alloc, &bytes);
    drop(bytes);
    let line = line.ok()?;
    let trimmed = String::from_str(alloc, line.as_str().trim_end());
    drop(line);
    let trimmed = trimmed.ok()?;
    if trimmed.is_empty() {
        drop(trimmed);
        return None;
    }
    Some(trimmed)
}

/// Returns true if the report of an outcome ends with what the program wrote last: it was started,
/// and failed.
pub(crate) fn says_more(outcome: Outcome) -> bool
    ensures { result ≡ says_more outcome }
{
    matches!(outcome, Outcome::Failed(_) | Outcome::TimedOut)
}

/// Returns the event of an outcome, with the line that the program wrote last, if there is one.
pub(crate) fn event_for(outcome: Outcome, said: Option<&str>) -> Event<'_>
    ensures { result ≡ event_for outcome said.entry }
{
    match said {
        Some(line) => Event::Saying(outcome, line),
        None => Event::Ended(outcome),
    }
}
