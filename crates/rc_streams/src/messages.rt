//! Messages for people on standard error, as records of a log: progress, notes, and the lines
//! after a fault.

ghost use Rattle.std.specs.Prelude.{true, [], Some};

use crate::escaping::Shown;
use log::kv::Source;
use log::span::Spans;
use log::{Log, Metadata, Record};
use std::fmt::Display;

/// The target of messages that stand alone.
pub const MESSAGE: &str = "undorc";

/// The target of messages that explain the line before them.
pub const HINT: &str = "undorc::hint";

/// A log that writes each record to the standard error of `E`: one line in one write, after
/// `undorc: `, or after two spaces where its target is `HINT`. Control characters are written as
/// escapes. It drops a line that can't be written.
#[derive(Drop)]
pub struct Messages<E>(pub E);

impl<E: Eprint> Log for Messages<E> {
    ghost enables = { λ _ _ _. Some true };

    ghost target_of = { λ _. Some [] };

    fn enabled(&self, _metadata: &Metadata<'_>) -> bool {
        true
    }

    fn log<D: Display, K: Source, S: Spans>(&self, record: &Record<'_, D, K, S>) {
        let front = front_of(record.target());
        let message = Shown(record.args());
        let _ = self.0.eprintln(format_args!("{front}{message}"));
    }

    fn flush(&self) {}

    fn target(&self) -> &str {
        ""
    }
}

/// Returns the text before a message of the given target.
fn front_of(target: &str) -> &'static str {
    if target == HINT { "  " } else { "undorc: " }
}
