//! A log that takes nothing.

ghost use Rattle.std.specs.Prelude.{false, [], Some};

use log::kv::Source;
use log::span::Spans;
use log::{Log, Metadata, Record};
use std::fmt::Display;

/// A log that drops each record.
#[derive(Clone, Copy, Debug)]
pub struct NoLog;

impl Log for NoLog {
    ghost enables = { λ _ _ _. Some false };

    ghost target_of = { λ _. Some [] };

    fn enabled(&self, _metadata: &Metadata<'_>) -> bool {
        false
    }

    fn log<D: Display, K: Source, S: Spans>(&self, _record: &Record<'_, D, K, S>) {}

    fn flush(&self) {}

    fn target(&self) -> &str {
        ""
    }
}
