//! What came of the run log beside the file of a session that is locked.
ghost use Rattle.std.specs.Prelude.{◌≡◌, option_map};
ghost use Rattle.rc_launch.specs.Recovered.{report_of};

use crate::held_files::HeldFiles;
use crate::texts::{LogText, ReadFiles};

/// What a recovery made of a run log that is not empty.
#[derive(Drop)]
pub enum Came {
    /// The log was of another text than that of the session, and is removed.
    Stale,
    /// What the log says is entered, with this report, and the log is removed.
    Entered(Vec<u8>),
    /// The log said nothing, and is removed.
    Nothing,
    /// The text is not that of a database, so the command is refused. The log stays.
    NoDatabase,
}

/// What came of a run log. Nothing but reading it makes one.
#[derive(Drop)]
pub enum Recovery<'a> {
    /// There was no log, or an empty one.
    Bare(LogText<'a>),
    /// There was one: what was read of both files, and what they hold since this came of it.
    Made(ReadFiles<'a>, HeldFiles<'a>, Came),
}

impl Recovery<'_> {
    /// Returns the report of what was entered, if anything was.
    pub fn report(&self) -> Option<&[u8]>
        ensures { option_map (λ report. report.now) result ≡ report_of self.now }
    {
        match self {
            Recovery::Made(_, _, Came::Entered(report)) => Some(report),
            _ => None,
        }
    }
}
