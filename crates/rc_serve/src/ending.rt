//! How a line ends, and its answer.
ghost use Rattle.std.specs.Prelude.{◌≡◌};
ghost use Rattle.rc_session.specs.Report.{told_of};
ghost use Rattle.rc_serve.specs.Ending.{ending_of};

use rc_session::Report;

/// How a line ends.
#[derive(Clone, Copy, PartialEq, Eq, Debug)]
pub enum Ending {
    /// All that was planned is done, or what was requested is shown.
    Done = 0,
    /// It is refused, and nothing has changed.
    Refused = 1,
    /// It was carried out, and something failed, was blocked or was not tried.
    Hindered = 2,
}

/// The answer to a line, and how that ends.
#[derive(Drop)]
pub(crate) struct Answer {
    pub text: Vec<u8>,
    pub ending: Ending,
}

/// Returns the ending of a command that was carried out, by its report.
pub(crate) fn ending_of(report: &Report) -> Ending
    ensures { result ≡ ending_of (told_of report.now) }
{
    if report.failed.is_empty() && report.blocked.is_empty() && report.untried.is_empty() {
        return Ending::Done;
    }
    Ending::Hindered
}

/// Creates the answer to what is refused.
pub(crate) fn refused(text: Vec<u8>) -> Answer
    ensures ending { result.ending ≡ Ending.Refused }
    ensures text { result.text ≡ text }
{
    Answer {
        text,
        ending: Ending::Refused,
    }
}

/// Creates the answer to what is done, or shown.
pub(crate) fn done(text: Vec<u8>) -> Answer
    ensures ending { result.ending ≡ Ending.Done }
    ensures text { result.text ≡ text }
{
    Answer {
        text,
        ending: Ending::Done,
    }
}
