//! The driver of the queries `plan`, `db` and `replay`: it reads, prints and returns the status.
ghost use Rattle.std.specs.Prelude.{◌≡◌, ◌⊎◌, ◌≤◌, ◌+◌, [], IfSome, length};
ghost use Rattle.std.specs.Io.KnownBytes.{IsAtEnd};
ghost use Rattle.rc_dbtext.specs.Base.{bytes_of};
ghost use Rattle.rc_dbtext.specs.Opening.{IsWrongBase};
ghost use Rattle.rc_streams.specs.Input.{ConsumesAtMost, FailsWith, TellsFailure};
ghost use Rattle.rc_streams.specs.Input.{WritesAll, WritesFront};
ghost use Rattle.rc_streams.specs.Noting.{HasFailed, inner_of};
ghost use Rattle.rc_cli.specs.Queries.{IsAnswerOf, IsPrinted, ReadsNothing, TellsRefusal, input_of};
ghost use Rattle.rc_cli.specs.Queries.{query_ask_of, reads_of};

use crate::fault::{Fault, print_fault};
use crate::queries::outcome::outcome_of;
use rc_args::DbRequest;
use rc_select::Request;
use rc_streams::ending::write_answer;
use rc_streams::{Failure, MAX_INPUT, Noted};
use std::alloc::Global;
use std::io::{Read, Write};

/// A query of a database, and of the text after it.
#[derive(Clone, Copy)]
pub enum Query<'a, 'r> {
    /// The plan of a change, where the text names the services that are up.
    Plan(&'a Request),
    /// What the script in the text comes to.
    Replay,
    /// A query of the database alone. A picture shows the session with this text.
    Db(&'a DbRequest<'r>, Option<&'a [u8]>),
}

impl Query<'_, '_> {
    /// Returns true if the text after the database is read, too.
    pub(crate) fn reads(&self) -> bool
        ensures { result ≡ reads_of self.now }
    {
        match self {
            Query::Plan(_) | Query::Replay => true,
            Query::Db(..) => false,
        }
    }
}

/// Runs a query, and returns the exit status: 0, 1 for a refusal, or 111 for a failure.
///
/// The database is `base`, if there is one, and otherwise the front of the input. A wrong base ends
/// the query before anything is read. With a base, a query of the database alone reads nothing.
pub fn run_query<R: Read, W: Write, F: Write>(
    alloc: Global,
    query: &Query<'_, '_>,
    base: Option<&[u8]>,
    reader: &mut Noted<R>,
    writer: &mut Noted<W>,
    faults: &mut F,
) -> u8
    ensures statuses { (result ≡ 0) ⊎ (result ≡ 1) ⊎ (result ≡ 111) }

    // The answer was written whole, and nothing was reported.
    ensures done { result ≡ 0 → IfSome (input_of (reads_of query.now) (bytes_of base.entry)
        (R.remaining (inner_of reader.old))) (λ input. WritesAll
        (IsAnswerOf (query_ask_of query.now) (bytes_of base.entry) input)
        (W.contents (inner_of writer.old)) (W.contents (inner_of writer.new))) }
    ensures untold { result ≡ 0 → F.contents faults.new ≡ F.contents faults.old }

    // A refusal holds, and its line was printed, or a prefix of it.
    ensures refused { result ≡ 1 → IfSome (input_of (reads_of query.now) (bytes_of base.entry)
        (R.remaining (inner_of reader.old))) (λ input. TellsRefusal
        (query_ask_of query.now) (bytes_of base.entry) input (F.contents faults.old)
        (F.contents faults.new)) }

    // A failure prints the line of its cause. What was written is nothing or a prefix of the
    // answer.
    ensures failed { result ≡ 111 → TellsFailure (input_of (reads_of query.now)
        (bytes_of base.entry) (R.remaining (inner_of reader.old)))
        (HasFailed reader.new) (HasFailed writer.new)
        (F.contents faults.old) (F.contents faults.new) }
    ensures read { HasFailed reader.new → HasFailed reader.old
        ⊎ FailsWith Failure.Read result (F.contents faults.old) (F.contents faults.new) }
    ensures written { HasFailed writer.new → HasFailed writer.old
        ⊎ FailsWith Failure.Write result (F.contents faults.old) (F.contents faults.new) }
    ensures begun { result ≡ 111 → (W.contents (inner_of writer.new)
        ≡ W.contents (inner_of writer.old))
        ⊎ IfSome (input_of (reads_of query.now) (bytes_of base.entry)
        (R.remaining (inner_of reader.old))) (λ input. WritesFront
        (IsAnswerOf (query_ask_of query.now) (bytes_of base.entry) input)
        (W.contents (inner_of writer.old)) (W.contents (inner_of writer.new))) }
    ensures unwritten { result ≡ 1 → W.contents (inner_of writer.new)
        ≡ W.contents (inner_of writer.old) }

    // A base comes first: if it is wrong, nothing is read and there is no answer, and the line says
    // why whatever the reader has.
    ensures first { IsWrongBase (bytes_of base.entry) → reader.new ≡ reader.old }
    ensures unread { ReadsNothing (reads_of query.now) (bytes_of base.entry)
        → reader.new ≡ reader.old }
    ensures based { result ≡ 0 → IsWrongBase (bytes_of base.entry) → ⊥ }
    ensures untrue { result ≡ 1 → IsWrongBase (bytes_of base.entry)
        → TellsRefusal (query_ask_of query.now) (bytes_of base.entry) [] (F.contents faults.old)
        (F.contents faults.new) }

    // Any other input that was answered was read to its end, and whatever the status, one byte past
    // the bound is the last that is taken.
    ensures within { (result ≡ 0) ⊎ (result ≡ 1) → IsWrongBase (bytes_of base.entry)
        ⊎ IfSome (input_of (reads_of query.now) (bytes_of base.entry)
        (R.remaining (inner_of reader.old))) (λ input. length input ≤ MAX_INPUT) }
    ensures end { (result ≡ 0) ⊎ (result ≡ 1) → IsWrongBase (bytes_of base.entry)
        ⊎ IsAtEnd (input_of (reads_of query.now) (bytes_of base.entry)
        (R.remaining (inner_of reader.new))) }
    ensures taken { ConsumesAtMost (R.remaining (inner_of reader.old))
        (R.remaining (inner_of reader.new)) (MAX_INPUT + 1) }
{
    let outcome = outcome_of(alloc, query, base, reader);
    let status = print_outcome(alloc, writer, faults, &outcome);
    drop(outcome);
    status
}

/// Prints an answer, or the line of a fault, and returns the status.
fn print_outcome<W: Write, F: Write>(
    alloc: Global,
    writer: &mut Noted<W>,
    faults: &mut F,
    outcome: &Result<Vec<u8>, Fault>,
) -> u8
    ensures { IsPrinted outcome.now result (HasFailed writer.old) (HasFailed writer.new)
        (W.contents (inner_of writer.old)) (W.contents (inner_of writer.new))
        (F.contents faults.old) (F.contents faults.new) }
{
    match outcome {
        Ok(text) => write_answer(writer, faults, text),
        Err(fault) => print_fault(alloc, faults, fault),
    }
}
