//! The command `db`: questions about a database.
ghost use Rattle.std.specs.Prelude.{◌≡◌, ◌≢◌, ◌⊎◌, ◌≤◌, ◌+◌, None, length, map, string_bytes};
ghost use Rattle.std.specs.Prelude.{IsSome};
ghost use Rattle.std.specs.Io.KnownBytes.{IsAtEnd};
ghost use Rattle.rc_dbtext.specs.Base.{bytes_of};
ghost use Rattle.rc_cli.specs.DbAnswer.{IsDbAnswer};
ghost use Rattle.rc_cli.specs.Queries.{IfRead, TellsDbFault};
ghost use Rattle.rc_args.specs.DbAsked.{AsksNothing, AsksSomething};
ghost use Rattle.rc_streams.specs.Input.{ConsumesAtMost, FailsWith, TellsFailure, WritesAll};
ghost use Rattle.rc_streams.specs.Input.{WritesFront};
ghost use Rattle.rc_streams.specs.Noting.{HasFailed, inner_of};

use crate::queries::running::{Query, run_query};
use rc_args::{db_asked, tell_words};
use rc_streams::{Failure, MAX_INPUT, Noted};
use std::alloc::Global;
use std::io::{Read, Write};

/// Runs `undorc db` with its arguments, and returns the exit status.
///
/// The database is `base`, if there is one, and then nothing is read. Otherwise the database is the
/// beginning of the input, and the rest of the input is ignored. The answer is written to `writer`,
/// and the reason why there is none to `faults`. No file is read, whatever `-l` and `-k` name:
/// `base` is asked, and a picture fills nothing.
pub fn db_run<R: Read, W: Write, F: Write>(
    alloc: Global,
    words: &[String],
    base: Option<&[u8]>,
    reader: &mut Noted<R>,
    writer: &mut Noted<W>,
    faults: &mut F,
) -> u8
    ensures statuses { (result ≡ 0) ⊎ (result ≡ 1) ⊎ (result ≡ 100) ⊎ (result ≡ 111) }

    // What was written is the answer of what the words ask, and nothing was told.
    ensures done { result ≡ 0 → IfRead (bytes_of base.entry) (R.remaining (inner_of reader.old))
        (λ input. WritesAll
        (IsDbAnswer (map string_bytes words.now) (bytes_of base.entry) None input)
        (W.contents (inner_of writer.old)) (W.contents (inner_of writer.new))) }
    ensures untold { result ≡ 0 → F.contents faults.new ≡ F.contents faults.old }

    // A refusal holds, and a prefix of its line was told, or all of it.
    ensures refused { result ≡ 1 → IfRead (bytes_of base.entry) (R.remaining (inner_of reader.old))
        (λ input. TellsDbFault
        (map string_bytes words.now) (bytes_of base.entry) None input
        (F.contents faults.old) (F.contents faults.new)) }

    // A wrong command line is found before anything is read.
    ensures wrong { result ≡ 100 → AsksNothing (map string_bytes words.now) }
    ensures right { result ≢ 100 → result ≢ 111 → AsksSomething (map string_bytes words.now) }
    ensures unread { result ≡ 100 → R.remaining (inner_of reader.new)
        ≡ R.remaining (inner_of reader.old) }

    // A failure is told by the line of its cause, and what was written is
    // nothing or a prefix of the answer.
    ensures failed { result ≡ 111 → TellsFailure (R.remaining (inner_of reader.old))
        (HasFailed reader.new) (HasFailed writer.new)
        (F.contents faults.old) (F.contents faults.new) }
    ensures read { HasFailed reader.new → HasFailed reader.old
        ⊎ FailsWith Failure.Read result (F.contents faults.old) (F.contents faults.new) }
    ensures written { HasFailed writer.new → HasFailed writer.old
        ⊎ FailsWith Failure.Write result (F.contents faults.old) (F.contents faults.new) }
    ensures begun { result ≡ 111 → (W.contents (inner_of writer.new)
        ≡ W.contents (inner_of writer.old))
        ⊎ IfRead (bytes_of base.entry) (R.remaining (inner_of reader.old)) (λ input. WritesFront
        (IsDbAnswer (map string_bytes words.now) (bytes_of base.entry) None input)
        (W.contents (inner_of writer.old)) (W.contents (inner_of writer.new))) }
    ensures unwritten { (result ≡ 1) ⊎ (result ≡ 100) → W.contents (inner_of writer.new)
        ≡ W.contents (inner_of writer.old) }

    // With a base nothing is read. Without one an input that was answered was read to its end, and
    // whatever the status, one byte past the bound is the last that is taken.
    ensures base { IsSome (bytes_of base.entry) → reader.new ≡ reader.old }
    ensures within { (result ≡ 0) ⊎ (result ≡ 1)
        → IfRead (bytes_of base.entry) (R.remaining (inner_of reader.old))
        (λ input. length input ≤ MAX_INPUT) }
    ensures end { (result ≡ 0) ⊎ (result ≡ 1) → bytes_of base.entry ≡ None
        → IsAtEnd (R.remaining (inner_of reader.new)) }
    ensures taken { ConsumesAtMost (R.remaining (inner_of reader.old))
        (R.remaining (inner_of reader.new)) (MAX_INPUT + 1) }
{
    match db_asked(alloc, words) {
        Ok(request) => run_query(
            alloc,
            &Query::Db(&request, None),
            base,
            reader,
            writer,
            faults,
        ),
        Err(fault) => tell_words(faults, &fault),
    }
}
