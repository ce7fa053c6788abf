//! The command `replay`: commands with the events of their runs, and what they come to.
ghost use Rattle.std.specs.Prelude.{◌≡◌, ◌≢◌, ◌⊎◌, ◌≤◌, ◌+◌, [], codes, None, length, map};
ghost use Rattle.std.specs.Prelude.{string_bytes, IfSome};
ghost use Rattle.std.specs.Io.KnownBytes.{IsAtEnd};
ghost use Rattle.rc_streams.specs.Input.{ConsumesAtMost, FailsWith, TellsFailure, WritesAll};
ghost use Rattle.rc_streams.specs.Input.{WritesFront};
ghost use Rattle.rc_streams.specs.Noting.{HasFailed, inner_of};
ghost use Rattle.rc_dbtext.specs.Base.{bytes_of};
ghost use Rattle.rc_dbtext.specs.Opening.{IsWrongBase};
ghost use Rattle.rc_args.specs.ReplayAsked.{AsksReplay};
ghost use Rattle.rc_args.specs.Words.{rows_for};
ghost use Rattle.rc_cli.specs.Queries.{TellsReplayFault};
ghost use Rattle.rc_cli.specs.Replay.{IsReplayFor};

use crate::queries::running::{Query, run_query};
use rc_args::{replay_asked, tell_words};
use rc_streams::{Failure, MAX_INPUT, Noted};
use std::alloc::Global;
use std::io::{Read, Write};

/// Runs `undorc replay` with its arguments, and returns the exit status.
///
/// The database is `base`, if there is one, which is checked before anything is read. Otherwise the
/// database is the beginning of the input. After it the input has the script. What the script comes
/// to is written to `writer`, and the reason why there is nothing to write to `faults`.
pub fn replay_run<R: Read, W: Write, F: Write>(
    alloc: Global,
    words: &[String],
    base: Option<&[u8]>,
    reader: &mut Noted<R>,
    writer: &mut Noted<W>,
    faults: &mut F,
) -> u8
    ensures statuses { (result ≡ 0) ⊎ (result ≡ 1) ⊎ (result ≡ 100) ⊎ (result ≡ 111) }

    // What was written is what the script comes to, and nothing was told.
    ensures done { result ≡ 0 → IfSome (R.remaining (inner_of reader.old)) (λ input. WritesAll
        (IsReplayFor (bytes_of base.entry) input) (W.contents (inner_of writer.old))
        (W.contents (inner_of writer.new))) }
    ensures untold { result ≡ 0 → F.contents faults.new ≡ F.contents faults.old }

    // A refusal holds, and a prefix of its line was told, or all of it.
    ensures refused { result ≡ 1 → IfSome (R.remaining (inner_of reader.old))
        (λ input. TellsReplayFault
        (bytes_of base.entry) input (F.contents faults.old) (F.contents faults.new)) }

    // A wrong command line is found before anything is read.
    ensures wrong { result ≡ 100 → rows_for (codes "replay") (map string_bytes words.now) ≡ None }
    ensures right { result ≢ 100 → result ≢ 111 → AsksReplay (map string_bytes words.now) }
    ensures unread { result ≡ 100 → R.remaining (inner_of reader.new)
        ≡ R.remaining (inner_of reader.old) }

    // A failure is told by the line of its cause, and what was written is nothing or a prefix of
    // what the script comes to.
    ensures failed { result ≡ 111 → TellsFailure (R.remaining (inner_of reader.old))
        (HasFailed reader.new) (HasFailed writer.new)
        (F.contents faults.old) (F.contents faults.new) }
    ensures read { HasFailed reader.new → HasFailed reader.old
        ⊎ FailsWith Failure.Read result (F.contents faults.old) (F.contents faults.new) }
    ensures written { HasFailed writer.new → HasFailed writer.old
        ⊎ FailsWith Failure.Write result (F.contents faults.old) (F.contents faults.new) }
    ensures begun { result ≡ 111 → (W.contents (inner_of writer.new)
        ≡ W.contents (inner_of writer.old))
        ⊎ IfSome (R.remaining (inner_of reader.old)) (λ input. WritesFront
        (IsReplayFor (bytes_of base.entry) input) (W.contents (inner_of writer.old))
        (W.contents (inner_of writer.new))) }
    ensures unwritten { (result ≡ 1) ⊎ (result ≡ 100) → W.contents (inner_of writer.new)
        ≡ W.contents (inner_of writer.old) }

    // A base comes first: where it is wrong the reader is as it was, nothing is written, and why is
    // told whatever the reader has.
    ensures first { IsWrongBase (bytes_of base.entry) → reader.new ≡ reader.old }
    ensures based { result ≡ 0 → IsWrongBase (bytes_of base.entry) → ⊥ }
    ensures untrue { result ≡ 1 → IsWrongBase (bytes_of base.entry)
        → TellsReplayFault (bytes_of base.entry) [] (F.contents faults.old)
        (F.contents faults.new) }

    // Any other input that was answered was read to its end, and whatever the status, one byte past
    // the bound is the last that is taken.
    ensures within { (result ≡ 0) ⊎ (result ≡ 1) → IsWrongBase (bytes_of base.entry)
        ⊎ IfSome (R.remaining (inner_of reader.old)) (λ input. length input ≤ MAX_INPUT) }
    ensures end { (result ≡ 0) ⊎ (result ≡ 1) → IsWrongBase (bytes_of base.entry)
        ⊎ IsAtEnd (R.remaining (inner_of reader.new)) }
    ensures taken { ConsumesAtMost (R.remaining (inner_of reader.old))
        (R.remaining (inner_of reader.new)) (MAX_INPUT + 1) }
{
    match replay_asked(alloc, words) {
        Ok(()) => run_query(alloc, &Query::Replay, base, reader, writer, faults),
        Err(fault) => tell_words(faults, &fault),
    }
}
