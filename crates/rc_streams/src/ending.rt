//! How a command ends: it writes its answer, or reports why there is none.
ghost use Rattle.std.specs.Prelude.{◌≡◌, ◌⊎◌};
ghost use Rattle.std.specs.Io.KnownBytes.{Appends};
ghost use Rattle.rc_streams.specs.Input.{AppendsFront, FailsWith, failure_text, fault_line};
ghost use Rattle.rc_streams.specs.Noting.{HasFailed, inner_of};

use crate::input::{Failure, failure_word, tell};
use crate::noted::Noted;
use crate::writing;
use std::io::Write;

/// Done.
pub const DONE: u8 = 0;
/// Refused, with a line that says why.
pub const REFUSED: u8 = 1;
/// A wrong command line.
pub const WRONG_LINE: u8 = 100;
/// A device failed, the input is too long, or memory ran out.
pub const FAILED: u8 = 111;

/// Prints a failure, and returns the exit status.
pub fn fail<F: Write>(faults: &mut F, failure: Failure) -> u8
    ensures status { result ≡ 111 }
    ensures told { AppendsFront (F.contents faults.old) (F.contents faults.new)
        (fault_line (failure_text failure)) }
{
    tell(faults, failure_word(failure));
    FAILED
}

/// Writes the whole answer, or prints that it could not, and returns the exit status.
pub fn write_answer<W: Write, F: Write>(writer: &mut Noted<W>, faults: &mut F, text: &[u8]) -> u8
    ensures statuses { (result ≡ 0) ⊎ (result ≡ 111) }
    ensures done { result ≡ 0 → Appends (W.contents (inner_of writer.old))
        (W.contents (inner_of writer.new)) text.now }
    ensures untold { result ≡ 0 → F.contents faults.new ≡ F.contents faults.old }
    ensures begun { AppendsFront (W.contents (inner_of writer.old))
        (W.contents (inner_of writer.new)) text.now }
    ensures failed { result ≡ 111 → HasFailed writer.new
        × FailsWith Failure.Write result (F.contents faults.old) (F.contents faults.new) }
    ensures sound { result ≡ 0 → HasFailed writer.new → HasFailed writer.old }
{
    match writing::write_answer(writer, text) {
        Ok(()) => DONE,
        Err(failure) => fail(faults, failure),
    }
}
