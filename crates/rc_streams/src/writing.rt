//! Answers written whole.
ghost use Rattle.std.specs.Prelude.{◌≡◌, OnOk, OnErr};
ghost use Rattle.std.specs.Io.KnownBytes.{Appends};
ghost use Rattle.rc_streams.specs.Input.{AppendsFront};
ghost use Rattle.rc_streams.specs.Noting.{HasFailed, IsFlushed, inner_of};

use crate::input::Failure;
use crate::noted::Noted;
use std::io::Write;

/// Writes all of an answer, and flushes. A write that fails, takes nothing or is
/// interrupted is not tried again.
pub fn write_answer<W: Write>(writer: &mut Noted<W>, answer: &[u8]) -> Result<(), Failure>
    ensures whole { OnOk result (Appends (W.contents (inner_of writer.old))
        (W.contents (inner_of writer.new)) answer.now) }

    // Whatever the result, only a prefix of the answer is written.
    ensures front { AppendsFront (W.contents (inner_of writer.old))
        (W.contents (inner_of writer.new)) answer.now }
    ensures flushed { OnOk result (IsFlushed writer.new) }
    ensures sound { OnOk result (HasFailed writer.new → HasFailed writer.old) }
    ensures fault { OnErr result ((result ≡ Err Failure.Write) × HasFailed writer.new) }
{
    let mut rest = answer;
    while !rest.is_empty() {
        match writer.write(rest) {
            Ok(count) if count > 0 => rest = &rest[count..],
            _ => return Err(Failure::Write),
        }
    }
    match writer.flush() {
        Ok(()) => Ok(()),
        Err(_) => Err(Failure::Write),
    }
}
