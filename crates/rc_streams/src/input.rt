//! A whole input under a bound, and how a failure is reported.
ghost use Rattle.std.specs.Prelude.{◌≡◌, ◌⊎◌, ◌+◌, ◌<◌, ◌≤◌, Err, IfOk, IfErr, IfSome, OnOk};
ghost use Rattle.std.specs.Prelude.{vec_len};
ghost use Rattle.std.specs.Io.KnownBytes.{Appends, IsAtEnd};
ghost use Rattle.rc_streams.specs.declared.input.Failure.TheVariants.{Memory};
ghost use Rattle.rc_streams.specs.Input.{AppendsFront, ConsumesAtMost, IsCause, MovesPiece};
ghost use Rattle.rc_streams.specs.Input.{fault_line, failure_text};
ghost use Rattle.rc_streams.specs.Noting.{HasFailed, inner_of};

use crate::noted::{Noted, read_some};
use std::alloc::{AllocError, Global};
use std::io;
use std::io::{ErrorKind, Read, Write};
use thiserror::Error;

/// The bytes that an input may have at most.
pub const MAX_INPUT: usize = 16_777_216;

/// The most bytes that one read asks for.
const MAX_PIECE: usize = 8_192;

/// Why a command ends without an answer although nothing is refused.
#[derive(Clone, Copy, PartialEq, Eq, Debug, Error)]
pub enum Failure {
    /// The input has more than `MAX_INPUT` bytes.
    #[error("more than 16,777,216 bytes of input")]
    TooLong,
    /// A read failed.
    #[error("the input can't be read")]
    Read,
    /// A write failed, took nothing, or was interrupted.
    #[error("the output can't be written")]
    Write,
    /// There was no memory.
    #[error("out of memory")]
    Memory,
}

impl From<AllocError> for Failure {
    ghost from_gives = { λ _ fault. fault ≡ Memory };

    fn from(_: AllocError) -> Failure {
        Failure::Memory
    }
}

/// Returns the word for a failure.
pub fn failure_word(fault: Failure) -> &'static [u8]
    ensures { result.now ≡ failure_text fault }
{
    match fault {
        Failure::TooLong => b"TooLong",
        Failure::Read => b"Read",
        Failure::Write => b"Write",
        Failure::Memory => b"Memory",
    }
}

/// Reads the whole input, up to the read that returns no byte.
pub fn read_all<R: Read>(alloc: Global, reader: &mut Noted<R>) -> Result<Vec<u8>, Failure>
    ensures whole { IfOk result (λ bytes.
        IfSome (R.remaining (inner_of reader.old)) (λ input. bytes.items ≡ input)) }
    ensures end { OnOk result (IsAtEnd (R.remaining (inner_of reader.new))) }
    ensures within { IfOk result (λ bytes. vec_len bytes ≤ MAX_INPUT) }
    ensures fault { IfErr result (IsCause (R.remaining (inner_of reader.old))
        (HasFailed reader.new) ⊥) }

    // A failed read is reported as such.
    ensures told { HasFailed reader.new → HasFailed reader.old ⊎ (result ≡ Err Failure.Read) }

    // Whatever the result, at most one byte past the bound is taken.
    ensures taken { ConsumesAtMost (R.remaining (inner_of reader.old))
        (R.remaining (inner_of reader.new)) (MAX_INPUT + 1) }
{
    let mut bytes = Vec::new(alloc);
    while bytes.len() <= MAX_INPUT {
        let room = MAX_INPUT + 1 - bytes.len();
        if take_piece(reader, room, &mut bytes)? == 0 {
            return Ok(bytes);
        }
    }
    Err(Failure::TooLong)
}

/// Moves the reader's next piece to the end of `bytes`, and returns its length: at most `room`, and
/// 0 at the reader's end.
fn take_piece<R: Read>(
    reader: &mut Noted<R>,
    room: usize,
    bytes: &mut Vec<u8>,
) -> Result<usize, Failure>
    requires { 0 < room }
    ensures moved { IfOk result (MovesPiece (R.remaining (inner_of reader.old))
        (R.remaining (inner_of reader.new)) bytes.old.items bytes.new.items) }
    ensures fits { IfOk result (λ count. count ≤ room) }
    ensures end { IfOk result (λ count.
        count ≡ 0 → IsAtEnd (R.remaining (inner_of reader.new))) }
    ensures sound { OnOk result (HasFailed reader.new → HasFailed reader.old) }
    ensures fault { IfErr result (λ failure.
        (failure ≡ Memory) ⊎ ((failure ≡ Failure.Read) × HasFailed reader.new)) }
    ensures told { HasFailed reader.new → HasFailed reader.old ⊎ (result ≡ Err Failure.Read) }
    ensures taken { ConsumesAtMost (R.remaining (inner_of reader.old))
        (R.remaining (inner_of reader.new)) room }
{
    let mut buffer = [0; MAX_PIECE];
    let most = room.min(MAX_PIECE);
    let count = read_some(reader, &mut buffer[..most])?;
    bytes.extend_from_slice(&buffer[..count])?;
    Ok(count)
}

/// Writes the line `undorc: WHAT`. Drops a line that cannot be written.
pub fn tell<F: Write>(faults: &mut F, what: &[u8])
    ensures { AppendsFront (F.contents faults.old) (F.contents faults.new) (fault_line what.now) }
{
    let _ = write_fault(faults, what);
}

/// Writes the line `undorc: WHAT`, and flushes.
fn write_fault<F: Write>(faults: &mut F, what: &[u8]) -> io::Result<()>
    ensures whole { OnOk result (Appends (F.contents faults.old) (F.contents faults.new)
        (fault_line what.now)) }
    ensures front { AppendsFront (F.contents faults.old) (F.contents faults.new)
        (fault_line what.now) }
{
    write_every(faults, b"undorc: ")?;
    write_every(faults, what)?;
    write_every(faults, b"\n")?;
    faults.flush()
}

/// Writes all of `bytes`. Does not repeat a write that fails, takes nothing or is interrupted by a
/// signal.
fn write_every<W: Write>(writer: &mut W, bytes: &[u8]) -> io::Result<()>
    ensures whole { OnOk result (Appends (W.contents writer.old) (W.contents writer.new)
        bytes.now) }
    ensures front { AppendsFront (W.contents writer.old) (W.contents writer.new) bytes.now }
{
    let mut rest = bytes;
    while !rest.is_empty() {
        match writer.write(rest)? {
            0 => return Err(io::Error::from(ErrorKind::WriteZero)),
            count => rest = &rest[count..],
        }
    }
    Ok(())
}
