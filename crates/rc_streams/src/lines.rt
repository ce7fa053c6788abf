//! Lines of an input under bounds.
ghost use Rattle.std.specs.Prelude.{◌≡◌, ◌⊎◌, ◌+◌, ◌<◌, ◌≤◌, ◌++◌, false, length, Err, IfOk};
ghost use Rattle.std.specs.Prelude.{OnOk, OnErr, IfErr, MatchOption};
ghost use Rattle.rc_streams.specs.Noting.{HasFailed, inner_of};
ghost use Rattle.rc_streams.specs.Taking.{HandsLine, HandsNothing, BeginsTooLong, IsOneLine};
ghost use Rattle.rc_streams.specs.Taking.{IsPartFault, IsRefillFault, LacksLine, MovesPart};
ghost use Rattle.rc_streams.specs.Taking.{Refills, Takes, fresh};

use crate::input::{Failure, MAX_INPUT};
use crate::noted::{Noted, read_some};
use std::alloc::Global;
use std::io::Read;
use std::marker::Model;

/// The bytes that a line may have at most, without its newline.
pub const MAX_LINE: usize = 65_536;

/// The most bytes that one read asks for.
const MAX_PIECE: usize = 8_192;

/// The lines of an input, as they come. A read is made only where no whole line is held.
///
/// Time: it grows with the bytes of the input.
#[derive(Drop)]
pub struct Lines {
    /// The last piece that was read.
    piece: Vec<u8>,
    /// How much of it was handed out.
    used: usize,
    /// How many bytes were read in all.
    taken: usize,
}

impl Model for Lines {
    ghost use Rattle.std.specs.Prelude.{◌≤◌, drop, vec_len};
    ghost use Rattle.rc_streams.specs.Taking.{Held};

    ghost Value = { Held };

    ghost view = { λ l. record { pending = drop l.used l.piece.items; taken = l.taken } };

    ghost invariant = { λ l. (l.used ≤ vec_len l.piece) × (l.taken ≤ 16777217) };
}

impl Lines {
    /// Creates the lines of an input of which nothing was read yet.
    pub fn new(alloc: Global) -> Lines
        ensures { result ≡ fresh }
    {
        Lines {
            piece: Vec::new(alloc),
            used: 0,
            taken: 0,
        }
    }

    /// Returns the next line without its newline, and whether it ends in one. A line that does not
    /// is the last. Returns none if there is no more.
    pub fn next<R: Read>(
        &mut self,
        alloc: Global,
        reader: &mut Noted<R>,
    ) -> Result<Option<(Vec<u8>, bool)>, Failure>
        requires { HasFailed reader.old → ⊥ }
        ensures line { IfOk result (λ next. MatchOption next
            (HandsNothing (R.remaining (inner_of reader.old))
            (R.remaining (inner_of reader.new)) self.old self.new)
            (λ found. HandsLine found.1 (R.remaining (inner_of reader.old))
            (R.remaining (inner_of reader.new)) self.old self.new found.0.items)) }

        // No read is made while a whole line is held.
        ensures waits { IsOneLine self.old.pending ⊎ (reader.new ≡ reader.old) }
        ensures fault { IfErr result (LacksLine (HasFailed reader.new)
            (R.remaining (inner_of reader.old))
            (R.remaining (inner_of reader.new)) self.old self.new) }
        ensures taken { Takes (R.remaining (inner_of reader.old))
            (R.remaining (inner_of reader.new)) self.old.taken self.new.taken }
        ensures within { self.new.taken ≤ 16777217 }
        ensures sound { OnOk result (HasFailed reader.new → ⊥) }

        // A failed read is reported as such, so no read is made before a whole line that was read
        // is returned.
        ensures told { HasFailed reader.new → result ≡ Err Failure.Read }
    {
        let mut line = Vec::new(alloc);
        loop {
            if self.take_line(&mut line)? {
                return Ok(Some((line, true)));
            }
            if self.refill(reader)? == 0 {
                return Ok(if line.is_empty() {
                    None
                } else {
                    Some((line, false))
                });
            }
        }
    }

    /// Moves the held bytes up to the newline to the end of `line`. Returns true if the line is
    /// whole.
    fn take_line(&mut self, line: &mut Vec<u8>) -> Result<bool, Failure>
        requires { IsOneLine line.old.items }
        ensures moved { IfOk result (λ whole.
            MovesPart whole self.old self.new line.old.items line.new.items) }
        ensures short { OnOk result (length line.new.items ≤ MAX_LINE) }
        ensures fault { IfErr result (IsPartFault
            (BeginsTooLong (line.old.items ++ self.old.pending))) }
        ensures same { OnErr result (self.new ≡ self.old) }
        ensures within { self.new.taken ≤ 16777217 }
    {
        let held = &self.piece[self.used..];
        match held.iter().position(|byte| *byte == b'\n') {
            Some(end) => {
                add_part(line, &held[..end])?;
                self.used += end + 1;
                Ok(true)
            }
            None => {
                add_part(line, held)?;
                self.used = self.piece.len();
                Ok(false)
            }
        }
    }

    /// Reads the next piece, and returns its length, which is 0 at the end of the input.
    fn refill<R: Read>(&mut self, reader: &mut Noted<R>) -> Result<usize, Failure>
        requires { HasFailed reader.old → ⊥ }
        ensures read { IfOk result (Refills (R.remaining (inner_of reader.old))
            (R.remaining (inner_of reader.new)) self.old self.new) }
        ensures taken { Takes (R.remaining (inner_of reader.old))
            (R.remaining (inner_of reader.new)) self.old.taken self.new.taken }
        ensures within { self.new.taken ≤ 16777217 }
        ensures sound { OnOk result (HasFailed reader.new → ⊥) }
        ensures told { HasFailed reader.new → result ≡ Err Failure.Read }
        ensures fault { IfErr result (IsRefillFault (HasFailed reader.new)
            (R.remaining (inner_of reader.old))
            (R.remaining (inner_of reader.new)) self.old.taken self.new.taken) }
    {
        if self.taken > MAX_INPUT {
            return Err(Failure::TooLong);
        }
        let mut buffer = [0; MAX_PIECE];
        let room = (MAX_INPUT + 1 - self.taken).min(MAX_PIECE);
        let count = read_some(reader, &mut buffer[..room])?;
        self.taken += count;
        self.used = 0;
        self.piece.clear();
        self.piece.extend_from_slice(&buffer[..count])?;
        Ok(count)
    }
}

/// Appends a part to a line. Fails if the line would exceed its bound.
fn add_part(line: &mut Vec<u8>, part: &[u8]) -> Result<(), Failure>
    ensures added { OnOk result (line.new.items ≡ line.old.items ++ part.now) }
    ensures short { OnOk result (length line.new.items ≤ MAX_LINE) }
    ensures fault { IfErr result (IsPartFault (65536 < length line.old.items + length part.now)) }
{
    if line.len() > MAX_LINE || part.len() > MAX_LINE - line.len() {
        return Err(Failure::TooLong);
    }
    line.extend_from_slice(part)?;
    Ok(())
}
