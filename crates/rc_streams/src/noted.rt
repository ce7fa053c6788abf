//! Readers and writers whose failures are noted.
ghost use Rattle.std.specs.Prelude.{◌≡◌, ◌⊎◌, ◌↔◌, false, length, Err, IsErr, IsOk, IsTrue, OnErr};
ghost use Rattle.std.specs.Prelude.{OnOk};
ghost use Rattle.std.specs.IoError.{error_kind};
ghost use Rattle.std.specs.Io.{ReadsAtMost, WritesAtMost};
ghost use Rattle.std.specs.Io.KnownBytes.{Keeps, ReadConsumes, WriteAppends};
ghost use Rattle.rc_streams.specs.Noting.{CountsRow, HasFailed, IsFlushed, IsReadFault};
ghost use Rattle.rc_streams.specs.Noting.{IsWriteFault, inner_of, interrupts_of};

use crate::input::Failure;
use std::io;
use std::io::{ErrorKind, Read, Write};

/// The interrupted reads in a row that are no failure.
const MAX_INTERRUPTS: usize = 1_000;

/// A reader or a writer that notes whether a call of it has failed, and whether all that it took
/// was flushed.
#[derive(Drop)]
pub struct Noted<T> {
    inner: T,
    failed: bool,
    flushed: bool,
    interrupts: usize,
}

impl<T> Noted<T> {
    /// Wraps a reader or a writer.
    pub fn new(inner: T) -> Noted<T>
        ensures inner { inner_of result ≡ inner }
        ensures sound { result.failed ≡ false }
        ensures flushed { IsFlushed result }
        ensures row { interrupts_of result ≡ 0 }
    {
        Noted {
            inner,
            failed: false,
            flushed: true,
            interrupts: 0,
        }
    }

    /// Returns true if a call has failed: by an error, by a write that was interrupted or took
    /// nothing, or by the 1,001st read in a row that was interrupted.
    ///
    /// It goes by the results of this wrapper. No clause says that they are those of the wrapped
    /// device, since the contract of a read or write does not name its result.
    pub fn failed(&self) -> bool
        ensures { result ≡ self.now.failed }
    {
        self.failed
    }

    /// Returns true if neither a write nor a failed flush has come since the beginning or the last
    /// flush that did not fail.
    pub fn is_flushed(&self) -> bool
        ensures { IsTrue result ↔ IsFlushed self.now }
    {
        self.flushed
    }
}

impl<R: Read> Read for Noted<R> {
    ghost remaining = { λ n. R.remaining n.inner };

    fn read(&mut self, buf: &mut [u8]) -> io::Result<usize>
        ensures bound { ReadsAtMost result buf.new }
        ensures bytes { ReadConsumes (R.remaining (inner_of self.old))
            (R.remaining (inner_of self.new)) result buf.new }
        ensures failed { HasFailed self.new ↔
            (HasFailed self.old ⊎ IsReadFault (interrupts_of self.old) result) }
        ensures flushed { IsFlushed self.new ↔ IsFlushed self.old }
        ensures row { CountsRow (interrupts_of self.old) result (interrupts_of self.new) }
    {
        let outcome = self.inner.read(buf);
        match &outcome {
            Ok(_) => self.interrupts = 0,
            Err(e) if is_interrupted(e) && self.interrupts < MAX_INTERRUPTS => {
                self.interrupts += 1;
            }
            Err(_) => self.failed = true,
        }
        outcome
    }
}

impl<W: Write> Write for Noted<W> {
    ghost contents = { λ n. W.contents n.inner };

    fn write(&mut self, buf: &[u8]) -> io::Result<usize>
        ensures bound { WritesAtMost result buf.now }
        ensures bytes { WriteAppends (W.contents (inner_of self.old))
            (W.contents (inner_of self.new)) result buf.now }
        ensures failed { HasFailed self.new ↔
            (HasFailed self.old ⊎ IsWriteFault (length buf.now) result) }
        ensures unflushed { IsFlushed self.new → ⊥ }
    {
        self.flushed = false;
        let outcome = self.inner.write(buf);
        match &outcome {
            Ok(count) if *count > 0 || buf.is_empty() => {}
            _ => self.failed = true,
        }
        outcome
    }

    fn flush(&mut self) -> io::Result<()>
        ensures bytes { Keeps (W.contents (inner_of self.old)) (W.contents (inner_of self.new)) }
        ensures failed { HasFailed self.new ↔ (HasFailed self.old ⊎ IsErr result) }
        ensures flushed { IsFlushed self.new ↔ IsOk result }
    {
        let outcome = self.inner.flush();
        self.flushed = outcome.is_ok();
        if outcome.is_err() {
            self.failed = true;
        }
        outcome
    }
}

/// Reads once, and repeats a read that was interrupted, unless the reader has failed.
pub(crate) fn read_some<R: Read>(reader: &mut Noted<R>, buffer: &mut [u8]) -> Result<usize, Failure>
    ensures bound { ReadsAtMost result buffer.new }
    ensures bytes { ReadConsumes (R.remaining (inner_of reader.old))
        (R.remaining (inner_of reader.new)) result buffer.new }
    ensures sound { OnOk result (HasFailed reader.new → HasFailed reader.old) }
    ensures fault { OnErr result ((result ≡ Err Failure.Read) × HasFailed reader.new) }
{
    'again: loop {
        match reader.read(buffer) {
            Ok(count) => return Ok(count),
            Err(_) => {
                if reader.failed() {
                    return Err(Failure::Read);
                }
            }
        }
    }
}

fn is_interrupted(error: &io::Error) -> bool
    ensures { IsTrue result ↔ (error_kind error.now ≡ ErrorKind.Interrupted) }
{
    error.kind() == ErrorKind::Interrupted
}
