//! A device in memory that takes what is due, and no more. It takes no memory itself.

use rc_board::Fault;
use rc_session::Refusal;
use std::io;
use std::io::{ErrorKind, Write};

/// A writer that takes one of two texts. What is left of either is nothing once other bytes have
/// come.
#[derive(Drop)]
pub(crate) struct Due {
    left: Option<&'static [u8]>,
    other: Option<&'static [u8]>,
}

/// What a command says where memory runs out.
const SHORT: &[u8] = b"undorc: Memory\n";

impl Due {
    /// Creates a writer that takes a text, or what is said if memory runs out.
    pub(crate) fn new(text: &'static str) -> Due {
        Due {
            left: Some(text.as_bytes()),
            other: Some(SHORT),
        }
    }

    /// Returns true if all of the text has come.
    pub(crate) fn is_whole(&self) -> bool {
        matches!(self.left, Some([]))
    }
}

impl Write for Due {
    fn write(&mut self, buf: &[u8]) -> io::Result<usize> {
        self.left = left_of(self.left, buf);
        self.other = left_of(self.other, buf);
        if self.left.is_none() && self.other.is_none() {
            return Err(io::Error::from(ErrorKind::InvalidData));
        }
        Ok(buf.len())
    }

    fn flush(&mut self) -> io::Result<()> {
        Ok(())
    }
}

fn left_of(text: Option<&'static [u8]>, buf: &[u8]) -> Option<&'static [u8]> {
    match text {
        Some(text) => text.strip_prefix(buf),
        None => None,
    }
}

/// Returns the result of a command that must end with the status `due`, by its output and its fault
/// text. A command that ran out of memory must have written nothing.
pub(crate) fn ended(status: u8, due: u8, writer: &Due, faults: &Due) -> Result<(), Fault> {
    if status == due && writer.is_whole() && faults.is_whole() {
        return Ok(());
    }
    let is_unwritten = matches!(writer.other, Some(SHORT));
    if status == 111 && is_unwritten && matches!(faults.other, Some([])) {
        return Err(Fault::Refused(Refusal::Memory));
    }
    Err(Fault::Strange)
}
