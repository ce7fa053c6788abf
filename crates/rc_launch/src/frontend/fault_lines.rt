//! A fault writer that keeps what it wrote.

use rc_compile::command::diagnostics::text_of;
use rc_names::NoMem;
use std::alloc::{AllocError, Global};
use std::io;
use std::io::Write;

/// A writer of faults that keeps what it wrote, where there is memory for all of it.
#[derive(Drop)]
pub struct Told<W> {
    inner: W,
    bytes: Vec<u8>,
    is_short: bool,
}

impl<W> Told<W> {
    /// Creates a writer that has reported nothing yet.
    pub fn new(alloc: Global, inner: W) -> Told<W> {
        Told {
            inner,
            bytes: Vec::new(alloc),
            is_short: false,
        }
    }

    /// Returns the first word of the fault that was reported, and the rest of its line, if there is
    /// one. Fails if there was no memory for all of it.
    pub fn fault(&self) -> Result<Option<(&str, &str)>, NoMem> {
        if self.is_short {
            return Err(AllocError);
        }
        Ok(fault_in(&self.bytes))
    }
}

/// Returns the first word of a fault's line, and the rest of that line.
fn fault_in(bytes: &[u8]) -> Option<(&str, &str)> {
    let Some(line) = text_of(bytes).strip_prefix("undorc: ") else {
        return None;
    };
    match line.strip_suffix('\n') {
        Some(line) => Some(word_and_rest(line)),
        None => None,
    }
}

/// Returns the text before the first space, and the text after it.
fn word_and_rest(line: &str) -> (&str, &str) {
    match line.split_once(' ') {
        Some(words) => words,
        None => (line, ""),
    }
}

impl<W: Write> Write for Told<W> {
    ghost contents = { λ told. W.contents told.inner };

    fn write(&mut self, buf: &[u8]) -> io::Result<usize> {
        let outcome = self.inner.write(buf);
        if let Ok(count) = &outcome {
            if self.bytes.extend_from_slice(&buf[..*count]).is_err() {
                self.is_short = true;
            }
        }
        outcome
    }

    fn flush(&mut self) -> io::Result<()> {
        self.inner.flush()
    }
}
