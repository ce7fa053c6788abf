//! Standard output of a command, or what is held of it until it can be completed.
use rc_launch::frontend::Answers;
use std::io::{self, ErrorKind, Write};

/// The answers of a command: printed at once, or held if something is to be added to them.
#[derive(Drop)]
pub struct Printed<'a> {
    pub answers: Answers<'a>,
    pub held: Option<Vec<u8>>,
}

impl Write for Printed<'_> {
    fn write(&mut self, buf: &[u8]) -> io::Result<usize> {
        match &mut self.held {
            Some(held) => match held.extend_from_slice(buf) {
                Ok(()) => Ok(buf.len()),
                Err(_) => Err(io::Error::from(ErrorKind::OutOfMemory)),
            },
            None => self.answers.write(buf),
        }
    }

    fn flush(&mut self) -> io::Result<()> {
        match &self.held {
            Some(_) => Ok(()),
            None => self.answers.flush(),
        }
    }
}
