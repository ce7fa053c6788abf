//! Text for people, whose control characters are written as escapes: what a word, a path or a name
//! holds does nothing to a terminal, and makes no line that looks like one of the program's own.

use std::fmt::{self, Display, Formatter, Write as _};
use std::io::{self, Write};

/// The first byte of the control characters of two bytes, and the greatest byte that may follow it.
const LEAD: u8 = 0xC2;

const LAST: u8 = 0x9F;

/// A text that is displayed with its control characters as escapes, as `\u{1b}`.
#[derive(Clone, Copy)]
pub struct Shown<'a, D>(pub &'a D);

impl<D: Display> Display for Shown<'_, D> {
    fn fmt<W: fmt::Write>(&self, f: &mut Formatter<W>) -> fmt::Result {
        let mut out = Escaper(f);
        write!(out, "{}", self.0)
    }
}

/// A writer of text that escapes its control characters.
#[derive(Drop)]
struct Escaper<'a, W>(&'a mut W);

impl<W: fmt::Write> fmt::Write for Escaper<'_, W> {
    fn write_str(&mut self, text: &str) -> fmt::Result {
        for character in text.chars() {
            if character.is_control() {
                write!(self.0, "{}", character.escape_debug())?;
            } else {
                self.0.write_char(character)?;
            }
        }
        Ok(())
    }
}

/// A writer that writes the control characters of what it gets as escapes, but for ends of lines.
#[derive(Drop)]
pub struct Escaped<W> {
    inner: W,
    /// Whether it gets texts of several lines. Otherwise only the end of a line that is written
    /// alone ends one.
    has_lines: bool,
}

impl<W> Escaped<W> {
    /// Creates a writer of texts of several lines.
    pub fn of_text(inner: W) -> Escaped<W> {
        Escaped {
            inner,
            has_lines: true,
        }
    }

    /// Creates a writer of lines, whose ends are written alone.
    pub fn of_lines(inner: W) -> Escaped<W> {
        Escaped {
            inner,
            has_lines: false,
        }
    }
}

impl<W: Write> Write for Escaped<W> {
    fn write(&mut self, buf: &[u8]) -> io::Result<usize> {
        let plain = plain_in(buf, self.has_lines || buf.len() == 1);
        if plain > 0 {
            return self.inner.write(buf.get(..plain).unwrap_or(buf));
        }
        match control_of(buf, false) {
            Some((character, count)) => {
                write!(self.inner, "{}", character.escape_debug())?;
                Ok(count.min(buf.len()))
            }
            None => Ok(0),
        }
    }

    fn flush(&mut self) -> io::Result<()> {
        self.inner.flush()
    }
}

/// Returns the number of bytes before the first control character. If `has_lines` is set, an end of
/// a line is none.
fn plain_in(bytes: &[u8], has_lines: bool) -> usize {
    for place in 0..bytes.len() {
        if control_of(&bytes[place..], has_lines).is_some() {
            return place;
        }
    }
    bytes.len()
}

/// Returns the control character that the bytes begin with, and its length. If `has_lines` is set,
/// an end of a line is none.
fn control_of(bytes: &[u8], has_lines: bool) -> Option<(char, usize)> {
    match (bytes.first(), bytes.get(1)) {
        (Some(b'\n'), _) if has_lines => None,
        (Some(byte), _) if byte.is_ascii_control() => Some((char::from(*byte), 1)),
        (Some(lead), Some(byte)) if *lead == LEAD && *byte <= LAST => Some((char::from(*byte), 2)),
        _ => None,
    }
}
