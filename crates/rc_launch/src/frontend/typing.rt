//! Commands for people to type: the files that they name, and words as a shell reads them.
use std::fmt::{self, Display, Formatter};

/// A word that a shell reads as one: quoted, unless each of its characters is plain.
#[derive(Clone, Copy)]
pub struct ForShell<'a>(pub &'a str);

impl Display for ForShell<'_> {
    fn fmt<W: fmt::Write>(&self, f: &mut Formatter<W>) -> fmt::Result {
        if is_plain(self.0) {
            return f.write_str(self.0);
        }
        f.write_char('\'')?;
        for character in self.0.chars() {
            if character == '\'' {
                f.write_str("'\\''")?;
            } else {
                f.write_char(character)?;
            }
        }
        f.write_char('\'')
    }
}

/// Returns true if no character of a word means anything to a shell, and there is one.
fn is_plain(word: &str) -> bool {
    for byte in word.bytes() {
        if !byte.is_ascii_alphanumeric() && !b"%+,-./:@_".contains(&byte) {
            return false;
        }
    }
    !word.is_empty()
}

/// The files of a command, as the options of another command that is to be typed.
#[derive(Clone, Copy)]
pub struct FileOptions<'a> {
    pub base: Option<&'a str>,
    pub live: Option<&'a str>,
}

impl FileOptions<'_> {
    /// Returns true if both files are named.
    pub fn are_both(&self) -> bool {
        self.base.is_some() && self.live.is_some()
    }
}

impl Display for FileOptions<'_> {
    fn fmt<W: fmt::Write>(&self, f: &mut Formatter<W>) -> fmt::Result {
        if let Some(path) = self.base {
            let path = ForShell(path);
            write!(f, " -b {path}")?;
        }
        if let Some(path) = self.live {
            let path = ForShell(path);
            write!(f, " -l {path}")?;
        }
        Ok(())
    }
}
