//! Standard input, where a person may type at a terminal. Before an input is read whole, a line
//! says so. A person who asks a session for help gets its lines. What is read is handed through
//! unchanged.
use log::info;
use rc_streams::messages::{MESSAGE, Messages};
use std::io::{self, IsTerminal, Read, Stdin};

/// The help on the lines of a session.
const LINES: &str =
    "end the session with ^D; its lines are change, undo, redo, live, journal and more";

/// Standard input, and what is still to be said of it. What is read whole is kept, where there is
/// memory for all of it.
#[derive(Drop)]
pub struct Typed<'a> {
    rt: &'a HostRuntime,
    inner: Stdin,
    is_terminal: bool,
    helps: bool,
    reads: Option<&'static str>,
    keeps: bool,
    kept: Vec<u8>,
    is_short: bool,
}

impl<'a> Typed<'a> {
    /// Creates standard input. `reads` names what is read whole from it, and is `None` if it is
    /// read line by line.
    pub fn new(rt: &'a HostRuntime, reads: Option<&'static str>) -> Typed<'a> {
        let inner = rt.stdin();
        let is_terminal = inner.is_terminal();
        Typed {
            rt,
            inner,
            is_terminal,
            helps: is_terminal && reads.is_none(),
            reads,
            keeps: reads.is_some(),
            kept: Vec::new(rt.alloc()),
            is_short: false,
        }
    }

    /// Returns the bytes of an input that is read whole, if there was memory for them.
    pub fn kept(&self) -> Option<&[u8]> {
        if self.is_short {
            return None;
        }
        Some(&self.kept)
    }

    /// Prints what is read, if it is read from a terminal.
    fn announce(&self, what: &str) {
        if self.is_terminal {
            info!(
                Messages(self.rt); target: MESSAGE,
                "reading {what} from the terminal; end it with ^D"
            );
        }
    }
}

impl Read for Typed<'_> {
    fn read(&mut self, buf: &mut [u8]) -> io::Result<usize> {
        if let Some(what) = self.reads.take() {
            self.announce(what);
        }
        let outcome = self.inner.read(buf);
        if let Ok(count) = &outcome {
            if self.keeps && self.kept.extend_from_slice(&buf[..*count]).is_err() {
                self.is_short = true;
            }
            if self.helps && asks_for_help(&buf[..*count]) {
                info!(Messages(self.rt); target: MESSAGE, "{LINES}");
            }
        }
        outcome
    }
}

/// Returns true if a line asks for the lines of a session, or how to leave.
fn asks_for_help(line: &[u8]) -> bool {
    matches!(line, b"help\n" | b"?\n" | b"quit\n" | b"exit\n")
}
