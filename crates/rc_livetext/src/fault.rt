//! The faults of the text of a session, and the words that commands print for them.

ghost use Rattle.std.specs.Prelude.{◌≡◌, IfOk};
ghost use Rattle.rc_livetext.specs.LiveFaultWord.{live_word};

use rc_db::NoMem;
use std::alloc::Global;
use std::fmt;
use thiserror::Error;

/// Why bytes are not the text of a line of a database.
#[derive(Clone, Copy, PartialEq, Eq, Debug, Error)]
pub enum LiveFault {
    /// The line at this offset does not have the form that is due there, or more bytes follow the
    /// text.
    Bad(usize),
    /// The first line names another version.
    Version,
    /// A name stands for no service, or a bundle has the name of one.
    Unknown,
    /// In the state at this place, counted from 0, a service is up without all that it needs.
    NotClosed(usize),
    /// Two states in a row are equal.
    SameState,
    /// The services are not those of the database.
    OtherDb,
    Memory,
    /// There are more states than there may be.
    OverBound,
}

// Returns the message of a fault, without its place.
fn told_of(fault: &LiveFault) -> &'static str {
    match fault {
        LiveFault::Bad(_) => "a line has not the form that is due",
        LiveFault::Version => "another version",
        LiveFault::Unknown => "a name of no service, or a bundle with the name of one",
        LiveFault::NotClosed(_) => "something is up without all that it needs",
        LiveFault::SameState => "two states in a row are equal",
        LiveFault::OtherDb => "other services than those of the database",
        LiveFault::Memory => "out of memory",
        LiveFault::OverBound => "more states than there may be",
    }
}

impl fmt::Display for LiveFault {
    fn fmt<W: fmt::Write>(&self, f: &mut fmt::Formatter<W>) -> fmt::Result {
        match self {
            LiveFault::Bad(at) => write!(f, "{}, at byte {at}", told_of(self)),
            LiveFault::NotClosed(place) => write!(f, "in state {place} {}", told_of(self)),
            fault => f.write_str(told_of(fault)),
        }
    }
}

/// Returns the words that commands print for a fault of the text of a session.
pub fn live_word(alloc: Global, fault: LiveFault) -> Result<Vec<u8>, NoMem>
    ensures { IfOk result (λ text. text.items ≡ live_word fault) }
{
    match fault {
        LiveFault::Bad(offset) => Ok(format!(in alloc; "Bad {offset}")?.into_bytes()),
        LiveFault::Version => Vec::from_slice(alloc, b"Version"),
        LiveFault::Unknown => Vec::from_slice(alloc, b"Unknown"),
        LiveFault::NotClosed(place) => Ok(format!(in alloc; "NotClosed {place}")?.into_bytes()),
        LiveFault::SameState => Vec::from_slice(alloc, b"SameState"),
        LiveFault::OtherDb => Vec::from_slice(alloc, b"OtherDb"),
        LiveFault::Memory => Vec::from_slice(alloc, b"Memory"),
        LiveFault::OverBound => Vec::from_slice(alloc, b"OverBound"),
    }
}
