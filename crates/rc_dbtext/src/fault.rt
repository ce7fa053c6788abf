//! The faults of a database text, and the words that commands print for them.

ghost use Rattle.std.specs.Prelude.{◌≡◌, IfOk};
ghost use Rattle.rc_dbtext.specs.TextFaultWord.{text_word};

use rc_db::NoMem;
use std::alloc::Global;
use std::fmt;
use thiserror::Error;

/// Why bytes are not the text of a database.
#[derive(Clone, Copy, PartialEq, Eq, Debug, Error)]
pub enum TextFault {
    /// The line at this offset has not the form that is due there, or more bytes follow the text.
    Bad(usize),
    /// The first line names another version.
    Version,
    /// Names do not ascend, or one stands twice.
    NotSorted,
    /// Some service needs itself along a path.
    Cyclic,
    /// A count is above 4,096.
    TooMany,
    /// A name stands for no service, or for none that may stand there.
    Dangling,
    Memory,
}

// Returns the message of a fault, without its place.
fn told_of(fault: &TextFault) -> &'static str {
    match fault {
        TextFault::Bad(_) => "a line has not the form that is due",
        TextFault::Version => "another version",
        TextFault::NotSorted => "names do not ascend",
        TextFault::Cyclic => "services need each other in a circle",
        TextFault::TooMany => "more than 4,096 services or bundles",
        TextFault::Dangling => "a name of no service that may stand there",
        TextFault::Memory => "out of memory",
    }
}

impl fmt::Display for TextFault {
    fn fmt<W: fmt::Write>(&self, f: &mut fmt::Formatter<W>) -> fmt::Result {
        match self {
            TextFault::Bad(at) => write!(f, "{}, at byte {at}", told_of(self)),
            fault => f.write_str(told_of(fault)),
        }
    }
}

/// Returns the words that commands print for a fault of the text.
pub fn text_word(alloc: Global, fault: TextFault) -> Result<Vec<u8>, NoMem>
    ensures { IfOk result (λ text. text.items ≡ text_word fault) }
{
    match fault {
        TextFault::Bad(offset) => Ok(format!(in alloc; "Bad {offset}")?.into_bytes()),
        TextFault::Version => Vec::from_slice(alloc, b"Version"),
        TextFault::NotSorted => Vec::from_slice(alloc, b"NotSorted"),
        TextFault::Cyclic => Vec::from_slice(alloc, b"Cyclic"),
        TextFault::TooMany => Vec::from_slice(alloc, b"TooMany"),
        TextFault::Dangling => Vec::from_slice(alloc, b"Dangling"),
        TextFault::Memory => Vec::from_slice(alloc, b"Memory"),
    }
}
