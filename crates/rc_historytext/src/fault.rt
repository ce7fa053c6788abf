//! The faults of the text of a history, and the words that commands print for them.

ghost use Rattle.std.specs.Prelude.{◌≡◌, IfOk};
ghost use Rattle.rc_historytext.specs.HistoryFaultWord.{history_word};

use std::alloc::{AllocError, Global};
use thiserror::Error;

/// Why bytes are not the text of a history.
#[derive(Clone, Copy, PartialEq, Eq, Debug, Error)]
pub enum HistoryFault {
    /// The line at this offset does not have the form that is due there, or more bytes follow the
    /// text.
    #[error("a line has not the form that is due, at byte {0}")]
    Bad(usize),
    /// The first line names another version.
    #[error("another version")]
    Version,
    #[error("out of memory")]
    Memory,
}

/// Returns the words that commands print for a fault of the text of a history.
pub fn history_word(alloc: Global, fault: HistoryFault) -> Result<Vec<u8>, AllocError>
    ensures { IfOk result (λ text. text.items ≡ history_word fault) }
{
    match fault {
        HistoryFault::Bad(offset) => Ok(format!(in alloc; "Bad {offset}")?.into_bytes()),
        HistoryFault::Version => Vec::from_slice(alloc, b"Version"),
        HistoryFault::Memory => Vec::from_slice(alloc, b"Memory"),
    }
}
