//! Hints after a fault: which file, which line, what stands there and what may stand there. They
//! are looked for after the fault was reported, and are for people. They change no exit status. If
//! nothing is found, there is no hint.

mod chains;
mod entries;
mod entry_flaws;
mod file_flaws;
mod interpreters;
mod listed;
mod name_flaws;
mod pipes;
mod places;
mod refusals;
mod said;
mod search;
mod slips;
mod unread;

pub use crate::command::diagnostics::entries::Sources;
pub use crate::command::diagnostics::file_flaws::word_of;
pub use crate::command::diagnostics::listed::{first_word, text_of};
pub use crate::command::diagnostics::name_flaws::{WrongName, wrong_name};
pub use crate::command::diagnostics::places::{cut_at, line_at};
pub use crate::command::diagnostics::refusals::compile_hint;
pub use crate::command::diagnostics::said::{Hint, Said};
pub use crate::command::diagnostics::slips::{is_one_edit, nearest};
pub use crate::command::diagnostics::unread::{looks_like_entry, unread_files};
