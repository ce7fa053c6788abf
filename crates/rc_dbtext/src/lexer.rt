//! Texts of lines of words: what their lines say, and what refuses bytes.
//!
//! Time and memory grow with the bytes.

pub mod laws;
mod line_words;
mod lines;
mod name_word;
mod order;
mod words;

pub use crate::lexer::line_words::Words;
pub use crate::lexer::lines::{BundleForm, argument, arguments, number_line};
pub use crate::lexer::name_word::{NameWord, names_of};
pub use crate::lexer::order::{ascend, is_before};
pub use crate::lexer::words::{is, is_number, number_of, value_of, words_of};
