//! The commands and options of `undorc` for `clap`, and the matches that it returns for argv.

mod commands;
mod query_words;
mod told;
mod words;

pub use crate::cmdline::query_words::{NameQuery, NamesQuery, name_query, names_query};
pub use crate::cmdline::words::{entered, is_memory, is_on, matches_of};
