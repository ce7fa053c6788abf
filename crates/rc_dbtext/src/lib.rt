//! The text of a database: bytes to a database and back; the lines of words that such texts are
//! made of; and the database of a command, from a text of its own or from the front of the input.
#![tactic(auto)]

mod base;
mod build;
mod bundles;
mod complete;
mod fault;
pub mod laws;
pub mod lexer;
mod lines;
mod opening;
mod read;
mod sorted;
pub mod syntax;
mod write;

pub use crate::base::database_of;
pub use crate::bundles::{known_set, table_of};
pub use crate::complete::bundles_are_complete;
pub use crate::fault::{TextFault, text_word};
pub use crate::lines::{push_bundle, push_line, push_set, push_word};
pub use crate::opening::{OpenFault, Opened, open};
pub use crate::read::{read_db, read_db_front};
pub use crate::write::write_db;
pub use rc_db::NoMem;
