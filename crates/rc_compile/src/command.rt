//! The command `compile`: source directories as the text of a database, and what helps where they
//! have a fault.

mod compile;
mod compile_faults;
pub mod diagnostics;

pub use crate::command::compile::{compile_run, text_of};
pub use crate::command::compile_faults::{TreesFault, tell_trees};
