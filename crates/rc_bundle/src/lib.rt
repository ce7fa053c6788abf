//! Edits of bundles: what a change of the table alters, name by name, and the commands
//! that define and remove bundles.
#![tactic(auto)]

mod commands;
mod edit;
mod fault;
pub mod laws;
mod words;

pub use crate::commands::{add, added, delete, removed};
pub use crate::edit::Edit;
pub use crate::fault::BundleFault;
pub use rc_set::NoMem;
