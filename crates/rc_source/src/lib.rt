//! Source trees: service directories with their files, in memory or in a file system, and the
//! definitions that these files give.
#![tactic(auto)]

mod definition;
mod entry;
mod fault;
mod file;
mod folder;
mod folder_tree;
mod found;
pub mod laws;
mod memory_tree;
mod read;
mod sets;
mod text;
mod tree;

pub use crate::definition::{Definition, Holds, files_of_kind};
pub use crate::fault::{Flaw, SourceFault};
pub use crate::folder_tree::FolderTree;
pub use crate::memory_tree::MemoryTree;
pub use crate::read::read_all;
pub use crate::tree::{Tree, TreeFault};
