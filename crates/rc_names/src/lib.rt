//! Names of services, the kinds of services, and a table of names in byte order.
#![tactic(auto)]

mod kind;
mod name;
mod names;

pub use kind::Kind;
pub use name::{Name, NameFault, is_name};
pub use names::{MAX_NAMES, Names};
use std::alloc::AllocError;

/// Out of memory: the only error of the calls that return it. A call that fails changes nothing.
pub type NoMem = AllocError;
