//! Updates: what of a live set is carried over from one database to another, under which names,
//! what is lowered before, what is raised after, and how a service that moves differs.
#![tactic(auto)]

mod border;
mod carrying;
mod conversion;
mod difference;
mod distinct;
mod knowing;
pub mod laws;
mod twins;

pub use crate::border::are_carried;
pub use crate::carrying::{Update, carry, names_of, staying};
pub use crate::conversion::Conversion;
pub use crate::difference::{Difference, difference_of};
pub use crate::distinct::first_twice;
pub use crate::knowing::first_unknown;
pub use rc_set::NoMem;
