//! Plans: which services a change lowers, which it raises, and which it keeps.
#![tactic(auto)]

pub mod laws;
mod plans;
mod request;
mod select;
mod sides;

pub use crate::plans::{Plan, between, plan_up};
pub use crate::request::{Choice, Chosen, Flags, Mode, PlanFault, Request};
pub use crate::select::plan;
pub use rc_set::NoMem;
