//! Runs commands on their files. `open` locks the file of the session, reads it and the databases,
//! and enters what a killed command moved. `serve` carries the command out on what `open` read, and
//! `carry_out` leads it across the borders of a history. The module `frontend` runs the commands
//! without a session, and prints hints.
#![tactic(auto)]

mod asking;
mod borders;
mod carrying_out;
mod controllers;
pub mod crash_laws;
mod execution;
mod fault;
pub mod frontend;
mod fronts;
mod going_back;
mod held_files;
mod journal;
mod left_programs;
mod live_store;
mod loading;
mod mending;
mod numbers;
mod opened;
mod opening;
mod outcomes;
mod recovered;
mod recovering;
mod recovery;
mod runs;
mod serving;
mod showing;
mod texts;
mod travel;
mod tried_lock;
mod two_steps;

pub use crate::carrying_out::carry_out;
pub use crate::fault::OpenFault;
pub use crate::held_files::HeldFiles;
pub use crate::live_store::LiveStore;
pub use crate::opened::{Note, Opened, SeenLog};
pub use crate::opening::open;
pub use crate::recovered::{Came, Recovery};
pub use crate::recovering::{Unrecovered, left_report, recover_by};
pub use crate::runs::Runs;
pub use crate::serving::{Status, serve};
pub use crate::texts::{FileText, LiveText, LogText, ReadFiles};
