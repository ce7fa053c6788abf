//! Workers that carry out the commands of a session: 1 to 64, of whom the caller is the first and
//! each other has a thread of its own. They take jobs from one board under a lock, have a gate make
//! the transitions, and show each event to a watch. Each event is made in one hold of the lock. The
//! kinds of hold are six for every number of workers: a take, an end, a stop, a look, the start and
//! a wait.
#![tactic(auto)]

mod board;
mod commands;
mod crew;
mod executor;
mod fault;
mod gate;
mod glance;
mod interleaving;
pub mod laws;
mod made;
mod note;
mod pad;
mod play;
mod time;
mod transition;
mod watch;
mod worker;

pub use crate::board::{Board, Start};
pub use crate::commands::{change, redo, undo};
pub use crate::executor::Executor;
pub use crate::fault::{Fault, Strange};
pub use crate::gate::Gate;
pub use crate::glance::Glance;
pub use crate::note::Note;
pub use crate::pad::Pad;
pub use crate::watch::{NoWatch, Watch};
