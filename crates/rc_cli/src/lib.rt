//! The commands of `undorc`, over readers, writers and trees, under one name: `plan`, `db` and
//! `replay` in the module `queries`; sessions, of many lines or of one, in `sessions`; an update,
//! which is two lines, each of a session of its own; and `compile`.
#![tactic(auto)]

mod begun;
mod checking;
mod controlled;
mod failures;
mod fault;
mod findings;
pub mod laws;
mod moving;
pub mod queries;
mod remembered;
mod sealing;
pub mod sessions;
mod shown_failures;
mod since;
mod status;
mod straying;
mod update;
mod updating;

pub use crate::begun::{logs_step, logs_way};
pub use crate::checking::{Findings, check_as_asked, controller_of, find_as_asked};
pub use crate::queries::{db_run, plan_run, replay_run};
pub use crate::remembered::remember;
pub use crate::sealing::seal_as_asked;
pub use crate::sessions::{LiveFile, Service, Store, TextKeeper, launch};
pub use crate::status::{RunLog, status_as_asked};
pub use crate::straying::lower_strays;
pub use crate::update::update_as_asked;
pub use rc_compile::command::compile_run;
pub use rc_serve::{KeepFault, Keeper, ServeFault, Unkept, serve, serve_kept};
pub use rc_streams::{MAX_INPUT, Noted};
