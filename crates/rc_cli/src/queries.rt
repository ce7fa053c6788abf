//! The commands that read a database and what is after it whole, and answer: `plan`, `db` and
//! `replay`.

mod db;
mod db_answer;
mod db_fault;
mod named;
mod outcome;
mod plan;
mod played;
mod replay;
mod running;

pub use crate::queries::db::db_run;
pub use crate::queries::db_fault::query_hint;
pub use crate::queries::plan::plan_run;
pub use crate::queries::replay::replay_run;
pub use crate::queries::running::{Query, run_query};
