//! What tests share: small sets and databases, runs, and the files of a session in memory.

mod databases;
mod files;
mod same;
mod sets;
mod steps;
mod work;

pub use crate::samples::databases::{many_longruns, name_of, put, sample, words_of};
pub use crate::samples::files::MemoryFiles;
pub use crate::samples::same::{ALL, holds, is_due, is_report, is_same, is_same_line};
pub use crate::samples::sets::{DB, LOG, NET, ROOT, WEB, has_ids, set_of};
pub use crate::samples::steps::{session_after, steps_of, up_all};
pub use crate::samples::work::{run_between, settles};
