//! A whole input under a bound, and lines of one; an answer written whole; readers and writers
//! whose failures are noted; files that are read whole or replaced whole, one that is locked, and
//! those by which a run is logged and called off; the log of commands; what is inherited; messages
//! on standard error; what scripts wrote; and how a command ends.
#![tactic(auto)]

mod beside_file;
pub mod command_log;
pub mod ending;
pub mod escaping;
pub mod failed_file;
pub mod inherited;
mod input;
mod lines;
pub mod live_lock;
pub mod messages;
mod noted;
pub mod output_folder;
pub mod process_start;
pub mod replaced_file;
pub mod run_file;
pub mod stop_file;
mod tail;
mod umask;
pub mod whole_file;
pub mod writing;

pub use crate::input::{Failure, MAX_INPUT, failure_word, read_all, tell};
pub use crate::lines::{Lines, MAX_LINE};
pub use crate::noted::Noted;
