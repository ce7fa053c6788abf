//! Session lines: the bytes of a line, and what it says; and scripts, as `undorc replay` reads
//! them: commands with the events of their runs.
//!
//! Time and memory grow with the line, and with the script.
#![tactic(auto)]

mod events;
pub mod laws;
mod line;
mod numbers;
mod options;
mod processes;
mod run_lines;
mod script;
mod verb;
mod words;

pub use crate::line::{SessionLine, read_line};
pub use crate::processes::{Process, named_process, process_line};
pub use crate::run_lines::{STEP_MARK, event_line, head_line, step_line};
pub use crate::script::{ScriptFault, read_script};
pub use crate::words::{is_digits, texts_of, words_of};
pub use rc_names::NoMem;
