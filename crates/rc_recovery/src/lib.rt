//! Recovery of a command that was cut short: from the events that its run log keeps to a settled
//! run of that very command, which the session enters as any other. Over the two files of a
//! session: what a crash leaves of them, and what the next command makes of that.
//!
//! Time grows with the takes times the events of the log, and with the texts.
#![tactic(auto)]

pub mod crash;
mod ends;
mod entering;
pub mod laws;
mod logged;
mod texts;
mod two_files;
mod ways;

pub use crate::crash::{FilesFault, recover_files};
pub use crate::ends::{with_ends, with_stop};
pub use crate::entering::recover;
pub use crate::logged::logged_events;
pub use crate::texts::{RecoverFault, Recovered, recover_text};
pub use crate::two_files::{FileFault, TwoFiles, begin_log, replace_and_empty};
pub use crate::ways::{UnderWay, log_end, under_way};
pub use rc_session::NoMem;
