//! Sessions, of the lines of an input, of one line or of a restart: what each line says done, and
//! its answer out; and that they are kept in a file, from which the next one goes on.

mod beginning;
mod deciding;
mod failing;
mod gates;
mod host;
mod keeping;
mod launching;
mod one_line;
mod remembering;
mod restarting;
mod service;
mod serving;
mod session_fault;
mod showing;
mod steps;

pub use crate::sessions::beginning::begin;
pub use crate::sessions::deciding::{keep_fault, live_file, log_for, moves};
pub use crate::sessions::gates::gate_for;
pub use crate::sessions::host::{Host, RunFiles};
pub use crate::sessions::keeping::{KeptText, LiveFile, Store, TextKeeper};
pub use crate::sessions::launching::{launch, spelled, tell_ended};
pub use crate::sessions::one_line::line_once;
pub use crate::sessions::remembering::Remembering;
pub use crate::sessions::service::{Devices, Outputs, Service};
pub use crate::sessions::session_fault::SessionFault;
pub use crate::sessions::steps::{copied, step_line};
