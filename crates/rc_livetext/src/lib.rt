//! The text of a line of states: bytes to a line of a database and back. First its form: what it
//! says, by names, and where bytes are no such text.
//!
//! Time and memory of reading and writing grow with the text.
#![tactic(auto)]

mod fault;
mod form_fault;
pub mod form_laws;
mod form_states;
mod forms;
mod heads;
mod known;
pub mod laws;
mod lines;
mod making;
mod read;
mod states;
mod write;

pub use crate::fault::{LiveFault, live_word};
pub use crate::form_fault::FormFault;
pub use crate::form_states::StateForm;
pub use crate::forms::{LiveForm, read_form};
pub use crate::read::read_live;
pub use crate::write::write_live;
pub use rc_db::NoMem;
pub use rc_dbtext::lexer::BundleForm;
