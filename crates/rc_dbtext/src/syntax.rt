//! The form of a database text: what it says, by names, and where bytes are no such text.
//!
//! Time and memory grow with the bytes.

mod fault;
mod forms;
pub mod laws;
mod lines;
mod words;

pub use crate::syntax::fault::FormFault;
pub use crate::syntax::forms::{BodyForm, DbForm, ServiceForm, read_form};
pub use crate::syntax::lines::Head;
