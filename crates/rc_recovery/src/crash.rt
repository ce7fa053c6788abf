//! What a crash leaves of a command that is logged, and what the next command makes of it.

pub mod laws;
mod recovering;

pub use crate::crash::recovering::{FilesFault, recover_files};
