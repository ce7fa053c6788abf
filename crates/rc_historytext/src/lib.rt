//! The text of a history that goes across updates, and the moves of a history on it: the place of
//! its present generation, and of each generation its database and its session, as bytes, with its
//! marks and its renames. The texts of databases and sessions are not read here.
//!
//! Time and memory of reading grow with the lines outside these texts, those of writing with all
//! bytes.
#![tactic(auto)]

mod fault;
mod forms;
mod framed;
mod keeping;
pub mod laws;
mod lines;
mod marks;
pub mod move_laws;
mod moves;
mod offsets;
mod read;
mod session_text;
mod standing;
mod states;
pub mod travel_laws;
pub mod update_laws;
mod updating;
mod write;

pub use crate::fault::{HistoryFault, history_word};
pub use crate::forms::{GenerationForm, HistoryForm, RenameForm};
pub use crate::framed::Framed;
pub use crate::keeping::{Keeping, keep_session};
pub use crate::read::read_history;
pub use crate::standing::{
    Held, Present, Standing, database_at, is_history, present_of, standing_of,
};
pub use crate::states::states_around;
pub use crate::updating::{cross_border, enter_generation, new_history, settle_state};
pub use crate::write::write_history;
