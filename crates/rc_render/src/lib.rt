//! Answers as text: plans, the names that queries find, pictures, and what a session tells.
#![tactic(auto)]

mod answer;
mod dot;
mod journal;
mod lines;
mod plan;
mod refusal;
mod report;
mod stand;
mod told;

pub use crate::answer::answer_text;
pub use crate::dot::dot_text;
pub use crate::journal::{add_entries, journal_text, place_text};
pub use crate::lines::{id_lines, name_lines};
pub use crate::plan::plan_text;
pub use crate::refusal::{add_refusal_text, refusal_text, step_refusal_text, unknown_word};
pub use crate::report::report_text;
pub use crate::stand::{bundles_text, live_text};
pub use crate::told::with_ok;
pub use rc_set::NoMem;
