//! The commands `compile`, `db`, `plan` and `replay` on files; prompts at a terminal; hints after
//! faults and answers; why an update moves a service; which entries an undo takes back; and who may
//! read what `compile` writes. No contract covers what files hold or what people read. The
//! contracts of `rc_compile::command` and `rc_cli::queries` cover the answers.

mod answers;
mod compiling;
mod databases;
mod entries;
mod exposure;
mod fault_lines;
mod files;
mod hints;
mod moves;
mod querying;
mod terminal;
mod typing;

pub use crate::frontend::answers::Answers;
pub use crate::frontend::compiling::compile;
pub use crate::frontend::databases::Place;
pub use crate::frontend::entries::tell_entries;
pub use crate::frontend::fault_lines::Told;
pub use crate::frontend::hints::{
    Seen, ToldErrors, behind_session, tell_failure, tell_file, tell_no_history, told_errors,
};
pub use crate::frontend::moves::{tell_moves, tell_renames};
pub use crate::frontend::querying::query;
pub use crate::frontend::terminal::Typed;
pub use crate::frontend::typing::{FileOptions, ForShell};
