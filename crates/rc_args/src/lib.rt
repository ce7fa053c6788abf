//! What argv asks of each command: the matches that `clap` makes of it, and the invocation.
#![tactic(auto)]

mod asked;
mod cmdline;
mod command_words;
mod compile_words;
mod db_words;
mod defaults;
mod invocation;
mod limits;
mod matched;
mod named_words;
mod once_words;
mod program_words;
mod renames;
mod replay_words;
mod session_command;
mod session_request;
mod session_words;
mod shown;
mod texts;
mod transitions;
mod update_words;
mod verbosity;

pub use crate::asked::{WordsFault, asks_help, lacks_words, plan_asked, tell_words};
pub use crate::cmdline::{NameQuery, NamesQuery};
pub use crate::compile_words::CompileRequest;
pub use crate::db_words::{DbRequest, Query, db_asked};
pub use crate::defaults::Defaults;
pub use crate::invocation::{Invocation, invocation_of};
pub use crate::named_words::NamedRequest;
pub use crate::once_words::{Once, OnceRequest};
pub use crate::program_words::{Making, Programs};
pub use crate::renames::{RenameFault, renames_in};
pub use crate::replay_words::replay_asked;
pub use crate::session_command::SessionCommand;
pub use crate::session_request::SessionRequest;
pub use crate::transitions::{ListFault, Transition, transitions_of};
pub use crate::update_words::UpdateRequest;
pub use crate::verbosity::Verbosity;
