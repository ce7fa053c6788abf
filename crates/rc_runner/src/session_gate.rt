//! The gate of a session, which is of one of two kinds.

use crate::shell::ShellGate;
use crate::table::TableGate;
use log::Log;
use rc_board::Gate;
use rc_core::{Job, Outcome};
use rc_session::{Command, Session};
use std::fs::Files;
use std::process::Processes;
use std::time::Clock;

/// A gate that answers by a table, or one that starts programs.
#[derive(Drop)]
pub enum SessionGate<'a, R, L> {
    Table(TableGate),
    Shell(ShellGate<'a, R, L>),
}

impl<'a, R: Processes + Clock + Files + Sync, L: Log + Sync> Gate for SessionGate<'a, R, L> {
    ghost use Rattle.rc_runner.specs.Gates.{gate_answers, gate_gives};

    ghost answers = { gate_answers };

    ghost gives = { gate_gives };

    #[inline(always)]
    fn run(&self, job: Job) -> Outcome {
        match self {
            SessionGate::Table(table) => table.run(job),
            SessionGate::Shell(shell) => shell.run(job),
        }
    }

    fn now(&self) -> u64 {
        match self {
            SessionGate::Table(table) => table.now(),
            SessionGate::Shell(shell) => shell.now(),
        }
    }

    fn begin(&self, session: &Session, command: &Command) {
        match self {
            SessionGate::Table(table) => table.begin(session, command),
            SessionGate::Shell(shell) => shell.begin(session, command),
        }
    }

    fn end(&self) {
        match self {
            SessionGate::Table(table) => table.end(),
            SessionGate::Shell(shell) => shell.end(),
        }
    }
}
