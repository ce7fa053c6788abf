//! What lies under the lock.

ghost use Rattle.std.specs.Prelude.{◌≡◌};

use rc_core::Run;
use std::marker::Model;

/// Whether the workers may begin.
#[derive(Clone, Copy, PartialEq, Eq, Debug)]
pub enum Start {
    /// Not all of them are there yet.
    Closed,
    Opened,
    /// Not all of them could be started.
    GivenUp,
}

/// What the workers share under one lock: the run, whether they may begin, and how many of them
/// wait for a change. Contracts see the run.
#[derive(Drop)]
pub struct Board {
    pub(crate) run: Run,
    start: Start,
    waiting: u8,
}

impl Model for Board {
    ghost use Rattle.rc_core.specs.Settled.{RunSoFar};

    ghost Value = { RunSoFar };

    ghost view = { λ b. b.run };
}

impl Board {
    /// Creates a board before its start.
    pub fn new(run: Run) -> Board
        ensures { result ≡ run }
    {
        Board {
            run,
            start: Start::Closed,
            waiting: 0,
        }
    }

    /// Returns whether the workers may begin.
    pub fn start(&self) -> Start {
        self.start
    }

    /// Opens the start, or gives it up.
    pub fn set_start(&mut self, start: Start)
        ensures { self.new ≡ self.old }
    {
        self.start = start;
    }

    /// Returns true if a worker waits for a change.
    pub(crate) fn is_awaited(&self) -> bool {
        self.waiting > 0
    }

    /// Counts one more worker that waits for a change.
    pub(crate) fn begin_wait(&mut self)
        ensures { self.new ≡ self.old }
    {
        self.waiting = self.waiting.saturating_add(1);
    }

    /// Counts one worker less that waits for a change.
    pub(crate) fn end_wait(&mut self)
        ensures { self.new ≡ self.old }
    {
        self.waiting = self.waiting.saturating_sub(1);
    }

    /// Returns the run that the board leaves.
    pub(crate) fn into_run(self) -> Run
        ensures { result ≡ self }
    {
        let Board {
            run,
            start: _,
            waiting: _,
        } = self;
        run
    }
}
