//! The options of a session.
ghost use Rattle.std.specs.Prelude.{◌≤◌};

use crate::defaults::{Defaults, named_or};
use crate::program_words::{Making, Programs};
use crate::verbosity::Verbosity;

/// The options of a command on a session.
#[derive(Drop)]
pub struct SessionRequest<'a> {
    /// How many transitions are made at once.
    pub workers: u8,
    /// How they are made.
    pub making: Making<'a>,
    /// Which transitions are reported.
    pub verbosity: Verbosity,
    /// How many states a new session has at most.
    pub bound: u32,
    /// The file that the session goes on with, and is kept in.
    pub live: Option<&'a str>,
    /// Whether that file is waited for where another program holds it.
    pub waits: bool,
    /// The directory that keeps what the last script of each service wrote.
    pub output: Option<&'a str>,
    ghost crew: { (1 ≤ workers) × (workers ≤ 64) },
    ghost states: { 3 ≤ bound },
}

impl<'a> SessionRequest<'a> {
    ghost use Rattle.std.specs.Prelude.{◌≡◌, ◌↔◌, IsTrue};
    ghost use Rattle.rc_args.specs.SessionAsked.{Starts, session_ask_of};
    ghost use Rattle.rc_args.specs.Defaults.{session_by, defaults_ask_of};

    /// Returns this request with the given defaults for the files, the programs and the directory
    /// that it does not name. If nothing is started, these defaults are left alone.
    pub fn with_defaults(mut self, defaults: Defaults<'a>) -> SessionRequest<'a>
        ensures { session_ask_of result
            ≡ session_by (defaults_ask_of defaults.entry) (session_ask_of self.entry) }
    {
        match self.making {
            Making::Table(_) => self,
            Making::Programs(programs) => {
                self.live = named_or(self.live, defaults.live);
                self.output = named_or(self.output, defaults.output);
                self.making = Making::Programs(Programs {
                    runner: named_or(programs.runner, defaults.runner),
                    controller: named_or(programs.controller, defaults.controller),
                    limit: programs.limit,
                });
                self
            }
        }
    }

    /// Returns true if the session starts programs.
    pub fn starts(&self) -> bool
        ensures { IsTrue result ↔ Starts (session_ask_of self.now) }
    {
        match self.making {
            Making::Table(_) => false,
            Making::Programs(_) => true,
        }
    }
}
