//! A gate that has the failures of its transitions remembered.
ghost use Rattle.std.specs.Prelude.{◌≡◌};

use crate::remembered::remember_run;
use rc_board::Gate;
use rc_core::{Job, Outcome};
use rc_session::{Command, Session};
use rc_streams::failed_file::is_there;
use std::marker::Model;
use std::sync::atomic::{AtomicBool, Ordering};

/// A gate that answers as another does. At the end of each command it has the ends that the run log
/// of the session states entered into its failures.
#[derive(Drop)]
pub struct Remembering<'a, G> {
    rt: &'a HostRuntime,
    /// The path of the file of the session, if its failures are remembered.
    path: Option<&'a str>,
    /// Whether a transition of the present command did not succeed.
    has_failed: AtomicBool,
    inner: G,
}

impl<'a, G> Model for Remembering<'a, G> {
    ghost Value = { G };

    ghost view = { λ r. r.inner };
}

impl<'a, G: Drop> Remembering<'a, G> {
    /// Creates a gate over the given one, for the session in the file at a path.
    pub fn new(rt: &'a HostRuntime, path: Option<&'a str>, inner: G) -> Remembering<'a, G>
        ensures { result ≡ inner }
    {
        Remembering {
            rt,
            path,
            has_failed: AtomicBool::new(false),
            inner,
        }
    }

    /// Enters the ends of the command that is over, if one is a failure or if failures are
    /// remembered.
    #[inline(never)]
    fn enter(&self, path: &str) {
        let has_failed = self.has_failed.swap(false, Ordering::SeqCst);
        if has_failed || is_there(self.rt, path) {
            remember_run(self.rt, path);
        }
    }
}

impl<'a, G: Gate + Drop> Gate for Remembering<'a, G> {
    ghost answers = { λ gate service way outcome. G.answers gate service way outcome };

    ghost gives = { λ gate moment. G.gives gate moment };

    #[inline(always)]
    fn run(&self, job: Job) -> Outcome {
        let outcome = self.inner.run(job);
        if outcome != Outcome::Ok {
            self.has_failed.store(true, Ordering::SeqCst);
        }
        outcome
    }

    fn now(&self) -> u64 {
        self.inner.now()
    }

    fn begin(&self, session: &Session, command: &Command) {
        self.inner.begin(session, command);
    }

    fn end(&self) {
        if let Some(path) = self.path {
            self.enter(path);
        }
        self.inner.end();
    }
}
