//! A gate that logs how transitions end.

ghost use Rattle.std.specs.Prelude.{◌≡◌, ◌<◌, ◌-◌, ◌^◌, IfOk};

use crate::copy::names_of;
use crate::messages::tell;
use crate::outputs::{event_for, last_line, says_more};
use crate::start::millis_since;
use log::{Level, Log, log_enabled};
use rc_board::Gate;
use rc_core::{Job, Outcome};
use rc_db::{Db, NoMem};
use rc_graph::Way;
use rc_session::{Command, Session};
use rc_streams::messages::MESSAGE;
use rc_streams::output_folder::OutputFolder;
use std::alloc::Global;
use std::marker::Model;
use std::time::Instant;

/// A gate that answers as another does, and logs each outcome: the moment by the clock of that
/// gate, the way, the name of the service, and how its transition ended. The line of a failure ends
/// with what the program wrote last, if that is kept.
#[derive(Drop)]
pub struct Telling<'a, L, G> {
    rt: &'a HostRuntime,
    log: &'a L,
    alloc: Global,
    /// The names of the services whose outcomes are logged: all, or none.
    names: Vec<String>,
    inner: G,
    /// Where the output of the programs is kept, if anywhere.
    outputs: Option<OutputFolder<'a>>,
    /// When it was made, where the clock could be read.
    start: Option<Instant>,
}

impl<'a, L, G> Model for Telling<'a, L, G> {
    ghost Value = { G };

    ghost view = { λ t. t.inner };
}

impl<'a, L: Log, G: Drop> Telling<'a, L, G> {
    /// Creates a gate over the given one. Keeps no names if the log takes no outcomes.
    pub fn new(
        rt: &'a HostRuntime,
        log: &'a L,
        alloc: Global,
        db: &Db,
        inner: G,
        outputs: Option<OutputFolder<'a>>,
    ) -> Result<Telling<'a, L, G>, NoMem>
        ensures { IfOk result (λ telling. telling ≡ inner) }
    {
        if !log_enabled!(log; target: MESSAGE, Level::Warn) {
            let names = Vec::new(alloc);
            return Ok(Telling {
                rt,
                log,
                alloc,
                names,
                inner,
                outputs,
                start: None,
            });
        }
        match names_of(alloc, db) {
            Ok(names) => Ok(Telling {
                rt,
                log,
                alloc,
                names,
                inner,
                outputs,
                start: Instant::now(rt).ok(),
            }),
            Err(fault) => {
                drop(inner);
                Err(fault)
            }
        }
    }

    /// Logs how the transition of a service ended, and when.
    #[inline(never)]
    fn tell_end(&self, now: u64, service: u16, way: Way, outcome: Outcome) {
        if let Some(name) = self.names.get(service as usize) {
            let past = millis_since(self.rt, self.start).unwrap_or(0);
            let moment = shown_moment(now, past);
            let said = self.said_last(name.as_str(), outcome);
            let event = event_for(outcome, said.as_deref());
            tell(self.log, self.alloc, moment, way, name.as_str(), event);
            drop(said);
        }
    }
}

impl<'a, L: Log, G> Telling<'a, L, G> {
    /// Returns what the program of a service wrote last, if the report of this outcome ends with
    /// that.
    fn said_last(&self, name: &str, outcome: Outcome) -> Option<String> {
        if !says_more(outcome) {
            return None;
        }
        last_line(self.alloc, self.outputs, name)
    }
}

impl<'a, L: Log + Sync, G: Gate + Drop> Gate for Telling<'a, L, G> {
    ghost answers = { λ gate service way outcome. G.answers gate service way outcome };

    ghost gives = { λ gate moment. G.gives gate moment };

    #[inline(always)]
    fn run(&self, job: Job) -> Outcome {
        let service = job.service();
        let way = job.way();
        let outcome = self.inner.run(job);
        if !self.names.is_empty() {
            self.tell_end(self.inner.now(), service, way, outcome);
        }
        outcome
    }

    fn now(&self) -> u64 {
        self.inner.now()
    }

    fn begin(&self, session: &Session, command: &Command) {
        self.inner.begin(session, command);
    }

    fn end(&self) {
        self.inner.end();
    }
}

/// Returns the moment to report, where a gate's clock gives `now` and `past` milliseconds have
/// passed since the gate was made. If the run is called off, the clock stands at the last moment
/// that there is.
fn shown_moment(now: u64, past: u64) -> u64
    ensures on { now < 2 ^ 64 - 1 → result ≡ now }
    ensures off { now ≡ 2 ^ 64 - 1 → result ≡ past }
{
    if now == u64::MAX { past } else { now }
}
