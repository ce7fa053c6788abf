//! Workers in threads of their own: a gate whose calls wait for each other, so that as many workers
//! as are wanted make transitions at the same time, and a watch that counts its looks.

ghost use Rattle.std.specs.Prelude.{◌≡◌, false};

use crate::samples::{LOG, NET, ROOT, many_longruns, session_after, steps_of, up_all};
use rc_board::{Fault, Gate, Glance, Watch, change};
use rc_core::{Event, Job, Outcome, Standing};
use rc_graph::Way;
use rc_runner::{StepClock, TableGate};
use rc_session::{Report, Session, Step};
use std::alloc::AllocGlobal;
use std::io;
use std::io::Print;
use std::sync::atomic::{AtomicUsize, Ordering};
use std::sync::{Condvar, Mutex, Wait};
use std::test::Fail;
use std::thread::Threads;
use std::time::{Clock, Duration};

/// The milliseconds that a call waits where another worker can make the one that it waits for.
const LONG: u64 = 10_000;

/// The milliseconds that a call waits where there is no other worker.
const SHORT: u64 = 100;

/// The deadline of a change that has a limit and begins at 0.
const LIMIT: u32 = 5;

/// Which calls of a gate wait for each other.
#[derive(Clone, Copy)]
pub(crate) struct Meet<'a> {
    /// The transitions whose calls do; all do where there are none.
    who: &'a [(u16, Way)],
    /// How many calls there are to be; later ones do not wait. Where this is 0 none does.
    many: usize,
}

impl Meet<'_> {
    /// Returns true if the call for a job is one of those that wait for each other.
    fn has(&self, job: &Job) -> bool {
        let one = (job.service(), job.way());
        self.many > 0 && (self.who.is_empty() || self.who.contains(&one))
    }
}

/// A gate over one that answers by a table. It counts its calls, some of which wait for each other.
#[derive(Drop)]
pub(crate) struct Meeting<'a, R: Wait> {
    rt: &'a R,
    gate: TableGate,
    meet: Meet<'a>,
    patience: Duration,
    came: Mutex<usize>,
    changed: Condvar,
    calls: AtomicUsize,
}

impl<'a, R: Wait + Clock> Meeting<'a, R> {
    /// Creates a gate whose calls wait for no others.
    pub(crate) fn of(rt: &'a R, gate: TableGate) -> Meeting<'a, R> {
        Meeting::new(rt, gate, Meet { who: &[], many: 0 }, 0)
    }

    fn new(rt: &'a R, gate: TableGate, meet: Meet<'a>, patience: u64) -> Meeting<'a, R> {
        Meeting {
            rt,
            gate,
            meet,
            patience: Duration::from_millis(patience),
            came: Mutex::new(0),
            changed: Condvar::new(),
            calls: AtomicUsize::new(0),
        }
    }

    /// Returns the number of calls of the gate.
    pub(crate) fn calls(&self) -> usize {
        self.calls.load(Ordering::SeqCst)
    }

    /// Counts a call, and waits until all are there. Returns true if they came in time.
    fn meets(&self) -> bool {
        let mut came = self.came.lock(self.rt);
        *came = came.saturating_add(1);
        self.changed.notify_all();
        let many = self.meet.many;
        let (came, waited) = self
            .changed
            .wait_timeout_while(self.rt, came, self.patience, |came| *came < many);
        drop(came);
        !waited.timed_out()
    }

    /// Returns true if all calls that wait for each other have come.
    fn has_met(&self) -> bool {
        let came = *self.came.lock(self.rt);
        self.meet.many > 0 && came >= self.meet.many
    }
}

impl<R: Wait + Clock + Sync> Gate for Meeting<'_, R> {
    ghost answers = { λ gate service way outcome. Unit {0} };

    ghost gives = { λ gate moment. Unit {0} };

    fn run(&self, job: Job) -> Outcome {
        self.calls.fetch_add(1, Ordering::SeqCst);
        if self.meet.has(&job) && !self.meets() {
            return Outcome::Failed(1);
        }
        self.gate.run(job)
    }

    /// Returns the moment of the gate, or the limit once all calls that wait for each other have
    /// come.
    fn now(&self) -> u64 {
        if self.has_met() {
            u64::from(LIMIT)
        } else {
            self.gate.now()
        }
    }
}

/// A watch that counts its looks, and remembers the most events and the most services up that one
/// of them saw.
#[derive(Drop)]
pub(crate) struct Seen {
    looks: AtomicUsize,
    events: AtomicUsize,
    up: AtomicUsize,
}

impl Seen {
    pub(crate) fn new() -> Seen {
        Seen {
            looks: AtomicUsize::new(0),
            events: AtomicUsize::new(0),
            up: AtomicUsize::new(0),
        }
    }

    /// Returns true if a gate was called once for each take of a run, each event was followed by a
    /// look, and one look saw all events. If services came up and none went down, one look must
    /// have seen all up that was up in the end.
    pub(crate) fn saw(&self, calls: usize, report: &Report) -> bool {
        let events = report.trace.len();
        let up = usize::from(report.opening.len()).saturating_add(report.raised.len());
        let only_rises = report.lowered.is_empty() && !report.raised.is_empty();
        calls == takes_in(&report.trace)
            && self.looks.load(Ordering::SeqCst) == events
            && self.events.load(Ordering::SeqCst) == events
            && (!only_rises || self.up.load(Ordering::SeqCst) == up)
    }
}

impl Watch for Seen {
    fn wants_looks(&self) -> bool {
        true
    }

    fn look(&self, glance: &Glance) {
        self.looks.fetch_add(1, Ordering::SeqCst);
        self.events
            .fetch_max(glance.events().len(), Ordering::SeqCst);
        self.up.fetch_max(up_in(glance), Ordering::SeqCst);
    }
}

/// Returns the number of services that are up, among the first 128.
fn up_in(glance: &Glance) -> usize {
    let mut up = 0usize;
    for service in 0..128 {
        if (service as usize) < glance.services() && glance.standing(service) == Standing::Up {
            up = up.saturating_add(1);
        }
    }
    up
}

fn takes_in(trace: &[Event]) -> usize {
    let mut takes = 0usize;
    for event in trace {
        if matches!(event, Event::Take(_, _)) {
            takes = takes.saturating_add(1);
        }
    }
    takes
}

/// What is shown, the steps before the change, the change, and the two calls that wait for each
/// other.
type Row = (&'static str, &'static str, &'static str, [(u16, Way); 2]);

static ROWS: [Row; 2] = [
    (
        "log and root wait for each other",
        "",
        "up",
        [(LOG, Way::Raise), (ROOT, Way::Raise)],
    ),
    (
        "net goes down and log comes up",
        "net",
        "prune",
        [(NET, Way::Lower), (LOG, Way::Raise)],
    ),
];

/// How many longruns come up, by how many workers, and under which limit. The first call of each
/// worker waits for those of all others.
static CREWS: [(u16, u8, u32); 6] = [
    (64, 1, 0),
    (64, 2, 0),
    (64, 64, 0),
    (128, 1, LIMIT),
    (128, 2, LIMIT),
    (128, 64, LIMIT),
];

/// Shows the results of changes whose transitions are made at the same time.
pub(crate) fn show_crews<R: Print + AllocGlobal + Threads + Wait + Clock + Sync>(
    rt: &R,
) -> Result<(), Fail> {
    for row in &ROWS {
        show_row(rt, row, 2, LONG)?;
        show_row(rt, row, 1, SHORT)?;
    }
    for (services, workers, limit) in &CREWS {
        show_crew(rt, *services, *workers, *limit)?;
    }
    Ok(())
}

/// Shows a change of the sample. One worker alone makes one call after the other, so that the first
/// of two waits in vain and fails.
fn show_row<R: Print + AllocGlobal + Threads + Wait + Clock + Sync>(
    rt: &R,
    row: &Row,
    workers: u8,
    patience: u64,
) -> Result<(), Fail> {
    let (what, after, by, who) = row;
    let steps = steps_of(rt.alloc(), by)?;
    let mut session = session_after(rt.alloc(), after)?;
    print!(rt; "{what}")?;
    let shown = show_change(
        rt,
        &mut session,
        steps.first(),
        workers,
        Meet { who, many: 2 },
        patience,
    );
    drop((session, steps));
    Ok(shown?)
}

/// Shows a change in which many longruns without dependencies come up.
fn show_crew<R: Print + AllocGlobal + Threads + Wait + Clock + Sync>(
    rt: &R,
    services: u16,
    workers: u8,
    limit: u32,
) -> Result<(), Fail> {
    let alloc = rt.alloc();
    let step = up_all(alloc, &["all"], limit, &[])?;
    let mut session = Session::new(alloc, many_longruns(alloc, services)?)?;
    print!(rt; "{services} longruns, limit {limit}")?;
    let meet = Meet {
        who: &[],
        many: usize::from(workers),
    };
    let shown = show_change(rt, &mut session, Some(&step), workers, meet, LONG);
    drop((session, step));
    Ok(shown?)
}

fn show_change<R: Print + AllocGlobal + Threads + Wait + Clock + Sync>(
    rt: &R,
    session: &mut Session,
    step: Option<&Step>,
    workers: u8,
    meet: Meet,
    patience: u64,
) -> io::Result<()>
    requires { session.old.begun ≡ false }
{
    let Some(Step::Change(request, _)) = step else {
        return println!(rt; ": no change");
    };
    let alloc = rt.alloc();
    let gate = TableGate::new(Vec::new(alloc), StepClock::new(Vec::new(alloc)));
    let gate = Meeting::new(rt, gate, meet, patience);
    let seen = Seen::new();
    let answer = change(rt, alloc, session, request, &gate, workers, &seen);
    let shown = show_answer(rt, workers, &seen, gate.calls(), &answer);
    drop((answer, seen, gate));
    shown
}

/// Prints the answer to a change. If transitions failed, prints only their number: which ones fail
/// is free.
fn show_answer(
    rt: &impl Print,
    workers: u8,
    seen: &Seen,
    calls: usize,
    answer: &Result<Report, Fault>,
) -> io::Result<()> {
    let report = match answer {
        Ok(report) => report,
        Err(fault) => return println!(rt; ", by {workers}: {fault}"),
    };
    print!(rt;
        ", by {workers}, seen as they were made: {}: ",
        seen.saw(calls, report)
    )?;
    let failed = report.failed.len();
    if failed > 0 {
        return println!(rt; "{failed} failed");
    }
    let (down, up, left) = (
        report.lowered.len(),
        report.raised.len(),
        report.untried.len(),
    );
    println!(rt; "{down} lowered, {up} raised, {left} untried")
}
