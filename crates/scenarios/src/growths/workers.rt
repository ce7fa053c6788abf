//! Commands by workers with a gate.

ghost use Rattle.std.specs.Prelude.{◌≡◌, false};

use crate::crews::{Meeting, Seen};
use crate::growths::told::go_on_to;
use rc_board::{Fault, change, redo, undo};
use rc_core::{Event, Outcome};
use rc_runner::{StepClock, TableGate};
use rc_session::{Refusal, Report, Session, Step};
use std::alloc::AllocGlobal;
use std::io::Print;
use std::sync::Wait;
use std::thread::Threads;
use std::time::Clock;

/// Returns true if a run was not stopped, or has one take, its end and the stop, and four services
/// are untried.
fn is_cut_short(report: &Report) -> bool {
    !report.stopped || (is_one_transition(&report.trace) && report.untried.len() == 4)
}

/// Returns true if a service was taken, its transition succeeded, and a stop came at moment 5.
fn is_one_transition(trace: &[Event]) -> bool {
    let [
        Event::Take(1, taken),
        Event::Done(1, ended, Outcome::Ok),
        Event::Stop(1, 5),
    ] = trace
    else {
        return false;
    };
    taken == ended
}

/// Carries a step out by so many workers.
pub(crate) fn by_workers<R: AllocGlobal + Threads + Wait + Clock + Sync>(
    rt: &R,
    session: &mut Session,
    workers: u8,
    step: Option<&Step>,
) -> Result<(), Fault>
    requires { session.old.begun ≡ false }
    ensures { session.new.begun ≡ false }
{
    by_clock(
        rt,
        session,
        workers,
        step,
        StepClock::new(Vec::new(rt.alloc())),
    )
}

/// Carries a step out by one worker, by a clock whose third moment is 5.
pub(crate) fn within<R: Print + AllocGlobal + Threads + Wait + Clock + Sync>(
    rt: &R,
    session: &mut Session,
    step: Option<&Step>,
) -> Result<(), Fault>
    requires { session.old.begun ≡ false }
    ensures { session.new.begun ≡ false }
{
    let Ok(moments) = Vec::from_slice(rt.alloc(), &[0, 0, 5]) else {
        return Err(Fault::Refused(Refusal::Memory));
    };
    go_on_to(rt, "change within 5");
    by_clock(rt, session, 1, step, StepClock::new(moments))
}

/// Carries a step out by a clock. It is strange if a step is refused although the gate was asked,
/// or if what was seen is not the run.
fn by_clock<R: AllocGlobal + Threads + Wait + Clock + Sync>(
    rt: &R,
    session: &mut Session,
    workers: u8,
    step: Option<&Step>,
    clock: StepClock,
) -> Result<(), Fault>
    requires { session.old.begun ≡ false }
    ensures { session.new.begun ≡ false }
{
    let gate = Meeting::of(rt, TableGate::new(Vec::new(rt.alloc()), clock));
    let seen = Seen::new();
    let answer = carried_out(rt, session, workers, step, &gate, &seen);
    let came = came_of(gate.calls(), &seen, &answer);
    drop(answer);
    drop((seen, gate));
    came
}

fn came_of(calls: usize, seen: &Seen, answer: &Result<Report, Fault>) -> Result<(), Fault> {
    match answer {
        Ok(report) if seen.saw(calls, report) && is_cut_short(report) => Ok(()),
        Err(fault) if calls == 0 => Err(*fault),
        _ => Err(Fault::Strange),
    }
}

fn carried_out<R: AllocGlobal + Threads + Wait + Clock + Sync>(
    rt: &R,
    session: &mut Session,
    workers: u8,
    step: Option<&Step>,
    gate: &Meeting<R>,
    seen: &Seen,
) -> Result<Report, Fault>
    requires { session.old.begun ≡ false }
    ensures { session.new.begun ≡ false }
{
    let alloc = rt.alloc();
    match step {
        Some(Step::Change(request, _)) => change(rt, alloc, session, request, gate, workers, seen),
        Some(Step::Undo(limit, _)) => undo(rt, alloc, session, *limit, gate, workers, seen),
        Some(Step::Redo(limit, _)) => redo(rt, alloc, session, *limit, gate, workers, seen),
        _ => Err(Fault::Refused(Refusal::NotEdit)),
    }
}
