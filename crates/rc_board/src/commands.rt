//! Changes, undos and redos by workers with a gate.

ghost use Rattle.std.specs.Prelude.{◌≡◌, ◌↔◌, ℕ, false, [], IsTrue, IfOk, IfErr};
ghost use Rattle.rc_select.specs.Ask.{ask_of};
ghost use Rattle.rc_model.specs.Run.{course_of};
ghost use Rattle.rc_model.specs.Beside.{IsCourse};
ghost use Rattle.rc_model.specs.Session.{Command, Change, Undo, Redo};
ghost use Rattle.rc_session.specs.Report.{told_of};
ghost use Rattle.rc_session.specs.Holding.{IsBegun, with_line};
ghost use Rattle.rc_board.specs.Crew.{IsCrew};
ghost use Rattle.rc_board.specs.Halting.{IsHaltOf};
ghost use Rattle.rc_board.specs.Working.{IsCarriedOut, IsFault, LeavesSession};

use crate::executor::Executor;
use crate::fault::Fault;
use crate::gate::Gate;
use crate::play::{Course, Halt, played};
use crate::watch::Watch;
use rc_select::Request;
use rc_session::{Begun, Refusal, Report, Session};
use std::alloc::Global;
use std::sync::Wait;
use std::thread::Threads;

/// Makes a change with this many workers, from 1 to 64. The gate returns how the transitions ended,
/// and each event is shown to the watch. If nothing is to move, nothing happens, whatever the
/// timeout: no event, and no stop.
pub fn change<R: Threads + Wait + Sync, G: Gate, W: Watch>(
    rt: &R,
    alloc: Global,
    session: &mut Session,
    request: &Request,
    gate: &G,
    workers: u8,
    watch: &W,
) -> Result<Report, Fault>
    requires { session.old.begun ≡ false }
    ensures done { IfOk result (λ report.
        IsCarriedOut workers (G.answers gate.now) (G.gives gate.now) session.old
        (Change (ask_of request.now) []) (told_of report) session.new) }
    ensures fault { IfErr result (IsFault workers session.old (Change (ask_of request.now) [])) }
    ensures left { IfErr result (λ fault. LeavesSession session.old fault session.new) }
    ensures closed { session.new.begun ≡ false }
{
    if !is_crew(workers) {
        return Err(Fault::Workers);
    }
    let executor = Executor {
        rt,
        alloc,
        gate,
        workers,
    };
    let start = gate.now();
    match session.begin_change(alloc, request, start) {
        Ok(begun) => carry_out(&executor, watch, session, begun),
        Err(refusal) => Err(Fault::Refused(refusal)),
    }
}

/// Goes back towards the state before the current one, with workers, gate and watch as in `change`.
/// `limit` is the timeout in milliseconds, 0 for none.
pub fn undo<R: Threads + Wait + Sync, G: Gate, W: Watch>(
    rt: &R,
    alloc: Global,
    session: &mut Session,
    limit: u32,
    gate: &G,
    workers: u8,
    watch: &W,
) -> Result<Report, Fault>
    requires { session.old.begun ≡ false }
    ensures done { IfOk result (λ report.
        IsCarriedOut workers (G.answers gate.now) (G.gives gate.now) session.old (Undo limit [])
        (told_of report) session.new) }
    ensures fault { IfErr result (IsFault workers session.old (Undo limit [])) }
    ensures left { IfErr result (λ fault. LeavesSession session.old fault session.new) }
    ensures closed { session.new.begun ≡ false }
{
    if !is_crew(workers) {
        return Err(Fault::Workers);
    }
    let executor = Executor {
        rt,
        alloc,
        gate,
        workers,
    };
    let start = gate.now();
    match session.begin_undo(alloc, limit, start) {
        Ok(begun) => carry_out(&executor, watch, session, begun),
        Err(refusal) => Err(Fault::Refused(refusal)),
    }
}

/// Goes on towards the state after the current one, with workers, gate and watch as in `change`.
/// `limit` is the timeout in milliseconds, 0 for none.
pub fn redo<R: Threads + Wait + Sync, G: Gate, W: Watch>(
    rt: &R,
    alloc: Global,
    session: &mut Session,
    limit: u32,
    gate: &G,
    workers: u8,
    watch: &W,
) -> Result<Report, Fault>
    requires { session.old.begun ≡ false }
    ensures done { IfOk result (λ report.
        IsCarriedOut workers (G.answers gate.now) (G.gives gate.now) session.old (Redo limit [])
        (told_of report) session.new) }
    ensures fault { IfErr result (IsFault workers session.old (Redo limit [])) }
    ensures left { IfErr result (λ fault. LeavesSession session.old fault session.new) }
    ensures closed { session.new.begun ≡ false }
{
    if !is_crew(workers) {
        return Err(Fault::Workers);
    }
    let executor = Executor {
        rt,
        alloc,
        gate,
        workers,
    };
    let start = gate.now();
    match session.begin_redo(alloc, limit, start) {
        Ok(begun) => carry_out(&executor, watch, session, begun),
        Err(refusal) => Err(Fault::Refused(refusal)),
    }
}

/// Carries out a command that was begun. If its run can't be made, the command is given up: either
/// nothing was taken, or the workers left another board than theirs, and the session is poisoned.
fn carry_out<R: Threads + Wait + Sync, G: Gate, W: Watch>(
    executor: &Executor<'_, R, G>,
    watch: &W,
    session: &mut Session,
    begun: Begun,
) -> Result<Report, Fault>
    requires crew { IsCrew executor.now.workers }
    requires whole { session.old.spoiled ≡ false }
    requires begun { (command : Command) × (start : ℕ) × IsBegun session.old command start begun }
    requires course { IsCourse (course_of session.old.database.needs begun.plan begun.deadline) }
    ensures done { (start : ℕ) (command : Command) → IsBegun session.old command start begun →
        G.gives executor.now.gate.now start →
        IfOk result (λ report. IsCarriedOut executor.now.workers
        (G.answers executor.now.gate.now) (G.gives executor.now.gate.now)
        (with_line session.old session.old.line) command (told_of report) session.new) }
    ensures halt { IfErr result
        (IsHaltOf (course_of session.old.database.needs begun.plan begun.deadline)) }
    ensures left { IfErr result
        (λ fault. LeavesSession (with_line session.old session.old.line) fault session.new) }
    ensures closed { session.new.begun ≡ false }
{
    let course = Course {
        graph: session.db().graph(),
        plan: begun.plan(),
        deadline: begun.deadline(),
    };
    match played(executor, watch, &course) {
        Ok(run) => Ok(session.complete(begun, run)),
        Err(Halt::Memory) => {
            session.abandon(begun);
            Err(Fault::Refused(Refusal::Memory))
        }
        Err(Halt::NoThread) => {
            session.abandon(begun);
            Err(Fault::NoThread)
        }
        Err(Halt::Strange) => {
            session.spoil(begun);
            Err(Fault::Strange)
        }
    }
}

/// Returns true if there may be this many workers.
fn is_crew(workers: u8) -> bool
    ensures { IsTrue result ↔ IsCrew workers }
{
    1 <= workers && workers <= 64
}
