//! Runs that are begun, and abandoned, spoiled or completed. Each further call is named by itself.

ghost use Rattle.std.specs.Prelude.{◌≡◌, true, false, length, IfOk, OnErr};
ghost use Rattle.rc_model.specs.Headline.{HasRun};
ghost use Rattle.rc_model.specs.Names.{Has};
ghost use Rattle.rc_model.specs.Graph.{IsClosed};
ghost use Rattle.rc_model.specs.Run.{course_of, IsSettled};
ghost use Rattle.rc_model.specs.Beside.{TargetOf};
ghost use Rattle.rc_session.specs.Commands.{command_of};
ghost use Rattle.rc_session.specs.Holding.{IsOfSession};

use crate::growths::calls::{WRONG, by_events, planned};
use crate::growths::told::go_on_to;
use crate::samples::{ALL, DB, LOG, NET, ROOT, WEB, is_report, run_between, settles};
use rc_core::{Ended, Event, NotLegal, Outcome, Run, Standing};
use rc_graph::Graph;
use rc_recovery::recover;
use rc_select::Plan;
use rc_session::{Begun, Refusal, Report, Session, Step};
use rc_set::NoMem;
use std::alloc::{AllocError, AllocGlobal, Global};
use std::io::Print;

/// The only service of a run comes up.
const ROOT_UP: [Event; 2] = [Event::Take(1, ROOT), Event::Done(1, ROOT, Outcome::Ok)];

/// Begins the run of a step, and abandons it. If `spoils` is set, spoils the session instead, and
/// checks that it refuses the step then.
pub(crate) fn abandoned(
    rt: &(impl Print + AllocGlobal),
    session: &mut Session,
    step: &Step,
    spoils: bool,
) -> Result<(), Refusal>
    requires { session.old.begun ≡ false }
    ensures { session.new.begun ≡ false }
{
    let begun = begun_by_name(rt.alloc(), session, step)?;
    if spoils {
        go_on_to(rt, "spoil");
        session.spoil(begun);
        go_on_to(rt, "a plan and the change once more");
        return refused(rt.alloc(), session, step);
    }
    go_on_to(rt, "abandon");
    session.abandon(begun);
    Ok(())
}

/// Begins the run of a step by the call for its kind.
fn begun_by_name(alloc: Global, session: &mut Session, step: &Step) -> Result<Begun, Refusal>
    requires { session.old.begun ≡ false }
    ensures task { IfOk result (IsOfSession session.new) }
    ensures same { OnErr result (session.new ≡ session.old) }
{
    match step {
        Step::Change(request, _) => session.begin_change(alloc, request, 0),
        Step::Undo(limit, _) => session.begin_undo(alloc, *limit, 0),
        Step::Redo(limit, _) => session.begin_redo(alloc, *limit, 0),
        _ => Err(WRONG),
    }
}

/// Checks that a poisoned session refuses a plan and a step.
fn refused(alloc: Global, session: &mut Session, step: &Step) -> Result<(), Refusal>
    requires { session.old.begun ≡ false }
    ensures { session.new.begun ≡ false }
{
    let planned = planned(alloc, session, step);
    let made = by_events(alloc, session, step);
    if matches!(planned, Err(Refusal::Strange)) && matches!(made, Err(Refusal::Strange)) {
        Ok(())
    } else {
        Err(WRONG)
    }
}

/// Returns true if a step is a change, an undo or a redo.
fn has_run(step: &Step) -> bool
    ensures { result ≡ true → HasRun (command_of step.now) }
{
    matches!(step, Step::Change(..) | Step::Undo(..) | Step::Redo(..))
}

/// Enters a step that was cut short after its events, and checks the report.
pub(crate) fn recovered(alloc: Global, session: &mut Session, step: &Step) -> Result<(), Refusal>
    requires { session.old.begun ≡ false }
    ensures { session.new.begun ≡ false }
{
    if !has_run(step) {
        return Err(WRONG);
    }
    match recover(alloc, session, step) {
        Ok(report) => {
            let is_right = is_cut(&report);
            drop(report);
            if is_right { Ok(()) } else { Err(WRONG) }
        }
        Err(refusal) => Err(refusal),
    }
}

/// Returns true if `root` was raised where nothing was live, the others were not tried, and the run
/// was stopped.
fn is_cut(report: &Report) -> bool {
    report.opening.is_empty()
        && report.raised.as_slice() == [ROOT].as_slice()
        && report.lowered.is_empty()
        && report.failed.is_empty()
        && report.blocked.is_empty()
        && report.untried.as_slice() == [DB, LOG, NET, WEB].as_slice()
        && report.kept.is_empty()
        && report.stopped
        && report.trace.len() == 3
}

/// Completes the run of a step, and checks that it moves all services.
pub(crate) fn all_moved(
    rt: &(impl Print + AllocGlobal),
    session: &mut Session,
    step: &Step,
) -> Result<(), Refusal>
    requires { session.old.begun ≡ false }
    ensures { session.new.begun ≡ false }
{
    match completed(rt, session, step) {
        Ok(report) => {
            let is_right = moves_all(step, &report);
            drop(report);
            if is_right { Ok(()) } else { Err(WRONG) }
        }
        Err(refusal) => Err(refusal),
    }
}

/// Returns true if a report is that of a step that moves all services, in whatever order.
fn moves_all(step: &Step, report: &Report) -> bool {
    let (opening, lowered, raised): (&[u16], &[u16], &[u16]) = match step {
        Step::Undo(..) => (&ALL, &ALL, &[]),
        _ => (&[], &[], &ALL),
    };
    report.trace.len() == 10 && is_report(report, opening, lowered, raised, &report.trace)
}

/// Begins the run of a step, runs it, and completes it. Prints the name of each further call.
fn completed(
    rt: &(impl Print + AllocGlobal),
    session: &mut Session,
    step: &Step,
) -> Result<Report, Refusal>
    requires { session.old.begun ≡ false }
    ensures { session.new.begun ≡ false }
{
    if !has_run(step) {
        return Err(WRONG);
    }
    let begun = session.begin(rt.alloc(), step, 0)?;
    match ended(rt, session.db().graph(), begun.plan(), begun.deadline()) {
        Ok(run) => {
            go_on_to(rt, "complete");
            Ok(session.complete(begun, run))
        }
        Err(_) => {
            session.abandon(begun);
            Err(Refusal::Memory)
        }
    }
}

/// Runs a plan by one worker, and returns the end of the run.
fn ended(
    rt: &(impl Print + AllocGlobal),
    graph: &Graph,
    plan: &Plan,
    deadline: Option<u64>,
) -> Result<Ended, NoMem>
    requires bound { length plan.now.opening ≡ length graph.now }
    requires opening { IsClosed graph.now (Has plan.now.opening) }
    requires target { IsClosed graph.now (TargetOf (course_of graph.now plan.now deadline)) }
    ensures { IfOk result (λ run. run.course ≡ course_of graph.now plan.now deadline) }
{
    go_on_to(rt, "Run::open");
    let mut run = Run::open(rt.alloc(), graph, plan, deadline)?;
    go_on_to(
        rt,
        "Run::is_of, planned, standings, trace, take, done, settled and finish",
    );
    if is_new(&run, graph, plan, deadline) && settles(&mut run) {
        return Ok(run.finish());
    }
    drop(run);
    Err(AllocError)
}

/// Returns true if a run is that of a plan, and nothing has happened yet.
fn is_new(run: &Run, graph: &Graph, plan: &Plan, deadline: Option<u64>) -> bool {
    run.is_of(graph, plan, deadline)
        && run.planned() == run.standings().len()
        && run.trace().is_empty()
        && !run.settled()
}

/// Opens a run of one service, stops it after that service, and returns true if its end says so.
pub(crate) fn is_stopped(rt: &(impl Print + AllocGlobal), graph: &Graph) -> Result<bool, NoMem> {
    let run = run_between(rt.alloc(), graph, &[], &[ROOT], Some(7))?;
    go_on_to(
        rt,
        "Run::step, standing, stop, settled, finish and take_apart",
    );
    match run {
        Some(run) => Ok(ends_stopped(run)),
        None => Ok(false),
    }
}

/// Brings the only service of a run up, stops the run, and returns true if its end says so.
fn ends_stopped(mut run: Run) -> bool {
    if !is_stopped_once_up(&mut run) {
        drop(run);
        return false;
    }
    let finish = run.finish().take_apart();
    let is_told = finish.stopped && finish.trace.len() == 3;
    drop(finish);
    is_told
}

/// Brings the only service up and stops the run. Returns true if nothing is left to do then.
fn is_stopped_once_up(run: &mut Run) -> bool
    ensures { result ≡ true → IsSettled run.new.course run.new.events }
{
    is_down(run, ROOT) && make(run, &ROOT_UP).is_ok() && run.stop(1, 7).is_ok() && run.settled()
}

/// Returns true if a service is down.
fn is_down(run: &Run, service: u16) -> bool {
    (service as usize) < run.standings().len() && run.standing(service) == Standing::Down
}

/// Makes events on a run.
fn make(run: &mut Run, events: &[Event]) -> Result<(), NotLegal> {
    for event in events {
        run.step(*event)?;
    }
    Ok(())
}
