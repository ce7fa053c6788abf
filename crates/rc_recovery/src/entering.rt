//! A command that was cut short, entered by a session.
ghost use Rattle.std.specs.Prelude.{◌≡◌, false};
ghost use Rattle.rc_model.specs.Headline.{HasRun};
ghost use Rattle.rc_model.specs.Session.{events_of};
ghost use Rattle.rc_session.specs.Commands.{command_of, with_events};
ghost use Rattle.rc_session.specs.Holding.{Obeys};
ghost use Rattle.rc_session.specs.Report.{answer_of};
ghost use Rattle.rc_recovery.specs.Recovering.{Recovers};

use crate::ends::{with_ends, with_stop};
use rc_core::Event;
use rc_session::{Refusal, Report, Session, Step};
use std::alloc::Global;

/// Enters what a command that was cut short has moved. The step has the events that were logged of
/// it. What was under way counts as failed. If that leaves something to do, the run counts as
/// stopped, so the step must have a limit.
///
/// `BadEvent` and `NotSettled` report that the events do not begin a run of this step from where
/// the session stands. Then nothing has changed.
pub fn recover(alloc: Global, session: &mut Session, step: &Step) -> Result<Report, Refusal>
    requires closed { session.old.begun ≡ false }
    requires run { HasRun (command_of step.now) }
    ensures { Recovers session.old (command_of step.now) (answer_of result) session.new }
{
    let Ok(events) = with_ends(alloc, logged(step)) else {
        return Err(Refusal::Memory);
    };
    match play(alloc, session, step, &events) {
        Err(Refusal::NotSettled(_)) => {}
        answer => {
            drop(events);
            return answer;
        }
    }
    let Ok(events) = with_stop(events) else {
        return Err(Refusal::Memory);
    };
    let answer = play(alloc, session, step, &events);
    drop(events);
    answer
}

/// Returns the events of a step.
pub(crate) fn logged(step: &Step) -> &[Event]
    ensures { result.now ≡ events_of (command_of step.now) }
{
    match step {
        Step::Change(_, events) => events,
        Step::Undo(_, events) => events,
        Step::Redo(_, events) => events,
        Step::Add(..) | Step::Delete(..) => &[],
    }
}

/// Carries out a step by a run of the given events in place of its own.
fn play(
    alloc: Global,
    session: &mut Session,
    step: &Step,
    events: &[Event],
) -> Result<Report, Refusal>
    requires closed { session.old.begun ≡ false }
    requires run { HasRun (command_of step.now) }
    ensures { Obeys session.old (with_events (command_of step.now) events.now)
        (answer_of result) session.new }
{
    match step {
        Step::Change(request, _) => session.change_by(alloc, request, events),
        Step::Undo(limit, _) => session.undo_by(alloc, *limit, events),
        Step::Redo(limit, _) => session.redo_by(alloc, *limit, events),
        Step::Add(..) | Step::Delete(..) => unreachable!(),
    }
}
