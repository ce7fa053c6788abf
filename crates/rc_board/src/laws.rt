//! What is done under the lock: each hold of the board is one of these calls, the
//! opening of the start, or a wait. And how the board that the workers leave is
//! compared with what they wrote down.

ghost use Rattle.std.specs.Prelude.{◌≡◌, ◌<◌, ◌≤◌, ◌↔◌, Option, None, length, IsTrue, IfOk, OnOk};
ghost use Rattle.std.specs.Prelude.{OnErr, MatchBool};
ghost use Rattle.rc_graph.specs.declared.Way.{Way};
ghost use Rattle.rc_model.specs.declared.Event.{Event};
ghost use Rattle.rc_model.specs.Run.{IsWorker, IsFree, IsLegal};
ghost use Rattle.rc_model.specs.Beside.{planned_count};
ghost use Rattle.rc_core.specs.Settled.{with_event};
ghost use Rattle.rc_core.specs.Taking.{IsAnswered};
ghost use Rattle.rc_board.specs.Pads.{with_note, NotesTook, events_on, own};
ghost use Rattle.rc_board.specs.Sight.{IsShown};
ghost use Rattle.rc_board.specs.Interleaving.{IsMadeByPads};

use crate::board::Board;
use crate::fault::Strange;
use crate::glance::Glance;
use crate::interleaving::{are_interleaved, is_own};
use crate::pad::Pad;
use rc_core::{Ended, Event, NotLegal, Outcome, Took};
use rc_graph::{Graph, Way};
use rc_select::Plan;

/// Asks for a job as a worker. If the worker gets one, its take is written down.
#[inline(always)]
pub fn hold_take(board: &mut Board, pad: &mut Pad, worker: u8) -> Result<Took, NotLegal>
    requires room { 0 < pad.old.room }
    ensures answer { IfOk result (λ took. IsAnswered board.old worker took board.new) }
    ensures noted { IfOk result (λ took. NotesTook pad.old worker took pad.new) }
    ensures ok { OnOk result (IsWorker worker × IsFree board.old.events worker) }
    ensures err { OnErr result (IsWorker worker × IsFree board.old.events worker → ⊥) }
    ensures board_stays { OnErr result (board.new ≡ board.old) }
    ensures pad_stays { OnErr result (pad.new ≡ pad.old) }
{
    let took = board.run.take(worker);
    if let Ok(Took::Job(job)) = &took {
        pad.note(Event::Take(worker, job.service()), Some(job.way()));
    }
    took
}

/// Reports how the transition of a worker ended, which went this way, and writes that down.
#[inline(always)]
pub fn hold_done(
    board: &mut Board,
    pad: &mut Pad,
    worker: u8,
    service: u16,
    way: Way,
    outcome: Outcome,
) -> Result<(), NotLegal>
    requires room { 0 < pad.old.room }
    ensures made { OnOk result
        (board.new ≡ with_event board.old (Event.Done worker service outcome)) }
    ensures noted { OnOk result
        (pad.new ≡ with_note pad.old (Event.Done worker service outcome) (Option.Some way)) }
    ensures ok { OnOk result
        (IsLegal board.old.course board.old.events (Event.Done worker service outcome)) }
    ensures err { OnErr result
        (IsLegal board.old.course board.old.events (Event.Done worker service outcome) → ⊥) }
    ensures board_stays { OnErr result (board.new ≡ board.old) }
    ensures pad_stays { OnErr result (pad.new ≡ pad.old) }
{
    let done = board.run.done(worker, service, outcome);
    if done.is_ok() {
        pad.note(Event::Done(worker, service, outcome), Some(way));
    }
    done
}

/// Stops the run at a moment as a worker, and writes that down.
#[inline(always)]
pub fn hold_stop(board: &mut Board, pad: &mut Pad, worker: u8, moment: u64) -> Result<(), NotLegal>
    requires room { 0 < pad.old.room }
    ensures made { OnOk result (board.new ≡ with_event board.old (Event.Stop worker moment)) }
    ensures noted { OnOk result (pad.new ≡ with_note pad.old (Event.Stop worker moment) None) }
    ensures ok { OnOk result
        (IsLegal board.old.course board.old.events (Event.Stop worker moment)) }
    ensures err { OnErr result
        (IsLegal board.old.course board.old.events (Event.Stop worker moment) → ⊥) }
    ensures board_stays { OnErr result (board.new ≡ board.old) }
    ensures pad_stays { OnErr result (pad.new ≡ pad.old) }
{
    let stopped = board.run.stop(worker, moment);
    if stopped.is_ok() {
        pad.note(Event::Stop(worker, moment), None);
    }
    stopped
}

/// Looks at the board as a worker. Returns true if the board is as large as the glance was made
/// for, and has of this worker what is on its pad. The glance then shows all of the board. Takes no
/// memory, and goes once over the services and the events.
pub fn hold_look(board: &Board, pad: &Pad, worker: u8, glance: &mut Glance) -> bool
    ensures fits { IsTrue result ↔ ((length board.now.course.needs ≡ length glance.old.standings)
        × (planned_count board.now.course ≡ glance.old.planned)
        × (own worker board.now.events ≡ events_on pad.now.notes)) }
    ensures seen { MatchBool result (IsShown board.now.course board.now.events glance.new)
        (glance.new ≡ glance.old) }
{
    let fits = board.run.standings().len() == glance.services()
        && board.run.planned() == glance.planned()
        && is_own(board.run.trace(), pad.notes(), worker);
    if fits {
        glance.refill(&board.run);
    }
    fits
}

/// Returns the end of the run that the workers leave. Fails unless it is a settled run of this
/// plan, on this graph and with this deadline, and they wrote down just its events. The first pad
/// is that of worker 1.
pub fn gather(
    graph: &Graph,
    plan: &Plan,
    deadline: Option<u64>,
    board: Board,
    pads: &[Pad],
) -> Result<Ended, Strange>
    requires { length pads.now ≤ 64 }
    ensures ended { IfOk result (λ ended. ended ≡ board) }
    ensures ok { OnOk result (IsMadeByPads graph.now plan.now deadline pads.now board) }
    ensures err { OnErr result (IsMadeByPads graph.now plan.now deadline pads.now board → ⊥) }
{
    let run = board.into_run();
    if run.is_of(graph, plan, deadline)
        && run.settled()
        && are_interleaved(plan.opening(), pads, run.trace())
    {
        return Ok(run.finish());
    }
    drop(run);
    Err(Strange)
}
