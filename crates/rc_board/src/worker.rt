//! What one worker does, from its start to the end of the run.
//!
//! Each event is made in a hold of the board of its own. A worker asks for a job, has the gate make
//! the transition, reports how it ended, and asks again. Of those that wait one is woken at each
//! take, and all when a worker leaves. So where a service may be taken some worker is awake and
//! will ask for it: one that takes wakes the next, and one that ends asks again. A worker leaves
//! when nothing will be taken any more.

ghost use Rattle.std.specs.Prelude.{◌≡◌, []};
ghost use Rattle.rc_model.specs.declared.Outcome.{Outcome};
ghost use Rattle.rc_board.specs.Asking.{NotesAsked, NotesEnd};
ghost use Rattle.rc_board.specs.Pads.{AreSaid};

use crate::board::{Board, Start};
use crate::crew::{Crew, Shared, Tools};
use crate::gate::Gate;
use crate::glance::Glance;
use crate::laws::{hold_look, hold_stop, hold_take};
use crate::pad::Pad;
use crate::time::{Time, time_of};
use crate::transition::{Taken, make};
use crate::watch::Watch;
use rc_core::Took;
use std::sync::{MutexGuard, Wait};

/// What came of asking for a job.
pub(crate) enum Asked {
    Job(Taken),
    /// There was none. Something has happened since, or may have.
    Again,
    /// There will be none, since the run was stopped by this worker.
    Stopped,
    /// There will be none.
    Over,
}

/// Waits for the start, makes transitions until there are none to make, and hands the pad back.
pub(crate) fn work<G: Gate, W: Watch, R: Wait>(
    crew: &Crew<'_, R, G, W>,
    worker: u8,
    tools: Tools,
) -> Pad
    requires { tools.pad.notes ≡ [] }
    ensures { AreSaid (G.answers crew.now.gate.now) (G.gives crew.now.gate.now)
        crew.now.shared.now.deadline result.notes }
{
    let Tools { pad, glance } = tools;
    let mut pad = pad;
    let mut glance = glance;
    if !await_start(crew.rt, crew.shared) {
        return pad;
    }
    for _ in crew.rt.forever() {
        if !turn(crew, worker, &mut pad, &mut glance) {
            break;
        }
    }
    crew.shared.changed.notify_all();
    pad
}

/// Waits for the start. Returns true if it was opened.
fn await_start<R: Wait>(rt: &R, shared: &Shared) -> bool {
    let guard = shared
        .changed
        .wait_while(rt, shared.board.lock(rt), |board| {
            board.start() == Start::Closed
        });
    guard.start() == Start::Opened
}

/// Stops the run if it is time. Otherwise asks for a job, in a hold of its own, and makes the job.
/// If there is none yet, waits for a change. Returns false if nothing is left to do for this
/// worker.
#[inline(always)]
fn turn<G: Gate, W: Watch, R: Wait>(
    crew: &Crew<'_, R, G, W>,
    worker: u8,
    pad: &mut Pad,
    glance: &mut Option<Glance>,
) -> bool
    requires { AreSaid (G.answers crew.now.gate.now) (G.gives crew.now.gate.now)
        crew.now.shared.now.deadline pad.old.notes }
    ensures { AreSaid (G.answers crew.now.gate.now) (G.gives crew.now.gate.now)
        crew.now.shared.now.deadline pad.new.notes }
{
    let time = time_of(crew.gate, crew.shared.deadline);
    let mut guard = locked(crew.rt, crew.shared);
    let asked = next_on(&mut guard, pad, worker, time);
    match asked {
        Asked::Job(taken) => {
            let_go(crew.shared, guard);
            let Some(glance) = glance else {
                transit(crew, pad, taken);
                return true;
            };
            look(crew, worker, pad, glance);
            transit(crew, pad, taken);
            look(crew, worker, pad, glance);
            true
        }
        Asked::Again => {
            await_change(crew.rt, crew.shared, guard);
            true
        }
        Asked::Stopped => {
            drop(guard);
            if let Some(glance) = glance {
                look(crew, worker, pad, glance);
            }
            false
        }
        Asked::Over => {
            drop(guard);
            false
        }
    }
}

/// Has the gate make the transition of a job, and reports to the board how it ended, in a hold of
/// its own. Wakes nobody, since this worker asks for the next job after it.
#[inline(always)]
fn transit<G: Gate, W: Watch, R: Wait>(crew: &Crew<'_, R, G, W>, pad: &mut Pad, taken: Taken)
    requires { AreSaid (G.answers crew.now.gate.now) (G.gives crew.now.gate.now)
        crew.now.shared.now.deadline pad.old.notes }
    ensures said { AreSaid (G.answers crew.now.gate.now) (G.gives crew.now.gate.now)
        crew.now.shared.now.deadline pad.new.notes }
    ensures end { (outcome : Outcome) × NotesEnd pad.old taken outcome pad.new }
{
    let made = make(crew.gate, taken);
    let mut guard = locked(crew.rt, crew.shared);
    made.enter(&mut guard, pad);
    drop(guard);
}

/// Locks the board. A board that nobody holds is locked without a call.
#[inline(always)]
fn locked<'s, R: Wait>(rt: &R, shared: &'s Shared) -> MutexGuard<'s, Board> {
    match shared.board.try_lock() {
        Some(guard) => guard,
        None => shared.board.lock(rt),
    }
}

/// Unlocks the board after a take, and wakes one worker that waits, if any does.
#[inline(always)]
fn let_go(shared: &Shared, guard: MutexGuard<Board>) {
    let wakes = guard.is_awaited();
    drop(guard);
    if wakes {
        shared.changed.notify_one();
    }
}

/// Waits for a change. The board counts this worker as one that waits.
fn await_change<R: Wait>(rt: &R, shared: &Shared, mut guard: MutexGuard<Board>) {
    guard.begin_wait();
    let mut guard = shared.changed.wait(rt, guard);
    guard.end_wait();
}

/// Stops the run if it is late. Otherwise asks for a job, and gives the leave up for it.
#[inline(always)]
fn next_on(board: &mut Board, pad: &mut Pad, worker: u8, time: Time) -> Asked
    ensures { NotesAsked pad.old worker time result pad.new }
{
    if pad.room() == 0 {
        return Asked::Over;
    }
    match time {
        Time::Late(moment) => match hold_stop(board, pad, worker, moment) {
            Ok(()) => Asked::Stopped,
            Err(_) => Asked::Over,
        },
        Time::Early(_) => match hold_take(board, pad, worker) {
            Ok(Took::Job(job)) => Asked::Job(Taken::new(job)),
            Ok(Took::Wait) => Asked::Again,
            Ok(Took::Settled) | Err(_) => Asked::Over,
        },
    }
}

/// Looks at the board, and shows it to the watch with nothing locked.
fn look<G: Gate, W: Watch, R: Wait>(
    crew: &Crew<'_, R, G, W>,
    worker: u8,
    pad: &Pad,
    glance: &mut Glance,
) {
    // A look may take its time, so one that waits may go on.
    crew.shared.changed.notify_one();
    let guard = crew.shared.board.lock(crew.rt);
    let fits = hold_look(&guard, pad, worker, glance);
    drop(guard);
    if fits {
        crew.view().show(glance, pad, worker);
    }
}
