//! Workers over one board under a lock: the caller, and others in threads of their own.

ghost use Rattle.std.specs.Prelude.{◌≡◌, ◌≤◌, ◌+◌, [], All, Option, IfOk, IfSome, IsTrue};
ghost use Rattle.std.specs.Prelude.{vec_len, vec_capacity};
ghost use Rattle.rc_model.specs.Beside.{planned_count};
ghost use Rattle.rc_board.specs.Pads.{Written, AreSaid};

use crate::board::{Board, Start};
use crate::executor::Executor;
use crate::gate::Gate;
use crate::glance::Glance;
use crate::pad::Pad;
use crate::watch::{View, Watch};
use crate::worker::work;
use rc_core::Run;
use rc_set::NoMem;
use std::alloc::{AllocError, Global};
use std::sync::{Condvar, Mutex, Wait};
use std::thread;
use std::thread::{Promise, PromisedHandle, Scope, Threads};

/// What the workers share: the board, what tells those that wait of a change, and the moment from
/// which the run is to be stopped.
#[derive(Drop)]
pub(crate) struct Shared {
    pub(crate) board: Mutex<Board>,
    pub(crate) changed: Condvar,
    pub(crate) deadline: Option<u64>,
}

/// What each worker of a run has: the runtime that it waits with, the gate that makes its
/// transitions, the watch, which it can only show glances to, and what all workers share.
pub(crate) struct Crew<'a, R, G, W> {
    pub(crate) rt: &'a R,
    pub(crate) gate: &'a G,
    watch: &'a W,
    pub(crate) shared: &'a Shared,
}

impl<R, G, W> Clone for Crew<'_, R, G, W> {
    fn clone(&self) -> Result<Self, AllocError> {
        Ok(*self)
    }
}

impl<R, G, W> Copy for Crew<'_, R, G, W> {}

impl<R, G, W: Watch> Crew<'_, R, G, W> {
    /// Returns the watch, as workers have it.
    pub(crate) fn view(&self) -> View<'_, W> {
        View::new(self.watch)
    }
}

/// What one worker owns. There is no glance if the watch wants no looks.
#[derive(Drop)]
pub(crate) struct Tools {
    pub(crate) pad: Pad,
    pub(crate) glance: Option<Glance>,
}

/// What a worker promises of the pad that it hands back: all on it is what the gate may say, and
/// where it has a take, the gate may give a moment before the deadline.
struct Said<'a, G> {
    gate: &'a G,
    deadline: Option<u64>,
}

impl<'a, G> Drop for Said<'a, G> {
    fn drop(self) {
        let Said {
            gate: _,
            deadline: _,
        } = self;
    }
}

impl<'a, G: Gate> Promise<Pad> for Said<'a, G> {
    ghost kept_by = { λ said pad.
        AreSaid (G.answers said.gate.now) (G.gives said.gate.now) said.deadline pad.notes };
}

/// Creates the tools of each worker, with room for all that it may write down and see.
pub(crate) fn tools_of(
    alloc: Global,
    run: &Run,
    workers: u8,
    looks: bool,
) -> Result<Vec<Tools>, NoMem>
    requires fresh { run.now.events ≡ [] }
    requires few { planned_count run.now.course ≤ 8192 }
    ensures { IfOk result (λ all. All (λ (tools : _). tools.pad.notes ≡ []) all.items) }
{
    let mut all = Vec::with_capacity(alloc, workers as usize)?;
    for _ in 0..workers {
        let pad = Pad::new(alloc, run.planned())?;
        let glance = glance_of(alloc, run, looks)?;
        all.push(Tools { pad, glance })?;
    }
    Ok(all)
}

/// Creates a glance, if looks are wanted.
fn glance_of(alloc: Global, run: &Run, looks: bool) -> Result<Option<Glance>, NoMem>
    requires { run.now.events ≡ [] }
{
    if looks {
        Ok(Some(Glance::new(alloc, run)?))
    } else {
        Ok(None)
    }
}

/// Has the workers make the run on the board, with the caller as worker 1. Returns their pads, that
/// of worker 1 first, or `None` if not all of the others could be started. Nothing was taken then.
pub(crate) fn run_crew<G: Gate, W: Watch, R: Threads + Wait + Sync>(
    executor: &Executor<'_, R, G>,
    watch: &W,
    shared: &Shared,
    workers: u8,
    all: Vec<Tools>,
    pads: Vec<Pad>,
) -> Option<Vec<Pad>>
    requires some { 1 ≤ workers }
    requires tools { All (λ (tools : _). tools.pad.notes ≡ []) all.items }
    requires none { (pads.items ≡ []) × (vec_len pads ≡ 0) × (workers ≤ vec_capacity pads) }
    ensures said { IfSome result (λ pads. All (λ (pad : Written).
        AreSaid (G.answers executor.now.gate.now) (G.gives executor.now.gate.now)
        shared.now.deadline pad.notes) pads.items) }
    ensures count { IfSome result (λ pads. vec_len pads ≡ workers) }
{
    let (rt, gate) = (executor.rt, executor.gate);
    thread::scope(
        thread::scope_env(),
        rt,
        move |scope| -> Option<Vec<Pad>>
            requires { (1 ≤ workers) × All (λ (tools : _). tools.pad.notes ≡ []) all.items
                × ((pads.items ≡ []) × (vec_len pads ≡ 0) × (workers ≤ vec_capacity pads)) }
            ensures { IfSome result (λ pads. All (λ (pad : Written).
                AreSaid (G.answers gate.entry.now) (G.gives gate.entry.now)
                shared.entry.now.deadline
                pad.notes) pads.items
                × (vec_len pads ≡ workers)) }
        {
            let mut all = all;
            let mut pads = pads;
            let crew = Crew {
                rt,
                gate,
                watch,
                shared,
            };
            if start_rest(scope, crew, workers, &mut all, &mut pads) {
                Some(pads)
            } else {
                None
            }
        },
    )
}

/// Starts the workers with the numbers from this one down to 2, opens the start once all are there,
/// works as worker 1, joins the others, and adds their pads, that of worker 1 first. Returns false
/// if one could not be started.
fn start_rest<'s, E, G: Gate, W: Watch, R: Threads + Wait + Sync>(
    scope: &'s Scope<'s, E>,
    crew: Crew<'s, R, G, W>,
    worker: u8,
    rest: &mut Vec<Tools>,
    pads: &mut Vec<Pad>,
) -> bool
    requires some { 1 ≤ worker }
    requires tools { All (λ (tools : _). tools.pad.notes ≡ []) rest.old.items }
    requires said { All (λ (pad : Written).
        AreSaid (G.answers crew.gate.now) (G.gives crew.gate.now)
        crew.shared.now.deadline pad.notes) pads.old.items }
    requires room { vec_len pads.old + worker ≤ vec_capacity pads.old }
    ensures said { All (λ (pad : Written).
        AreSaid (G.answers crew.entry.gate.now) (G.gives crew.entry.gate.now)
        crew.entry.shared.now.deadline pad.notes) pads.new.items }
    ensures bound { vec_len pads.new ≤ vec_len pads.old + worker }
    ensures all { IsTrue result → vec_len pads.new ≡ vec_len pads.old + worker }
    ensures capacity { vec_capacity pads.new ≡ vec_capacity pads.old }
{
    let Some(tools) = rest.pop() else {
        set_start(crew.rt, crew.shared, Start::GivenUp);
        return false;
    };
    if worker == 1 {
        set_start(crew.rt, crew.shared, Start::Opened);
        pads.push_reserved(work(&crew, worker, tools));
        return true;
    }
    let Some(child) = started(scope, crew, worker, tools) else {
        set_start(crew.rt, crew.shared, Start::GivenUp);
        return false;
    };
    let all = start_rest(scope, crew, worker - 1, rest, pads);
    pads.push_reserved(child.join(crew.rt));
    all
}

/// Starts a worker. Returns `None` if it could not be started.
fn started<'s, E, G: Gate, W: Watch, R: Threads + Wait + Sync>(
    scope: &'s Scope<'s, E>,
    crew: Crew<'s, R, G, W>,
    worker: u8,
    tools: Tools,
) -> Option<PromisedHandle<Pad, Said<'s, G>>>
    requires { tools.pad.notes ≡ [] }
    ensures gate { IfSome result (λ child. child.promise.gate.now ≡ crew.entry.gate.now) }
    ensures deadline { IfSome result
        (λ child. child.promise.deadline ≡ crew.entry.shared.now.deadline) }
{
    let Crew {
        rt,
        gate,
        watch,
        shared,
    } = crew;
    let body = move || -> Pad
        requires { tools.pad.notes ≡ [] }
        ensures { AreSaid (G.answers gate.entry.now) (G.gives gate.entry.now)
            shared.entry.now.deadline result.notes }
    {
        let crew = Crew {
            rt,
            gate,
            watch,
            shared,
        };
        work(&crew, worker, tools)
    };
    let said = Said {
        gate,
        deadline: shared.deadline,
    };
    scope.spawn_with(said, body).ok()
}

/// Opens the start, or gives it up.
fn set_start<R: Wait>(rt: &R, shared: &Shared, start: Start) {
    let mut guard = shared.board.lock(rt);
    guard.set_start(start);
    drop(guard);
    shared.changed.notify_all();
}
