//! A run that was begun, made by workers.

ghost use Rattle.std.specs.Prelude.{◌≡◌, ◌<◌, ◌≤◌, ℕ, min, [], All, IfOk, IfErr, vec_len};
ghost use Rattle.std.specs.Prelude.{vec_capacity};
ghost use Rattle.rc_model.specs.Run.{IsPlanned, course_of, IsSettled};
ghost use Rattle.rc_model.specs.Beside.{IsCourse, planned_count};
ghost use Rattle.rc_board.specs.Crew.{IsCrew};
ghost use Rattle.rc_board.specs.Halting.{MayHalt};
ghost use Rattle.rc_board.specs.Made.{AreMadeInTime};

use crate::board::Board;
use crate::crew::{Shared, Tools, run_crew, tools_of};
use crate::executor::Executor;
use crate::fault::Strange;
use crate::gate::Gate;
use crate::laws::gather;
use crate::pad::Pad;
use crate::watch::Watch;
use rc_core::{Ended, Run};
use rc_graph::Graph;
use rc_select::Plan;
use rc_set::NoMem;
use std::alloc::{AllocError, Global};
use std::sync::{Condvar, Mutex, Wait};
use std::thread::Threads;

/// Why there is no settled run.
#[derive(Clone, Copy)]
pub(crate) enum Halt {
    Memory,
    /// Not all workers could be started, and nothing was taken.
    NoThread,
    /// The workers left another board than theirs.
    Strange,
}

impl From<AllocError> for Halt {
    ghost use Rattle.std.specs.Prelude.{◌≡◌};
    ghost use Rattle.rc_board.specs.declared.play.Halt.TheVariants.{Memory};

    ghost from_gives = { λ _ halt. halt ≡ Memory };

    fn from(_: AllocError) -> Halt {
        Halt::Memory
    }
}

/// What is to be made: a plan, and the moment from which its run is to be stopped.
#[derive(Drop)]
pub(crate) struct Course<'a> {
    pub(crate) graph: &'a Graph,
    pub(crate) plan: &'a Plan,
    pub(crate) deadline: Option<u64>,
}

/// Has workers make the run of a plan, with the caller as the first. Starts no more of them than
/// there are services to move. All room that they will need is made before.
pub(crate) fn played<R: Threads + Wait + Sync, G: Gate, W: Watch>(
    executor: &Executor<'_, R, G>,
    watch: &W,
    course: &Course<'_>,
) -> Result<Ended, Halt>
    requires crew { IsCrew executor.now.workers }
    requires course { IsCourse
        (course_of course.now.graph.now course.now.plan.now course.now.deadline) }
    ensures course { IfOk result (λ ended.
        ended.course ≡ course_of course.now.graph.now course.now.plan.now course.now.deadline) }
    ensures settled { IfOk result (λ ended. IsSettled
        (course_of course.now.graph.now course.now.plan.now course.now.deadline) ended.events) }
    ensures made { IfOk result (λ ended. AreMadeInTime executor.now.workers
        (G.answers executor.now.gate.now) (G.gives executor.now.gate.now) course.now.deadline
        course.now.plan.now.opening ended.events) }
    ensures idle { IfOk result (λ ended. ((s : ℕ) → IsPlanned
        (course_of course.now.graph.now course.now.plan.now course.now.deadline) s → ⊥) →
        ended.events ≡ []) }
    ensures halt { IfErr result
        (MayHalt (course_of course.now.graph.now course.now.plan.now course.now.deadline)) }
{
    let run = Run::open(executor.alloc, course.graph, course.plan, course.deadline)?;
    let planned = run.planned();
    if planned == 0 {
        return Ok(run.finish());
    }
    let workers = crew_for(executor.workers, planned);
    match room_for(executor.alloc, &run, workers, watch.wants_looks()) {
        Ok(room) => worked(executor, watch, course, workers, run, room),
        Err(_) => {
            drop(run);
            Err(Halt::Memory)
        }
    }
}

/// What workers own, and room for the pads that they hand back.
#[derive(Drop)]
struct Room {
    tools: Vec<Tools>,
    pads: Vec<Pad>,
}

/// Creates all room that the workers of a run will need.
fn room_for(alloc: Global, run: &Run, workers: u8, looks: bool) -> Result<Room, NoMem>
    requires fresh { run.now.events ≡ [] }
    requires few { planned_count run.now.course ≤ 8192 }
    ensures tools { IfOk result
        (λ room. All (λ (tools : _). tools.pad.notes ≡ []) room.tools.items) }
    ensures pads { IfOk result (λ room. (room.pads.items ≡ []) × (vec_len room.pads ≡ 0)
        × (workers ≤ vec_capacity room.pads)) }
{
    let pads = Vec::with_capacity(alloc, workers as usize)?;
    let Ok(tools) = tools_of(alloc, run, workers, looks) else {
        drop(pads);
        return Err(AllocError);
    };
    Ok(Room { tools, pads })
}

/// Returns the number of workers for a run: as many of these as there are services to move, since
/// no other would have anything to do.
fn crew_for(workers: u8, planned: usize) -> u8
    requires crew { IsCrew workers }
    requires some { 0 < planned }
    ensures crew { IsCrew result }
    ensures fewer { result ≡ min workers planned }
{
    if planned < workers as usize {
        planned as u8
    } else {
        workers
    }
}

/// Has workers make a run in which something is to move. Takes no memory but that of their threads.
/// There may be fewer workers than the executor has.
fn worked<R: Threads + Wait + Sync, G: Gate, W: Watch>(
    executor: &Executor<'_, R, G>,
    watch: &W,
    course: &Course<'_>,
    workers: u8,
    run: Run,
    room: Room,
) -> Result<Ended, Halt>
    requires crew { IsCrew workers }
    requires work { (s : ℕ) × IsPlanned
        (course_of course.now.graph.now course.now.plan.now course.now.deadline) s }
    requires tools { All (λ (tools : _). tools.pad.notes ≡ []) room.tools.items }
    requires pads { (room.pads.items ≡ []) × (vec_len room.pads ≡ 0)
        × (workers ≤ vec_capacity room.pads) }
    ensures course { IfOk result (λ ended.
        ended.course ≡ course_of course.now.graph.now course.now.plan.now course.now.deadline) }
    ensures settled { IfOk result (λ ended. IsSettled
        (course_of course.now.graph.now course.now.plan.now course.now.deadline) ended.events) }
    ensures made { IfOk result (λ ended. AreMadeInTime workers
        (G.answers executor.now.gate.now) (G.gives executor.now.gate.now) course.now.deadline
        course.now.plan.now.opening ended.events) }
    ensures halt { IfErr result
        (MayHalt (course_of course.now.graph.now course.now.plan.now course.now.deadline)) }
{
    let Room { tools, pads } = room;
    let shared = Shared {
        board: Mutex::new(Board::new(run)),
        changed: Condvar::new(),
        deadline: course.deadline,
    };
    let pads = run_crew(executor, watch, &shared, workers, tools, pads);
    let Shared {
        board,
        changed: _,
        deadline: _,
    } = shared;
    let board = board.into_inner();
    let Some(pads) = pads else {
        drop(board);
        return Err(Halt::NoThread);
    };
    match gather(course.graph, course.plan, course.deadline, board, &pads) {
        Ok(ended) => Ok(ended),
        Err(Strange) => Err(Halt::Strange),
    }
}
