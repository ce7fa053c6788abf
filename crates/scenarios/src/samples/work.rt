//! Runs between sets of services, and a worker that carries one out.

ghost use Rattle.std.specs.Prelude.{◌≡◌, true, length};
ghost use Rattle.rc_model.specs.Run.{IsSettled};

use crate::samples::sets::set_of;
use rc_core::{Outcome, Run, Took};
use rc_graph::Graph;
use rc_select::between;
use rc_set::{NoMem, Set};
use std::alloc::Global;

/// Turns, in each of which one service is taken and ended: far more than any change here asks for.
const TURNS: u32 = 10_000;

/// Opens a run from some services to others. Returns none if some of these lack what they need.
pub fn run_between(
    alloc: Global,
    graph: &Graph,
    from: &[u16],
    to: &[u16],
    deadline: Option<u64>,
) -> Result<Option<Run>, NoMem> {
    let from = set_of(alloc, graph.len(), from)?;
    let to = match set_of(alloc, graph.len(), to) {
        Ok(to) => to,
        Err(short) => {
            drop(from);
            return Err(short);
        }
    };
    let run = open_between(alloc, graph, &from, &to, deadline);
    drop((from, to));
    run
}

fn open_between(
    alloc: Global,
    graph: &Graph,
    from: &Set,
    to: &Set,
    deadline: Option<u64>,
) -> Result<Option<Run>, NoMem>
    requires from_bound { length from.now ≡ length graph.now }
    requires to_bound { length to.now ≡ length graph.now }
{
    if !graph.closed(from) || !graph.closed(to) {
        return Ok(None);
    }
    let plan = between(alloc, graph, from, to)?;
    let run = Run::open(alloc, graph, &plan, deadline);
    drop(plan);
    match run {
        Ok(run) => Ok(Some(run)),
        Err(short) => Err(short),
    }
}

/// Takes one service after the other, and ends each with success. Returns true if nothing is left
/// to do then.
pub fn settles(run: &mut Run) -> bool
    ensures course { run.new.course ≡ run.old.course }
    ensures settled { result ≡ true → IsSettled run.new.course run.new.events }
{
    for _ in 0..TURNS {
        if !go_on(run) {
            break;
        }
    }
    run.settled()
}

/// Takes a service and ends it with success. Returns true if there was one.
fn go_on(run: &mut Run) -> bool
    ensures { run.new.course ≡ run.old.course }
{
    match run.take(1) {
        Ok(Took::Job(job)) => run.done(1, job.service(), Outcome::Ok).is_ok(),
        _ => false,
    }
}
