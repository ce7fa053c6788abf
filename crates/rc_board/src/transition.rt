//! The transition of a worker between its take and the event of its end.
//!
//! Both values here have no `Drop`, so a worker can lose neither: who takes a job must have the
//! gate make it, and what was made must be reported to the board.

ghost use Rattle.std.specs.Prelude.{◌≡◌};
ghost use Rattle.rc_board.specs.Asking.{EntersEnd, IsMadeOf};

use crate::board::Board;
use crate::gate::Gate;
use crate::laws::hold_done;
use crate::pad::Pad;
use rc_core::{Job, Outcome};
use rc_graph::Way;

/// A job whose take is on the board. `make` alone spends it.
pub(crate) struct Taken {
    job: Job,
}

/// A transition that a worker has made. `enter` alone spends it.
pub(crate) struct Made {
    worker: u8,
    service: u16,
    way: Way,
    outcome: Outcome,
}

impl Taken {
    #[inline(always)]
    pub(crate) fn new(job: Job) -> Taken
        ensures { result.job ≡ job }
    {
        Taken { job }
    }
}

/// Has the gate make the transition of a job, with nothing locked.
#[inline(always)]
pub(crate) fn make<G: Gate>(gate: &G, taken: Taken) -> Made
    ensures { IsMadeOf (G.answers gate.now) taken result }
{
    let Taken { job } = taken;
    let worker = job.worker();
    let service = job.service();
    let way = job.way();
    let outcome = gate.run(job);
    Made {
        worker,
        service,
        way,
        outcome,
    }
}

impl Made {
    /// Reports to the board how a transition ended, as the worker that took its job, and writes it
    /// down, if there is room and the board accepts it.
    #[inline(always)]
    pub(crate) fn enter(self, board: &mut Board, pad: &mut Pad)
        ensures { EntersEnd board.old pad.old self board.new pad.new }
    {
        let Made {
            worker,
            service,
            way,
            outcome,
        } = self;
        if pad.room() > 0 {
            let _ = hold_done(board, pad, worker, service, way, outcome);
        }
    }
}
