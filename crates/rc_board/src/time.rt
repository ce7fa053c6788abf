//! The time of a run, by its gate and its deadline.

ghost use Rattle.rc_board.specs.Timing.{IsTimeOf};

use crate::gate::Gate;

/// The leave to take one service: there is no deadline, or the gate gave a moment before it. A
/// worker asks the gate for a moment before each take, and gives the leave up with that. No clause
/// says so: the clauses say that the gate may give such a moment, and tests show that it is asked
/// each time.
#[derive(Drop)]
pub(crate) struct Leave {
    /// The moment that it was, where there is a deadline.
    moment: Option<u64>,
}

/// Whether a run is to be stopped.
#[derive(Drop)]
pub(crate) enum Time {
    /// The moment that it is has reached the deadline.
    Late(u64),
    Early(Leave),
}

/// Returns the time with regard to a deadline. Without a deadline, the gate is not asked.
#[inline(always)]
pub(crate) fn time_of<G: Gate>(gate: &G, deadline: Option<u64>) -> Time
    ensures { IsTimeOf (G.gives gate.now) deadline result }
{
    let Some(deadline) = deadline else {
        return Time::Early(Leave { moment: None });
    };
    let moment = gate.now();
    if deadline <= moment {
        Time::Late(moment)
    } else {
        Time::Early(Leave {
            moment: Some(moment),
        })
    }
}
