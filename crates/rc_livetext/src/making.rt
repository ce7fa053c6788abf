//! Whether states make a line.
ghost use Rattle.std.specs.Prelude.{◌≡◌, ◌↔◌, ◌<◌, ◌≤◌, ℕ, length, All, IfOk, IfErr, IfSome};
ghost use Rattle.std.specs.Prelude.{IsTrue, MatchOption};
ghost use Rattle.rc_line.specs.State.{states_of};
ghost use Rattle.rc_model.specs.Line.{DifferInTurn};
ghost use Rattle.rc_livetext.specs.Text.{IsBound};
ghost use Rattle.rc_livetext.specs.Meaning.{IsFirstNot, most_states};
ghost use Rattle.rc_livetext.specs.Parts.{HasNeeds, IsWithin, MakeLine, MakeNone, bound_for};

use crate::fault::LiveFault;
use rc_db::Table;
use rc_graph::Graph;
use rc_set::Set;

// The least bound on the number of states for an older text, which has none.
const USUAL_BOUND: u32 = 1024;

/// Returns the bound of the line that the given states make, or the fault for which they make none.
pub(crate) fn bound_of_line(
    held: &[(Set, Table)],
    said: Option<u32>,
    graph: &Graph,
) -> Result<u32, LiveFault>
    requires sets { All (IsWithin (length graph.now)) (states_of held.now) }
    requires said { IfSome said IsBound }
    ensures line { IfOk result (MakeLine graph.now said (states_of held.now)) }
    ensures fault { IfErr result (MakeNone graph.now said (states_of held.now)) }
{
    if let Some(place) = first_open(held, graph) {
        return Err(LiveFault::NotClosed(place));
    }
    if !differ(held) {
        return Err(LiveFault::SameState);
    }
    match bound_of(said, held.len()) {
        Some(bound) => Ok(bound),
        None => Err(LiveFault::OverBound),
    }
}

// Returns the place of the first state in which a service is up without all that it needs.
fn first_open(held: &[(Set, Table)], graph: &Graph) -> Option<usize>
    requires { All (IsWithin (length graph.now)) (states_of held.now) }
    ensures { MatchOption result (All (HasNeeds graph.now) (states_of held.now))
        (IsFirstNot (HasNeeds graph.now) (states_of held.now)) }
{
    for place in 0..held.len() {
        if !has_needs(&held[place], graph) {
            return Some(place);
        }
    }
    None
}

// Returns true if all that the live services of a state need is live too.
#[tactic(auto, unfolding(crate::specs::Parts::HasNeeds))]
fn has_needs(state: &(Set, Table), graph: &Graph) -> bool
    requires { length state.now.0 ≡ length graph.now }
    ensures { IsTrue result
        ↔ HasNeeds graph.now (record { live = state.now.0; table = state.now.1 }) }
{
    graph.closed(&state.0)
}

// Returns true if each state differs from the next one.
fn differ(held: &[(Set, Table)]) -> bool
    requires { (bound : ℕ) × All (IsWithin bound) (states_of held.now) }
    ensures { IsTrue result ↔ DifferInTurn (states_of held.now) }
{
    for place in 1..held.len() {
        if are_same(&held[place - 1], &held[place]) {
            return false;
        }
    }
    true
}

// Returns true if two states are the same.
fn are_same(one: &(Set, Table), other: &(Set, Table)) -> bool
    requires { length one.now.0 ≡ length other.now.0 }
    ensures { IsTrue result ↔ (one.now ≡ other.now) }
{
    one.0.same(&other.0) && one.1.same(&other.1)
}

// Returns the bound of a line of `count` states, if it may have that many.
fn bound_of(said: Option<u32>, count: usize) -> Option<u32>
    requires { IfSome said IsBound }
    ensures { MatchOption result (most_states said < count)
        (λ bound. (3 ≤ bound) × (count ≤ bound) × (bound ≡ bound_for said count)) }
{
    match said {
        Some(bound) => {
            if count <= bound as usize {
                Some(bound)
            } else {
                None
            }
        }
        None => {
            let count = u32::try_from(count).ok()?;
            Some(count.max(USUAL_BOUND))
        }
    }
}
