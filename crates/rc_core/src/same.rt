//! Whether a run is that of a plan.

ghost use Rattle.std.specs.Prelude.{◌≡◌, ◌↔◌, IsTrue};
ghost use Rattle.rc_model.specs.Run.{course_of};

use crate::run::Run;
use rc_graph::Graph;
use rc_select::Plan;
use rc_set::Set;

impl Run {
    /// Returns true if the run is one of this plan on this graph, with this deadline. Compares the
    /// graphs as two slices, with a number for each service and pair.
    pub fn is_of(&self, graph: &Graph, plan: &Plan, deadline: Option<u64>) -> bool
        ensures { IsTrue result ↔ (self.now.course ≡ course_of graph.now plan.now deadline) }
    {
        is_same_moment(self.deadline, deadline)
            && self.graph.same(graph)
            && is_same_set(&self.opening, plan.opening())
            && is_same_set(&self.lower, plan.lower())
            && is_same_set(&self.raise, plan.raise())
    }
}

/// Returns true if two moments are equal, or both are missing.
fn is_same_moment(one: Option<u64>, other: Option<u64>) -> bool
    ensures { IsTrue result ↔ (one ≡ other) }
{
    match (one, other) {
        (Some(one), Some(other)) => one == other,
        (None, None) => true,
        (Some(_), None) | (None, Some(_)) => false,
    }
}

/// Returns true if two sets have the same bound and the same members.
fn is_same_set(one: &Set, other: &Set) -> bool
    ensures { IsTrue result ↔ (one.now ≡ other.now) }
{
    one.bound() == other.bound() && one.same(other)
}
