// Sets that gain the sets of all that they reach in a graph.
ghost use Rattle.std.specs.Prelude.{◌≡◌, ◌<◌, ℕ, [], length, slice_index_or, All};
ghost use Rattle.std.specs.Prelude.{IfOk, OnOk};
ghost use Rattle.rc_model.specs.Names.{Holds};
ghost use Rattle.rc_compile.specs.Joining.{AllWithin, HasJoined, HasAlong};

use rc_graph::Graph;
use rc_set::{NoMem, Set};
use std::alloc::Global;

// Adds to the set of each id the sets of all that it reaches. Takes one pass in the order of the
// graph, so that each set is complete before another takes it.
pub(crate) fn join_along(
    alloc: Global,
    graph: &Graph,
    sets: &mut [Set],
    bound: u16,
) -> Result<(), NoMem>
    requires few { length sets.old ≡ length graph.now }
    requires bounds { AllWithin bound sets.old }
    ensures few { length sets.new ≡ length sets.old }
    ensures bounds { OnOk result (AllWithin bound sets.new) }
    ensures sets { OnOk result ((s : ℕ) → s < length sets.old →
        Holds (slice_index_or sets.new s []) (HasAlong graph.now sets.old s)) }
{
    let order = graph.order();
    for s in order {
        let set = joined(alloc, sets, *s, graph.needs(*s), bound)?;
        sets[*s as usize] = set;
    }
    Ok(())
}

// Returns the set of an id together with those of the ids in a list.
fn joined(alloc: Global, sets: &[Set], id: u16, list: &[u16], bound: u16) -> Result<Set, NoMem>
    requires id { id < length sets.now }
    requires known { All (λ t. t < length sets.now) list.now }
    requires bounds { AllWithin bound sets.now }
    ensures bound { IfOk result (λ set. length set ≡ bound) }
    ensures members { IfOk result (λ set. Holds set (HasJoined sets.now id list.now)) }
{
    let mut set = sets[id as usize].copy(alloc)?;
    for t in list {
        set.join(&sets[*t as usize]);
    }
    Ok(set)
}
