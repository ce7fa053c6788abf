ghost use Rattle.std.specs.Prelude.{◌≡◌, true, false, length, IfOk};
ghost use Rattle.rc_model.specs.Names.{Has, Holds};
ghost use Rattle.rc_select.specs.Sides.{AreSides};

use crate::request::{Mode, Request};
use rc_graph::Graph;
use rc_set::{NoMem, Set};
use std::alloc::Global;

/// What a change leads to: what is to be up in the end, and the essential services that
/// stay although they were to go.
#[derive(Drop)]
pub(crate) struct Sides {
    pub(crate) target: Set,
    pub(crate) kept: Set,
}

/// Computes the target of a change and the essential services that stay, from what is up, the
/// essential services among that, and what the request wants.
pub(crate) fn sides_of(
    alloc: Global,
    graph: &Graph,
    up: &Set,
    essential: &Set,
    request: &Request,
    wanted: &Set,
) -> Result<Sides, NoMem>
    requires up_bound { length up.now ≡ length graph.now }
    requires essential_bound { length essential.now ≡ length graph.now }
    requires wanted_bound { length wanted.now ≡ length graph.now }
    ensures { IfOk result (λ sides. AreSides graph.now up.now essential.now
        request.now.mode request.now.prune wanted.now sides.target sides.kept) }
{
    match (request.mode, request.prune) {
        (Mode::Up, false) => raised(alloc, graph, up, essential, wanted),
        (Mode::Up, true) => pruned(alloc, graph, up, essential, wanted),
        (Mode::Down, _) => lowered(alloc, graph, up, essential, request.prune, wanted),
        (Mode::DownAll, _) => lowered_all(alloc, graph, up, essential, request.prune, wanted),
    }
}

/// Computes the sides of a change that brings the wanted up.
fn raised(
    alloc: Global,
    graph: &Graph,
    up: &Set,
    essential: &Set,
    wanted: &Set,
) -> Result<Sides, NoMem>
    requires up_bound { length up.now ≡ length graph.now }
    requires wanted_bound { length wanted.now ≡ length graph.now }
    ensures { IfOk result (λ sides.
        AreSides graph.now up.now essential.now Mode.Up false wanted.now sides.target sides.kept) }
{
    let mut target = graph.up_of(alloc, wanted)?;
    target.join(up);
    let kept = Set::empty(alloc, graph.len())?;
    Ok(Sides { target, kept })
}

/// Computes the sides of a change that brings the wanted up, and takes all else down but for what
/// essential services hold up.
fn pruned(
    alloc: Global,
    graph: &Graph,
    up: &Set,
    essential: &Set,
    wanted: &Set,
) -> Result<Sides, NoMem>
    requires essential_bound { length essential.now ≡ length graph.now }
    requires wanted_bound { length wanted.now ≡ length graph.now }
    ensures { IfOk result (λ sides.
        AreSides graph.now up.now essential.now Mode.Up true wanted.now sides.target sides.kept) }
{
    let mut target = graph.up_of(alloc, wanted)?;
    let mut kept = essential.copy(alloc)?;
    kept.without(&target);
    target.join(&graph.up_of(alloc, essential)?);
    Ok(Sides { target, kept })
}

/// Computes the sides of a change that takes the wanted down, but for what essential services hold
/// up.
fn lowered(
    alloc: Global,
    graph: &Graph,
    up: &Set,
    essential: &Set,
    prune: bool,
    wanted: &Set,
) -> Result<Sides, NoMem>
    requires up_bound { length up.now ≡ length graph.now }
    requires essential_bound { length essential.now ≡ length graph.now }
    requires wanted_bound { length wanted.now ≡ length graph.now }
    ensures { IfOk result (λ sides.
        AreSides graph.now up.now essential.now Mode.Down prune wanted.now sides.target
        sides.kept) }
{
    let mut gone = graph.down_of(alloc, wanted)?;
    let kept = both(alloc, essential, &gone)?;
    let held = graph.up_of(alloc, essential)?;
    gone.without(&held);
    let mut target = up.copy(alloc)?;
    target.without(&gone);
    Ok(Sides { target, kept })
}

/// Computes the sides of a change that takes the wanted down, whatever is essential.
fn lowered_all(
    alloc: Global,
    graph: &Graph,
    up: &Set,
    essential: &Set,
    prune: bool,
    wanted: &Set,
) -> Result<Sides, NoMem>
    requires up_bound { length up.now ≡ length graph.now }
    requires wanted_bound { length wanted.now ≡ length graph.now }
    ensures { IfOk result (λ sides.
        AreSides graph.now up.now essential.now Mode.DownAll prune wanted.now sides.target
        sides.kept) }
{
    let mut target = up.copy(alloc)?;
    target.without(&graph.down_of(alloc, wanted)?);
    let kept = Set::empty(alloc, graph.len())?;
    Ok(Sides { target, kept })
}

/// Returns the ids that are in both of two sets.
fn both(alloc: Global, one: &Set, other: &Set) -> Result<Set, NoMem>
    requires { length other.now ≡ length one.now }
    ensures bound { IfOk result (λ set. length set ≡ length one.now) }
    ensures members { IfOk result (λ set. Holds set (λ s. Has one.now s × Has other.now s)) }
{
    let mut left = one.copy(alloc)?;
    left.without(other);
    let mut set = one.copy(alloc)?;
    set.without(&left);
    Ok(set)
}
