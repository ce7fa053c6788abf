ghost use Rattle.std.specs.Prelude.{◌≡◌, ℕ, List, length, map, All, IfOk, IfErr, OnOk};
ghost use Rattle.std.specs.Prelude.{string_bytes};
ghost use Rattle.rc_model.specs.Names.{Has, Holds};
ghost use Rattle.rc_model.specs.Graph.{IsClosed};
ghost use Rattle.rc_model.specs.Database.{HaveBound, Bundles, IsDatabase, IsKnown};
ghost use Rattle.rc_db.specs.QueryFaults.{IsNamesFault};
ghost use Rattle.rc_model.specs.Plan.{IsPlanTo, Target, Kept, IsEssentialUp, IsWanted, IsPlanOf};
ghost use Rattle.rc_model.specs.Plan.{CanPlan, IsPlanFault};
ghost use Rattle.rc_select.specs.Ask.{ask_of};
ghost use Rattle.rc_select.specs.PlanFaults.{IsWantedFault};
ghost use Rattle.rc_select.specs.Sides.{MindsEssential};

use crate::plans::{Plan, leading};
use crate::request::{Mode, PlanFault, Request};
use crate::sides::{Sides, sides_of};
use rc_db::{Db, QueryFault, Table};
use rc_graph::Graph;
use rc_set::{NoMem, Set};
use std::alloc::Global;

/// Creates the plan of a request, from what is up. The bundles are those of the table, which may
/// differ from the database's.
pub fn plan(
    alloc: Global,
    db: &Db,
    table: &Table,
    up: &Set,
    request: &Request,
) -> Result<Plan, PlanFault>
    requires bound { length up.now ≡ length db.now.names }
    requires bundles { HaveBound (length db.now.names) table.now }
    requires closed { IsClosed db.now.needs (Has up.now) }
    ensures plan { IfOk result (IsPlanOf db.now table.now up.now (ask_of request.now)) }
    ensures can { OnOk result (CanPlan db.now.names table.now (ask_of request.now)) }
    ensures fault { IfErr result (IsPlanFault db.now.names table.now (ask_of request.now)) }
{
    if request.prune && request.mode != Mode::Up {
        return Err(PlanFault::PruneNeedsUp);
    }
    let wanted = wanted(alloc, db, table, up, request)?;
    let essential = essential_for(alloc, db, up, request.mode, request.prune)?;
    let plan = planned(alloc, db.graph(), up, &essential, request, &wanted)?;
    Ok(plan)
}

/// Returns the services that a request wants.
fn wanted(
    alloc: Global,
    db: &Db,
    table: &Table,
    up: &Set,
    request: &Request,
) -> Result<Set, PlanFault>
    requires bound { length up.now ≡ length db.now.names }
    requires bundles { HaveBound (length db.now.names) table.now }
    ensures bound { IfOk result (λ set. length set ≡ length db.now.names) }
    ensures members { IfOk result (λ set.
        Holds set (IsWanted db.now.names table.now (Has up.now) (ask_of request.now))) }
    ensures known { OnOk result (All (IsKnown db.now.names table.now)
        (map string_bytes request.now.names.items)) }
    ensures fault { IfErr result (IsWantedFault db.now.names table.now
        (map string_bytes request.now.names.items)) }
{
    let mut wanted = match db.selected(alloc, table, &request.names) {
        Ok(set) => set,
        Err(fault) => return Err(fault_of(fault)),
    };
    if request.all {
        wanted.join(up);
    }
    Ok(wanted)
}

/// Converts a refusal of the words into the fault of the plan.
fn fault_of(fault: QueryFault) -> PlanFault
    ensures { (names : List (List ℕ)) (table : Bundles) (words : List (List ℕ)) →
        IsNamesFault names table words fault → IsWantedFault names table words result }
{
    match fault {
        QueryFault::Unknown(place) => PlanFault::Unknown(place),
        _ => PlanFault::Memory,
    }
}

/// Returns the essential services that are up if the mode asks for them, and none otherwise.
fn essential_for(alloc: Global, db: &Db, up: &Set, mode: Mode, prune: bool) -> Result<Set, NoMem>
    requires { length up.now ≡ length db.now.names }
    ensures bound { IfOk result (λ set. length set ≡ length db.now.names) }
    ensures up { IfOk result (λ set. (s : ℕ) → Has set s → Has up.now s) }
    ensures members { IfOk result (λ set. MindsEssential mode prune →
        Holds set (IsEssentialUp db.now (Has up.now))) }
{
    match (mode, prune) {
        (Mode::Up, false) | (Mode::DownAll, _) => Set::empty(alloc, db.names().len()),
        (Mode::Up, true) | (Mode::Down, _) => essential_up(alloc, db, up),
    }
}

/// Returns the essential services that are up.
fn essential_up(alloc: Global, db: &Db, up: &Set) -> Result<Set, NoMem>
    requires { length up.now ≡ length db.now.names }
    ensures bound { IfOk result (λ set. length set ≡ length db.now.names) }
    ensures members { IfOk result (λ set. Holds set (IsEssentialUp db.now (Has up.now))) }
    ensures database { IsDatabase db.now }
{
    let mut set = Set::empty(alloc, db.names().len())?;
    let mut at = 0;
    while let Some(service) = up.next_from(at) {
        if db.is_essential(service) {
            set.insert(service);
        }
        at = service + 1;
    }
    Ok(set)
}

/// Creates the plan from what is up to what the mode of a request makes of it.
fn planned(
    alloc: Global,
    graph: &Graph,
    up: &Set,
    essential: &Set,
    request: &Request,
    wanted: &Set,
) -> Result<Plan, NoMem>
    requires up_bound { length up.now ≡ length graph.now }
    requires essential_bound { length essential.now ≡ length graph.now }
    requires wanted_bound { length wanted.now ≡ length graph.now }
    requires essential_up { (s : ℕ) → Has essential.now s → Has up.now s }
    ensures { IfOk result (IsPlanTo up.now (Target graph.now (Has up.now) (Has essential.now)
        request.now.mode request.now.prune (Has wanted.now))
        (Kept graph.now (Has essential.now) request.now.mode request.now.prune
        (Has wanted.now))) }
{
    let Sides { target, kept } = sides_of(alloc, graph, up, essential, request, wanted)?;
    leading(alloc, up, &target, kept)
}
