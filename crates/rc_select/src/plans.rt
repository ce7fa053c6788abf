ghost use Rattle.std.specs.Prelude.{◌≡◌, ℕ, false, length, IfOk};
ghost use Rattle.rc_model.specs.Session.{Nothing};
ghost use Rattle.rc_model.specs.Names.{Has};
ghost use Rattle.rc_model.specs.Graph.{IsClosed};
ghost use Rattle.rc_model.specs.Plan.{IsPlanTo, Target};
ghost use Rattle.rc_select.specs.PlanSets.{IsPlan};

use crate::request::Mode;
use rc_graph::Graph;
use rc_set::{NoMem, Set};
use std::alloc::Global;
use std::marker::Model;

/// What a change does to the services that are up.
pub struct Plan {
    opening: Set,
    lower: Set,
    raise: Set,
    kept: Set,
}

impl Model for Plan {
    ghost use Rattle.rc_model.specs.Plan.{PlanSets};
    ghost use Rattle.rc_select.specs.PlanSets.{IsPlan};

    ghost Value = { PlanSets };

    ghost view = { λ p. record {
      opening = p.opening;
      lower = p.lower;
      raise = p.raise;
      kept = p.kept;
    } };

    ghost invariant = { λ p. IsPlan (record {
      opening = p.opening;
      lower = p.lower;
      raise = p.raise;
      kept = p.kept;
    }) };
}

// Not derived: a crate that drops a plan calls this, and proves nothing about its parts.
impl Drop for Plan {
    fn drop(self) {
        let Plan {
            opening: _,
            lower: _,
            raise: _,
            kept: _,
        } = self;
    }
}

impl Plan {
    /// Returns the services that are up before the change. What goes down was up, what comes up was
    /// not, what is kept was up and does not go down, and all four sets have one bound.
    pub fn opening(&self) -> &Set
        ensures set { result.now ≡ self.now.opening }
        ensures plan { IsPlan self.now }
    {
        &self.opening
    }

    /// Returns the services that the change takes down.
    pub fn lower(&self) -> &Set
        ensures { result.now ≡ self.now.lower }
    {
        &self.lower
    }

    /// Returns the services that the change brings up.
    pub fn raise(&self) -> &Set
        ensures { result.now ≡ self.now.raise }
    {
        &self.raise
    }

    /// Returns the essential services that stay up although the change would have taken them down.
    /// What they need stays too, and is not listed.
    pub fn kept(&self) -> &Set
        ensures { result.now ≡ self.now.kept }
    {
        &self.kept
    }
}

/// Creates the plan from one set of services to another. The plan keeps nothing.
pub fn between(alloc: Global, graph: &Graph, from: &Set, to: &Set) -> Result<Plan, NoMem>
    requires from_bound { length from.now ≡ length graph.now }
    requires to_bound { length to.now ≡ length graph.now }
    requires from_closed { IsClosed graph.now (Has from.now) }
    requires to_closed { IsClosed graph.now (Has to.now) }
    ensures { IfOk result (IsPlanTo from.now (Has to.now) Nothing) }
{
    let kept = Set::empty(alloc, graph.len())?;
    leading(alloc, from, to, kept)
}

/// Creates the plan that brings services up with all that they need, and takes nothing down.
pub fn plan_up(alloc: Global, graph: &Graph, up: &Set, wanted: &Set) -> Result<Plan, NoMem>
    requires up_bound { length up.now ≡ length graph.now }
    requires wanted_bound { length wanted.now ≡ length graph.now }
    requires up_closed { IsClosed graph.now (Has up.now) }
    ensures { IfOk result (IsPlanTo up.now
        (Target graph.now (Has up.now) Nothing Mode.Up false (Has wanted.now)) Nothing) }
{
    let mut target = graph.up_of(alloc, wanted)?;
    target.join(up);
    between(alloc, graph, up, &target)
}

/// Creates the plan from one set of services to another that keeps the given services.
pub(crate) fn leading(alloc: Global, from: &Set, to: &Set, kept: Set) -> Result<Plan, NoMem>
    requires to_bound { length to.now ≡ length from.now }
    requires kept_bound { length kept ≡ length from.now }
    requires kept_up { (s : ℕ) → Has kept s → Has from.now s }
    requires kept_stays { (s : ℕ) → Has kept s → Has to.now s }
    ensures { IfOk result (IsPlanTo from.now (Has to.now) (Has kept)) }
{
    let mut lower = from.copy(alloc)?;
    lower.without(to);
    let mut raise = to.copy(alloc)?;
    raise.without(from);
    Ok(Plan {
        opening: from.copy(alloc)?,
        lower,
        raise,
        kept,
    })
}
