//! Queries of several names: what they stand for, and what they need or are needed by.

ghost use Rattle.std.specs.Prelude.{◌≡◌, ◌<◌, ◌⊎◌, ◌↔◌, ℕ, length, map, string_bytes, All};
ghost use Rattle.std.specs.Prelude.{Contains, IfOk, IfErr, OnOk};
ghost use Rattle.rc_model.specs.Line.{Lists};
ghost use Rattle.rc_model.specs.Names.{Has, Holds};
ghost use Rattle.rc_model.specs.Graph.{AreNeeds};
ghost use Rattle.rc_model.specs.Database.{IsKnown, Selected};
ghost use Rattle.rc_db.specs.Queries.{IsBeside, IsNextTo, IsWithAll};
ghost use Rattle.rc_db.specs.QueryFaults.{IsNamesFault};

use crate::db::Db;
use crate::fault::QueryFault;
use rc_graph::{Graph, Way};
use rc_set::{NoMem, Set};
use std::alloc::Global;

impl Db {
    /// Returns the services that names stand for, ascending.
    pub fn atomics(&self, alloc: Global, names: &[String]) -> Result<Vec<u16>, QueryFault>
        ensures ids { IfOk result (λ ids. Lists
            (Selected self.now.names self.now.table (map string_bytes names.now)) ids.items) }
        ensures known { OnOk result
            (All (IsKnown self.now.names self.now.table) (map string_bytes names.now)) }
        ensures fault { IfErr result
            (IsNamesFault self.now.names self.now.table (map string_bytes names.now)) }
    {
        let set = self.chosen(alloc, names)?;
        ids_of(alloc, set)
    }

    /// Returns the services that the services of the names need, ascending. On the way down,
    /// returns the services that need them.
    pub fn dependencies(
        &self,
        alloc: Global,
        names: &[String],
        way: Way,
    ) -> Result<Vec<u16>, QueryFault>
        ensures ids { IfOk result (λ ids. Lists (IsNextTo self.now.needs way
            (Selected self.now.names self.now.table (map string_bytes names.now))) ids.items) }
        ensures known { OnOk result
            (All (IsKnown self.now.names self.now.table) (map string_bytes names.now)) }
        ensures fault { IfErr result
            (IsNamesFault self.now.names self.now.table (map string_bytes names.now)) }
    {
        let set = self.chosen(alloc, names)?;
        let next = next_to(alloc, self.graph(), &set, way);
        drop(set);
        ids_of(alloc, next?)
    }

    /// Returns the services of the names with all that they reach, ascending. On the way down,
    /// returns them with all that reach one of them.
    pub fn all_dependencies(
        &self,
        alloc: Global,
        names: &[String],
        way: Way,
    ) -> Result<Vec<u16>, QueryFault>
        ensures ids { IfOk result (λ ids. Lists (IsWithAll self.now.needs way
            (Selected self.now.names self.now.table (map string_bytes names.now))) ids.items) }
        ensures known { OnOk result
            (All (IsKnown self.now.names self.now.table) (map string_bytes names.now)) }
        ensures fault { IfErr result
            (IsNamesFault self.now.names self.now.table (map string_bytes names.now)) }
    {
        let set = self.chosen(alloc, names)?;
        let all = with_all(alloc, self.graph(), &set, way);
        drop(set);
        ids_of(alloc, all?)
    }

    /// Returns the services that names stand for by the database's own bundles.
    fn chosen(&self, alloc: Global, names: &[String]) -> Result<Set, QueryFault>
        ensures bound { IfOk result (λ set. length set ≡ length self.now.needs) }
        ensures members { IfOk result (λ set. Holds set
            (Selected self.now.names self.now.table (map string_bytes names.now))) }
        ensures known { OnOk result
            (All (IsKnown self.now.names self.now.table) (map string_bytes names.now)) }
        ensures fault { IfErr result
            (IsNamesFault self.now.names self.now.table (map string_bytes names.now)) }
    {
        self.selected(alloc, self.table(), names)
    }
}

/// Returns the members of a set, and drops the set.
pub(crate) fn ids_of(alloc: Global, set: Set) -> Result<Vec<u16>, QueryFault>
    ensures ids { IfOk result (λ ids. Lists (Has set) ids.items) }
    ensures fault { IfErr result (λ fault. fault ≡ QueryFault.Memory) }
{
    let ids = set.ids(alloc);
    drop(set);
    Ok(ids?)
}

/// Returns a set with all that its members reach, or with all that reach them.
fn with_all(alloc: Global, graph: &Graph, set: &Set, way: Way) -> Result<Set, NoMem>
    requires { length set.now ≡ length graph.now }
    ensures { IfOk result (λ all. Holds all (IsWithAll graph.now way (Has set.now))) }
{
    match way {
        Way::Raise => graph.up_of(alloc, set),
        Way::Lower => graph.down_of(alloc, set),
    }
}

/// Returns the services that the members of a set need, or those that need them.
fn next_to(alloc: Global, graph: &Graph, set: &Set, way: Way) -> Result<Set, NoMem>
    requires { length set.now ≡ length graph.now }
    ensures { IfOk result (λ next. Holds next (IsNextTo graph.now way (Has set.now))) }
{
    let mut next = Set::empty(alloc, graph.len())?;
    for s in 0..set.bound() {
        add_beside(&mut next, graph, set, s, way);
    }
    Ok(next)
}

/// Adds the services that a service needs, or those that need it, if the service is in `set`.
fn add_beside(next: &mut Set, graph: &Graph, set: &Set, s: u16, way: Way)
    requires next { length next.old ≡ length graph.now }
    requires set { length set.now ≡ length graph.now }
    requires service { s < length graph.now }
    requires needs { AreNeeds graph.now }
    ensures bound { length next.new ≡ length next.old }
    ensures members { Holds next.new (λ t. Has next.old t ⊎
        (Has set.now s × IsBeside graph.now way s t)) }
{
    if set.contains(s) {
        add_all(next, beside(graph, s, way));
    }
}

/// Returns the services that a service needs, or those that need it.
fn beside(graph: &Graph, s: u16, way: Way) -> &[u16]
    requires service { s < length graph.now }
    requires needs { AreNeeds graph.now }
    ensures list { (t : ℕ) → Contains result.now t ↔ IsBeside graph.now way s t }
    ensures known { All (λ t. t < length graph.now) result.now }
{
    match way {
        Way::Raise => graph.needs(s),
        Way::Lower => graph.needed_by(s),
    }
}

/// Adds all services of a list to a set.
fn add_all(set: &mut Set, list: &[u16])
    requires { All (λ t. t < length set.old) list.now }
    ensures bound { length set.new ≡ length set.old }
    ensures members { Holds set.new (λ t. Has set.old t ⊎ Contains list.now t) }
{
    for t in list {
        set.insert(*t);
    }
}
