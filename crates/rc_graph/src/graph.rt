ghost use Rattle.std.specs.Prelude.{◌≡◌, ℕ, ◌<◌, ◌↔◌, List, [], length, slice_index_or};
ghost use Rattle.std.specs.Prelude.{IsTrue, IfOk, Contains};
ghost use Rattle.rc_model.specs.Names.{Has, Holds, IsAscending};
ghost use Rattle.rc_model.specs.Graph.{Needs, AreNeeds, IsAcyclic, IsClosed, UpFrom, DownFrom};
ghost use Rattle.rc_graph.specs.Order.{IsOrder};

use crate::closure::{down_closure, is_closed, up_closure};
use rc_set::{NoMem, Set};
use smallvec::SmallVec;
use std::alloc::Global;
use std::marker::Model;
use std::sync::Arc;

/// Which service needs which, without cycles. Services are numbers from 0 on. A value
/// is a handle: those that `share` makes of one another are one graph in memory,
/// which goes with the last of them.
///
/// Time: `share`, `needs`, `needed_by`, `order` and `len` take one step. `closed`, `up_of` and
/// `down_of` look once at each service, and at the pairs of those that are in the set that they are
/// given, or that they return. `same` compares two slices with a number for each service and pair.
pub struct Graph {
    pub(crate) lists: Arc<Lists, Global>,
}

/// Services, ascending. Up to eight stand in the value itself, which is no larger than for two.
pub(crate) type Row = SmallVec<u16, 8>;

/// What the handles to one graph share: what each service needs, who needs it, and the order.
#[derive(Drop)]
pub(crate) struct Lists {
    pub(crate) needs: Vec<Row>,
    pub(crate) needed_by: Vec<Row>,
    pub(crate) order: Vec<u16>,
    /// The needs of all services again, in one list, each behind its length. Two graphs are
    /// compared by it. It takes 2 bytes for each service and pair.
    pub(crate) flat: Vec<u16>,
}

impl Model for Graph {
    ghost use Rattle.std.specs.Prelude.{ℕ, List};
    ghost use Rattle.std.specs.Arc.{arc_value};
    ghost use Rattle.rc_graph.specs.Rows.{rows};
    ghost use Rattle.rc_graph.specs.Graph.{IsGraph};

    ghost Value = { List (List ℕ) };

    ghost view = { λ g. rows (arc_value g.lists).needs.items };

    ghost invariant = { λ g. let lists = arc_value g.lists in
        IsGraph (rows lists.needs.items) (rows lists.needed_by.items) lists.order.items
        lists.flat.items };
}

// Not derived: a crate that drops a graph calls this, and proves nothing about its parts.
impl Drop for Graph {
    fn drop(self) {
        let Graph { lists: _ } = self;
    }
}

impl Graph {
    /// Returns another handle to the same graph, and copies nothing. Fails only if the count of
    /// handles can grow no more.
    pub fn share(&self) -> Result<Graph, NoMem>
        ensures { IfOk result (λ graph. graph ≡ self.now) }
    {
        let lists = Arc::try_clone(&self.lists)?;
        Ok(Graph { lists })
    }

    /// Returns the number of services, at most 4,096.
    pub fn len(&self) -> u16
        ensures count { result ≡ length self.now }
        ensures lists { AreNeeds self.now }
        ensures acyclic { IsAcyclic self.now }
    {
        self.lists.needs.len() as u16
    }

    /// Returns true if two graphs have as many services, and each service needs the same in both.
    pub fn same(&self, other: &Graph) -> bool
        ensures { IsTrue result ↔ (self.now ≡ other.now) }
    {
        self.lists.flat.as_slice() == other.lists.flat.as_slice()
    }

    /// Returns the services that a service needs, ascending.
    pub fn needs(&self, service: u16) -> &[u16]
        requires { service < length self.now }
        ensures list { result.now ≡ slice_index_or self.now service [] }
        ensures ascending { IsAscending result.now }
    {
        self.lists.needs[service as usize].as_slice()
    }

    /// Returns the services that need a service, ascending.
    pub fn needed_by(&self, service: u16) -> &[u16]
        requires { service < length self.now }
        ensures ascending { IsAscending result.now }
        ensures same { (s : ℕ) → Contains result.now s ↔ Needs self.now s service }
    {
        self.lists.needed_by[service as usize].as_slice()
    }

    /// Returns each service once, after all that it needs.
    pub fn order(&self) -> &[u16]
        ensures order { IsOrder self.now result.now }
        ensures acyclic { IsAcyclic self.now }
    {
        self.lists.order.as_slice()
    }

    /// Returns true if a set contains all that its members need.
    pub fn closed(&self, set: &Set) -> bool
        requires { length set.now ≡ length self.now }
        ensures { IsTrue result ↔ IsClosed self.now (Has set.now) }
    {
        is_closed(set, &self.lists.needs)
    }

    /// Returns a set with all that its members reach along needs.
    pub fn up_of(&self, alloc: Global, set: &Set) -> Result<Set, NoMem>
        requires { length set.now ≡ length self.now }
        ensures bound { IfOk result (λ closure. length closure ≡ length self.now) }
        ensures members { IfOk result (λ closure. Holds closure (UpFrom self.now (Has set.now))) }
    {
        up_closure(alloc, set, &self.lists)
    }

    /// Returns a set with all that reach one of its members.
    pub fn down_of(&self, alloc: Global, set: &Set) -> Result<Set, NoMem>
        requires { length set.now ≡ length self.now }
        ensures bound { IfOk result (λ closure. length closure ≡ length self.now) }
        ensures members { IfOk result (λ closure. Holds closure (DownFrom self.now (Has set.now))) }
    {
        down_closure(alloc, set, &self.lists)
    }
}
