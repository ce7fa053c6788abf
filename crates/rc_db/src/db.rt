ghost use Rattle.std.specs.Prelude.{◌≡◌, ◌<◌, ◌↔◌, length, map, string_bytes, slice_get, All, Some};
ghost use Rattle.std.specs.Prelude.{IsTrue, IfOk, IfErr, OnOk, OnErr};
ghost use Rattle.rc_model.specs.Names.{Holds};
ghost use Rattle.rc_model.specs.Database.{HaveBound, FitTogether, IsDatabase, IsEssential, IsKnown};
ghost use Rattle.rc_model.specs.Database.{Selected};
ghost use Rattle.rc_db.specs.QueryFaults.{IsNamesFault};
ghost use Rattle.rc_db.specs.Parts.{database_of};

use crate::fault::QueryFault;
use crate::fit::fit_together;
use crate::named::{first_unknown, set_of};
use crate::parts::{Parts, Unfit};
use crate::service::Service;
use crate::table::Table;
use rc_graph::Graph;
use rc_names::Names;
use rc_set::Set;
use std::alloc::Global;
use std::marker::Model;

/// Services with their names, what they need, and the bundles that were compiled with them.
pub struct Db {
    parts: Parts,
}

impl Model for Db {
    ghost use Rattle.rc_model.specs.Database.{Database, IsDatabase};
    ghost use Rattle.rc_db.specs.Parts.{database_of};

    ghost Value = { Database };

    ghost view = { λ d. database_of d.parts };

    ghost invariant = { λ d. IsDatabase (database_of d.parts) };
}

// Not derived: a crate that drops a database calls this, and proves nothing about its parts.
impl Drop for Db {
    fn drop(self) {
        let Db { parts: _ } = self;
    }
}

impl Db {
    /// Creates the database of these parts. Takes no memory.
    pub fn join(parts: Parts) -> Result<Db, Unfit>
        ensures database { IfOk result (λ db. db ≡ database_of parts) }
        ensures fit { OnOk result (FitTogether (database_of parts)) }
        ensures unfit { OnErr result (FitTogether (database_of parts) → ⊥) }
    {
        if fit_together(&parts) {
            Ok(Db { parts })
        } else {
            Err(Unfit)
        }
    }

    /// Returns the names of the services. A service is the place of its name.
    pub fn names(&self) -> &Names
        ensures names { result.now ≡ self.now.names }
        ensures database { IsDatabase self.now }
    {
        &self.parts.names
    }

    /// Returns the graph of which service needs which.
    pub fn graph(&self) -> &Graph
        ensures graph { result.now ≡ self.now.needs }
        ensures database { IsDatabase self.now }
    {
        &self.parts.graph
    }

    /// Returns the table of the bundles.
    pub fn table(&self) -> &Table
        ensures table { result.now ≡ self.now.table }
        ensures database { IsDatabase self.now }
    {
        &self.parts.table
    }

    /// Returns the description of a service.
    pub fn service(&self, id: u16) -> &Service
        requires { id < length self.now.names }
        ensures { slice_get self.now.services id ≡ Some result.now }
    {
        &self.parts.services[id as usize]
    }

    /// Returns true if a service stays up when a change of mode `Down` or a pruning change would
    /// lower it, even if it is named.
    pub fn is_essential(&self, id: u16) -> bool
        requires { id < length self.now.names }
        ensures { IsTrue result ↔ IsEssential self.now id }
    {
        self.service(id).essential
    }

    /// Returns the services that words stand for by a table of bundles, which need not be the
    /// database's own. A word that is the name of a service and of a bundle stands for both.
    pub fn selected(
        &self,
        alloc: Global,
        table: &Table,
        words: &[String],
    ) -> Result<Set, QueryFault>
        requires { HaveBound (length self.now.names) table.now }
        ensures members { IfOk result (λ set. Holds set
            (Selected self.now.names table.now (map string_bytes words.now))) }
        ensures bound { IfOk result (λ set. length set ≡ length self.now.names) }
        ensures known { OnOk result
            (All (IsKnown self.now.names table.now) (map string_bytes words.now)) }
        ensures fault { IfErr result
            (IsNamesFault self.now.names table.now (map string_bytes words.now)) }
    {
        let names = self.names();
        if let Some(place) = first_unknown(names, table, words) {
            return Err(QueryFault::Unknown(place));
        }
        Ok(set_of(alloc, names, table, words)?)
    }
}
