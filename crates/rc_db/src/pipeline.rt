//! Pipelines: longruns that hand on what they write, to the same last one.

ghost use Rattle.std.specs.Prelude.{◌≡◌, ◌<◌, ◌⊎◌, ◌↔◌, ℕ, length, slice_get, slice_index, Some};
ghost use Rattle.std.specs.Prelude.{IsTrue, IfOk, IfErr, IfSome, IfNone, OnOk};
ghost use Rattle.rc_model.specs.Line.{Lists};
ghost use Rattle.rc_model.specs.Names.{Has, Holds};
ghost use Rattle.rc_model.specs.Database.{Feeds};
ghost use Rattle.rc_db.specs.Pipeline.{InPipelineOf, IsLastConsumer};
ghost use Rattle.rc_db.specs.QueryFaults.{OfLongrun, IsSuch, IsQueryFault};

use crate::db::Db;
use crate::fault::QueryFault;
use crate::reach::ids_of;
use rc_set::{NoMem, Set};
use std::alloc::Global;

impl Db {
    /// Returns the longruns of a longrun's pipeline, ascending.
    pub fn pipeline(&self, alloc: Global, name: &str) -> Result<Vec<u16>, QueryFault>
        ensures ids { IfOk result (λ ids. (s : ℕ) × (slice_get self.now.names s ≡ Some name.now) ×
            Lists (InPipelineOf self.now s) ids.items) }
        ensures longrun { OnOk result (IsSuch self.now OfLongrun name.now) }
        ensures fault { IfErr result (λ fault. IsQueryFault self.now OfLongrun name.now fault) }
    {
        let id = self.service_named(name)?;
        if !self.service(id).is_longrun() {
            return Err(QueryFault::NotLongrun);
        }
        let set = pipeline_of(alloc, self, id)?;
        ids_of(alloc, set)
    }
}

/// Returns the longruns whose pipelines end where that of a service ends.
fn pipeline_of(alloc: Global, db: &Db, id: u16) -> Result<Set, NoMem>
    requires { id < length db.now.names }
    ensures { IfOk result (λ set. Holds set (InPipelineOf db.now id)) }
{
    let ends = last_consumers(alloc, db)?;
    let mut set = Set::empty(alloc, db.names().len())?;
    for s in 0..db.names().len() {
        add_if_in_pipeline(&mut set, db, &ends, id, s);
    }
    Ok(set)
}

/// Adds a service to a set, if it is in the pipeline of another.
fn add_if_in_pipeline(set: &mut Set, db: &Db, ends: &[u16], id: u16, s: u16)
    requires set { length set.old ≡ length db.now.names }
    requires id { id < length db.now.names }
    requires service { s < length db.now.names }
    requires bound { length ends.now ≡ length db.now.names }
    requires ends { (t : ℕ) → t < length db.now.names →
        IsLastConsumer db.now t (slice_index ends.now t) }
    ensures bound { length set.new ≡ length set.old }
    ensures members { Holds set.new (λ t. Has set.old t ⊎ ((t ≡ s) × InPipelineOf db.now id s)) }
{
    if is_in_pipeline(db, ends, id, s) {
        set.insert(s);
    }
}

/// Returns true if a service is a longrun whose pipeline ends where that of another ends.
fn is_in_pipeline(db: &Db, ends: &[u16], id: u16, s: u16) -> bool
    requires id { id < length db.now.names }
    requires service { s < length db.now.names }
    requires bound { length ends.now ≡ length db.now.names }
    requires ends { (t : ℕ) → t < length db.now.names →
        IsLastConsumer db.now t (slice_index ends.now t) }
    ensures { IsTrue result ↔ InPipelineOf db.now id s }
{
    if ends[id as usize] != ends[s as usize] {
        return false;
    }
    db.service(s).is_longrun()
}

/// Returns the end of the pipeline of each service. Takes one step for each service, after that for
/// the service that it writes for, which it needs.
fn last_consumers(alloc: Global, db: &Db) -> Result<Vec<u16>, NoMem>
    ensures bound { IfOk result (λ ends. length ends.items ≡ length db.now.names) }
    ensures ends { IfOk result (λ ends. (s : ℕ) → s < length db.now.names →
        IsLastConsumer db.now s (slice_index ends.items s)) }
{
    let mut ends = vec![in alloc; 0u16; db.names().len() as usize]?;
    let order = db.graph().order();
    for s in order {
        let end = last_consumer(db, &ends, *s);
        ends[*s as usize] = end;
    }
    Ok(ends)
}

/// Returns the end of the pipeline of a service, once that of the service it writes for is known.
fn last_consumer(db: &Db, ends: &[u16], s: u16) -> u16
    requires service { s < length db.now.names }
    requires bound { length ends.now ≡ length db.now.names }
    requires ends { (t : ℕ) → Feeds db.now s t → IsLastConsumer db.now t (slice_index ends.now t) }
    ensures { IsLastConsumer db.now s result }
{
    match consumer_of(db, s) {
        None => s,
        Some(t) => ends[t as usize],
    }
}

/// Returns the service that reads what a service writes, if there is one.
fn consumer_of(db: &Db, s: u16) -> Option<u16>
    requires { s < length db.now.names }
    ensures some { IfSome result (λ t. Feeds db.now s t × (t < length db.now.names)) }
    ensures none { IfNone result ((t : ℕ) → Feeds db.now s t → ⊥) }
{
    let _names = db.names();
    db.service(s).producer_for
}
