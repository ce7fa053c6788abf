//! What is lowered by the old database, what is carried over, and what is raised by the new one.
ghost use Rattle.std.specs.Prelude.{◌≡◌, ◌<◌, ◌⊎◌, ℕ, Some, length, map, slice_get, string_bytes};
ghost use Rattle.std.specs.Prelude.{IfOk, OnOk};
ghost use Rattle.rc_model.specs.Names.{Has, Holds};
ghost use Rattle.rc_names.specs.Names.{ListsNames};
ghost use Rattle.rc_model.specs.Graph.{DownFrom, IsClosed};
ghost use Rattle.rc_model.specs.Database.{IsDatabase};
ghost use Rattle.rc_update.specs.Carrying.{AreNamesOf, Carried, IsAlteredUp, IsTwin};
ghost use Rattle.rc_update.specs.Carrying.{IsUnaltered, StaysUp};
ghost use Rattle.rc_update.specs.Conversions.{conversions_of};

use crate::conversion::Conversion;
use crate::difference::is_unaltered;
use crate::twins::twin;
use rc_db::Db;
use rc_names::Names;
use rc_set::{NoMem, Set};
use std::alloc::Global;

/// What an update does.
#[derive(Drop)]
pub struct Update {
    /// Names to lower by the old database, with their dependents: live services that are altered,
    /// gone or to be restarted.
    pub lower: Vec<String>,
    /// What stays live, as services of the new database.
    pub kept: Set,
    /// Names to raise by the new database, with their dependencies: those under which live services
    /// go on.
    pub raise: Vec<String>,
}

/// Computes the update from one database to another for the given live services.
pub fn carry(
    alloc: Global,
    old: &Db,
    new: &Db,
    list: &[Conversion<'_>],
    live: &Set,
) -> Result<Update, NoMem>
    requires bound { length live.now ≡ length old.now.names }
    requires closed { IsClosed old.now.needs (Has live.now) }
    ensures lower { IfOk result (λ update. AreNamesOf old.now
        (IsAlteredUp old.now new.now (conversions_of list.now) (Has live.now))
        (map string_bytes update.lower.items)) }
    ensures kept { IfOk result (λ update. Holds update.kept
        (Carried old.now new.now (conversions_of list.now)
        (StaysUp old.now new.now (conversions_of list.now) (Has live.now)))) }
    ensures bound { IfOk result (λ update. length update.kept ≡ length new.now.names) }

    // Nothing that stays needs anything that does not.
    ensures closed { IfOk result (λ update. IsClosed new.now.needs (Has update.kept)) }
    ensures raise { IfOk result (λ update. AreNamesOf new.now
        (Carried old.now new.now (conversions_of list.now) (Has live.now))
        (map string_bytes update.raise.items)) }
{
    let altered = altered(alloc, old, new, list, live)?;
    let lower = names_of(alloc, old.names(), &altered)?;
    let kept = kept(alloc, old, new, list, live, &altered);
    drop(altered);
    Ok(Update {
        lower,
        kept: kept?,
        raise: raised(alloc, old, new, list, live)?,
    })
}

/// Returns the services that stay live, as services of the old database.
pub fn staying(
    alloc: Global,
    old: &Db,
    new: &Db,
    list: &[Conversion<'_>],
    live: &Set,
) -> Result<Set, NoMem>
    requires { length live.now ≡ length old.now.names }
    ensures bound { IfOk result (λ stays. length stays ≡ length old.now.names) }
    ensures members { IfOk result (λ stays. Holds stays
        (StaysUp old.now new.now (conversions_of list.now) (Has live.now))) }
{
    let altered = altered(alloc, old, new, list, live)?;
    left(alloc, old, live, &altered)
}

// Returns the services that stay live, as services of the new database, given those that are
// altered, gone or to be restarted.
fn kept(
    alloc: Global,
    old: &Db,
    new: &Db,
    list: &[Conversion<'_>],
    live: &Set,
    altered: &Set,
) -> Result<Set, NoMem>
    requires live { length live.now ≡ length old.now.names }
    requires bound { length altered.now ≡ length old.now.names }
    requires altered { Holds altered.now
        (IsAlteredUp old.now new.now (conversions_of list.now) (Has live.now)) }
    ensures bound { IfOk result (λ kept. length kept ≡ length new.now.names) }
    ensures members { IfOk result (λ kept. Holds kept
        (Carried old.now new.now (conversions_of list.now)
        (StaysUp old.now new.now (conversions_of list.now) (Has live.now)))) }
    ensures database { OnOk result (IsDatabase new.now) }
{
    let stays = left(alloc, old, live, altered)?;
    carried(alloc, old, new, list, &stays)
}

// Returns the live services that are not in a set and do not depend on any of it along paths.
fn left(alloc: Global, old: &Db, live: &Set, altered: &Set) -> Result<Set, NoMem>
    requires live { length live.now ≡ length old.now.names }
    requires bound { length altered.now ≡ length old.now.names }
    ensures bound { IfOk result (λ set. length set ≡ length old.now.names) }
    ensures members { IfOk result (λ set. Holds set (λ s. Has live.now s
        × (DownFrom old.now.needs (Has altered.now) s → ⊥))) }
{
    let mut stays = live.copy(alloc)?;
    stays.without(&old.graph().down_of(alloc, altered)?);
    Ok(stays)
}

// Returns the names under which the live services go on.
fn raised(
    alloc: Global,
    old: &Db,
    new: &Db,
    list: &[Conversion<'_>],
    live: &Set,
) -> Result<Vec<String>, NoMem>
    requires { length live.now ≡ length old.now.names }
    ensures { IfOk result (λ raise. AreNamesOf new.now
        (Carried old.now new.now (conversions_of list.now) (Has live.now))
        (map string_bytes raise.items)) }
{
    let there = carried(alloc, old, new, list, live)?;
    names_of(alloc, new.names(), &there)
}

// Returns the live services that are altered, gone or to be restarted.
fn altered(
    alloc: Global,
    old: &Db,
    new: &Db,
    list: &[Conversion<'_>],
    live: &Set,
) -> Result<Set, NoMem>
    requires { length live.now ≡ length old.now.names }
    ensures bound { IfOk result (λ set. length set ≡ length old.now.names) }
    ensures members { IfOk result (λ set. Holds set
        (IsAlteredUp old.now new.now (conversions_of list.now) (Has live.now))) }
    ensures spared { IfOk result (λ set. (s : ℕ) → Has live.now s → (Has set s → ⊥) →
        IsUnaltered old.now new.now (conversions_of list.now) s) }
{
    let mut set = Set::empty(alloc, old.names().len())?;
    for id in 0..old.names().len() {
        if live.contains(id) {
            add_altered(alloc, &mut set, old, id, list, new)?;
        }
    }
    Ok(set)
}

// Adds a service if it is altered, gone or to be restarted.
fn add_altered(
    alloc: Global,
    set: &mut Set,
    old: &Db,
    id: u16,
    list: &[Conversion<'_>],
    new: &Db,
) -> Result<(), NoMem>
    requires id { id < length old.now.names }
    requires bound { length set.old ≡ length old.now.names }
    ensures bound { OnOk result (length set.new ≡ length set.old) }
    ensures members { OnOk result (Holds set.new (λ s. Has set.old s ⊎ ((s ≡ id)
        × (IsUnaltered old.now new.now (conversions_of list.now) id → ⊥)))) }
    ensures spared { OnOk result ((Has set.new id → ⊥) →
        IsUnaltered old.now new.now (conversions_of list.now) id) }
{
    if !is_unaltered(alloc, old, id, list, new)? {
        set.insert(id);
    }
    Ok(())
}

/// Returns the services of the new database that the given services of the old one go on as.
pub(crate) fn carried(
    alloc: Global,
    old: &Db,
    new: &Db,
    list: &[Conversion<'_>],
    set: &Set,
) -> Result<Set, NoMem>
    requires { length set.now ≡ length old.now.names }
    ensures bound { IfOk result (λ carried. length carried ≡ length new.now.names) }
    ensures members { IfOk result (λ carried. Holds carried
        (Carried old.now new.now (conversions_of list.now) (Has set.now))) }
    ensures database { IsDatabase new.now }
{
    let mut carried = Set::empty(alloc, new.names().len())?;
    for id in 0..old.names().len() {
        if set.contains(id) {
            add_twin(&mut carried, old, id, list, new);
        }
    }
    Ok(carried)
}

// Adds the twin of a service, if it has one.
fn add_twin(set: &mut Set, old: &Db, id: u16, list: &[Conversion<'_>], new: &Db)
    requires id { id < length old.now.names }
    requires bound { length set.old ≡ length new.now.names }
    ensures bound { length set.new ≡ length set.old }
    ensures members { Holds set.new (λ t. Has set.old t
        ⊎ IsTwin old.now new.now (conversions_of list.now) id t) }
{
    if let Some(other) = twin(old, id, list, new) {
        set.insert(other);
    }
}

/// Returns the names of services in byte order, each once.
pub fn names_of(alloc: Global, names: &Names, set: &Set) -> Result<Vec<String>, NoMem>
    requires { length set.now ≡ length names.now }
    ensures { IfOk result (λ listed. ListsNames
        (λ name. (s : ℕ) × (slice_get names.now s ≡ Some name) × Has set.now s)
        (map string_bytes listed.items)) }
{
    let mut listed = Vec::new(alloc);
    for id in 0..names.len() {
        if set.contains(id) {
            listed.push(String::from_str(alloc, names.name_of(id).text())?)?;
        }
    }
    Ok(listed)
}
