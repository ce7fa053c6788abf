//! Twins: the services of one database and those of another that they go on as.
ghost use Rattle.std.specs.Prelude.{◌≡◌, ◌<◌, ◌↔◌, ℕ, length, IfNone, IfOk, IfSome, IsTrue};
ghost use Rattle.rc_model.specs.Database.{IsDatabase};
ghost use Rattle.rc_model.specs.Graph.{Needs};
ghost use Rattle.rc_model.specs.Names.{Holds};
ghost use Rattle.rc_update.specs.Carrying.{AreTwins, IsTwin, NeedTwins};
ghost use Rattle.rc_update.specs.Conversions.{conversions_of};

use crate::conversion::{Conversion, counterpart};
use rc_db::Db;
use rc_set::{NoMem, Set};
use std::alloc::Global;

/// Returns the twin of a service of the old database: the service that it goes on as in the new
/// one.
pub(crate) fn twin(old: &Db, id: u16, list: &[Conversion<'_>], new: &Db) -> Option<u16>
    requires { id < length old.now.names }
    ensures found { IfSome result (IsTwin old.now new.now (conversions_of list.now) id) }
    ensures missing { IfNone result ((t : ℕ) →
        IsTwin old.now new.now (conversions_of list.now) id t → ⊥) }
    ensures database { IsDatabase new.now }
    ensures old_database { IsDatabase old.now }
{
    let names = new.names();
    let Some(name) = counterpart(list, old.names().name_of(id).text().as_bytes()) else {
        return None;
    };
    names.find_bytes(name)
}

/// Returns true if both services are missing, or if the first goes on as the second.
pub(crate) fn are_twins(
    old: &Db,
    service: Option<u16>,
    list: &[Conversion<'_>],
    new: &Db,
    other: Option<u16>,
) -> bool
    requires { IfSome service (λ s. s < length old.now.names) }
    ensures { IsTrue result
        ↔ AreTwins old.now new.now (conversions_of list.now) service other }
{
    match (service, other) {
        (Some(id), Some(place)) => is_twin(old, id, list, new, place),
        (None, None) => true,
        _ => false,
    }
}

// Returns true if the first service goes on as the second.
fn is_twin(old: &Db, id: u16, list: &[Conversion<'_>], new: &Db, other: u16) -> bool
    requires { id < length old.now.names }
    ensures { IsTrue result ↔ IsTwin old.now new.now (conversions_of list.now) id other }
{
    match twin(old, id, list, new) {
        Some(found) => found == other,
        None => false,
    }
}

/// Returns true if each dependency of the first service has a twin and the second depends on
/// exactly these twins.
pub(crate) fn need_twins(
    alloc: Global,
    old: &Db,
    id: u16,
    list: &[Conversion<'_>],
    new: &Db,
    other: u16,
) -> Result<bool, NoMem>
    requires id { id < length old.now.names }
    requires other { other < length new.now.names }
    ensures { IfOk result (λ same. IsTrue same
        ↔ NeedTwins old.now new.now (conversions_of list.now) id other) }
{
    let _names = new.names();
    let needs = needs_of(alloc, new, other)?;
    match needs_on(alloc, old, id, list, new)? {
        Some(on) => Ok(on.same(&needs)),
        None => Ok(false),
    }
}

// Returns the direct dependencies of a service.
fn needs_of(alloc: Global, db: &Db, id: u16) -> Result<Set, NoMem>
    requires { id < length db.now.names }
    ensures bound { IfOk result (λ set. length set ≡ length db.now.names) }
    ensures members { IfOk result (λ set. Holds set (Needs db.now.needs id)) }
{
    let needs = db.graph().needs(id);
    let mut set = Set::empty(alloc, db.names().len())?;
    for place in 0..needs.len() {
        set.insert(needs[place]);
    }
    Ok(set)
}

// Returns the twins of the direct dependencies of a service, or None if one of them has no twin.
fn needs_on(
    alloc: Global,
    old: &Db,
    id: u16,
    list: &[Conversion<'_>],
    new: &Db,
) -> Result<Option<Set>, NoMem>
    requires { id < length old.now.names }
    ensures bound { IfOk result (λ on. IfSome on (λ set. length set ≡ length new.now.names)) }
    ensures members { IfOk result (λ on. IfSome on (λ set. Holds set (λ u. (x : ℕ)
        × Needs old.now.needs id x × IsTwin old.now new.now (conversions_of list.now) x u))) }
    ensures all { IfOk result (λ on. IfSome on (λ _. (x : ℕ) → Needs old.now.needs id x →
        (u : ℕ) × IsTwin old.now new.now (conversions_of list.now) x u)) }
    ensures none { IfOk result (λ on. IfNone on ((x : ℕ) × Needs old.now.needs id x
        × ((u : ℕ) → IsTwin old.now new.now (conversions_of list.now) x u → ⊥))) }
{
    let needs = old.graph().needs(id);
    let mut set = Set::empty(alloc, new.names().len())?;
    for place in 0..needs.len() {
        let Some(other) = twin(old, needs[place], list, new) else {
            return Ok(None);
        };
        set.insert(other);
    }
    Ok(Some(set))
}
