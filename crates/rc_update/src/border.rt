//! Whether a session can pass from one database to another while no service moves.
ghost use Rattle.std.specs.Prelude.{◌≡◌, ◌<◌, ◌↔◌, ℕ, length, IfOk, IsFalse, IsTrue};
ghost use Rattle.rc_model.specs.Names.{Has, Holds};
ghost use Rattle.rc_update.specs.Carrying.{Carried, IsTwin};
ghost use Rattle.rc_update.specs.Conversions.{conversions_of};

use crate::carrying::carried;
use crate::conversion::Conversion;
use crate::twins::twin;
use rc_db::Db;
use rc_set::{NoMem, Set};
use std::alloc::Global;

/// Returns true if each service of `from` goes on in the new database and `to` holds exactly the
/// services that they go on as.
pub fn are_carried(
    alloc: Global,
    old: &Db,
    new: &Db,
    list: &[Conversion<'_>],
    from: &Set,
    to: &Set,
) -> Result<bool, NoMem>
    requires from { length from.now ≡ length old.now.names }
    requires to { length to.now ≡ length new.now.names }
    ensures yes { IfOk result (λ are. IsTrue are →
        Holds to.now (Carried old.now new.now (conversions_of list.now) (Has from.now))
        × ((s : ℕ) → Has from.now s → (t : ℕ)
        × IsTwin old.now new.now (conversions_of list.now) s t)) }
    ensures no { IfOk result (λ are.
        Holds to.now (Carried old.now new.now (conversions_of list.now) (Has from.now)) →
        ((s : ℕ) → Has from.now s → (t : ℕ)
        × IsTwin old.now new.now (conversions_of list.now) s t) → IsTrue are) }
{
    if !all_go_on(old, new, list, from) {
        return Ok(false);
    }
    let there = carried(alloc, old, new, list, from)?;
    let same = there.same(to);
    drop(there);
    Ok(same)
}

// Returns true if each of the given services goes on.
fn all_go_on(old: &Db, new: &Db, list: &[Conversion<'_>], from: &Set) -> bool
    requires { length from.now ≡ length old.now.names }
    ensures { IsTrue result ↔ ((s : ℕ) → Has from.now s → (t : ℕ)
        × IsTwin old.now new.now (conversions_of list.now) s t) }
{
    for id in 0..old.names().len() {
        if is_stray(old, id, new, list, from) {
            return false;
        }
    }
    true
}

// Returns true if a service is one of the given ones and does not go on.
fn is_stray(old: &Db, id: u16, new: &Db, list: &[Conversion<'_>], from: &Set) -> bool
    requires bound { length from.now ≡ length old.now.names }
    requires id { id < length old.now.names }
    ensures yes { IsTrue result → Has from.now id
        × ((t : ℕ) → IsTwin old.now new.now (conversions_of list.now) id t → ⊥) }
    ensures no { IsFalse result → Has from.now id → (t : ℕ)
        × IsTwin old.now new.now (conversions_of list.now) id t }
{
    if !from.contains(id) {
        return false;
    }
    match twin(old, id, list, new) {
        Some(_) => false,
        None => true,
    }
}
