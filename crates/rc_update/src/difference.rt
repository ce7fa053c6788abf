//! How a service of one database differs from its twin in another.
ghost use Rattle.std.specs.Prelude.{◌≡◌, ◌<◌, ◌↔◌, length, IfNone, IfOk, IfSome, IsTrue};
ghost use Rattle.rc_update.specs.Carrying.{AreTwins, IsUnaltered};
ghost use Rattle.rc_update.specs.Conversions.{conversions_of};
ghost use Rattle.rc_update.specs.Differing.{IsDifference};

use crate::conversion::{Conversion, is_restarted};
use crate::twins::{are_twins, need_twins, twin};
use rc_db::{Db, Service};
use rc_set::NoMem;
use std::alloc::Global;

/// Why a service does not stay up, whatever it needs.
#[derive(Clone, Copy, PartialEq, Eq, Drop)]
pub enum Difference {
    /// The new database does not have it.
    Gone,
    /// A conversion has it restarted.
    Restart,
    /// It is a oneshot, and was a longrun, or the other way round.
    OtherKind,
    /// Its output goes elsewhere.
    OtherPipeline,
    /// Its own dependencies differ.
    OtherNeeds,
}

/// Returns the first difference between a service of the old database and its twin, or None if the
/// service goes on unaltered.
pub fn difference_of(
    alloc: Global,
    old: &Db,
    id: u16,
    list: &[Conversion<'_>],
    new: &Db,
) -> Result<Option<Difference>, NoMem>
    requires { id < length old.now.names }
    ensures some { IfOk result (λ found. IfSome found
        (IsDifference old.now new.now (conversions_of list.now) id)) }
    ensures none { IfOk result (λ found. IfNone found
        (IsUnaltered old.now new.now (conversions_of list.now) id)) }
{
    let Some(other) = twin(old, id, list, new) else {
        return Ok(Some(Difference::Gone));
    };
    if is_restarted(list, old.names().name_of(id).text().as_bytes()) {
        return Ok(Some(Difference::Restart));
    }
    let (a, b) = (old.service(id), new.service(other));
    if !is_of_kind(a, b) {
        return Ok(Some(Difference::OtherKind));
    }
    if !write_to_twins(old, a, list, new, b) {
        return Ok(Some(Difference::OtherPipeline));
    }
    if need_twins(alloc, old, id, list, new, other)? {
        return Ok(None);
    }
    Ok(Some(Difference::OtherNeeds))
}

// Returns true if two services are of the same kind.
fn is_of_kind(a: &Service, b: &Service) -> bool
    ensures { IsTrue result ↔ (a.now.kind ≡ b.now.kind) }
{
    a.kind == b.kind
}

// Returns true if the readers of the output of two services are twins, or if neither has a reader.
fn write_to_twins(old: &Db, a: &Service, list: &[Conversion<'_>], new: &Db, b: &Service) -> bool
    requires { IfSome a.now.producer_for (λ s. s < length old.now.names) }
    ensures { IsTrue result ↔ AreTwins old.now new.now (conversions_of list.now)
        a.now.producer_for b.now.producer_for }
{
    are_twins(old, a.producer_for, list, new, b.producer_for)
}

/// Returns true if a service of the old database goes on unaltered.
pub(crate) fn is_unaltered(
    alloc: Global,
    old: &Db,
    id: u16,
    list: &[Conversion<'_>],
    new: &Db,
) -> Result<bool, NoMem>
    requires { id < length old.now.names }
    ensures { IfOk result (λ is. IsTrue is
        ↔ IsUnaltered old.now new.now (conversions_of list.now) id) }
{
    let _names = new.names();
    match difference_of(alloc, old, id, list, new)? {
        Some(_) => Ok(false),
        None => Ok(true),
    }
}
