ghost use Rattle.std.specs.Prelude.{◌≡◌, ◌<◌, ◌≤◌, ◌⊎◌, ◌↔◌, ◌++◌, ◌∷◌, [], length, Some, IfOk};
ghost use Rattle.std.specs.Prelude.{OnOk, IsTrue, slice_get};
ghost use Rattle.std.specs.Option.{option_copied};
ghost use Rattle.rc_model.specs.Names.{IsInByteOrder};
ghost use Rattle.rc_model.specs.Line.{IsEdit, names_altered};
ghost use Rattle.rc_bundle.specs.Walk.{IsNextName, IsNoted, next_place};

use rc_db::Table;
use rc_names::Name;
use rc_set::{NoMem, Set};
use std::alloc::{AllocError, Global};
use std::cmp::Ordering;
use std::marker::Model;

/// A name whose set alters.
#[derive(Drop)]
struct Change {
    name: Name,
    before: Option<Set>,
    after: Option<Set>,
}

impl Model for Change {
    ghost use Rattle.rc_model.specs.Line.{Alteration};

    ghost Value = { Alteration };

    ghost view = { λ a. record { name = a.name; before = a.before; after = a.after } };
}

impl Change {
    /// Returns a copy of the alteration.
    fn copy(&self, alloc: Global) -> Result<Change, NoMem>
        ensures { IfOk result (λ copy. copy ≡ self.now) }
    {
        change_of(alloc, &self.name, self.before.as_ref(), self.after.as_ref())
    }
}

/// What a change alters in a table of bundles: each name whose set alters, with the set before and
/// the set after, in byte order. It is empty where nothing alters.
pub struct Edit {
    changes: Vec<Change>,
}

impl Model for Edit {
    ghost use Rattle.std.specs.Prelude.{List};
    ghost use Rattle.rc_model.specs.Names.{IsInByteOrder};
    ghost use Rattle.rc_model.specs.Line.{Alteration, names_altered};

    ghost Value = { List Alteration };

    ghost view = { λ e. e.changes.items };

    ghost invariant = { λ e. IsInByteOrder (names_altered e.changes.items) };
}

// Not derived: a crate that drops an edit calls this, and proves nothing about its parts.
impl Drop for Edit {
    fn drop(self) {
        let Edit { changes: _ } = self;
    }
}

impl Edit {
    /// Returns the number of names that alter.
    pub fn len(&self) -> usize
        ensures len { result ≡ length self.now }
        ensures order { IsInByteOrder (names_altered self.now) }
    {
        self.changes.len()
    }

    /// Returns the altered name at a place in byte order, with its set before and its set after. A
    /// set is `None` where the name is no bundle.
    pub fn at(&self, place: usize) -> (&Name, Option<&Set>, Option<&Set>)
        requires { place < length self.now }
        ensures { slice_get self.now place
            ≡ Some (record {
              name = result.0.now;
              before = option_copied result.1;
              after = option_copied result.2;
            }) }
    {
        let change = &self.changes[place];
        (&change.name, change.before.as_ref(), change.after.as_ref())
    }

    /// Returns another edit with the same alterations.
    pub fn copy(&self, alloc: Global) -> Result<Edit, NoMem>
        ensures { IfOk result (λ edit. edit ≡ self.now) }
    {
        let changes = copy_changes(alloc, &self.changes)?;
        Ok(Edit { changes })
    }

    /// Creates the edit from the first table to the second.
    pub fn between(alloc: Global, from: &Table, to: &Table) -> Result<Edit, NoMem>
        ensures { IfOk result (IsEdit from.now to.now) }
    {
        let from_len = from.len();
        let to_len = to.len();
        let mut changes = Vec::new(alloc);
        let (mut i, mut j) = (0, 0);
        while i < from_len || j < to_len {
            let (name, before, after) = next_name(from, i, to, j);
            let Ok(()) = note(alloc, &mut changes, name, before, after) else {
                drop(changes);
                return Err(AllocError);
            };
            i = place_after(i, before);
            j = place_after(j, after);
        }
        Ok(Edit { changes })
    }
}

/// Returns copies of alterations.
fn copy_changes(alloc: Global, changes: &[Change]) -> Result<Vec<Change>, NoMem>
    ensures { IfOk result (λ copies. copies.items ≡ changes.now) }
{
    let mut copies = Vec::new(alloc);
    for change in changes {
        let Ok(()) = push_copy(alloc, &mut copies, change) else {
            drop(copies);
            return Err(AllocError);
        };
    }
    Ok(copies)
}

/// Appends a copy of an alteration.
fn push_copy(alloc: Global, copies: &mut Vec<Change>, change: &Change) -> Result<(), NoMem>
    ensures { OnOk result (copies.new.items ≡ copies.old.items ++ change.now ∷ []) }
{
    let copy = change.copy(alloc)?;
    copies.push(copy)?;
    Ok(())
}

/// Returns the least of the names at two places of two tables, with its sets.
fn next_name<'a>(
    from: &'a Table,
    i: u16,
    to: &'a Table,
    j: u16,
) -> (&'a Name, Option<&'a Set>, Option<&'a Set>)
    requires { (i < length from.now) ⊎ (j < length to.now) }
    ensures { IsNextName from.now i to.now j result.0.now (option_copied result.1)
        (option_copied result.2) }
{
    if i >= from.len() {
        let (name, after) = to.at(j);
        return (name, None, Some(after));
    }
    let (name, before) = from.at(i);
    if j >= to.len() {
        return (name, Some(before), None);
    }
    let (other, after) = to.at(j);
    match name.text().cmp(other.text()) {
        Ordering::Less => (name, Some(before), None),
        Ordering::Equal => (name, Some(before), Some(after)),
        Ordering::Greater => (other, None, Some(after)),
    }
}

/// Returns the next place if a set stood at this place, and this place otherwise.
fn place_after(place: u16, set: Option<&Set>) -> u16
    requires { place ≤ 4096 }
    ensures { result ≡ next_place place (option_copied set.entry) }
{
    match set {
        Some(_) => place + 1,
        None => place,
    }
}

/// Appends the alteration of a name if its sets differ.
fn note(
    alloc: Global,
    changes: &mut Vec<Change>,
    name: &Name,
    before: Option<&Set>,
    after: Option<&Set>,
) -> Result<(), NoMem>
    ensures { OnOk result (IsNoted changes.old.items changes.new.items name.now
        (option_copied before.entry) (option_copied after.entry)) }
{
    if are_same(before, after) {
        return Ok(());
    }
    let change = change_of(alloc, name, before, after)?;
    changes.push(change)?;
    Ok(())
}

/// Creates the alteration of a name, with copies of its sets.
fn change_of(
    alloc: Global,
    name: &Name,
    before: Option<&Set>,
    after: Option<&Set>,
) -> Result<Change, NoMem>
    ensures { IfOk result (λ change. change ≡ record {
      name = name.now;
      before = option_copied before.entry;
      after = option_copied after.entry;
    }) }
{
    let name = name.copy(alloc)?;
    let Ok(before) = copy_set(alloc, before) else {
        drop(name);
        return Err(AllocError);
    };
    let Ok(after) = copy_set(alloc, after) else {
        drop((name, before));
        return Err(AllocError);
    };
    Ok(Change {
        name,
        before,
        after,
    })
}

/// Returns true if a name has the same set, or none, on both sides.
fn are_same(before: Option<&Set>, after: Option<&Set>) -> bool
    ensures { IsTrue result ↔ (option_copied before.entry ≡ option_copied after.entry) }
{
    match (before, after) {
        (Some(before), Some(after)) => before.bound() == after.bound() && before.same(after),
        (None, None) => true,
        _ => false,
    }
}

/// Returns a copy of a set, if there is one.
fn copy_set(alloc: Global, set: Option<&Set>) -> Result<Option<Set>, NoMem>
    ensures { IfOk result (λ copy. copy ≡ option_copied set.entry) }
{
    match set {
        Some(set) => Ok(Some(set.copy(alloc)?)),
        None => Ok(None),
    }
}
