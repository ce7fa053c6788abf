//! The bundles of a database, made of what a text says.
ghost use Rattle.std.specs.Prelude.{◌≡◌, ◌<◌, ◌≤◌, ◌++◌, ◌∷◌, [], Bool, List, length, map, All};
ghost use Rattle.std.specs.Prelude.{Contains, IfOk, IfSome, IfNone, OnOk};
ghost use Rattle.rc_model.specs.Names.{IsBefore, IsInByteOrder};
ghost use Rattle.rc_model.specs.Database.{HaveBound, names_of};
ghost use Rattle.rc_dbtext.specs.Meaning.{bundle_names};
ghost use Rattle.rc_dbtext.specs.Spelling.{bundle_text, members, name_at};

use crate::lexer::{BundleForm, NameWord};
use rc_db::laws::tables_are_their_values;
use rc_db::{NoMem, Table};
use rc_names::Names;
use rc_set::Set;
use std::alloc::Global;

/// Creates the table of the bundles, whose names and members ascend.
pub fn table_of(alloc: Global, forms: &[BundleForm<'_>], names: &Names) -> Result<Table, NoMem>
    requires few { length forms.now ≤ 4096 }
    requires sorted { IsInByteOrder (bundle_names forms.now) }
    requires each { All (λ b. IsInByteOrder b.members) forms.now }
    requires known { All (λ b. All (Contains names.now) b.members) forms.now }
    ensures bundles { IfOk result (λ table. map (bundle_text names.now) table ≡ forms.now) }
    ensures bounds { IfOk result (HaveBound (length names.now)) }
{
    let mut table = Table::new(alloc);
    for form in forms {
        add_bundle(alloc, &mut table, form, names)?;
    }
    Ok(table)
}

// Adds a bundle to the table, after all others.
fn add_bundle(
    alloc: Global,
    table: &mut Table,
    form: &BundleForm<'_>,
    names: &Names,
) -> Result<(), NoMem>
    requires room { length table.old < 4096 }
    requires last { All (λ other. IsBefore other form.now.name) (names_of table.old) }
    requires sorted { IsInByteOrder form.now.members }
    requires known { All (Contains names.now) form.now.members }
    ensures { OnOk result ((set : List Bool) × (table.new ≡ table.old ++ (form.now.name, set) ∷ [])
        × (length set ≡ length names.now)
        × (map (name_at names.now) (members set) ≡ form.now.members)) }
{
    let set = set_of(alloc, form.members.as_slice(), names)?;
    let name = form.name.copy(alloc)?;
    // Both tables are in order, and a table is what it has under each name.
    tables_are_their_values();
    let _before = table.len();
    table.set(&name, set)?;
    let _after = table.len();
    Ok(())
}

// Creates the set of the services with these names. The texts ascend, and all are names.
fn set_of(alloc: Global, texts: &[NameWord<'_>], names: &Names) -> Result<Set, NoMem>
    requires sorted { IsInByteOrder texts.now }
    requires known { All (Contains names.now) texts.now }
    ensures bound { IfOk result (λ set. length set ≡ length names.now) }
    ensures members { IfOk result (λ set. map (name_at names.now) (members set) ≡ texts.now) }
{
    match known_set(alloc, texts, names)? {
        Some(set) => Ok(set),
        None => unreachable!(),
    }
}

/// Creates the set of the services with these names, which ascend. Returns `None` if one is not the
/// name of a service. Looks for each name after the one before.
pub fn known_set(alloc: Global, texts: &[NameWord<'_>], names: &Names) -> Result<Option<Set>, NoMem>
    requires { IsInByteOrder texts.now }
    ensures unknown { IfOk result (λ set. IfNone set (All (Contains names.now) texts.now → ⊥)) }
    ensures known { IfOk result (λ set. IfSome set (λ _. All (Contains names.now) texts.now)) }
    ensures bound { IfOk result (λ set. IfSome set (λ set. length set ≡ length names.now)) }
    ensures members { IfOk result (λ set. IfSome set (λ set.
        map (name_at names.now) (members set) ≡ texts.now)) }
{
    let mut set = Set::empty(alloc, names.len())?;
    let mut next = 0;
    for text in texts {
        let Some(id) = names.find_near(text.text(), next) else {
            drop(set);
            return Ok(None);
        };
        set.insert(id);
        next = id + 1;
    }
    Ok(Some(set))
}
