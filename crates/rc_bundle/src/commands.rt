ghost use Rattle.std.specs.Prelude.{◌≡◌, ◌<◌, ◌≤◌, ℕ, length, map, All, IfOk, IfErr, OnOk};
ghost use Rattle.std.specs.Prelude.{OnErr, string_bytes};
ghost use Rattle.rc_model.specs.Database.{HaveBound, IsTable, IsKnown, IsBundle};
ghost use Rattle.rc_model.specs.Line.{IsEdit, Defines, Removes, CanAdd, CanDelete, IsAddFault};
ghost use Rattle.rc_model.specs.Line.{IsDeleteFault};
ghost use Rattle.rc_bundle.specs.Bundling.{LeadsWhere};

use crate::edit::Edit;
use crate::fault::BundleFault;
use crate::words::{first_missing, first_service};
use rc_db::{Db, MAX_BUNDLES, NoMem, Table, first_unknown, has_bundle, has_name};
use rc_names::{Name, Names};
use std::alloc::{AllocError, Global};

/// Defines a bundle: its name stands for the services of its contents from then on. If a bundle has
/// the name already, it gets new contents only if `force` is set. Its contents may then include its
/// own name, which stands for what the bundle was before.
pub fn add(
    alloc: Global,
    table: &mut Table,
    db: &Db,
    name: &Name,
    contents: &[String],
    force: bool,
) -> Result<Edit, BundleFault>
    requires bundles { HaveBound (length db.now.names) table.old }
    ensures table { OnOk result (Defines db.now.names table.old name.now
        (map string_bytes contents.now) table.new) }
    ensures edit { IfOk result (IsEdit table.old table.new) }
    ensures can { OnOk result (CanAdd db.now.names table.old name.now
        (map string_bytes contents.now) force) }
    ensures bundles { HaveBound (length db.now.names) table.new }
    ensures fault { IfErr result (IsAddFault db.now.names table.old name.now
        (map string_bytes contents.now) force) }
    ensures same { OnErr result (table.new ≡ table.old) }
{
    check_add(table, db, name, contents, force)?;
    let (new, edit) = defined(alloc, table, db, name, contents)?;
    *table = new;
    Ok(edit)
}

/// Removes bundles. Names of no bundle are passed over only if `force` is set. A name that is given
/// twice counts once.
pub fn delete(
    alloc: Global,
    table: &mut Table,
    db: &Db,
    names: &[String],
    force: bool,
) -> Result<Edit, BundleFault>
    requires bundles { HaveBound (length db.now.names) table.old }
    ensures table { OnOk result (Removes table.old (map string_bytes names.now) table.new) }
    ensures edit { IfOk result (IsEdit table.old table.new) }
    ensures can { OnOk result (CanDelete db.now.names table.old
        (map string_bytes names.now) force) }
    ensures bundles { HaveBound (length db.now.names) table.new }
    ensures fault { IfErr result (IsDeleteFault db.now.names table.old
        (map string_bytes names.now) force) }
    ensures same { OnErr result (table.new ≡ table.old) }
{
    check_delete(table, db, names, force)?;
    let (new, edit) = cleared(alloc, table, names)?;
    *table = new;
    Ok(edit)
}

/// Returns the edit that `add` would make, and leaves the table as it is.
pub fn added(
    alloc: Global,
    table: &Table,
    db: &Db,
    name: &Name,
    contents: &[String],
    force: bool,
) -> Result<Edit, BundleFault>
    requires bundles { HaveBound (length db.now.names) table.now }
    ensures edit { IfOk result (LeadsWhere
        (Defines db.now.names table.now name.now (map string_bytes contents.now)) table.now) }
    ensures can { OnOk result (CanAdd db.now.names table.now name.now
        (map string_bytes contents.now) force) }
    ensures fault { IfErr result (IsAddFault db.now.names table.now name.now
        (map string_bytes contents.now) force) }
{
    check_add(table, db, name, contents, force)?;
    let (new, edit) = defined(alloc, table, db, name, contents)?;
    drop(new);
    Ok(edit)
}

/// Returns the edit that `delete` would make, and leaves the table as it is.
pub fn removed(
    alloc: Global,
    table: &Table,
    db: &Db,
    names: &[String],
    force: bool,
) -> Result<Edit, BundleFault>
    ensures edit { IfOk result (LeadsWhere
        (Removes table.now (map string_bytes names.now)) table.now) }
    ensures can { OnOk result (CanDelete db.now.names table.now
        (map string_bytes names.now) force) }
    ensures fault { IfErr result (IsDeleteFault db.now.names table.now
        (map string_bytes names.now) force) }
{
    check_delete(table, db, names, force)?;
    let (new, edit) = cleared(alloc, table, names)?;
    drop(new);
    Ok(edit)
}

/// Checks whether a bundle may be defined. Takes no memory.
fn check_add(
    table: &Table,
    db: &Db,
    name: &Name,
    contents: &[String],
    force: bool,
) -> Result<(), BundleFault>
    ensures can { OnOk result (CanAdd db.now.names table.now name.now
        (map string_bytes contents.now) force) }
    ensures fault { IfErr result (IsAddFault db.now.names table.now name.now
        (map string_bytes contents.now) force) }
{
    check_among(db.names(), table, name, contents, force)
}

/// Checks whether a bundle may be defined, given the names of the services.
fn check_among(
    names: &Names,
    table: &Table,
    name: &Name,
    contents: &[String],
    force: bool,
) -> Result<(), BundleFault>
    ensures can { OnOk result (CanAdd names.now table.now name.now
        (map string_bytes contents.now) force) }
    ensures fault { IfErr result (IsAddFault names.now table.now name.now
        (map string_bytes contents.now) force) }
{
    if has_name(names, name.text()) {
        return Err(BundleFault::IsAtomic(0));
    }
    let is_there = has_bundle(table, name.text());
    if is_there && !force {
        return Err(BundleFault::Exists);
    }
    if let Some(place) = first_unknown(names, table, contents) {
        return Err(BundleFault::Unknown(place + 1));
    }
    if !is_there && table.len() >= MAX_BUNDLES {
        return Err(BundleFault::Full);
    }
    Ok(())
}

/// Checks whether bundles may be removed. Takes no memory.
fn check_delete(table: &Table, db: &Db, names: &[String], force: bool) -> Result<(), BundleFault>
    ensures can { OnOk result (CanDelete db.now.names table.now
        (map string_bytes names.now) force) }
    ensures fault { IfErr result (IsDeleteFault db.now.names table.now
        (map string_bytes names.now) force) }
{
    if let Some(place) = first_service(db, names) {
        return Err(BundleFault::IsAtomic(place));
    }
    if force {
        return Ok(());
    }
    match first_missing(table, names) {
        Some(place) => Err(BundleFault::Missing(place)),
        None => Ok(()),
    }
}

/// Returns the table with a bundle defined, and the edit that leads to it.
fn defined(
    alloc: Global,
    table: &Table,
    db: &Db,
    name: &Name,
    contents: &[String],
) -> Result<(Table, Edit), NoMem>
    requires known { All (IsKnown db.now.names table.now) (map string_bytes contents.now) }
    requires place { 4096 ≤ length table.now → IsBundle table.now name.now }
    requires bundles { HaveBound (length db.now.names) table.now }
    ensures table { IfOk result (λ done.
        Defines db.now.names table.now name.now (map string_bytes contents.now) done.0) }
    ensures edit { IfOk result (λ done. IsEdit table.now done.0 done.1) }
    ensures is_table { IfOk result (λ done. IsTable done.0) }
    ensures bundles { IfOk result (λ done. HaveBound (length db.now.names) done.0) }
{
    let set = match db.selected(alloc, table, contents) {
        Ok(set) => set,
        Err(_) => return Err(AllocError),
    };
    let Ok(mut new) = table.copy(alloc) else {
        drop(set);
        return Err(AllocError);
    };
    let Ok(before) = new.set(name, set) else {
        drop(new);
        return Err(AllocError);
    };
    drop(before);
    // The contract of `len` says that this is a table.
    let _len = new.len();
    let Ok(edit) = Edit::between(alloc, table, &new) else {
        drop(new);
        return Err(AllocError);
    };
    Ok((new, edit))
}

/// Returns the table with bundles removed, and the edit that leads to it.
fn cleared(alloc: Global, table: &Table, names: &[String]) -> Result<(Table, Edit), NoMem>
    ensures table { IfOk result (λ done. Removes table.now (map string_bytes names.now) done.0) }
    ensures edit { IfOk result (λ done. IsEdit table.now done.0 done.1) }
    ensures is_table { IfOk result (λ done. IsTable done.0) }
    ensures bounds { IfOk result (λ done.
        (bound : ℕ) → HaveBound bound table.now → HaveBound bound done.0) }
{
    let mut new = table.copy(alloc)?;
    for name in names {
        drop(new.clear(name.as_str()));
    }
    // The contract of `len` says that this is a table.
    let _len = new.len();
    let Ok(edit) = Edit::between(alloc, table, &new) else {
        drop(new);
        return Err(AllocError);
    };
    Ok((new, edit))
}
