//! Lists of names.

ghost use Rattle.std.specs.Prelude.{◌≡◌, ◌<◌, ◌≤◌, ◌⊎◌, ◌+◌, length, map, Contains, IfOk};
ghost use Rattle.std.specs.Prelude.{IfErr};
ghost use Rattle.std.specs.Bool.{OnTrue, OnFalse};
ghost use Rattle.rc_model.specs.Names.{IsInByteOrder};
ghost use Rattle.rc_names.specs.Names.{ListsNames};
ghost use Rattle.rc_model.specs.Database.{names_of, AreApart, Service as Facts};
ghost use Rattle.rc_db.specs.Queries.{IsServiceNamed, IsShown};
ghost use Rattle.rc_db.specs.Merging.{IsNext};

use crate::db::Db;
use crate::fault::QueryFault;
use crate::table::Table;
use crate::which::Which;
use rc_names::{Kind, Name, Names};
use rc_set::NoMem;
use std::alloc::Global;

impl Db {
    /// Returns the names of one sort or of all, in byte order.
    pub fn list(&self, alloc: Global, which: Which) -> Result<Vec<&Name>, QueryFault>
        ensures names { IfOk result (λ names. ListsNames (IsShown self.now which)
            (map (λ name. name.now) names.items)) }
        ensures fault { IfErr result (λ fault. fault ≡ QueryFault.Memory) }
    {
        let names = match which {
            Which::All => all_names(alloc, self.names(), self.table()),
            Which::Services => service_names(alloc, self.names()),
            Which::Oneshots => names_of_kind(alloc, self, Kind::Oneshot),
            Which::Longruns => names_of_kind(alloc, self, Kind::Longrun),
            Which::Bundles => bundle_names(alloc, self.table()),
        };
        Ok(names?)
    }
}

/// Returns the names of the services and of the bundles, each pushed in its turn.
fn all_names<'a>(alloc: Global, names: &'a Names, table: &'a Table) -> Result<Vec<&'a Name>, NoMem>
    requires names { IsInByteOrder names.now }
    requires apart { AreApart names.now table.now }
    ensures { IfOk result (λ all. ListsNames (λ name.
        Contains names.now name ⊎ Contains (names_of table.now) name)
        (map (λ name. name.now) all.items)) }
{
    let mut all = Vec::new(alloc);
    let mut id = 0;
    let mut place = 0;
    for _turn in 0..names.len() + table.len() {
        let next;
        if is_service_next(names, id, table, place) {
            next = names.name_of(id);
            id += 1;
        } else {
            next = table.at(place).0;
            place += 1;
        }
        all.push(next)?;
    }
    Ok(all)
}

/// Returns true if the next name of all is that of the next service, and not that of the next
/// bundle.
fn is_service_next(names: &Names, id: u16, table: &Table, place: u16) -> bool
    requires id { id ≤ length names.now }
    requires place { place ≤ length table.now }
    requires more { id + place < length names.now + length table.now }
    requires apart { AreApart names.now table.now }
    ensures service { OnTrue result (IsNext names.now id (names_of table.now) place) }
    ensures bundle { OnFalse result (IsNext (names_of table.now) place names.now id) }
{
    if id == names.len() {
        return false;
    }
    if place == table.len() {
        return true;
    }
    names.name_of(id).text() < table.at(place).0.text()
}

/// Returns the names of the services.
fn service_names(alloc: Global, names: &Names) -> Result<Vec<&Name>, NoMem>
    ensures { IfOk result (λ all. map (λ name. name.now) all.items ≡ names.now) }
{
    let mut all = Vec::new(alloc);
    for id in 0..names.len() {
        all.push(names.name_of(id))?;
    }
    Ok(all)
}

/// Returns the names of the bundles.
fn bundle_names(alloc: Global, table: &Table) -> Result<Vec<&Name>, NoMem>
    ensures { IfOk result (λ all. map (λ name. name.now) all.items ≡ names_of table.now) }
{
    let mut all = Vec::new(alloc);
    for place in 0..table.len() {
        all.push(table.at(place).0)?;
    }
    Ok(all)
}

/// Returns the names of the services of a kind.
fn names_of_kind(alloc: Global, db: &Db, kind: Kind) -> Result<Vec<&Name>, NoMem>
    ensures { IfOk result (λ all. ListsNames
        (λ name. (service : Facts) × IsServiceNamed db.now name service × (service.kind ≡ kind))
        (map (λ name. name.now) all.items)) }
{
    let names = db.names();
    let mut all = Vec::new(alloc);
    for id in 0..names.len() {
        if db.service(id).is_of(kind) {
            all.push(names.name_of(id))?;
        }
    }
    Ok(all)
}
