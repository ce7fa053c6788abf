//! Copies of what a gate keeps of a database.

ghost use Rattle.std.specs.Prelude.{◌≡◌, IfOk, map, string_bytes};

use rc_db::{Db, NoMem, Service};
use rc_names::Names;
use std::alloc::Global;

/// Returns a copy of the description of each service.
pub(crate) fn services_of(alloc: Global, db: &Db) -> Result<Vec<Service>, NoMem>
    ensures { IfOk result (λ made. made.items ≡ db.now.services) }
{
    let mut made = Vec::with_capacity(alloc, db.names().len() as usize)?;
    for id in 0..db.names().len() {
        made.push(db.service(id).copy(alloc)?)?;
    }
    Ok(made)
}

/// Returns a copy of the services' names.
pub(crate) fn names_of(alloc: Global, db: &Db) -> Result<Vec<String>, NoMem>
    ensures { IfOk result (λ made. map string_bytes made.items ≡ db.now.names) }
{
    let names = db.names();
    let mut made = Vec::with_capacity(alloc, names.len() as usize)?;
    for id in 0..names.len() {
        made.push(String::from_str(alloc, names.name_of(id).text())?)?;
    }
    Ok(made)
}

/// Returns a copy of a table of names.
pub(crate) fn table_of(alloc: Global, names: &Names) -> Result<Names, NoMem>
    ensures { IfOk result (λ made. made ≡ names.now) }
{
    let mut made = Names::new(alloc);
    for id in 0..names.len() {
        made.append(names.name_of(id).copy(alloc)?)?;
    }
    Ok(made)
}

/// Returns a copy of a list of words.
pub(crate) fn words_of(alloc: Global, words: &[String]) -> Result<Vec<String>, NoMem>
    ensures { IfOk result (λ made. map string_bytes made.items ≡ map string_bytes words.now) }
{
    let mut made = Vec::with_capacity(alloc, words.len())?;
    for word in words {
        made.push(String::from_str(alloc, word.as_str())?)?;
    }
    Ok(made)
}
