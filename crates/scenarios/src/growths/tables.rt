//! Edits of bundles that a table is given outright, or that are only made.

ghost use Rattle.std.specs.Prelude.{length};
ghost use Rattle.rc_model.specs.Database.{HaveBound};

use crate::growths::told::{show_came, show_line};
use rc_board::Fault;
use rc_bundle::{BundleFault, add, added, delete, removed};
use rc_db::{Db, Table};
use rc_session::{Refusal, Step};
use std::alloc::{AllocGlobal, Global};
use std::io;
use std::io::Print;

/// Alters a copy of the database's table by an edit, or only makes the edit. Prints the result, and
/// whether the table is as it was.
pub fn show_table(
    rt: &(impl Print + AllocGlobal),
    db: &Db,
    what: &str,
    step: Option<&Step>,
    is_given: bool,
) -> io::Result<()> {
    let mut table = db.table().copy(rt.alloc())?;
    let _ = print!(rt; "{what}: ");
    let came = altered(rt.alloc(), &mut table, db, step, is_given);
    let shown = show_bundles(rt, came, &table, db);
    drop(table);
    shown
}

fn show_bundles(
    rt: &impl Print,
    came: Result<(), Fault>,
    table: &Table,
    db: &Db,
) -> io::Result<()> {
    show_came(rt, came)?;
    if table.same(db.table()) {
        return show_line(rt, "as before");
    }
    let bundles = table.len();
    println!(rt; "now {bundles} bundles")
}

/// Defines a bundle or removes some, as a step says, or only makes the edit.
fn altered(
    alloc: Global,
    table: &mut Table,
    db: &Db,
    step: Option<&Step>,
    is_given: bool,
) -> Result<(), Fault>
    requires { HaveBound (length db.now.names) table.old }
{
    let edit = match (step, is_given) {
        (Some(Step::Add(name, contents, force)), true) => {
            add(alloc, table, db, name, contents, *force)
        }
        (Some(Step::Add(name, contents, force)), false) => {
            added(alloc, table, db, name, contents, *force)
        }
        (Some(Step::Delete(names, force)), true) => delete(alloc, table, db, names, *force),
        (Some(Step::Delete(names, force)), false) => removed(alloc, table, db, names, *force),
        _ => return Err(Fault::Strange),
    };
    match edit {
        Ok(edit) if edit.len() == 1 => Ok(()),
        Ok(_) => Err(Fault::Strange),
        Err(BundleFault::Memory) => Err(Fault::Refused(Refusal::Memory)),
        Err(_) => Err(Fault::Strange),
    }
}
