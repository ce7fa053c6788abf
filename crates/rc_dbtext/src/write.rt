//! From a database to its text.
ghost use Rattle.std.specs.Prelude.{◌≡◌, ◌<◌, ◌++◌, length, IfOk, OnOk, Some, slice_get};
ghost use Rattle.rc_dbtext.specs.Text.{BundleText, ServiceText, bundle_lines, service_lines};
ghost use Rattle.rc_dbtext.specs.Text.{spells};
ghost use Rattle.rc_dbtext.specs.Lines.{bundles_part, services_part};
ghost use Rattle.rc_dbtext.specs.Spelling.{spelling, text_of};

use crate::lines::{push_body, push_bundle, push_count, push_head, push_line, push_needs};
use rc_db::{Db, NoMem};
use std::alloc::Global;

/// Returns the text of a database. The text of a writable database reads back as that database.
pub fn write_db(alloc: Global, db: &Db) -> Result<Vec<u8>, NoMem>
    ensures { IfOk result (λ text. text.items ≡ spelling db.now) }
{
    let mut out = Vec::new(alloc);
    push_line(&mut out, b"undorc-db", b"1")?;
    push_services(alloc, &mut out, db)?;
    push_bundles(alloc, &mut out, db)?;
    out.extend_from_slice(b"end\n")?;
    Ok(out)
}

// Appends the services after their count.
fn push_services(alloc: Global, out: &mut Vec<u8>, db: &Db) -> Result<(), NoMem>
    ensures { OnOk result (out.new.items ≡ out.old.items ++ spells (services_part db.now)) }
{
    let names = db.names();
    let count = names.len();
    push_count(alloc, out, b"services", count)?;
    for id in 0..count {
        push_service(alloc, out, db, id)?;
    }
    Ok(())
}

// Appends the lines of a service.
fn push_service(alloc: Global, out: &mut Vec<u8>, db: &Db, id: u16) -> Result<(), NoMem>
    requires { id < length db.now.names }
    ensures { OnOk result ((text : ServiceText) → slice_get (text_of db.now).services id ≡ Some text
        → out.new.items ≡ out.old.items ++ spells (service_lines text)) }
{
    let names = db.names();
    let service = db.service(id);
    push_head(alloc, out, names.name_of(id), service)?;
    push_needs(out, names, db.graph().needs(id))?;
    push_body(alloc, out, names, service)?;
    Ok(())
}

// Appends the bundles after their count.
fn push_bundles(alloc: Global, out: &mut Vec<u8>, db: &Db) -> Result<(), NoMem>
    ensures { OnOk result (out.new.items ≡ out.old.items ++ spells (bundles_part db.now)) }
{
    let table = db.table();
    let count = table.len();
    push_count(alloc, out, b"bundles", count)?;
    for place in 0..count {
        push_bundle_at(alloc, out, db, place)?;
    }
    Ok(())
}

// Appends the line of the bundle at a place.
fn push_bundle_at(alloc: Global, out: &mut Vec<u8>, db: &Db, place: u16) -> Result<(), NoMem>
    requires { place < length db.now.table }
    ensures { OnOk result ((text : BundleText) →
        slice_get (text_of db.now).bundles place ≡ Some text
        → out.new.items ≡ out.old.items ++ spells (bundle_lines text)) }
{
    let names = db.names();
    let table = db.table();
    let (name, set) = table.at(place);
    push_bundle(alloc, out, names, name, set)?;
    Ok(())
}
