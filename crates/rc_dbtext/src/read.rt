//! From bytes to a database.
ghost use Rattle.std.specs.Prelude.{◌≡◌, ◌+◌, ◌++◌, ℕ, List, [], length, IfOk, IfErr};
ghost use Rattle.rc_db.specs.Database.{IsWritable};
ghost use Rattle.rc_dbtext.specs.Text.{IsDbText};
ghost use Rattle.rc_dbtext.specs.Meaning.{IsComplete, IsSorted, service_names};
ghost use Rattle.rc_dbtext.specs.Parts.{AreNeedsOf};
ghost use Rattle.rc_dbtext.specs.Spelling.{spelling, text_of};
ghost use Rattle.rc_dbtext.specs.TextFaults.{BeginsWith, HasFormFault, IsFrontFault};
ghost use Rattle.rc_dbtext.specs.TextFaults.{IsMeaningFault, IsWholeFault};

use crate::build::{draft_of, graph_of, names_of, services_of};
use crate::bundles::table_of;
use crate::complete::is_complete;
use crate::fault::TextFault;
use crate::sorted::is_sorted;
use crate::syntax::{DbForm, FormFault, read_form};
use rc_db::{Db, NoMem, Parts};
use rc_graph::Graph;
use rc_names::Names;
use std::alloc::{AllocError, Global};

/// Reads the database whose text is all of the bytes.
pub fn read_db(alloc: Global, bytes: &[u8]) -> Result<Db, TextFault>
    ensures ok { IfOk result (λ db. IsWritable db × (bytes.now ≡ spelling db)) }
    ensures fault { IfErr result (IsWholeFault bytes.now) }
{
    let form = match whole_form(alloc, bytes) {
        Ok(form) => form,
        Err(fault) => return Err(fault),
    };
    match db_of(alloc, &form) {
        Ok(db) => Ok(db),
        Err(fault) => Err(fault),
    }
}

// Parses the text that is all of the bytes.
fn whole_form<'a>(alloc: Global, bytes: &'a [u8]) -> Result<DbForm<'a>, TextFault>
    ensures ok { IfOk result (λ form. BeginsWith bytes.now form []) }
    ensures fault { IfErr result (IsWholeFault bytes.now) }
{
    let (form, rest) = match read_form(alloc, bytes) {
        Ok(read) => read,
        Err(fault) => return Err(told(fault, bytes)),
    };
    if rest.is_empty() {
        Ok(form)
    } else {
        Err(TextFault::Bad(bytes.len() - rest.len()))
    }
}

/// Reads the database whose text stands at the beginning of the bytes. Returns it with the length
/// of that text.
pub fn read_db_front(alloc: Global, bytes: &[u8]) -> Result<(Db, usize), TextFault>
    ensures ok { IfOk result (λ read. IsWritable read.0 × (read.1 ≡ length (spelling read.0))
        × ((rest : List ℕ) × (bytes.now ≡ spelling read.0 ++ rest))) }
    ensures fault { IfErr result (IsFrontFault bytes.now) }
{
    let (form, rest) = match read_form(alloc, bytes) {
        Ok(read) => read,
        Err(fault) => return Err(told(fault, bytes)),
    };
    match db_of(alloc, &form) {
        Ok(db) => Ok((db, bytes.len() - rest.len())),
        Err(fault) => Err(fault),
    }
}

// Converts a fault of the form into one that says where the line begins.
fn told(fault: FormFault, bytes: &[u8]) -> TextFault
    requires { HasFormFault bytes.now fault }
    ensures front { IsFrontFault bytes.now result }
    ensures whole { IsWholeFault bytes.now result }
{
    match fault {
        FormFault::Bad(left) => TextFault::Bad(bytes.len() - left),
        FormFault::Version => TextFault::Version,
        FormFault::TooMany => TextFault::TooMany,
        FormFault::Memory => TextFault::Memory,
    }
}

// Creates the database that a text describes.
fn db_of(alloc: Global, form: &DbForm<'_>) -> Result<Db, TextFault>
    requires { IsDbText form.now }
    ensures ok { IfOk result (λ db. IsWritable db × (text_of db ≡ form.now)) }
    ensures fault { IfErr result (IsMeaningFault form.now) }
{
    if !is_sorted(form) {
        return Err(TextFault::NotSorted);
    }
    let Ok(names) = names_of(alloc, form.services.as_slice()) else {
        return Err(TextFault::Memory);
    };
    let draft = match draft_of(alloc, form.services.as_slice(), &names) {
        Ok(Some(draft)) => draft,
        Ok(None) => {
            drop(names);
            return Err(TextFault::Dangling);
        }
        Err(_) => {
            drop(names);
            return Err(TextFault::Memory);
        }
    };
    if !is_complete(form, &names) {
        drop((names, draft));
        return Err(TextFault::Dangling);
    }
    let graph = match graph_of(draft) {
        Ok(Some(graph)) => graph,
        Ok(None) => {
            drop(names);
            return Err(TextFault::Cyclic);
        }
        Err(_) => {
            drop(names);
            return Err(TextFault::Memory);
        }
    };
    match joined(alloc, form, names, graph) {
        Ok(db) => Ok(db),
        Err(_) => Err(TextFault::Memory),
    }
}

// Creates the database that a text describes, from its names and its graph.
fn joined(alloc: Global, form: &DbForm<'_>, names: Names, graph: Graph) -> Result<Db, NoMem>
    requires text { IsDbText form.now }
    requires sorted { IsSorted form.now }
    requires complete { IsComplete form.now }
    requires names { names ≡ service_names form.now.services }
    requires needs { AreNeedsOf names form.now.services graph }
    ensures { IfOk result (λ db. IsWritable db × (text_of db ≡ form.now)) }
{
    // The names ascend, and what is needed is a service.
    let _count = names.len();
    let _lists = graph.len();
    let Ok(services) = services_of(alloc, form.services.as_slice(), &names) else {
        drop((names, graph));
        return Err(AllocError);
    };
    let Ok(table) = table_of(alloc, form.bundles.as_slice(), &names) else {
        drop((names, graph, services));
        return Err(AllocError);
    };
    let parts = Parts {
        names,
        services,
        graph,
        table,
    };
    match Db::join(parts) {
        Ok(db) => Ok(db),
        Err(_) => unreachable!(),
    }
}
