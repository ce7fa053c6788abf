//! Calls that alter a value of their own. The value is then compared with what it was.

ghost use Rattle.std.specs.Prelude.{◌≡◌, length, IfOk};

use crate::growths::told::{came_of, fault_of, go_on_to, show_came, show_end, show_same};
use crate::samples::{holds, name_of, put, set_of};
use rc_db::{MAX_BUNDLES, Table};
use rc_graph::Draft;
use rc_names::{MAX_NAMES, Name, Names};
use rc_set::{NoMem, Set};
use std::alloc::{AllocGlobal, Global};
use std::io;
use std::io::Print;

/// The value that a call alters.
#[derive(Clone, Copy)]
pub enum Given {
    /// Names, to which one is added.
    Names,
    /// No names, to which one is appended.
    NoNames,
    /// A draft, in which one service needs one more.
    Draft,
    /// A table, into which a bundle is put.
    Bundles,
}

/// As many names, in their order, as a table has room for before it grows.
static TEXTS: [&str; 8] = ["b", "c", "d", "e", "f", "g", "h", "i"];

/// As many needs of the first service as stand in a list that has taken no memory.
const EIGHT: [u16; 8] = [1, 2, 3, 4, 5, 6, 7, 8];

/// Makes a call, and prints its result, and whether the value is as it was.
pub fn show_own(rt: &(impl Print + AllocGlobal), what: &str, given: Given) -> io::Result<()> {
    match given {
        Given::Names => show_names(rt, what),
        Given::NoNames => show_no_names(rt, what),
        Given::Draft => show_draft(rt, what),
        Given::Bundles => show_bundles(rt, what),
    }
}

fn show_names(rt: &(impl Print + AllocGlobal), what: &str) -> io::Result<()> {
    let mut names = Names::new(rt.alloc());
    let shown = show_added(rt, what, &mut names);
    drop(names);
    shown
}

/// Makes the call on eight names, and prints its name and its result.
fn show_added(rt: &(impl Print + AllocGlobal), what: &str, names: &mut Names) -> io::Result<()> {
    add_eight(rt.alloc(), names)?;
    let (added, again) = two_names(rt.alloc())?;
    let _ = print!(rt; "{what}: ");
    let is_right = named(rt, names, added, again);
    show_came(rt, came_of(is_right))?;
    show_same(rt, are_eight(names))
}

/// Returns a name that comes before the eight, and a copy of it.
fn two_names(alloc: Global) -> Result<(Name, Name), NoMem> {
    let name = name_of(alloc, "a")?;
    let again = name.copy(alloc)?;
    Ok((name, again))
}

fn add_eight(alloc: Global, names: &mut Names) -> Result<(), NoMem> {
    for text in &TEXTS {
        add(names, name_of(alloc, text)?)?;
    }
    Ok(())
}

/// Adds a name, and returns true if it is new.
fn add(names: &mut Names, name: Name) -> Result<bool, NoMem> {
    if names.len() >= MAX_NAMES {
        return Ok(false);
    }
    names.add(name)
}

/// Adds a name twice, and returns true if it was new only the first time.
fn named(rt: &impl Print, names: &mut Names, added: Name, again: Name) -> Result<bool, NoMem> {
    let is_new = add(names, added)?;
    go_on_to(rt, "add of a name that is there");
    Ok(!add(names, again)? && is_new && names.len() == 9 && names.find("a") == Some(0))
}

fn are_eight(names: &Names) -> bool {
    for id in 0..names.len() {
        let text = names.name_of(id).text();
        if TEXTS.get(id as usize) != Some(&text) || names.find(text) != Some(id) {
            return false;
        }
    }
    names.len() == 8 && names.find("a").is_none()
}

/// Makes the call on no names, and prints its name and its result.
fn show_no_names(rt: &(impl Print + AllocGlobal), what: &str) -> io::Result<()> {
    let name = name_of(rt.alloc(), "a")?;
    let mut names = Names::new(rt.alloc());
    let _ = print!(rt; "{what}: ");
    let came = names.append(name);
    let is_same = names.is_empty();
    drop(names);
    show_end(rt, came, is_same)
}

fn show_draft(rt: &(impl Print + AllocGlobal), what: &str) -> io::Result<()> {
    let mut draft = eight_needs(rt.alloc())?;
    let _ = print!(rt; "{what}: ");
    let came = needed(rt, &mut draft);
    show_came(rt, fault_of(came))?;
    show_same(rt, has_eight_needs(draft))
}

fn eight_needs(alloc: Global) -> Result<Draft, NoMem>
    ensures { IfOk result (λ draft. length draft ≡ 10) }
{
    let mut draft = Draft::new(alloc, 10)?;
    for service in 1..9 {
        draft.need(0, service)?;
    }
    Ok(draft)
}

fn needed(rt: &impl Print, draft: &mut Draft) -> Result<(), NoMem>
    requires { length draft.old ≡ 10 }
{
    draft.need(0, 9)?;
    go_on_to(rt, "need of a pair that is there");
    draft.need(0, 9)
}

/// Returns true if the first service needs the eight after it, and nothing else.
fn has_eight_needs(draft: Draft) -> bool {
    match draft.finish() {
        Ok(graph) => graph.len() > 0 && graph.needs(0) == EIGHT.as_slice(),
        Err(_) => false,
    }
}

fn show_bundles(rt: &(impl Print + AllocGlobal), what: &str) -> io::Result<()> {
    let mut table = Table::new(rt.alloc());
    let shown = show_beside_copy(rt, what, &mut table);
    drop(table);
    shown
}

fn show_beside_copy(
    rt: &(impl Print + AllocGlobal),
    what: &str,
    table: &mut Table,
) -> io::Result<()> {
    put_eight(rt.alloc(), table)?;
    let before = table.copy(rt.alloc())?;
    let shown = show_put(rt, what, table, &before);
    drop(before);
    shown
}

fn put_eight(alloc: Global, table: &mut Table) -> Result<(), NoMem> {
    for text in &TEXTS {
        if table.len() < MAX_BUNDLES {
            put(alloc, table, text, set_of(alloc, 5, &[2])?)?;
        }
    }
    Ok(())
}

/// Makes the call on a table, and prints its name and its result.
fn show_put(
    rt: &(impl Print + AllocGlobal),
    what: &str,
    table: &mut Table,
    before: &Table,
) -> io::Result<()> {
    let (name, set, again) = bundle_of(rt.alloc())?;
    let _ = print!(rt; "{what}: ");
    let is_right = put_twice(rt, table, &name, set, again);
    drop(name);
    show_came(rt, came_of(is_right))?;
    show_same(rt, table.same(before))
}

/// Returns the name of a bundle, its set, and a copy of the set.
fn bundle_of(alloc: Global) -> Result<(Name, Set, Set), NoMem> {
    let name = name_of(alloc, "a")?;
    let set = set_of(alloc, 5, &[0, 1])?;
    let again = set.copy(alloc)?;
    Ok((name, set, again))
}

/// Puts a bundle in, puts it in once more, and takes it out. Returns true if it was new only the
/// first time, and what comes out is what was put in.
fn put_twice(
    rt: &impl Print,
    table: &mut Table,
    name: &Name,
    set: Set,
    again: Set,
) -> Result<bool, NoMem> {
    let is_new = put_one(table, name, set)?.is_none() && table.len() == 9;
    go_on_to(rt, "set of a name that is there");
    let is_old = is_of_two(put_one(table, name, again)?) && table.len() == 9;
    go_on_to(rt, "clear");
    Ok(is_of_two(table.clear(name.text())) && is_new && is_old && table.len() == 8)
}

/// Returns true if a set has the services of the bundle.
fn is_of_two(set: Option<Set>) -> bool {
    match set {
        Some(set) => holds(&set, &[0, 1]),
        None => false,
    }
}

/// Puts a bundle in, and returns the set of the one that it replaces.
fn put_one(table: &mut Table, name: &Name, set: Set) -> Result<Option<Set>, NoMem> {
    if table.len() < MAX_BUNDLES {
        return table.set(name, set);
    }
    drop(set);
    Ok(None)
}
