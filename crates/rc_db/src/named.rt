ghost use Rattle.std.specs.Prelude.{◌≡◌, ◌↔◌, ◌⊎◌, List, Bool, length, map, string_bytes};
ghost use Rattle.std.specs.Prelude.{slice_get, All, Contains, Some, IsTrue, IfOk, IfSome, IfNone};
ghost use Rattle.rc_model.specs.Names.{Has, Holds, AreNames};
ghost use Rattle.rc_model.specs.Database.{HaveBound, names_of, value_of, IsKnown, IsUnknownAt};
ghost use Rattle.rc_model.specs.Database.{Selected};

use crate::table::Table;
use rc_names::Names;
use rc_set::{NoMem, Set};
use std::alloc::Global;

/// Returns true if a text is among names.
pub fn has_name(names: &Names, text: &str) -> bool
    ensures { IsTrue result ↔ Contains names.now text.now }
{
    names.find(text).is_some()
}

/// Returns true if a text is the name of a bundle.
pub fn has_bundle(table: &Table, text: &str) -> bool
    ensures { IsTrue result ↔ Contains (names_of table.now) text.now }
{
    table.get(text).is_some()
}

/// Returns true if a text is the name of a service or of a bundle.
fn is_known(names: &Names, table: &Table, text: &str) -> bool
    ensures { IsTrue result ↔ IsKnown names.now table.now text.now }
{
    has_name(names, text) || has_bundle(table, text)
}

/// Returns the place of the first word that is no name, if there is one.
pub fn first_unknown(names: &Names, table: &Table, words: &[String]) -> Option<usize>
    ensures some { IfSome result
        (IsUnknownAt names.now table.now (map string_bytes words.now)) }
    ensures none { IfNone result
        (All (IsKnown names.now table.now) (map string_bytes words.now)) }
{
    for place in 0..words.len() {
        if !is_known(names, table, words[place].as_str()) {
            return Some(place);
        }
    }
    None
}

/// Returns the services that words stand for.
pub(crate) fn set_of(
    alloc: Global,
    names: &Names,
    table: &Table,
    words: &[String],
) -> Result<Set, NoMem>
    requires { HaveBound (length names.now) table.now }
    ensures members { IfOk result (λ set. Holds set
        (Selected names.now table.now (map string_bytes words.now))) }
    ensures bound { IfOk result (λ set. length set ≡ length names.now) }
{
    let mut set = Set::empty(alloc, names.len())?;
    for word in words {
        add_service(&mut set, names, word.as_str());
        add_bundle(&mut set, table, word.as_str());
    }
    Ok(set)
}

/// Adds the service of a name to a set, if there is one.
fn add_service(set: &mut Set, names: &Names, text: &str)
    requires bound { length set.old ≡ length names.now }
    requires names { AreNames names.now }
    ensures bound { length set.new ≡ length set.old }
    ensures members { Holds set.new (λ s. Has set.old s ⊎ (slice_get names.now s ≡ Some text.now)) }
{
    if let Some(id) = names.find(text) {
        set.insert(id);
    }
}

/// Adds the services of a bundle to a set, if there is a bundle of that name.
fn add_bundle(set: &mut Set, table: &Table, text: &str)
    requires { HaveBound (length set.old) table.now }
    ensures bound { length set.new ≡ length set.old }
    ensures members { Holds set.new (λ s. Has set.old s ⊎
        ((bundle : List Bool) × (value_of table.now text.now ≡ Some bundle) × Has bundle s)) }
{
    if let Some(bundle) = table.get(text) {
        set.join(bundle);
    }
}
