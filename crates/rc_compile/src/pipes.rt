// What is wrong with the pipes of a definition.
ghost use Rattle.std.specs.Prelude.{◌≡◌, ◌<◌, ◌↔◌, ◌⊎◌, ℕ, List, length, map, Contains, Some};
ghost use Rattle.std.specs.Prelude.{IsTrue, IfOk, slice_get};
ghost use Rattle.rc_model.specs.Names.{Has, Holds};
ghost use Rattle.rc_compile.specs.Rows.{rows};
ghost use Rattle.rc_source.specs.Meaning.{Meaning};
ghost use Rattle.rc_source.specs.Said.{meaning_of};
ghost use Rattle.rc_compile.specs.Standing.{IsBundle};
ghost use Rattle.rc_compile.specs.Book.{HasNamed, HasPair, JoinsOther, IsLongrunAt, ArePairedAt};
ghost use Rattle.rc_compile.specs.Book.{IsMatchedAt, IsUnmatched, IsTaken, IsShared, GivesAt};

use crate::members::pipeline_name;
use crate::tables::{Which, given};
use rc_db::has_name;
use rc_names::{Kind, Name, Names};
use rc_set::{NoMem, Set};
use rc_source::Definition;
use std::alloc::Global;

// Returns the services that are longruns.
pub(crate) fn longruns_of(
    alloc: Global,
    definitions: &[Definition],
    services: &Names,
) -> Result<Set, NoMem>
    ensures bound { IfOk result (λ set. length set ≡ length services.now) }
    ensures members { IfOk result (λ set.
        Holds set (λ s. (m : Meaning) × Contains (map meaning_of definitions.now) m
        × IsLongrunAt services.now m s)) }
{
    let mut longruns = Set::empty(alloc, services.len())?;
    for definition in definitions {
        insert_longrun(&mut longruns, services, definition);
    }
    Ok(longruns)
}

// Adds the place of a definition, if it is a longrun.
fn insert_longrun(set: &mut Set, services: &Names, definition: &Definition)
    requires { length set.old ≡ length services.now }
    ensures bound { length set.new ≡ length set.old }
    ensures members { Holds set.new (λ s.
        Has set.old s ⊎ IsLongrunAt services.now (meaning_of definition.now) s) }
{
    if is_kind(definition.kind, Kind::Longrun) {
        insert_named(set, services, definition.name.text());
    }
}

// Adds the place of a name, if the table has the name.
fn insert_named(set: &mut Set, names: &Names, text: &str)
    requires { length set.old ≡ length names.now }
    ensures bound { length set.new ≡ length set.old }
    ensures members { Holds set.new (λ s. Has set.old s ⊎ (slice_get names.now s ≡ Some text.now)) }
{
    let _count = names.len();
    if let Some(id) = names.find(text) {
        set.insert(id);
    }
}

// Returns true if a name is that of a member of a set of places.
fn has_named(names: &Names, set: &Set, text: &str) -> bool
    requires { length set.now ≡ length names.now }
    ensures { IsTrue result ↔ HasNamed names.now set.now text.now }
{
    let _count = names.len();
    match names.find(text) {
        Some(id) => set.contains(id),
        None => false,
    }
}

// Returns true if two kinds are the same.
fn is_kind(kind: Kind, wanted: Kind) -> bool
    ensures { IsTrue result ↔ (kind ≡ wanted) }
{
    kind == wanted
}

// Returns true if a service and its neighbour in a pipe are longruns.
fn can_join(names: &Names, longruns: &Set, is_longrun: bool, text: &str) -> bool
    requires { length longruns.now ≡ length names.now }
    ensures { IsTrue result ↔ (IsTrue is_longrun × HasNamed names.now longruns.now text.now) }
{
    is_longrun && has_named(names, longruns, text)
}

// Returns true if some neighbour can't be joined.
fn some_unjoined(names: &Names, longruns: &Set, is_longrun: bool, texts: &[Name]) -> bool
    requires { length longruns.now ≡ length names.now }
    ensures { IsTrue result ↔ ((text : List ℕ) × Contains texts.now text
        × (IsTrue is_longrun × HasNamed names.now longruns.now text → ⊥)) }
{
    for text in texts {
        if !can_join(names, longruns, is_longrun, text.text()) {
            return true;
        }
    }
    false
}

// Returns true if a definition names a neighbour in a pipe and one of the two is no longrun.
pub(crate) fn joins_other(names: &Names, longruns: &Set, definition: &Definition) -> bool
    requires { length longruns.now ≡ length names.now }
    ensures { IsTrue result ↔ JoinsOther names.now longruns.now (meaning_of definition.now) }
{
    let is_longrun = is_kind(definition.kind, Kind::Longrun);
    if some_unjoined(names, longruns, is_longrun, &definition.consumer_for) {
        return true;
    }
    match &definition.producer_for {
        Some(name) => !can_join(names, longruns, is_longrun, name.text()),
        None => false,
    }
}

// Returns true if two names are in the table and the list of the first has the place of the second.
fn has_pair(names: &Names, lists: &[Vec<u16>], from: &Name, to: &Name) -> bool
    requires { length lists.now ≡ length names.now }
    ensures { IsTrue result ↔ HasPair names.now (rows lists.now) from.now to.now }
{
    let _count = names.len();
    let Some(from) = names.find(from.text()) else {
        return false;
    };
    let Some(to) = names.find(to.text()) else {
        return false;
    };
    lists[from as usize].contains(&to)
}

// Returns true if some name is not paired with another.
fn some_unpaired(names: &Names, lists: &[Vec<u16>], from: &[Name], to: &Name) -> bool
    requires { length lists.now ≡ length names.now }
    ensures { IsTrue result ↔ ((name : List ℕ) × Contains from.now name
        × (HasPair names.now (rows lists.now) name to.now → ⊥)) }
{
    for name in from {
        if !has_pair(names, lists, name, to) {
            return true;
        }
    }
    false
}

// Returns true if a definition names a neighbour in a pipe that does not name it from the other
// side.
pub(crate) fn is_unmatched(
    names: &Names,
    feeds: &[Vec<u16>],
    matched: &Set,
    definition: &Definition,
) -> bool
    requires feeds { length feeds.now ≡ length names.now }
    requires matched { length matched.now ≡ length names.now }
    ensures { IsTrue result ↔ IsUnmatched names.now (rows feeds.now) matched.now
        (meaning_of definition.now) }
{
    if some_unpaired(names, feeds, &definition.consumer_for, &definition.name) {
        return true;
    }
    definition.producer_for.is_some() && !has_named(names, matched, definition.name.text())
}

// Returns the services that write to one that also reads from them.
pub(crate) fn matched_of(
    alloc: Global,
    definitions: &[Definition],
    services: &Names,
    feeds: &[Vec<u16>],
) -> Result<Set, NoMem>
    requires { length feeds.now ≡ length services.now }
    ensures bound { IfOk result (λ set. length set ≡ length services.now) }
    ensures members { IfOk result (λ set.
        Holds set (λ s. (m : Meaning) × Contains (map meaning_of definitions.now) m
        × IsMatchedAt services.now (rows feeds.now) m s)) }
{
    let mut matched = Set::empty(alloc, services.len())?;
    for definition in definitions {
        insert_matched(&mut matched, services, feeds, definition);
    }
    Ok(matched)
}

// Adds the services that a definition reads from and that write to it.
fn insert_matched(set: &mut Set, names: &Names, feeds: &[Vec<u16>], definition: &Definition)
    requires bound { length set.old ≡ length names.now }
    requires feeds { length feeds.now ≡ length names.now }
    ensures bound { length set.new ≡ length set.old }
    ensures members { Holds set.new (λ s.
        Has set.old s ⊎ IsMatchedAt names.now (rows feeds.now) (meaning_of definition.now) s) }
{
    insert_paired(
        set,
        names,
        feeds,
        &definition.consumer_for,
        &definition.name,
    );
}

// Adds those of some names that are paired with another.
fn insert_paired(set: &mut Set, names: &Names, lists: &[Vec<u16>], from: &[Name], to: &Name)
    requires bound { length set.old ≡ length names.now }
    requires lists { length lists.now ≡ length names.now }
    ensures bound { length set.new ≡ length set.old }
    ensures members { Holds set.new (λ s.
        Has set.old s ⊎ ArePairedAt names.now (rows lists.now) from.now to.now s) }
{
    for name in from {
        insert_if_paired(set, names, lists, name, to);
    }
}

// Adds a name if it is paired with another.
fn insert_if_paired(set: &mut Set, names: &Names, lists: &[Vec<u16>], from: &Name, to: &Name)
    requires bound { length set.old ≡ length names.now }
    requires lists { length lists.now ≡ length names.now }
    ensures bound { length set.new ≡ length set.old }
    ensures members { Holds set.new (λ s.
        Has set.old s ⊎ ((slice_get names.now s ≡ Some from.now)
        × HasPair names.now (rows lists.now) from.now to.now)) }
{
    if has_pair(names, lists, from, to) {
        insert_named(set, names, from.text());
    }
}

// Returns true if the pipeline that ends at a definition has the name of a service, or a shared
// name.
pub(crate) fn has_taken_name(
    services: &Names,
    bundles: &Names,
    shared: &Set,
    definition: &Definition,
) -> bool
    requires { length shared.now ≡ length bundles.now }
    ensures { IsTrue result ↔ IsTaken services.now bundles.now shared.now
        (meaning_of definition.now) }
{
    match pipeline_name(definition) {
        Some(name) => is_taken(services, bundles, shared, name.text()),
        None => false,
    }
}

// Returns true if a name is that of a service or is shared.
fn is_taken(services: &Names, bundles: &Names, shared: &Set, text: &str) -> bool
    requires { length shared.now ≡ length bundles.now }
    ensures { IsTrue result ↔ (Contains services.now text.now
        ⊎ HasNamed bundles.now shared.now text.now) }
{
    has_name(services, text) || has_named(bundles, shared, text)
}

// Returns the bundles whose name two definitions give.
pub(crate) fn shared_of(
    alloc: Global,
    definitions: &[Definition],
    bundles: &Names,
) -> Result<Set, NoMem>
    requires { (name : List ℕ) → IsBundle (map meaning_of definitions.now) name →
        Contains bundles.now name }
    ensures bound { IfOk result (λ set. length set ≡ length bundles.now) }
    ensures members { IfOk result (λ set.
        (name : List ℕ) → HasNamed bundles.now set name
        ↔ IsShared (map meaning_of definitions.now) name) }
{
    let mut seen = Set::empty(alloc, bundles.len())?;
    let mut shared = Set::empty(alloc, bundles.len())?;
    for definition in definitions {
        mark(bundles, &mut seen, &mut shared, definition);
    }
    Ok(shared)
}

// Adds the bundle whose name a definition gives to those seen. If it is there already, adds it to
// those shared.
fn mark(bundles: &Names, seen: &mut Set, shared: &mut Set, definition: &Definition)
    requires seen { length seen.old ≡ length bundles.now }
    requires shared { length shared.old ≡ length bundles.now }
    ensures bound_seen { length seen.new ≡ length seen.old }
    ensures bound_shared { length shared.new ≡ length shared.old }
    ensures seen { Holds seen.new (λ s.
        Has seen.old s ⊎ GivesAt bundles.now (meaning_of definition.now) s) }
    ensures shared { Holds shared.new (λ s.
        Has shared.old s ⊎ (Has seen.old s × GivesAt bundles.now (meaning_of definition.now) s)) }
{
    let _count = bundles.len();
    if let Some(name) = given(definition, Which::Bundles) {
        if let Some(id) = bundles.find(name.text()) {
            mark_id(seen, shared, id);
        }
    }
}

// Adds an id to those seen. If it is there already, adds it to those shared.
fn mark_id(seen: &mut Set, shared: &mut Set, id: u16)
    requires seen { id < length seen.old }
    requires shared { id < length shared.old }
    ensures bound_seen { length seen.new ≡ length seen.old }
    ensures bound_shared { length shared.new ≡ length shared.old }
    ensures seen { Holds seen.new (λ s. Has seen.old s ⊎ (s ≡ id)) }
    ensures shared { Holds shared.new (λ s. Has shared.old s ⊎ (Has seen.old s × (s ≡ id))) }
{
    if !seen.insert(id) {
        shared.insert(id);
    }
}
