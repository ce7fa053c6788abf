//! The journal: where a line stands, and its entries.
ghost use Rattle.std.specs.Prelude.{◌≡◌, ◌<◌, ◌≤◌, ◌+◌, ◌^◌, ◌∷◌, ◌++◌, ◌↔◌, ℕ, Bool, true};
ghost use Rattle.std.specs.Prelude.{false, List, if◌then◌else◌, length, All, Contains, IfOk, OnOk};
ghost use Rattle.std.specs.Fmt.{decimal};
ghost use Rattle.std.specs.List.{flat_map, join_with_byte};
ghost use Rattle.std.specs.Option.{option_copied};
ghost use Rattle.rc_model.specs.Names.{Holds};
ghost use Rattle.rc_model.specs.Line.{State, states};
ghost use Rattle.rc_model.specs.Session.{IsLineOf};
ghost use Rattle.rc_render.specs.JournalText.{AreMoves, IsEntryBelow, IsEntryLine, IsJournalText};
ghost use Rattle.rc_render.specs.JournalText.{AreEntryLines, alteration_text, place_text, sign};
ghost use Rattle.rc_render.specs.JournalText.{signs, value_text};
ghost use Rattle.rc_render.specs.Names.{names_in};

use rc_bundle::Edit;
use rc_db::Db;
use rc_line::{Entry, Line};
use rc_names::{Name, Names};
use rc_set::{NoMem, Set};
use std::alloc::Global;

/// Returns the journal of a line as text.
///
/// Takes time that grows with the number of entries, and for each entry with its length and the
/// number of services. Makes no state.
pub fn journal_text(alloc: Global, db: &Db, line: &Line) -> Result<Vec<u8>, NoMem>
    requires closed { line.now.is_open ≡ false }
    requires line { IsLineOf db.now line.now.line }
    ensures { IfOk result (λ text. IsJournalText db.now.names line.now.line text.items) }
{
    let mut text = place_text(alloc, line.cursor(), line.states())?;
    add_entries(&mut text, alloc, db, line, 0)?;
    Ok(text)
}

/// Appends the entries of a line to a text, one line each, numbered from `first` on. The numbers of
/// all its states have 64 bits.
pub fn add_entries(
    text: &mut Vec<u8>,
    alloc: Global,
    db: &Db,
    line: &Line,
    first: usize,
) -> Result<(), NoMem>
    requires closed { line.now.is_open ≡ false }
    requires line { IsLineOf db.now line.now.line }
    requires room { first + length (states line.now.line) < 2 ^ 64 }
    ensures { OnOk result ((entries : List ℕ)
        × AreEntryLines db.now.names first (states line.now.line) entries
        × (text.new.items ≡ text.old.items ++ entries)) }
{
    for place in 0..line.states() - 1 {
        let entry = entry_line(alloc, db.names(), first + place, line.entry(place))?;
        text.extend_from_slice(&entry)?;
    }
    Ok(())
}

/// Returns the line that gives the number of the current state and how many states there are.
pub fn place_text(alloc: Global, at: usize, count: usize) -> Result<Vec<u8>, NoMem>
    ensures { IfOk result (λ text. text.items ≡ place_text at count) }
{
    Ok(format!(in alloc; "at {at} of {count}\n")?.into_bytes())
}

/// Returns the line of the entry at a place.
fn entry_line(alloc: Global, names: &Names, place: usize, entry: &Entry) -> Result<Vec<u8>, NoMem>
    requires { (from : State) × (to : State) × IsEntryBelow (length names.now) from to entry.now }
    ensures { (from to : State) → IsEntryBelow (length names.now) from to entry.now →
        IfOk result (λ text. IsEntryLine names.now place from to text.items) }
{
    let up = set_of(alloc, names.len(), entry.raised())?;
    let down = set_of(alloc, names.len(), entry.lowered())?;
    let mut text = number_text(alloc, place)?;
    add_signs(&mut text, names, &up, &down)?;
    add_edit(&mut text, names, entry.edit())?;
    text.push(b'\n')?;
    Ok(text)
}

/// Returns a number as text.
fn number_text(alloc: Global, number: usize) -> Result<Vec<u8>, NoMem>
    ensures { IfOk result (λ text. text.items ≡ decimal number) }
{
    Ok(format!(in alloc; "{number}")?.into_bytes())
}

/// Creates the set of the given ids.
fn set_of(alloc: Global, bound: u16, ids: &[u16]) -> Result<Set, NoMem>
    requires bound { bound ≤ 4096 }
    requires ids { All (λ id. id < bound) ids.now }
    ensures bound { IfOk result (λ set. length set ≡ bound) }
    ensures members { IfOk result (λ set. Holds set (Contains ids.now)) }
{
    let mut set = Set::empty(alloc, bound)?;
    for id in ids {
        set.insert(*id);
    }
    Ok(set)
}

/// Appends the services that came up or went down to a text.
fn add_signs(text: &mut Vec<u8>, names: &Names, up: &Set, down: &Set) -> Result<(), NoMem>
    requires up { length up.now ≡ length names.now }
    requires down { length down.now ≡ length names.now }
    ensures { (from to : List Bool) → AreMoves from to up.now down.now →
        OnOk result (text.new.items ≡ text.old.items ++ signs names.now from to) }
{
    for id in 0..names.len() {
        add_sign(text, names.name_of(id), up.contains(id), down.contains(id))?;
    }
    Ok(())
}

/// Appends a service to a text, if it came up or went down.
fn add_sign(text: &mut Vec<u8>, name: &Name, is_up: bool, is_down: bool) -> Result<(), NoMem>
    ensures { (a b : Bool) → (is_up ≡ true ↔ ((b ≡ true) × (a ≡ true → ⊥))) →
        (is_down ≡ true ↔ ((a ≡ true) × (b ≡ true → ⊥)))
        → OnOk result (text.new.items ≡ text.old.items ++ sign name.now a b) }
{
    if is_up {
        text.extend_from_slice(b" +")?;
        text.extend_from_slice(name.text().as_bytes())?;
    } else if is_down {
        text.extend_from_slice(b" -")?;
        text.extend_from_slice(name.text().as_bytes())?;
    }
    Ok(())
}

/// Appends the altered bundles to a text.
fn add_edit(text: &mut Vec<u8>, names: &Names, edit: &Edit) -> Result<(), NoMem>
    ensures { OnOk result (text.new.items ≡ text.old.items
        ++ flat_map (alteration_text names.now) edit.now) }
{
    for place in 0..edit.len() {
        let (name, before, after) = edit.at(place);
        add_alteration(text, names, name, before, after)?;
    }
    Ok(())
}

/// Appends an altered bundle to a text, with its values before and after.
fn add_alteration(
    text: &mut Vec<u8>,
    names: &Names,
    name: &Name,
    before: Option<&Set>,
    after: Option<&Set>,
) -> Result<(), NoMem>
    ensures { OnOk result (text.new.items ≡ text.old.items
        ++ alteration_text names.now (record {
          name = name.now;
          before = option_copied before.entry;
          after = option_copied after.entry;
        })) }
{
    text.push(b' ')?;
    text.extend_from_slice(name.text().as_bytes())?;
    text.push(b':')?;
    add_value(text, names, before)?;
    text.push(b'>')?;
    add_value(text, names, after)
}

/// Appends the value of a bundle to a text.
fn add_value(text: &mut Vec<u8>, names: &Names, set: Option<&Set>) -> Result<(), NoMem>
    ensures { OnOk result (text.new.items ≡ text.old.items
        ++ value_text names.now (option_copied set.entry)) }
{
    match set {
        None => text.extend_from_slice(b"none"),
        Some(set) => {
            text.push(b'[')?;
            add_members(text, names, set)?;
            text.push(b']')?;
            Ok(())
        }
    }
}

/// Appends the names of a set to a text, with a comma between them.
fn add_members(text: &mut Vec<u8>, names: &Names, set: &Set) -> Result<(), NoMem>
    ensures { OnOk result (text.new.items ≡ text.old.items
        ++ join_with_byte 44 (names_in names.now set.now)) }
{
    let mut is_first = true;
    for id in 0..names.len().min(set.bound()) {
        if set.contains(id) {
            add_member(text, names.name_of(id), is_first)?;
            is_first = false;
        }
    }
    Ok(())
}

/// Appends a name to a text, and a comma before it where it is not the first.
fn add_member(text: &mut Vec<u8>, name: &Name, is_first: bool) -> Result<(), NoMem>
    ensures { OnOk result (text.new.items ≡ text.old.items
        ++ (if is_first then name.now else 44 ∷ name.now)) }
{
    if !is_first {
        text.push(b',')?;
    }
    text.extend_from_slice(name.text().as_bytes())
}
