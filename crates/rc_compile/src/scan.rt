// What each entry is tested for, one by one. The least entry that fails a test is reported.
ghost use Rattle.std.specs.Prelude.{◌≡◌, ◌↔◌, ◌⊎◌, ℕ, List, map, Contains, IsTrue, IfOk, IfErr};
ghost use Rattle.std.specs.Prelude.{IfSome, IfNone, OnOk};
ghost use Rattle.rc_source.specs.Meaning.{AreMeanings};
ghost use Rattle.rc_source.specs.Said.{meaning_of};
ghost use Rattle.rc_compile.specs.Along.{IsLeast};
ghost use Rattle.rc_compile.specs.Book.{IsBook, HasSought, IsSought};
ghost use Rattle.rc_compile.specs.CompileFaults.{AreFreeBefore, HasSomeUnknown, HasUnknown};
ghost use Rattle.rc_compile.specs.CompileFaults.{HaveFlaw, IsCompileFault, OfEntry, Unknown};

use crate::CompileFault;
use crate::book::Book;
use crate::flaws::{EntryFlaw, has_flaw};
use crate::least::least;
use crate::unknown::unknown_in;
use rc_names::Name;
use rc_set::NoMem;
use rc_source::Definition;
use std::alloc::Global;

// What is looked for: a name that stands for nothing, or a flaw.
#[derive(Clone, Copy)]
pub(crate) enum Sought {
    Unknown,
    Flawed(EntryFlaw),
}

// Tests that each name of each entry stands for something.
#[tactic(auto, unfolding(crate::specs::CompileFaults::IsCompileFault))]
pub(crate) fn test_unknown(
    alloc: Global,
    definitions: &[Definition],
    book: &Book,
) -> Result<(), CompileFault>
    requires meanings { AreMeanings (map meaning_of definitions.now) }
    requires book { IsBook (map meaning_of definitions.now) book.now }
    requires before { AreFreeBefore (map meaning_of definitions.now) Unknown }
    ensures none { OnOk result (HaveFlaw (map meaning_of definitions.now) Unknown → ⊥) }
    ensures fault { IfErr result (IsCompileFault (map meaning_of definitions.now)) }
{
    let Some(entry) = least_sought(alloc, definitions, book, Sought::Unknown)? else {
        return Ok(());
    };
    let name = least_unknown(alloc, definitions, book, &entry)?;
    Err(CompileFault::UnknownIn(entry, name))
}

// Tests that no entry has a flaw.
#[tactic(auto, unfolding(crate::specs::CompileFaults::IsCompileFault))]
pub(crate) fn test_entries(
    alloc: Global,
    definitions: &[Definition],
    book: &Book,
    flaw: EntryFlaw,
) -> Result<(), CompileFault>
    requires meanings { AreMeanings (map meaning_of definitions.now) }
    requires book { IsBook (map meaning_of definitions.now) book.now }
    requires before { AreFreeBefore (map meaning_of definitions.now) (OfEntry flaw) }
    ensures none { OnOk result (HaveFlaw (map meaning_of definitions.now) (OfEntry flaw) → ⊥) }
    ensures fault { IfErr result (IsCompileFault (map meaning_of definitions.now)) }
{
    match least_sought(alloc, definitions, book, Sought::Flawed(flaw))? {
        Some(entry) => Err(flaw.of(entry)),
        None => Ok(()),
    }
}

// Returns the least entry that has what is sought, if there is one.
fn least_sought(
    alloc: Global,
    definitions: &[Definition],
    book: &Book,
    sought: Sought,
) -> Result<Option<Name>, NoMem>
    requires meanings { AreMeanings (map meaning_of definitions.now) }
    requires book { IsBook (map meaning_of definitions.now) book.now }
    ensures some { IfOk result (λ found. IfSome found
        (IsLeast (IsSought (map meaning_of definitions.now) sought))) }
    ensures none { IfOk result (λ found. IfNone found
        ((s : List ℕ) → IsSought (map meaning_of definitions.now) sought s → ⊥)) }
{
    let names = with_sought(alloc, definitions, book, sought)?;
    least(alloc, &names)
}

// Returns the entries that have what is sought.
fn with_sought(
    alloc: Global,
    definitions: &[Definition],
    book: &Book,
    sought: Sought,
) -> Result<Vec<Name>, NoMem>
    requires meanings { AreMeanings (map meaning_of definitions.now) }
    requires book { IsBook (map meaning_of definitions.now) book.now }
    ensures { IfOk result (λ names. (s : List ℕ) → Contains names.items s
        ↔ IsSought (map meaning_of definitions.now) sought s) }
{
    let mut names = Vec::new(alloc);
    for definition in definitions {
        add_sought(alloc, &mut names, definitions, book, definition, sought)?;
    }
    Ok(names)
}

// Adds the name of an entry if it has what is sought.
fn add_sought(
    alloc: Global,
    names: &mut Vec<Name>,
    definitions: &[Definition],
    book: &Book,
    definition: &Definition,
    sought: Sought,
) -> Result<(), NoMem>
    requires meanings { AreMeanings (map meaning_of definitions.now) }
    requires book { IsBook (map meaning_of definitions.now) book.now }
    requires within { Contains (map meaning_of definitions.now) (meaning_of definition.now) }
    ensures { OnOk result ((s : List ℕ) → Contains names.new.items s
        ↔ (Contains names.old.items s ⊎ ((definition.now.name ≡ s)
        × HasSought (map meaning_of definitions.now) sought definition.now.name))) }
{
    if has_sought(alloc, definitions, book, definition, sought)? {
        names.push(definition.name.copy(alloc)?)?;
    }
    Ok(())
}

// Returns true if an entry has what is sought.
fn has_sought(
    alloc: Global,
    definitions: &[Definition],
    book: &Book,
    definition: &Definition,
    sought: Sought,
) -> Result<bool, NoMem>
    requires meanings { AreMeanings (map meaning_of definitions.now) }
    requires book { IsBook (map meaning_of definitions.now) book.now }
    requires within { Contains (map meaning_of definitions.now) (meaning_of definition.now) }
    ensures { IfOk result (λ has. IsTrue has
        ↔ HasSought (map meaning_of definitions.now) sought definition.now.name) }
{
    match sought {
        Sought::Unknown => has_unknown(alloc, definitions, book, definition),
        Sought::Flawed(flaw) => Ok(has_flaw(definitions, book, definition, flaw)),
    }
}

// Returns true if an entry has a name that stands for nothing.
fn has_unknown(
    alloc: Global,
    definitions: &[Definition],
    book: &Book,
    definition: &Definition,
) -> Result<bool, NoMem>
    requires meanings { AreMeanings (map meaning_of definitions.now) }
    requires book { IsBook (map meaning_of definitions.now) book.now }
    requires within { Contains (map meaning_of definitions.now) (meaning_of definition.now) }
    ensures { IfOk result (λ has. IsTrue has
        ↔ HasSomeUnknown (map meaning_of definitions.now) definition.now.name) }
{
    let unknown = unknown_in(alloc, &book.services, &book.bundles, definition)?;
    Ok(!unknown.is_empty())
}

// Returns the least name that stands for nothing in an entry that has one.
fn least_unknown(
    alloc: Global,
    definitions: &[Definition],
    book: &Book,
    entry: &Name,
) -> Result<Name, NoMem>
    requires book { IsBook (map meaning_of definitions.now) book.now }
    requires meanings { AreMeanings (map meaning_of definitions.now) }
    requires flaw { HasSomeUnknown (map meaning_of definitions.now) entry.now }
    ensures { IfOk result (IsLeast (HasUnknown (map meaning_of definitions.now) entry.now)) }
{
    for definition in definitions {
        if definition.name.text() == entry.text() {
            let unknown = unknown_in(alloc, &book.services, &book.bundles, definition)?;
            if let Some(name) = least(alloc, &unknown)? {
                return Ok(name);
            }
        }
    }
    unreachable!()
}
