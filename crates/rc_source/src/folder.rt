// What the names in a folder of names say.
ghost use Rattle.std.specs.Prelude.{◌≡◌, ◌≢◌, ◌⊎◌, ◌↔◌, ℕ, List, false, All, Contains, IfOk};
ghost use Rattle.std.specs.Prelude.{IfErr, OnOk, Some, map, string_bytes};
ghost use Rattle.rc_model.specs.Names.{IsName, IsInByteOrder};
ghost use Rattle.rc_source.specs.Tree.{Source, names_next};
ghost use Rattle.rc_source.specs.Asked.{IsAsked};
ghost use Rattle.rc_source.specs.Kinds.{NameEach, is_hidden};
ghost use Rattle.rc_source.specs.Files.{FilePasses, StopsAtFile};

use crate::fault::Flaw;
use crate::tree::{Tree, TreeFault};
use crate::{sets, text};
use rc_names::{Name, NoMem};
use std::alloc::Global;
use std::collections::BTreeSet;

// Returns true if a name begins with a dot.
fn is_hidden(name: &str) -> bool
    ensures { result ≡ is_hidden name.now }
{
    matches!(name.as_bytes().first(), Some(b'.'))
}

// Returns the names that are not hidden, each once, in byte order.
pub(crate) fn visible(alloc: Global, names: &[String]) -> Result<Vec<String>, NoMem>
    ensures order { IfOk result (λ seen. IsInByteOrder (map string_bytes seen.items)) }
    ensures names { IfOk result (λ seen.
        (name : List ℕ) → Contains (map string_bytes seen.items) name
        ↔ (Contains (map string_bytes names.now) name × (is_hidden name ≡ false))) }
{
    let mut seen = BTreeSet::new(alloc);
    for name in names {
        add_visible(alloc, &mut seen, name.as_str())?;
    }
    sets::texts(alloc, &seen)
}

// Adds a name, unless it is hidden.
fn add_visible(alloc: Global, seen: &mut BTreeSet<String>, name: &str) -> Result<(), NoMem>
    ensures { OnOk result ((text : List ℕ) → Contains (map string_bytes seen.new.keys) text
        ↔ (Contains (map string_bytes seen.old.keys) text
        ⊎ ((text ≡ name.now) × (is_hidden name.now ≡ false)))) }
{
    if !is_hidden(name) {
        sets::add(alloc, seen, name)?;
    }
    Ok(())
}

// Reads texts as names.
fn names_from(alloc: Global, texts: &[String]) -> Result<Vec<Name>, Flaw>
    ensures names { IfOk result (λ names. names.items ≡ map string_bytes texts.now) }
    ensures each { IfOk result (λ names. All IsName names.items) }
    ensures fault { IfErr result (λ flaw. flaw ≢ Flaw.Memory → (flaw ≡ Flaw.BadName)
        × ((each : List ℕ) × Contains (map string_bytes texts.now) each × (IsName each → ⊥))) }
{
    let mut names = Vec::new(alloc);
    for text in texts {
        names.push(text::name_in(alloc, text.as_bytes())?)?;
    }
    Ok(names)
}

// Reads the texts that are not hidden as names. Returns each once, in byte order.
fn visible_names(alloc: Global, names: &[String]) -> Result<Vec<Name>, Flaw>
    ensures names { IfOk result (λ seen. (name : List ℕ) → Contains seen.items name
        ↔ (Contains (map string_bytes names.now) name × (is_hidden name ≡ false))) }
    ensures each { IfOk result (λ seen. All IsName seen.items) }
    ensures fault { IfErr result (λ flaw. flaw ≢ Flaw.Memory → (flaw ≡ Flaw.BadName)
        × ((each : List ℕ) × Contains (map string_bytes names.now) each × (is_hidden each ≡ false)
        × (IsName each → ⊥))) }
{
    let seen = visible(alloc, names)?;
    names_from(alloc, &seen)
}

// Reads the names in a folder, in byte order, or returns none if the folder is missing.
fn folder_names_at<T: Tree>(
    alloc: Global,
    tree: &mut T,
    entry: &str,
    folder: &str,
) -> Result<Vec<Name>, Flaw>
    ensures names { IfOk result (λ names.
        (source : Source) → T.held tree.old ≡ Some source → (name : List ℕ)
        → Contains names.items name ↔ (Contains (names_next source entry.now folder.now) name
        × (is_hidden name ≡ false))) }
    ensures passes { OnOk result ((source : Source) → T.held tree.old ≡ Some source →
        FilePasses source entry.now (folder.now, NameEach)) }
    ensures fault { IfErr result (λ flaw.
        flaw ≢ Flaw.Memory → (source : Source) → T.held tree.old ≡ Some source →
        StopsAtFile source entry.now (folder.now, NameEach) flaw) }
    ensures asked { IsAsked result (T.held tree.old) (T.held tree.new)
        (T.failed tree.old) (T.failed tree.new) }
{
    match tree.listing(alloc, entry, folder) {
        Ok(Some(names)) => visible_names(alloc, &names),
        Ok(None) => Ok(Vec::new(alloc)),
        Err(TreeFault::Io) => Err(Flaw::Io),
        Err(_) => Err(Flaw::Memory),
    }
}

// Adds the names in a folder.
pub(crate) fn add_folder_at<T: Tree>(
    alloc: Global,
    tree: &mut T,
    entry: &str,
    folder: &str,
    set: &mut BTreeSet<String>,
) -> Result<(), Flaw>
    ensures names { OnOk result ((source : Source) → T.held tree.old ≡ Some source → (name : List ℕ)
        → Contains (map string_bytes set.new.keys) name
        ↔ (Contains (map string_bytes set.old.keys) name
        ⊎ (Contains (names_next source entry.now folder.now) name × (is_hidden name ≡ false)))) }
    ensures passes { OnOk result ((source : Source) → T.held tree.old ≡ Some source →
        FilePasses source entry.now (folder.now, NameEach)) }
    ensures fault { IfErr result (λ flaw.
        flaw ≢ Flaw.Memory → (source : Source) → T.held tree.old ≡ Some source →
        StopsAtFile source entry.now (folder.now, NameEach) flaw) }
    ensures asked { IsAsked result (T.held tree.old) (T.held tree.new)
        (T.failed tree.old) (T.failed tree.new) }
{
    let names = folder_names_at(alloc, tree, entry, folder)?;
    sets::add_names(alloc, set, &names)?;
    Ok(())
}
