// The reading of whole trees.
ghost use Rattle.std.specs.Prelude.{◌≡◌, ◌≢◌, ◌≤◌, ◌++◌, ◌∷◌, [], Contains, List, IfOk, IfErr};
ghost use Rattle.std.specs.Prelude.{OnOk, Some, map, string_bytes};
ghost use Rattle.std.specs.List.{AllZip};
ghost use Rattle.rc_source.specs.declared.fault.Flaw.{Flaw};
ghost use Rattle.rc_source.specs.Tree.{Source};
ghost use Rattle.rc_source.specs.TreeFaults.{HasFailed};
ghost use Rattle.rc_source.specs.Asked.{IsAsked};
ghost use Rattle.rc_model.specs.Names.{IsName};
ghost use Rattle.rc_source.specs.Tests.{all_tests, tests_of_source, tests_of_entry, entries_of};
ghost use Rattle.rc_source.specs.Tests.{AllPass, StopsInTests, IsNoNewName, SomeFailed, flaw_of};
ghost use Rattle.rc_source.specs.Tests.{name_carried};
ghost use Rattle.rc_source.specs.Meaning.{Meaning, Means, MeanAll, AreMeanings, all_entries};
ghost use Rattle.rc_source.specs.Said.{meaning_of, meant};

use crate::definition::Definition;
use crate::fault::{Flaw, SourceFault};
use crate::found::Found;
use crate::tree::{Tree, TreeFault};
use crate::{entry, folder, text};
use rc_names::Name;
use std::alloc::Global;

/// Reads the definitions of trees. They are in the order of the trees, and within a tree in byte
/// order of their names. Fails with the first fault in the order of the tests.
pub fn read_all<T: Tree>(alloc: Global, trees: &mut [T]) -> Result<Vec<Definition>, SourceFault>
    ensures definitions { IfOk result (λ definitions.
        AreMeanings (map meaning_of definitions.items)) }
    ensures meanings { IfOk result (λ definitions.
        (sources : List Source) → map T.held trees.old ≡ map Some sources
        → MeanAll (all_entries sources) (map meaning_of definitions.items)) }
    ensures sound { OnOk result ((sources : List Source) → map T.held trees.old ≡ map Some sources →
        AllPass (all_tests [] sources)) }
    ensures fault { IfErr result (λ fault.
        flaw_of fault ≢ Flaw.Memory → (sources : List Source) →
        map T.held trees.old ≡ map Some sources
        → StopsInTests (all_tests [] sources) (flaw_of fault) (name_carried fault)) }
    ensures io { IfErr result (λ fault.
        flaw_of fault ≡ Flaw.Io → SomeFailed (map T.failed trees.old) (map T.failed trees.new)) }
    ensures same { map T.held trees.new ≡ map T.held trees.old }
    ensures quiet { OnOk result (map T.failed trees.new ≡ map T.failed trees.old) }
{
    let mut found = Found::new(alloc);
    for tree in trees.iter_mut() {
        read_source(alloc, tree, &mut found)?;
    }
    Ok(found.into_definitions())
}

// Reads the entries of a tree, and appends their definitions to those found before.
fn read_source<T: Tree>(alloc: Global, tree: &mut T, found: &mut Found) -> Result<(), SourceFault>
    ensures meanings { OnOk result ((source : Source) → T.held tree.old ≡ Some source
        → (ms : List Meaning) × (found.new ≡ found.old ++ ms)
        × AllZip (Means source) (entries_of source) ms) }
    ensures passes { OnOk result ((source : Source) → T.held tree.old ≡ Some source →
        AllPass (tests_of_source (meant found.old) source)) }
    ensures fault { IfErr result (λ fault.
        flaw_of fault ≢ Flaw.Memory → (source : Source) → T.held tree.old ≡ Some source
        → StopsInTests (tests_of_source (meant found.old) source) (flaw_of fault)
        (name_carried fault)) }
    ensures io { IfErr result (λ fault.
        flaw_of fault ≡ Flaw.Io → HasFailed (T.failed tree.old) (T.failed tree.new)) }
    ensures same { T.held tree.new ≡ T.held tree.old }
    ensures count { T.failed tree.old ≤ T.failed tree.new }
    ensures quiet { OnOk result (T.failed tree.new ≡ T.failed tree.old) }
{
    let names = entries_at(alloc, tree)?;
    for name in &names {
        let entry = name.as_str();
        match read_entry(alloc, tree, entry, found) {
            Ok(()) => {}
            Err(flaw) => return Err(fault_of(alloc, flaw, entry)),
        }
    }
    Ok(())
}

// Reads the names of the entries of a tree, in the order in which they are read.
fn entries_at<T: Tree>(alloc: Global, tree: &mut T) -> Result<Vec<String>, SourceFault>
    ensures names { IfOk result (λ names.
        (source : Source) → T.held tree.old ≡ Some source →
        map string_bytes names.items ≡ entries_of source) }
    ensures fault { IfErr result (λ fault.
        flaw_of fault ≢ Flaw.Memory → (flaw_of fault ≡ Flaw.Io) × (name_carried fault ≡ [])) }
    ensures io { IfErr result (λ fault.
        flaw_of fault ≡ Flaw.Io → HasFailed (T.failed tree.old) (T.failed tree.new)) }
    ensures same { T.held tree.new ≡ T.held tree.old }
    ensures count { T.failed tree.old ≤ T.failed tree.new }
    ensures quiet { OnOk result (T.failed tree.new ≡ T.failed tree.old) }
{
    let names = match tree.entries(alloc) {
        Ok(names) => names,
        Err(TreeFault::Io) => return Err(SourceFault::Io(String::new(alloc))),
        Err(_) => return Err(SourceFault::Memory),
    };
    Ok(folder::visible(alloc, &names)?)
}

// Reads an entry of a tree, and appends its definition to those found before.
fn read_entry<T: Tree>(
    alloc: Global,
    tree: &mut T,
    entry: &str,
    found: &mut Found,
) -> Result<(), Flaw>
    ensures meaning { OnOk result ((source : Source) → T.held tree.old ≡ Some source
        → (m : Meaning) × (found.new ≡ found.old ++ m ∷ []) × Means source entry.now m) }
    ensures passes { OnOk result ((source : Source) → T.held tree.old ≡ Some source →
        AllPass (tests_of_entry (meant found.old) source entry.now)) }
    ensures fault { IfErr result (λ flaw.
        flaw ≢ Flaw.Memory → (source : Source) → T.held tree.old ≡ Some source
        → StopsInTests (tests_of_entry (meant found.old) source entry.now) flaw entry.now) }
    ensures asked { IsAsked result (T.held tree.old) (T.held tree.new)
        (T.failed tree.old) (T.failed tree.new) }
{
    let name = new_name(alloc, entry, found)?;
    let definition = entry::definition_at(alloc, tree, name)?;
    found.add(definition)?;
    Ok(())
}

// Reads the name of an entry. Fails if it is not a name, or if a definition has it already.
fn new_name(alloc: Global, entry: &str, found: &Found) -> Result<Name, Flaw>
    ensures name { IfOk result (λ name. (name ≡ entry.now) × IsName entry.now) }
    ensures free { OnOk result (Contains (meant found.now) entry.now → ⊥) }
    ensures fault { IfErr result (λ flaw.
        flaw ≢ Flaw.Memory → IsNoNewName (meant found.now) entry.now flaw) }
{
    let name = text::name_in(alloc, entry.as_bytes())?;
    if found.has(entry) {
        drop(name);
        return Err(Flaw::Twice);
    }
    Ok(name)
}

// Returns the fault of an entry that has a flaw.
fn fault_of(alloc: Global, flaw: Flaw, entry: &str) -> SourceFault
    ensures { flaw_of result ≢ Flaw.Memory →
        (flaw_of result ≡ flaw) × (name_carried result ≡ entry.now) }
{
    let Ok(name) = String::from_str(alloc, entry) else {
        return SourceFault::Memory;
    };
    match flaw {
        Flaw::Io => SourceFault::Io(name),
        Flaw::NotText => SourceFault::NotText(name),
        Flaw::TooLong => SourceFault::TooLong(name),
        Flaw::BadName => SourceFault::BadName(name),
        Flaw::Twice => SourceFault::Twice(name),
        Flaw::NoType => SourceFault::NoType(name),
        Flaw::BadType => SourceFault::BadType(name),
        Flaw::NoUp => SourceFault::NoUp(name),
        Flaw::NoRun => SourceFault::NoRun(name),
        Flaw::BadTimeout => SourceFault::BadTimeout(name),
        Flaw::Memory => SourceFault::Memory,
    }
}
