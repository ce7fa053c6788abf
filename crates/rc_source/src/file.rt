// What single files of an entry say: each function reads one.
ghost use Rattle.std.specs.Prelude.{◌≡◌, ◌≢◌, ◌⊎◌, ◌↔◌, ◌<◌, ℕ, List, IfOk, IfErr};
ghost use Rattle.std.specs.Prelude.{IfSome, OnOk, Some, None, false, map, option_map};
ghost use Rattle.std.specs.Prelude.{string_bytes, Contains, codes, slice_get};
ghost use Rattle.std.specs.Option.{is_some};
ghost use Rattle.rc_model.specs.Names.{IsName};
ghost use Rattle.rc_source.specs.Tree.{Source, file_at};
ghost use Rattle.rc_source.specs.Asked.{IsAsked};
ghost use Rattle.rc_source.specs.Texts.{IsScriptText};
ghost use Rattle.rc_source.specs.Kinds.{KindWord, UpText, DownText, Anything, Limit, Flag, Names};
ghost use Rattle.rc_source.specs.Kinds.{OneName, kind_of};
ghost use Rattle.rc_source.specs.Files.{IsNoText, FilePasses, StopsAtFile};
ghost use Rattle.rc_source.specs.Meaning.{limit_in, given_in};

use crate::fault::Flaw;
use crate::tree::{Tree, TreeFault};
use crate::{sets, text};
use rc_names::{Kind, Name};
use std::alloc::Global;
use std::collections::BTreeSet;

// Reads the text of a file, if the file is there.
fn text_at<T: Tree>(
    alloc: Global,
    tree: &mut T,
    entry: &str,
    file: &str,
) -> Result<Option<String>, Flaw>
    ensures text { IfOk result (λ text.
        (source : Source) → T.held tree.old ≡ Some source →
        file_at source entry.now file.now ≡ option_map string_bytes text) }
    ensures script { IfOk result (λ text. IfSome text (λ text. IsScriptText (string_bytes text))) }
    ensures fault { IfErr result (λ flaw.
        flaw ≢ Flaw.Memory → (source : Source) → T.held tree.old ≡ Some source
        → (flaw ≡ Flaw.Io) ⊎ ((bytes : List ℕ) × (file_at source entry.now file.now ≡ Some bytes)
        × IsNoText bytes flaw)) }
    ensures asked { IsAsked result (T.held tree.old) (T.held tree.new)
        (T.failed tree.old) (T.failed tree.new) }
{
    match tree.bytes(alloc, entry, file) {
        Ok(Some(bytes)) => Ok(Some(text::text_of(bytes)?)),
        Ok(None) => Ok(None),
        Err(TreeFault::Io) => Err(Flaw::Io),
        Err(TreeFault::TooLong) => Err(Flaw::TooLong),
        Err(TreeFault::Memory) => Err(Flaw::Memory),
    }
}

// Reads the kind that the file `type` gives.
pub(crate) fn kind_at<T: Tree>(alloc: Global, tree: &mut T, entry: &str) -> Result<Kind, Flaw>
    ensures kind { IfOk result (λ kind.
        (source : Source) → T.held tree.old ≡ Some source → kind_of source entry.now ≡ Some kind) }
    ensures passes { OnOk result ((source : Source) → T.held tree.old ≡ Some source →
        FilePasses source entry.now (codes "type", KindWord)) }
    ensures fault { IfErr result (λ flaw.
        flaw ≢ Flaw.Memory → (source : Source) → T.held tree.old ≡ Some source →
        StopsAtFile source entry.now (codes "type", KindWord) flaw) }
    ensures asked { IsAsked result (T.held tree.old) (T.held tree.new)
        (T.failed tree.old) (T.failed tree.new) }
{
    match text_at(alloc, tree, entry, "type")? {
        Some(text) => text::kind_in(text.as_str()),
        None => Err(Flaw::NoType),
    }
}

// Reads the text of a oneshot's file `up`.
pub(crate) fn up_at<T: Tree>(alloc: Global, tree: &mut T, entry: &str) -> Result<String, Flaw>
    ensures text { IfOk result (λ text.
        (source : Source) → T.held tree.old ≡ Some source →
        file_at source entry.now (codes "up") ≡ Some (string_bytes text)) }
    ensures script { IfOk result (λ text. IsScriptText (string_bytes text)) }
    ensures passes { OnOk result ((source : Source) → T.held tree.old ≡ Some source →
        FilePasses source entry.now (codes "up", UpText)) }
    ensures fault { IfErr result (λ flaw.
        flaw ≢ Flaw.Memory → (source : Source) → T.held tree.old ≡ Some source →
        StopsAtFile source entry.now (codes "up", UpText) flaw) }
    ensures asked { IsAsked result (T.held tree.old) (T.held tree.new)
        (T.failed tree.old) (T.failed tree.new) }
{
    match text_at(alloc, tree, entry, "up")? {
        Some(text) => Ok(text),
        None => Err(Flaw::NoUp),
    }
}

// Reads the text of a oneshot's file `down`, if the file is there.
pub(crate) fn down_at<T: Tree>(
    alloc: Global,
    tree: &mut T,
    entry: &str,
) -> Result<Option<String>, Flaw>
    ensures text { IfOk result (λ text.
        (source : Source) → T.held tree.old ≡ Some source →
        file_at source entry.now (codes "down") ≡ option_map string_bytes text) }
    ensures script { IfOk result (λ text. IfSome text (λ text. IsScriptText (string_bytes text))) }
    ensures passes { OnOk result ((source : Source) → T.held tree.old ≡ Some source →
        FilePasses source entry.now (codes "down", DownText)) }
    ensures fault { IfErr result (λ flaw.
        flaw ≢ Flaw.Memory → (source : Source) → T.held tree.old ≡ Some source →
        StopsAtFile source entry.now (codes "down", DownText) flaw) }
    ensures asked { IsAsked result (T.held tree.old) (T.held tree.new)
        (T.failed tree.old) (T.failed tree.new) }
{
    let text = text_at(alloc, tree, entry, "down")?;
    Ok(text)
}

// Reads the limit in a file, or returns 0 if the file is missing.
pub(crate) fn limit_at<T: Tree>(
    alloc: Global,
    tree: &mut T,
    entry: &str,
    file: &str,
) -> Result<u32, Flaw>
    ensures limit { IfOk result (λ limit.
        (source : Source) → T.held tree.old ≡ Some source →
        limit ≡ limit_in (file_at source entry.now file.now)) }
    ensures passes { OnOk result ((source : Source) → T.held tree.old ≡ Some source →
        FilePasses source entry.now (file.now, Limit)) }
    ensures fault { IfErr result (λ flaw.
        flaw ≢ Flaw.Memory → (source : Source) → T.held tree.old ≡ Some source →
        StopsAtFile source entry.now (file.now, Limit) flaw) }
    ensures asked { IsAsked result (T.held tree.old) (T.held tree.new)
        (T.failed tree.old) (T.failed tree.new) }
{
    match text_at(alloc, tree, entry, file)? {
        Some(text) => text::limit_in(text.as_str()),
        None => Ok(0),
    }
}

// Tests that a longrun's file `run` is there.
pub(crate) fn test_run<T: Tree>(alloc: Global, tree: &mut T, entry: &str) -> Result<(), Flaw>
    ensures passes { OnOk result ((source : Source) → T.held tree.old ≡ Some source →
        FilePasses source entry.now (codes "run", Anything)) }
    ensures fault { IfErr result (λ flaw.
        flaw ≢ Flaw.Memory → (source : Source) → T.held tree.old ≡ Some source →
        StopsAtFile source entry.now (codes "run", Anything) flaw) }
    ensures asked { IsAsked result (T.held tree.old) (T.held tree.new)
        (T.failed tree.old) (T.failed tree.new) }
{
    match tree.has(alloc, entry, "run") {
        Ok(true) => Ok(()),
        Ok(false) => Err(Flaw::NoRun),
        Err(TreeFault::Io) => Err(Flaw::Io),
        Err(_) => Err(Flaw::Memory),
    }
}

// Returns true if the file `flag-essential` is there.
pub(crate) fn flag_at<T: Tree>(alloc: Global, tree: &mut T, entry: &str) -> Result<bool, Flaw>
    ensures flag { IfOk result (λ flag.
        (source : Source) → T.held tree.old ≡ Some source →
        flag ≡ is_some (file_at source entry.now (codes "flag-essential"))) }
    ensures fault { IfErr result (λ flaw.
        flaw ≢ Flaw.Memory → (source : Source) → T.held tree.old ≡ Some source →
        StopsAtFile source entry.now (codes "flag-essential", Flag) flaw) }
    ensures asked { IsAsked result (T.held tree.old) (T.held tree.new)
        (T.failed tree.old) (T.failed tree.new) }
{
    match tree.has(alloc, entry, "flag-essential") {
        Ok(there) => Ok(there),
        Err(TreeFault::Io) => Err(Flaw::Io),
        Err(_) => Err(Flaw::Memory),
    }
}

// Reads the names in a file, in its order, or returns none if the file is missing.
fn names_at<T: Tree>(
    alloc: Global,
    tree: &mut T,
    entry: &str,
    file: &str,
) -> Result<Vec<Name>, Flaw>
    ensures names { IfOk result (λ names.
        (source : Source) → T.held tree.old ≡ Some source →
        names.items ≡ given_in (file_at source entry.now file.now)) }
    ensures passes { OnOk result ((source : Source) → T.held tree.old ≡ Some source →
        FilePasses source entry.now (file.now, Names)) }
    ensures fault { IfErr result (λ flaw.
        flaw ≢ Flaw.Memory → (source : Source) → T.held tree.old ≡ Some source →
        StopsAtFile source entry.now (file.now, Names) flaw) }
    ensures asked { IsAsked result (T.held tree.old) (T.held tree.new)
        (T.failed tree.old) (T.failed tree.new) }
{
    match text_at(alloc, tree, entry, file)? {
        Some(text) => text::names_of(alloc, text.as_str()),
        None => Ok(Vec::new(alloc)),
    }
}

// Reads the one name in a file, if the file is there and holds one.
pub(crate) fn one_name_at<T: Tree>(
    alloc: Global,
    tree: &mut T,
    entry: &str,
    file: &str,
) -> Result<Option<Name>, Flaw>
    ensures name { IfOk result (λ name.
        (source : Source) → T.held tree.old ≡ Some source →
        name ≡ slice_get (given_in (file_at source entry.now file.now)) 0) }
    ensures is_name { IfOk result (λ name. IfSome name IsName) }
    ensures passes { OnOk result ((source : Source) → T.held tree.old ≡ Some source →
        FilePasses source entry.now (file.now, OneName)) }
    ensures fault { IfErr result (λ flaw.
        flaw ≢ Flaw.Memory → (source : Source) → T.held tree.old ≡ Some source →
        StopsAtFile source entry.now (file.now, OneName) flaw) }
    ensures asked { IsAsked result (T.held tree.old) (T.held tree.new)
        (T.failed tree.old) (T.failed tree.new) }
{
    match text_at(alloc, tree, entry, file)? {
        Some(text) => text::one_name_in(alloc, text.as_str()),
        None => Ok(None),
    }
}

// Adds the names in a file.
pub(crate) fn add_names_at<T: Tree>(
    alloc: Global,
    tree: &mut T,
    entry: &str,
    file: &str,
    set: &mut BTreeSet<String>,
) -> Result<(), Flaw>
    ensures names { OnOk result ((source : Source) → T.held tree.old ≡ Some source → (name : List ℕ)
        → Contains (map string_bytes set.new.keys) name
        ↔ (Contains (map string_bytes set.old.keys) name
        ⊎ Contains (given_in (file_at source entry.now file.now)) name)) }
    ensures passes { OnOk result ((source : Source) → T.held tree.old ≡ Some source →
        FilePasses source entry.now (file.now, Names)) }
    ensures fault { IfErr result (λ flaw.
        flaw ≢ Flaw.Memory → (source : Source) → T.held tree.old ≡ Some source →
        StopsAtFile source entry.now (file.now, Names) flaw) }
    ensures asked { IsAsked result (T.held tree.old) (T.held tree.new)
        (T.failed tree.old) (T.failed tree.new) }
{
    let names = names_at(alloc, tree, entry, file)?;
    sets::add_names(alloc, set, &names)?;
    Ok(())
}
