//! Sets of texts, as they stand in a `BTreeSet`.
ghost use Rattle.std.specs.Prelude.{◌≡◌, ◌↔◌, ◌⊎◌, ℕ, List, All, map, Contains, OnOk, OnErr};
ghost use Rattle.std.specs.Prelude.{IsTrue, IfOk, string_bytes};
ghost use Rattle.rc_model.specs.Names.{IsName, IsInByteOrder};
ghost use Rattle.rc_names.specs.Names.{Adds};

use rc_names::{Name, NoMem};
use std::alloc::{AllocError, Global};
use std::collections::BTreeSet;

/// Adds a text. Returns true if the text is new.
pub fn add(alloc: Global, set: &mut BTreeSet<String>, text: &str) -> Result<bool, NoMem>
    ensures order { OnOk result (IsInByteOrder (map string_bytes set.new.keys)) }
    ensures adds { OnOk result (Adds (map string_bytes set.old.keys) text.now
        (map string_bytes set.new.keys)) }
    ensures added { IfOk result (λ added.
        IsTrue added ↔ (Contains (map string_bytes set.old.keys) text.now → ⊥)) }
    ensures err { OnErr result (map string_bytes set.new.keys ≡ map string_bytes set.old.keys) }
{
    let text = String::from_str(alloc, text)?;
    Ok(set.insert(text)?)
}

/// Returns true if a text is in a set.
pub fn has(set: &BTreeSet<String>, text: &str) -> bool
    ensures { IsTrue result ↔ Contains (map string_bytes set.now.keys) text.now }
{
    set.contains(text)
}

/// Returns the texts of a set, in byte order.
pub fn texts(alloc: Global, set: &BTreeSet<String>) -> Result<Vec<String>, NoMem>
    ensures texts { IfOk result (λ texts.
        map string_bytes texts.items ≡ map string_bytes set.now.keys) }
    ensures order { IsInByteOrder (map string_bytes set.now.keys) }
{
    let _count = set.len();
    let mut texts = Vec::new(alloc);
    for text in set {
        texts.push(String::from_str(alloc, text.as_str())?)?;
    }
    Ok(texts)
}

/// Adds names to a set.
pub fn add_names(alloc: Global, set: &mut BTreeSet<String>, names: &[Name]) -> Result<(), NoMem>
    ensures { OnOk result ((text : List ℕ) → Contains (map string_bytes set.new.keys) text
        ↔ (Contains (map string_bytes set.old.keys) text ⊎ Contains names.now text)) }
{
    for name in names {
        add(alloc, set, name.text())?;
    }
    Ok(())
}

/// Returns the texts of a set as names. Each text is a name already, so only memory can run out.
pub fn names(alloc: Global, set: &BTreeSet<String>) -> Result<Vec<Name>, NoMem>
    ensures names { IfOk result (λ names. names.items ≡ map string_bytes set.now.keys) }
    ensures each { IfOk result (λ names. All IsName names.items) }
    ensures order { OnOk result (IsInByteOrder (map string_bytes set.now.keys)) }
{
    let _count = set.len();
    let mut names = Vec::new(alloc);
    for text in set {
        let Ok(name) = Name::read(alloc, text.as_str()) else {
            return Err(AllocError);
        };
        names.push(name)?;
    }
    Ok(names)
}
