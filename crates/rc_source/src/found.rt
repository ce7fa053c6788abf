ghost use Rattle.std.specs.Prelude.{◌≡◌, ◌++◌, ◌∷◌, ◌↔◌, [], Contains, IsTrue, OnOk, OnErr, map};
ghost use Rattle.rc_source.specs.Meaning.{IsMeaning, AreMeanings};
ghost use Rattle.rc_source.specs.Said.{meaning_of, meant};

use crate::definition::Definition;
use crate::sets;
use rc_names::NoMem;
use std::alloc::{AllocError, Global};
use std::collections::BTreeSet;
use std::marker::Model;

// Definitions of distinct names, in the order in which they were found, and their names as a set.
#[derive(Drop)]
pub(crate) struct Found {
    alloc: Global,
    definitions: Vec<Definition>,
    names: BTreeSet<String>,
}

impl Model for Found {
    ghost use Rattle.std.specs.Prelude.{List, map, string_bytes};
    ghost use Rattle.rc_source.specs.Meaning.{Meaning};
    ghost use Rattle.rc_source.specs.Said.{AreFound, meaning_of};

    ghost Value = { List Meaning };

    ghost view = { λ found. map meaning_of found.definitions.items };

    ghost invariant = { λ found. AreFound (map meaning_of found.definitions.items)
        (map string_bytes found.names.keys) };
}

impl Found {
    // Creates an empty list of definitions.
    pub(crate) fn new(alloc: Global) -> Found
        ensures { result ≡ [] }
    {
        Found {
            alloc,
            definitions: Vec::new(alloc),
            names: BTreeSet::new(alloc),
        }
    }

    // Returns true if there is a definition of this name.
    pub(crate) fn has(&self, name: &str) -> bool
        ensures { IsTrue result ↔ Contains (meant self.now) name.now }
    {
        sets::has(&self.names, name)
    }

    // Appends a definition of a new name.
    pub(crate) fn add(&mut self, definition: Definition) -> Result<(), NoMem>
        requires meaning { IsMeaning (meaning_of definition) }
        requires free { Contains (meant self.old) definition.name → ⊥ }
        ensures added { OnOk result (self.new ≡ self.old ++ meaning_of definition ∷ []) }
        ensures err { OnErr result (self.new ≡ self.old) }
    {
        let Ok(()) = self.definitions.reserve(1) else {
            drop(definition);
            return Err(AllocError);
        };
        let Ok(_) = sets::add(self.alloc, &mut self.names, definition.name.text()) else {
            drop(definition);
            return Err(AllocError);
        };
        self.definitions.push_reserved(definition);
        Ok(())
    }

    // Returns the definitions.
    pub(crate) fn into_definitions(self) -> Vec<Definition>
        ensures definitions { map meaning_of result.items ≡ self }
        ensures meanings { AreMeanings self }
    {
        self.definitions
    }
}
