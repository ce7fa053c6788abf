ghost use Rattle.std.specs.Prelude.{◌≡◌, ◌+◌, ◌<◌, ◌↔◌, ◌∷◌, ◌++◌, [], false, length, Some, All};
ghost use Rattle.std.specs.Prelude.{Contains, IfOk, OnOk, OnErr, IfSome, IfNone, IsTrue, slice_get};
ghost use Rattle.std.specs.Prelude.{if◌then◌else◌};
ghost use Rattle.rc_names.specs.Names.{Adds};
ghost use Rattle.rc_model.specs.Names.{AreNames, IsBefore};

use crate::NoMem;
use crate::name::Name;
use indexmap::IndexMap;
pub use rc_model::MAX_NAMES;
use std::alloc::Global;
use std::marker::Model;

/// A table of names in byte order. A name's id is its place.
pub struct Names {
    alloc: Global,
    table: IndexMap<String, Name>,
}

impl Model for Names {
    ghost use Rattle.std.specs.Prelude.{◌≡◌, ℕ, List, map};
    ghost use Rattle.std.specs.String.{string_bytes};
    ghost use Rattle.indexmap.specs.IndexMap.{keys, values};
    ghost use Rattle.rc_model.specs.Names.{AreNames};

    ghost Value = { List (List ℕ) };

    ghost view = { λ names. values names.table };

    ghost invariant = { λ names. (map string_bytes (keys names.table) ≡ values names.table)
        × AreNames (values names.table) };
}

// Not derived: a crate that drops a value calls this, and proves nothing of its parts.
impl Drop for Names {
    fn drop(self) {
        let Names { alloc: _, table: _ } = self;
    }
}

impl Names {
    /// Creates an empty table, which keeps the allocator.
    pub fn new(alloc: Global) -> Names
        ensures { result ≡ [] }
    {
        Names {
            alloc,
            table: IndexMap::new(alloc),
        }
    }

    /// Adds a name. Returns true if the name is new.
    pub fn add(&mut self, name: Name) -> Result<bool, NoMem>
        requires { length self.old < MAX_NAMES }
        ensures added { IfOk result (λ added. IsTrue added ↔ (Contains self.old name → ⊥)) }
        ensures holds { OnOk result (Adds self.old name self.new) }
        ensures len { IfOk result (λ added. length self.new
            ≡ length self.old + (if added then 1 else 0)) }
        ensures names { AreNames self.new }

        // A name that is there needs no memory.
        ensures present { Contains self.old name → (result ≡ Ok false) × (self.new ≡ self.old) }
        ensures err { OnErr result (self.new ≡ self.old) }
    {
        if self.find(name.text()).is_some() {
            return Ok(false);
        }
        let key = String::from_str(self.alloc, name.text())?;
        self.table.insert_sorted(key, name)?;
        Ok(true)
    }

    /// Adds a name that comes after all others, and whose id is the last.
    pub fn append(&mut self, name: Name) -> Result<(), NoMem>
        requires room { length self.old < MAX_NAMES }
        requires last { All (λ other. IsBefore other name) self.old }
        ensures added { OnOk result (self.new ≡ self.old ++ name ∷ []) }
        ensures err { OnErr result (self.new ≡ self.old) }
    {
        let key = String::from_str(self.alloc, name.text())?;
        self.table.insert(key, name)?;
        Ok(())
    }

    /// Returns the id of a text, if it is among the names.
    pub fn find(&self, text: &str) -> Option<u16>
        ensures found { IfSome result (λ id. slice_get self.now id ≡ Some text.now) }
        ensures missing { IfNone result (Contains self.now text.now → ⊥) }
    {
        let place = self.table.get_index_of(text)?;
        Some(place as u16)
    }

    /// Returns the id of a text, if it is among the names. Looks at the given place first.
    pub fn find_near(&self, text: &str, place: u16) -> Option<u16>
        ensures found { IfSome result (λ id. slice_get self.now id ≡ Some text.now) }
        ensures missing { IfNone result (Contains self.now text.now → ⊥) }
    {
        if self.is_at(text, place) {
            return Some(place);
        }
        self.find(text)
    }

    // Returns true if a text is the name at the given place.
    fn is_at(&self, text: &str, place: u16) -> bool
        ensures { IsTrue result → slice_get self.now place ≡ Some text.now }
    {
        match self.table.get_index(place as usize) {
            Some((_, name)) => name.text() == text,
            None => false,
        }
    }

    /// Returns the id of a name that is given as bytes, if it is among the names. Bytes that are
    /// not text are no name.
    pub fn find_bytes(&self, name: &[u8]) -> Option<u16>
        ensures found { IfSome result (λ id. slice_get self.now id ≡ Some name.now) }
        ensures missing { IfNone result (Contains self.now name.now → ⊥) }
    {
        // The contract of `len` says that all names are text.
        let _len = self.len();
        match str::from_utf8(name) {
            Ok(text) => self.find(text),
            Err(_) => None,
        }
    }

    /// Returns the name with the given id.
    pub fn name_of(&self, id: u16) -> &Name
        requires { id < length self.now }
        ensures { slice_get self.now id ≡ Some result.now }
    {
        &self.table[id as usize]
    }

    /// Returns the number of names. The ids are the numbers below it.
    pub fn len(&self) -> u16
        ensures len { result ≡ length self.now }
        ensures names { AreNames self.now }
    {
        self.table.len() as u16
    }

    /// Returns true if there are no names.
    pub fn is_empty(&self) -> bool
        ensures { IsTrue result ↔ (self.now ≡ []) }
    {
        self.table.is_empty()
    }
}
