ghost use Rattle.std.specs.Prelude.{◌≡◌, ◌<◌, ◌↔◌, ◌⊎◌, [], ◌∷◌, ◌++◌, length, All, Contains};
ghost use Rattle.std.specs.Prelude.{Some, None, IfOk, IfErr, OnOk, OnErr, IsTrue, slice_get};
ghost use Rattle.std.specs.Option.{option_copied};
ghost use Rattle.rc_model.specs.Line.{IsChangedAt};
ghost use Rattle.rc_model.specs.Names.{IsBefore};
ghost use Rattle.rc_model.specs.Database.{names_of, value_of, IsTable};
ghost use Rattle.rc_names.specs.Names.{IsGap};

use rc_names::Name;
use rc_set::{NoMem, Set};
use std::alloc::Global;
use std::marker::Model;
use std::mem;

/// The most bundles that a table holds.
pub const MAX_BUNDLES: u16 = 4096;

/// Bundles in byte order of their names.
///
/// Time: `len` and `at` take one step, `get` grows with the logarithm of the number of bundles,
/// `set` and `clear` move the bundles after the name, `same` and `copy` grow with the table.
pub struct Table {
    alloc: Global,
    bundles: Vec<(Name, Set)>,
}

impl Model for Table {
    ghost use Rattle.rc_model.specs.Database.{Bundles, IsTable};

    ghost Value = { Bundles };

    ghost view = { λ t. t.bundles.items };

    ghost invariant = { λ t. IsTable t.bundles.items };
}

// Not derived: a crate that drops a table calls this, and proves nothing about its parts.
impl Drop for Table {
    fn drop(self) {
        let Table {
            alloc: _,
            bundles: _,
        } = self;
    }
}

impl Table {
    /// Creates a table of no bundles, which keeps the allocator.
    pub fn new(alloc: Global) -> Table
        ensures { result ≡ [] }
    {
        Table {
            alloc,
            bundles: Vec::new(alloc),
        }
    }

    /// Returns the set of a name, if a bundle has that name.
    pub fn get(&self, name: &str) -> Option<&Set>
        ensures { option_copied result ≡ value_of self.now name.now }
    {
        match self.place_of(name) {
            Ok(place) => Some(&self.bundles[place].1),
            Err(_) => None,
        }
    }

    /// Returns the number of bundles. Their places are the numbers below it.
    pub fn len(&self) -> u16
        ensures len { result ≡ length self.now }
        ensures table { IsTable self.now }
    {
        self.bundles.len() as u16
    }

    /// Returns true if there are no bundles.
    pub fn is_empty(&self) -> bool
        ensures { IsTrue result ↔ (self.now ≡ []) }
    {
        self.bundles.is_empty()
    }

    /// Returns the bundle at a place, with its name.
    pub fn at(&self, place: u16) -> (&Name, &Set)
        requires { place < length self.now }
        ensures { slice_get self.now place ≡ Some (result.0.now, result.1.now) }
    {
        let bundle = &self.bundles[place as usize];
        (&bundle.0, &bundle.1)
    }

    /// Returns true if two tables have the same bundles, each with the same set.
    pub fn same(&self, other: &Table) -> bool
        ensures { IsTrue result ↔ (self.now ≡ other.now) }
    {
        if self.len() != other.len() {
            return false;
        }
        for place in 0..self.len() {
            if !same_bundle(self.at(place), other.at(place)) {
                return false;
            }
        }
        true
    }

    /// Creates another table of the same bundles.
    pub fn copy(&self, alloc: Global) -> Result<Table, NoMem>
        ensures { IfOk result (λ table. table ≡ self.now) }
    {
        let mut table = Table::new(alloc);
        for place in 0..self.len() {
            let (name, set) = self.at(place);
            table.push(name, set)?;
        }
        Ok(table)
    }

    /// Sets the set of a name, and returns the set that the name had before, if any.
    pub fn set(&mut self, name: &Name, set: Set) -> Result<Option<Set>, NoMem>
        requires { Contains (names_of self.old) name.now ⊎ (length self.old < MAX_BUNDLES) }
        ensures value { IfOk result (λ value. value ≡ value_of self.old name.now) }
        ensures table { OnOk result (IsChangedAt self.old name.now (Some set) self.new) }
        ensures same { OnErr result (self.new ≡ self.old) }
    {
        match self.place_of(name.text()) {
            Ok(place) => {
                let old = mem::replace(&mut self.bundles[place].1, set);
                Ok(Some(old))
            }
            Err(place) => {
                let name = name.copy(self.alloc)?;
                self.bundles.insert(place, (name, set))?;
                Ok(None)
            }
        }
    }

    /// Removes a name, and returns the set that it had, if any. Takes no memory.
    pub fn clear(&mut self, name: &str) -> Option<Set>
        ensures value { result ≡ value_of self.old name.now }
        ensures table { IsChangedAt self.old name.now None self.new }
    {
        match self.place_of(name) {
            Ok(place) => {
                let (_, set) = self.bundles.remove(place);
                Some(set)
            }
            Err(_) => None,
        }
    }
}

impl Table {
    // Adds a bundle after all others.
    fn push(&mut self, name: &Name, set: &Set) -> Result<(), NoMem>
        requires room { length self.old < MAX_BUNDLES }
        requires last { All (λ other. IsBefore other name.now) (names_of self.old) }
        ensures { OnOk result (self.new ≡ self.old ++ (name.now, set.now) ∷ []) }
    {
        // The contract of `text` says that it is a name.
        let _text = name.text();
        let bundle = (name.copy(self.alloc)?, set.copy(self.alloc)?);
        self.bundles.push(bundle)?;
        Ok(())
    }

    // Returns the place of the bundle of a name, or as an error the place at which it would stand.
    fn place_of(&self, name: &str) -> Result<usize, usize>
        ensures found { IfOk result (λ place. slice_get (names_of self.now) place
            ≡ Some name.now) }
        ensures missing { IfErr result (λ place. IsGap (names_of self.now) name.now place) }
        ensures table { IsTable self.now }
    {
        self.bundles
            .binary_search_by(|bundle| bundle.0.text().cmp(name))
    }
}

/// Returns true if two bundles have the same name and the same set.
fn same_bundle(one: (&Name, &Set), other: (&Name, &Set)) -> bool
    ensures { IsTrue result ↔ ((one.entry.0.now ≡ other.entry.0.now)
        × (one.entry.1.now ≡ other.entry.1.now)) }
{
    one.0.text() == other.0.text() && one.1.bound() == other.1.bound() && one.1.same(other.1)
}
