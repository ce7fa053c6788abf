//! Sets of ids below a bound that is fixed when a set is made.
//!
//! A set has a bit for each id, in words of 64.
//!
//! Time: `insert`, `remove`, `contains` and `bound` take one step; all other calls grow with the
//! bound, a word at a time, `ids` with the ids too, and `fill_missing` with those that are missing.
//! `next_from` and `next_beyond` look at no word that ends before the number that they are given,
//! nor at one behind their answer.
#![tactic(auto)]

ghost use Rattle.std.specs.Prelude.{◌≡◌, ◌≢◌, ℕ, ◌+◌, ◌*◌, ◌<◌, ◌≤◌, ◌⊎◌, ◌↔◌, length, count_by};
ghost use Rattle.std.specs.Prelude.{IsTrue, IfOk, OnOk, IfSome, IfNone};
ghost use Rattle.rc_model.specs.Line.{Lists};
ghost use Rattle.rc_model.specs.Names.{Has, Holds};
ghost use Rattle.rc_set.specs.Words.{has_bit, HasBit, flags_of};
ghost use Rattle.rc_set.specs.Listed.{ListsBelow};
ghost use Rattle.rc_set.specs.Next.{IsNextFrom, HasNoneFrom};
ghost use Rattle.rc_set.specs.Filled.{Fills};

use std::alloc::{AllocError, Global};
use std::marker::Model;

/// Out of memory: the only error of the calls that return it. A call that fails changes nothing.
pub type NoMem = AllocError;

/// A set of ids below a bound that is fixed when the set is made.
pub struct Set {
    words: Vec<u64>,
    bound: u16,
}

impl Model for Set {
    ghost use Rattle.std.specs.Prelude.{List, Bool};
    ghost use Rattle.rc_set.specs.Words.{flags_of, AreWords};

    ghost Value = { List Bool };

    ghost view = { λ s. flags_of s.bound s.words.items };

    ghost invariant = { λ s. AreWords s.bound s.words.items };
}

// Not derived: a crate that drops a value calls this, and proves nothing of its parts.
impl Drop for Set {
    fn drop(self) {
        let Set { words: _, bound: _ } = self;
    }
}

impl Set {
    /// Creates an empty set, with room for the ids below `bound`.
    pub fn empty(alloc: Global, bound: u16) -> Result<Set, NoMem>
        requires { bound ≤ 4096 }
        ensures bound { IfOk result (λ set. length set ≡ bound) }
        ensures members { IfOk result (λ set. (s : ℕ) → Has set s → ⊥) }
    {
        let words = vec![in alloc; 0; (bound as usize).div_ceil(64)]?;
        Ok(Set { words, bound })
    }

    /// Adds an id. Returns true if the id is new.
    pub fn insert(&mut self, id: u16) -> bool
        requires { id < length self.old }
        ensures fresh { IsTrue result ↔ (Has self.old id → ⊥) }
        ensures members { Holds self.new (λ s. Has self.old s ⊎ (s ≡ id)) }
        ensures bound { length self.new ≡ length self.old }
    {
        let fresh = !bit(&self.words, id);
        set_bit(&mut self.words, id);
        fresh
    }

    /// Removes an id. Returns true if the set had it.
    pub fn remove(&mut self, id: u16) -> bool
        requires { id < length self.old }
        ensures found { IsTrue result ↔ Has self.old id }
        ensures members { Holds self.new (λ s. Has self.old s × (s ≢ id)) }
        ensures bound { length self.new ≡ length self.old }
    {
        let found = bit(&self.words, id);
        clear_bit(&mut self.words, id);
        found
    }

    /// Returns true if the set has an id.
    pub fn contains(&self, id: u16) -> bool
        requires { id < length self.now }
        ensures { IsTrue result ↔ Has self.now id }
    {
        bit(&self.words, id)
    }

    /// Returns the least id of the set from a number on.
    pub fn next_from(&self, from: u16) -> Option<u16>
        ensures some { IfSome result (IsNextFrom (Has self.now) from) }
        ensures none { IfNone result (HasNoneFrom (Has self.now) from) }
        ensures below { IfSome result (λ s. (s < length self.now) × (s < 4096)) }
    {
        next_bit(&self.words, from)
    }

    /// Returns the least id, from a number on, that the set has and another of the same bound
    /// lacks.
    pub fn next_beyond(&self, other: &Set, from: u16) -> Option<u16>
        requires { length other.now ≡ length self.now }
        ensures some { IfSome result
            (IsNextFrom (λ s. Has self.now s × (Has other.now s → ⊥)) from) }
        ensures none { IfNone result
            (HasNoneFrom (λ s. Has self.now s × (Has other.now s → ⊥)) from) }
        ensures below { IfSome result (λ s. (s < length self.now) × (s < 4096)) }
    {
        next_bit_beyond(&self.words, &other.words, from)
    }

    /// Writes a value at the place of each id below the bound that the set lacks.
    pub fn fill_missing<T: Copy>(&self, list: &mut [T], value: T)
        requires { length list.old ≡ length self.now }
        ensures { Fills (λ s. Has self.now s → ⊥) list.old list.new value }
    {
        fill_clear(list, &self.words, value);
    }

    /// Adds all ids of a set of the same bound.
    pub fn join(&mut self, other: &Set)
        requires { length other.now ≡ length self.old }
        ensures members { Holds self.new (λ s. Has self.old s ⊎ Has other.now s) }
        ensures bound { length self.new ≡ length self.old }
    {
        join_words(&mut self.words, &other.words);
    }

    /// Removes all ids of a set of the same bound.
    pub fn without(&mut self, other: &Set)
        requires { length other.now ≡ length self.old }
        ensures members { Holds self.new (λ s. Has self.old s × (Has other.now s → ⊥)) }
        ensures bound { length self.new ≡ length self.old }
    {
        clear_words(&mut self.words, &other.words);
    }

    /// Replaces the ids with those of another set of the same bound.
    pub fn overwrite(&mut self, other: &Set)
        requires { length other.now ≡ length self.old }
        ensures { self.new ≡ other.now }
    {
        self.words.copy_from_slice(&other.words);
    }

    /// Returns true if two sets of one bound have the same ids.
    pub fn same(&self, other: &Set) -> bool
        requires { length other.now ≡ length self.now }
        ensures { IsTrue result ↔ (self.now ≡ other.now) }
    {
        are_same(&self.words, &other.words)
    }

    /// Returns another set with the same ids and bound.
    pub fn copy(&self, alloc: Global) -> Result<Set, NoMem>
        ensures { IfOk result (λ set. set ≡ self.now) }
    {
        let words = self.words.as_slice().to_vec(alloc)?;
        Ok(Set {
            words,
            bound: self.bound,
        })
    }

    /// Returns the ids in ascending order, each once.
    pub fn ids(&self, alloc: Global) -> Result<Vec<u16>, NoMem>
        ensures { IfOk result (λ ids. Lists (Has self.now) ids.items) }
    {
        ids_of(alloc, &self.words)
    }

    /// Returns the number of ids in the set.
    pub fn len(&self) -> u16
        ensures { result ≡ count_by (λ flag. flag) self.now }
    {
        count_of(&self.words)
    }

    /// Returns true if the set has no id.
    pub fn is_empty(&self) -> bool
        ensures { IsTrue result ↔ ((s : ℕ) → Has self.now s → ⊥) }
    {
        are_zero(&self.words)
    }

    /// Returns the bound. All ids of the set are below it. It is at most 4,096.
    pub fn bound(&self) -> u16
        ensures bound { result ≡ length self.now }
        ensures small { length self.now ≤ 4096 }
    {
        self.bound
    }
}

/// Returns true if the bit of an id is set.
fn bit(words: &[u64], id: u16) -> bool
    requires { id < 64 * length words.now }
    ensures { result ≡ has_bit words.now id }
{
    (words[(id / 64) as usize] >> (id % 64)) & 1 == 1
}

/// Sets the bit of an id.
fn set_bit(words: &mut [u64], id: u16)
    requires { id < 64 * length words.old }
    ensures { (s : ℕ) → HasBit words.new s ↔ (HasBit words.old s ⊎ (s ≡ id)) }
{
    words[(id / 64) as usize] |= 1 << (id % 64);
}

/// Clears the bit of an id.
fn clear_bit(words: &mut [u64], id: u16)
    requires { id < 64 * length words.old }
    ensures { (s : ℕ) → HasBit words.new s ↔ (HasBit words.old s × (s ≢ id)) }
{
    words[(id / 64) as usize] &= !(1 << (id % 64));
}

/// Sets the bits that are set in other words, word by word.
fn join_words(words: &mut [u64], others: &[u64])
    requires { length others.now ≡ length words.old }
    ensures { (s : ℕ) → HasBit words.new s ↔ (HasBit words.old s ⊎ HasBit others.now s) }
{
    for i in 0..words.len() {
        words[i] |= others[i];
    }
}

/// Clears the bits that are set in other words, word by word.
fn clear_words(words: &mut [u64], others: &[u64])
    requires { length others.now ≡ length words.old }
    ensures { (s : ℕ) → HasBit words.new s ↔ (HasBit words.old s × (HasBit others.now s → ⊥)) }
{
    for i in 0..words.len() {
        words[i] &= !others[i];
    }
}

/// Returns the least id from a number on whose bit is set.
fn next_bit(words: &[u64], from: u16) -> Option<u16>
    requires { length words.now ≤ 64 }
    ensures some { IfSome result (IsNextFrom (HasBit words.now) from) }
    ensures none { IfNone result (HasNoneFrom (HasBit words.now) from) }
{
    let mut at = from;
    while (at as usize) < 64 * words.len() {
        let rest = words[(at / 64) as usize] >> (at % 64);
        if rest != 0 {
            return Some(at + rest.trailing_zeros() as u16);
        }
        at = (next_word(words, (at / 64) as usize + 1) * 64) as u16;
    }
    None
}

/// Returns the place of the first word, from a place on, in which a bit is set, or the number of
/// words if there is none.
fn next_word(words: &[u64], from: usize) -> usize
    requires { from ≤ length words.now }
    ensures behind { from ≤ result }
    ensures within { result ≤ length words.now }
    ensures none { (s : ℕ) → 64 * from ≤ s → s < 64 * result → HasBit words.now s → ⊥ }
{
    let mut at = from;
    while at < words.len() {
        if words[at] != 0 {
            return at;
        }
        at += 1;
    }
    at
}

/// Returns the least id from a number on whose bit is set in the words and not in the others.
fn next_bit_beyond(words: &[u64], others: &[u64], from: u16) -> Option<u16>
    requires few { length words.now ≤ 64 }
    requires long { length others.now ≡ length words.now }
    ensures some { IfSome result
        (IsNextFrom (λ s. HasBit words.now s × (HasBit others.now s → ⊥)) from) }
    ensures none { IfNone result
        (HasNoneFrom (λ s. HasBit words.now s × (HasBit others.now s → ⊥)) from) }
{
    let mut at = from;
    while (at as usize) < 64 * words.len() {
        let word = (at / 64) as usize;
        let rest = (words[word] & !others[word]) >> (at % 64);
        if rest != 0 {
            return Some(at + rest.trailing_zeros() as u16);
        }
        at = (at / 64 + 1) * 64;
    }
    None
}

/// Returns the ids whose bits are set.
fn ids_of(alloc: Global, words: &[u64]) -> Result<Vec<u16>, NoMem>
    requires { length words.now ≤ 64 }
    ensures { IfOk result (λ ids. Lists (HasBit words.now) ids.items) }
{
    let mut ids = Vec::new(alloc);
    for at in 0..words.len() {
        push_ids(&mut ids, words, at)?;
    }
    Ok(ids)
}

/// Appends the ids of a word to those of the words before it.
fn push_ids(ids: &mut Vec<u16>, words: &[u64], at: usize) -> Result<(), NoMem>
    requires few { length words.now ≤ 64 }
    requires place { at < length words.now }
    requires listed { ListsBelow (HasBit words.now) (64 * at) ids.old.items }
    ensures { OnOk result (ListsBelow (HasBit words.now) (64 * (at + 1)) ids.new.items) }
{
    let mut left = words[at];
    while left != 0 {
        let place = left.trailing_zeros();
        ids.push((64 * at) as u16 + place as u16)?;
        left &= !(1 << place);
    }
    Ok(())
}

/// Writes a value at the place of each id whose bit is not set.
fn fill_clear<T: Copy>(list: &mut [T], words: &[u64], value: T)
    requires { length words.now ≤ 64 }
    ensures { Fills (λ s. (s < 64 * length words.now) × (HasBit words.now s → ⊥))
        list.old list.new value }
{
    for at in 0..words.len() {
        fill_word(list, words, at, value);
    }
}

/// Writes a value at the place of each id of a word whose bit is not set.
fn fill_word<T: Copy>(list: &mut [T], words: &[u64], at: usize, value: T)
    requires few { length words.now ≤ 64 }
    requires place { at < length words.now }
    ensures { Fills (λ s. (64 * at ≤ s) × (s < 64 * (at + 1)) × (HasBit words.now s → ⊥))
        list.old list.new value }
{
    let mut left = !words[at];
    while left != 0 {
        let place = left.trailing_zeros();
        let id = 64 * at + place as usize;
        if id < list.len() {
            list[id] = value;
        }
        left &= !(1 << place);
    }
}

/// Returns the number of bits that are set.
fn count_of(words: &[u64]) -> u16
    requires { length words.now ≤ 64 }
    ensures { result ≡ count_by (λ flag. flag) (flags_of (64 * length words.now) words.now) }
{
    let mut count = 0;
    for word in words {
        count += word.count_ones() as u16;
    }
    count
}

/// Returns true if no bit is set.
fn are_zero(words: &[u64]) -> bool
    ensures { IsTrue result ↔ ((s : ℕ) → HasBit words.now s → ⊥) }
{
    for i in 0..words.len() {
        if words[i] != 0 {
            return false;
        }
    }
    true
}

/// Returns true if the same bits are set in two lists of words.
fn are_same(words: &[u64], others: &[u64]) -> bool
    requires { length others.now ≡ length words.now }
    ensures { IsTrue result ↔ ((s : ℕ) → has_bit words.now s ≡ has_bit others.now s) }
{
    for i in 0..words.len() {
        if words[i] != others[i] {
            return false;
        }
    }
    true
}
