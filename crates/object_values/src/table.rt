//! Pairs in a hash table.
ghost use Rattle.std.specs.Prelude.{◌≡◌, ◌<◌, ◌^◌, ◌++◌, [], IfOk, IfNone, IfSome, OnOk, OnErr, is_some, length, reverse, slice_get, remove};
ghost use Rattle.std.specs.Option.{option_copied};
ghost use Rattle.object_values.specs.Pairs.{HasDistinctKeys};

use crate::seed::{Seed, Seeded};
use crate::value::Value;
use indexmap::IndexMap;
use std::alloc::{AllocError, Global};
use std::marker::Model;

type Map = IndexMap<Value, Value, Seeded>;

/// Where at most so many pairs move up as one is taken out, no gap is ever worth its cost.
const NEAR: usize = 32;

/// So many pairs move up in the time in which one is carried over a gap.
pub const PATIENCE: usize = 16;

/// A hash table of pairs. Contracts see the list of the pairs, in the order in which the keys came.
pub struct Table {
    map: Map,
    // How many pairs moved up so far, as others were taken out far from the end.
    moved: usize,
}

impl Model for Table {
    ghost use Rattle.std.specs.Prelude.{List};
    ghost use Rattle.object_values.specs.declared.value.Value as declared;

    ghost Value = { List (declared.Value × declared.Value) };

    ghost view = { λ p. p.map.entries };
}

impl Drop for Table {
    fn drop(self) {
        let Table {
            map: _map,
            moved: _,
        } = self;
    }
}

impl Table {
    ghost use Rattle.object_values.specs.Pairs.{value_of, with_pair, with_pairs, without_key, key_at, pair_value_at, StandsAt};

    /// No pairs, whose keys are hashed from this seed. It takes no memory.
    pub fn new(alloc: Global, seed: Seed) -> Table
        ensures { result ≡ [] }
    {
        Table {
            map: IndexMap::with_hasher(alloc, Seeded::new(seed)),
            moved: 0,
        }
    }

    /// How many pairs there are.
    pub fn len(&self) -> usize
        ensures value { result ≡ length self.now }
        ensures fits { length self.now < 2 ^ 63 }
        ensures distinct { HasDistinctKeys self.now }
    {
        self.map.as_slice().len()
    }

    /// The value of a key. It takes no memory.
    pub fn get(&self, key: &Value) -> Option<&Value>
        ensures { option_copied result ≡ value_of self.now key.now }
    {
        self.map.get(key)
    }

    /// Whether there is a key.
    pub fn has(&self, key: &Value) -> bool
        ensures { result ≡ is_some (value_of self.now key.now) }
    {
        self.map.contains_key(key)
    }

    /// The key at a place.
    pub fn key_at(&self, at: usize) -> Option<&Value>
        ensures { option_copied result ≡ key_at self.now at }
    {
        match self.map.get_index(at) {
            Some((key, _)) => Some(key),
            None => None,
        }
    }

    /// The value at a place.
    pub fn value_at(&self, at: usize) -> Option<&Value>
        ensures { option_copied result ≡ pair_value_at self.now at }
    {
        match self.map.get_index(at) {
            Some((_, value)) => Some(value),
            None => None,
        }
    }

    /// Sets the value of a key, and gives the one before. A new key goes last, and one that is there keeps its place. After
    /// want of memory the pairs are as before.
    pub fn put(&mut self, key: Value, value: Value) -> Result<Option<Value>, AllocError>
        ensures before { IfOk result (λ before. before ≡ value_of self.old key) }
        ensures ok { OnOk result (self.new ≡ with_pair self.old key value) }
        ensures err { OnErr result (self.new ≡ self.old) }
    {
        match self.map.insert(key, value) {
            Ok(before) => return Ok(before),
            Err(refused) => drop(refused),
        }
        Err(AllocError)
    }

    /// Puts further pairs in their order. After want of memory the pairs are as before.
    pub fn append(&mut self, more: Table) -> Result<(), AllocError>
        ensures ok { OnOk result (self.new ≡ with_pairs self.old more) }
        ensures err { OnErr result (self.new ≡ self.old) }
    {
        let mut more = more;
        match self.map.append(&mut more.map) {
            Ok(()) => Ok(()),
            Err(_) => Err(AllocError),
        }
    }

    /// Takes a key out, and gives the value that it had; the pairs behind it move up. It takes no memory.
    pub fn cut(&mut self, key: &Value) -> Option<Value>
        ensures before { result ≡ value_of self.old key.now }
        ensures rest { self.new ≡ without_key self.old key.now }
    {
        self.map.shift_remove(key)
    }

    /// Takes the pair at a place out, if there is one; those behind it move up. It takes no memory.
    pub fn remove(&mut self, at: usize) -> Option<(Value, Value)>
        ensures pair { result ≡ slice_get self.old at }
        ensures rest { self.new ≡ remove self.old at }
    {
        self.map.shift_remove_index(at)
    }

    /// The place of a key.
    pub fn place_of(&self, key: &Value) -> Option<usize>
        ensures found { IfSome result (λ at. StandsAt self.now key.now at) }
        ensures none { IfNone result (value_of self.now key.now ≡ None) }
        ensures distinct { HasDistinctKeys self.now }
    {
        // The count says that no key is there twice.
        let _count = self.len();
        match self.map.get_full(key) {
            Some((at, _, _)) => Some(at),
            None => None,
        }
    }

    /// Turns the order of the pairs round.
    pub fn reverse(&mut self)
        ensures { self.new ≡ reverse self.old }
    {
        self.map.reverse();
    }

    /// Carries so many pairs from the end over to the end of another table, the last first. Where there is no memory for them
    /// all stay.
    pub fn carry(&mut self, to: &mut Table, count: usize)
        requires { HasDistinctKeys (self.old ++ reverse to.old) }
        ensures { self.new ++ reverse to.new ≡ self.old ++ reverse to.old }
    {
        carry(&mut self.map, &mut to.map, count);
    }

    /// Whether a gap pays, now that the pair at a place is to be taken out too.
    pub fn wants_gap(&mut self, at: usize) -> bool
        ensures { self.new ≡ self.old }
    {
        let behind = self.map.len().saturating_sub(at).saturating_sub(1);
        if behind <= NEAR {
            return false;
        }
        self.moved = self.moved.saturating_add(behind);
        self.moved / PATIENCE >= behind
    }
}

// Carries so many pairs from the end of one map to the end of another, where there is memory for them.
fn carry(from: &mut Map, to: &mut Map, count: usize)
    requires { HasDistinctKeys (from.old.entries ++ reverse to.old.entries) }
    ensures { from.new.entries ++ reverse to.new.entries ≡ from.old.entries ++ reverse to.old.entries }
{
    if to.reserve(count).is_err() {
        return;
    }
    for _turn in 0..count {
        match from.pop() {
            Some((key, value)) => {
                to.insert(key, value).unwrap();
            }
            None => return,
        }
    }
}
