//! Pairs of keys and values, as maps and sets hold them.
ghost use Rattle.std.specs.Prelude.{◌≡◌, ◌<◌, ◌^◌, [], ◌∷◌, IfNone, IfOk, IfSome, OnOk, OnErr, length, slice_get, remove};
ghost use Rattle.std.specs.Option.{option_copied};
ghost use Rattle.object_values.specs.Pairs.{with_pairs};

use crate::parts::Parts;
use crate::seed::Seed;
use crate::table::Table;
use crate::value::Value;
use std::alloc::{AllocError, Global};
use std::marker::Model;
use std::mem::replace;

// The tables of pairs.
#[derive(Drop)]
enum Form {
    // No pair came yet.
    Empty,
    Whole(Box<Table>),
    // Many pairs were taken out far from the end.
    Parted(Box<Parts>),
}

/// Pairs of a key and a value with distinct keys, in the order in which the keys came. Contracts see the list of the pairs.
/// What a key has is found by its hash, at the same cost in few pairs and in many, whoever chose the keys: the hash starts from a
/// seed, which contracts do not see. Before the first pair comes there is no table.
///
/// Pairs that are taken out one after the other cost a fixed time each where they are taken from the front, while others may be put
/// at the end, or where one walk from the front to the end takes out any of them.
pub struct Pairs {
    form: Form,
    alloc: Global,
    seed: Seed,
}

impl Model for Pairs {
    ghost use Rattle.std.specs.Prelude.{List};
    ghost use Rattle.object_values.specs.declared.value.Value.{Value as declared};
    ghost use Rattle.object_values.specs.Held.{held};

    ghost Value = { List (declared × declared) };

    ghost view = { λ p. held p.form };
}

impl Drop for Pairs {
    fn drop(self) {
        let Pairs {
            form: _form,
            alloc: _,
            seed: _,
        } = self;
    }
}

impl Pairs {
    ghost use Rattle.object_values.specs.Pairs.{value_of, with_pair, with_pairs, without_key, HasDistinctKeys, key_at, pair_value_at, StandsAt};

    /// No pairs, whose keys are hashed from this seed. It takes no memory.
    pub fn new(alloc: Global, seed: Seed) -> Pairs
        ensures { result ≡ [] }
    {
        Pairs {
            form: Form::Empty,
            alloc,
            seed,
        }
    }

    /// How many pairs there are.
    pub fn len(&self) -> usize
        ensures value { result ≡ length self.now }
        ensures fits { length self.now < 2 ^ 63 }
        ensures distinct { HasDistinctKeys self.now }
    {
        match &self.form {
            Form::Empty => 0,
            Form::Whole(table) => table.len(),
            Form::Parted(parts) => parts.len(),
        }
    }

    /// The value of a key. It takes no memory.
    pub fn get(&self, key: &Value) -> Option<&Value>
        ensures { option_copied result ≡ value_of self.now key.now }
    {
        match &self.form {
            Form::Empty => None,
            Form::Whole(table) => table.get(key),
            Form::Parted(parts) => parts.get(key),
        }
    }

    /// The key at a place.
    pub fn key_at(&self, at: usize) -> Option<&Value>
        ensures { option_copied result ≡ key_at self.now at }
    {
        match &self.form {
            Form::Empty => None,
            Form::Whole(table) => table.key_at(at),
            Form::Parted(parts) => parts.key_at(at),
        }
    }

    /// The value at a place.
    pub fn value_at(&self, at: usize) -> Option<&Value>
        ensures { option_copied result ≡ pair_value_at self.now at }
    {
        match &self.form {
            Form::Empty => None,
            Form::Whole(table) => table.value_at(at),
            Form::Parted(parts) => parts.value_at(at),
        }
    }

    /// Sets the value of a key, and gives the one before. A new key goes last, and one that is there keeps its place. After
    /// want of memory the pairs are as before.
    pub fn put(&mut self, key: Value, value: Value) -> Result<Option<Value>, AllocError>
        ensures before { IfOk result (λ before. before ≡ value_of self.old key) }
        ensures ok { OnOk result (self.new ≡ with_pair self.old key value) }
        ensures err { OnErr result (self.new ≡ self.old) }
    {
        match &mut self.form {
            Form::Whole(table) => table.put(key, value),
            Form::Parted(parts) => parts.put(key, value),
            Form::Empty => {
                let table = first_pair(self.alloc, self.seed, key, value)?;
                self.form = Form::Whole(table);
                Ok(None)
            }
        }
    }

    /// Puts further pairs in their order, at the cost of those that come, whatever is there, and keeps its own seed. After want of
    /// memory the pairs are as before.
    pub fn append(&mut self, more: Pairs) -> Result<(), AllocError>
        ensures ok { OnOk result (self.new ≡ with_pairs self.old more) }
        ensures err { OnErr result (self.new ≡ self.old) }
    {
        let Pairs {
            form,
            alloc: _,
            seed: _,
        } = more;
        match form {
            Form::Empty => Ok(()),
            Form::Whole(more) => self.append_table(Box::into_inner(more)),
            Form::Parted(more) => {
                let more = Box::into_inner(more).into_table()?;
                self.append_table(more)
            }
        }
    }

    fn append_table(&mut self, more: Table) -> Result<(), AllocError>
        ensures ok { OnOk result (self.new ≡ with_pairs self.old more) }
        ensures err { OnErr result (self.new ≡ self.old) }
    {
        match &mut self.form {
            Form::Whole(table) => table.append(more),
            Form::Parted(parts) => parts.append(more),
            Form::Empty => {
                let table = first_pairs(self.alloc, self.seed, more)?;
                self.form = Form::Whole(table);
                Ok(())
            }
        }
    }

    /// Takes a key out, and gives the value that it had; the pairs behind it move up. It takes no memory.
    pub fn cut(&mut self, key: &Value) -> Option<Value>
        ensures before { result ≡ value_of self.old key.now }
        ensures rest { self.new ≡ without_key self.old key.now }
    {
        match self.place_of(key) {
            Some(at) => match self.remove(at) {
                Some((_, value)) => Some(value),
                None => None,
            },
            None => None,
        }
    }

    fn place_of(&self, key: &Value) -> Option<usize>
        ensures found { IfSome result (λ at. StandsAt self.now key.now at) }
        ensures none { IfNone result (value_of self.now key.now ≡ None) }
        ensures distinct { HasDistinctKeys self.now }
    {
        match &self.form {
            Form::Empty => None,
            Form::Whole(table) => table.place_of(key),
            Form::Parted(parts) => parts.place_of(key),
        }
    }

    /// Takes the pair at a place out, if there is one; those behind it move up. It takes no memory.
    pub fn remove(&mut self, at: usize) -> Option<(Value, Value)>
        ensures pair { result ≡ slice_get self.old at }
        ensures rest { self.new ≡ remove self.old at }
    {
        self.open_gap(at);
        match &mut self.form {
            Form::Empty => None,
            Form::Whole(table) => table.remove(at),
            Form::Parted(parts) => parts.remove(at),
        }
    }

    // Makes a gap possible among the pairs, once it pays and where there is memory for it.
    fn open_gap(&mut self, at: usize)
        ensures { self.new ≡ self.old }
    {
        if !self.wants_gap(at) {
            return;
        }
        let empty = Table::new(self.alloc, self.seed);
        let Ok(mut parts) = Box::new(self.alloc, Parts::of(empty, self.alloc, self.seed)) else {
            return;
        };
        match replace(&mut self.form, Form::Empty) {
            Form::Whole(table) => {
                *parts = Parts::of(Box::into_inner(table), self.alloc, self.seed);
                self.form = Form::Parted(parts);
            }
            form => self.form = form,
        }
    }

    fn wants_gap(&mut self, at: usize) -> bool
        ensures { self.new ≡ self.old }
    {
        match &mut self.form {
            Form::Whole(table) => table.wants_gap(at),
            _ => false,
        }
    }
}

// A table of one pair.
fn first_pair(alloc: Global, seed: Seed, key: Value, value: Value) -> Result<Box<Table>, AllocError>
    ensures { IfOk result (λ table. table.value ≡ (key, value) ∷ []) }
{
    let mut table = Table::new(alloc, seed);
    table.put(key, value)?;
    Ok(Box::new(alloc, table)?)
}

// A table of the first pairs that come.
fn first_pairs(alloc: Global, seed: Seed, more: Table) -> Result<Box<Table>, AllocError>
    ensures { IfOk result (λ table. table.value ≡ with_pairs [] more) }
{
    let mut table = Table::new(alloc, seed);
    table.append(more)?;
    Ok(Box::new(alloc, table)?)
}
