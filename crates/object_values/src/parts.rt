//! Pairs in three hash tables, out of which many are taken one after the other in time that grows as their number.
ghost use Rattle.std.specs.Prelude.{◌≡◌, ◌<◌, ◌^◌, ◌++◌, IfNone, IfOk, IfSome, OnOk, OnErr, IsTrue, length, reverse, slice_get, remove};
ghost use Rattle.std.specs.Option.{option_copied};
ghost use Rattle.object_values.specs.Pairs.{AreNew};

use crate::seed::Seed;
use crate::table::{PATIENCE, Table};
use crate::value::Value;
use std::alloc::{AllocError, Global};
use std::marker::Model;
use std::mem::swap;

/// Three tables have no more pairs than one can have.
const MOST: usize = 9 << 28;

/// Pairs with a gap among them: those before it, those behind it in reverse, and those that came since. A pair beside the gap
/// is the last of its table, and goes at the cost of one. Contracts see the list of the pairs.
///
/// The gap lies where pairs are taken out. It is brought to another place once as much as that costs was spent on pairs that
/// moved up. So pairs that are taken from the front, with others put at the end, and those that one walk from the front to the end
/// takes out, cost a fixed time each.
pub struct Parts {
    before: Table,
    behind: Table,
    tail: Table,
    // How many pairs moved up since the gap came to its place.
    moved: usize,
}

impl Model for Parts {
    ghost use Rattle.std.specs.Prelude.{List};
    ghost use Rattle.object_values.specs.declared.value.Value.{Value as declared};
    ghost use Rattle.object_values.specs.Parts.{joined, AreCounted};

    ghost Value = { List (declared × declared) };

    ghost view = { λ p. joined p.before p.behind p.tail };

    ghost invariant = { λ p. AreCounted (joined p.before p.behind p.tail) };
}

impl Drop for Parts {
    fn drop(self) {
        let Parts {
            before: _before,
            behind: _behind,
            tail: _tail,
            moved: _,
        } = self;
    }
}

impl Parts {
    ghost use Rattle.object_values.specs.Pairs.{value_of, with_pair, with_pairs, HasDistinctKeys, key_at, pair_value_at, StandsAt};

    /// These pairs, with the gap behind the last. It takes no memory.
    pub fn of(pairs: Table, alloc: Global, seed: Seed) -> Parts
        ensures { result ≡ pairs }
    {
        // The count says that it fits, and that no key is there twice.
        let _count = pairs.len();
        Parts {
            before: pairs,
            behind: Table::new(alloc, seed),
            tail: Table::new(alloc, seed),
            moved: 0,
        }
    }

    /// How many pairs there are.
    pub fn len(&self) -> usize
        ensures value { result ≡ length self.now }
        ensures fits { length self.now < 2 ^ 63 }
        ensures distinct { HasDistinctKeys self.now }
    {
        self.before.len() + self.behind.len() + self.tail.len()
    }

    /// The value of a key. It takes no memory.
    pub fn get(&self, key: &Value) -> Option<&Value>
        ensures { option_copied result ≡ value_of self.now key.now }
    {
        match self.before.get(key) {
            Some(value) => Some(value),
            None => match self.behind.get(key) {
                Some(value) => Some(value),
                None => self.tail.get(key),
            },
        }
    }

    /// The place of a key.
    pub fn place_of(&self, key: &Value) -> Option<usize>
        ensures found { IfSome result (λ at. StandsAt self.now key.now at) }
        ensures none { IfNone result (value_of self.now key.now ≡ None) }
        ensures distinct { HasDistinctKeys self.now }
    {
        let before = self.before.len();
        let behind = self.behind.len();
        match self.before.place_of(key) {
            Some(at) => Some(at),
            None => match self.behind.place_of(key) {
                Some(back) => Some(before + (behind - 1 - back)),
                None => match self.tail.place_of(key) {
                    Some(at) => Some(before + behind + at),
                    None => None,
                },
            },
        }
    }

    // The table in which the pair at a place stands, and its place there.
    fn part_at(&self, at: usize) -> (&Table, usize)
        ensures { slice_get result.0.now result.1 ≡ slice_get self.now at }
    {
        let before = self.before.len();
        if at < before {
            return (&self.before, at);
        }
        let behind = self.behind.len();
        if at - before < behind {
            return (&self.behind, behind - 1 - (at - before));
        }
        (&self.tail, at - before - behind)
    }

    /// The key at a place.
    pub fn key_at(&self, at: usize) -> Option<&Value>
        ensures { option_copied result ≡ key_at self.now at }
    {
        let (part, at) = self.part_at(at);
        part.key_at(at)
    }

    /// The value at a place.
    pub fn value_at(&self, at: usize) -> Option<&Value>
        ensures { option_copied result ≡ pair_value_at self.now at }
    {
        let (part, at) = self.part_at(at);
        part.value_at(at)
    }

    /// Sets the value of a key, and gives the one before. A new key goes last, and one that is there keeps its place. After
    /// want of memory the pairs are as before.
    pub fn put(&mut self, key: Value, value: Value) -> Result<Option<Value>, AllocError>
        ensures before { IfOk result (λ before. before ≡ value_of self.old key) }
        ensures ok { OnOk result (self.new ≡ with_pair self.old key value) }
        ensures err { OnErr result (self.new ≡ self.old) }
    {
        let count = self.len();
        if self.before.has(&key) {
            return self.before.put(key, value);
        }
        if self.behind.has(&key) {
            return self.behind.put(key, value);
        }
        if count >= MOST {
            return Err(AllocError);
        }
        self.tail.put(key, value)
    }

    /// Puts further pairs in their order. Where none of their keys stands beside the gap that is at the cost of those that come, and
    /// else of all. After want of memory the pairs are as before.
    pub fn append(&mut self, more: Table) -> Result<(), AllocError>
        ensures ok { OnOk result (self.new ≡ with_pairs self.old more) }
        ensures err { OnErr result (self.new ≡ self.old) }
    {
        let count = self.len();
        let coming = more.len();
        if count + coming < MOST && are_new(&self.before, &self.behind, &more) {
            return self.tail.append(more);
        }
        self.append_closed(more)
    }

    // Puts further pairs, once the gap lies behind all.
    fn append_closed(&mut self, more: Table) -> Result<(), AllocError>
        ensures ok { OnOk result (self.new ≡ with_pairs self.old more) }
        ensures err { OnErr result (self.new ≡ self.old) }
    {
        self.close();
        if self.behind.len() > 0 || self.tail.len() > 0 {
            return Err(AllocError);
        }
        self.before.append(more)?;
        let _count = self.before.len();
        Ok(())
    }

    /// The pairs in one table.
    pub fn into_table(self) -> Result<Table, AllocError>
        ensures { IfOk result (λ table. table ≡ self) }
    {
        let mut parts = self;
        parts.close();
        parts.into_first()
    }

    // The first table, where no pairs are in the others.
    fn into_first(self) -> Result<Table, AllocError>
        ensures { IfOk result (λ table. table ≡ self) }
    {
        let Parts {
            before,
            behind,
            tail,
            moved: _,
        } = self;
        if behind.len() > 0 || tail.len() > 0 {
            return Err(AllocError);
        }
        Ok(before)
    }

    /// Takes the pair at a place out, if there is one; those behind it move up. It takes no memory.
    pub fn remove(&mut self, at: usize) -> Option<(Value, Value)>
        ensures pair { result ≡ slice_get self.old at }
        ensures rest { self.new ≡ remove self.old at }
    {
        self.bring_gap(at);
        self.take(at)
    }

    // The same, wherever the gap lies.
    fn take(&mut self, at: usize) -> Option<(Value, Value)>
        ensures pair { result ≡ slice_get self.old at }
        ensures rest { self.new ≡ remove self.old at }
    {
        let before = self.before.len();
        if at < before {
            return self.before.remove(at);
        }
        let behind = self.behind.len();
        if at - before < behind {
            return self.behind.remove(behind - 1 - (at - before));
        }
        self.tail.remove(at - before - behind)
    }

    // Brings the gap to a place where a pair is to be taken out, once that pays.
    fn bring_gap(&mut self, at: usize)
        ensures { self.new ≡ self.old }
    {
        if self.pays(at) {
            self.take_tail(at);
            self.move_gap(at);
        }
    }

    // Whether as much was spent on pairs that moved up as it costs to bring the gap to a place.
    fn pays(&mut self, at: usize) -> bool
        ensures { self.new ≡ self.old }
    {
        let (move_up, carried) = self.costs(at);
        self.moved = self.moved.saturating_add(move_up);
        if carried == 0 || self.moved / PATIENCE < carried {
            return false;
        }
        self.moved = 0;
        true
    }

    // How many pairs move up when the one at a place is taken out as the gap lies, and how many are carried when the gap is brought
    // there.
    fn costs(&self, at: usize) -> (usize, usize) {
        let before = self.before.len();
        if at < before {
            return (before - 1 - at, before - 1 - at);
        }
        let behind = self.behind.len();
        if at - before < behind {
            return (at - before, at - before);
        }
        let tail = self.tail.len();
        (tail.saturating_sub(at - before - behind), behind + tail)
    }

    // Moves the gap so that the pair at a place lies beside it, where that is before the tail.
    fn move_gap(&mut self, at: usize)
        ensures { self.new ≡ self.old }
    {
        let before = self.before.len();
        if at < before {
            self.before.carry(&mut self.behind, before - 1 - at);
        } else if at - before < self.behind.len() {
            self.behind.carry(&mut self.before, at - before);
        }
    }

    // Moves the gap to the end of the parts beside it, and takes the tail behind it, where a place lies in the tail.
    fn take_tail(&mut self, at: usize)
        ensures { self.new ≡ self.old }
    {
        let count = self.behind.len();
        if at < self.before.len() + count {
            return;
        }
        self.behind.carry(&mut self.before, count);
        if self.behind.len() == 0 {
            self.tail.reverse();
            swap(&mut self.behind, &mut self.tail);
        }
    }

    // Carries all pairs before the gap, where there is memory for them.
    fn close(&mut self)
        ensures { self.new ≡ self.old }
    {
        self.take_tail(usize::MAX);
        let count = self.behind.len();
        self.behind.carry(&mut self.before, count);
    }
}

// Whether none of some keys stands beside a gap.
fn are_new(before: &Table, behind: &Table, more: &Table) -> bool
    ensures { IsTrue result → AreNew (before.now ++ reverse behind.now) more.now }
{
    for at in 0..more.len() {
        match more.key_at(at) {
            Some(key) => {
                if before.has(key) || behind.has(key) {
                    return false;
                }
            }
            None => return false,
        }
    }
    true
}
