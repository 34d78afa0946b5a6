//! Vectors that contracts see as lists.
ghost use Rattle.std.specs.Prelude.{◌≡◌, ◌+◌, ◌-◌, ◌<◌, ◌≤◌, Some, [], ◌∷◌, ◌++◌, length, take, drop, slice_get, slice_set, insert, remove, OnOk, OnErr};

use std::alloc::{AllocError, Global};
use std::marker::Model;

/// At most so many dead places stand in front of fewer elements.
const DEAD_PLACES: usize = 32;

/// A vector that contracts see as the list of its elements. Places count from 0.
///
/// Where elements go near the front, those before them move up, and the first places of the vector are dead: nothing stands
/// there that anybody sees. So elements that go one after the other from the front take the time of those elements alone. Where
/// more places are dead than elements are there, the dead places are let go.
pub struct Elements<T> {
    items: Vec<T>,
    dead: usize,
}

impl<T> Model for Elements<T> {
    ghost use Rattle.std.specs.Prelude.{List, ◌≤◌, drop, length};
    ghost use Rattle.std.specs.Coded.{coded_list};

    ghost Value = { List T };

    ghost coded = { coded_list T.code };

    ghost view = { λ e. drop e.dead e.items.items };

    ghost invariant = { λ e. e.dead ≤ length e.items.items };
}

impl<T: Drop> Drop for Elements<T> {
    fn drop(self) {
        let Elements {
            items: _items,
            dead: _dead,
        } = self;
    }
}

impl<T> Elements<T> {
    /// No elements. It takes no memory.
    pub fn new(alloc: Global) -> Elements<T>
        ensures { result ≡ [] }
    {
        Elements {
            items: Vec::new(alloc),
            dead: 0,
        }
    }

    /// The elements of a vector.
    pub fn from_vec(items: Vec<T>) -> Elements<T>
        ensures { result ≡ items.items }
    {
        Elements { items, dead: 0 }
    }

    /// The elements as a slice.
    pub fn as_slice(&self) -> &[T]
        ensures { result.now ≡ self.now }
    {
        &self.items[self.dead..]
    }

    /// How many elements there are.
    pub fn len(&self) -> usize
        ensures { result ≡ length self.now }
    {
        self.items.len() - self.dead
    }
}

impl<T: Copy> Elements<T> {
    /// Adds elements at the end. After want of memory the elements are as before.
    pub fn extend(&mut self, more: &[T]) -> Result<(), AllocError>
        ensures ok { OnOk result (self.new ≡ self.old ++ more.now) }
        ensures err { OnErr result (self.new ≡ self.old) }
    {
        self.items.extend_from_slice(more)
    }
}

impl<T: Copy + Drop> Elements<T> {
    /// Puts elements in the place of those from one place up to another. After want of memory the elements are as before.
    pub fn splice(&mut self, from: usize, to: usize, more: &[T]) -> Result<(), AllocError>
        requires ordered { from ≤ to }
        requires within { to ≤ length self.old }
        ensures ok { OnOk result (self.new ≡ take from self.old ++ more.now ++ drop to self.old) }
        ensures err { OnErr result (self.new ≡ self.old) }
    {
        insert_run(&mut self.items, self.dead + to, more)?;
        self.dead = cut_run(&mut self.items, self.dead, from, to);
        Ok(())
    }
}

impl<T: Drop> Elements<T> {
    /// The vector of the elements.
    pub fn into_vec(self) -> Vec<T>
        ensures { result.items ≡ self }
    {
        let Elements { mut items, dead } = self;
        let_go(&mut items, dead);
        items
    }

    /// Adds an element at the end. After want of memory the elements are as before.
    pub fn push(&mut self, element: T) -> Result<(), AllocError>
        ensures ok { OnOk result (self.new ≡ self.old ++ element ∷ []) }
        ensures err { OnErr result (self.new ≡ self.old) }
    {
        self.items.push(element)?;
        Ok(())
    }

    /// Inserts an element at a place. After want of memory the elements are as before.
    pub fn insert(&mut self, at: usize, element: T) -> Result<(), AllocError>
        requires { at ≤ length self.old }
        ensures ok { OnOk result (self.new ≡ insert self.old at element) }
        ensures err { OnErr result (self.new ≡ self.old) }
    {
        self.items.insert(self.dead + at, element)?;
        Ok(())
    }

    /// Inserts elements at a place, in their order. At the end it takes the time of those that come. After want of memory the
    /// elements are as before.
    pub fn insert_all(&mut self, at: usize, more: Elements<T>) -> Result<(), AllocError>
        requires { at ≤ length self.old }
        ensures ok { OnOk result (self.new ≡ take at self.old ++ more ++ drop at self.old) }
        ensures err { OnErr result (self.new ≡ self.old) }
    {
        move_in(&mut self.items, self.dead + at, more.into_vec())?;
        Ok(())
    }

    /// Writes an element at a place, and gives the one that stood there. Where there is no such place nothing changes.
    pub fn put(&mut self, at: usize, element: T) -> Option<T>
        ensures before { result ≡ slice_get self.old at }
        ensures written { self.new ≡ slice_set self.old at element }
    {
        put_in(&mut self.items[self.dead..], at, element)
    }
}

impl<T: Drop + Default> Elements<T> {
    /// Takes the element at a place out; those behind it move up, or those before it, whichever are fewer.
    pub fn remove(&mut self, at: usize) -> T
        requires { at < length self.old }
        ensures element { slice_get self.old at ≡ Some result }
        ensures rest { self.new ≡ remove self.old at }
    {
        let element = std::mem::replace(&mut self.items[self.dead + at], T::default());
        self.dead = cut_run(&mut self.items, self.dead, at, at + 1);
        element
    }
}

// Writes an element, if there is such a place.
fn put_in<T: Drop>(elements: &mut [T], at: usize, element: T) -> Option<T>
    ensures before { result ≡ slice_get elements.old at }
    ensures written { elements.new ≡ slice_set elements.old at element }
{
    if at < elements.len() {
        Some(std::mem::replace(&mut elements[at], element))
    } else {
        drop(element);
        None
    }
}

// Moves elements in at a place: they go behind the others, and then behind them those that stood from the place on.
fn move_in<T: Drop>(items: &mut Vec<T>, at: usize, mut more: Vec<T>) -> Result<(), AllocError>
    requires { at ≤ length items.old.items }
    ensures ok { OnOk result (items.new.items ≡ take at items.old.items ++ more.items ++ drop at items.old.items) }
    ensures err { OnErr result (items.new.items ≡ items.old.items) }
{
    let count = more.len();
    items.append(&mut more)?;
    items[at..].rotate_right(count);
    Ok(())
}

// The same of elements that are copied.
fn insert_run<T: Copy>(items: &mut Vec<T>, at: usize, more: &[T]) -> Result<(), AllocError>
    requires { at ≤ length items.old.items }
    ensures ok { OnOk result (items.new.items ≡ take at items.old.items ++ more.now ++ drop at items.old.items) }
    ensures err { OnErr result (items.new.items ≡ items.old.items) }
{
    items.extend_from_slice(more)?;
    items[at..].rotate_right(more.len());
    Ok(())
}

// Lets the first items go.
fn let_go<T: Drop>(items: &mut Vec<T>, count: usize)
    requires { count ≤ length items.old.items }
    ensures { items.new.items ≡ drop count items.old.items }
{
    let left = items.len() - count;
    items.rotate_left(count);
    items.truncate(left);
}

// Lets the dead places go where they are many, and says how many are left.
fn settled<T: Drop>(items: &mut Vec<T>, dead: usize) -> usize
    requires { dead ≤ length items.old.items }
    ensures within { result ≤ length items.new.items }
    ensures behind { drop result items.new.items ≡ drop dead items.old.items }
{
    if dead > DEAD_PLACES && dead > items.len() - dead {
        let_go(items, dead);
        0
    } else {
        dead
    }
}

// Moves the elements before a run up to its end; the run stands in front then.
fn turn_front<T>(elements: &mut [T], from: usize, to: usize)
    requires ordered { from ≤ to }
    requires within { to ≤ length elements.old }
    ensures length { length elements.new ≡ length elements.old }
    ensures behind { drop (to - from) elements.new ≡ take from elements.old ++ drop to elements.old }
{
    elements[..to].rotate_right(to - from);
}

// Moves the elements between the dead places and a run up to its end; the run stands behind the dead places then.
fn move_up<T>(items: &mut [T], dead: usize, from: usize, to: usize)
    requires ordered { from ≤ to }
    requires within { dead + to ≤ length items.old }
    ensures length { length items.new ≡ length items.old }
    ensures behind { drop (dead + (to - from)) items.new ≡ take from (drop dead items.old) ++ drop to (drop dead items.old) }
{
    turn_front(&mut items[dead..], from, to);
}

// Takes a run out; what is behind it moves down.
fn move_down<T: Drop>(items: &mut Vec<T>, from: usize, to: usize)
    requires ordered { from ≤ to }
    requires within { to ≤ length items.old.items }
    ensures { items.new.items ≡ take from items.old.items ++ drop to items.old.items }
{
    let left = items.len() - (to - from);
    items[from..].rotate_left(to - from);
    items.truncate(left);
}

// Takes a run out of the items behind the dead places. The shorter side moves. It says how many places are dead then.
fn cut_run<T: Drop>(items: &mut Vec<T>, dead: usize, from: usize, to: usize) -> usize
    requires ordered { from ≤ to }
    requires within { dead + to ≤ length items.old.items }
    ensures within { result ≤ length items.new.items }
    ensures rest { drop result items.new.items ≡ take from (drop dead items.old.items) ++ drop to (drop dead items.old.items) }
{
    if from < items.len() - dead - to {
        move_up(items.as_mut_slice(), dead, from, to);
        settled(items, dead + (to - from))
    } else {
        move_down(items, dead + from, dead + to);
        settled(items, dead)
    }
}
