//! The traps of a function, indexed so that an exception finds its handler without a walk over all of them.
ghost use Rattle.std.specs.Prelude.{◌≡◌, ◌≤◌, ◌<◌, ℕ, true, false, map, find, length, slice_get, ◌+◌, ◌^◌, Some, IfOk, OnSome};
ghost use Rattle.std.specs.Option.{option_copied};
ghost use Rattle.machine_parts.specs.declared.handlers.LinkedTrap.{LinkedTrap};
ghost use Rattle.code_meaning.specs.Machine as spec;
ghost use Rattle.machine_parts.specs.Handlers.{AreFirst, AreNext, IsNext, NoneMeets, catches, covers, line_of, linked, meets};
ghost use Rattle.machine_parts.specs.Worlds.{world_of};

use crate::world::World;
use object_values::Object;
use pl_code::Trap;
use pl_types::{class_below, class_of_full_name};
use plain_data::Items;
use std::alloc::{AllocError, Global};
use std::marker::Model;

/// How many lines share one entry of the index.
const BLOCK: usize = 64;

/// How many traps are looked at for the next one that has lines in common with a trap.
const FAR: usize = 256;

/// A trap whose class was found.
#[derive(Clone, Copy)]
pub struct LinkedTrap {
    /// The first line.
    pub from: u32,
    /// The line behind the last.
    pub to: u32,
    /// Where an exception goes on.
    pub at: u32,
    /// The number of the class. `None` where there is no class of its name.
    pub class: Option<u32>,
}

/// The traps of a function, in order. Contracts see their list.
#[derive(Drop)]
pub struct Handlers {
    traps: Vec<LinkedTrap>,
    /// For each block of lines the place from which its traps are looked at: those before it have no line of the block.
    firsts: Items<usize>,
    /// For each trap the place from which those behind it are looked at: those between have no line in common with it.
    nexts: Items<usize>,
}

impl Model for Handlers {
    ghost use Rattle.machine_parts.specs.Handlers.{AreFirst, AreNext};
    ghost use Rattle.machine_parts.specs.declared.handlers.LinkedTrap.{LinkedTrap};
    ghost use Rattle.std.specs.Prelude.{List};

    ghost Value = { List LinkedTrap };

    ghost view = { λ h. h.traps.items };

    ghost invariant = { λ h. AreFirst h.traps.items h.firsts × AreNext h.traps.items h.nexts };
}

impl Handlers {
    /// The traps of a function that has so many lines.
    ///
    /// # Errors
    ///
    /// Want of memory.
    pub fn new(alloc: Global, traps: &[Trap], lines: usize) -> Result<Handlers, AllocError>
        ensures { IfOk result (λ handlers. handlers ≡ map linked traps.now) }
    {
        let traps = linked_all(alloc, traps)?;
        let firsts = firsts_of(alloc, traps.as_slice(), lines)?;
        let nexts = nexts_of(alloc, traps.as_slice())?;
        Ok(Handlers {
            traps,
            firsts,
            nexts,
        })
    }

    /// The line at which an exception of this number goes on that is thrown at a line: that of the first trap over the line whose
    /// class is the exception's or above it.
    pub fn landing(&self, line: usize, id: u32, world: &World) -> Option<u32>
        ensures { result ≡ line_of (find (catches line id (world_of world.now)) self.now) }
    {
        let mut place = self.first(line);
        'traps: loop {
            match self.trap(place) {
                Some(trap) => {
                    if !trap.covers(line) {
                        place += 1;
                    } else if is_instance(trap.class, id, world) {
                        return Some(trap.at);
                    } else {
                        place = self.next(place);
                    }
                }
                None => return None,
            }
        }
    }

    // The trap at a place.
    fn trap(&self, place: usize) -> Option<&LinkedTrap>
        ensures value { option_copied result ≡ slice_get self.now place }
        ensures within { OnSome result (place < length self.now) }
        ensures next { OnSome result (place + 1 < 2 ^ 64) }
    {
        self.traps.get(place)
    }

    // The place from which the traps over a line are looked at.
    #[tactic(auto, using(crate::proofs::Handling::first_is))]
    fn first(&self, line: usize) -> usize
        ensures { (place : ℕ) (trap : LinkedTrap) → place < result → slice_get self.now place ≡ Some trap → covers line trap ≡ false }
    {
        match self.firsts.get(line / BLOCK) {
            Some(place) => *place,
            None => 0,
        }
    }

    // The place from which the traps over the lines of the one at a place are looked at.
    #[tactic(auto, using(crate::proofs::Handling::next_is))]
    fn next(&self, place: usize) -> usize
        requires { place < length self.now }
        ensures behind { place < result }
        ensures none { (line between : ℕ) (over trap : LinkedTrap) → slice_get self.now place ≡ Some over → covers line over ≡ true → place < between → between < result → slice_get self.now between ≡ Some trap → covers line trap ≡ false }
    {
        match self.nexts.get(place) {
            Some(next) => *next,
            None => place + 1,
        }
    }
}

impl LinkedTrap {
    // Whether it is over a line.
    fn covers(&self, line: usize) -> bool
        ensures { result ≡ covers line self.now }
    {
        self.from as usize <= line && line < self.to as usize
    }

    // Whether it has one of the lines from a line on, before another.
    fn meets(&self, from: usize, to: usize) -> bool
        ensures { result ≡ meets from to self.now }
    {
        (self.from as usize) < to && from < self.to as usize
    }
}

// Whether the object of a number is an exception of a class.
#[tactic(auto, unfolding(code_meaning::specs::Machine::is_instance, code_meaning::specs::Machine::exception_is))]
fn is_instance(class: Option<u32>, id: u32, world: &World) -> bool
    ensures { result ≡ spec.is_instance class id (world_of world.now) }
{
    match class {
        Some(class) => match world.heap.get(id) {
            Some(Object::Exc { class: raised, .. }) => class_below(*raised, class),
            _ => false,
        },
        None => false,
    }
}

fn linked_all(alloc: Global, traps: &[Trap]) -> Result<Vec<LinkedTrap>, AllocError>
    ensures { IfOk result (λ all. all.items ≡ map linked traps.now) }
{
    let mut all = Vec::new(alloc);
    for trap in traps {
        all.push(linked(trap))?;
    }
    Ok(all)
}

fn linked(trap: &Trap) -> LinkedTrap
    ensures { result ≡ linked trap.now }
{
    LinkedTrap {
        from: trap.from,
        to: trap.to,
        at: trap.at,
        class: class_of_full_name(trap.class.as_str()),
    }
}

// For each block of lines the place of the first trap that has one of them.
fn firsts_of(alloc: Global, traps: &[LinkedTrap], lines: usize) -> Result<Items<usize>, AllocError>
    ensures { IfOk result (λ firsts. AreFirst traps.now firsts) }
{
    let mut firsts = Items::new(alloc);
    if traps.len() == 0 {
        return Ok(firsts);
    }
    for block in 0..(lines / BLOCK).min(u32::MAX as usize) + 1 {
        let from = block * BLOCK;
        firsts.push(first_that_meets(traps, 0, traps.len(), from, from + BLOCK))?;
    }
    Ok(firsts)
}

// For each trap the place of the next one that has lines in common with it, or of one before that.
fn nexts_of(alloc: Global, traps: &[LinkedTrap]) -> Result<Items<usize>, AllocError>
    ensures { IfOk result (λ nexts. AreNext traps.now nexts) }
{
    let mut nexts = Items::new(alloc);
    for place in 0..traps.len() {
        nexts.push(next_of(traps, place))?;
    }
    Ok(nexts)
}

fn next_of(traps: &[LinkedTrap], place: usize) -> usize
    requires { place < length traps.now }
    ensures { IsNext traps.now place result }
{
    let trap = &traps[place];
    let end = traps.len().min(place.saturating_add(FAR));
    first_that_meets(traps, place + 1, end, trap.from as usize, trap.to as usize)
}

// The place of the first trap from a place on that has one of these lines. Where none before the end has, it is the end.
fn first_that_meets(traps: &[LinkedTrap], start: usize, end: usize, from: usize, to: usize) -> usize
    requires { end ≤ length traps.now }
    ensures behind { start ≤ result }
    ensures none { NoneMeets traps.now start result from to }
{
    'traps: for place in start..end {
        if traps[place].meets(from, to) {
            return place;
        }
    }
    start.max(end)
}
