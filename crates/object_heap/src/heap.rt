//! The heap, and what each operation on it changes and costs.
ghost use Rattle.std.specs.Prelude.{◌≡◌, Some, None, [], ◌∷◌, ◌++◌, length, map, IfErr, IfOk, IfSome, OnOk, OnErr, slice_get};
ghost use Rattle.std.specs.Option.{option_copied};

use crate::changes::{
    append_objects, append_units, cut_item, cut_key, cut_pair_at, insert_item, insert_items,
    push_object, put_item, put_key, put_pairs, splice_units,
};
use crate::error::HeapErr;
use crate::front::{Front, found, open_place};
use crate::parts;
use crate::renewal::{renew_at, renewal_growth_at, retire_behind, still_retired};
use crate::weights::{
    all_within, insert_all_growth, insert_growth, put_all_growth, put_growth, splice_growth,
    units_growth, weight_within,
};
use object_values::{Elements, Guard, Object, Pairs, Seed, Target, Value};
use pl_types::Ty;
use pl_units::UText;
use std::alloc::{AllocError, Global};
use std::marker::Model;

/// The objects of a run, each by its number, and the room that is left for more. Numbers count from 0 in the order in which
/// the objects came, and no object is ever removed.
///
/// Every call answers for every number, place and kind of object: what is not there is empty or nothing, and a change that
/// does not apply changes nothing. A call that is paid takes the growth of the heap's weight from the room, and nothing where
/// it shrinks.
///
/// A heap may have frozen objects in front, which it has in common with others (`Front`): their numbers come first. Nothing changes what is
/// frozen: a change of it changes nothing, costs nothing and gives nothing.
///
/// A heap has a seed, by which maps and sets hash their keys, so that nobody who chooses keys can choose ones that collide.
pub struct Heap {
    front: Front,
    objects: Vec<Object>,
    // So many of these objects have no lambda of a script.
    settled: usize,
    room: u64,
    seed: Seed,
}

impl Model for Heap {
    ghost use Rattle.object_heap.specs.Store.{Store};
    ghost use Rattle.pl_types.specs.contracts.ty.Ty as ty;
    ghost use Rattle.std.specs.Coded.{codes};
    ghost use Rattle.std.specs.Prelude.{◌++◌};
    ghost use Rattle.object_heap.specs.Fronts.{AreRetired};

    ghost Value = { Store };

    ghost coded = { Prim.hlevel (codes, ty.the_row.coded) };

    ghost view = { λ h. record { objects = h.front ++ h.objects.items; room = h.room } };

    ghost invariant = { λ h. AreRetired h.settled h.objects.items };
}

impl Drop for Heap {
    fn drop(self) {
        let Heap {
            front: _front,
            objects: _objects,
            settled: _settled,
            room: _room,
            seed: _seed,
        } = self;
    }
}

impl Heap {
    ghost use Rattle.object_values.specs.Pairs.{value_of, key_at, pair_value_at};
    ghost use Rattle.object_heap.specs.Objects.{with_item, with_inserted, with_all_inserted, with_removed, with_put, with_all_put, with_key_cut, with_pair_cut, with_units, with_spliced, renewed_by, retired};
    ghost use Rattle.object_heap.specs.Parts.{AreFrozen, items_of, open_items_of, open_list_items_of, open_pairs_of, map_of, pairs_of, size_of, class_of, guard_of, frozen_of, changes_of, units_of, elem_of, message_of, iface_of, target_of, captures_of};
    ghost use Rattle.object_heap.specs.Store.{with_change};
    ghost use Rattle.object_heap.specs.Paying.{Pays, PaysSurely};
    ghost use Rattle.object_heap.specs.declared.error.HeapErr.TheVariants.{Room, NoMemory};

    /// No objects, and this much room. The seed is for the maps and sets that are made here. It takes no memory.
    pub fn new(alloc: Global, room: u64, seed: Seed) -> Heap
        ensures { result ≡ record { objects = []; room = room } }
    {
        Heap::over(Front::none(), alloc, room, seed)
    }

    /// These objects in front, and this much room. It takes no memory, and nothing from the room.
    #[tactic(auto, using(crate::proofs::Fronting::nothing_behind))]
    pub fn over(front: Front, alloc: Global, room: u64, seed: Seed) -> Heap
        ensures { result ≡ record { objects = front; room = room } }
    {
        Heap {
            front,
            objects: Vec::new(alloc),
            settled: 0,
            room,
            seed,
        }
    }

    /// The objects, as what other heaps have in front.
    ///
    /// # Errors
    ///
    /// Want of memory.
    #[tactic(auto, using(crate::proofs::Fronting::nothing_in_front))]
    pub fn into_front(self) -> Result<Option<Front>, AllocError>
        requires { AreFrozen self.objects }
        ensures { IfOk result (λ found. IfSome found (λ front. front ≡ self.objects)) }
    {
        let Heap {
            front,
            objects,
            settled: _settled,
            room: _room,
            seed: _seed,
        } = self;
        if front.len() > 0 {
            return Ok(None);
        }
        let alloc = *objects.allocator();
        Ok(Some(Front::of(alloc, objects)?))
    }

    /// The allocator that its objects take their memory from.
    pub fn alloc(&self) -> Global {
        *self.objects.allocator()
    }

    /// The seed of the maps and sets that are made here. No answer depends on it.
    pub fn seed(&self) -> Seed {
        self.seed
    }

    /// The room that is left.
    pub fn room_left(&self) -> u64
        ensures { result ≡ self.now.room }
    {
        self.room
    }

    /// How many objects there are, which is the number of the next one.
    pub fn len(&self) -> usize
        ensures { result ≡ length self.now.objects }
    {
        self.front.len() + self.objects.len()
    }

    /// The object of this number.
    pub fn get(&self, id: u32) -> Option<&Object>
        ensures { option_copied result ≡ slice_get self.now.objects id }
    {
        found(&self.front, self.objects.as_slice(), id)
    }

    /// Gives this much room, and every lambda of a script is gone: the script has ended, and another run is to start here. It takes the
    /// time of the objects that came since the last time.
    pub fn refill(&mut self, room: u64)
        ensures { self.new ≡ record { objects = map retired self.old.objects; room = room } }
    {
        self.settled = retire_behind(&self.front, &mut self.objects, self.settled);
        self.room = room;
    }

    /// Takes a charge from the room. This takes no memory, so Room is its only error.
    #[tactic(auto, using(crate::proofs::Paying::charged, crate::proofs::Paying::not_charged))]
    pub fn charge(&mut self, units: u64) -> Result<(), HeapErr>
        ensures paid { Pays self.old self.new self.old.objects units result }
        ensures surely { IfErr result (λ e. e ≡ Room) }
    {
        if units > self.room {
            return Err(HeapErr::Room);
        }
        self.room -= units;
        Ok(())
    }

    /// Adds an object without a charge, for what is there before a run. Its number is the count of those before it.
    pub fn place(&mut self, object: Object) -> Result<u32, AllocError>
        ensures placed { OnOk result (self.new ≡ record self.old { objects = self.old.objects ++ object ∷ [] }) }
        ensures number { IfOk result (λ id. id ≡ length self.old.objects) }
        ensures err { OnErr result (self.new ≡ self.old) }
    {
        let Ok(id) = u32::try_from(self.len()) else {
            drop(object);
            return Err(AllocError);
        };
        match push_object(&mut self.objects, object) {
            Ok(()) => Ok(id),
            Err(_) => Err(AllocError),
        }
    }

    /// Adds an object, whose number is the count of those before it.
    #[tactic(auto, using(crate::proofs::Paying::paid_if, crate::proofs::Paying::paid_not, crate::proofs::Growth::add_grows))]
    pub fn add(&mut self, object: Object) -> Result<u32, HeapErr>
        ensures pays { Pays self.old self.new (self.old.objects ++ object ∷ []) 0 result }
        ensures number { IfOk result (λ id. id ≡ length self.old.objects) }
    {
        let Some(growth) = weight_within(&object, self.room) else {
            drop(object);
            return Err(HeapErr::Room);
        };
        match self.place(object) {
            Ok(id) => {
                self.room -= growth;
                Ok(id)
            }
            Err(_) => Err(HeapErr::NoMemory),
        }
    }

    /// Adds objects, whose numbers count on from those before them.
    #[tactic(auto, using(crate::proofs::Paying::paid_if, crate::proofs::Paying::paid_not, crate::proofs::Growth::all_grow, crate::proofs::Fronting::pays_more))]
    pub fn add_all(&mut self, more: Elements<Object>) -> Result<(), HeapErr>
        ensures { Pays self.old self.new (self.old.objects ++ more) 0 result }
    {
        let Some(growth) = all_within(more.as_slice(), self.room) else {
            drop(more);
            return Err(HeapErr::Room);
        };
        match append_objects(&mut self.objects, more) {
            Ok(()) => {
                self.room -= growth;
                Ok(())
            }
            Err(_) => Err(HeapErr::NoMemory),
        }
    }

    #[tactic(auto, using(crate::proofs::Paying::paid_if, crate::proofs::Paying::paid_not, crate::proofs::Growth::renewal_grows))]
    /// Replaces an object by one of its kind with the same class, type, part or interface; a function value that has no
    /// interface may take one. An object of another kind replaces nothing. It is false exactly where the growth is above the
    /// room left, and nothing is changed then. It takes no memory.
    pub fn renew(&mut self, id: u32, object: Object) -> bool
        ensures { PaysSurely self.old self.new (with_change self.old.objects id (renewed_by object)) 0 result }
    {
        let Some(place) = open_place(&self.front, self.objects.as_slice(), id) else {
            drop(object);
            return true;
        };
        let growth = renewal_growth_at(self.objects.as_slice(), place, &object);
        if growth > self.room {
            drop(object);
            return false;
        }
        self.settled = still_retired(self.settled, place, &object);
        renew_at(&mut self.objects, place, object);
        self.room -= growth;
        true
    }

    /// Writes an item of a list or an array, and gives the one that stood there. It takes no memory.
    pub fn put(&mut self, id: u32, at: usize, value: Value) -> Option<Value>
        ensures before { result ≡ slice_get (open_items_of self.old.objects id) at }
        ensures written { self.new ≡ record self.old { objects = with_change self.old.objects id (with_item at value) } }
    {
        let Some(place) = open_place(&self.front, self.objects.as_slice(), id) else {
            drop(value);
            return None;
        };
        put_item(&mut self.objects, place, at, value)
    }

    /// Inserts an item into a list, at a place up to its size.
    #[tactic(auto, using(crate::proofs::Paying::paid_if, crate::proofs::Paying::paid_not, crate::proofs::Growth::insert_grows))]
    pub fn grow(&mut self, id: u32, at: usize, value: Value) -> Result<(), HeapErr>
        ensures { Pays self.old self.new (with_change self.old.objects id (with_inserted at value)) 0 result }
    {
        let Some(place) = open_place(&self.front, self.objects.as_slice(), id) else {
            drop(value);
            return Ok(());
        };
        let growth = insert_growth(self.objects.as_slice(), place, at);
        if growth > self.room {
            drop(value);
            return Err(HeapErr::Room);
        }
        match insert_item(&mut self.objects, place, at, value) {
            Ok(()) => {
                self.room -= growth;
                Ok(())
            }
            Err(_) => Err(HeapErr::NoMemory),
        }
    }

    /// Inserts items into a list in their order, at a place up to its size. Each of them is a change. At the end it takes the time
    /// of the items that come, whatever the list has.
    #[tactic(auto, using(crate::proofs::Paying::paid_if, crate::proofs::Paying::paid_not, crate::proofs::Growth::insert_all_grows))]
    pub fn extend(&mut self, id: u32, at: usize, more: Elements<Value>) -> Result<(), HeapErr>
        ensures { Pays self.old self.new (with_change self.old.objects id (with_all_inserted at more)) 0 result }
    {
        let Some(place) = open_place(&self.front, self.objects.as_slice(), id) else {
            drop(more);
            return Ok(());
        };
        let growth = insert_all_growth(self.objects.as_slice(), place, at, more.len());
        if growth > self.room {
            drop(more);
            return Err(HeapErr::Room);
        }
        match insert_items(&mut self.objects, place, at, more) {
            Ok(()) => {
                self.room -= growth;
                Ok(())
            }
            Err(_) => Err(HeapErr::NoMemory),
        }
    }

    /// Takes an item out of a list, and gives it; those behind it move up. It takes no memory.
    pub fn cut(&mut self, id: u32, at: usize) -> Option<Value>
        ensures item { result ≡ slice_get (open_list_items_of self.old.objects id) at }
        ensures rest { self.new ≡ record self.old { objects = with_change self.old.objects id (with_removed at) } }
    {
        let Some(place) = open_place(&self.front, self.objects.as_slice(), id) else {
            return None;
        };
        cut_item(&mut self.objects, place, at)
    }

    /// The value of a key of a map, or null of a key of a set. It takes no memory.
    pub fn map_get(&self, id: u32, key: &Value) -> Option<&Value>
        ensures { option_copied result ≡ value_of (pairs_of self.now.objects id) key.now }
    {
        match self.pairs(id) {
            Some(pairs) => pairs.get(key),
            None => None,
        }
    }

    // The value of a key of a map, or null of a key of a set, once more.
    fn value_under(&self, id: u32, key: Value) -> Result<Option<Value>, HeapErr>
        ensures value { IfOk result (λ value. value ≡ value_of (pairs_of self.now.objects id) key) }
        ensures memory { IfErr result (λ e. e ≡ NoMemory) }
    {
        match self.map_get(id, &key) {
            Some(value) => match value.share() {
                Ok(value) => Ok(Some(value)),
                Err(_) => Err(HeapErr::NoMemory),
            },
            None => Ok(None),
        }
    }

    #[tactic(auto, using(crate::proofs::Paying::paid_if, crate::proofs::Paying::paid_not, crate::proofs::Growth::put_grows))]
    /// Puts a value under a key of a map, or a key into a set, and gives the value that the key had. A new key goes last, and
    /// one that is there keeps its place. The values of a set are null, whatever value is given.
    pub fn map_put(&mut self, id: u32, key: Value, value: Value) -> Result<Option<Value>, HeapErr>
        ensures before { IfOk result (λ before. before ≡ value_of (pairs_of self.old.objects id) key) }
        ensures pays { Pays self.old self.new (with_change self.old.objects id (with_put key value)) 0 result }
    {
        let Some(place) = open_place(&self.front, self.objects.as_slice(), id) else {
            drop(value);
            return self.value_under(id, key);
        };
        let growth = put_growth(self.objects.as_slice(), place, &key);
        if growth > self.room {
            drop(key);
            drop(value);
            return Err(HeapErr::Room);
        }
        match put_key(&mut self.objects, place, key, value) {
            Ok(before) => {
                self.room -= growth;
                Ok(before)
            }
            Err(_) => Err(HeapErr::NoMemory),
        }
    }

    /// Puts pairs into a map or a set in their order: a new key goes last, and one that is there keeps its place. Each new key is
    /// a change. It takes the time of the pairs that come, whatever is there. What goes into a set has null for its values.
    #[tactic(auto, using(crate::proofs::Paying::paid_if, crate::proofs::Paying::paid_not, crate::proofs::Growth::put_all_grows))]
    pub fn map_extend(&mut self, id: u32, more: Pairs) -> Result<(), HeapErr>
        ensures { Pays self.old self.new (with_change self.old.objects id (with_all_put more)) 0 result }
    {
        let Some(place) = open_place(&self.front, self.objects.as_slice(), id) else {
            drop(more);
            return Ok(());
        };
        let growth = put_all_growth(self.objects.as_slice(), place, &more);
        if growth > self.room {
            drop(more);
            return Err(HeapErr::Room);
        }
        match put_pairs(&mut self.objects, place, more) {
            Ok(()) => {
                self.room -= growth;
                Ok(())
            }
            Err(_) => Err(HeapErr::NoMemory),
        }
    }

    /// Takes a key out of a map or a set, and gives the value that it had; the pairs behind it move up. It takes no memory.
    pub fn map_cut(&mut self, id: u32, key: &Value) -> Option<Value>
        ensures before { result ≡ value_of (open_pairs_of self.old.objects id) key.now }
        ensures rest { self.new ≡ record self.old { objects = with_change self.old.objects id (with_key_cut key.now) } }
    {
        let Some(place) = open_place(&self.front, self.objects.as_slice(), id) else {
            return None;
        };
        cut_key(&mut self.objects, place, key)
    }

    /// Takes the pair at a place out of a map or a set, and gives it; those behind it move up. It takes no memory.
    pub fn map_cut_at(&mut self, id: u32, at: usize) -> Option<(Value, Value)>
        ensures pair { result ≡ slice_get (open_pairs_of self.old.objects id) at }
        ensures rest { self.new ≡ record self.old { objects = with_change self.old.objects id (with_pair_cut at) } }
    {
        let Some(place) = open_place(&self.front, self.objects.as_slice(), id) else {
            return None;
        };
        cut_pair_at(&mut self.objects, place, at)
    }

    /// Writes units at the end of a builder.
    #[tactic(auto, using(crate::proofs::Paying::paid_if, crate::proofs::Paying::paid_not, crate::proofs::Growth::append_grows))]
    pub fn append(&mut self, id: u32, units: &[u16]) -> Result<(), HeapErr>
        ensures { Pays self.old self.new (with_change self.old.objects id (with_units units.now)) 0 result }
    {
        let Some(place) = open_place(&self.front, self.objects.as_slice(), id) else {
            return Ok(());
        };
        let growth = units_growth(self.objects.as_slice(), place, units.len());
        if growth > self.room {
            return Err(HeapErr::Room);
        }
        match append_units(&mut self.objects, place, units) {
            Ok(()) => {
                self.room -= growth;
                Ok(())
            }
            Err(_) => Err(HeapErr::NoMemory),
        }
    }

    /// Puts units in the place of those of a builder from one place up to another, if it has these places. What stands before
    /// them is not touched.
    #[tactic(auto, using(crate::proofs::Paying::paid_if, crate::proofs::Paying::paid_not, crate::proofs::Growth::splice_grows))]
    pub fn splice_units(
        &mut self,
        id: u32,
        from: usize,
        to: usize,
        units: &[u16],
    ) -> Result<(), HeapErr>
        ensures { Pays self.old self.new (with_change self.old.objects id (with_spliced from to units.now)) 0 result }
    {
        let Some(place) = open_place(&self.front, self.objects.as_slice(), id) else {
            return Ok(());
        };
        let growth = splice_growth(self.objects.as_slice(), place, from, to, units.len());
        if growth > self.room {
            return Err(HeapErr::Room);
        }
        match splice_units(&mut self.objects, place, from, to, units) {
            Ok(()) => {
                self.room -= growth;
                Ok(())
            }
            Err(_) => Err(HeapErr::NoMemory),
        }
    }

    /// The items of a list or an array.
    pub fn items(&self, id: u32) -> &[Value]
        ensures { result.now ≡ items_of self.now.objects id }
    {
        match self.get(id) {
            Some(object) => parts::items(object),
            None => &[],
        }
    }

    /// The pairs of a map, or of a set, whose values are null.
    pub fn pairs(&self, id: u32) -> Option<&Pairs>
        ensures { option_copied result ≡ map_of self.now.objects id }
    {
        match self.get(id) {
            Some(object) => parts::pairs(object),
            None => None,
        }
    }

    /// The key at a place of a map or a set.
    pub fn key_at(&self, id: u32, at: usize) -> Option<&Value>
        ensures { option_copied result ≡ key_at (pairs_of self.now.objects id) at }
    {
        match self.pairs(id) {
            Some(pairs) => pairs.key_at(at),
            None => None,
        }
    }

    /// The value at a place of a map.
    pub fn value_at(&self, id: u32, at: usize) -> Option<&Value>
        ensures { option_copied result ≡ pair_value_at (pairs_of self.now.objects id) at }
    {
        match self.pairs(id) {
            Some(pairs) => pairs.value_at(at),
            None => None,
        }
    }

    /// How many elements a list, an array, a map or a set has.
    pub fn size(&self, id: u32) -> usize
        ensures { result ≡ size_of self.now.objects id }
    {
        match self.get(id) {
            Some(object) => parts::size(object),
            None => 0,
        }
    }

    /// The class of a list, a map, a set or an exception.
    pub fn class(&self, id: u32) -> Option<u32>
        ensures { result ≡ class_of self.now.objects id }
    {
        match self.get(id) {
            Some(object) => parts::class(object),
            None => None,
        }
    }

    /// What may change a list, a map or a set.
    pub fn guard(&self, id: u32) -> Option<&Guard>
        ensures { option_copied result ≡ guard_of self.now.objects id }
    {
        match self.get(id) {
            Some(object) => parts::guard(object),
            None => None,
        }
    }

    /// Whether nothing may change the object.
    pub fn is_frozen(&self, id: u32) -> bool
        ensures { result ≡ frozen_of self.now.objects id }
    {
        match self.get(id) {
            Some(object) => parts::is_frozen(object),
            None => false,
        }
    }

    /// The change count of a list, a map or a set: it rises by 1 for each element or key that is inserted or removed, modulo
    /// 2^64.
    pub fn changes(&self, id: u32) -> u64
        ensures { result ≡ changes_of self.now.objects id }
    {
        match self.get(id) {
            Some(object) => parts::changes(object),
            None => 0,
        }
    }

    /// The units of a builder.
    pub fn units(&self, id: u32) -> &[u16]
        ensures { result.now ≡ units_of self.now.objects id }
    {
        match self.get(id) {
            Some(object) => parts::units(object),
            None => &[],
        }
    }

    /// The type of the elements of an array.
    pub fn elem(&self, id: u32) -> Option<&Ty>
        ensures { option_copied result ≡ elem_of self.now.objects id }
    {
        match self.get(id) {
            Some(object) => parts::elem(object),
            None => None,
        }
    }

    /// The message of an exception.
    pub fn message(&self, id: u32) -> Option<&UText>
        ensures { option_copied result ≡ message_of self.now.objects id }
    {
        match self.get(id) {
            Some(object) => parts::message(object),
            None => None,
        }
    }

    /// The interface of a function value, if it has taken one.
    pub fn iface(&self, id: u32) -> Option<u32>
        ensures { result ≡ iface_of self.now.objects id }
    {
        match self.get(id) {
            Some(object) => parts::iface(object),
            None => None,
        }
    }

    /// What a function value calls.
    pub fn target(&self, id: u32) -> Option<&Target>
        ensures { option_copied result ≡ target_of self.now.objects id }
    {
        match self.get(id) {
            Some(object) => parts::target(object),
            None => None,
        }
    }

    /// What a function value has captured.
    pub fn captures(&self, id: u32) -> &[Value]
        ensures { result.now ≡ captures_of self.now.objects id }
    {
        match self.get(id) {
            Some(object) => parts::captures(object),
            None => &[],
        }
    }
}
