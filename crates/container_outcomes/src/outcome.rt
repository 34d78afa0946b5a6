//! What members of containers come to, and how that is paid.
ghost use Rattle.std.specs.Prelude.{◌≡◌};
ghost use Rattle.object_heap.specs.Effects.{Answers};
ghost use Rattle.container_outcomes.specs.declared.outcome.Outcome.{Outcome};
ghost use Rattle.container_outcomes.specs.Outcomes as spec;
ghost use Rattle.container_outcomes.specs.Outcomes.{effect, Tells, WantsMemory};

use crate::paying::{
    add_all_keys, add_key, add_made, add_object, cut, cut_key, cut_pair, drop_at, drop_key, empty,
    extend, insert, put, put_all, renew, set, set_two,
};
use member_arguments::pay_text;
use object_heap::{Answer, Heap, throw};
use object_values::{Elements, Object, Pairs, Value};
use pl_types::classes::{
    ARRAY_INDEX_OUT_OF_BOUNDS_EXCEPTION, CLASS_CAST_EXCEPTION, CONCURRENT_MODIFICATION_EXCEPTION,
    ILLEGAL_ARGUMENT_EXCEPTION, ILLEGAL_STATE_EXCEPTION, INDEX_OUT_OF_BOUNDS_EXCEPTION,
    NO_SUCH_ELEMENT_EXCEPTION, NULL_POINTER_EXCEPTION, UNSUPPORTED_OPERATION_EXCEPTION,
};
use pl_units::UText;

/// The class of an exception that a member of a container throws.
#[derive(Clone, Copy)]
pub enum Raised {
    ArrayIndexOutOfBounds,
    ClassCast,
    ConcurrentModification,
    IllegalArgument,
    IllegalState,
    IndexOutOfBounds,
    NoSuchElement,
    NullPointer,
    UnsupportedOperation,
}

impl Raised {
    /// Its number in the catalogue.
    pub fn number(self) -> u32
        ensures { result ≡ spec.number_of self }
    {
        match self {
            Raised::ArrayIndexOutOfBounds => ARRAY_INDEX_OUT_OF_BOUNDS_EXCEPTION,
            Raised::ClassCast => CLASS_CAST_EXCEPTION,
            Raised::ConcurrentModification => CONCURRENT_MODIFICATION_EXCEPTION,
            Raised::IllegalArgument => ILLEGAL_ARGUMENT_EXCEPTION,
            Raised::IllegalState => ILLEGAL_STATE_EXCEPTION,
            Raised::IndexOutOfBounds => INDEX_OUT_OF_BOUNDS_EXCEPTION,
            Raised::NoSuchElement => NO_SUCH_ELEMENT_EXCEPTION,
            Raised::NullPointer => NULL_POINTER_EXCEPTION,
            Raised::UnsupportedOperation => UNSUPPORTED_OPERATION_EXCEPTION,
        }
    }
}

/// What a member comes to, before it is paid. Lists, sets and maps go by their numbers.
pub enum Outcome {
    /// A value that is there already.
    Gives(Value),
    /// A text that was made, which is the value.
    Writes(UText),
    /// A new object, which is the value.
    New(Object),
    /// New objects, and behind them the one that is the value.
    Makes(Elements<Object>, Object),
    /// An item is inserted into a list at a place; and the value.
    Inserts(u32, usize, Value, Value),
    /// Items are inserted into a list from a place on; and the value.
    Extends(u32, usize, Elements<Value>, Value),
    /// An item is set at a place; the one that stood there is the value.
    Sets(u32, usize, Value),
    /// An item is set at a place, and then another at another; the value is null.
    SetsTwo(u32, usize, Value, usize, Value),
    /// The item at a place is taken out, and is the value.
    Cuts(u32, usize),
    /// The item at a place is taken out; the value is true.
    Drops(u32, usize),
    /// A value goes under a key of a map; what the key had, or null, is the value.
    Puts(u32, Value, Value),
    /// A key goes into a set; the value is whether it was not there.
    Adds(u32, Value),
    /// Pairs go into a map, in their order; the value is null.
    PutsAll(u32, Pairs),
    /// Keys, which have null, go into a set, in their order; the value is whether any was not there.
    AddsAll(u32, Pairs),
    /// A key is taken out; what it had, or null, is the value.
    CutsKey(u32, Value),
    /// A key is taken out; the value is whether it was there.
    DropsKey(u32, Value),
    /// The same for the key of an entry, which is copied.
    DropsEntry(u32, Value),
    /// The pair at a place is taken out; the value is true.
    CutsPair(u32, usize),
    /// A list, a map or a set without elements takes the place of another of its kind and class; the value is null.
    Empties(u32, Object),
    /// A list, a map or a set takes the place of another of its kind and class; and the value.
    Becomes(u32, Object, Value),
    /// An exception with a message or none is thrown.
    Throws(Raised, Option<UText>),
    /// There was no memory.
    NoMemory,
}

impl Drop for Outcome {
    fn drop(self) {
        match self {
            Outcome::Gives(_value) => {}
            Outcome::Writes(_text) => {}
            Outcome::New(_object) => {}
            Outcome::Makes(_before, _object) => {}
            Outcome::Inserts(_list, _at, _item, _value) => {}
            Outcome::Extends(_list, _at, _items, _value) => {}
            Outcome::Sets(_list, _at, _item) => {}
            Outcome::SetsTwo(_list, _at, _item, _other_at, _other) => {}
            Outcome::Cuts(_list, _at) => {}
            Outcome::Drops(_list, _at) => {}
            Outcome::Puts(_map, _key, _value) => {}
            Outcome::Adds(_set, _key) => {}
            Outcome::PutsAll(_map, _pairs) => {}
            Outcome::AddsAll(_set, _keys) => {}
            Outcome::CutsKey(_map, _key) => {}
            Outcome::DropsKey(_map, _key) => {}
            Outcome::DropsEntry(_map, _key) => {}
            Outcome::CutsPair(_map, _at) => {}
            Outcome::Empties(_id, _object) => {}
            Outcome::Becomes(_id, _object, _value) => {}
            Outcome::Throws(_raised, _message) => {}
            Outcome::NoMemory => {}
        }
    }
}

impl Outcome {
    /// Pays for it, and changes the heap.
    pub fn settle(self, heap: &mut Heap) -> Answer
        ensures does { (told : Outcome) → Tells told self → Answers (effect heap.old told) heap.old heap.new result }
        ensures memory { (told : Outcome) → Tells told self → WantsMemory told result }
    {
        match self {
            Outcome::Gives(value) => Answer::Value(value),
            Outcome::Writes(text) => pay_text(heap, text),
            Outcome::New(object) => add_object(heap, object),
            Outcome::Makes(before, object) => add_made(heap, before, object),
            Outcome::Inserts(list, at, item, value) => insert(heap, list, at, item, value),
            Outcome::Extends(list, at, items, value) => extend(heap, list, at, items, value),
            Outcome::Sets(list, at, item) => set(heap, list, at, item),
            Outcome::SetsTwo(list, at, item, other_at, other) => set_two(
                heap, list, at, item, other_at, other,
            ),
            Outcome::Cuts(list, at) => cut(heap, list, at),
            Outcome::Drops(list, at) => drop_at(heap, list, at),
            Outcome::Puts(map, key, value) => put(heap, map, key, value),
            Outcome::Adds(set, key) => add_key(heap, set, key),
            Outcome::PutsAll(map, pairs) => put_all(heap, map, pairs),
            Outcome::AddsAll(set, keys) => add_all_keys(heap, set, keys),
            Outcome::CutsKey(map, key) => cut_key(heap, map, &key),
            Outcome::DropsKey(map, key) => drop_key(heap, map, &key),
            Outcome::DropsEntry(map, key) => drop_key(heap, map, &key),
            Outcome::CutsPair(map, at) => cut_pair(heap, map, at),
            Outcome::Empties(id, object) => empty(heap, id, object),
            Outcome::Becomes(id, object, value) => renew(heap, id, object, value),
            Outcome::Throws(raised, message) => throw(heap, raised.number(), message),
            Outcome::NoMemory => Answer::NoMemory,
        }
    }
}
