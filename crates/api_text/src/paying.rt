//! How what members come to is paid, and what it changes.
ghost use Rattle.std.specs.Prelude.{◌≡◌, ◌+◌, ◌-◌, ◌<◌, ◌≤◌, ◌↔◌, IsTrue, length};
ghost use Rattle.object_heap.specs.Effects.{Answers, gives_paid};
ghost use Rattle.object_heap.specs.Objects.{with_units, renewed_by};
ghost use Rattle.object_heap.specs.Store.{with_change};
ghost use Rattle.pl_types.specs.declared.ty.Ty.TheVariants as ty;
ghost use Rattle.object_values.specs.declared.value.Value.TheVariants as v;
ghost use Rattle.object_values.specs.declared.object.Object.TheVariants as o;
ghost use Rattle.api_text.specs.Outcomes.{gives_new};

use object_heap::{Answer, Heap, HeapErr};
use object_values::{Elements, Object, Value};
use pl_types::Ty;
use pl_types::classes::STRING;

/// Adds an object, which costs its weight.
pub fn add(heap: &mut Heap, object: Object) -> Answer
    ensures { Answers (gives_new heap.old object 0) heap.old heap.new result }
{
    match heap.add(object) {
        Ok(id) => Answer::Value(Value::Ref(id)),
        Err(HeapErr::Room) => Answer::Room,
        Err(HeapErr::NoMemory) => Answer::NoMemory,
    }
}

// Whether there is room for an array of so many texts, and for the texts.
fn has_room(room: u64, made: u64, count: u64) -> bool
    ensures { IsTrue result ↔ (count + made < room) }
{
    made < room && count < room - made
}

// Takes a charge that there is room for.
#[tactic(auto, using(crate::proofs::Room::charged_surely, crate::proofs::Room::never_refused))]
fn take_charge(heap: &mut Heap, made: u64)
    requires { made ≤ heap.old.room }
    ensures { heap.new ≡ record heap.old { room = heap.old.room - made } }
{
    match heap.charge(made) {
        Ok(()) => {}
        Err(_) => {}
    }
}

// Adds an array of texts for which there is room, and takes what the texts cost.
#[tactic(auto, using(crate::proofs::Room::no_room_for_more))]
fn add_texts(heap: &mut Heap, items: Elements<Value>, made: u64) -> Answer
    requires { length items + made < heap.old.room }
    ensures { Answers (gives_new heap.old (o.Array (ty.Class STRING) items) made) heap.old heap.new result }
{
    match heap.add(Object::Array {
        elem: Ty::Class(STRING),
        items,
    }) {
        Ok(id) => {
            take_charge(heap, made);
            Answer::Value(Value::Ref(id))
        }
        Err(HeapErr::Room) => Answer::Room,
        Err(HeapErr::NoMemory) => Answer::NoMemory,
    }
}

/// Adds an array of texts that are made, which costs its weight and what they cost.
#[tactic(auto, using(crate::proofs::Room::no_room_for_array))]
pub fn pay_texts(heap: &mut Heap, items: Elements<Value>, made: u64) -> Answer
    ensures { Answers (gives_new heap.old (o.Array (ty.Class STRING) items) made) heap.old heap.new result }
{
    if has_room(heap.room_left(), made, items.len() as u64) {
        add_texts(heap, items, made)
    } else {
        drop(items);
        Answer::Room
    }
}

/// Writes units at the end of a builder, which costs what it grows by.
pub fn extend(heap: &mut Heap, builder: u32, more: &[u16]) -> Answer
    ensures { Answers (gives_paid heap.old (with_change heap.old.objects builder (with_units more.now)) (v.Ref builder)) heap.old heap.new result }
{
    match heap.append(builder, more) {
        Ok(()) => Answer::Value(Value::Ref(builder)),
        Err(HeapErr::Room) => Answer::Room,
        Err(HeapErr::NoMemory) => Answer::NoMemory,
    }
}

/// Gives a builder other units, which costs what it grows by.
pub fn renew(heap: &mut Heap, builder: u32, units: Elements<u16>, value: Value) -> Answer
    ensures { Answers (gives_paid heap.old (with_change heap.old.objects builder (renewed_by (o.Builder units))) value) heap.old heap.new result }
{
    if heap.renew(builder, Object::Builder { units }) {
        Answer::Value(value)
    } else {
        drop(value);
        Answer::Room
    }
}
