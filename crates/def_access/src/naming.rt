//! A name behind a dot, of a value whose class is found when the script runs.
ghost use Rattle.std.specs.Prelude.{◌≡◌, [], ◌∷◌, true, IfSome, Some};
ghost use Rattle.pl_units.specs.Utf16.{units};
ghost use Rattle.allowlist.specs.Allow.{flag};
ghost use Rattle.def_access.specs.Access as spec;
ghost use Rattle.def_access.specs.Coming.{ActsAs, Comes, NameListed};

use crate::accessed::Accessed;
use crate::calling::member_at;
use allowlist::Allow;
use container_ops::{length_of, on_other_kind};
use def_resolve::{NameAccess, Place, Purpose, name_access, throw_beyond, throw_no_accessor};
use member_calls::is_built;
use number_ops::to_type;
use object_heap::{Answer, Heap};
use object_values::Value;
use pl_types::Ty;
use pl_units::UText;

// A name as a key.
fn key_of(heap: &Heap, name: &str) -> Option<Value>
    ensures { IfSome result (λ key. key ≡ Value.Str (units name.now)) }
{
    match UText::from_utf8(heap.alloc(), name) {
        Ok(text) => Some(Value::Str(text)),
        Err(_) => None,
    }
}

// A place of a list that no int reaches.
fn beyond(heap: &mut Heap, receiver: &Value, name: &str) -> Answer
    ensures { ActsAs (spec.item_beyond heap.old receiver.now name.now) heap.old heap.new result }
{
    match receiver {
        Value::Ref(id) => throw_beyond(heap, *id, name),
        _ => on_other_kind(heap),
    }
}

// ---- reading

fn read_key(heap: &mut Heap, receiver: &Value, name: &str, number: u32) -> Accessed
    ensures { Comes (spec.name_read_by heap.old receiver.now name.now (Some (NameAccess.Key number))) heap.old heap.new receiver.now [] result }
{
    if !is_built(number) {
        return Accessed::Acts(throw_no_accessor(heap, receiver, name, Purpose::Read));
    }
    match key_of(heap, name) {
        Some(key) => Accessed::CallsWith(number, key),
        None => Accessed::Acts(Answer::NoMemory),
    }
}

fn read_item(heap: &mut Heap, receiver: &Value, name: &str, number: u32, place: Place) -> Accessed
    ensures { Comes (spec.name_read_by heap.old receiver.now name.now (Some (NameAccess.Item number place))) heap.old heap.new receiver.now [] result }
{
    if !is_built(number) {
        return Accessed::Acts(throw_no_accessor(heap, receiver, name, Purpose::Read));
    }
    match place {
        Place::At(at) => Accessed::CallsWith(number, Value::Int(at)),
        Place::Beyond => Accessed::Acts(beyond(heap, receiver, name)),
    }
}

fn read_property(heap: &mut Heap, receiver: &Value, name: &str, number: u32) -> Accessed
    ensures { Comes (spec.name_read_by heap.old receiver.now name.now (Some (NameAccess.Accessor number))) heap.old heap.new receiver.now [] result }
{
    if is_built(number) {
        Accessed::Calls(number)
    } else {
        Accessed::Acts(throw_no_accessor(heap, receiver, name, Purpose::Read))
    }
}

/// What a name behind a dot comes to, by what [`name_access`] has found for it, which a caller may have kept: `x.name`.
///
/// `Calls`: the member takes the receiver alone. `CallsWith`: it takes the receiver and this argument. `Acts`: what was read or thrown,
/// as [`name_read`] says.
pub fn name_found(
    heap: &mut Heap,
    receiver: &Value,
    name: &str,
    found: Option<NameAccess>,
) -> Accessed
    ensures { Comes (spec.name_read_by heap.old receiver.now name.now found) heap.old heap.new receiver.now [] result }
{
    match found {
        Some(NameAccess::Key(number)) => read_key(heap, receiver, name, number),
        Some(NameAccess::Item(number, place)) => read_item(heap, receiver, name, number, place),
        Some(NameAccess::Accessor(number)) => read_property(heap, receiver, name, number),
        Some(NameAccess::Length) => Accessed::Acts(length_of(heap, receiver)),
        None => Accessed::Acts(throw_no_accessor(heap, receiver, name, Purpose::Read)),
    }
}

/// What a name behind a dot comes to: `x.name`. Of a map it is a key, of a list a place where it is a number, of an array its length,
/// and of all else a property.
///
/// `Calls`: the member takes the receiver alone. `CallsWith`: it takes the receiver and this argument. `Acts`: what was read or thrown:
/// of null NullPointerException; where nothing is found what [`throw_no_accessor`] throws; of a place of a list that no int reaches
/// what [`throw_beyond`] throws.
#[tactic(auto, unfolding(crate::specs::Access::name_read))]
pub fn name_read(allow: &Allow, heap: &mut Heap, receiver: &Value, name: &str) -> Accessed
    ensures { Comes (spec.name_read allow.now heap.old receiver.now name.now) heap.old heap.new receiver.now [] result }
{
    let found = name_access(allow, heap, receiver, name, Purpose::Read);
    name_found(heap, receiver, name, found)
}

// ---- writing

fn write_key(heap: &mut Heap, receiver: &Value, name: &str, value: &Value, number: u32) -> Accessed
    ensures { Comes (spec.key_put heap.old number receiver.now name.now value.now) heap.old heap.new receiver.now (value.now ∷ []) result }
{
    // The value goes to the member as it is.
    let _value = value;
    if !is_built(number) {
        return Accessed::Acts(throw_no_accessor(heap, receiver, name, Purpose::Write));
    }
    match key_of(heap, name) {
        Some(key) => Accessed::CallsWith(number, key),
        None => Accessed::Acts(Answer::NoMemory),
    }
}

fn write_item(
    heap: &mut Heap,
    receiver: &Value,
    name: &str,
    value: &Value,
    number: u32,
    place: Place,
) -> Accessed
    ensures { Comes (spec.place_put heap.old number receiver.now name.now value.now place) heap.old heap.new receiver.now (value.now ∷ []) result }
{
    // The value goes to the member as it is.
    let _value = value;
    if !is_built(number) {
        return Accessed::Acts(throw_no_accessor(heap, receiver, name, Purpose::Write));
    }
    match place {
        Place::At(at) => Accessed::CallsWith(number, Value::Int(at)),
        Place::Beyond => Accessed::Acts(beyond(heap, receiver, name)),
    }
}

// A value for a setter, cast to the type of its parameter.
fn write_cast(
    heap: &mut Heap,
    receiver: &Value,
    value: &mut Value,
    number: u32,
    of: &Ty,
) -> Accessed
    ensures { Comes (spec.property_put heap.old number receiver.now (spec.cast_to heap.old.objects value.old of.now)) heap.old heap.new receiver.now (value.new ∷ []) result }
{
    // The receiver goes to the member as it is.
    let _receiver = receiver;
    match to_type(heap, value, of, false) {
        Answer::Value(cast) => {
            *value = cast;
            Accessed::Calls(number)
        }
        Answer::Thrown(id) => Accessed::Acts(Answer::Thrown(id)),
        Answer::Room => Accessed::Acts(Answer::Room),
        Answer::NoMemory => Accessed::Acts(Answer::NoMemory),
    }
}

fn write_as(
    heap: &mut Heap,
    receiver: &Value,
    value: &mut Value,
    number: u32,
    params: &[Ty],
) -> Accessed
    ensures { Comes (spec.property_written heap.old number receiver.now value.old params.now) heap.old heap.new receiver.now (value.new ∷ []) result }
{
    match params {
        [of, ..] => write_cast(heap, receiver, value, number, of),
        [] => Accessed::Calls(number),
    }
}

fn write_property(
    allow: &Allow,
    heap: &mut Heap,
    receiver: &Value,
    name: &str,
    value: &mut Value,
    number: u32,
) -> Accessed
    requires { flag allow.now.members number ≡ true }
    ensures { Comes (spec.name_written_by allow.now heap.old receiver.now name.now value.old (Some (NameAccess.Accessor number))) heap.old heap.new receiver.now (value.new ∷ []) result }
{
    if is_built(number) {
        write_as(
            heap,
            receiver,
            value,
            number,
            member_at(allow, number).params.as_slice(),
        )
    } else {
        Accessed::Acts(throw_no_accessor(heap, receiver, name, Purpose::Write))
    }
}

/// What a value comes to that is written at a name behind a dot, by what [`name_access`] has found for it, which a caller may have
/// kept: `x.name = v`. For a setter the value is cast in place.
///
/// `Calls`: the member takes the receiver and the value as it is now. `CallsWith`: it takes the receiver, this argument and the value.
/// `Acts`: what was thrown, as [`name_written`] says.
pub fn name_put_found(
    allow: &Allow,
    heap: &mut Heap,
    receiver: &Value,
    name: &str,
    value: &mut Value,
    found: Option<NameAccess>,
) -> Accessed
    requires { NameListed allow.now found }
    ensures { Comes (spec.name_written_by allow.now heap.old receiver.now name.now value.old found) heap.old heap.new receiver.now (value.new ∷ []) result }
{
    match found {
        Some(NameAccess::Key(number)) => write_key(heap, receiver, name, value, number),
        Some(NameAccess::Item(number, place)) => {
            write_item(heap, receiver, name, value, number, place)
        }
        Some(NameAccess::Accessor(number)) => {
            write_property(allow, heap, receiver, name, value, number)
        }
        Some(NameAccess::Length) => {
            Accessed::Acts(throw_no_accessor(heap, receiver, name, Purpose::Write))
        }
        None => Accessed::Acts(throw_no_accessor(heap, receiver, name, Purpose::Write)),
    }
}

/// What a value comes to that is written at a name behind a dot: `x.name = v`. Of a map the name is a key, of a list a place where it
/// is a number, and of all else a property, for whose setter the value is cast in place.
///
/// `Calls`: the member takes the receiver and the value as it is now. `CallsWith`: it takes the receiver, this argument and the value.
/// `Acts`: what was thrown: of null NullPointerException; where nothing is found what [`throw_no_accessor`] throws; what the cast
/// throws; of a place of a list that no int reaches what [`throw_beyond`] throws.
#[tactic(auto, unfolding(crate::specs::Access::name_written))]
pub fn name_written(
    allow: &Allow,
    heap: &mut Heap,
    receiver: &Value,
    name: &str,
    value: &mut Value,
) -> Accessed
    ensures { Comes (spec.name_written allow.now heap.old receiver.now name.now value.old) heap.old heap.new receiver.now (value.new ∷ []) result }
{
    let found = name_access(allow, heap, receiver, name, Purpose::Write);
    name_put_found(allow, heap, receiver, name, value, found)
}
