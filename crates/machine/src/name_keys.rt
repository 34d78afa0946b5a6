//! A name behind the dot of a map, which is a key: its text is shared, and not made anew at each access.
ghost use Rattle.std.specs.Prelude.{◌≡◌, [], ◌∷◌, Some};
ghost use Rattle.object_values.specs.Utf16.{units};
ghost use Rattle.def_access.specs.Access.{name_read_by, name_written_by};
ghost use Rattle.def_access.specs.Coming.{Comes, NameListed};

use allowlist::Allow;
use def_access::{Accessed, is_built};
use machine_parts::NameAccess;
use object_heap::{Answer, Heap};
use object_values::{UText, Value};

/// What a name that is read comes to, by what was found for it. The units of the name are shared where it is a key.
pub fn name_found(
    heap: &mut Heap,
    receiver: &Value,
    name: &str,
    shared: &UText,
    found: Option<NameAccess>,
) -> Accessed
    requires { shared.now ≡ units name.now }
    ensures { Comes (name_read_by heap.old receiver.now name.now found) heap.old heap.new receiver.now [] result }
{
    match found {
        Some(NameAccess::Key(number)) => read_key(heap, receiver, name, shared, number),
        other => def_access::name_found(heap, receiver, name, other),
    }
}

fn read_key(heap: &mut Heap, receiver: &Value, name: &str, shared: &UText, number: u32) -> Accessed
    requires { shared.now ≡ units name.now }
    ensures { Comes (name_read_by heap.old receiver.now name.now (Some (NameAccess.Key number))) heap.old heap.new receiver.now [] result }
{
    if !is_built(number) {
        return def_access::name_found(heap, receiver, name, Some(NameAccess::Key(number)));
    }
    match shared.share() {
        Ok(key) => Accessed::CallsWith(number, Value::Str(key)),
        Err(_) => Accessed::Acts(Answer::NoMemory),
    }
}

/// What a value comes to that is written at a name, by what was found for it. For a setter the value is cast in place.
pub fn name_put_found(
    allow: &Allow,
    heap: &mut Heap,
    receiver: &Value,
    name: &str,
    shared: &UText,
    value: &mut Value,
    found: Option<NameAccess>,
) -> Accessed
    requires listed { NameListed allow.now found }
    requires shared { shared.now ≡ units name.now }
    ensures { Comes (name_written_by allow.now heap.old receiver.now name.now value.old found) heap.old heap.new receiver.now (value.new ∷ []) result }
{
    match found {
        Some(NameAccess::Key(number)) => {
            write_key(allow, heap, receiver, name, shared, value, number)
        }
        other => def_access::name_put_found(allow, heap, receiver, name, value, other),
    }
}

fn write_key(
    allow: &Allow,
    heap: &mut Heap,
    receiver: &Value,
    name: &str,
    shared: &UText,
    value: &mut Value,
    number: u32,
) -> Accessed
    requires { shared.now ≡ units name.now }
    ensures { Comes (name_written_by allow.now heap.old receiver.now name.now value.old (Some (NameAccess.Key number))) heap.old heap.new receiver.now (value.new ∷ []) result }
{
    if !is_built(number) {
        let found = Some(NameAccess::Key(number));
        return def_access::name_put_found(allow, heap, receiver, name, value, found);
    }
    match shared.share() {
        Ok(key) => Accessed::CallsWith(number, Value::Str(key)),
        Err(_) => Accessed::Acts(Answer::NoMemory),
    }
}
