//! A heap with objects of each kind.
use object_heap::Heap;
use object_values::{Elements, Guard, Object, Pairs, Part, Seed, Target, Value};
use pl_types::classes::{ARRAY_LIST, EXCEPTION, HASH_MAP, HASH_SET};
use pl_types::{Primitive, Ty};
use pl_units::UText;
use std::alloc::{AllocError, Global};

fn text(alloc: Global, text: &str) -> Result<Value, AllocError> {
    Ok(Value::Str(UText::from_utf8(alloc, text)?))
}

/// A text of one unit.
fn unit(alloc: Global, unit: u16) -> Result<Value, AllocError> {
    Ok(Value::Str(UText::from_slice(alloc, &[unit])?))
}

/// A list of some values.
pub fn list(items: Elements<Value>) -> Object {
    Object::List {
        class: ARRAY_LIST,
        items,
        guard: Guard::Open,
        changes: 0,
    }
}

/// A list of two values.
fn pair(alloc: Global, first: Value, second: Value) -> Result<Object, AllocError> {
    let mut items = Elements::new(alloc);
    items.push(first)?;
    items.push(second)?;
    Ok(list(items))
}

fn map(pairs: Pairs) -> Object {
    Object::Map {
        class: HASH_MAP,
        pairs,
        guard: Guard::Frozen,
        changes: 0,
    }
}

fn put(pairs: &mut Pairs, key: Result<Value, AllocError>, value: Value) -> Result<(), AllocError> {
    pairs.put(key?, value)?;
    Ok(())
}

/// A map of two pairs.
fn map_of(
    alloc: Global,
    key: Result<Value, AllocError>,
    value: Value,
    other: Result<Value, AllocError>,
    more: Value,
) -> Result<Object, AllocError> {
    let mut pairs = Pairs::new(alloc, Seed::of(b"test"));
    put(&mut pairs, key, value)?;
    put(&mut pairs, other, more)?;
    Ok(map(pairs))
}

// 0: a list of each kind of value, but for objects.
fn plain_values(alloc: Global) -> Result<Object, AllocError> {
    let mut items = Elements::new(alloc);
    items.push(Value::Long(1))?;
    items.push(Value::Char(97))?;
    items.push(Value::Null)?;
    items.push(Value::Bool(true))?;
    items.push(Value::Byte(-2))?;
    items.push(Value::Short(3))?;
    Ok(list(items))
}

// 2: a set.
fn set(alloc: Global) -> Result<Object, AllocError> {
    let mut items = Pairs::new(alloc, Seed::of(b"test"));
    items.put(text(alloc, "x")?, Value::Null)?;
    items.put(Value::Int(1), Value::Null)?;
    Ok(Object::Set {
        class: HASH_SET,
        items,
        guard: Guard::Open,
        changes: 0,
    })
}

// 3: an array of chars, one of them half of a pair.
fn array(alloc: Global) -> Result<Object, AllocError> {
    let mut items = Elements::new(alloc);
    items.push(Value::Char(97))?;
    items.push(Value::Char(0xd800))?;
    Ok(Object::Array {
        elem: Ty::Prim(Primitive::Char),
        items,
    })
}

fn view(map: u32, part: Part) -> Object {
    Object::View { map, part }
}

// Puts an object there, unless there is no memory for it.
fn place(heap: &mut Heap, object: Result<Object, AllocError>) -> bool {
    match object {
        Ok(object) => heap.place(object).is_ok(),
        Err(_) => false,
    }
}

fn letters(alloc: Global) -> Result<Object, AllocError> {
    map_of(
        alloc,
        text(alloc, "b"),
        Value::Int(7),
        text(alloc, "a"),
        Value::Ref(0),
    )
}

// 0 to 8: what has a form, but for 6, a view with entries.
fn place_forms(alloc: Global, heap: &mut Heap) -> bool {
    let mut placed = place(heap, plain_values(alloc));
    placed &= place(heap, letters(alloc));
    placed &= place(heap, set(alloc));
    placed &= place(heap, array(alloc));
    placed &= place(heap, Ok(view(1, Part::Keys)));
    placed &= place(heap, Ok(view(1, Part::Values)));
    placed &= place(heap, Ok(view(1, Part::Entries)));
    placed &= place(heap, Ok(map(Pairs::new(alloc, Seed::of(b"test")))));
    placed &= place(heap, Ok(view(7, Part::Entries)));
    placed
}

fn entry(alloc: Global) -> Result<Object, AllocError> {
    Ok(Object::Entry {
        map: 1,
        key: text(alloc, "a")?,
    })
}

fn iterator() -> Object {
    Object::Iter {
        over: 0,
        cursor: 0,
        seen: 0,
        last: None,
    }
}

fn builder(alloc: Global) -> Object {
    Object::Builder {
        units: Elements::new(alloc),
    }
}

fn function(alloc: Global) -> Object {
    Object::Fun {
        iface: None,
        target: Target::Gone,
        captures: Elements::new(alloc),
    }
}

fn exception() -> Object {
    Object::Exc {
        class: EXCEPTION,
        message: None,
    }
}

// 9 to 13: what has no form.
fn place_others(alloc: Global, heap: &mut Heap) -> bool {
    let mut placed = place(heap, entry(alloc));
    placed &= place(heap, Ok(iterator()));
    placed &= place(heap, Ok(builder(alloc)));
    placed &= place(heap, Ok(function(alloc)));
    placed &= place(heap, Ok(exception()));
    placed
}

/// A map whose second key has this name's place.
fn with_key(alloc: Global, key: Result<Value, AllocError>) -> Result<Object, AllocError> {
    map_of(alloc, text(alloc, "a"), Value::Ref(11), key, Value::Null)
}

/// A map whose keys are texts of one unit.
fn with_units(alloc: Global, first: u16, second: u16) -> Result<Object, AllocError> {
    map_of(
        alloc,
        unit(alloc, first),
        Value::Null,
        unit(alloc, second),
        Value::Null,
    )
}

// 14 to 21: maps with keys that are no names, behind a value that has no form; and which fault comes first.
fn place_keys(alloc: Global, heap: &mut Heap) -> bool {
    let mut placed = place(heap, with_key(alloc, Ok(Value::Int(1))));
    placed &= place(heap, with_key(alloc, Ok(Value::Null)));
    placed &= place(heap, with_key(alloc, Ok(Value::Char(97))));
    placed &= place(heap, with_units(alloc, 0xd800, 0xfffd));
    placed &= place(heap, with_units(alloc, 0xd800, 0xdfff));
    placed &= place(heap, with_key(alloc, text(alloc, "")));
    placed &= place(heap, pair(alloc, Value::Ref(11), Value::Ref(14)));
    placed &= place(heap, pair(alloc, Value::Ref(14), Value::Ref(11)));
    placed
}

fn set_with_null(alloc: Global) -> Result<Object, AllocError> {
    let mut items = Pairs::new(alloc, Seed::of(b"test"));
    items.put(Value::Null, Value::Null)?;
    items.put(Value::Long(1), Value::Null)?;
    Ok(Object::Set {
        class: HASH_SET,
        items,
        guard: Guard::Open,
        changes: 0,
    })
}

// 22 to 26: a view of what is no map; a list in itself; a builder before such a list, and behind it; a set with null.
fn place_rest(alloc: Global, heap: &mut Heap) -> bool {
    let mut placed = place(heap, Ok(view(0, Part::Values)));
    placed &= place(heap, pair(alloc, Value::Null, Value::Ref(23)));
    placed &= place(heap, pair(alloc, Value::Ref(11), Value::Ref(23)));
    placed &= place(heap, pair(alloc, Value::Ref(23), Value::Ref(11)));
    placed &= place(heap, set_with_null(alloc));
    placed
}

fn place_all(alloc: Global, heap: &mut Heap) -> bool {
    let mut placed = place_forms(alloc, heap);
    placed &= place_others(alloc, heap);
    placed &= place_keys(alloc, heap);
    placed &= place_rest(alloc, heap);
    placed
}

/// The heap, its objects by their numbers as said above.
pub fn sample(alloc: Global) -> Result<Heap, AllocError> {
    let mut heap = Heap::new(alloc, 0, Seed::of(b"test"));
    if place_all(alloc, &mut heap) {
        Ok(heap)
    } else {
        Err(AllocError)
    }
}
