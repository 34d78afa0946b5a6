//! A heap with objects of each kind.
use object_heap::Heap;
use object_values::{Elements, Guard, Object, Pairs, Part, Seed, Target, Value};
use pl_types::classes::{
    ARRAY_LIST, EXCEPTION, FUNCTION, HASH_MAP, HASH_SET, ILLEGAL_ARGUMENT_EXCEPTION,
};
use pl_types::{Primitive, Ty};
use pl_units::UText;
use std::alloc::{AllocError, Global};

/// A text as a value.
pub fn word(alloc: Global, text: &str) -> Result<Value, AllocError> {
    Ok(Value::Str(UText::from_utf8(alloc, text)?))
}

/// A list of objects, by their numbers.
pub fn list(alloc: Global, refs: &[u32]) -> Result<Object, AllocError> {
    let mut items = Elements::new(alloc);
    for id in refs {
        items.push(Value::Ref(*id))?;
    }
    Ok(Object::List {
        class: ARRAY_LIST,
        items,
        guard: Guard::Open,
        changes: 0,
    })
}

fn three(alloc: Global, first: Value) -> Result<Object, AllocError> {
    let mut items = Elements::new(alloc);
    items.push(first)?;
    items.push(word(alloc, "a")?)?;
    items.push(Value::Null)?;
    Ok(Object::List {
        class: ARRAY_LIST,
        items,
        guard: Guard::Open,
        changes: 0,
    })
}

fn one_two(alloc: Global) -> Result<Elements<Value>, AllocError> {
    let mut items = Elements::new(alloc);
    items.push(Value::Int(1))?;
    items.push(Value::Int(2))?;
    Ok(items)
}

fn pairs(
    alloc: Global,
    first: &str,
    one: Value,
    second: &str,
    two: Value,
) -> Result<Pairs, AllocError> {
    let mut pairs = Pairs::new(alloc, Seed::of(b"test"));
    pairs.put(word(alloc, first)?, one)?;
    pairs.put(word(alloc, second)?, two)?;
    Ok(pairs)
}

fn map(alloc: Global, first: &str, one: i32, second: &str, two: i32) -> Result<Object, AllocError> {
    Ok(Object::Map {
        class: HASH_MAP,
        pairs: pairs(alloc, first, Value::Int(one), second, Value::Int(two))?,
        guard: Guard::Open,
        changes: 0,
    })
}

fn set(alloc: Global, first: &str, second: &str) -> Result<Object, AllocError> {
    Ok(Object::Set {
        class: HASH_SET,
        items: pairs(alloc, first, Value::Null, second, Value::Null)?,
        guard: Guard::Open,
        changes: 0,
    })
}

fn entry(alloc: Global, map: u32, key: &str) -> Result<Object, AllocError> {
    Ok(Object::Entry {
        map,
        key: word(alloc, key)?,
    })
}

fn builder(alloc: Global) -> Result<Object, AllocError> {
    let mut units = Elements::new(alloc);
    units.push(104)?;
    units.push(105)?;
    Ok(Object::Builder { units })
}

fn function(alloc: Global, iface: Option<u32>) -> Object {
    Object::Fun {
        iface,
        target: Target::Gone,
        captures: Elements::new(alloc),
    }
}

// Puts an object there, unless there is no memory for it.
fn place(heap: &mut Heap, object: Result<Object, AllocError>) -> bool {
    match object {
        Ok(object) => heap.place(object).is_ok(),
        Err(_) => false,
    }
}

fn array(elem: Ty, items: Result<Elements<Value>, AllocError>) -> Result<Object, AllocError> {
    Ok(Object::Array {
        elem,
        items: items?,
    })
}

// 0 to 4: lists and arrays.
fn place_lists(alloc: Global, heap: &mut Heap) -> bool {
    let mut placed = place(heap, three(alloc, Value::Int(1)));
    placed &= place(heap, three(alloc, Value::Int(1)));
    placed &= place(heap, three(alloc, Value::Long(1)));
    placed &= place(heap, array(Ty::Prim(Primitive::Int), one_two(alloc)));
    placed &= place(heap, array(Ty::Def, one_two(alloc)));
    placed
}

// 5 to 9: maps and sets.
fn place_keyed(alloc: Global, heap: &mut Heap) -> bool {
    let mut placed = place(heap, map(alloc, "a", 1, "b", 2));
    placed &= place(heap, map(alloc, "b", 2, "a", 1));
    placed &= place(heap, map(alloc, "a", 1, "b", 3));
    placed &= place(heap, set(alloc, "a", "b"));
    placed &= place(heap, set(alloc, "b", "a"));
    placed
}

fn place_view(heap: &mut Heap, map: u32, part: Part) -> bool {
    place(heap, Ok(Object::View { map, part }))
}

// 10 to 16: views and entries.
fn place_views(alloc: Global, heap: &mut Heap) -> bool {
    let mut placed = place_view(heap, 5, Part::Keys);
    placed &= place_view(heap, 6, Part::Keys);
    placed &= place_view(heap, 5, Part::Values);
    placed &= place_view(heap, 5, Part::Entries);
    placed &= place(heap, entry(alloc, 5, "a"));
    placed &= place(heap, entry(alloc, 6, "a"));
    placed &= place(heap, entry(alloc, 5, "gone"));
    placed
}

fn iterator() -> Object {
    Object::Iter {
        over: 0,
        cursor: 0,
        seen: 0,
        last: None,
    }
}

fn told(alloc: Global, class: u32, message: &str) -> Result<Object, AllocError> {
    Ok(Object::Exc {
        class,
        message: Some(UText::from_utf8(alloc, message)?),
    })
}

fn untold(class: u32) -> Object {
    Object::Exc {
        class,
        message: None,
    }
}

// 17 to 22: an iterator, a builder, function values and exceptions.
fn place_others(alloc: Global, heap: &mut Heap) -> bool {
    let mut placed = place(heap, Ok(iterator()));
    placed &= place(heap, builder(alloc));
    placed &= place(heap, Ok(function(alloc, None)));
    placed &= place(heap, Ok(function(alloc, Some(FUNCTION))));
    placed &= place(heap, Ok(untold(EXCEPTION)));
    placed &= place(heap, told(alloc, ILLEGAL_ARGUMENT_EXCEPTION, "bad"));
    placed
}

// 23 to 25: two lists that hold themselves, and an empty one.
fn place_ends(alloc: Global, heap: &mut Heap) -> bool {
    let mut placed = place(heap, list(alloc, &[23]));
    placed &= place(heap, list(alloc, &[24]));
    placed &= place(heap, list(alloc, &[]));
    placed
}

fn place_all(alloc: Global, heap: &mut Heap) -> bool {
    let mut placed = place_lists(alloc, heap);
    placed &= place_keyed(alloc, heap);
    placed &= place_views(alloc, heap);
    placed &= place_others(alloc, heap);
    placed &= place_ends(alloc, heap);
    placed
}

/// Objects of each kind. 23 and 24 are lists that hold themselves, and 25 is an empty one.
pub fn sample(alloc: Global) -> Result<Heap, AllocError> {
    let mut heap = Heap::new(alloc, 0, Seed::of(b"test"));
    if place_all(alloc, &mut heap) {
        Ok(heap)
    } else {
        Err(AllocError)
    }
}

/// Lists that stand in one another, the last of this many levels: each but the first holds the one before so many times.
pub fn tower(
    alloc: Global,
    heap: &mut Heap,
    levels: u32,
    times: &[u32],
) -> Result<u32, AllocError> {
    let mut top = heap.place(list(alloc, &[])?)?;
    for _ in 1..levels {
        let mut items = Elements::new(alloc);
        for _ in times {
            items.push(Value::Ref(top))?;
        }
        top = heap.place(Object::List {
            class: ARRAY_LIST,
            items,
            guard: Guard::Open,
            changes: 0,
        })?;
    }
    Ok(top)
}
