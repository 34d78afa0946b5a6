//! The heap of the rows.
use object_heap::Heap;
use object_values::{Elements, Guard, Object, Pairs, Part, Seed, Value};
use pl_types::classes::{ARRAY_LIST, HASH_MAP, HASH_SET};
use pl_types::{Primitive, Ty};
use std::alloc::{AllocError, Global};

fn ints(alloc: Global, numbers: &[i32]) -> Result<Elements<Value>, AllocError> {
    let mut items = Elements::new(alloc);
    for number in numbers {
        items.push(Value::Int(*number))?;
    }
    Ok(items)
}

fn keys(alloc: Global, numbers: &[i32]) -> Result<Pairs, AllocError> {
    let mut pairs = Pairs::new(alloc, Seed::of(b"test"));
    for number in numbers {
        pairs.put(Value::Int(*number), Value::Null)?;
    }
    Ok(pairs)
}

fn pairs(alloc: Global) -> Result<Pairs, AllocError> {
    let mut pairs = Pairs::new(alloc, Seed::of(b"test"));
    pairs.put(Value::Int(1), Value::Int(7))?;
    pairs.put(Value::Int(2), Value::Int(8))?;
    Ok(pairs)
}

fn place_list(heap: &mut Heap, numbers: &[i32], guard: Guard) -> Result<(), AllocError> {
    let items = ints(heap.alloc(), numbers)?;
    heap.place(Object::List {
        class: ARRAY_LIST,
        items,
        guard,
        changes: 0,
    })?;
    Ok(())
}

fn place_array(heap: &mut Heap) -> Result<(), AllocError> {
    let items = ints(heap.alloc(), &[5])?;
    heap.place(Object::Array {
        elem: Ty::Prim(Primitive::Int),
        items,
    })?;
    Ok(())
}

fn place_set(heap: &mut Heap) -> Result<(), AllocError> {
    let items = keys(heap.alloc(), &[1, 2])?;
    heap.place(Object::Set {
        class: HASH_SET,
        items,
        guard: Guard::Open,
        changes: 0,
    })?;
    Ok(())
}

fn place_map(heap: &mut Heap) -> Result<(), AllocError> {
    let pairs = pairs(heap.alloc())?;
    heap.place(Object::Map {
        class: HASH_MAP,
        pairs,
        guard: Guard::Open,
        changes: 0,
    })?;
    for part in &[Part::Keys, Part::Values, Part::Entries] {
        heap.place(Object::View {
            map: 4,
            part: *part,
        })?;
    }
    Ok(())
}

/// 0 is a list of 10, 20 and 30, 1 a frozen list of 10, 2 an array of 5, 3 a set of 1 and 2, 4 a map that has 7 under 1 and 8 under
/// 2, and 5 to 7 its views.
pub fn sample(alloc: Global, room: u64) -> Result<Heap, AllocError> {
    let mut heap = Heap::new(alloc, room, Seed::of(b"test"));
    place_list(&mut heap, &[10, 20, 30], Guard::Open)?;
    place_list(&mut heap, &[10], Guard::Frozen)?;
    place_array(&mut heap)?;
    place_set(&mut heap)?;
    place_map(&mut heap)?;
    Ok(heap)
}
