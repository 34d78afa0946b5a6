//! The objects of the rows, and the forms that they call. A type is a text with its classes in full.
use container_ops::{
    array_filled, array_made, element_given, element_read, element_written, has_more, iterated,
    length_of, list_made, map_made, next_element,
};
use member_rows::Members;
use object_heap::{Answer, Heap};
use object_values::Value;
use pl_types::Ty;
use std::alloc::Global;

/// 0 is a list literal and 1 a map's; 2 and 3 make arrays, of elements and with sizes; 4 reads an element, 5 writes one, and 10 reads
/// one as it is; 6 is a length; 7 makes an iterator, 8 asks whether there is more, and 9 gives the next element.
pub struct Forms;

impl Members for Forms {
    fn call(number: u32, heap: &mut Heap, args: &[Value]) -> Answer {
        match number {
            0 => list_made(heap, args),
            1 => map_made(heap, args),
            2 => filled(heap, args),
            3 => made(heap, args),
            4 => read(heap, args),
            5 => written(heap, args),
            6 => length(heap, args),
            7 => iterator(heap, args),
            8 => more(heap, args),
            9 => next(heap, args),
            _ => given(heap, args),
        }
    }
}

fn length(heap: &mut Heap, args: &[Value]) -> Answer {
    match args.first() {
        Some(value) => length_of(heap, value),
        None => Answer::NoMemory,
    }
}

fn iterator(heap: &mut Heap, args: &[Value]) -> Answer {
    match args.first() {
        Some(value) => iterated(heap, value),
        None => Answer::NoMemory,
    }
}

fn more(heap: &mut Heap, args: &[Value]) -> Answer {
    match args.first() {
        Some(value) => has_more(heap, value),
        None => Answer::NoMemory,
    }
}

fn next(heap: &mut Heap, args: &[Value]) -> Answer {
    match args.first() {
        Some(value) => next_element(heap, value),
        None => Answer::NoMemory,
    }
}

fn type_in(alloc: Global, value: &Value) -> Option<Ty> {
    match value {
        Value::Str(text) => {
            let text = text.to_utf8().ok()?;
            Ty::of_full_text(alloc, text.as_str().as_bytes()).ok()?
        }
        _ => None,
    }
}

fn type_of(heap: &Heap, args: &[Value]) -> Option<Ty> {
    type_in(heap.alloc(), args.first()?)
}

fn int_in(value: Option<&Value>) -> Option<i32> {
    match value? {
        Value::Int(number) => Some(*number),
        _ => None,
    }
}

fn filled(heap: &mut Heap, args: &[Value]) -> Answer {
    match (type_of(heap, args), args) {
        (Some(elem), [_, items @ ..]) => array_filled(heap, &elem, items),
        _ => Answer::NoMemory,
    }
}

fn sizes_of(alloc: Global, args: &[Value]) -> Option<Vec<i32>> {
    let mut sizes = Vec::new(alloc);
    for value in args {
        sizes.push(int_in(Some(value))?).ok()?;
    }
    Some(sizes)
}

fn made_with(heap: &mut Heap, of: &Ty, args: &[Value]) -> Answer {
    match sizes_of(heap.alloc(), args) {
        Some(sizes) => array_made(heap, of, sizes.as_slice()),
        None => Answer::NoMemory,
    }
}

fn made(heap: &mut Heap, args: &[Value]) -> Answer {
    match (type_of(heap, args), args) {
        (Some(of), [_, sizes @ ..]) => made_with(heap, &of, sizes),
        _ => Answer::NoMemory,
    }
}

fn read(heap: &mut Heap, args: &[Value]) -> Answer {
    match (type_of(heap, args), args.get(1), int_in(args.get(2))) {
        (Some(of), Some(array), Some(at)) => element_read(heap, &of, array, at),
        _ => Answer::NoMemory,
    }
}

fn write(heap: &mut Heap, of: &Ty, array: &Value, at: i32, item: &Value) -> Answer {
    match item.share() {
        Ok(item) => element_written(heap, of, array, at, item),
        Err(_) => Answer::NoMemory,
    }
}

fn written(heap: &mut Heap, args: &[Value]) -> Answer {
    match (
        type_of(heap, args),
        args.get(1),
        int_in(args.get(2)),
        args.get(3),
    ) {
        (Some(of), Some(array), Some(at), Some(item)) => write(heap, &of, array, at, item),
        _ => Answer::NoMemory,
    }
}

fn given(heap: &mut Heap, args: &[Value]) -> Answer {
    match (args.first(), int_in(args.get(1))) {
        (Some(array), Some(at)) => element_given(heap, array, at),
        _ => Answer::NoMemory,
    }
}

/// A new object is 8.
pub const OBJECTS: &str = "\
list open 5 1 'b' 1 null
map open 3 'a'=1 'b'=null
keys @1
values @1
entries @1
set open 0 'x' 1
array 4 5
list open 0";
