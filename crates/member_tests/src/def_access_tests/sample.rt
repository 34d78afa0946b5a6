//! The objects of the rows, and the accesses that they make, each of which calls the member that it comes to.
use allowlist::{Allow, Catalogue};
use def_access::{Accessed, index_read, index_written, method_called, name_read, name_written};
use member_rows::Members;
use object_heap::{Answer, Heap};
use object_values::{Elements, Value};
use std::alloc::{AllocError, Global};

/// 0 reads an index, 1 writes one, 2 reads a name, 3 writes one, and 4 calls a method. The arguments are the receiver, the index or the
/// name, and then the others.
pub struct Accesses;

impl Members for Accesses {
    fn call(number: u32, heap: &mut Heap, args: &[Value]) -> Answer {
        match Catalogue::full(heap.alloc()) {
            Ok(allow) => access(number, &allow, heap, args),
            Err(_) => Answer::NoMemory,
        }
    }
}

fn access(number: u32, allow: &Allow, heap: &mut Heap, args: &[Value]) -> Answer {
    let done = match number {
        0 => index_of(allow, heap, args),
        1 => put_index(allow, heap, args),
        2 => name_of(allow, heap, args),
        3 => put_name(allow, heap, args),
        _ => called(allow, heap, args),
    };
    match done {
        Ok(answer) => answer,
        Err(_) => Answer::NoMemory,
    }
}

fn call(heap: &mut Heap, number: u32, args: &Elements<Value>) -> Answer {
    match member_calls::call(number, heap, args.as_slice()) {
        Some(answer) => answer,
        None => Answer::NoMemory,
    }
}

// The call that an access comes to, with the receiver and what follows it.
fn done(
    heap: &mut Heap,
    accessed: Accessed,
    receiver: &Value,
    other: Option<&Value>,
) -> Result<Answer, AllocError> {
    let mut args = Elements::new(heap.alloc());
    args.push(receiver.share()?)?;
    let number = match accessed {
        Accessed::Calls(number) => number,
        Accessed::CallsWith(number, first) => {
            args.push(first)?;
            number
        }
        Accessed::Acts(answer) => return Ok(answer),
    };
    if let Some(other) = other {
        args.push(other.share()?)?;
    }
    Ok(call(heap, number, &args))
}

fn done_of(
    heap: &mut Heap,
    accessed: Accessed,
    args: &[Value],
    other: Option<&Value>,
) -> Result<Answer, AllocError> {
    match args.first() {
        Some(receiver) => done(heap, accessed, receiver, other),
        None => Err(AllocError),
    }
}

fn index_of(allow: &Allow, heap: &mut Heap, args: &[Value]) -> Result<Answer, AllocError> {
    let (Some(receiver), Some(index)) = (args.first(), args.get(1)) else {
        return Err(AllocError);
    };
    let accessed = index_read(allow, heap, receiver, index.share()?);
    done_of(heap, accessed, args, None)
}

fn put_index(allow: &Allow, heap: &mut Heap, args: &[Value]) -> Result<Answer, AllocError> {
    let (Some(receiver), Some(index), Some(value)) = (args.first(), args.get(1), args.get(2)) else {
        return Err(AllocError);
    };
    let accessed = index_written(allow, heap, receiver, index.share()?, value);
    done_of(heap, accessed, args, Some(value))
}

fn text_in(value: Option<&Value>) -> Option<String> {
    match value? {
        Value::Str(text) => text.to_utf8().ok(),
        _ => None,
    }
}

fn name_of(allow: &Allow, heap: &mut Heap, args: &[Value]) -> Result<Answer, AllocError> {
    let (Some(receiver), Some(name)) = (args.first(), text_in(args.get(1))) else {
        return Err(AllocError);
    };
    let accessed = name_read(allow, heap, receiver, name.as_str());
    done_of(heap, accessed, args, None)
}

fn put_name(allow: &Allow, heap: &mut Heap, args: &[Value]) -> Result<Answer, AllocError> {
    let (Some(receiver), Some(name), Some(value)) = (
        args.first(),
        text_in(args.get(1)),
        args.get(2),
    ) else {
        return Err(AllocError);
    };
    let mut value = value.share()?;
    let accessed = name_written(allow, heap, receiver, name.as_str(), &mut value);
    done_of(heap, accessed, args, Some(&value))
}

fn values_of(alloc: Global, args: &[Value]) -> Result<Vec<Value>, AllocError> {
    let mut values = Vec::new(alloc);
    for at in 0..args.len() {
        if at != 1 {
            values.push(args[at].share()?)?;
        }
    }
    Ok(values)
}

fn called(allow: &Allow, heap: &mut Heap, args: &[Value]) -> Result<Answer, AllocError> {
    let Some(name) = text_in(args.get(1)) else {
        return Err(AllocError);
    };
    let mut values = values_of(heap.alloc(), args)?;
    match method_called(allow, heap, name.as_str(), &mut values) {
        Accessed::Calls(number) => Ok(call(heap, number, &Elements::from_vec(values))),
        Accessed::CallsWith(_number, first) => {
            drop(first);
            Err(AllocError)
        }
        Accessed::Acts(answer) => Ok(answer),
    }
}

/// A new object is 7.
pub const OBJECTS: &str = "\
list open 5 1 'b' 1 null
map open 3 'a'=1 'b'=null
array 4 5
set open 0 'x' 1
list frozen 0 7
entry @1 'a'
doc frozen 0 3 4";
