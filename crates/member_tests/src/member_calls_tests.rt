//! Calls of members by their numbers in the catalogue.

use member_calls::{call, is_built};
use object_heap::{Answer, Heap};
use object_values::{Seed, Value};
use pl_units::UText;
use std::alloc::{AllocError, Global};
use std::test::Fail;

fn alone(alloc: Global, value: Value) -> Result<Vec<Value>, AllocError> {
    let mut args = Vec::new(alloc);
    args.push(value)?;
    Ok(args)
}

fn gives_int(answer: &Option<Answer>, wanted: i32) -> bool {
    match answer {
        Some(Answer::Value(Value::Int(number))) => *number == wanted,
        _ => false,
    }
}

fn gives_long(answer: &Option<Answer>, wanted: i64) -> bool {
    match answer {
        Some(Answer::Value(Value::Long(number))) => *number == wanted,
        _ => false,
    }
}

fn is_none(answer: &Option<Answer>) -> bool {
    match answer {
        None => true,
        _ => false,
    }
}

#[test]
fn members_act_by_their_numbers(rt: HostRuntime) -> Result<(), Fail> {
    let mut heap = Heap::new(rt.alloc(), 100, Seed::of(b"test"));
    let text = alone(
        rt.alloc(),
        Value::Str(UText::from_utf8(rt.alloc(), "four")?),
    )?;
    let number = alone(rt.alloc(), Value::Long(-7))?;
    // CharSequence.length of the text, Math.abs of the number, and Iterable.forEach, which is not built
    let length = call(4, &mut heap, text.as_slice());
    assert!(rt; gives_int(&length, 4));
    let most = call(52, &mut heap, number.as_slice());
    assert!(rt; gives_long(&most, 7));
    let none = call(87, &mut heap, text.as_slice());
    assert!(rt; is_none(&none));
    assert!(rt; heap.room_left() == 100);
    Ok(())
}

// The first and the last member of each part of the catalogue, and whether it is built.
const BUILT: [(u32, bool); 18] = [
    (0, true),
    (3, true),
    (57, true),
    (58, true),
    (85, true),
    (86, true),
    (87, false),
    (97, true),
    (124, true),
    (175, true),
    (176, false),
    (193, false),
    (194, true),
    (224, true),
    (225, true),
    (226, false),
    (227, false),
    (4_294_967_295, false),
];

#[test]
fn parts_that_are_built(rt: HostRuntime) -> Result<(), Fail> {
    for (number, wanted) in BUILT {
        assert!(rt; is_built(number) == wanted, "{number}");
    }
    Ok(())
}
