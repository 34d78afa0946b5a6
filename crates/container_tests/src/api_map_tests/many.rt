//! Maps and sets of many keys, by their members.
use api_map::call;
use object_heap::{Answer, Heap};
use object_values::{Seed, Value};
use std::test::Fail;

const COUNT: u32 = 400_000;

const NEW_SET: u32 = 125;

const NEW_SET_OF: u32 = 126;

const REMOVE_ALL: u32 = 104;

const RETAIN_ALL: u32 = 105;

const KEY_SET: u32 = 136;

const GET: u32 = 133;

const PUT: u32 = 137;

const REMOVE: u32 = 140;

const NEW_MAP: u32 = 159;

fn key(number: u32) -> Value {
    Value::Long(i64::from(number))
}

fn is_value(answer: &Answer, wanted: &Value) -> bool {
    match answer {
        Answer::Value(value) => *value == *wanted,
        Answer::Thrown(_) => false,
        Answer::Room => false,
        Answer::NoMemory => false,
    }
}

fn gives(heap: &mut Heap, member: u32, args: &[Value], wanted: &Value) -> bool {
    let answer = call(member, heap, args);
    is_value(&answer, wanted)
}

// Puts every key, and counts those that were new.
fn put_all(heap: &mut Heap, count: u32) -> u32 {
    let mut done = 0u32;
    for number in 0..count {
        if gives(
            heap,
            PUT,
            &[Value::Ref(0), key(number), key(number)],
            &Value::Null,
        ) {
            done = done.saturating_add(1);
        }
    }
    done
}

// Reads every key, and counts those that have their number.
fn read_all(heap: &mut Heap, count: u32) -> u32 {
    let mut done = 0u32;
    for number in 0..count {
        if gives(heap, GET, &[Value::Ref(0), key(number)], &key(number)) {
            done = done.saturating_add(1);
        }
    }
    done
}

// Takes every key out, the last one first, and counts those that had their number.
fn cut_all(heap: &mut Heap, count: u32) -> u32 {
    let mut done = 0u32;
    for turn in 0..count {
        let number = count.saturating_sub(turn).saturating_sub(1);
        if gives(heap, REMOVE, &[Value::Ref(0), key(number)], &key(number)) {
            done = done.saturating_add(1);
        }
    }
    done
}

#[test]
fn many_keys(rt: HostRuntime) -> Result<(), Fail> {
    let mut heap = Heap::new(rt.alloc(), u64::MAX, Seed::of(b"test"));
    let made = gives(&mut heap, NEW_MAP, &[], &Value::Ref(0));
    assert!(rt; made);
    let put = put_all(&mut heap, COUNT);
    assert!(rt; put == COUNT);
    assert!(rt; heap.changes(0) == 400_000);
    let read = read_all(&mut heap, COUNT);
    assert!(rt; read == COUNT);
    let cut = cut_all(&mut heap, COUNT);
    assert!(rt; cut == COUNT && heap.size(0) == 0);
    Ok(())
}

// The set 2 of the keys of the map 0, of which the view 1 shows them.
#[test]
fn many_kept(rt: HostRuntime) -> Result<(), Fail> {
    let mut heap = Heap::new(rt.alloc(), u64::MAX, Seed::of(b"test"));
    let made = gives(&mut heap, NEW_MAP, &[], &Value::Ref(0));
    let put = put_all(&mut heap, COUNT);
    let shown = gives(&mut heap, KEY_SET, &[Value::Ref(0)], &Value::Ref(1));
    let copied = gives(&mut heap, NEW_SET_OF, &[Value::Ref(1)], &Value::Ref(2));
    assert!(rt; made && put == COUNT && shown && copied && heap.size(2) == 400_000);
    let kept = gives(
        &mut heap,
        RETAIN_ALL,
        &[Value::Ref(2), Value::Ref(1)],
        &Value::Bool(false),
    );
    assert!(rt; kept && heap.size(2) == 400_000);
    let cut = gives(
        &mut heap,
        REMOVE_ALL,
        &[Value::Ref(1), Value::Ref(2)],
        &Value::Bool(true),
    );
    assert!(rt; cut && heap.size(0) == 0 && heap.changes(0) == 800_000);
    let empty = gives(&mut heap, NEW_SET, &[], &Value::Ref(3));
    let rest = gives(
        &mut heap,
        RETAIN_ALL,
        &[Value::Ref(2), Value::Ref(3)],
        &Value::Bool(true),
    );
    assert!(rt; empty && rest && heap.size(2) == 0);
    Ok(())
}
