//! Prints what the calls of the heap take, in nanoseconds, over a map of few and of many keys, and what a sum of two Integers
//! takes whose types are found at run time: `rt run -- times`. And makes a million objects of a kind, so that the memory of the
//! process tells what one takes: `/usr/bin/time -v` over the program with `builders`, `exceptions`, `lists`, `maps` or `sets`,
//! where a list, a map and a set have no element, or one with a second word. With `members` it prints what calls of members of
//! containers take (`bench/containers` runs it). With no argument it does nothing.
#![tactic(auto)]

mod members;

ghost use Rattle.std.specs.Prelude.{◌<◌};

use members::measure_members;
use number_ops::{Op, def_op};
use object_heap::{Answer, Heap};
use object_values::{Elements, Guard, Object, Pairs, Seed, Value};
use pl_types::classes::{ARRAY_LIST, EXCEPTION, HASH_MAP, HASH_SET};
use std::alloc::Global;
use std::rt::Clock;
use std::time::Instant;
use std::{env, io};

#[derive(Clone, Copy)]
enum Call {
    MapGet,
    MapPut,
    MapCutOfNone,
    Put,
    Grow,
    Add,
    DefAdd,
}

fn name(call: Call) -> &'static str {
    match call {
        Call::MapGet => "map_get",
        Call::MapPut => "map_put",
        Call::MapCutOfNone => "map_cut of no key",
        Call::Put => "put",
        Call::Grow => "grow at the end",
        Call::Add => "add",
        Call::DefAdd => "def_op add of two Integers",
    }
}

const TIMES: u32 = 1_000_000;

// What the pages say of memory rests on this.
const _: () = prove!(size_of::<Object>() == 64);

const _: () = prove!(size_of::<Value>() == 24);

fn number(turn: u32) -> Value {
    Value::Long(i64::from(turn))
}

// Calls once, and says whether it came to something.
fn call_once(heap: &mut Heap, call: Call, turn: u32) -> bool {
    match call {
        Call::MapGet => heap.map_get(0, &number(turn)).is_some(),
        Call::MapPut => heap.map_put(0, number(turn), Value::Null).is_ok(),
        Call::MapCutOfNone => heap.map_cut(0, &Value::Int(7)).is_some(),
        Call::Put => heap.put(1, turn as usize, Value::Null).is_some(),
        Call::Grow => {
            let end = heap.size(1);
            heap.grow(1, end, Value::Null).is_ok()
        }
        Call::Add => heap.add(empty_list(heap.alloc())).is_ok(),
        Call::DefAdd => gives_sum(heap, i32::try_from(turn).unwrap_or(0)),
    }
}

fn gives_sum(heap: &mut Heap, turn: i32) -> bool {
    match def_op(heap, Op::Add, &Value::Int(turn), &Value::Int(7)) {
        Answer::Value(_) => true,
        Answer::Thrown(_) => false,
        Answer::Room => false,
        Answer::NoMemory => false,
    }
}

fn empty_list(alloc: Global) -> Object {
    Object::List {
        class: ARRAY_LIST,
        items: Elements::new(alloc),
        guard: Guard::Open,
        changes: 0,
    }
}

fn call_often(heap: &mut Heap, call: Call, keys: u32) -> u32
    requires { 0 < keys }
{
    let mut done = 0u32;
    for turn in 0..TIMES {
        if call_once(heap, call, turn % keys) {
            done = done.saturating_add(1);
        }
    }
    done
}

// A map of so many keys, and a list of as many items.
fn filled(alloc: Global, keys: u32) -> Heap {
    let mut heap = Heap::new(alloc, u64::MAX, Seed::of(b"bench"));
    let _ = heap.add(Object::Map {
        class: HASH_MAP,
        pairs: Pairs::new(alloc, Seed::of(b"bench")),
        guard: Guard::Open,
        changes: 0,
    });
    let _ = heap.add(empty_list(alloc));
    for key in 0..keys {
        let _ = heap.map_put(0, number(key), Value::Null);
        let end = heap.size(1);
        let _ = heap.grow(1, end, Value::Null);
    }
    heap
}

fn measure(rt: &(impl Clock + Print), heap: &mut Heap, call: Call, keys: u32) -> io::Result<()>
    requires { 0 < keys }
{
    let start = Instant::now(rt)?;
    let done = call_often(heap, call, keys);
    let spent = start.elapsed(rt)?.as_nanos() / u128::from(TIMES);
    let name = name(call);
    println!(rt; "{name}, {keys} keys: {spent} ns ({done} of {TIMES} came to something)")
}

/// A kind of object that is made often.
#[derive(Clone, Copy)]
enum Kind {
    Builder,
    Exception,
    List,
    Map,
    Set,
}

fn kind_of(word: &str) -> Option<Kind> {
    match word {
        "builders" => Some(Kind::Builder),
        "exceptions" => Some(Kind::Exception),
        "lists" => Some(Kind::List),
        "maps" => Some(Kind::Map),
        "sets" => Some(Kind::Set),
        _ => None,
    }
}

fn empty_object(alloc: Global, kind: Kind) -> Object {
    match kind {
        Kind::Builder => Object::Builder {
            units: Elements::new(alloc),
        },
        Kind::Exception => Object::Exc {
            class: EXCEPTION,
            message: None,
        },
        Kind::List => empty_list(alloc),
        Kind::Map => Object::Map {
            class: HASH_MAP,
            pairs: Pairs::new(alloc, Seed::of(b"bench")),
            guard: Guard::Open,
            changes: 0,
        },
        Kind::Set => Object::Set {
            class: HASH_SET,
            items: Pairs::new(alloc, Seed::of(b"bench")),
            guard: Guard::Open,
            changes: 0,
        },
    }
}

// Puts one element into what may have one.
fn give_one(heap: &mut Heap, kind: Kind, id: u32) {
    let _ = match kind {
        Kind::Builder => heap.append(id, &[65]).is_ok(),
        Kind::Exception => false,
        Kind::List => heap.grow(id, 0, number(id)).is_ok(),
        Kind::Map => heap.map_put(id, number(id), Value::Null).is_ok(),
        Kind::Set => heap.map_put(id, number(id), Value::Null).is_ok(),
    };
}

// How much room a million objects of a kind take.
fn fill(alloc: Global, kind: Kind, has_one: bool) -> u64 {
    let mut heap = Heap::new(alloc, u64::MAX, Seed::of(b"bench"));
    for id in 0..TIMES {
        let _ = heap.add(empty_object(alloc, kind));
        if has_one {
            give_one(&mut heap, kind, id);
        }
    }
    u64::MAX - heap.room_left()
}

fn measure_all(rt: &(impl Clock + Print), alloc: Global) -> io::Result<()> {
    for keys in [10, 400_000] {
        let mut heap = filled(alloc, keys);
        for call in [
            Call::MapGet,
            Call::MapPut,
            Call::MapCutOfNone,
            Call::Put,
            Call::Grow,
            Call::Add,
            Call::DefAdd,
        ] {
            measure(rt, &mut heap, call, keys)?;
        }
    }
    Ok(())
}

fn main(rt: HostRuntime) -> io::Result<()> {
    let mut args = env::args(&rt)?;
    let Some(word) = args.nth(1) else {
        return Ok(());
    };
    if word.as_str() == "members" {
        return measure_members(&rt, rt.alloc());
    }
    match kind_of(word.as_str()) {
        Some(kind) => {
            let room = fill(rt.alloc(), kind, args.next().is_some());
            println!(rt; "{TIMES} objects: {room} of room")
        }
        None => measure_all(&rt, rt.alloc()),
    }
}
