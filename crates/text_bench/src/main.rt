//! Prints what searches in texts, their replacement and appends to a builder take, in nanoseconds a unit or a call. It measures
//! where it is given an argument, and else prints nothing: `rt run -- times`.
#![tactic(auto)]

use api_text::call;
use object_heap::{Answer, Heap};
use object_values::{Elements, Object, Seed, Value};
use pl_units::UText;
use std::alloc::{AllocError, Global};
use std::rt::Clock;
use std::time::Instant;
use std::{env, io};

const UNITS: usize = 1_000_000;

const APPEND: u32 = 81;

const INDEX_OF: u32 = 64;

const REPLACE: u32 = 68;

#[derive(Clone, Copy)]
enum Task {
    /// A search that finds nothing.
    IndexOf,
    /// A search of a longer text that begins at every place.
    IndexOfLonger,
    /// Every unit is replaced by two.
    Replace,
    /// Nothing is replaced.
    ReplaceNothing,
    /// Single units at the end of a builder.
    Append,
}

fn name(task: Task) -> &'static str {
    match task {
        Task::IndexOf => "indexOf that finds nothing, a unit",
        Task::IndexOfLonger => "indexOf of eight units that begin everywhere, a unit",
        Task::Replace => "replace of every unit by two, a unit",
        Task::ReplaceNothing => "replace that finds nothing, a unit",
        Task::Append => "append of a unit, a call",
    }
}

fn word(alloc: Global, text: &str) -> Result<Value, AllocError> {
    Ok(Value::Str(UText::from_utf8(alloc, text)?))
}

fn long_text(alloc: Global) -> Result<Value, AllocError> {
    let mut units = Vec::new(alloc);
    units.resize(UNITS, 97)?;
    Ok(Value::Str(UText::from_units(units)?))
}

fn is_value(answer: &Answer) -> bool {
    match answer {
        Answer::Value(_) => true,
        _ => false,
    }
}

// The arguments of a task.
fn arguments(alloc: Global, task: Task) -> Result<Vec<Value>, AllocError> {
    let mut args = Vec::new(alloc);
    match task {
        Task::Append => args.push(Value::Ref(0))?,
        _ => args.push(long_text(alloc)?)?,
    }
    match task {
        Task::IndexOf | Task::ReplaceNothing => args.push(word(alloc, "b")?)?,
        Task::IndexOfLonger => args.push(word(alloc, "aaaaaaab")?)?,
        Task::Replace | Task::Append => args.push(word(alloc, "a")?)?,
    }
    args.push(word(alloc, "bc")?)?;
    Ok(args)
}

fn call_once(heap: &mut Heap, task: Task, args: &[Value]) -> bool {
    match task {
        Task::IndexOf | Task::IndexOfLonger => is_value(&call(INDEX_OF, heap, args)),
        Task::Replace | Task::ReplaceNothing => is_value(&call(REPLACE, heap, args)),
        Task::Append => is_value(&call(APPEND, heap, args)),
    }
}

// How often a task is called, so that it goes over so many units.
fn times(task: Task) -> usize {
    match task {
        Task::Append => UNITS,
        _ => 1,
    }
}

fn call_often(heap: &mut Heap, task: Task, args: &[Value]) -> bool {
    let mut all = true;
    for _ in 0..times(task) {
        all = call_once(heap, task, args) && all;
    }
    all
}

fn measure(
    rt: &(impl Clock + Print),
    heap: &mut Heap,
    task: Task,
    args: &[Value],
) -> io::Result<()> {
    let start = Instant::now(rt)?;
    let all = call_often(heap, task, args);
    let spent = start.elapsed(rt)?.as_nanos() / 1_000_000;
    let name = name(task);
    println!(rt; "{name}: {spent} ns (each came to something: {all})")
}

fn main(rt: HostRuntime) -> io::Result<()> {
    if env::args(&rt)?.nth(1).is_none() {
        return Ok(());
    }
    let alloc = rt.alloc();
    let mut heap = Heap::new(alloc, u64::MAX, Seed::of(b"bench"));
    let _ = heap.place(Object::Builder {
        units: Elements::new(alloc),
    });
    for task in [
        Task::IndexOf,
        Task::IndexOfLonger,
        Task::Replace,
        Task::ReplaceNothing,
        Task::Append,
    ] {
        let Ok(args) = arguments(alloc, task) else {
            return Ok(());
        };
        measure(&rt, &mut heap, task, args.as_slice())?;
    }
    Ok(())
}
