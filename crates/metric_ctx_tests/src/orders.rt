//! Shards at every slice and in every order.

ghost use Rattle.std.specs.Prelude.{◌≡◌, ◌<◌, IfOk, length};
ghost use Rattle.metric_ctx.specs.Order.{IsOrder};

use super::counting::Counting;
use job_file::Mapping;
use json_bridge::NumErr;
use metric_ctx::{ShardTask, Shards, StateErr, Task, Turn, bind_states, states_of};
use object_heap::Outcome;
use search_ctx::{FieldDoc, Fields, Seed};
use serde_json::{Map, Value as Json, json};
use std::alloc::{AllocError, Global};
use std::collections::VecDeque;
use std::test::Fail;

/// How many lines each shard has.
const LINES: [u32; 3] = [2, 0, 3];

/// How many orders of four entries there are.
const ORDERS: u32 = 81;

/// The order of a number: four entries, each of them its next digit to the base three.
fn order_of(number: u32) -> [u32; 4]
    ensures { IsOrder 3 result }
{
    [number % 3, number / 3 % 3, number / 9 % 3, number / 27 % 3]
}

/// The documents of so many empty lines.
fn docs_of(alloc: Global, fields: &Fields, lines: u32) -> Result<VecDeque<FieldDoc>, AllocError> {
    let line = Json::Object(Map::new(alloc));
    let mut docs = VecDeque::new(alloc);
    for _line in 0..lines {
        match fields.doc(alloc, &line) {
            Ok(doc) => docs.push_back(doc)?,
            Err(_) => return Err(AllocError),
        }
    }
    Ok(docs)
}

/// A shard of so many lines.
fn shard_of<'a>(
    alloc: Global,
    scripts: &'a Counting,
    fields: &'a Fields,
    lines: u32,
) -> Result<ShardTask<'a, Counting>, AllocError> {
    let docs = docs_of(alloc, fields, lines)?;
    let params = Json::Object(Map::new(alloc));
    match ShardTask::new(
        alloc,
        scripts,
        fields,
        &params,
        docs,
        100,
        Seed::of(b"shards"),
    ) {
        Ok(task) => Ok(task),
        Err(NumErr::Number | NumErr::NoMemory) => Err(AllocError),
    }
}

/// The three shards.
fn three<'a>(
    alloc: Global,
    scripts: &'a Counting,
    fields: &'a Fields,
) -> Result<Vec<ShardTask<'a, Counting>>, AllocError>
    ensures { IfOk result (λ tasks. length tasks.items ≡ 3) }
{
    let mut tasks = Vec::with_capacity(alloc, 3)?;
    tasks.push(shard_of(alloc, scripts, fields, LINES[0])?)?;
    tasks.push(shard_of(alloc, scripts, fields, LINES[1])?)?;
    tasks.push(shard_of(alloc, scripts, fields, LINES[2])?)?;
    Ok(tasks)
}

/// What the shards leave that have ended.
fn outcomes_of(
    alloc: Global,
    tasks: Vec<ShardTask<'_, Counting>>,
) -> Result<Vec<Outcome>, AllocError> {
    let mut outcomes = Vec::with_capacity(alloc, tasks.len())?;
    for task in tasks {
        match task.into_outcome() {
            Some(outcome) => outcomes.push(outcome)?,
            None => return Err(AllocError),
        }
    }
    Ok(outcomes)
}

/// What the shards leave in an order of turns of so many instructions, where `map` fails over so many objects.
fn run(alloc: Global, fails_at: usize, order: &[u32], q: u64) -> Result<Vec<Outcome>, AllocError>
    requires slice { 0 < q }
    requires entries { IsOrder 3 order.now }
{
    let mapping = Mapping {
        fields: Vec::new(alloc),
    };
    let fields = Fields::new(alloc, &mapping)?;
    let scripts = Counting { fails_at };
    let tasks = three(alloc, &scripts, &fields)?;
    let mut shards = Shards::new(tasks);
    shards.run(order, q)?;
    outcomes_of(alloc, shards.into_tasks())
}

/// Whether shards left these numbers of instructions.
fn have_steps(outcomes: &[Outcome], wanted: [u64; 3]) -> bool {
    outcomes.len() == 3
        && outcomes[0].steps == wanted[0]
        && outcomes[1].steps == wanted[1]
        && outcomes[2].steps == wanted[2]
}

/// The states of shards as a text, or the number of the lowest that has failed.
fn shown(alloc: Global, outcomes: &[Outcome]) -> Result<String, AllocError> {
    match states_of(alloc, outcomes) {
        Ok(states) => Json::Array(states).to_string(alloc),
        Err(StateErr::Failed(number)) => json!(in alloc; {"failed": number})?.to_string(alloc),
        Err(StateErr::NoMemory) => Err(AllocError),
    }
}

/// Over how many objects `map` fails, the instructions of each shard, and what is told of their states.
const ROWS: [(usize, [u64; 3], &str); 4] = [
    (0, [8, 4, 10], "[4,2,5]"),
    (3, [5, 4, 5], "{\"failed\":0}"),
    (4, [7, 4, 7], "{\"failed\":0}"),
    (5, [8, 4, 9], "{\"failed\":2}"),
];

/// Whether it is so in an order of turns of so many instructions.
fn row_holds(
    alloc: Global,
    row: &(usize, [u64; 3], &str),
    order: &[u32],
    q: u64,
) -> Result<bool, AllocError>
    requires slice { 0 < q }
    requires entries { IsOrder 3 order.now }
{
    let outcomes = run(alloc, row.0, order, q)?;
    let told = shown(alloc, outcomes.as_slice())?;
    Ok(have_steps(outcomes.as_slice(), row.1) && told.as_str() == row.2)
}

/// Whether it is so in all orders of four entries, and in the empty one.
fn all_hold(alloc: Global, row: &(usize, [u64; 3], &str), q: u64) -> Result<bool, AllocError>
    requires { 0 < q }
{
    for number in 0..ORDERS {
        let order = order_of(number);
        if !row_holds(alloc, row, &order, q)? {
            return Ok(false);
        }
    }
    row_holds(alloc, row, &[], q)
}

#[test]
fn shards_end_the_same_in_every_order(rt: HostRuntime) -> Result<(), Fail> {
    for row in &ROWS {
        for q in 1..6 {
            let holds = all_hold(rt.alloc(), row, q)?;
            assert!(rt; holds, "{q}");
        }
    }
    Ok(())
}

/// A turn goes from one run into the next, and takes as many instructions as it is given.
#[test]
fn turns_go_from_run_to_run(rt: HostRuntime) -> Result<(), Fail> {
    let alloc = rt.alloc();
    let mapping = Mapping {
        fields: Vec::new(alloc),
    };
    let fields = Fields::new(alloc, &mapping)?;
    let scripts = Counting { fails_at: 0 };
    let mut task = shard_of(alloc, &scripts, &fields, 2)?;
    assert!(rt; !task.is_done() && task.turn(4) == Turn::More);
    assert!(rt; task.turn(3) == Turn::More && !task.is_done());
    assert!(rt; task.turn(1) == Turn::Done && task.is_done());
    Ok(())
}

/// `reduce` starts with the states as a list, which stands in front of the params.
#[test]
fn states_are_bound(rt: HostRuntime) -> Result<(), Fail> {
    let alloc = rt.alloc();
    let outcomes = run(alloc, 0, &[], 1)?;
    let Ok(states) = states_of(alloc, outcomes.as_slice()) else {
        return Err(Fail::from(AllocError));
    };
    let params = Json::Object(Map::new(alloc));
    let bound = bind_states(alloc, states, &params, 100, Seed::of(b"reduce"));
    assert!(rt; bound.is_ok());
    let Ok(bound) = bound else {
        return Ok(());
    };
    let (heap, args) = bound.into_parts();
    assert!(rt; heap.len() == 2 && heap.room_left() == 100 && args.as_slice().len() == 2);
    Ok(())
}
