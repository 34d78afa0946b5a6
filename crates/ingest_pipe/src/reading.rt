//! Pipelines read from JSON, each with the first place that is wrong.

ghost use Rattle.std.specs.Prelude.{◌≡◌, OnOk, IfOk, option_map};
ghost use Rattle.serde_json.specs.Find.{as_object, get};
ghost use Rattle.serde_json.specs.View.{view, items_view, members_view};
ghost use Rattle.ingest_pipe.specs.Keys.{on_failure};
ghost use Rattle.ingest_pipe.specs.Paths.{IsGiven, no_fault};
ghost use Rattle.ingest_pipe.specs.Reading.{IsRead, chained, ended, failures_at, failures_in, fault_before, fault_behind, guard_of, kind_of, list_at, met_with, only_member, pipeline_of, processor_at};
ghost use Rattle.ingest_pipe.specs.Settings.{test_of};

use crate::error::PipeErr;
use crate::forms::first_wrong;
use crate::keys::{KEYS_BEFORE, KEYS_BEHIND, Key, Kind, ON_FAILURE, unknown_key};
use crate::paths::{bad, bad_below, below, numbered};
use crate::processors::{Action, Guard, Pipeline, Processors};
use crate::scripts::PipeScript;
use crate::settings::{action_of, change_of, follows_of, test_of};
use plain_data::{Boxed, Items};
use serde_json::{Map, Value};
use std::alloc::{AllocError, Global};

/// The path of a pipeline.
const WHOLE: &str = "pipeline";

/// The most processors of a pipeline, those of lists for failures inside.
const MOST_PROCESSORS: usize = 256;

/// How deep lists for failures stand in one another.
const LEVELS: u32 = 16;

/// What was met of a pipeline: how many processors, and the scripts in their order.
pub(crate) struct Met {
    pub count: usize,
    pub scripts: Items<PipeScript>,
}

/// A processor.
pub(crate) struct Processor {
    pub guard: Guard,
    pub action: Action,
    pub on_failure: Processors,
}

impl Drop for Met {
    fn drop(self) {
        let Met {
            count: _,
            scripts: _scripts,
        } = self;
    }
}

impl Drop for Processor {
    fn drop(self) {
        let Processor {
            guard: _,
            action: _action,
            on_failure: _on_failure,
        } = self;
    }
}

impl Met {
    /// The scripts.
    fn into_scripts(self) -> Items<PipeScript>
        ensures { result ≡ self.scripts }
    {
        let Met { count: _, scripts } = self;
        scripts
    }
}

impl Processor {
    /// A list with this processor in front.
    fn before(self, alloc: Global, rest: Processors) -> Result<Processors, AllocError>
        ensures { IfOk result (λ processors. processors ≡ Processors.Then self.guard self.action self.on_failure rest) }
    {
        let Processor {
            guard,
            action,
            on_failure,
        } = self;
        let rest = Boxed::new(alloc, rest)?;
        let on_failure = Boxed::new(alloc, on_failure)?;
        Ok(Processors::Then(guard, action, on_failure, rest))
    }
}

/// The name and the value of the only member of an object.
fn only_member<'v>(value: &'v Value) -> Option<(&'v str, &'v Value)>
    ensures { option_map (λ m. record { name = m.0.now; value = view m.1.now }) result ≡ only_member (view value.now) }
{
    let members = value.as_object()?;
    let mut entries = members.iter();
    let (name, value) = entries.next()?;
    match entries.next() {
        Some(_) => None,
        None => Some((name.as_str(), value)),
    }
}

/// Meets a script, if there is one.
fn meet(met: &mut Met, script: Option<PipeScript>) -> Result<(), AllocError>
    ensures { OnOk result (met.new ≡ met_with met.old script) }
{
    match script {
        Some(script) => met.scripts.push(script),
        None => Ok(()),
    }
}

/// Tries the keys of a processor before its list for failures.
fn try_before(
    alloc: Global,
    path: &str,
    kind: Kind,
    members: &Map<String, Value>,
    processor: &Value,
) -> Result<(), PipeErr>
    ensures { IsGiven (no_fault path.now (fault_before kind (members_view members.now.entries) (view processor.now))) result }
{
    if let Some(name) = unknown_key(kind, members) {
        return Err(bad_below(alloc, path, name));
    }
    match first_wrong(alloc, kind, &KEYS_BEFORE, processor)? {
        Some(key) => Err(bad_below(alloc, path, key.name())),
        None => Ok(()),
    }
}

/// Tries the keys of a processor behind its list for failures.
fn try_behind(alloc: Global, path: &str, kind: Kind, processor: &Value) -> Result<(), PipeErr>
    ensures { IsGiven (no_fault path.now (fault_behind kind (view processor.now))) result }
{
    match first_wrong(alloc, kind, &KEYS_BEHIND, processor)? {
        Some(key) => Err(bad_below(alloc, path, key.name())),
        None => Ok(()),
    }
}

/// Meets the script that tests a document, and says when the processor acts and what follows where it fails.
fn meet_test(
    alloc: Global,
    path: &str,
    processor: &Value,
    met: &mut Met,
) -> Result<Guard, AllocError>
    ensures guard { IfOk result (λ guard. guard ≡ guard_of path.now (view processor.now) met.old) }
    ensures met { OnOk result (met.new ≡ met_with met.old (test_of path.now (view processor.now))) }
{
    let script = test_of(alloc, path, processor)?;
    let test = match &script {
        Some(_) => Some(met.scripts.len()),
        None => None,
    };
    meet(met, script)?;
    Ok(Guard {
        test,
        follows: follows_of(processor),
    })
}

/// Reads what a processor does, once its list for failures is read.
fn end_processor(
    alloc: Global,
    path: &str,
    kind: Kind,
    processor: &Value,
    met: &mut Met,
) -> Result<Action, PipeErr>
    ensures { IsRead (ended path.now kind (view processor.now) met.old) met.new result }
{
    try_behind(alloc, path, kind, processor)?;
    let action = action_of(alloc, path, kind, met.scripts.len(), processor)?;
    let change = change_of(alloc, path, kind, processor)?;
    meet(met, change)?;
    Ok(action)
}

/// Reads the processor of a kind, from the object at its path.
#[cycle(reading)]
fn read_kind(
    alloc: Global,
    levels: u32,
    path: &str,
    kind: Kind,
    processor: &Value,
    met: &mut Met,
) -> Result<Processor, PipeErr>
    ensures { IsRead (kind_of (failures_at levels) path.now kind (as_object (view processor.now)) (view processor.now) met.old) met.new result }
{
    let Some(members) = processor.as_object() else {
        return Err(bad(alloc, path));
    };
    try_before(alloc, path, kind, members, processor)?;
    let guard = meet_test(alloc, path, processor, met)?;
    let on_failure = read_failures(alloc, levels, path, processor, met)?;
    let action = end_processor(alloc, path, kind, processor, met)?;
    Ok(Processor {
        guard,
        action,
        on_failure,
    })
}

/// Reads the processor at a path.
#[cycle(reading)]
fn read_processor(
    alloc: Global,
    levels: u32,
    path: &str,
    value: &Value,
    met: &mut Met,
) -> Result<Processor, PipeErr>
    ensures { IsRead (processor_at (failures_at levels) path.now (view value.now) met.old) met.new result }
{
    if met.count >= MOST_PROCESSORS {
        return Err(bad(alloc, path));
    }
    met.count += 1;
    let Some((name, processor)) = only_member(value) else {
        return Err(bad(alloc, path));
    };
    let path = below(alloc, path, name)?;
    match Kind::named(name) {
        Some(kind) => read_kind(alloc, levels, path.as_str(), kind, processor, met),
        None => Err(bad(alloc, path.as_str())),
    }
}

/// Reads the list for failures of a processor, if there is one.
#[cycle(reading)]
fn read_failures(
    alloc: Global,
    levels: u32,
    path: &str,
    processor: &Value,
    met: &mut Met,
) -> Result<Processors, PipeErr>
    ensures { IsRead (failures_in (failures_at levels) path.now (get on_failure (view processor.now)) met.old) met.new result }
{
    match processor.get(ON_FAILURE) {
        Some(list) => {
            let path = below(alloc, path, ON_FAILURE)?;
            read_failures_at(alloc, levels, path.as_str(), list, met)
        }
        None => Ok(Processors::End),
    }
}

/// Reads a list for failures, which is not empty.
#[cycle(reading)]
fn read_failures_at(
    alloc: Global,
    levels: u32,
    path: &str,
    list: &Value,
    met: &mut Met,
) -> Result<Processors, PipeErr>
    ensures { IsRead (failures_at levels path.now (view list.now) met.old) met.new result }
{
    if levels == 0 {
        return Err(bad(alloc, path));
    }
    let Some(items) = list.as_array() else {
        return Err(bad(alloc, path));
    };
    if items.is_empty() {
        return Err(bad(alloc, path));
    }
    read_list(alloc, levels - 1, path, items, met)
}

/// Reads a list of processors.
#[cycle(reading)]
fn read_list(
    alloc: Global,
    levels: u32,
    path: &str,
    items: &Vec<Value>,
    met: &mut Met,
) -> Result<Processors, PipeErr>
    ensures { IsRead (list_at (failures_at levels) path.now (items_view items.now.items) met.old) met.new result }
{
    let mut all = Items::new(alloc);
    'items: for (number, item) in items.iter().enumerate() {
        let place = numbered(alloc, path, number)?;
        let processor = read_processor(alloc, levels, place.as_str(), item, met)?;
        all.push(processor)?;
    }
    let processors = chained(alloc, all)?;
    Ok(processors)
}

/// Processors as one list.
fn chained(alloc: Global, all: Items<Processor>) -> Result<Processors, AllocError>
    ensures { IfOk result (λ processors. processors ≡ chained all Processors.End) }
{
    let mut left = all;
    let mut rest = Processors::End;
    'left: while let Some(last) = left.pop() {
        rest = last.before(alloc, rest)?;
    }
    Ok(rest)
}

impl Pipeline {
    /// The pipeline that a value denotes: a list of at most 256 processors, those of lists for failures inside, which stand
    /// in one another at most 16 deep.
    ///
    /// A processor is an object with its kind as the only key, and there an object. `script` has a `source` and may have
    /// `params`; `set` has a `field` and a `value`, and may have `override`; `remove` has a `field`, and may have
    /// `ignore_missing`; `rename` has a `field` and a `target_field`, and may have `ignore_missing`; `fail` has a
    /// `message`; `drop` has nothing of its own. Each may have `if`, `ignore_failure`, and `on_failure`, a list that is not
    /// empty.
    ///
    /// Bad: the path of the first place that is wrong. Processors come in their order; of one that it has a place at all,
    /// that it is an object with one key, that the key is a kind and its value an object, then the first unknown key, then
    /// the keys in the order of their names by bytes, those inside `on_failure` at its place, then the first key that is
    /// missing. A number in `value` or in `params` that is no whole one of 64 bits with a sign is wrong at that key.
    /// NoMemory: want of memory.
    pub fn read(alloc: Global, value: &Value) -> Result<Pipeline, PipeErr>
        ensures { IsGiven (pipeline_of (view value.now)) result }
    {
        let Some(items) = value.as_array() else {
            return Err(bad(alloc, WHOLE));
        };
        let mut met = Met {
            count: 0,
            scripts: Items::new(alloc),
        };
        let processors = read_list(alloc, LEVELS, WHOLE, items, &mut met)?;
        Ok(Pipeline {
            processors,
            scripts: met.into_scripts(),
        })
    }
}
