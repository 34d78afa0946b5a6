//! The numbers of a job, tried against their ranges.

ghost use Rattle.std.specs.Prelude.{◌≡◌, ◌≤◌, [], ◌∷◌, pos, None, Some, map, option_map, IfOk, IfErr, IfSome, IfNone, true, false, unwrap_or};
ghost use Rattle.serde_json.specs.View.{view, items_view};
ghost use Rattle.job_file.specs.Answers.{IsFault};
ghost use Rattle.job_file.specs.Jobs.{count_of, first, limit_fault, limits_of, range, range_faults, shards_of, turn_faults};
ghost use Rattle.job_file.specs.Keys.{value_at};
ghost use Rattle.job_file.specs.Limits.{all_name_turns, entries, entries_of, is_order, natural, names_turn, number_of, numbers, row_of_limit, whole_of};
ghost use Rattle.job_file.specs.declared.keys.Key.TheVariants as k;
ghost use Rattle.job_file.specs.declared.limits.Limit.TheVariants as l;

use crate::context::JobContext;
use crate::error::JobErr;
use crate::keys::Key;
use crate::limits::{JobLimits, Limit};
use crate::lookup::value_of;
use serde_json::Value;
use std::alloc::{AllocError, Global};

/// The most entries of `order`.
const ORDER_COUNT: usize = 100_000;

/// The most clients of `updates`.
const CLIENT_COUNT: u32 = 10_000;

/// The numbers of a job.
#[derive(Drop)]
pub struct Numbers {
    pub limits: JobLimits,
    pub shards: u32,
    pub order: Vec<u32>,
    pub slice: u64,
    pub capacity: u32,
}

/// The number of a limit, or its default.
fn number_of(limit: Limit, file: &Value) -> i64
    ensures { result ≡ number_of limit (view file.now) }
{
    let place = match limit {
        Limit::Shards | Limit::Order | Limit::Slice | Limit::Capacity => Some(file),
        _ => value_of(file, Key::Limits),
    };
    let value = match place {
        Some(place) => place.get(limit.name()),
        None => None,
    };
    match value.and_then(Value::as_i64) {
        Some(number) => number,
        None => limit.row().default,
    }
}

/// The number of a limit where it is in its range.
fn in_range(limit: Limit, file: &Value) -> Result<u64, Limit>
    ensures number { IfOk result (λ n. n ≡ natural (number_of limit (view file.now))) }
    ensures most { IfOk result (λ n. n ≤ (row_of_limit limit).most) }
    ensures within { IfOk result (λ _. limit_fault (view file.now) limit ≡ None) }
    ensures out { IfErr result (λ e. e ≡ limit) }
    ensures fault { IfErr result (λ _. limit_fault (view file.now) limit ≡ Some (range (row_of_limit limit).name)) }
{
    let number = number_of(limit, file);
    let row = limit.row();
    if row.least <= number && number <= row.most {
        Ok(number as u64)
    } else {
        Err(limit)
    }
}

/// The limits inside `limits`, or the first that is out of its range.
fn limits_of(context: JobContext, file: &Value) -> Result<JobLimits, Limit>
    ensures limits { IfOk result (λ limits. limits ≡ limits_of (view file.now)) }
    ensures within { IfOk result (λ _. first (range_faults context (view file.now)) ≡ first (turn_faults context (view file.now))) }
    ensures fault { IfErr result (λ e. first (range_faults context (view file.now)) ≡ Some (range (row_of_limit e).name)) }
{
    let loops = in_range(Limit::Loop, file)?;
    let depth = in_range(Limit::Depth, file)?;
    let ticks = in_range(Limit::Ticks, file)?;
    let room = in_range(Limit::Room, file)?;
    let input = in_range(Limit::Input, file)?;
    Ok(JobLimits {
        loops,
        depth: depth as u32,
        ticks,
        room,
        input,
    })
}

/// The number of one of so many that take turns, if an entry is one.
fn turn_of(entry: &Value, count: u32) -> Option<u32>
    ensures some { IfSome result (λ turn. (names_turn count (whole_of (view entry.now)) ≡ true) × (natural (unwrap_or (whole_of (view entry.now)) (pos 0)) ≡ turn)) }
    ensures none { IfNone result (names_turn count (whole_of (view entry.now)) ≡ false) }
{
    match entry.as_i64() {
        Some(number) => if 0 <= number && number < count as i64 {
            Some(number as u32)
        } else {
            None
        },
        None => None,
    }
}

/// The entries of a list, if each is the number of one of so many.
fn turns_in(alloc: Global, items: &Vec<Value>, count: u32) -> Result<Option<Vec<u32>>, AllocError>
    ensures some { IfOk result (λ order. IfSome order (λ order. (all_name_turns count (entries (items_view items.now.items)) ≡ true) × (order.items ≡ numbers (entries (items_view items.now.items))))) }
    ensures none { IfOk result (λ order. IfNone order (all_name_turns count (entries (items_view items.now.items)) ≡ false)) }
{
    let mut order = Vec::new(alloc);
    for item in items {
        match turn_of(item, count) {
            Some(turn) => order.push(turn)?,
            None => return Ok(None),
        }
    }
    Ok(Some(order))
}

/// What a list holds, if it is in the range of `order`.
fn order_in(alloc: Global, items: &Vec<Value>, count: u32) -> Result<Option<Vec<u32>>, AllocError>
    ensures some { IfOk result (λ order. IfSome order (λ order. (is_order count (entries (items_view items.now.items)) ≡ true) × (order.items ≡ numbers (entries (items_view items.now.items))))) }
    ensures none { IfOk result (λ order. IfNone order (is_order count (entries (items_view items.now.items)) ≡ false)) }
{
    if items.len() <= ORDER_COUNT {
        turns_in(alloc, items, count)
    } else {
        Ok(None)
    }
}

/// What `order` holds, if it is in its range.
fn order_of(alloc: Global, file: &Value, count: u32) -> Result<Option<Vec<u32>>, AllocError>
    ensures some { IfOk result (λ order. IfSome order (λ order. (is_order count (entries_of (value_at k.Order (view file.now))) ≡ true) × (order.items ≡ numbers (entries_of (value_at k.Order (view file.now)))))) }
    ensures none { IfOk result (λ order. IfNone order (is_order count (entries_of (value_at k.Order (view file.now))) ≡ false)) }
{
    match value_of(file, Key::Order).and_then(Value::as_array) {
        Some(items) => order_in(alloc, items, count),
        None => Ok(Some(Vec::new(alloc))),
    }
}

/// An error for a number out of its range.
fn out_of_range(alloc: Global, limit: Limit) -> JobErr
    ensures { IsFault result (Some (range (row_of_limit limit).name)) }
{
    match String::from_str(alloc, limit.name()) {
        Ok(name) => JobErr::Range(name),
        Err(_) => JobErr::NoMemory,
    }
}

/// Of how many an entry of `order` may name one: shards take turns, and in `updates` clients do.
fn count_of(context: JobContext, shards: u32) -> u32
    ensures { result ≡ count_of context shards }
{
    match context {
        JobContext::Updates => CLIENT_COUNT,
        _ => shards,
    }
}

/// The numbers of a job of a context, or the first that is out of its range.
pub fn numbers_of(alloc: Global, context: JobContext, file: &Value) -> Result<Numbers, JobErr>
    ensures within { IfOk result (λ _. first (range_faults context (view file.now)) ≡ None) }
    ensures limits { IfOk result (λ numbers. numbers.limits ≡ limits_of (view file.now)) }
    ensures shards { IfOk result (λ numbers. numbers.shards ≡ shards_of (view file.now)) }
    ensures order { IfOk result (λ n. n.order.items ≡ numbers (entries_of (value_at k.Order (view file.now)))) }
    ensures slice { IfOk result (λ numbers. numbers.slice ≡ natural (number_of l.Slice (view file.now))) }
    ensures capacity { IfOk result (λ numbers. numbers.capacity ≡ natural (number_of l.Capacity (view file.now))) }
    ensures fault { IfErr result (λ e. IsFault e (first (range_faults context (view file.now)))) }
{
    let limits = match limits_of(context, file) {
        Ok(limits) => limits,
        Err(limit) => return Err(out_of_range(alloc, limit)),
    };
    let shards = match in_range(Limit::Shards, file) {
        Ok(shards) => shards as u32,
        Err(limit) => return Err(out_of_range(alloc, limit)),
    };
    let Some(order) = order_of(alloc, file, count_of(context, shards))? else {
        return Err(out_of_range(alloc, Limit::Order));
    };
    let slice = match in_range(Limit::Slice, file) {
        Ok(slice) => slice,
        Err(limit) => return Err(out_of_range(alloc, limit)),
    };
    match in_range(Limit::Capacity, file) {
        Ok(capacity) => Ok(Numbers {
            limits,
            shards,
            order,
            slice,
            capacity: capacity as u32,
        }),
        Err(limit) => Err(out_of_range(alloc, limit)),
    }
}
