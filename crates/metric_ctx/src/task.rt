//! A shard as a task.

ghost use Rattle.std.specs.Prelude.{◌≡◌, ◌++◌, ◌∷◌, [], max, false, IfOk, IfErr, OnOk};
ghost use Rattle.serde_json.specs.View.{view};
ghost use Rattle.job_file.specs.Values.{has_whole_numbers};
ghost use Rattle.json_bridge.specs.declared.error.NumErr.TheVariants as num_err;
ghost use Rattle.metric_ctx.specs.Scripts.{comes_by};
ghost use Rattle.metric_ctx.specs.Shards.{ground, id_of, shard, state_object};
ghost use Rattle.metric_ctx.specs.Standing.{ending_in, place, rest_in, standing_by};

use crate::moves::{Ground, args_of, has_ended, take_turn};
use crate::phase::Phase;
use crate::scripts::ShardScripts;
use crate::standing::Standing;
use json_bridge::{NumErr, bind};
use object_heap::{Heap, Outcome};
use object_values::{Guard, Object, Pairs, Seed, Value};
use pl_types::classes::HASH_MAP;
use search_ctx::{FieldDoc, Fields};
use serde_json::Value as Json;
use std::alloc::{AllocError, Global};
use std::collections::VecDeque;
use task_core::{Task, Turn};

/// A shard of a metric. Over one store `init` is run once on an empty state, then `map` once for each line of the shard, in the order
/// of the input, then `combine` once; the first that ends with an error ends the shard. Between two runs room is given anew, and the
/// lambdas of the script that has ended are gone.
///
/// It comes to what its last run leaves, with the instructions of all its runs, as far as 64 bits count them.
pub struct ShardTask<'a, S: ShardScripts> {
    on: Ground<'a, S>,
    /// The documents that are still to be mapped.
    docs: VecDeque<FieldDoc>,
    /// The instructions of the runs that have ended.
    steps: u64,
    standing: Standing<S::Run>,
}

impl<'a, S: ShardScripts> Drop for ShardTask<'a, S> {
    fn drop(self) {
        let ShardTask {
            on: _on,
            docs: _docs,
            steps: _,
            standing: _standing,
        } = self;
    }
}

/// Places the state of a shard, which is an empty map.
fn place_state(heap: &mut Heap) -> Result<(), AllocError>
    ensures { OnOk result (heap.new ≡ record heap.old { objects = heap.old.objects ++ state_object ∷ [] }) }
{
    let state = Object::Map {
        class: HASH_MAP,
        pairs: Pairs::new(heap.alloc(), heap.seed()),
        guard: Guard::Open,
        changes: 0,
    };
    let _id = heap.place(state)?;
    Ok(())
}

/// The number of the object that a value is.
fn id_of(value: &Value) -> u32
    ensures { result ≡ id_of value.now }
{
    match value {
        Value::Ref(id) => *id,
        _ => 0,
    }
}

impl<'a, S: ShardScripts> ShardTask<'a, S> {
    /// A shard that has not run, over the doc values of its lines. `params` is an object; each run has this room, and the heap is made
    /// from the seed.
    ///
    /// # Errors
    ///
    /// `Number` where some number of `params` is no whole one of 64 bits with a sign; want of memory.
    pub fn new(
        alloc: Global,
        scripts: &'a S,
        fields: &'a Fields,
        params: &Json,
        docs: VecDeque<FieldDoc>,
        room: u64,
        seed: Seed,
    ) -> Result<ShardTask<'a, S>, NumErr>
        ensures rest { IfOk result (λ task. rest_in (place (comes_by S.begun S.rest S.ending task.on.scripts.now) (ground task.on.fields.now task.on.params task.on.room) task.docs.items task.steps (standing_by S.rest S.ending task.standing))
            ≡ max 1 (shard (comes_by S.begun S.rest S.ending scripts.now) fields.now (view params.now) room docs.items).count) }
        ensures ending { IfOk result (λ task. ending_in (place (comes_by S.begun S.rest S.ending task.on.scripts.now) (ground task.on.fields.now task.on.params task.on.room) task.docs.items task.steps (standing_by S.rest S.ending task.standing))
            ≡ (shard (comes_by S.begun S.rest S.ending scripts.now) fields.now (view params.now) room docs.items).left) }
        ensures error { IfErr result (λ e. (e ≡ num_err.Number) → (has_whole_numbers (view params.now) ≡ false)) }
    {
        let mut heap = Heap::new(alloc, room, seed);
        place_state(&mut heap)?;
        let bound = bind(&mut heap, params, true)?;
        let params = id_of(&bound);
        let args = args_of(alloc, params, None)?;
        let memory = scripts.memory(alloc);
        let run = scripts.start(Phase::Init, memory, heap, args)?;
        let on = Ground {
            scripts,
            fields,
            params,
            room,
        };
        Ok(ShardTask {
            on,
            docs,
            steps: 0,
            standing: Standing::Runs(Phase::Init, run),
        })
    }

    /// What the shard leaves, once it has ended.
    pub fn into_outcome(self) -> Option<Outcome>
        ensures { rest_in (place (comes_by S.begun S.rest S.ending self.entry.on.scripts.now) (ground self.entry.on.fields.now self.entry.on.params self.entry.on.room) self.entry.docs.items self.entry.steps (standing_by S.rest S.ending self.entry.standing)) ≡ 0
            → result ≡ ending_in (place (comes_by S.begun S.rest S.ending self.entry.on.scripts.now) (ground self.entry.on.fields.now self.entry.on.params self.entry.on.room) self.entry.docs.items self.entry.steps (standing_by S.rest S.ending self.entry.standing)) }
    {
        let ShardTask {
            on: _on,
            docs: _docs,
            steps: _,
            standing,
        } = self;
        match standing {
            Standing::Ended(outcome) => Some(outcome),
            Standing::Runs(_, _) => None,
            Standing::Lost => None,
        }
    }
}

impl<'a, S: ShardScripts> Task for ShardTask<'a, S> {
    type Ending = Option<Outcome>;

    ghost rest = { λ t. rest_in (place (comes_by S.begun S.rest S.ending t.on.scripts.now) (ground t.on.fields.now t.on.params t.on.room) t.docs.items t.steps (standing_by S.rest S.ending t.standing)) };

    ghost ending = { λ t. ending_in (place (comes_by S.begun S.rest S.ending t.on.scripts.now) (ground t.on.fields.now t.on.params t.on.room) t.docs.items t.steps (standing_by S.rest S.ending t.standing)) };

    fn is_done(&self) -> bool {
        has_ended(&self.standing)
    }

    fn turn(&mut self, q: u64) -> Turn {
        take_turn(
            &self.on,
            &mut self.docs,
            &mut self.steps,
            &mut self.standing,
            q,
        )
    }
}
