//! With what `reduce` starts.

ghost use Rattle.std.specs.Prelude.{◌≡◌, ◌∷◌, [], map, IfOk};
ghost use Rattle.serde_json.specs.View.{view};
ghost use Rattle.json_bridge.specs.Starts.{Answered};
ghost use Rattle.metric_ctx.specs.States.{reduce_start};

use json_bridge::{BindErr, Bound, bind};
use object_heap::Heap;
use object_values::{Elements, Seed, Value};
use serde_json::Value as Json;
use std::alloc::{AllocError, Global};

/// The values of the variables of `reduce`.
fn args_of(alloc: Global, states: Value, params: Value) -> Result<Elements<Value>, AllocError>
    ensures { IfOk result (λ args. args ≡ states ∷ params ∷ []) }
{
    let mut args = Elements::from_vec(Vec::with_capacity(alloc, 2)?);
    args.push(states)?;
    args.push(params)?;
    Ok(args)
}

/// Binds the states of all shards, in their order, and then `params`, which nothing may change, in a fresh heap of this room, which is
/// made from the seed. What is bound takes nothing from the room. `Number` where some number is no whole one of 64 bits with a sign;
/// `Syntax` and `Field` are never answered.
pub fn bind_states(
    alloc: Global,
    states: Vec<Json>,
    params: &Json,
    room: u64,
    seed: Seed,
) -> Result<Bound, BindErr>
    ensures { Answered result (reduce_start (view params.now) room (map view states.items)) }
{
    let mut heap = Heap::new(alloc, room, seed);
    let states = Json::Array(states);
    let states = bind(&mut heap, &states, false)?;
    let params = bind(&mut heap, params, true)?;
    let args = args_of(alloc, states, params)?;
    Ok(Bound { heap, args })
}
