//! The params of a job, bound once for all its lines.

ghost use Rattle.std.specs.Prelude.{◌≡◌, true, false, [], IfErr, IfOk, IfSome};
ghost use Rattle.serde_json.specs.View.{view};
ghost use Rattle.job_file.specs.Values.{has_whole_numbers};
ghost use Rattle.json_bridge.specs.Binding.{bound};
ghost use Rattle.json_bridge.specs.declared.error.NumErr.TheVariants as num_err;

use crate::binding::bind;
use crate::error::NumErr;
use crate::laws::binding_freezes;
use object_heap::{Front, Heap};
use object_values::{Seed, Value};
use serde_json::Value as Json;
use std::alloc::{AllocError, Global};

/// The params of a job. They are bound once, and stand in front of the heap of each line: nothing may change them, at any depth, so each
/// line starts with them as they are.
pub struct Params {
    pub json: Json,
    // The objects that they are bound to, and the value, where they are bound.
    front: Front,
    value: Value,
    // Whether they are bound: each number in them is a whole one of 64 bits with a sign.
    is_bound: bool,
    ghost whole: { is_bound ≡ true → has_whole_numbers (view json) ≡ true },
    ghost objects: { is_bound ≡ true → front ≡ (bound true [] (view json)).objects },
    ghost names: { is_bound ≡ true → value ≡ (bound true [] (view json)).value },
}

impl Drop for Params {
    fn drop(self) {
        let Params {
            json: _json,
            front: _front,
            value: _value,
            is_bound: _is_bound,
        } = self;
    }
}

// What they are bound to.
#[derive(Drop)]
struct BoundParams {
    front: Front,
    value: Value,
}

// The objects in front of all heaps, and the value that names them. `None` where a number is none of 64 bits with a sign.
fn bound_once(alloc: Global, json: &Json, seed: Seed) -> Result<Option<BoundParams>, AllocError>
    ensures whole { IfOk result (λ found. IfSome found (λ _. has_whole_numbers (view json.now) ≡ true)) }
    ensures objects { IfOk result (λ found. IfSome found (λ params. params.front ≡ (bound true [] (view json.now)).objects)) }
    ensures value { IfOk result (λ found. IfSome found (λ params. params.value ≡ (bound true [] (view json.now)).value)) }
{
    binding_freezes();
    let mut heap = Heap::new(alloc, 0, seed);
    match bind(&mut heap, json, true) {
        Ok(value) => match heap.into_front()? {
            Some(front) => Ok(Some(BoundParams { front, value })),
            None => Ok(None),
        },
        Err(NumErr::Number) => Ok(None),
        Err(NumErr::NoMemory) => Err(AllocError),
    }
}

impl Params {
    /// These params. The maps in them hash their keys by the seed of the job.
    ///
    /// # Errors
    ///
    /// Want of memory.
    pub fn new(alloc: Global, json: Json, seed: Seed) -> Result<Params, AllocError>
        ensures { IfOk result (λ params. view params.json ≡ view json) }
    {
        match bound_once(alloc, &json, seed)? {
            Some(found) => {
                let BoundParams { front, value } = found;
                Ok(Params {
                    json,
                    front,
                    value,
                    is_bound: true,
                })
            }
            None => Ok(Params {
                json,
                front: Front::none(),
                value: Value::Null,
                is_bound: false,
            }),
        }
    }

    /// A heap that begins with the params, and the value that they are in it.
    ///
    /// # Errors
    ///
    /// `Number` where a number in them is no whole one of 64 bits with a sign, and want of memory.
    pub fn begin(&self, alloc: Global, room: u64, seed: Seed) -> Result<(Heap, Value), NumErr>
        ensures store { IfOk result (λ begun. begun.0 ≡ record { objects = (bound true [] (view self.now.json)).objects; room = room }) }
        ensures value { IfOk result (λ begun. begun.1 ≡ (bound true [] (view self.now.json)).value) }
        ensures whole { IfOk result (λ _. has_whole_numbers (view self.now.json) ≡ true) }
        ensures error { IfErr result (λ e. (e ≡ num_err.Number) → (has_whole_numbers (view self.now.json) ≡ false)) }
    {
        if self.is_bound {
            let front = self.front.share()?;
            let value = self.value.share()?;
            return Ok((Heap::over(front, alloc, room, seed), value));
        }
        let mut heap = Heap::new(alloc, room, seed);
        let value = bind(&mut heap, &self.json, true)?;
        Ok((heap, value))
    }
}
