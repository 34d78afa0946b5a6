//! What a line of input is bound to.

ghost use Rattle.std.specs.Prelude.{◌≡◌, ◌∷◌, [], Err, IfOk};
ghost use Rattle.std.specs.Str.{IsUtf8};
ghost use Rattle.serde_json.specs.Read.{read};
ghost use Rattle.serde_json.specs.View.{view};
ghost use Rattle.object_values.specs.Seeds.{seed_with};
ghost use Rattle.json_bridge.specs.Starts.{Answered, syntax};
ghost use Rattle.write_ctx.specs.Lines.{bound_document, bound_line};

use crate::checking::is_line;
use crate::keys::WriteKind;
use crate::placing::place_ctx;
use job_file::has_whole_numbers;
use json_bridge::{BindErr, Bound, Params};
use json_reading::{Scratch, read_json};
use object_values::{Elements, Seed, Value};
use serde_json::Value as Json;
use std::alloc::{AllocError, Global};

/// Binds a document that was read, as `bind_line` does what it reads of a line; so `Syntax` is never answered. The heap is made from
/// the seed.
pub fn bind_document(
    alloc: Global,
    kind: WriteKind,
    params: &Params,
    line: Json,
    room: u64,
    seed: Seed,
) -> Result<Bound, BindErr>
    ensures { Answered result (bound_document kind (view params.now.json) room (view line)) }
{
    if !has_whole_numbers(&line) {
        return Err(BindErr::Number);
    }
    let (mut heap, params) = params.begin(alloc, room, seed)?;
    if !is_line(kind, &line) {
        return Err(BindErr::Field);
    }
    let ctx = place_ctx(&mut heap, kind, line)?;
    let args = args_of(alloc, params, ctx)?;
    Ok(Bound { heap, args })
}

/// The values of `params` and `ctx`.
fn args_of(alloc: Global, params: Value, ctx: Value) -> Result<Elements<Value>, AllocError>
    ensures { IfOk result (λ args. args ≡ params ∷ ctx ∷ []) }
{
    let mut args = Elements::from_vec(Vec::with_capacity(alloc, 2)?);
    args.push(params)?;
    args.push(ctx)?;
    Ok(args)
}

/// From what the heap of a line is made, which changes no answer.
fn seed_over(seed: Seed, line: &[u8]) -> Seed
    ensures { result ≡ seed_with seed line.now }
{
    seed.with(line)
}

/// Binds a line of input in a context: a fresh heap with `params`, which nothing may change, and then `ctx`, and the values of the
/// two. Of the causes why not the first is answered: `Syntax` where `serde_json` does not read the line, `Number` where some number of it or
/// of `params` is no whole one of 64 bits with a sign, `Field` where it is no object, or has a key that its kind does not have, or lacks
/// one that is required, or has a value of another type. What is bound takes nothing from the room. The heap is made from the job's seed
/// and from the line, so that whoever writes lines cannot choose keys that collide in the heap of one of them. The scratch is kept from
/// line to line, and what lies in it changes nothing.
pub fn bind_line(
    alloc: Global,
    kind: WriteKind,
    params: &Params,
    line: &[u8],
    room: u64,
    seed: Seed,
    scratch: &mut Scratch,
) -> Result<Bound, BindErr>
    ensures text { IsUtf8 line.now → Answered result (bound_line kind (view params.now.json) room (read line.now)) }
    ensures bytes { ¬ IsUtf8 line.now → Answered result (Err syntax) }
{
    let json = read_json(alloc, line, scratch)?;
    bind_document(alloc, kind, params, json, room, seed_over(seed, line))
}
