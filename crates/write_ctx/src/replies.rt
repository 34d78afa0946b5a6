//! The reply to a run over a line.

ghost use Rattle.std.specs.Prelude.{◌≡◌, Ok, Some, codes, option_and_then, option_map, string_bytes, IfErr, IfOk};
ghost use Rattle.std.specs.Option.{option_copied};
ghost use Rattle.serde_json.specs.View.{view};
ghost use Rattle.object_values.specs.Pairs.{value_of};
ghost use Rattle.object_values.specs.declared.value.Value.{Value as ScriptValue};
ghost use Rattle.object_heap.specs.Parts.{pairs_in};
ghost use Rattle.object_heap.specs.declared.outcome.End.TheVariants as e;
ghost use Rattle.job_file.specs.Contexts.{named};
ghost use Rattle.json_bridge.specs.Giving.{TellsFault};
ghost use Rattle.json_bridge.specs.Without.{given_without};
ghost use Rattle.write_ctx.specs.Replies as spec;

use crate::keys::WriteKind;
use crate::placing::text_value;
use json_bridge::{GiveErr, give, give_without};
use json_replies::{kind_reply, reply_of};
use object_heap::{End, Heap, Outcome};
use object_values::{Object, Pairs, Value};
use serde_json::{Map, Value as Json, json};
use std::alloc::{AllocError, Global};

/// What is to be done with a document that an update has changed.
#[derive(Clone, Copy)]
enum Operation {
    Index,
    Nothing,
    Delete,
}

impl Operation {
    /// The operation of a name.
    fn named(name: &str) -> Option<Operation>
        ensures { result ≡ named name.now spec.operations }
    {
        match name {
            "index" => Some(Operation::Index),
            "none" => Some(Operation::Nothing),
            "noop" => Some(Operation::Nothing),
            "delete" => Some(Operation::Delete),
            _ => None,
        }
    }
}

// ---- what stands in `ctx`

/// What stands at a name in `ctx`.
fn found<'h>(heap: &'h Heap, ctx: &Value, name: &Value) -> Option<&'h Value>
    ensures { option_copied result ≡ value_of (spec.ctx_pairs heap.now.objects ctx.now) name.now }
{
    match ctx {
        Value::Ref(id) => heap.map_get(*id, name),
        _ => None,
    }
}

/// The UTF-8 form of a text.
fn text_in(value: &Value) -> Result<Option<String>, AllocError>
    ensures { IfOk result (λ text. option_map string_bytes text ≡ spec.text_in value.now) }
{
    match value {
        Value::Str(text) => Ok(Some(text.to_utf8()?)),
        _ => Ok(None),
    }
}

/// The same of what may be there.
fn text_of(value: Option<&Value>) -> Result<Option<String>, AllocError>
    ensures { IfOk result (λ text. option_map string_bytes text ≡ spec.text_of (option_copied value.entry)) }
{
    match value {
        Some(value) => text_in(value),
        None => Ok(None),
    }
}

/// The UTF-8 form of the text that stands at a name in `ctx`.
fn text_at(heap: &Heap, ctx: &Value, name: &str) -> Result<Option<String>, AllocError>
    ensures { IfOk result (λ text. option_map string_bytes text ≡ spec.text_at heap.now.objects ctx.now name.now) }
{
    let name = text_value(heap.alloc(), name)?;
    text_of(found(heap, ctx, &name))
}

// ---- update

fn is_map_object(object: &Object) -> bool
    ensures { result ≡ spec.is_map_object object.now }
{
    matches!(object, Object::Map { .. })
}

fn is_object_map(object: Option<&Object>) -> bool
    ensures { result ≡ spec.is_found_map (option_copied object.entry) }
{
    match object {
        Some(object) => is_map_object(object),
        None => false,
    }
}

/// Whether a value is a map.
fn is_map(heap: &Heap, value: &Value) -> bool
    ensures { result ≡ spec.is_map heap.now.objects value.now }
{
    match value {
        Value::Ref(id) => is_object_map(heap.get(*id)),
        _ => false,
    }
}

/// The JSON form of a source, which has to be a map.
fn map_given(heap: &Heap, source: &Value) -> Result<Json, GiveErr>
    ensures value { IfOk result (λ json. spec.source_given heap.now.objects (Some source.now) ≡ Ok (view json)) }
    ensures error { IfErr result (TellsFault (spec.source_given heap.now.objects (Some source.now))) }
{
    if is_map(heap, source) {
        give(heap, source)
    } else {
        Err(GiveErr::Kind)
    }
}

/// The same of what may be there.
fn source_given(heap: &Heap, source: Option<&Value>) -> Result<Json, GiveErr>
    ensures value { IfOk result (λ json. spec.source_given heap.now.objects (option_copied source.entry) ≡ Ok (view json)) }
    ensures error { IfErr result (TellsFault (spec.source_given heap.now.objects (option_copied source.entry))) }
{
    match source {
        Some(source) => map_given(heap, source),
        None => Err(GiveErr::Kind),
    }
}

/// A document that is to be written.
fn index_json(alloc: Global, id: &str, source: Json) -> Result<Json, AllocError>
    ensures { IfOk result (λ reply. view reply ≡ spec.index_reply id.now (Ok (view source))) }
{
    json!(in alloc; {"_id": id, "_source": source, "op": "index"})
}

/// The reply to an update that writes its source, or the kind of the source's first fault.
fn index_reply(heap: &Heap, id: &str, source: Option<&Value>) -> Result<Json, AllocError>
    ensures { IfOk result (λ reply. view reply ≡ spec.index_reply id.now (spec.source_given heap.now.objects (option_copied source.entry))) }
{
    match source_given(heap, source) {
        Ok(json) => index_json(heap.alloc(), id, json),
        Err(GiveErr::Key) => kind_reply(heap.alloc(), "result-key"),
        Err(GiveErr::Depth) => kind_reply(heap.alloc(), "result-depth"),
        Err(GiveErr::Size) => kind_reply(heap.alloc(), "result-size"),
        Err(GiveErr::Kind) => kind_reply(heap.alloc(), "result-kind"),
        Err(GiveErr::NoMemory) => Err(AllocError),
    }
}

/// The reply to an update that needs no source.
fn plain_reply(alloc: Global, id: &str, name: &str) -> Result<Json, AllocError>
    ensures { IfOk result (λ reply. view reply ≡ spec.plain_reply id.now name.now) }
{
    json!(in alloc; {"_id": id, "op": name})
}

/// The reply to an update with this operation, of a document with this id.
fn operation_reply(
    heap: &Heap,
    ctx: &Value,
    operation: Operation,
    id: &str,
) -> Result<Json, AllocError>
    ensures { IfOk result (λ reply. view reply ≡ spec.operation_reply heap.now.objects ctx.now operation id.now) }
{
    match operation {
        Operation::Index => {
            let name = text_value(heap.alloc(), "_source")?;
            index_reply(heap, id, found(heap, ctx, &name))
        }
        Operation::Nothing => plain_reply(heap.alloc(), id, "none"),
        Operation::Delete => plain_reply(heap.alloc(), id, "delete"),
    }
}

/// The reply to an update with this operation.
fn operated(heap: &Heap, ctx: &Value, operation: Operation) -> Result<Json, AllocError>
    ensures { IfOk result (λ reply. view reply ≡ spec.operated heap.now.objects ctx.now (Some operation)) }
{
    match text_at(heap, ctx, "_id")? {
        Some(id) => operation_reply(heap, ctx, operation, id.as_str()),
        None => kind_reply(heap.alloc(), "result-kind"),
    }
}

/// The operation of an update.
fn operation_in(heap: &Heap, ctx: &Value) -> Result<Option<Operation>, AllocError>
    ensures { IfOk result (λ operation. operation ≡ option_and_then spec.operation_named (spec.text_at heap.now.objects ctx.now (codes "op"))) }
{
    match text_at(heap, ctx, "op")? {
        Some(name) => Ok(Operation::named(name.as_str())),
        None => Ok(None),
    }
}

/// The reply to an update.
fn update_reply(heap: &Heap, ctx: &Value) -> Result<Json, AllocError>
    ensures { IfOk result (λ reply. view reply ≡ spec.update_reply heap.now.objects ctx.now) }
{
    match operation_in(heap, ctx)? {
        Some(operation) => operated(heap, ctx, operation),
        None => kind_reply(heap.alloc(), "bad-op"),
    }
}

// ---- ingest

/// The pairs of the map that `ctx` is.
#[tactic(auto, using(crate::proofs::CtxPairs::pairs_are))]
fn ctx_pairs<'h>(heap: &'h Heap, ctx: &Value) -> Option<&'h Pairs>
    ensures { pairs_in (option_copied result) ≡ spec.ctx_pairs heap.now.objects ctx.now }
{
    match ctx {
        Value::Ref(id) => heap.pairs(*id),
        _ => None,
    }
}

/// The keys of `ctx` that are not written in the source.
fn beside_keys(alloc: Global) -> Result<Vec<Value>, AllocError>
    ensures { IfOk result (λ keys. keys.items ≡ spec.beside_keys) }
{
    let mut keys = Vec::with_capacity(alloc, 2)?;
    keys.push(text_value(alloc, "_id")?)?;
    keys.push(text_value(alloc, "_index")?)?;
    Ok(keys)
}

/// The JSON form of the other pairs of `ctx`.
#[tactic(auto, unfolding(json_bridge::specs::Without::given_without))]
fn others_given(heap: &Heap, keys: &[Value], pairs: Option<&Pairs>) -> Result<Json, GiveErr>
    ensures value { IfOk result (λ json. given_without keys.now heap.now.objects (pairs_in (option_copied pairs.entry)) ≡ Ok (view json)) }
    ensures error { IfErr result (TellsFault (given_without keys.now heap.now.objects (pairs_in (option_copied pairs.entry)))) }
{
    match pairs {
        Some(pairs) => give_without(heap, keys, pairs),
        None => Ok(Json::Object(Map::new(heap.alloc()))),
    }
}

/// The JSON form of the fields of an ingest's document.
fn fields_given(heap: &Heap, ctx: &Value) -> Result<Json, GiveErr>
    ensures value { IfOk result (λ json. given_without spec.beside_keys heap.now.objects (spec.ctx_pairs heap.now.objects ctx.now) ≡ Ok (view json)) }
    ensures error { IfErr result (TellsFault (given_without spec.beside_keys heap.now.objects (spec.ctx_pairs heap.now.objects ctx.now))) }
{
    let keys = beside_keys(heap.alloc())?;
    others_given(heap, keys.as_slice(), ctx_pairs(heap, ctx))
}

/// A document that is to be indexed.
fn document_json(alloc: Global, id: &str, index: &str, source: Json) -> Result<Json, AllocError>
    ensures { IfOk result (λ reply. view reply ≡ spec.document_reply id.now index.now (Ok (view source))) }
{
    json!(in alloc; {"_id": id, "_index": index, "_source": source})
}

/// The reply to an ingest of a document with this id and index, or the kind of the first fault of its fields.
fn document_reply(heap: &Heap, ctx: &Value, id: &str, index: &str) -> Result<Json, AllocError>
    ensures { IfOk result (λ reply. view reply ≡ spec.document_reply id.now index.now (given_without spec.beside_keys heap.now.objects (spec.ctx_pairs heap.now.objects ctx.now))) }
{
    match fields_given(heap, ctx) {
        Ok(json) => document_json(heap.alloc(), id, index, json),
        Err(GiveErr::Key) => kind_reply(heap.alloc(), "result-key"),
        Err(GiveErr::Depth) => kind_reply(heap.alloc(), "result-depth"),
        Err(GiveErr::Size) => kind_reply(heap.alloc(), "result-size"),
        Err(GiveErr::Kind) => kind_reply(heap.alloc(), "result-kind"),
        Err(GiveErr::NoMemory) => Err(AllocError),
    }
}

/// The reply to an ingest of a document with this id.
fn indexed_reply(heap: &Heap, ctx: &Value, id: &str) -> Result<Json, AllocError>
    ensures { IfOk result (λ reply. view reply ≡ spec.indexed_reply heap.now.objects ctx.now id.now) }
{
    match text_at(heap, ctx, "_index")? {
        Some(index) => document_reply(heap, ctx, id, index.as_str()),
        None => kind_reply(heap.alloc(), "result-kind"),
    }
}

/// The reply to an ingest.
fn ingest_reply(heap: &Heap, ctx: &Value) -> Result<Json, AllocError>
    ensures { IfOk result (λ reply. view reply ≡ spec.ingest_reply heap.now.objects ctx.now) }
{
    match text_at(heap, ctx, "_id")? {
        Some(id) => indexed_reply(heap, ctx, id.as_str()),
        None => kind_reply(heap.alloc(), "result-kind"),
    }
}

// ---- all

/// The reply to a run that ended so over a heap, where that is no thrown error and no limit.
fn ended_reply(kind: WriteKind, ctx: &Value, end: &End, heap: &Heap) -> Result<Json, AllocError>
    requires { (value : ScriptValue) × (end.now ≡ e.Value value) }
    ensures { IfOk result (λ reply. view reply ≡ spec.reply_of kind ctx.now end.now heap.now.objects) }
{
    match kind {
        WriteKind::Update => update_reply(heap, ctx),
        WriteKind::Ingest => ingest_reply(heap, ctx),
        WriteKind::Test => reply_of(heap.alloc(), end, heap),
    }
}

/// The reply to a run that ended so over a heap.
fn end_reply(kind: WriteKind, ctx: &Value, end: &End, heap: &Heap) -> Result<Json, AllocError>
    ensures { IfOk result (λ reply. view reply ≡ spec.reply_of kind ctx.now end.now heap.now.objects) }
{
    match end {
        End::Value(_) => ended_reply(kind, ctx, end, heap),
        End::Thrown { .. } => reply_of(heap.alloc(), end, heap),
        End::Limit { .. } => reply_of(heap.alloc(), end, heap),
    }
}

/// The reply to a run whose start bound `ctx` to this value. After a thrown error or a limit it is that of a script. After a normal end of
/// an update it is `bad-op` where `op` is none of `index`, `none`, `noop` and `delete`, and `result-kind` where `_id` is no text; then the
/// document with its `_source` where `op` is `index`, which has to be a map, and else its `_id` alone. After that of an ingest it is
/// `result-kind` where `_id` or `_index` is no text, and else the document with what else `ctx` has. That of a test is that of a script. A
/// source is told by its JSON form, or by
/// the kind of its first fault: `result-key`, `result-depth`, `result-size` or `result-kind`.
pub fn reply(kind: WriteKind, ctx: &Value, outcome: &Outcome) -> Result<Json, AllocError>
    ensures { IfOk result (λ reply. view reply ≡ spec.reply_of kind ctx.now outcome.now.end outcome.now.heap.objects) }
{
    end_reply(kind, ctx, &outcome.end, &outcome.heap)
}
