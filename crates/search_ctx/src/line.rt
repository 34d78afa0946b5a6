//! What a line of input is bound to.

ghost use Rattle.std.specs.Prelude.{◌≡◌, ◌∷◌, Some, None, Err, option_map, IfOk, IfErr};
ghost use Rattle.std.specs.Str.{IsUtf8};
ghost use Rattle.serde_json.specs.Read.{read};
ghost use Rattle.serde_json.specs.View.{view};
ghost use Rattle.object_values.specs.Seeds.{seed_with};
ghost use Rattle.search_ctx.specs.declared.error.DocErr.TheVariants as doc_err;
ghost use Rattle.json_bridge.specs.Starts.{Answered, syntax};
ghost use Rattle.search_ctx.specs.Lines.{bound_document, bound_line, score_args, score_in, score_of, search_of, search_view};
ghost use Rattle.search_ctx.specs.declared.line.SearchKind.TheVariants as k;

use crate::doc::FieldDoc;
use crate::error::DocErr;
use crate::fields::Fields;
use crate::placing::place_doc;
use crate::walk::SCORE_KEY;
use job_file::has_whole_numbers;
use json_bridge::{BindErr, Bound, Params};
use json_reading::{Scratch, read_json};
use object_values::{Elements, Seed, Value};
use serde_json::Value as Json;
use std::alloc::{AllocError, Global};

/// A context over documents.
#[derive(Clone, Copy, Debug, PartialEq, Eq)]
pub enum SearchKind {
    /// Whether a document is taken: with `params` and `doc`.
    Filter,
    /// The score of a document: with `params`, `doc` and `_score`.
    Score,
    /// A value of a document: with `params` and `doc`.
    Field,
}

/// The doc values of a document, and its score where the context has one.
struct Search {
    doc: FieldDoc,
    score: Option<i64>,
}

impl Drop for Search {
    fn drop(self) {
        let Search {
            doc: _doc,
            score: _,
        } = self;
    }
}

/// The score that a value says: a whole number from 0.
fn score_in(json: &Json) -> Option<i64>
    ensures { result ≡ score_in (view json.now) }
{
    match json.as_i64() {
        Some(score) => if 0 <= score { Some(score) } else { None },
        None => None,
    }
}

/// The score of a document: 1 where it says none.
fn score_of(json: Option<&Json>) -> Option<i64>
    ensures { result ≡ score_of (option_map (λ json. view json.now) json.entry) }
{
    match json {
        Some(json) => score_in(json),
        None => Some(1),
    }
}

/// What a context takes of a document.
fn search_of(
    alloc: Global,
    kind: SearchKind,
    fields: &Fields,
    line: &Json,
) -> Result<Search, DocErr>
    ensures search { IfOk result (λ search. search_of kind fields.now (view line.now) ≡ Some (search_view search)) }
    ensures error { IfErr result (λ e. (e ≡ doc_err.Field) → (search_of kind fields.now (view line.now) ≡ None)) }
{
    match kind {
        SearchKind::Score => scored_search(alloc, fields, line),
        SearchKind::Filter | SearchKind::Field => Ok(Search {
            doc: fields.doc(alloc, line)?,
            score: None,
        }),
    }
}

/// The same for the context score.
fn scored_search(alloc: Global, fields: &Fields, line: &Json) -> Result<Search, DocErr>
    ensures search { IfOk result (λ search. search_of k.Score fields.now (view line.now) ≡ Some (search_view search)) }
    ensures error { IfErr result (λ e. (e ≡ doc_err.Field) → (search_of k.Score fields.now (view line.now) ≡ None)) }
{
    let Some(members) = line.as_object() else {
        return Err(DocErr::Field);
    };
    let Some(score) = score_of(line.get(SCORE_KEY)) else {
        return Err(DocErr::Field);
    };
    Ok(Search {
        doc: FieldDoc::of_unscored(alloc, fields, members)?,
        score: Some(score),
    })
}

/// Binds a document that was read, as `bind_line` does what it reads of a line; so `Syntax` is never answered. The heap is made from
/// the seed.
pub fn bind_document(
    alloc: Global,
    kind: SearchKind,
    fields: &Fields,
    params: &Params,
    line: &Json,
    room: u64,
    seed: Seed,
) -> Result<Bound, BindErr>
    ensures { Answered result (bound_document kind fields.now (view params.now.json) room (view line.now)) }
{
    if !has_whole_numbers(line) {
        return Err(BindErr::Number);
    }
    let (mut heap, params) = params.begin(alloc, room, seed)?;
    let search = search_of(alloc, kind, fields, line)?;
    let doc = place_doc(&mut heap, fields, &search.doc)?;
    let args = args_of(alloc, params, doc, search.score)?;
    Ok(Bound { heap, args })
}

/// The values of a context's variables.
fn args_of(
    alloc: Global,
    params: Value,
    doc: Value,
    score: Option<i64>,
) -> Result<Elements<Value>, AllocError>
    ensures { IfOk result (λ args. args ≡ params ∷ doc ∷ score_args score) }
{
    let mut args = Elements::from_vec(Vec::with_capacity(alloc, 3)?);
    args.push(params)?;
    args.push(doc)?;
    if let Some(score) = score {
        args.push(Value::Long(score))?;
    }
    Ok(args)
}

/// From what the heap of a line is made, which changes no answer.
fn seed_over(seed: Seed, line: &[u8]) -> Seed
    ensures { result ≡ seed_with seed line.now }
{
    seed.with(line)
}

/// Binds a line of input in a context: a fresh heap with `params`, which nothing may change, and then `doc`, and the values of
/// the context's variables. Of the causes why not the first is answered: `Syntax` where `serde_json` does not read the line,
/// `Number` where some number of it or of `params` is no whole one of 64 bits with a sign, `Field` where it is no object, a value
/// stands at a field that does not take it or, in the context score, `_score` is no number from 0. What is bound takes nothing
/// from the room. The heap is made from the job's seed and from the line, so that whoever writes lines cannot choose keys that collide in
/// the heap of one of them. The scratch is kept from line to line, and what lies in it changes nothing.
pub fn bind_line(
    alloc: Global,
    kind: SearchKind,
    fields: &Fields,
    params: &Params,
    line: &[u8],
    room: u64,
    seed: Seed,
    scratch: &mut Scratch,
) -> Result<Bound, BindErr>
    ensures text { IsUtf8 line.now → Answered result (bound_line kind fields.now (view params.now.json) room (read line.now)) }
    ensures bytes { ¬ IsUtf8 line.now → Answered result (Err syntax) }
{
    let json = read_json(alloc, line, scratch)?;
    bind_document(
        alloc,
        kind,
        fields,
        params,
        &json,
        room,
        seed_over(seed, line),
    )
}
