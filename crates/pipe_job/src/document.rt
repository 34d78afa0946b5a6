//! Documents of lines, what the replies of scripts say of them, and how they are told.

ghost use Rattle.std.specs.Prelude.{◌≡◌, false, IfOk, codes, option_and_then, option_map, string_bytes, unwrap_or};
ghost use Rattle.serde_json.specs.Find.{as_bool, get};
ghost use Rattle.serde_json.specs.View.{view};
ghost use Rattle.ingest_pipe.specs.Documents.{doc_view};
ghost use Rattle.ingest_pipe.specs.Edits.{Becomes};
ghost use Rattle.ingest_pipe.specs.Answers.{ChangeMeans, TestMeans};
ghost use Rattle.ingest_pipe.specs.Running.{Drops, Fails, Gives};
ghost use Rattle.pipe_job.specs.Documents.{doc_of, edited_by, end_reply, judged_by, line_of_doc, text_at};

use ingest_pipe::{Changed, IngestDoc, Tested};
use serde_json::{Value as Json, json};
use std::alloc::{AllocError, Global};
use std::mem;

/// The text at a name, or what stands for it.
fn text_at(alloc: Global, json: &Json, name: &str, default: &str) -> Result<String, AllocError>
    ensures { IfOk result (λ text. string_bytes text ≡ text_at name.now default.now (view json.now)) }
{
    match json.get(name).and_then(Json::as_str) {
        Some(text) => String::from_str(alloc, text),
        None => String::from_str(alloc, default),
    }
}

/// Takes a member out of a value, and lets the others go.
fn member_of(json: Json, name: &str) -> Option<Json>
    ensures { option_map view result ≡ get name.now (view json) }
{
    match json {
        Json::Object(mut members) => members.remove(name),
        _ => None,
    }
}

/// The document of a line.
pub(crate) fn doc_of(alloc: Global, line: Json) -> Result<IngestDoc, AllocError>
    ensures { IfOk result (λ doc. doc_view doc ≡ doc_of (view line)) }
{
    let index = text_at(alloc, &line, "_index", "docs")?;
    let id = text_at(alloc, &line, "_id", "")?;
    let source = member_of(line, "_source").unwrap_or(Json::Null);
    Ok(IngestDoc { index, id, source })
}

/// The line of a document, as scripts are given it.
pub(crate) fn line_of_doc(alloc: Global, doc: &IngestDoc) -> Result<Json, AllocError>
    ensures { IfOk result (λ line. view line ≡ line_of_doc (doc_view doc.now)) }
{
    let source = doc.source.clone()?;
    json!(in alloc; {"_id": doc.id.as_str(), "_index": doc.index.as_str(), "_source": source})
}

/// The error of a reply.
fn error_in(reply: &Json) -> Result<Option<Json>, AllocError>
    ensures { IfOk result (λ error. option_map view error ≡ get (codes "error") (view reply.now)) }
{
    match reply.get("error") {
        Some(error) => Ok(Some(error.clone()?)),
        None => Ok(None),
    }
}

/// Whether the result of a reply is true.
fn is_true(reply: &Json) -> bool
    ensures { result ≡ unwrap_or (option_and_then as_bool (get (codes "result") (view reply.now))) false }
{
    reply.get("result").and_then(Json::as_bool).unwrap_or(false)
}

/// What the reply of a test says of a document.
pub(crate) fn judged_by(reply: &Json) -> Tested
    ensures { TestMeans (judged_by (view reply.now)) result }
{
    match error_in(reply) {
        Ok(Some(error)) => Tested::Failed(error),
        Ok(None) => {
            if is_true(reply) {
                Tested::Yes
            } else {
                Tested::No
            }
        }
        Err(_) => Tested::NoMemory,
    }
}

/// The document that a script's reply tells.
fn becomes(alloc: Global, reply: Json) -> Changed
    ensures { ChangeMeans (Becomes (doc_of (view reply))) result }
{
    match doc_of(alloc, reply) {
        Ok(doc) => Changed::Doc(doc),
        Err(_) => Changed::NoMemory,
    }
}

/// What the reply of a script makes of a document.
pub(crate) fn edited_by(alloc: Global, reply: Json) -> Changed
    ensures { ChangeMeans (edited_by (view reply)) result }
{
    match error_in(&reply) {
        Ok(Some(error)) => Changed::Failed(error),
        Ok(None) => becomes(alloc, reply),
        Err(_) => Changed::NoMemory,
    }
}

/// How a document that is kept is told.
pub(crate) fn kept_reply(alloc: Global, doc: IngestDoc) -> Result<Json, AllocError>
    ensures { IfOk result (λ reply. view reply ≡ end_reply (Gives (doc_view doc))) }
{
    let mut doc = doc;
    let source = mem::replace(&mut doc.source, Json::Null);
    json!(in alloc; {"_id": doc.id.as_str(), "_index": doc.index.as_str(), "_source": source})
}

/// How a document that is dropped is told.
pub(crate) fn dropped_reply(alloc: Global, doc: &IngestDoc) -> Result<Json, AllocError>
    ensures { IfOk result (λ reply. view reply ≡ end_reply (Drops (doc_view doc.now))) }
{
    json!(in alloc; {"_id": doc.id.as_str(), "op": "drop"})
}

/// How a failure is told.
pub(crate) fn failed_reply(alloc: Global, error: Json) -> Result<Json, AllocError>
    ensures { IfOk result (λ reply. view reply ≡ end_reply (Fails (view error))) }
{
    json!(in alloc; {"error": error})
}
