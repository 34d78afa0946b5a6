//! Documents as texts.

use ingest_pipe::IngestDoc;
use serde_json::Value;
use std::alloc::{AllocError, Global};

/// A document of the index `i` and the id `1` with a source. `None` where the text is none.
pub fn document(alloc: Global, source: &str) -> Option<IngestDoc> {
    let source = Value::from_str(alloc, source).ok()?;
    let index = String::from_str(alloc, "i").ok()?;
    let id = String::from_str(alloc, "1").ok()?;
    Some(IngestDoc { index, id, source })
}

/// A document behind a word: its index, its id and its source.
pub fn shown(alloc: Global, word: &str, doc: &IngestDoc) -> Result<String, AllocError> {
    let source = doc.source.to_string(alloc)?;
    let index = doc.index.as_str();
    let id = doc.id.as_str();
    format!(in alloc; "{word} {index} {id} {source}")
}

/// Whether a text is the one that is wanted.
pub fn is_text(text: Result<String, AllocError>, wanted: &str) -> bool {
    match text {
        Ok(text) => text.as_str() == wanted,
        Err(_) => false,
    }
}
