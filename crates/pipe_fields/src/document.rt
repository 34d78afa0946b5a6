//! Documents of a pipeline.

use serde_json::Value;

/// A document: its index, its id and its source.
pub struct IngestDoc {
    pub index: String,
    pub id: String,
    pub source: Value,
}

impl Drop for IngestDoc {
    fn drop(self) {
        let IngestDoc {
            index: _index,
            id: _id,
            source: _source,
        } = self;
    }
}
