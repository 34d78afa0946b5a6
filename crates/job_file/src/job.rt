//! A job.

use crate::context::JobContext;
use crate::limits::JobLimits;
use crate::mapping::Mapping;
use crate::particulars::JobParticulars;
use serde_json::Value;

/// What a job file asks for, with its defaults.
pub struct Job {
    pub context: JobContext,
    /// The scripts in their order, each after its key.
    pub scripts: Vec<(String, String)>,
    /// An object in which each number is a whole one of 64 bits with a sign.
    pub params: Value,
    pub mapping: Mapping,
    /// The name of an allowlist file; the full catalogue where there is none.
    pub allow: Option<String>,
    pub limits: JobLimits,
    pub shards: u32,
    /// Shards that are to have a turn first.
    pub order: Vec<u32>,
    /// The instructions of one turn.
    pub slice: u64,
    /// Whether the listing is written.
    pub listing: bool,
    /// Whether the instructions of each run are told.
    pub steps: bool,
    /// Whether the members that were called are told.
    pub members: bool,
    /// Whether `list` writes the prelude's listing.
    pub prelude: bool,
    pub particulars: JobParticulars,
}

impl Drop for Job {
    fn drop(self) {
        let Job {
            context: _,
            scripts: _scripts,
            params: _params,
            mapping: _mapping,
            allow: _allow,
            limits: _,
            shards: _,
            order: _order,
            slice: _,
            listing: _,
            steps: _,
            members: _,
            prelude: _,
            particulars: _particulars,
        } = self;
    }
}
