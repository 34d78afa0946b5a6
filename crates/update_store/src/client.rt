//! Clients.

use crate::document::{Change, Doc};
use serde_json::Value;

/// A client that updates a document.
#[derive(Drop)]
pub struct Client {
    /// The id of its document.
    pub id: String,
    /// How often it begins again where another has changed the document meanwhile.
    pub retries: u32,
}

/// What a client does next.
#[derive(Drop)]
pub(crate) enum Phase {
    /// It reads its document.
    Read,
    /// It runs the script over the document as it has read it.
    Run(Doc),
    /// It commits a change over the version that it has read.
    Write(u64, Change),
    /// It ends with nothing changed.
    Keep,
    /// It has ended with this reply.
    Ended(Value),
}
