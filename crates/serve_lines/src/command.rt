//! Commands.

use script_store::ServeKind;
use serde_json::Value;

/// A command to a store of scripts. It stands in the JSON that it was read of.
pub enum ServeCommand<'a> {
    /// A script is stored under an id.
    Put {
        id: &'a str,
        kind: ServeKind,
        source: &'a str,
    },
    /// What is stored under an id is shown.
    Get(&'a str),
    /// What is stored under an id is taken out.
    Delete(&'a str),
    /// What is stored under an id is run over a line, with params, which are an empty object where there are none.
    Run {
        id: &'a str,
        line: &'a Value,
        params: Option<&'a Value>,
    },
    /// The counts are told.
    Stats,
}
