//! Codes of JSON data, by which contracts can see a type of a crate above as JSON data.
#![tactic(auto)]
