//! The documents of a job of `updates` as a store, and a store as what is told of it.
#![tactic(auto)]

mod stores;

pub use stores::{first_store, store_reply};
