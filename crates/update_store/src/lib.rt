//! A store of documents with versions, and many updates of it: what clients that read, run and commit by turns make of its
//! documents is what they would make of them one after the other.
#![tactic(auto)]

mod client;
mod document;
mod documents;
mod laws;
mod replies;
mod runner;
mod running;
mod store;
mod task;

pub use client::Client;
pub use document::{Change, Commit, Doc};
pub use laws::serial;
pub use runner::{Ran, UpdateRun};
pub use running::run_updates;
pub use store::{CommitErr, Store};
