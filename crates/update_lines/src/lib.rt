//! Lines that ask for updates: what a line asks for, and what all lines of an input do.
#![tactic(auto)]

mod heard;
mod hearing;
mod request;

pub use heard::{Heard, Slot};
pub use request::{Request, read_request};
