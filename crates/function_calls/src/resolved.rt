//! What comes of a call before it is paid.
use crate::called::{Called, Dues};
use object_heap::Answer;
use object_values::Owner;

/// What comes of a call before it is paid.
#[derive(Drop)]
pub enum Resolved {
    /// This is called with the values as they are now. Its call is written in this text, and these casts are due then.
    Calls(Called, Owner, Dues),
    /// What was thrown.
    Acts(Answer),
}
