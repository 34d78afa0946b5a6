//! What comes of an access.
use object_heap::Answer;
use object_values::Value;

/// What comes of an access, before a call is paid.
#[derive(Drop)]
pub enum Accessed {
    /// The member of this number is called on the receiver, with the arguments as they are now.
    Calls(u32),
    /// The member of this number is called on the receiver, with this argument before the others.
    CallsWith(u32, Value),
    /// What was done or thrown at once.
    Acts(Answer),
}
