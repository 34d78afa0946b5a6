//! Why an operation on the heap came to nothing.
/// Why an operation on the heap came to nothing. The heap is then as before.
#[derive(Clone, Copy, Debug, PartialEq, Eq)]
pub enum HeapErr {
    /// The charge is above the room left.
    Room,
    /// There was no memory.
    NoMemory,
}
