//! What casts do to values.

use crate::primitive::Primitive;

/// What a cast does to a value.
#[derive(Clone, Copy)]
pub enum Cast {
    /// The value stays.
    Keep,
    /// A number of the first type becomes one of the second: the low bits stay.
    Number(Primitive, Primitive),
    /// A primitive of the first type becomes one of the second and then a box.
    Wrap(Primitive, Primitive),
    /// What is in a box of the first type becomes a primitive of the second.
    Unwrap(Primitive, Primitive),
    /// The cast of a `def` that is not written, found when the script runs.
    Implicit,
    /// The cast of a `def` that is written, found when the script runs.
    Explicit,
    /// A char becomes the text of it alone.
    CharToText,
    /// A text of one unit becomes a char.
    TextToChar,
}
