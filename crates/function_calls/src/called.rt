//! What is called in the end, and by which methods.
use object_values::Owner;
use pl_types::Ty;
use plain_data::Boxed;

/// What is called in the end.
pub enum Called {
    /// A lambda: a function of its owner's text, by its number.
    Lambda(Owner, u32),
    /// A member or a constructor, by its number.
    Member(u32),
    /// A member whose work is a function of the prelude's text, by its number and that of the function.
    Work(u32, u32),
    /// The making of an array of this type.
    Array(Boxed<Ty>),
}

impl Drop for Called {
    fn drop(self) {
        match self {
            Called::Lambda(_owner, _number) => {}
            Called::Member(_number) => {}
            Called::Work(_number, _function) => {}
            Called::Array(_made) => {}
        }
    }
}

/// The interfaces' methods by which something is called, by their numbers, the last one first. What is called gives a value that is cast
/// to the result of each, in this order.
#[derive(Clone, Copy)]
pub enum Dues {
    /// None: it is called by its name.
    Nothing,
    /// One function value calls it.
    One(u32),
    /// A function value that a reference calls.
    Two(u32, u32),
    /// A function value that a reference calls, which a reference calls.
    Three(u32, u32, u32),
}
