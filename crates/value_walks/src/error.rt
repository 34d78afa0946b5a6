//! Why a walk has no text.
/// Why a walk gave no text.
#[derive(Clone, Copy, Debug, PartialEq, Eq)]
pub enum TextErr {
    /// It went more than 100 levels deep.
    Deep,
    /// It had more visits than its budget.
    Large,
    /// There was no memory.
    NoMemory,
}
