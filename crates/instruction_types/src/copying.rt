//! Copies of what lies on the stack.

/// Which copies of what lies on the top of the stack an instruction makes.
#[derive(Clone, Copy)]
pub enum Copying {
    /// None, and the top goes.
    Drop,
    /// Of the top.
    One,
    /// Of the two on the top.
    Two,
    /// Of the top, below the one under it.
    UnderOne,
    /// Of the top, below the two under it.
    UnderTwo,
}
