//! How values and scores are combined.

/// How the values of the functions that match are combined, from the left.
#[derive(Clone, Copy, PartialEq, Eq)]
pub enum ScoreMode {
    /// Their product.
    Multiply,
    /// Their sum.
    Sum,
    /// The first one; no function behind the first match is evaluated.
    First,
    /// The greatest.
    Max,
    /// The least.
    Min,
}

/// How the score of a line is combined with the value of its functions.
#[derive(Clone, Copy, PartialEq, Eq)]
pub enum BoostMode {
    /// Their product.
    Multiply,
    /// The value alone.
    Replace,
    /// Their sum.
    Sum,
    /// The greater one.
    Max,
    /// The lesser one.
    Min,
}
