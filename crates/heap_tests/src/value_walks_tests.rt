//! What the clauses of `value_walks` do not say: equality and texts against Java's, for each kind of object, at the limits too.

mod sample;
mod tests;
