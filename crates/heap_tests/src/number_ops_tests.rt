//! What the clauses of `number_ops` do not say: operators, casts and members against Java's, by rows of values.

mod members;
mod rows;
mod tests;
