//! What the clauses of `def_access` do not say: indexes, names and calls on values of every class, by rows of values.

mod rows;
mod sample;
