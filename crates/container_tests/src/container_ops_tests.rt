//! What the clauses of `container_ops` do not say: literals, arrays and loops against Java's and the language's own rules, by rows of
//! values.

mod elements;
mod looping;
mod making;
mod sample;
