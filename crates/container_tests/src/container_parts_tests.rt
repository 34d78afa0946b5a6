//! What the clauses of `container_parts` do not say: iterators over containers of every kind, by steps.

mod making;
mod stepping;
