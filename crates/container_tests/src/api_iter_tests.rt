//! What the clauses of `api_iter` do not say: iterators step by step, and texts that are joined, against values that were found by
//! hand.

mod joining;
mod sample;
mod steps;
