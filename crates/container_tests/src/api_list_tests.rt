//! What the clauses of `api_list` do not say: its members against Java's and the language's own rules, by rows of values.

mod bulk;
mod indexing;
mod lists;
mod making;
mod ordering;
mod sample;
mod steps;
mod taking;
