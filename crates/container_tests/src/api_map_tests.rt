//! What the clauses of `api_map` do not say: its members against Java's and the language's own rules, by rows of values.

mod bulk;
mod collections;
mod deep;
mod making;
mod many;
mod maps;
mod maps_further;
mod sample;
mod steps;
