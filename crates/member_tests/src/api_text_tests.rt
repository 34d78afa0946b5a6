//! What the clauses of `api_text` do not say: its members against Java's, by rows of values.

mod builders;
mod exceptions;
mod large;
mod rows;
mod running;
mod texts;
