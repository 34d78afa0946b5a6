//! What the clauses of `search_ctx` don't say: documents with their doc values, lines with what they are bound to, and that each call
//! which takes memory answers where there is some.

mod binding;
mod docs;
mod large;
mod lines;
mod seeds;
mod shown;
