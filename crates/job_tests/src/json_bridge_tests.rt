//! What the clauses of `json_bridge` don't say: JSON values with what they come to, and back, and that each call which takes memory
//! answers where there is some.

mod binding;
mod giving;
mod sample;
mod shown;
