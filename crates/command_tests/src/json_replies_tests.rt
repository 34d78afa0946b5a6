//! What the clauses of `json_replies` don't say: ends of runs over documents with their lines, and that each call which takes memory
//! answers where there is some.

mod replies;
mod shown;
