//! Rows of tests of members as lines of text: the objects of a heap, calls on it, and what each comes to.
//!
//! An object is a line, and its number is its place, from 0: `list open 5 1 'b'` is the open list `[1, b]` with 5 changes, and so
//! `set` and `map`, whose pairs are `'k'=1`, and `doc`, the values of a field. A guard is `open`, `frozen`, `mapped` or the keys
//! that may be put, as `op,_source`. Further lines are `array 1 2`, `keys @5`, `values @5`, `entries @5` and `entry @5 'k'`.
//!
//! A value is `null`, `true`, `false`, `7`, `7L`, `7s`, `7b`, the char `'a'c`, the text `'a'` or the object `@7`.
//!
//! A row is `97 @0 9 | true | 1 | @0 6 [1, b, 9]`: a member's number with its arguments, what it comes to, what it costs, and an
//! object with its change count and its text behind the call. What is thrown is written `!NullPointerException`, with a message
//! behind `: `. A row stands on a heap of its own, with just the room that it takes, and with one less it has to be refused. The
//! rows that begin with `then` go on, one behind the other, on the heap of the line `room 100` before them; where the room does not
//! do they come to `Room`. A line that begins with `#` says what follows.
#![tactic(auto)]

mod heaps;
mod rows;
mod values;

pub use rows::{Members, first_wrong};
