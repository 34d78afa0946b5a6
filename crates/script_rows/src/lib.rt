//! Rows of tests of whole scripts: how a script is compiled and run, and whether it ends as its row says.
//!
//! A row is `END: SCRIPT`. An end is a value, a number behind a letter for its type (`I 7`) and a text behind `T`; what is thrown,
//! `thrown ArithmeticException / by zero`; a limit, `limit loop`; or `refused by RULE at BYTE`. The end of a run can go on with what
//! it paid, `I 7, 3 ticks`, or with the numbers of the members that it reached, `I 7, reached 97 106`.
#![tactic(auto)]

mod running;

pub use running::{Bounds, Compiler, USUAL, listed_and_counted, prelude_is_listed, script_ends};
