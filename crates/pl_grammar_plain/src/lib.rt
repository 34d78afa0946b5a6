//! The grammar with a row a case: theorems that the conditions on the tokens ahead bar nothing, and no code.
#![tactic(auto)]

mod plain;

pub use plain::plain_laws;
