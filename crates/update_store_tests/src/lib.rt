//! What the clauses of `update_store` do not say: by texts, what clients are told and what is in the store behind them, and that
//! with ample memory each call answers.
#![tactic(auto)]

mod acting;
#[cfg(test)]
mod commits;
#[cfg(test)]
mod many;
#[cfg(test)]
mod orders;
#[cfg(test)]
mod replay;
#[cfg(test)]
mod rows;
#[cfg(test)]
mod shown;

pub use acting::{Act, Acting};
