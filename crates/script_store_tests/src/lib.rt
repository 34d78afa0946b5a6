//! What the clauses of the store of scripts do not say: that with ample memory each call answers, and what commands that are
//! reckoned by hand come to.
#![tactic(auto)]

#[cfg(test)]
mod measuring;
#[cfg(test)]
mod tests;
