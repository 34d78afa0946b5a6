//! Scripts that are compiled and run, and how they end, in a crate of their own so that compiling is proved once.
#![tactic(auto)]

#[cfg(test)]
mod tests;
