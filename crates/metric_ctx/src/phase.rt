//! The scripts of a shard.

/// A script that a shard runs.
#[derive(Clone, Copy, Debug, PartialEq, Eq)]
pub enum Phase {
    /// Once, over an empty state.
    Init,
    /// Once for each line.
    Map,
    /// Once behind all lines; its value is what the shard gives.
    Combine,
}
