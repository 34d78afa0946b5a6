//! How a run over lines ended.

use command_parts::Status;

/// How a run over lines ended.
#[derive(Clone, Copy)]
pub struct Ran {
    pub status: Status,
    /// With `Done` and `SomeErrors`: how many instructions were run for all lines, as far as 64 bits count them. Else 0.
    pub steps: u64,
}
