//! What is known of a run when it is over.

ghost use Rattle.std.specs.Prelude.{◌≡◌};
ghost use Rattle.command_parts.specs.Reports.{IsQuiet};

use crate::status::Status;
use std::alloc::Global;

/// What a run came to, beside what it wrote.
#[derive(Drop)]
pub struct Report {
    pub status: Status,
    /// With status 0 or 1 of a command that runs scripts: for each script, in the order in which they are compiled, the listing of its
    /// code, and then that of the prelude's code. Else none.
    pub listings: Vec<String>,
    /// With these, how many instructions of them were run in all, as far as 64 bits count them. Else 0.
    pub steps: u64,
}

impl Report {
    /// The report of a run that has no listing and counts nothing.
    pub fn quiet(alloc: Global, status: Status) -> Report
        ensures status { result.status ≡ status }
        ensures quiet { IsQuiet result }
    {
        Report {
            status,
            listings: Vec::new(alloc),
            steps: 0,
        }
    }
}
