//! What the commands of the program share: how a run ends, how a file is read, and how what is told is written.
#![tactic(auto)]

mod reading;
mod report;
mod status;
mod stop;
mod writing;

pub use reading::{FILE_LIMIT, read_file};
pub use report::Report;
pub use status::Status;
pub use stop::{Stop, end_with};
pub use writing::write_bytes;
