//! What a program reads and writes: bytes from a source, bytes into a sink, and files by their names.
#![tactic(auto)]

mod asked;
mod calls;
mod files;
mod intake;
mod laws;
mod lines;
mod mem_files;
mod mem_sink;
mod mem_source;
mod sink;
mod source;
mod standard;

pub use files::{FileErr, Files, Found};
pub use laws::step_laws;
pub use lines::{LONGEST, Line, LineReader, ReadErr, read_lines};
pub use mem_files::{MemFiles, SureFiles};
pub use mem_sink::{MemSink, SureSink};
pub use mem_source::{MemSource, SureSource};
pub use sink::{Sink, SinkErr, give_all};
pub use source::{Failed, Source};
pub use standard::{StdFiles, StdSink, StdSource};
