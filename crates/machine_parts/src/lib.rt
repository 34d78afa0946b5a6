//! What the machine works on: code that is ready to run, frames, and the words and values of a call.
#![tactic(auto)]

mod copies;
mod executable;
mod frames;
mod handlers;
mod index_table;
mod linked_code;
mod linked_text;
mod method_table;
mod reached;
mod reserve;
mod values;
mod words;
mod world;

pub use copies::{copy_of, quick_copy_of};
pub use def_resolve::{IndexAccess, NameAccess, Purpose};
pub use executable::Executable;
pub use frames::{FrameMemory, Frames};
pub use handlers::Handlers;
pub use index_table::IndexTable;
pub use linked_text::{Link, LinkedText, MemberNumber, count_of};
pub use method_table::{MethodTable, method_by_class};
pub use plain_data::Text;
pub use reached::Reached;
pub use reserve::{frames_at_start, words_at_start};
pub use values::Values;
pub use words::Words;
pub use world::World;
