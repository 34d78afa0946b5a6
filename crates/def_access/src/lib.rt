//! What an index, a name and a call come to on a value whose class is found when the script runs.
#![tactic(auto)]

mod accessed;
mod calling;
mod casting;
mod indexing;
mod laws;
mod naming;

pub use accessed::Accessed;
pub use calling::{call_found, method_called};
pub use container_ops::{
    array_filled, array_made, element_read, element_written, has_more, iterated, length_of,
    list_made, map_made, next_element,
};
pub use indexing::{index_found, index_put_found, index_read, index_written};
pub use laws::def_access_laws;
pub use member_calls::{call, is_built};
pub use naming::{name_found, name_put_found, name_read, name_written};
