//! What the language itself does with lists, maps, arrays and iterators: literals, new arrays, elements, lengths, and loops over elements.
#![tactic(auto)]

mod arrays;
mod elements;
mod errors;
mod laws;
mod literals;
mod looping;
mod places;
mod types;

pub use arrays::array_made;
pub use elements::{element_given, element_read, element_written, length_of};
pub use errors::{on_null, on_other_kind};
pub use laws::container_laws;
pub use literals::{array_filled, list_made, map_made};
pub use looping::{has_more, iterated, next_element};
