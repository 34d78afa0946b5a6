//! What members of containers share: what has elements, its elements by their places, and iterators over them.
#![tactic(auto)]

mod containers;
mod cursors;
mod elements;
mod laws;
mod moving;

pub use containers::{
    Container, changes_now, container_at, container_of, count_of, holder_of, lets_cut,
};
pub use cursors::{Cursor, has_next, iterator_of};
pub use elements::{Element, element_at};
pub use laws::iterators_keep_fit;
pub use moving::{iterate, next, remove};
