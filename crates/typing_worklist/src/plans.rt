//! What is to be done for each kind of node, as the items that are put in its place.

pub mod catches;
pub mod declarations;
pub mod expressions;
pub mod loops;
pub mod statements;
pub mod unbuilt;
