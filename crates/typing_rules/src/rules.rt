//! The rules, by kind of node.

pub mod accesses;
pub mod bodies;
pub mod calls;
pub mod casts;
pub mod containers;
pub mod functions;
pub mod literals;
pub mod locations;
mod lookups;
pub mod loops;
pub mod members;
mod nodes;
pub mod operators;
pub mod places;
pub mod plans;
mod references;
mod sides;
pub mod statements;
pub mod types;
