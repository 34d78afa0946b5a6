//! What the clauses of `object_values` and `object_heap` do not say: objects of each kind, and their room.

mod builders;
mod fronts;
mod kinds;
mod lists;
mod making;
mod many;
mod maps;
mod room;
