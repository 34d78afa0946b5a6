//! What is still to be typed: the items of the pass of typing, what is put in the place of each, and the definition of what they come to.
#![tactic(auto)]

mod first;
mod item;
pub mod plans;

pub use first::first_of;
pub use item::{
    Act, BindingItem, CatchItem, DeclarationItem, ExpressionItem, LoopItem, StatementAct,
    StatementItem, UnbuiltItem, WordItem, WorkItem, Worklist,
};
