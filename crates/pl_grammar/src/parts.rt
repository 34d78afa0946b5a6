//! Parts of trees, as they are read.

use pl_tree::{Access, Argument, BinaryOperator, Body, Entry, Expr, First, Spelled, TypeName};
use plain_data::{Items, Subtree, Text};

/// An expression, and where its first token begins.
#[derive(Drop)]
pub struct Placed {
    /// The first byte of its first token, counted from 0.
    pub start: u32,
    /// The expression.
    pub expr: Subtree<Expr>,
}

/// What follows the left operand of a binary operator.
#[derive(Drop)]
pub enum Operation {
    /// The operator, its place and the right operand.
    Binary(BinaryOperator, u32, Subtree<Expr>),
    /// The place of `instanceof`, and the type.
    Test(u32, TypeName),
}

/// What makes an expression a conditional or an assignment.
#[derive(Drop)]
pub enum ExprRest {
    /// The place of `?`, and the two sides.
    Conditional(u32, Subtree<Expr>, Subtree<Expr>),
    /// The operator that is applied, the place of the assignment's, and the value.
    Assign(Option<BinaryOperator>, u32, Subtree<Expr>),
}

/// `?:` and its right side.
#[derive(Drop)]
pub struct ElvisRest {
    /// The place of the `?:`.
    pub at: u32,
    /// The right side.
    pub right: Subtree<Expr>,
}

/// What takes a part of the expression before it.
#[derive(Drop)]
pub enum Suffix {
    /// The member's place and name.
    Member(Access, u32, Text),
    /// The member's place, name and arguments.
    Method(Access, u32, Text, Items<Argument>),
    /// The number's place and spelling.
    Element(Access, u32, Text),
    /// The place of `[`, and the index.
    Index(u32, Subtree<Expr>),
}

/// What follows a dot.
#[derive(Drop)]
pub enum Member {
    /// A name, and what it is called with, if it is.
    Named(Spelled, Option<Items<Argument>>),
    /// A number.
    Numbered(Spelled),
}

/// What follows `new` and a type.
#[derive(Drop)]
pub enum New {
    /// Where each `[` of the type's `[]` stands, and the arguments.
    Object(Items<u32>, Items<Argument>),
    /// The sizes of an array.
    Sized(Items<Subtree<Expr>>),
    /// The items of an array.
    Filled(Items<Subtree<Expr>>),
}

/// What stands in the brackets of a list or a map that is not the empty list.
#[derive(Drop)]
pub enum Contents {
    /// A `:` alone.
    NoEntries,
    /// The first expression, and what follows it.
    Filled(Subtree<Expr>, Option<More>),
}

/// What follows the first expression there.
#[derive(Drop)]
pub enum More {
    /// The further items of a list.
    Items(Items<Subtree<Expr>>),
    /// The first value, and the further entries.
    Entries(Subtree<Expr>, Items<Entry>),
}

/// What follows the first part of a `for`.
#[derive(Drop)]
pub struct Three {
    /// The condition, if there is one.
    pub condition: Option<Subtree<Expr>>,
    /// What runs after each turn, if anything does.
    pub update: Option<Subtree<Expr>>,
    /// What the loop runs. `None` where it is a `;`.
    pub body: Option<Body>,
}

/// What follows the condition of a `for`.
#[derive(Drop)]
pub struct Tail {
    /// What runs after each turn, if anything does.
    pub update: Option<Subtree<Expr>>,
    /// What the loop runs. `None` where it is a `;`.
    pub body: Option<Body>,
}

/// What follows `for (`.
#[derive(Drop)]
pub enum ForRest {
    /// `first; condition; update)` and the body.
    Three(Option<First>, Three),
    /// `type name : over)` and the body.
    Each(TypeName, Spelled, Subtree<Expr>, Body),
    /// `name in over)` and the body.
    In(Spelled, Subtree<Expr>, Body),
}
