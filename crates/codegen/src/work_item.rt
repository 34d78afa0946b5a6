//! What is still to be written.

use crate::config::Flow;
use crate::pieces::Piece;
use crate::representation::Representation;
use allowlist::MemberKind;
use pl_code::Numbered;
use pl_types::{Cast, Ty};
use plain_data::{Items, Subtree, Text};
use typed_tree::{Named, Operation, Typed, TypedCatch, TypedStatement, TypedVariable};

/// How parts have to be represented.
#[derive(Clone, Copy)]
pub enum Wanted<'a> {
    /// All so.
    All(Representation),
    /// As parameters do.
    As(&'a Items<Named>),
    /// As the receiver, where there is one, and the arguments of a member with these parameters do.
    Member(MemberKind, &'a Items<Ty>),
    /// An array, and an index.
    Indexed,
    /// As those before the last of a member on a value with these parameters, of which the last is represented so.
    Setter(&'a Items<Ty>, Representation),
}

/// Where `break` and `continue` go.
#[derive(Clone, Copy)]
pub struct Exits {
    /// The label of `break`.
    pub out: usize,
    /// The label of `continue`.
    pub on: usize,
}

/// What stands behind a statement in its scope.
#[derive(Clone, Copy)]
pub enum Tail<'a> {
    Nothing,
    /// Some statements, from one on.
    Row(&'a Items<Subtree<TypedStatement>>, usize),
    /// The loop itself, behind what is done before it.
    Loop(&'a TypedStatement),
}

/// A part that is still to be written.
#[derive(Clone, Copy)]
pub enum WorkItem<'a> {
    Value(&'a Typed),
    /// Some parts, from one on.
    Values(&'a Items<Subtree<Typed>>, usize, Wanted<'a>),
    Put(Piece<'a>),
    /// A cast to a type.
    Convert(Cast, &'a Ty),
    /// An operation on so many parts that gives a value of a type.
    Operate(&'a Operation, &'a Ty, u32),
    /// An operation that writes a value of a type at a place.
    Write(&'a Operation, &'a Ty),
    /// A member of a text is called, made or read.
    Call(MemberKind, &'a Text),
    /// A jump to a label.
    Jump(Numbered, usize),
    /// A label is here.
    Bind(usize),
    /// Loads a name whose values are represented so.
    Load(&'a Text, Representation),
    /// Stores to a name whose values are represented so.
    Store(&'a Text, Representation),
    /// A statement that declares nothing, without what is done before a loop.
    One(&'a TypedStatement, Option<Exits>),
    /// A statement, and what stands behind it.
    Statement(&'a TypedStatement, Tail<'a>, Option<Exits>),
    /// What stands behind a statement.
    Rest(Tail<'a>, Option<Exits>),
    /// Variables from one on, and what stands behind them.
    Variables(&'a Items<TypedVariable>, usize, Tail<'a>, Option<Exits>),
    /// A variable is in scope from here on.
    Declared(&'a TypedVariable),
    /// The names above so many are gone.
    Close(usize),
    /// How control goes on behind what is written.
    Flows(Flow),
    /// A statement and those behind it go on as one.
    Both,
    /// Two ways go on as one.
    Either,
    /// A jump over what follows, where it is reached.
    Skip(usize),
    /// What is done behind a turn, where that is reached.
    Update(Option<&'a Typed>),
    /// The test before a turn.
    Test(Option<&'a Typed>),
    /// The test behind a turn, where that is reached, and the jump out of the loop.
    Last(Option<&'a Typed>, usize),
    /// A loop is left.
    Turned,
    /// The name of a catch is in scope from here on.
    Named(&'a TypedCatch),
    /// The catches of a block that begins at a line and ends here, and a label behind them.
    Tried(&'a Items<TypedCatch>, u32, usize, Option<Exits>),
    /// The catches, from one on, of the lines from one on and before another, and a label behind them.
    Caught(&'a Items<TypedCatch>, usize, u32, u32, usize, Option<Exits>),
    /// A jump over the catches from one on, if there are any, where it is reached.
    Over(&'a Items<TypedCatch>, usize, usize),
    /// The end of a function with this result.
    End(&'a Ty),
}
