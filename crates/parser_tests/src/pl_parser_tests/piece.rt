//! What is written of a tree in one go.

/// A word, or the kind of a node.
#[derive(Clone, Copy)]
pub enum Piece {
    /// A word.
    Word(&'static str),
    /// One that no blank follows.
    Open(&'static str),
    /// The place of a node.
    Place(u32),
    /// The `[]` of a type.
    Bracket(u32),
    /// A blank, unless an opening word is before it.
    Blank,
    /// A comma and a blank, likewise.
    Comma,
    /// The bytes of a token.
    Spelling,
    /// A type.
    Type,
    /// A parameter.
    Parameter,
    /// An expression.
    Expr,
    /// An entry of a map.
    Entry,
    /// An argument.
    Argument,
    /// A block.
    Block,
    /// What an `if` or a loop runs.
    Body,
    /// A statement.
    Statement,
    /// A catch.
    Catch,
    /// A declaration.
    Declaration,
    /// A variable.
    Variable,
    /// A function.
    Function,
}
