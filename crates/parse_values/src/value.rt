//! What is read of a symbol.

use pl_grammar::{
    Contents, ElvisRest, ExprRest, ForRest, Member, More, New, Operation, Placed, Suffix, Tail,
    Three,
};
use pl_lexer::Token;
use pl_tree::{
    Argument, Block, Body, Catch, Declaration, Entry, Expr, First, Function, LambdaBody, Parameter,
    Spelled, Statement, TypeName, Variable,
};
use plain_data::{Items, Subtree};

/// The tree of a symbol, of any form: each variant holds it until it is taken.
pub enum Value {
    /// What is left out.
    Nothing,
    /// A token.
    Token(Option<Token>),
    /// A token with its bytes.
    Spelled(Option<Spelled>),
    /// A function.
    Function(Option<Function>),
    /// Parameters, in their order.
    Parameters(Option<Items<Parameter>>),
    /// A parameter.
    Parameter(Option<Parameter>),
    /// A type.
    TypeName(Option<TypeName>),
    /// Where the `[` of a `[ ]` stands.
    Place(Option<u32>),
    /// Where each `[` of some `[ ]` stands.
    Places(Option<Items<u32>>),
    /// A block.
    Block(Option<Block>),
    /// A statement.
    Statement(Option<Subtree<Statement>>),
    /// Statements, in their order.
    Statements(Option<Items<Subtree<Statement>>>),
    /// What an `if` or a loop runs.
    Body(Option<Body>),
    /// What a loop runs, where it is no `;`.
    Run(Option<Option<Body>>),
    /// What follows `for (`.
    ForRest(Option<ForRest>),
    /// What follows the first part of a `for`.
    Three(Option<Three>),
    /// What follows the condition of a `for`.
    Tail(Option<Tail>),
    /// The first part of a `for`.
    First(Option<First>),
    /// A catch.
    Catch(Option<Catch>),
    /// Catches, in their order.
    Catches(Option<Items<Catch>>),
    /// A declaration.
    Declaration(Option<Declaration>),
    /// A variable of a declaration.
    Variable(Option<Variable>),
    /// Variables of a declaration, in their order.
    Variables(Option<Items<Variable>>),
    /// An argument.
    Argument(Option<Argument>),
    /// Arguments, in their order.
    Arguments(Option<Items<Argument>>),
    /// An expression, and where its first token begins.
    Placed(Option<Placed>),
    /// What makes an expression a conditional or an assignment.
    ExprRest(Option<ExprRest>),
    /// `?:` and its right side.
    ElvisRest(Option<ElvisRest>),
    /// What follows `new` and a type.
    New(Option<New>),
    /// An expression.
    Expr(Option<Subtree<Expr>>),
    /// Expressions, in their order.
    Exprs(Option<Items<Subtree<Expr>>>),
    /// What stands in the brackets of a list or a map.
    Contents(Option<Contents>),
    /// What follows the first expression there.
    More(Option<More>),
    /// An entry of a map.
    Entry(Option<Entry>),
    /// Entries of a map, in their order.
    Entries(Option<Items<Entry>>),
    /// A member or an index, behind what it is taken of.
    Suffix(Option<Suffix>),
    /// Members and indexes, in their order.
    Suffixes(Option<Items<Suffix>>),
    /// What follows a dot.
    Member(Option<Member>),
    /// The name behind `::`, where it is not `new`.
    RefName(Option<Option<Spelled>>),
    /// What a lambda runs.
    LambdaBody(Option<LambdaBody>),
    /// An operator of a level and its right side.
    Operation(Option<Operation>),
    /// Operators of a level with their right sides, in their order.
    Operations(Option<Items<Operation>>),
}

impl Drop for Value {
    /// Written out, so that no crate above proves it again.
    fn drop(self) {
        match self {
            Value::Nothing => {}
            Value::Token(_tree) => {}
            Value::Spelled(_tree) => {}
            Value::Function(_tree) => {}
            Value::Parameters(_tree) => {}
            Value::Parameter(_tree) => {}
            Value::TypeName(_tree) => {}
            Value::Place(_tree) => {}
            Value::Places(_tree) => {}
            Value::Block(_tree) => {}
            Value::Statement(_tree) => {}
            Value::Statements(_tree) => {}
            Value::Body(_tree) => {}
            Value::Run(_tree) => {}
            Value::ForRest(_tree) => {}
            Value::Three(_tree) => {}
            Value::Tail(_tree) => {}
            Value::First(_tree) => {}
            Value::Catch(_tree) => {}
            Value::Catches(_tree) => {}
            Value::Declaration(_tree) => {}
            Value::Variable(_tree) => {}
            Value::Variables(_tree) => {}
            Value::Argument(_tree) => {}
            Value::Arguments(_tree) => {}
            Value::Placed(_tree) => {}
            Value::ExprRest(_tree) => {}
            Value::ElvisRest(_tree) => {}
            Value::New(_tree) => {}
            Value::Expr(_tree) => {}
            Value::Exprs(_tree) => {}
            Value::Contents(_tree) => {}
            Value::More(_tree) => {}
            Value::Entry(_tree) => {}
            Value::Entries(_tree) => {}
            Value::Suffix(_tree) => {}
            Value::Suffixes(_tree) => {}
            Value::Member(_tree) => {}
            Value::RefName(_tree) => {}
            Value::LambdaBody(_tree) => {}
            Value::Operation(_tree) => {}
            Value::Operations(_tree) => {}
        }
    }
}
