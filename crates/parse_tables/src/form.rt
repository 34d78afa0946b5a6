//! The forms of phrases.

ghost use Rattle.std.specs.Prelude.{◌≡◌};
ghost use Rattle.parse_tables.specs.Names as spec;

use pl_grammar::Level;

/// What commas may stand before.
#[derive(Clone, Copy)]
pub enum Listed {
    /// A parameter of a function.
    Formal,
    /// A variable of a declaration.
    Var,
    /// An item of a list or an array.
    Item,
    /// An entry of a map.
    Entry,
    /// An argument.
    Arg,
    /// A parameter of a lambda.
    Param,
}

/// What the rules describe, but for whole scripts.
#[derive(Clone, Copy)]
pub enum Form {
    /// A function: its result, its name, its parameters and its block.
    Function,
    /// The parameters of a function, one at least.
    Formals,
    /// A parameter of a function.
    Formal,
    /// A type.
    Type,
    /// A type that begins with no name.
    CastType,
    /// `[ ]`
    Pair,
    /// A block.
    Block,
    /// A statement; one that closes lacks its `;` only at the end of the script.
    Statement,
    /// A statement of a block; one that closes may lack its `;` before the `}` too.
    Inner,
    /// The `;` of a statement that is in no block.
    Last,
    /// The `;` of a statement of a block.
    Separator,
    /// A statement that ends with no `;` of its own.
    Opening,
    /// `else` and what it runs.
    Otherwise,
    /// What a loop runs, which a `;` may stand for.
    Run,
    /// What follows `for (`.
    ForRest,
    /// The `;` after the first part of a `for`, and what follows.
    Three,
    /// The `;` after the condition of a `for`, and what follows.
    ForTail,
    /// The first part of a `for`.
    ForFirst,
    /// A catch.
    Handler,
    /// A statement that a `;` ends.
    Closing,
    /// A declaration.
    Decl,
    /// A variable of a declaration.
    Var,
    /// `=` and a value.
    Init,
    /// What an `if` or a loop runs.
    Body,
    /// An expression.
    Expr,
    /// What makes an expression a conditional or an assignment.
    ExprRest,
    /// An expression that is no conditional and no assignment.
    Elvis,
    /// `?:` and its right side.
    ElvisRest,
    /// What binary operators stand between.
    Unary,
    /// `++` or `--` after an operand.
    Step,
    /// What unary operators stand before.
    Chain,
    /// The type that follows `new`, without `[ ]`.
    Element,
    /// What follows that type.
    NewRest,
    /// What follows its first `[`.
    AfterBracket,
    /// What follows its first `[ ]`.
    ArrayRest,
    /// `[`, a size of an array, and `]`.
    Size,
    /// What members and indexes are taken of.
    Primary,
    /// What stands in the brackets of a list or a map.
    Contents,
    /// What follows the first expression there.
    More,
    /// An entry of a map.
    Entry,
    /// The items of an array.
    Items,
    /// An item of a list or an array.
    Item,
    /// A member or an index.
    Postfix,
    /// A dot and a member.
    Dot,
    /// What follows a dot.
    Member,
    /// Arguments in brackets.
    Args,
    /// Arguments, one at least.
    Arguments,
    /// An argument.
    Arg,
    /// What follows `::`.
    RefName,
    /// The parameters of a lambda, one at least.
    Params,
    /// A parameter of a lambda.
    Param,
    /// What a lambda runs.
    LambdaBody,
    /// What the operators of a level join.
    Binary(Level),
    /// An operator of a level and its right side.
    Operation(Level),
    /// A comma and what follows it.
    Comma(Listed),
}

/// What may be repeated.
#[derive(Clone, Copy)]
pub enum Series {
    /// Statements of a script.
    Statement,
    /// Statements of a block.
    Inner,
    /// `[ ]`, behind a type.
    Pair,
    /// Catches.
    Handler,
    /// Members and indexes, behind what they are taken of.
    Postfix,
    /// Sizes of an array.
    Size,
    /// Operators of a level with their right sides.
    Operation(Level),
    /// Commas with what follows them.
    Comma(Listed),
}

/// The form of what may stand behind a comma.
pub fn listed_form(listed: Listed) -> Form
    ensures { spec.form_of result ≡ spec.listed_form listed }
{
    match listed {
        Listed::Formal => Form::Formal,
        Listed::Var => Form::Var,
        Listed::Item => Form::Item,
        Listed::Entry => Form::Entry,
        Listed::Arg => Form::Arg,
        Listed::Param => Form::Param,
    }
}

/// The form that is repeated.
pub fn series_form(series: Series) -> Form
    ensures { spec.form_of result ≡ spec.series_form series }
{
    match series {
        Series::Statement => Form::Statement,
        Series::Inner => Form::Inner,
        Series::Pair => Form::Pair,
        Series::Handler => Form::Handler,
        Series::Postfix => Form::Postfix,
        Series::Size => Form::Size,
        Series::Operation(level) => Form::Operation(level),
        Series::Comma(listed) => Form::Comma(listed),
    }
}
