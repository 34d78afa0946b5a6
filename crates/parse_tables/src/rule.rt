//! The rules of the grammar: a row of symbols for each production.

ghost use Rattle.std.specs.Prelude.{◌≡◌, ◌≤◌, map, length};
ghost use Rattle.pl_grammar.specs.Grammar as grammar;
ghost use Rattle.parse_tables.specs.Names.{symbol_of, production_of, listed_form};

use crate::form::{Form, Listed, Series};
use pl_grammar::{Level, Looser, Terminal};

/// What stands in a rule.
#[derive(Clone, Copy)]
pub enum Symbol {
    /// A token of this class.
    Sign(Terminal),
    /// A token of this class, whose bytes are kept.
    Spelled(Terminal),
    /// A phrase of this form.
    Phrase(Form),
    /// Any number of phrases, up to a token that begins none.
    Repeated(Series),
    /// A phrase that may be left out.
    Optional(Form),
}

/// A production of the grammar, by its name. Each stands with its right side: tokens are in quotes, classes of tokens in
/// capitals, phrases by their forms, what may be left out in `[ ]`, and what is repeated in `{ }`.
#[derive(Clone, Copy)]
pub enum Rule {
    /// `Type NAME '(' [Formals] ')' Block`
    FunctionOf,
    /// `Formal {Comma<Formal>}`
    FormalList,
    /// `Type NAME`
    FormalOf,
    /// `NAME {Pair}`
    NameType,
    /// `CastType`
    KnownType,
    /// `KNOWN {Pair}`
    CastTypeOf,
    /// `'[' ']'`
    Square,
    /// `'{' {Inner} '}'`
    Braces,
    /// `Opening`
    Opens,
    /// `Closing [Last]`
    Closes,
    /// `Opening`
    InnerOpens,
    /// `Closing [Separator]`
    InnerCloses,
    /// `';'`
    LastSemicolon,
    /// `';'`
    Semicolon,
    /// `'if' '(' Expr ')' Body [Otherwise]`
    Conditional,
    /// `'while' '(' Expr ')' Run`
    Looped,
    /// `'for' '(' ForRest`
    ForLoop,
    /// `'try' Block Handler {Handler}`
    Tried,
    /// `'else' Body`
    Alternative,
    /// `Body`
    Runs,
    /// `';'`
    Idle,
    /// `Three`
    ThreeEmpty,
    /// `ForFirst Three`
    ThreeFirst,
    /// `Type NAME ':' Expr ')' Body`
    EachOf,
    /// `NAME 'in' Expr ')' Body`
    EachIn,
    /// `';' [Expr] ForTail`
    ThreeParts,
    /// `';' [Expr] ')' Run`
    TailParts,
    /// `Decl`
    Declares,
    /// `Expr`
    Expresses,
    /// `'catch' '(' Type NAME ')' Block`
    Catches,
    /// `'do' Block 'while' '(' Expr ')'`
    DoLoop,
    /// `Decl`
    Declared,
    /// `JUMP`
    Jump,
    /// `'return' [Arg]`
    Returned,
    /// `'throw' Expr`
    Thrown,
    /// `Expr`
    Value,
    /// `Type Var {Comma<Var>}`
    Declaration,
    /// `NAME [Init]`
    Variable,
    /// `'=' Arg`
    Assigned,
    /// `Block`
    BlockBody,
    /// `Statement`
    StatementBody,
    /// `Elvis [ExprRest]`
    Expression,
    /// `'?' Expr ':' Expr`
    ConditionalRest,
    /// `'=' Expr`
    AssignRest,
    /// `COMPOUND_ASSIGN Expr`
    CompoundRest,
    /// `Binary<OrOr> [ElvisRest]`
    Elvises,
    /// `'?:' Elvis`
    ElvisOf,
    /// `STEP Chain`
    Prefix,
    /// `ADDITIVE Unary`
    Signed,
    /// `NEGATION Unary`
    Negated,
    /// `'(' CastType ')' Unary`
    Cast,
    /// `Chain [Step]`
    Plain,
    /// `STEP`
    StepToken,
    /// `Primary {Postfix}`
    Suffixed,
    /// `CastType Dot {Postfix}`
    Typed,
    /// `'new' Element NewRest {Postfix}`
    Created,
    /// `NAME`
    NameElement,
    /// `KNOWN`
    KnownElement,
    /// `Args`
    NewObject,
    /// `'[' AfterBracket`
    NewArray,
    /// `']' ArrayRest`
    EmptyBracket,
    /// `Expr ']' {Size}`
    FirstSize,
    /// `'{' [Items] '}'`
    ArrayItems,
    /// `Args`
    ArrayObject,
    /// `Pair {Pair} Args`
    ArrayDeeper,
    /// `'[' Expr ']'`
    SizeOf,
    /// `'(' Expr ')'`
    Bracketed,
    /// `INTEGER`
    Integer,
    /// `TEXT`
    String,
    /// `CONSTANT`
    Constant,
    /// `'[' [Contents] ']'`
    Collection,
    /// `NAME [Args]`
    Named,
    /// `':'`
    NoEntries,
    /// `Expr [More]`
    Filled,
    /// `Comma<Item> {Comma<Item>}`
    MoreItems,
    /// `':' Expr {Comma<Entry>}`
    MoreEntries,
    /// `Expr ':' Expr`
    EntryOf,
    /// `Item {Comma<Item>}`
    ItemsOf,
    /// `Expr`
    ItemOf,
    /// `Dot`
    Access,
    /// `'[' Expr ']'`
    Index,
    /// `DOT Member`
    DotOf,
    /// `DOT_NAME [Args]`
    NamedMember,
    /// `DOT_INTEGER`
    Numbered,
    /// `'(' [Arguments] ')'`
    ArgsOf,
    /// `Arg {Comma<Arg>}`
    ArgumentsOf,
    /// `Expr`
    Argued,
    /// `Param '->' LambdaBody`
    Lambda,
    /// `'(' [Params] ')' '->' LambdaBody`
    Lambdas,
    /// `Type '::' RefName`
    Reference,
    /// `'this' '::' ANY_WORD`
    ThisReference,
    /// `ANY_WORD`
    RefWord,
    /// `'new'`
    RefNew,
    /// `Param {Comma<Param>}`
    ParamsOf,
    /// `Type NAME`
    TypedParam,
    /// `NAME`
    BareParam,
    /// `Block`
    BlockLambda,
    /// `Expr`
    ExprLambda,
    /// `Unary {Operation<Product>}`
    Products,
    /// `Binary<Relational> {Operation<Instance>}`
    Tests,
    /// The operands of a level and its operations: `Binary<tighter> {Operation<level>}`
    Joins(Looser),
    /// `MULTIPLICATIVE Unary`
    Times,
    /// `'instanceof' Type`
    Test,
    /// An operation of a level: its operator and `Binary<tighter>`
    Further(Looser),
    /// A comma and what follows it: `',' Listed`
    AfterComma(Listed),
}

/// The symbols of a rule, six at most.
pub fn symbols(rule: Rule) -> &'static [Symbol]
    ensures row { map symbol_of result.now ≡ grammar.symbols (production_of rule) }
    ensures short { length result.now ≤ 6 }
{
    match rule {
        Rule::FunctionOf => &[
            Symbol::Phrase(Form::Type),
            Symbol::Spelled(Terminal::Name),
            Symbol::Sign(Terminal::LeftParen),
            Symbol::Optional(Form::Formals),
            Symbol::Sign(Terminal::RightParen),
            Symbol::Phrase(Form::Block),
        ],
        Rule::FormalList => &[
            Symbol::Phrase(Form::Formal),
            Symbol::Repeated(Series::Comma(Listed::Formal)),
        ],
        Rule::FormalOf => &[Symbol::Phrase(Form::Type), Symbol::Spelled(Terminal::Name)],
        Rule::NameType => &[
            Symbol::Spelled(Terminal::Name),
            Symbol::Repeated(Series::Pair),
        ],
        Rule::KnownType => &[Symbol::Phrase(Form::CastType)],
        Rule::CastTypeOf => &[
            Symbol::Sign(Terminal::Known),
            Symbol::Repeated(Series::Pair),
        ],
        Rule::Square => &[
            Symbol::Sign(Terminal::LeftBracket),
            Symbol::Sign(Terminal::RightBracket),
        ],
        Rule::Braces => &[
            Symbol::Sign(Terminal::LeftBrace),
            Symbol::Repeated(Series::Inner),
            Symbol::Sign(Terminal::RightBrace),
        ],
        Rule::Opens => &[Symbol::Phrase(Form::Opening)],
        Rule::Closes => &[Symbol::Phrase(Form::Closing), Symbol::Optional(Form::Last)],
        Rule::InnerOpens => &[Symbol::Phrase(Form::Opening)],
        Rule::InnerCloses => &[
            Symbol::Phrase(Form::Closing),
            Symbol::Optional(Form::Separator),
        ],
        Rule::LastSemicolon => &[Symbol::Sign(Terminal::Semicolon)],
        Rule::Semicolon => &[Symbol::Sign(Terminal::Semicolon)],
        Rule::Conditional => &[
            Symbol::Sign(Terminal::If),
            Symbol::Sign(Terminal::LeftParen),
            Symbol::Phrase(Form::Expr),
            Symbol::Sign(Terminal::RightParen),
            Symbol::Phrase(Form::Body),
            Symbol::Optional(Form::Otherwise),
        ],
        Rule::Looped => &[
            Symbol::Sign(Terminal::While),
            Symbol::Sign(Terminal::LeftParen),
            Symbol::Phrase(Form::Expr),
            Symbol::Sign(Terminal::RightParen),
            Symbol::Phrase(Form::Run),
        ],
        Rule::ForLoop => &[
            Symbol::Sign(Terminal::For),
            Symbol::Sign(Terminal::LeftParen),
            Symbol::Phrase(Form::ForRest),
        ],
        Rule::Tried => &[
            Symbol::Sign(Terminal::Try),
            Symbol::Phrase(Form::Block),
            Symbol::Phrase(Form::Handler),
            Symbol::Repeated(Series::Handler),
        ],
        Rule::Alternative => &[Symbol::Sign(Terminal::Else), Symbol::Phrase(Form::Body)],
        Rule::Runs => &[Symbol::Phrase(Form::Body)],
        Rule::Idle => &[Symbol::Sign(Terminal::Semicolon)],
        Rule::ThreeEmpty => &[Symbol::Phrase(Form::Three)],
        Rule::ThreeFirst => &[Symbol::Phrase(Form::ForFirst), Symbol::Phrase(Form::Three)],
        Rule::EachOf => &[
            Symbol::Phrase(Form::Type),
            Symbol::Spelled(Terminal::Name),
            Symbol::Sign(Terminal::Colon),
            Symbol::Phrase(Form::Expr),
            Symbol::Sign(Terminal::RightParen),
            Symbol::Phrase(Form::Body),
        ],
        Rule::EachIn => &[
            Symbol::Spelled(Terminal::Name),
            Symbol::Sign(Terminal::In),
            Symbol::Phrase(Form::Expr),
            Symbol::Sign(Terminal::RightParen),
            Symbol::Phrase(Form::Body),
        ],
        Rule::ThreeParts => &[
            Symbol::Sign(Terminal::Semicolon),
            Symbol::Optional(Form::Expr),
            Symbol::Phrase(Form::ForTail),
        ],
        Rule::TailParts => &[
            Symbol::Sign(Terminal::Semicolon),
            Symbol::Optional(Form::Expr),
            Symbol::Sign(Terminal::RightParen),
            Symbol::Phrase(Form::Run),
        ],
        Rule::Declares => &[Symbol::Phrase(Form::Decl)],
        Rule::Expresses => &[Symbol::Phrase(Form::Expr)],
        Rule::Catches => &[
            Symbol::Sign(Terminal::Catch),
            Symbol::Sign(Terminal::LeftParen),
            Symbol::Phrase(Form::Type),
            Symbol::Spelled(Terminal::Name),
            Symbol::Sign(Terminal::RightParen),
            Symbol::Phrase(Form::Block),
        ],
        Rule::DoLoop => &[
            Symbol::Sign(Terminal::Do),
            Symbol::Phrase(Form::Block),
            Symbol::Sign(Terminal::While),
            Symbol::Sign(Terminal::LeftParen),
            Symbol::Phrase(Form::Expr),
            Symbol::Sign(Terminal::RightParen),
        ],
        Rule::Declared => &[Symbol::Phrase(Form::Decl)],
        Rule::Jump => &[Symbol::Sign(Terminal::Jump)],
        Rule::Returned => &[Symbol::Sign(Terminal::Return), Symbol::Optional(Form::Arg)],
        Rule::Thrown => &[Symbol::Sign(Terminal::Throw), Symbol::Phrase(Form::Expr)],
        Rule::Value => &[Symbol::Phrase(Form::Expr)],
        Rule::Declaration => &[
            Symbol::Phrase(Form::Type),
            Symbol::Phrase(Form::Var),
            Symbol::Repeated(Series::Comma(Listed::Var)),
        ],
        Rule::Variable => &[
            Symbol::Spelled(Terminal::Name),
            Symbol::Optional(Form::Init),
        ],
        Rule::Assigned => &[Symbol::Sign(Terminal::Assign), Symbol::Phrase(Form::Arg)],
        Rule::BlockBody => &[Symbol::Phrase(Form::Block)],
        Rule::StatementBody => &[Symbol::Phrase(Form::Statement)],
        Rule::Expression => &[
            Symbol::Phrase(Form::Elvis),
            Symbol::Optional(Form::ExprRest),
        ],
        Rule::ConditionalRest => &[
            Symbol::Sign(Terminal::Question),
            Symbol::Phrase(Form::Expr),
            Symbol::Sign(Terminal::Colon),
            Symbol::Phrase(Form::Expr),
        ],
        Rule::AssignRest => &[Symbol::Sign(Terminal::Assign), Symbol::Phrase(Form::Expr)],
        Rule::CompoundRest => &[
            Symbol::Sign(Terminal::CompoundAssign),
            Symbol::Phrase(Form::Expr),
        ],
        Rule::Elvises => &[
            Symbol::Phrase(Form::Binary(Level::Looser(Looser::OrOr))),
            Symbol::Optional(Form::ElvisRest),
        ],
        Rule::ElvisOf => &[Symbol::Sign(Terminal::Elvis), Symbol::Phrase(Form::Elvis)],
        Rule::Prefix => &[Symbol::Sign(Terminal::Step), Symbol::Phrase(Form::Chain)],
        Rule::Signed => &[
            Symbol::Sign(Terminal::Additive),
            Symbol::Phrase(Form::Unary),
        ],
        Rule::Negated => &[
            Symbol::Sign(Terminal::Negation),
            Symbol::Phrase(Form::Unary),
        ],
        Rule::Cast => &[
            Symbol::Sign(Terminal::LeftParen),
            Symbol::Phrase(Form::CastType),
            Symbol::Sign(Terminal::RightParen),
            Symbol::Phrase(Form::Unary),
        ],
        Rule::Plain => &[Symbol::Phrase(Form::Chain), Symbol::Optional(Form::Step)],
        Rule::StepToken => &[Symbol::Sign(Terminal::Step)],
        Rule::Suffixed => &[
            Symbol::Phrase(Form::Primary),
            Symbol::Repeated(Series::Postfix),
        ],
        Rule::Typed => &[
            Symbol::Phrase(Form::CastType),
            Symbol::Phrase(Form::Dot),
            Symbol::Repeated(Series::Postfix),
        ],
        Rule::Created => &[
            Symbol::Sign(Terminal::New),
            Symbol::Phrase(Form::Element),
            Symbol::Phrase(Form::NewRest),
            Symbol::Repeated(Series::Postfix),
        ],
        Rule::NameElement => &[Symbol::Spelled(Terminal::Name)],
        Rule::KnownElement => &[Symbol::Sign(Terminal::Known)],
        Rule::NewObject => &[Symbol::Phrase(Form::Args)],
        Rule::NewArray => &[
            Symbol::Sign(Terminal::LeftBracket),
            Symbol::Phrase(Form::AfterBracket),
        ],
        Rule::EmptyBracket => &[
            Symbol::Sign(Terminal::RightBracket),
            Symbol::Phrase(Form::ArrayRest),
        ],
        Rule::FirstSize => &[
            Symbol::Phrase(Form::Expr),
            Symbol::Sign(Terminal::RightBracket),
            Symbol::Repeated(Series::Size),
        ],
        Rule::ArrayItems => &[
            Symbol::Sign(Terminal::LeftBrace),
            Symbol::Optional(Form::Items),
            Symbol::Sign(Terminal::RightBrace),
        ],
        Rule::ArrayObject => &[Symbol::Phrase(Form::Args)],
        Rule::ArrayDeeper => &[
            Symbol::Phrase(Form::Pair),
            Symbol::Repeated(Series::Pair),
            Symbol::Phrase(Form::Args),
        ],
        Rule::SizeOf => &[
            Symbol::Sign(Terminal::LeftBracket),
            Symbol::Phrase(Form::Expr),
            Symbol::Sign(Terminal::RightBracket),
        ],
        Rule::Bracketed => &[
            Symbol::Sign(Terminal::LeftParen),
            Symbol::Phrase(Form::Expr),
            Symbol::Sign(Terminal::RightParen),
        ],
        Rule::Integer => &[Symbol::Spelled(Terminal::Integer)],
        Rule::String => &[Symbol::Spelled(Terminal::Text)],
        Rule::Constant => &[Symbol::Sign(Terminal::Constant)],
        Rule::Collection => &[
            Symbol::Sign(Terminal::LeftBracket),
            Symbol::Optional(Form::Contents),
            Symbol::Sign(Terminal::RightBracket),
        ],
        Rule::Named => &[
            Symbol::Spelled(Terminal::Name),
            Symbol::Optional(Form::Args),
        ],
        Rule::NoEntries => &[Symbol::Sign(Terminal::Colon)],
        Rule::Filled => &[Symbol::Phrase(Form::Expr), Symbol::Optional(Form::More)],
        Rule::MoreItems => &[
            Symbol::Phrase(Form::Comma(Listed::Item)),
            Symbol::Repeated(Series::Comma(Listed::Item)),
        ],
        Rule::MoreEntries => &[
            Symbol::Sign(Terminal::Colon),
            Symbol::Phrase(Form::Expr),
            Symbol::Repeated(Series::Comma(Listed::Entry)),
        ],
        Rule::EntryOf => &[
            Symbol::Phrase(Form::Expr),
            Symbol::Sign(Terminal::Colon),
            Symbol::Phrase(Form::Expr),
        ],
        Rule::ItemsOf => &[
            Symbol::Phrase(Form::Item),
            Symbol::Repeated(Series::Comma(Listed::Item)),
        ],
        Rule::ItemOf => &[Symbol::Phrase(Form::Expr)],
        Rule::Access => &[Symbol::Phrase(Form::Dot)],
        Rule::Index => &[
            Symbol::Sign(Terminal::LeftBracket),
            Symbol::Phrase(Form::Expr),
            Symbol::Sign(Terminal::RightBracket),
        ],
        Rule::DotOf => &[Symbol::Sign(Terminal::Dot), Symbol::Phrase(Form::Member)],
        Rule::NamedMember => &[
            Symbol::Spelled(Terminal::DotName),
            Symbol::Optional(Form::Args),
        ],
        Rule::Numbered => &[Symbol::Spelled(Terminal::DotInteger)],
        Rule::ArgsOf => &[
            Symbol::Sign(Terminal::LeftParen),
            Symbol::Optional(Form::Arguments),
            Symbol::Sign(Terminal::RightParen),
        ],
        Rule::ArgumentsOf => &[
            Symbol::Phrase(Form::Arg),
            Symbol::Repeated(Series::Comma(Listed::Arg)),
        ],
        Rule::Argued => &[Symbol::Phrase(Form::Expr)],
        Rule::Lambda => &[
            Symbol::Phrase(Form::Param),
            Symbol::Sign(Terminal::Arrow),
            Symbol::Phrase(Form::LambdaBody),
        ],
        Rule::Lambdas => &[
            Symbol::Sign(Terminal::LeftParen),
            Symbol::Optional(Form::Params),
            Symbol::Sign(Terminal::RightParen),
            Symbol::Sign(Terminal::Arrow),
            Symbol::Phrase(Form::LambdaBody),
        ],
        Rule::Reference => &[
            Symbol::Phrase(Form::Type),
            Symbol::Sign(Terminal::ColonColon),
            Symbol::Phrase(Form::RefName),
        ],
        Rule::ThisReference => &[
            Symbol::Sign(Terminal::This),
            Symbol::Sign(Terminal::ColonColon),
            Symbol::Spelled(Terminal::AnyWord),
        ],
        Rule::RefWord => &[Symbol::Spelled(Terminal::AnyWord)],
        Rule::RefNew => &[Symbol::Sign(Terminal::New)],
        Rule::ParamsOf => &[
            Symbol::Phrase(Form::Param),
            Symbol::Repeated(Series::Comma(Listed::Param)),
        ],
        Rule::TypedParam => &[Symbol::Phrase(Form::Type), Symbol::Spelled(Terminal::Name)],
        Rule::BareParam => &[Symbol::Spelled(Terminal::Name)],
        Rule::BlockLambda => &[Symbol::Phrase(Form::Block)],
        Rule::ExprLambda => &[Symbol::Phrase(Form::Expr)],
        Rule::Products => &[
            Symbol::Phrase(Form::Unary),
            Symbol::Repeated(Series::Operation(Level::Product)),
        ],
        Rule::Tests => &[
            Symbol::Phrase(Form::Binary(Level::Looser(Looser::Relational))),
            Symbol::Repeated(Series::Operation(Level::Instance)),
        ],
        Rule::Joins(level) => joined(level),
        Rule::Times => &[
            Symbol::Sign(Terminal::Multiplicative),
            Symbol::Phrase(Form::Unary),
        ],
        Rule::Test => &[
            Symbol::Sign(Terminal::Instanceof),
            Symbol::Phrase(Form::Type),
        ],
        Rule::Further(level) => further(level),
        Rule::AfterComma(listed) => after_comma(listed),
    }
}

/// The operands and operations of a level.
fn joined(level: Looser) -> &'static [Symbol]
    ensures row { map symbol_of result.now ≡ grammar.symbols (grammar.joins level) }
    ensures short { length result.now ≤ 6 }
{
    match level {
        Looser::Sum => &[
            Symbol::Phrase(Form::Binary(Level::Product)),
            Symbol::Repeated(Series::Operation(Level::Looser(Looser::Sum))),
        ],
        Looser::Shift => &[
            Symbol::Phrase(Form::Binary(Level::Looser(Looser::Sum))),
            Symbol::Repeated(Series::Operation(Level::Looser(Looser::Shift))),
        ],
        Looser::Relational => &[
            Symbol::Phrase(Form::Binary(Level::Looser(Looser::Shift))),
            Symbol::Repeated(Series::Operation(Level::Looser(Looser::Relational))),
        ],
        Looser::Equality => &[
            Symbol::Phrase(Form::Binary(Level::Instance)),
            Symbol::Repeated(Series::Operation(Level::Looser(Looser::Equality))),
        ],
        Looser::And => &[
            Symbol::Phrase(Form::Binary(Level::Looser(Looser::Equality))),
            Symbol::Repeated(Series::Operation(Level::Looser(Looser::And))),
        ],
        Looser::Xor => &[
            Symbol::Phrase(Form::Binary(Level::Looser(Looser::And))),
            Symbol::Repeated(Series::Operation(Level::Looser(Looser::Xor))),
        ],
        Looser::Or => &[
            Symbol::Phrase(Form::Binary(Level::Looser(Looser::Xor))),
            Symbol::Repeated(Series::Operation(Level::Looser(Looser::Or))),
        ],
        Looser::AndAnd => &[
            Symbol::Phrase(Form::Binary(Level::Looser(Looser::Or))),
            Symbol::Repeated(Series::Operation(Level::Looser(Looser::AndAnd))),
        ],
        Looser::OrOr => &[
            Symbol::Phrase(Form::Binary(Level::Looser(Looser::AndAnd))),
            Symbol::Repeated(Series::Operation(Level::Looser(Looser::OrOr))),
        ],
    }
}

/// An operation of a level.
fn further(level: Looser) -> &'static [Symbol]
    ensures row { map symbol_of result.now ≡ grammar.symbols (grammar.further level) }
    ensures short { length result.now ≤ 6 }
{
    match level {
        Looser::Sum => &[
            Symbol::Sign(Terminal::Additive),
            Symbol::Phrase(Form::Binary(Level::Product)),
        ],
        Looser::Shift => &[
            Symbol::Sign(Terminal::Shift),
            Symbol::Phrase(Form::Binary(Level::Looser(Looser::Sum))),
        ],
        Looser::Relational => &[
            Symbol::Sign(Terminal::Relational),
            Symbol::Phrase(Form::Binary(Level::Looser(Looser::Shift))),
        ],
        Looser::Equality => &[
            Symbol::Sign(Terminal::Equality),
            Symbol::Phrase(Form::Binary(Level::Instance)),
        ],
        Looser::And => &[
            Symbol::Sign(Terminal::And),
            Symbol::Phrase(Form::Binary(Level::Looser(Looser::Equality))),
        ],
        Looser::Xor => &[
            Symbol::Sign(Terminal::Xor),
            Symbol::Phrase(Form::Binary(Level::Looser(Looser::And))),
        ],
        Looser::Or => &[
            Symbol::Sign(Terminal::Or),
            Symbol::Phrase(Form::Binary(Level::Looser(Looser::Xor))),
        ],
        Looser::AndAnd => &[
            Symbol::Sign(Terminal::AndAnd),
            Symbol::Phrase(Form::Binary(Level::Looser(Looser::Or))),
        ],
        Looser::OrOr => &[
            Symbol::Sign(Terminal::OrOr),
            Symbol::Phrase(Form::Binary(Level::Looser(Looser::AndAnd))),
        ],
    }
}

/// A comma and what follows it.
fn after_comma(listed: Listed) -> &'static [Symbol]
    ensures row { map symbol_of result.now ≡ grammar.symbols (grammar.after_comma (listed_form listed)) }
    ensures short { length result.now ≤ 6 }
{
    match listed {
        Listed::Formal => &[Symbol::Sign(Terminal::Comma), Symbol::Phrase(Form::Formal)],
        Listed::Var => &[Symbol::Sign(Terminal::Comma), Symbol::Phrase(Form::Var)],
        Listed::Item => &[Symbol::Sign(Terminal::Comma), Symbol::Phrase(Form::Item)],
        Listed::Entry => &[Symbol::Sign(Terminal::Comma), Symbol::Phrase(Form::Entry)],
        Listed::Arg => &[Symbol::Sign(Terminal::Comma), Symbol::Phrase(Form::Arg)],
        Listed::Param => &[Symbol::Sign(Terminal::Comma), Symbol::Phrase(Form::Param)],
    }
}
