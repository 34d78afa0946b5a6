//! Which rule the tokens ahead tell.

ghost use Rattle.std.specs.Prelude.{◌≡◌};
ghost use Rattle.pl_grammar.specs.declared.ahead.Seen as declared;
ghost use Rattle.pl_grammar.specs.declared.terminal.Terminal as classes;
ghost use Rattle.pl_grammar.specs.Grammar as grammar;
ghost use Rattle.pl_grammar.specs.Reading as reading;
ghost use Rattle.pl_grammar.specs.Firsts as firsts;
ghost use Rattle.parse_tables.specs.Names.{form_of, meant};

use crate::beginning::begins_type;
use crate::form::Form;
use crate::rule::Rule;
use pl_grammar::{Level, Seen, Terminal};

/// A type and what only a declaration has after it.
fn is_declared(seen: Seen) -> bool
    ensures { result ≡ firsts.is_declared seen }
{
    matches!(
        seen,
        Seen::WordPairs
            | Seen::WordPairsOpen
            | Seen::Typed
            | Seen::Declared
            | Seen::Function
            | Seen::Each
            | Seen::Array
            | Seen::Reference
    )
}

/// A parameter and what only a lambda has after it, or only a lambda and a reference.
fn is_lambda(seen: Seen) -> bool
    ensures { result ≡ firsts.is_lambda seen }
{
    matches!(
        seen,
        Seen::Arrow
            | Seen::WordPairs
            | Seen::WordPairsOpen
            | Seen::Typed
            | Seen::Declared
            | Seen::Function
            | Seen::Each
            | Seen::Array
    )
}

/// Where the look ahead of a form begins; most need no more than their first token.
pub fn scan(form: Form) -> Seen
    ensures { result ≡ firsts.scan (form_of form) }
{
    match form {
        Form::ForRest | Form::ForFirst | Form::Closing | Form::Arg => Seen::Start,
        Form::Param => Seen::Param,
        Form::Unary => Seen::CastStart,
        _ => Seen::Other,
    }
}

/// Whether a script goes on with a function.
pub fn is_function_ahead(terminal: Terminal, seen: Seen) -> bool
    ensures { result ≡ reading.function_ahead terminal seen }
{
    begins_type(terminal) && matches!(seen, Seen::Function)
}

fn type_rule(terminal: Terminal) -> Rule
    ensures { (seen : declared.Seen) → meant result ≡ (grammar.type, reading.choice grammar.type terminal seen) }
{
    match terminal {
        Terminal::Name => Rule::NameType,
        _ => Rule::KnownType,
    }
}

fn statement_rule(terminal: Terminal) -> Rule
    ensures { (seen : declared.Seen) → meant result ≡ (grammar.statement, reading.choice grammar.statement terminal seen) }
{
    match terminal {
        Terminal::If | Terminal::While | Terminal::For | Terminal::Try => Rule::Opens,
        _ => Rule::Closes,
    }
}

fn inner_rule(terminal: Terminal) -> Rule
    ensures { (seen : declared.Seen) → meant result ≡ (grammar.inner, reading.choice grammar.inner terminal seen) }
{
    match terminal {
        Terminal::If | Terminal::While | Terminal::For | Terminal::Try => Rule::InnerOpens,
        _ => Rule::InnerCloses,
    }
}

fn opening_rule(terminal: Terminal) -> Rule
    ensures { (seen : declared.Seen) → meant result ≡ (grammar.opening, reading.choice grammar.opening terminal seen) }
{
    match terminal {
        Terminal::If => Rule::Conditional,
        Terminal::While => Rule::Looped,
        Terminal::For => Rule::ForLoop,
        _ => Rule::Tried,
    }
}

fn run_rule(terminal: Terminal) -> Rule
    ensures { (seen : declared.Seen) → meant result ≡ (grammar.run, reading.choice grammar.run terminal seen) }
{
    match terminal {
        Terminal::Semicolon => Rule::Idle,
        _ => Rule::Runs,
    }
}

fn for_rest_rule(terminal: Terminal, seen: Seen) -> Rule
    ensures { meant result ≡ (grammar.for_rest, reading.choice grammar.for_rest terminal seen) }
{
    match terminal {
        Terminal::Semicolon => Rule::ThreeEmpty,
        _ => if begins_type(terminal) && matches!(seen, Seen::Each) {
            Rule::EachOf
        } else if matches!(terminal, Terminal::Name) && matches!(seen, Seen::In) {
            Rule::EachIn
        } else {
            Rule::ThreeFirst
        },
    }
}

fn for_first_rule(terminal: Terminal, seen: Seen) -> Rule
    ensures { meant result ≡ (grammar.for_first, reading.choice grammar.for_first terminal seen) }
{
    match terminal {
        _ => if begins_type(terminal) && is_declared(seen) {
            Rule::Declares
        } else {
            Rule::Expresses
        },
    }
}

fn closing_rule(terminal: Terminal, seen: Seen) -> Rule
    ensures { meant result ≡ (grammar.closing, reading.choice grammar.closing terminal seen) }
{
    match terminal {
        Terminal::Do => Rule::DoLoop,
        Terminal::Jump => Rule::Jump,
        Terminal::Return => Rule::Returned,
        Terminal::Throw => Rule::Thrown,
        _ => if begins_type(terminal) && is_declared(seen) {
            Rule::Declared
        } else {
            Rule::Value
        },
    }
}

fn body_rule(terminal: Terminal) -> Rule
    ensures { (seen : declared.Seen) → meant result ≡ (grammar.body, reading.choice grammar.body terminal seen) }
{
    match terminal {
        Terminal::LeftBrace => Rule::BlockBody,
        _ => Rule::StatementBody,
    }
}

fn expr_rest_rule(terminal: Terminal) -> Rule
    ensures { (seen : declared.Seen) → meant result ≡ (grammar.expr_rest, reading.choice grammar.expr_rest terminal seen) }
{
    match terminal {
        Terminal::Question => Rule::ConditionalRest,
        Terminal::Assign => Rule::AssignRest,
        _ => Rule::CompoundRest,
    }
}

fn unary_rule(terminal: Terminal, seen: Seen) -> Rule
    ensures { meant result ≡ (grammar.unary, reading.choice grammar.unary terminal seen) }
{
    match terminal {
        Terminal::LeftParen => if matches!(seen, Seen::Cast) {
            Rule::Cast
        } else {
            Rule::Plain
        },
        Terminal::Step => Rule::Prefix,
        Terminal::Additive => Rule::Signed,
        Terminal::Negation => Rule::Negated,
        _ => Rule::Plain,
    }
}

fn chain_rule(terminal: Terminal) -> Rule
    ensures { (seen : declared.Seen) → meant result ≡ (grammar.chain, reading.choice grammar.chain terminal seen) }
{
    match terminal {
        Terminal::Class | Terminal::Basic => Rule::Typed,
        Terminal::New => Rule::Created,
        _ => Rule::Suffixed,
    }
}

fn element_rule(terminal: Terminal) -> Rule
    ensures { (seen : declared.Seen) → meant result ≡ (grammar.element, reading.choice grammar.element terminal seen) }
{
    match terminal {
        Terminal::Name => Rule::NameElement,
        _ => Rule::KnownElement,
    }
}

fn new_rest_rule(terminal: Terminal) -> Rule
    ensures { (seen : declared.Seen) → meant result ≡ (grammar.new_rest, reading.choice grammar.new_rest terminal seen) }
{
    match terminal {
        Terminal::LeftBracket => Rule::NewArray,
        _ => Rule::NewObject,
    }
}

fn after_bracket_rule(terminal: Terminal) -> Rule
    ensures { (seen : declared.Seen) → meant result ≡ (grammar.after_bracket, reading.choice grammar.after_bracket terminal seen) }
{
    match terminal {
        Terminal::RightBracket => Rule::EmptyBracket,
        _ => Rule::FirstSize,
    }
}

fn array_rest_rule(terminal: Terminal) -> Rule
    ensures { (seen : declared.Seen) → meant result ≡ (grammar.array_rest, reading.choice grammar.array_rest terminal seen) }
{
    match terminal {
        Terminal::LeftBrace => Rule::ArrayItems,
        Terminal::LeftBracket => Rule::ArrayDeeper,
        _ => Rule::ArrayObject,
    }
}

fn primary_rule(terminal: Terminal) -> Rule
    ensures { (seen : declared.Seen) → meant result ≡ (grammar.primary, reading.choice grammar.primary terminal seen) }
{
    match terminal {
        Terminal::LeftParen => Rule::Bracketed,
        Terminal::Integer => Rule::Integer,
        Terminal::Text => Rule::String,
        Terminal::Constant => Rule::Constant,
        Terminal::LeftBracket => Rule::Collection,
        _ => Rule::Named,
    }
}

fn contents_rule(terminal: Terminal) -> Rule
    ensures { (seen : declared.Seen) → meant result ≡ (grammar.contents, reading.choice grammar.contents terminal seen) }
{
    match terminal {
        Terminal::Colon => Rule::NoEntries,
        _ => Rule::Filled,
    }
}

fn more_rule(terminal: Terminal) -> Rule
    ensures { (seen : declared.Seen) → meant result ≡ (grammar.more, reading.choice grammar.more terminal seen) }
{
    match terminal {
        Terminal::Comma => Rule::MoreItems,
        _ => Rule::MoreEntries,
    }
}

fn postfix_rule(terminal: Terminal) -> Rule
    ensures { (seen : declared.Seen) → meant result ≡ (grammar.postfix, reading.choice grammar.postfix terminal seen) }
{
    match terminal {
        Terminal::LeftBracket => Rule::Index,
        _ => Rule::Access,
    }
}

fn member_rule(terminal: Terminal) -> Rule
    ensures { (seen : declared.Seen) → meant result ≡ (grammar.member, reading.choice grammar.member terminal seen) }
{
    match terminal {
        Terminal::DotName => Rule::NamedMember,
        _ => Rule::Numbered,
    }
}

fn arg_rule(terminal: Terminal, seen: Seen) -> Rule
    ensures { meant result ≡ (grammar.arg, reading.choice grammar.arg terminal seen) }
{
    match terminal {
        Terminal::LeftParen => if matches!(seen, Seen::Listed) {
            Rule::Lambdas
        } else {
            Rule::Argued
        },
        Terminal::This => Rule::ThisReference,
        _ => if begins_type(terminal) && is_lambda(seen) {
            Rule::Lambda
        } else if begins_type(terminal) && matches!(seen, Seen::Reference) {
            Rule::Reference
        } else {
            Rule::Argued
        },
    }
}

fn ref_name_rule(terminal: Terminal) -> Rule
    ensures { (seen : declared.Seen) → meant result ≡ (grammar.ref_name, reading.choice grammar.ref_name terminal seen) }
{
    match terminal {
        Terminal::New => Rule::RefNew,
        _ => Rule::RefWord,
    }
}

fn param_rule(terminal: Terminal, seen: Seen) -> Rule
    ensures { meant result ≡ (grammar.param, reading.choice grammar.param terminal seen) }
{
    match terminal {
        Terminal::Name => if is_declared(seen) {
            Rule::TypedParam
        } else {
            Rule::BareParam
        },
        _ => Rule::TypedParam,
    }
}

fn lambda_body_rule(terminal: Terminal) -> Rule
    ensures { (seen : declared.Seen) → meant result ≡ (grammar.lambda_body, reading.choice grammar.lambda_body terminal seen) }
{
    match terminal {
        Terminal::LeftBrace => Rule::BlockLambda,
        _ => Rule::ExprLambda,
    }
}

fn binary_rule(level: Level) -> Rule
    ensures { (terminal : classes.Terminal) (seen : declared.Seen) → meant result ≡ (grammar.binary level, reading.choice (grammar.binary level) terminal seen) }
{
    match level {
        Level::Product => Rule::Products,
        Level::Instance => Rule::Tests,
        Level::Looser(looser) => Rule::Joins(looser),
    }
}

fn operation_rule(level: Level) -> Rule
    ensures { (terminal : classes.Terminal) (seen : declared.Seen) → meant result ≡ (grammar.operation level, reading.choice (grammar.operation level) terminal seen) }
{
    match level {
        Level::Product => Rule::Times,
        Level::Instance => Rule::Test,
        Level::Looser(looser) => Rule::Further(looser),
    }
}

/// The rule of a form that the next token tells, with what is seen of all.
pub fn choose(form: Form, terminal: Terminal, seen: Seen) -> Rule
    ensures { meant result ≡ (form_of form, reading.choice (form_of form) terminal seen) }
{
    match form {
        Form::Function => Rule::FunctionOf,
        Form::Formals => Rule::FormalList,
        Form::Formal => Rule::FormalOf,
        Form::Type => type_rule(terminal),
        Form::CastType => Rule::CastTypeOf,
        Form::Pair => Rule::Square,
        Form::Block => Rule::Braces,
        Form::Statement => statement_rule(terminal),
        Form::Inner => inner_rule(terminal),
        Form::Last => Rule::LastSemicolon,
        Form::Separator => Rule::Semicolon,
        Form::Opening => opening_rule(terminal),
        Form::Otherwise => Rule::Alternative,
        Form::Run => run_rule(terminal),
        Form::ForRest => for_rest_rule(terminal, seen),
        Form::Three => Rule::ThreeParts,
        Form::ForTail => Rule::TailParts,
        Form::ForFirst => for_first_rule(terminal, seen),
        Form::Handler => Rule::Catches,
        Form::Closing => closing_rule(terminal, seen),
        Form::Decl => Rule::Declaration,
        Form::Var => Rule::Variable,
        Form::Init => Rule::Assigned,
        Form::Body => body_rule(terminal),
        Form::Expr => Rule::Expression,
        Form::ExprRest => expr_rest_rule(terminal),
        Form::Elvis => Rule::Elvises,
        Form::ElvisRest => Rule::ElvisOf,
        Form::Unary => unary_rule(terminal, seen),
        Form::Step => Rule::StepToken,
        Form::Chain => chain_rule(terminal),
        Form::Element => element_rule(terminal),
        Form::NewRest => new_rest_rule(terminal),
        Form::AfterBracket => after_bracket_rule(terminal),
        Form::ArrayRest => array_rest_rule(terminal),
        Form::Size => Rule::SizeOf,
        Form::Primary => primary_rule(terminal),
        Form::Contents => contents_rule(terminal),
        Form::More => more_rule(terminal),
        Form::Entry => Rule::EntryOf,
        Form::Items => Rule::ItemsOf,
        Form::Item => Rule::ItemOf,
        Form::Postfix => postfix_rule(terminal),
        Form::Dot => Rule::DotOf,
        Form::Member => member_rule(terminal),
        Form::Args => Rule::ArgsOf,
        Form::Arguments => Rule::ArgumentsOf,
        Form::Arg => arg_rule(terminal, seen),
        Form::RefName => ref_name_rule(terminal),
        Form::Params => Rule::ParamsOf,
        Form::Param => param_rule(terminal, seen),
        Form::LambdaBody => lambda_body_rule(terminal),
        Form::Binary(level) => binary_rule(level),
        Form::Operation(level) => operation_rule(level),
        Form::Comma(listed) => Rule::AfterComma(listed),
    }
}
