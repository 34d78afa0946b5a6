//! What a form begins with.

ghost use Rattle.std.specs.Prelude.{◌≡◌};
ghost use Rattle.pl_grammar.specs.Firsts as firsts;
ghost use Rattle.pl_grammar.specs.Grammar as grammar;
ghost use Rattle.parse_tables.specs.Names.{form_of};

use crate::form::Form;
use pl_grammar::{Level, Terminal, matches, sign_of};

fn begins_cast_type(terminal: Terminal) -> bool
    ensures { result ≡ firsts.begins_cast_type terminal }
{
    matches!(terminal, Terminal::Class | Terminal::Basic)
}

/// Whether a type begins with a token of this class.
pub fn begins_type(terminal: Terminal) -> bool
    ensures { result ≡ firsts.begins_type terminal }
{
    match terminal {
        Terminal::Name => true,
        _ => begins_cast_type(terminal),
    }
}

fn begins_opening(terminal: Terminal) -> bool
    ensures { result ≡ firsts.begins_opening terminal }
{
    matches!(
        terminal,
        Terminal::If | Terminal::While | Terminal::For | Terminal::Try
    )
}

fn begins_primary(terminal: Terminal) -> bool
    ensures { result ≡ firsts.begins_primary terminal }
{
    matches!(
        terminal,
        Terminal::Name
            | Terminal::Integer
            | Terminal::Text
            | Terminal::Constant
            | Terminal::LeftParen
            | Terminal::LeftBracket
    )
}

fn begins_chain(terminal: Terminal) -> bool
    ensures { result ≡ firsts.begins_chain terminal }
{
    match terminal {
        Terminal::Class | Terminal::Basic | Terminal::New => true,
        _ => begins_primary(terminal),
    }
}

fn begins_expr(terminal: Terminal) -> bool
    ensures { result ≡ firsts.begins_expr terminal }
{
    match terminal {
        Terminal::Additive | Terminal::Step | Terminal::Negation => true,
        _ => begins_chain(terminal),
    }
}

fn begins_arg(terminal: Terminal) -> bool
    ensures { result ≡ firsts.begins_arg terminal }
{
    match terminal {
        Terminal::This => true,
        _ => begins_expr(terminal),
    }
}

fn begins_for_rest(terminal: Terminal) -> bool
    ensures { result ≡ firsts.begins_for_rest terminal }
{
    match terminal {
        Terminal::Semicolon => true,
        _ => begins_expr(terminal),
    }
}

fn begins_after_bracket(terminal: Terminal) -> bool
    ensures { result ≡ firsts.begins_after_bracket terminal }
{
    match terminal {
        Terminal::RightBracket => true,
        _ => begins_expr(terminal),
    }
}

fn begins_contents(terminal: Terminal) -> bool
    ensures { result ≡ firsts.begins_contents terminal }
{
    match terminal {
        Terminal::Colon => true,
        _ => begins_expr(terminal),
    }
}

fn begins_lambda_body(terminal: Terminal) -> bool
    ensures { result ≡ firsts.begins_lambda_body terminal }
{
    match terminal {
        Terminal::LeftBrace => true,
        _ => begins_expr(terminal),
    }
}

fn begins_closing(terminal: Terminal) -> bool
    ensures { result ≡ firsts.begins_closing terminal }
{
    match terminal {
        Terminal::Do | Terminal::Jump | Terminal::Return | Terminal::Throw => true,
        _ => begins_expr(terminal),
    }
}

fn begins_statement(terminal: Terminal) -> bool
    ensures { result ≡ firsts.begins_statement terminal }
{
    match terminal {
        Terminal::If | Terminal::While | Terminal::For | Terminal::Try => true,
        _ => begins_closing(terminal),
    }
}

fn begins_body(terminal: Terminal) -> bool
    ensures { result ≡ firsts.begins_body terminal }
{
    match terminal {
        Terminal::LeftBrace => true,
        _ => begins_statement(terminal),
    }
}

fn begins_run(terminal: Terminal) -> bool
    ensures { result ≡ firsts.begins_run terminal }
{
    match terminal {
        Terminal::Semicolon => true,
        _ => begins_body(terminal),
    }
}

fn begins_ref_name(terminal: Terminal) -> bool
    ensures { result ≡ firsts.begins_ref_name terminal }
{
    matches!(terminal, Terminal::New) || matches(Terminal::AnyWord, terminal)
}

/// The class of the operators of a level.
fn sign_at(level: Level) -> Terminal
    ensures { result ≡ grammar.sign_at level }
{
    match level {
        Level::Product => Terminal::Multiplicative,
        Level::Instance => Terminal::Instanceof,
        Level::Looser(looser) => sign_of(looser),
    }
}

/// Whether a token of this class begins a phrase of the form.
pub fn first(form: Form, terminal: Terminal) -> bool
    ensures { result ≡ firsts.first (form_of form) terminal }
{
    match form {
        Form::Function
        | Form::Formals
        | Form::Formal
        | Form::Type
        | Form::Decl
        | Form::Element
        | Form::Params
        | Form::Param => begins_type(terminal),
        Form::CastType => begins_cast_type(terminal),
        Form::Pair | Form::Size => matches!(terminal, Terminal::LeftBracket),
        Form::Block => matches!(terminal, Terminal::LeftBrace),
        Form::Statement | Form::Inner => begins_statement(terminal),
        Form::Last | Form::Separator | Form::Three | Form::ForTail => matches!(
            terminal,
            Terminal::Semicolon
        ),
        Form::Opening => begins_opening(terminal),
        Form::Otherwise => matches!(terminal, Terminal::Else),
        Form::Run => begins_run(terminal),
        Form::ForRest => begins_for_rest(terminal),
        Form::ForFirst
        | Form::Expr
        | Form::Elvis
        | Form::Unary
        | Form::Entry
        | Form::Items
        | Form::Item
        | Form::Binary(_) => begins_expr(terminal),
        Form::Handler => matches!(terminal, Terminal::Catch),
        Form::Closing => begins_closing(terminal),
        Form::Var => matches!(terminal, Terminal::Name),
        Form::Init => matches!(terminal, Terminal::Assign),
        Form::Body => begins_body(terminal),
        Form::ExprRest => matches!(
            terminal,
            Terminal::Question | Terminal::Assign | Terminal::CompoundAssign
        ),
        Form::ElvisRest => matches!(terminal, Terminal::Elvis),
        Form::Step => matches!(terminal, Terminal::Step),
        Form::Chain => begins_chain(terminal),
        Form::NewRest => matches!(terminal, Terminal::LeftParen | Terminal::LeftBracket),
        Form::AfterBracket => begins_after_bracket(terminal),
        Form::ArrayRest => matches!(
            terminal,
            Terminal::LeftParen | Terminal::LeftBracket | Terminal::LeftBrace
        ),
        Form::Primary => begins_primary(terminal),
        Form::Contents => begins_contents(terminal),
        Form::More => matches!(terminal, Terminal::Comma | Terminal::Colon),
        Form::Postfix => matches!(terminal, Terminal::LeftBracket | Terminal::Dot),
        Form::Dot => matches!(terminal, Terminal::Dot),
        Form::Member => matches!(terminal, Terminal::DotName | Terminal::DotInteger),
        Form::Args => matches!(terminal, Terminal::LeftParen),
        Form::Arguments | Form::Arg => begins_arg(terminal),
        Form::RefName => begins_ref_name(terminal),
        Form::LambdaBody => begins_lambda_body(terminal),
        Form::Operation(level) => matches(sign_at(level), terminal),
        Form::Comma(_) => matches!(terminal, Terminal::Comma),
    }
}

/// Whether a phrase of the form may be left out before a token of this class.
pub fn absent(form: Form, terminal: Terminal) -> bool
    ensures { result ≡ firsts.absent (form_of form) terminal }
{
    match form {
        Form::Last => matches!(terminal, Terminal::End),
        Form::Separator => matches!(terminal, Terminal::End | Terminal::RightBrace),
        _ => !first(form, terminal),
    }
}
