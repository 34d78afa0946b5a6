//! What the tokens ahead tell, where the first does not.

ghost use Rattle.std.specs.Prelude.{◌≡◌, ℕ, List};
ghost use Rattle.pl_grammar.specs.Ahead as spec;
ghost use Rattle.pl_grammar.specs.Lexeme.{lexemes};

use crate::terminal::{Terminal, terminal_of};
use pl_lexer::Token;

/// What is seen of the tokens ahead.
#[derive(Clone, Copy)]
pub enum Seen {
    /// Nothing yet of what may be a type, a parameter or an expression.
    Start,
    /// `Name`
    Word,
    /// `Name [`
    WordOpen,
    /// `Name` and one `[ ]` at least.
    WordPairs,
    /// The same and `[`.
    WordPairsOpen,
    /// A type that begins with no name, and any number of `[ ]`.
    Known,
    /// The same and `[`.
    KnownOpen,
    /// A type and a name.
    Typed,
    /// `(`
    Round,
    /// `( Name`
    RoundWord,
    /// `( Name )`
    RoundWordRound,
    /// `( Name [`
    RoundWordOpen,
    /// `(`, a type that begins with no name, and any number of `[ ]`.
    RoundKnown,
    /// The same and `[`.
    RoundKnownOpen,
    /// Nothing yet of what may be a cast.
    CastStart,
    /// `(`
    CastRound,
    /// `(`, a type that begins with no name, and any number of `[ ]`.
    CastKnown,
    /// The same and `[`.
    CastOpen,
    /// Nothing yet of what may be a parameter.
    Param,
    /// `Name`
    ParamWord,
    /// A type, a name, and what follows neither a function's name nor one over elements.
    Declared,
    /// A type, a name and `(`.
    Function,
    /// A type, a name and `:`.
    Each,
    /// `Name in`
    In,
    /// `Name ->`
    Arrow,
    /// A type and `::`.
    Reference,
    /// `Name [ ]`, and what follows no type.
    Array,
    /// `(`, and what only parameters are.
    Listed,
    /// `(`, a type that begins with no name, and `)`.
    Cast,
    /// Anything else.
    Other,
}

/// What is seen with one token more.
pub fn sees(from: Seen, terminal: Terminal) -> Seen
    ensures { result ≡ spec.sees from terminal }
{
    match from {
        Seen::Start => match terminal {
            Terminal::Name => Seen::Word,
            Terminal::Basic | Terminal::Class => Seen::Known,
            Terminal::LeftParen => Seen::Round,
            _ => Seen::Other,
        },
        Seen::Word => match terminal {
            Terminal::Name => Seen::Typed,
            Terminal::Arrow => Seen::Arrow,
            Terminal::In => Seen::In,
            Terminal::ColonColon => Seen::Reference,
            Terminal::LeftBracket => Seen::WordOpen,
            _ => Seen::Other,
        },
        Seen::WordOpen => match terminal {
            Terminal::RightBracket => Seen::WordPairs,
            _ => Seen::Other,
        },
        Seen::WordPairs => match terminal {
            Terminal::LeftBracket => Seen::WordPairsOpen,
            Terminal::Name => Seen::Typed,
            Terminal::ColonColon => Seen::Reference,
            _ => Seen::Array,
        },
        Seen::WordPairsOpen => match terminal {
            Terminal::RightBracket => Seen::WordPairs,
            _ => Seen::Array,
        },
        Seen::Known => match terminal {
            Terminal::LeftBracket => Seen::KnownOpen,
            Terminal::Name => Seen::Typed,
            Terminal::ColonColon => Seen::Reference,
            _ => Seen::Other,
        },
        Seen::KnownOpen => match terminal {
            Terminal::RightBracket => Seen::Known,
            _ => Seen::Other,
        },
        Seen::Typed => match terminal {
            Terminal::LeftParen => Seen::Function,
            Terminal::Colon => Seen::Each,
            _ => Seen::Declared,
        },
        Seen::Round => match terminal {
            Terminal::Name => Seen::RoundWord,
            Terminal::Basic | Terminal::Class => Seen::RoundKnown,
            Terminal::RightParen => Seen::Listed,
            _ => Seen::Other,
        },
        Seen::RoundWord => match terminal {
            Terminal::Name | Terminal::Comma => Seen::Listed,
            Terminal::RightParen => Seen::RoundWordRound,
            Terminal::LeftBracket => Seen::RoundWordOpen,
            _ => Seen::Other,
        },
        Seen::RoundWordRound => match terminal {
            Terminal::Arrow => Seen::Listed,
            _ => Seen::Other,
        },
        Seen::RoundWordOpen => match terminal {
            Terminal::RightBracket => Seen::Listed,
            _ => Seen::Other,
        },
        Seen::RoundKnown => match terminal {
            Terminal::LeftBracket => Seen::RoundKnownOpen,
            Terminal::Name => Seen::Listed,
            _ => Seen::Other,
        },
        Seen::RoundKnownOpen => match terminal {
            Terminal::RightBracket => Seen::RoundKnown,
            _ => Seen::Other,
        },
        Seen::CastStart => match terminal {
            Terminal::LeftParen => Seen::CastRound,
            _ => Seen::Other,
        },
        Seen::CastRound => match terminal {
            Terminal::Basic | Terminal::Class => Seen::CastKnown,
            _ => Seen::Other,
        },
        Seen::CastKnown => match terminal {
            Terminal::LeftBracket => Seen::CastOpen,
            Terminal::RightParen => Seen::Cast,
            _ => Seen::Other,
        },
        Seen::CastOpen => match terminal {
            Terminal::RightBracket => Seen::CastKnown,
            _ => Seen::Other,
        },
        Seen::Param => match terminal {
            Terminal::Name => Seen::ParamWord,
            Terminal::Basic | Terminal::Class => Seen::Declared,
            _ => Seen::Other,
        },
        Seen::ParamWord => match terminal {
            Terminal::Name | Terminal::LeftBracket => Seen::Declared,
            _ => Seen::Other,
        },
        told => told,
    }
}

/// Whether no further token changes what is seen.
pub fn is_final(seen: Seen) -> bool
    ensures { result ≡ spec.is_final seen }
{
    matches!(
        seen,
        Seen::Declared
            | Seen::Function
            | Seen::Each
            | Seen::In
            | Seen::Arrow
            | Seen::Reference
            | Seen::Array
            | Seen::Listed
            | Seen::Cast
            | Seen::Other
    )
}

/// What is seen of all the tokens, from this on. It reads no further than it has to.
pub fn look(tokens: &[Token], from: Seen) -> Seen
    ensures { (text : List ℕ) → result ≡ spec.seen from (lexemes text tokens.now) }
{
    let mut state = from;
    for token in tokens {
        if is_final(state) {
            return state;
        }
        state = sees(state, terminal_of(token.kind));
    }
    state
}
