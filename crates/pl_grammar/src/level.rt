//! The levels of binary operators.

ghost use Rattle.std.specs.Prelude.{◌≡◌};
ghost use Rattle.pl_grammar.specs.Grammar as spec;

use crate::terminal::Terminal;

/// A level, whose operators group to the left.
#[derive(Clone, Copy)]
pub enum Level {
    /// `*`, `/` and `%`, the tightest, between unary expressions.
    Product,
    /// `instanceof`, after relations.
    Instance,
    /// The others, each between operands of the level inside it.
    Looser(Looser),
}

/// A level with another inside it, tightest first.
#[derive(Clone, Copy)]
pub enum Looser {
    /// `+` and `-`.
    Sum,
    /// `<<`, `>>` and `>>>`.
    Shift,
    /// `<`, `<=`, `>` and `>=`.
    Relational,
    /// `==`, `!=`, `===` and `!==`.
    Equality,
    /// `&`
    And,
    /// `^`
    Xor,
    /// `|`
    Or,
    /// `&&`
    AndAnd,
    /// `||`
    OrOr,
}

/// The level of the operands.
pub fn tighter(level: Looser) -> Level
    ensures { result ≡ spec.tighter level }
{
    match level {
        Looser::Sum => Level::Product,
        Looser::Shift => Level::Looser(Looser::Sum),
        Looser::Relational => Level::Looser(Looser::Shift),
        Looser::Equality => Level::Instance,
        Looser::And => Level::Looser(Looser::Equality),
        Looser::Xor => Level::Looser(Looser::And),
        Looser::Or => Level::Looser(Looser::Xor),
        Looser::AndAnd => Level::Looser(Looser::Or),
        Looser::OrOr => Level::Looser(Looser::AndAnd),
    }
}

/// The class of the operators of a level.
pub fn sign_of(level: Looser) -> Terminal
    ensures { result ≡ spec.sign_of level }
{
    match level {
        Looser::Sum => Terminal::Additive,
        Looser::Shift => Terminal::Shift,
        Looser::Relational => Terminal::Relational,
        Looser::Equality => Terminal::Equality,
        Looser::And => Terminal::And,
        Looser::Xor => Terminal::Xor,
        Looser::Or => Terminal::Or,
        Looser::AndAnd => Terminal::AndAnd,
        Looser::OrOr => Terminal::OrOr,
    }
}
