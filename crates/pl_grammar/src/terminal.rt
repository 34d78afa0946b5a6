//! The classes of tokens that the grammar tells apart.

ghost use Rattle.std.specs.Prelude.{◌≡◌};
ghost use Rattle.pl_grammar.specs.Lexeme as spec;

use pl_lexer::{Kind, Sign, Word};

/// What the grammar sees of a token, and what it asks for.
#[derive(Clone, Copy, PartialEq, Eq)]
pub enum Terminal {
    /// A name.
    Name,
    /// A word after `.` or `?.`.
    DotName,
    /// A number after `.` or `?.`.
    DotInteger,
    /// A whole number.
    Integer,
    /// A text in quotes.
    Text,
    /// The name of a class.
    Class,
    /// `def` or a primitive type.
    Basic,
    /// `if`
    If,
    /// `else`
    Else,
    /// `while`
    While,
    /// `do`
    Do,
    /// `for`
    For,
    /// `in`
    In,
    /// `continue` or `break`.
    Jump,
    /// `return`
    Return,
    /// `new`
    New,
    /// `try`
    Try,
    /// `catch`
    Catch,
    /// `throw`
    Throw,
    /// `this`
    This,
    /// `instanceof`
    Instanceof,
    /// `true`, `false` or `null`.
    Constant,
    /// `(`
    LeftParen,
    /// `)`
    RightParen,
    /// `[`
    LeftBracket,
    /// `]`
    RightBracket,
    /// `{`
    LeftBrace,
    /// `}`
    RightBrace,
    /// `.` or `?.`
    Dot,
    /// `,`
    Comma,
    /// `;`
    Semicolon,
    /// `?`
    Question,
    /// `:`
    Colon,
    /// `?:`
    Elvis,
    /// `::`
    ColonColon,
    /// `->`
    Arrow,
    /// `+` or `-`
    Additive,
    /// `*`, `/` or `%`
    Multiplicative,
    /// `++` or `--`
    Step,
    /// `!` or `~`
    Negation,
    /// `<<`, `>>` or `>>>`
    Shift,
    /// `<`, `<=`, `>` or `>=`
    Relational,
    /// `==`, `!=`, `===` or `!==`
    Equality,
    /// `&`
    And,
    /// `^`
    Xor,
    /// `|`
    Or,
    /// `&&`
    AndAnd,
    /// `||`
    OrOr,
    /// `=`
    Assign,
    /// An assignment that applies an operator.
    CompoundAssign,
    /// What follows the last token.
    End,
    /// No class of a token: any type that begins with no name is asked for.
    Known,
    /// No class of a token: any word but `new` and the name of a class is asked for.
    AnyWord,
}

/// The class of a kind of token.
pub fn terminal_of(kind: Kind) -> Terminal
    ensures { result ≡ spec.terminal_of kind }
{
    match kind {
        Kind::Name => Terminal::Name,
        Kind::DotName => Terminal::DotName,
        Kind::DotInteger => Terminal::DotInteger,
        Kind::Integer => Terminal::Integer,
        Kind::Text => Terminal::Text,
        Kind::ClassName(_) => Terminal::Class,
        Kind::Prim(_) => Terminal::Basic,
        Kind::Word(word) => terminal_of_word(word),
        Kind::Sign(sign) => terminal_of_sign(sign),
    }
}

fn terminal_of_word(word: Word) -> Terminal
    ensures { result ≡ spec.terminal_of_word word }
{
    match word {
        Word::If => Terminal::If,
        Word::Else => Terminal::Else,
        Word::While => Terminal::While,
        Word::Do => Terminal::Do,
        Word::For => Terminal::For,
        Word::In => Terminal::In,
        Word::Return => Terminal::Return,
        Word::New => Terminal::New,
        Word::Try => Terminal::Try,
        Word::Catch => Terminal::Catch,
        Word::Throw => Terminal::Throw,
        Word::This => Terminal::This,
        Word::Instanceof => Terminal::Instanceof,
        Word::Continue => Terminal::Jump,
        Word::Break => Terminal::Jump,
        Word::True => Terminal::Constant,
        Word::False => Terminal::Constant,
        Word::Null => Terminal::Constant,
        Word::Def => Terminal::Basic,
    }
}

fn terminal_of_sign(sign: Sign) -> Terminal
    ensures { result ≡ spec.terminal_of_sign sign }
{
    match sign {
        Sign::LeftParen => Terminal::LeftParen,
        Sign::RightParen => Terminal::RightParen,
        Sign::LeftBracket => Terminal::LeftBracket,
        Sign::RightBracket => Terminal::RightBracket,
        Sign::LeftBrace => Terminal::LeftBrace,
        Sign::RightBrace => Terminal::RightBrace,
        Sign::Dot => Terminal::Dot,
        Sign::NullDot => Terminal::Dot,
        Sign::Comma => Terminal::Comma,
        Sign::Semicolon => Terminal::Semicolon,
        Sign::Question => Terminal::Question,
        Sign::Colon => Terminal::Colon,
        Sign::Elvis => Terminal::Elvis,
        Sign::ColonColon => Terminal::ColonColon,
        Sign::Arrow => Terminal::Arrow,
        Sign::Plus => Terminal::Additive,
        Sign::Minus => Terminal::Additive,
        Sign::Star => Terminal::Multiplicative,
        Sign::Slash => Terminal::Multiplicative,
        Sign::Percent => Terminal::Multiplicative,
        Sign::Increment => Terminal::Step,
        Sign::Decrement => Terminal::Step,
        Sign::Not => Terminal::Negation,
        Sign::Tilde => Terminal::Negation,
        Sign::ShiftLeft => Terminal::Shift,
        Sign::ShiftRight => Terminal::Shift,
        Sign::ShiftRightUnsigned => Terminal::Shift,
        Sign::Less => Terminal::Relational,
        Sign::LessEqual => Terminal::Relational,
        Sign::Greater => Terminal::Relational,
        Sign::GreaterEqual => Terminal::Relational,
        Sign::Equal => Terminal::Equality,
        Sign::NotEqual => Terminal::Equality,
        Sign::Same => Terminal::Equality,
        Sign::NotSame => Terminal::Equality,
        Sign::And => Terminal::And,
        Sign::Xor => Terminal::Xor,
        Sign::Or => Terminal::Or,
        Sign::AndAnd => Terminal::AndAnd,
        Sign::OrOr => Terminal::OrOr,
        Sign::Assign => Terminal::Assign,
        _ => Terminal::CompoundAssign,
    }
}

fn is_known(class: Terminal) -> bool
    ensures { result ≡ spec.is_known class }
{
    matches!(class, Terminal::Basic | Terminal::Class)
}

fn is_word(class: Terminal) -> bool
    ensures { result ≡ spec.is_word class }
{
    matches!(
        class,
        Terminal::Name
            | Terminal::DotName
            | Terminal::Basic
            | Terminal::If
            | Terminal::Else
            | Terminal::While
            | Terminal::Do
            | Terminal::For
            | Terminal::In
            | Terminal::Jump
            | Terminal::Return
            | Terminal::Try
            | Terminal::Catch
            | Terminal::Throw
            | Terminal::This
            | Terminal::Instanceof
            | Terminal::Constant
    )
}

#[tactic(auto, unfolding(crate::specs::Lexeme::same_terminal))]
fn same_terminal(a: Terminal, b: Terminal) -> bool
    ensures { result ≡ spec.same_terminal a b }
{
    a == b
}

/// Whether a token of a class is one of those that are asked for.
pub fn matches(wanted: Terminal, class: Terminal) -> bool
    ensures { result ≡ spec.matches wanted class }
{
    match wanted {
        Terminal::Known => is_known(class),
        Terminal::AnyWord => is_word(class),
        _ => same_terminal(class, wanted),
    }
}
