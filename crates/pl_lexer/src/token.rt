//! What a token is.

use pl_types::Primitive;

/// A token of a script: what it is, and the bytes of the script that spell it.
#[derive(Clone, Copy, Debug, PartialEq, Eq)]
pub struct Token {
    /// What it is.
    pub kind: Kind,
    /// Its first byte, counted from 0.
    pub start: u32,
    /// The byte after its last.
    pub end: u32,
}

/// What a token is. Where one kind has many spellings, the bytes tell which it is.
#[derive(Clone, Copy, Debug, PartialEq, Eq)]
pub enum Kind {
    /// A name that is no keyword.
    Name,
    /// A word after `.` or `?.`.
    DotName,
    /// A number after `.` or `?.`.
    DotInteger,
    /// A whole number.
    Integer,
    /// A text in quotes.
    Text,
    /// The name of a class, with its number.
    ClassName(u32),
    /// The name of a primitive type.
    Prim(Primitive),
    /// A keyword.
    Word(Word),
    /// An operator or a bracket.
    Sign(Sign),
}

/// A keyword, but for the names of the primitive types.
#[derive(Clone, Copy, Debug, PartialEq, Eq)]
pub enum Word {
    /// `if`
    If,
    /// `else`
    Else,
    /// `while`
    While,
    /// `do`
    Do,
    /// `for`
    For,
    /// `in`
    In,
    /// `continue`
    Continue,
    /// `break`
    Break,
    /// `return`
    Return,
    /// `new`
    New,
    /// `try`
    Try,
    /// `catch`
    Catch,
    /// `throw`
    Throw,
    /// `this`
    This,
    /// `instanceof`
    Instanceof,
    /// `true`
    True,
    /// `false`
    False,
    /// `null`
    Null,
    /// `def`
    Def,
}

/// An operator, a bracket or a separator.
#[derive(Clone, Copy, Debug, PartialEq, Eq)]
pub enum Sign {
    /// `(`
    LeftParen,
    /// `)`
    RightParen,
    /// `[`
    LeftBracket,
    /// `]`
    RightBracket,
    /// `{`
    LeftBrace,
    /// `}`
    RightBrace,
    /// `.`
    Dot,
    /// `?.`
    NullDot,
    /// `,`
    Comma,
    /// `;`
    Semicolon,
    /// `?`
    Question,
    /// `:`
    Colon,
    /// `?:`
    Elvis,
    /// `::`
    ColonColon,
    /// `->`
    Arrow,
    /// `+`
    Plus,
    /// `-`
    Minus,
    /// `*`
    Star,
    /// `/`
    Slash,
    /// `%`
    Percent,
    /// `++`
    Increment,
    /// `--`
    Decrement,
    /// `!`
    Not,
    /// `~`
    Tilde,
    /// `<<`
    ShiftLeft,
    /// `>>`
    ShiftRight,
    /// `>>>`
    ShiftRightUnsigned,
    /// `<`
    Less,
    /// `<=`
    LessEqual,
    /// `>`
    Greater,
    /// `>=`
    GreaterEqual,
    /// `==`
    Equal,
    /// `!=`
    NotEqual,
    /// `===`
    Same,
    /// `!==`
    NotSame,
    /// `&`
    And,
    /// `^`
    Xor,
    /// `|`
    Or,
    /// `&&`
    AndAnd,
    /// `||`
    OrOr,
    /// `=`
    Assign,
    /// `+=`
    AddAssign,
    /// `-=`
    SubtractAssign,
    /// `*=`
    MultiplyAssign,
    /// `/=`
    DivideAssign,
    /// `%=`
    RemainderAssign,
    /// `&=`
    AndAssign,
    /// `^=`
    XorAssign,
    /// `|=`
    OrAssign,
    /// `<<=`
    ShiftLeftAssign,
    /// `>>=`
    ShiftRightAssign,
    /// `>>>=`
    ShiftRightUnsignedAssign,
}
