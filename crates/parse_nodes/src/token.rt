//! What a token alone tells.

ghost use Rattle.std.specs.Prelude.{◌≡◌};
ghost use Rattle.pl_grammar.specs.Making as making;

use pl_lexer::{Kind, Sign, Token, Word};
use pl_tree::{Access, BinaryOperator, Constant, Statement, Step, TypeBase, UnaryOperator};

/// The type that a token names.
pub fn base_of(kind: Kind) -> TypeBase
    ensures { result ≡ making.base_of kind }
{
    match kind {
        Kind::Prim(primitive) => TypeBase::Primitive(primitive),
        Kind::ClassName(number) => TypeBase::Class(number),
        _ => TypeBase::Def,
    }
}

fn operator_of_sign(sign: Sign) -> BinaryOperator
    ensures { result ≡ making.operator_of_sign sign }
{
    match sign {
        Sign::Star | Sign::MultiplyAssign => BinaryOperator::Multiply,
        Sign::Slash | Sign::DivideAssign => BinaryOperator::Divide,
        Sign::Percent | Sign::RemainderAssign => BinaryOperator::Remainder,
        Sign::Plus | Sign::AddAssign => BinaryOperator::Add,
        Sign::Minus | Sign::SubtractAssign => BinaryOperator::Subtract,
        Sign::ShiftLeft | Sign::ShiftLeftAssign => BinaryOperator::ShiftLeft,
        Sign::ShiftRight | Sign::ShiftRightAssign => BinaryOperator::ShiftRight,
        Sign::ShiftRightUnsigned | Sign::ShiftRightUnsignedAssign => {
            BinaryOperator::ShiftRightUnsigned
        }
        Sign::Less => BinaryOperator::Less,
        Sign::LessEqual => BinaryOperator::LessEqual,
        Sign::Greater => BinaryOperator::Greater,
        Sign::GreaterEqual => BinaryOperator::GreaterEqual,
        Sign::Equal => BinaryOperator::Equal,
        Sign::NotEqual => BinaryOperator::NotEqual,
        Sign::Same => BinaryOperator::Same,
        Sign::NotSame => BinaryOperator::NotSame,
        Sign::And | Sign::AndAssign => BinaryOperator::And,
        Sign::Xor | Sign::XorAssign => BinaryOperator::Xor,
        Sign::Or | Sign::OrAssign => BinaryOperator::Or,
        Sign::AndAnd => BinaryOperator::AndAnd,
        _ => BinaryOperator::OrOr,
    }
}

/// The operator between two operands, or that an assignment applies.
pub fn operator_of(kind: Kind) -> BinaryOperator
    ensures { result ≡ making.operator_of kind }
{
    match kind {
        Kind::Sign(sign) => operator_of_sign(sign),
        _ => BinaryOperator::OrOr,
    }
}

/// The operator before an operand.
pub fn unary_of(kind: Kind) -> UnaryOperator
    ensures { result ≡ making.unary_of kind }
{
    match kind {
        Kind::Sign(Sign::Plus) => UnaryOperator::Plus,
        Kind::Sign(Sign::Minus) => UnaryOperator::Minus,
        Kind::Sign(Sign::Not) => UnaryOperator::Not,
        _ => UnaryOperator::Complement,
    }
}

/// What `++` or `--` does.
pub fn step_of(kind: Kind) -> Step
    ensures { result ≡ making.step_of kind }
{
    match kind {
        Kind::Sign(Sign::Increment) => Step::Increment,
        _ => Step::Decrement,
    }
}

/// How a dot reaches a member.
pub fn access_of(kind: Kind) -> Access
    ensures { result ≡ making.access_of kind }
{
    match kind {
        Kind::Sign(Sign::NullDot) => Access::Guarded,
        _ => Access::Plain,
    }
}

/// The literal that a keyword is.
pub fn constant_of(kind: Kind) -> Constant
    ensures { result ≡ making.constant_of kind }
{
    match kind {
        Kind::Word(Word::True) => Constant::True,
        Kind::Word(Word::False) => Constant::False,
        _ => Constant::Null,
    }
}

/// `continue` or `break`.
pub fn jump_of(token: Token) -> Statement
    ensures { result ≡ making.jump_of token }
{
    match token.kind {
        Kind::Word(Word::Continue) => Statement::Continue { at: token.start },
        _ => Statement::Break { at: token.start },
    }
}
