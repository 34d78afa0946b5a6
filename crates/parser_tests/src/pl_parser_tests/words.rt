//! What is written of what a token alone tells.

use pl_tree::{Access, BinaryOperator, Constant, Step, UnaryOperator};
use pl_types::Primitive;

/// A binary operator, as it is written.
pub fn sign_of(operator: BinaryOperator) -> &'static str {
    match operator {
        BinaryOperator::Multiply => "*",
        BinaryOperator::Divide => "/",
        BinaryOperator::Remainder => "%",
        BinaryOperator::Add => "+",
        BinaryOperator::Subtract => "-",
        BinaryOperator::ShiftLeft => "<<",
        BinaryOperator::ShiftRight => ">>",
        BinaryOperator::ShiftRightUnsigned => ">>>",
        BinaryOperator::Less => "<",
        BinaryOperator::LessEqual => "<=",
        BinaryOperator::Greater => ">",
        BinaryOperator::GreaterEqual => ">=",
        BinaryOperator::Equal => "==",
        BinaryOperator::NotEqual => "!=",
        BinaryOperator::Same => "===",
        BinaryOperator::NotSame => "!==",
        BinaryOperator::And => "&",
        BinaryOperator::Xor => "^",
        BinaryOperator::Or => "|",
        BinaryOperator::AndAnd => "&&",
        BinaryOperator::OrOr => "||",
    }
}

/// A unary operator, as the printer writes it.
pub fn unary_sign(operator: UnaryOperator) -> &'static str {
    match operator {
        UnaryOperator::Plus => "pos",
        UnaryOperator::Minus => "neg",
        UnaryOperator::Not => "!",
        UnaryOperator::Complement => "~",
    }
}

/// `++` or `--` before its operand, as the printer writes it.
pub fn prefix_sign(step: Step) -> &'static str {
    match step {
        Step::Increment => "pre++",
        Step::Decrement => "pre--",
    }
}

/// `++` or `--` after its operand, as the printer writes it.
pub fn postfix_sign(step: Step) -> &'static str {
    match step {
        Step::Increment => "post++",
        Step::Decrement => "post--",
    }
}

/// How a member is reached, as the printer writes it.
pub fn access_sign(access: Access) -> &'static str {
    match access {
        Access::Plain => "(.",
        Access::Guarded => "(?.",
    }
}

/// A literal that is a keyword.
pub fn word_of(constant: Constant) -> &'static str {
    match constant {
        Constant::True => "true",
        Constant::False => "false",
        Constant::Null => "null",
    }
}

/// A primitive type, as it is written.
pub fn primitive_word(primitive: Primitive) -> &'static str {
    match primitive {
        Primitive::Boolean => "boolean",
        Primitive::Byte => "byte",
        Primitive::Short => "short",
        Primitive::Char => "char",
        Primitive::Int => "int",
        Primitive::Long => "long",
    }
}

/// The classes of the tests.
pub fn class_word(class: u32) -> &'static str {
    match class {
        1 => "List",
        2 => "Map.Entry",
        3 => "Object",
        4 => "Exception",
        5 => "Math",
        _ => "another class",
    }
}
