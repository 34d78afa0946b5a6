//! Boxes: a primitive as a value.
ghost use Rattle.std.specs.Prelude.{◌≡◌};
ghost use Rattle.code_meaning.specs.Words as words;

use arithmetic::casts::{low_byte, low_char, low_short};
use code_meaning::Word;
use object_values::Value;
use pl_types::Primitive;

/// The value of a number in the box of a primitive.
#[inline(always)]
pub fn boxed(primitive: Primitive, word: &Word) -> Option<Value>
    ensures { result ≡ words.boxed primitive word.now }
{
    match word {
        Word::I(a) => boxed_int(primitive, *a),
        Word::J(a) => boxed_long(primitive, *a),
        Word::R(_) => None,
    }
}

#[inline(always)]
fn boxed_int(primitive: Primitive, a: i32) -> Option<Value>
    ensures { result ≡ words.boxed_int primitive a }
{
    match primitive {
        Primitive::Boolean => Some(Value::Bool(a != 0)),
        Primitive::Byte => Some(Value::Byte(low_byte(a))),
        Primitive::Short => Some(Value::Short(low_short(a))),
        Primitive::Char => Some(Value::Char(low_char(a))),
        Primitive::Int => Some(Value::Int(a)),
        Primitive::Long => None,
    }
}

#[inline(always)]
fn boxed_long(primitive: Primitive, a: i64) -> Option<Value>
    ensures { result ≡ words.boxed_long primitive a }
{
    match primitive {
        Primitive::Long => Some(Value::Long(a)),
        _ => None,
    }
}
