//! Promotion of the sides of an arithmetic operator, and int literals of narrower types.

ghost use Rattle.std.specs.Prelude.{◌≡◌, ◌↔◌, ◌⊎◌, IsTrue, IsNone};
ghost use Rattle.pl_types.specs.Promotions.{promote_of, LiteralFits};

use crate::primitive::Primitive;

/// The type to which both sides of an arithmetic operator become: long where one is long, else int. `None` where one
/// is boolean.
pub fn promote(a: Primitive, b: Primitive) -> Option<Primitive>
    ensures table { result ≡ promote_of a b }
    ensures none { IsNone result ↔ ((a ≡ Primitive.Boolean) ⊎ (b ≡ Primitive.Boolean)) }
{
    match (a, b) {
        (Primitive::Boolean, _) | (_, Primitive::Boolean) => None,
        (Primitive::Long, _) | (_, Primitive::Long) => Some(Primitive::Long),
        _ => Some(Primitive::Int),
    }
}

/// Whether an int literal of this value stands for a byte, a short or a char: the wanted type is one of these three and
/// the value is in its range. The `-` directly before a literal belongs to it.
pub fn literal_fits(value: i32, wanted: Primitive) -> bool
    ensures { IsTrue result ↔ LiteralFits value wanted }
{
    match wanted {
        Primitive::Byte => -128 <= value && value <= 127,
        Primitive::Short => -32768 <= value && value <= 32767,
        Primitive::Char => 0 <= value && value <= 65535,
        Primitive::Boolean | Primitive::Int | Primitive::Long => false,
    }
}
