//! Casts between types.

ghost use Rattle.std.specs.Prelude.{◌≡◌, ◌↔◌, ℕ, Bool, ◌&&◌, if◌then◌else◌};
ghost use Rattle.pl_types.specs.declared.ty.Ty.{Ty};
ghost use Rattle.pl_types.specs.Casts.{cast_of, box_of, unboxed, widens, narrows, reaches, only_if, RowsAgree, NoRowGives};
ghost use Rattle.pl_types.specs.Types.{same_primitives};

use crate::classes::{BOOLEAN, BYTE, CHARACTER, INTEGER, LONG, NUMBER, OBJECT, SHORT, STRING};
use crate::conversion::Cast;
use crate::lineage::Lineage;
use crate::primitive::Primitive;
use crate::ty::Ty;

/// The cast from one type to another, `explicit` where it is written in the script. `None` where there is none.
pub fn cast<L: Lineage>(lineage: &L, from: &Ty, to: &Ty, explicit: bool) -> Option<Cast>
    ensures { result ≡ cast_of (L.is_below lineage.now) from.now to.now explicit }
{
    match from {
        Ty::Void => None,
        Ty::Null => null_cast(to),
        Ty::Def => def_cast(to, explicit),
        Ty::Prim(p) => primitive_cast(lineage, *p, to, explicit),
        Ty::Class(class) => instance_cast(lineage, *class, to, explicit),
        Ty::Array(element) => array_cast(element.get(), to),
    }
}

fn null_cast(to: &Ty) -> Option<Cast>
    ensures { (below : ℕ → ℕ → Bool) (written : Bool) → result ≡ cast_of below Ty.Null to.now written }
{
    match to {
        Ty::Void => None,
        Ty::Null => Some(Cast::Keep),
        Ty::Def => Some(Cast::Keep),
        Ty::Prim(_) => None,
        Ty::Class(_) => Some(Cast::Keep),
        Ty::Array(_) => Some(Cast::Keep),
    }
}

fn def_cast(to: &Ty, explicit: bool) -> Option<Cast>
    ensures { (below : ℕ → ℕ → Bool) → result ≡ cast_of below Ty.Def to.now explicit }
{
    match to {
        Ty::Void => None,
        Ty::Null => None,
        Ty::Def => Some(Cast::Keep),
        Ty::Prim(_) => Some(found_later(explicit)),
        Ty::Class(_) => Some(found_later(explicit)),
        Ty::Array(_) => Some(found_later(explicit)),
    }
}

fn primitive_cast<L: Lineage>(lineage: &L, from: Primitive, to: &Ty, explicit: bool) -> Option<Cast>
    ensures { result ≡ cast_of (L.is_below lineage.now) (Ty.Prim from) to.now explicit }
{
    match to {
        Ty::Void => None,
        Ty::Null => None,
        Ty::Def => Some(Cast::Wrap(from, from)),
        Ty::Prim(to) => number_cast(from, *to, explicit),
        Ty::Class(class) => boxing_cast(lineage, from, *class, explicit),
        Ty::Array(_) => None,
    }
}

fn instance_cast<L: Lineage>(lineage: &L, from: u32, to: &Ty, explicit: bool) -> Option<Cast>
    ensures { result ≡ cast_of (L.is_below lineage.now) (Ty.Class from) to.now explicit }
{
    match to {
        Ty::Void => None,
        Ty::Null => None,
        Ty::Def => Some(Cast::Keep),
        Ty::Prim(to) => unboxing_cast(from, *to, explicit),
        Ty::Class(to) => class_cast(lineage, from, *to, explicit),
        Ty::Array(_) => None,
    }
}

fn array_cast(element: &Ty, to: &Ty) -> Option<Cast>
    ensures { (below : ℕ → ℕ → Bool) (written : Bool) → result ≡ cast_of below (Ty.Array element.now) to.now written }
{
    match to {
        Ty::Void => None,
        Ty::Null => None,
        Ty::Def => Some(Cast::Keep),
        Ty::Prim(_) => None,
        Ty::Class(class) => only(*class == OBJECT, Cast::Keep),
        Ty::Array(other) => only(element.is(other.get()), Cast::Keep),
    }
}

fn number_cast(from: Primitive, to: Primitive, explicit: bool) -> Option<Cast>
    ensures { (below : ℕ → ℕ → Bool) → result ≡ cast_of below (Ty.Prim from) (Ty.Prim to) explicit }
{
    if same(from, to) {
        return Some(Cast::Keep);
    }
    only(reaches_to(from, to, explicit), Cast::Number(from, to))
}

fn boxing_cast<L: Lineage>(lineage: &L, from: Primitive, class: u32, explicit: bool) -> Option<Cast>
    ensures { result ≡ cast_of (L.is_below lineage.now) (Ty.Prim from) (Ty.Class class) explicit }
{
    if let Some(to) = unboxed(class) {
        return only(reaches_to(from, to, explicit), Cast::Wrap(from, to));
    }
    if class == STRING {
        return written_only(explicit, same(from, Primitive::Char), Cast::CharToText);
    }
    only(
        lineage.is_sub(box_class(from), class),
        Cast::Wrap(from, from),
    )
}

fn unboxing_cast(class: u32, to: Primitive, explicit: bool) -> Option<Cast>
    ensures { (below : ℕ → ℕ → Bool) → result ≡ cast_of below (Ty.Class class) (Ty.Prim to) explicit }
{
    if let Some(from) = unboxed(class) {
        return only(reaches_to(from, to, explicit), Cast::Unwrap(from, to));
    }
    if class == OBJECT {
        return only(explicit, Cast::Explicit);
    }
    if class == NUMBER {
        return only(explicit, Cast::Explicit);
    }
    if class == STRING {
        return written_only(explicit, same(to, Primitive::Char), Cast::TextToChar);
    }
    None
}

fn class_cast<L: Lineage>(lineage: &L, from: u32, to: u32, explicit: bool) -> Option<Cast>
    ensures { result ≡ cast_of (L.is_below lineage.now) (Ty.Class from) (Ty.Class to) explicit }
{
    if from == to {
        return Some(Cast::Keep);
    }
    if lineage.is_sub(from, to) {
        return Some(Cast::Keep);
    }
    written_only(explicit, lineage.is_sub(to, from), Cast::Explicit)
}

/// The cast where a test holds.
fn only(test: bool, cast: Cast) -> Option<Cast>
    ensures { result ≡ only_if test cast }
{
    if test { Some(cast) } else { None }
}

/// The cast where it is written and a test holds.
fn written_only(explicit: bool, test: bool, cast: Cast) -> Option<Cast>
    ensures { result ≡ only_if (explicit && test) cast }
{
    if explicit { only(test, cast) } else { None }
}

/// The cast of a `def` to any other type.
fn found_later(explicit: bool) -> Cast
    ensures { result ≡ (if explicit then Cast.Explicit else Cast.Implicit) }
{
    if explicit {
        Cast::Explicit
    } else {
        Cast::Implicit
    }
}

fn same(a: Primitive, b: Primitive) -> bool
    ensures { result ≡ same_primitives a b }
{
    a == b
}

/// The laws of the table of casts.
pub fn cast_laws()
    // Whatever the lineage, no two rows give different casts.
    ensures agree { (below : ℕ → ℕ → Bool) (from to : Ty) (written : Bool) → RowsAgree below from to written }
    // There is no cast exactly where no row gives one.
    ensures none { (below : ℕ → ℕ → Bool) (from to : Ty) (written : Bool) → (cast_of below from to written ≡ None) ↔ NoRowGives below from to written }
    // Void goes to nothing and nothing goes to it.
    ensures void { (below : ℕ → ℕ → Bool) (other : Ty) (written : Bool) → (cast_of below Ty.Void other written ≡ None) × (cast_of below other Ty.Void written ≡ None) }
{}

/// The class of a primitive's box.
pub fn box_class(primitive: Primitive) -> u32
    ensures { result ≡ box_of primitive }
{
    match primitive {
        Primitive::Boolean => BOOLEAN,
        Primitive::Byte => BYTE,
        Primitive::Short => SHORT,
        Primitive::Char => CHARACTER,
        Primitive::Int => INTEGER,
        Primitive::Long => LONG,
    }
}

/// The primitive whose box a class is. `None` where it is no box.
pub fn unboxed(class: u32) -> Option<Primitive>
    ensures table { result ≡ unboxed class }
{
    match class {
        BOOLEAN => Some(Primitive::Boolean),
        BYTE => Some(Primitive::Byte),
        SHORT => Some(Primitive::Short),
        CHARACTER => Some(Primitive::Char),
        INTEGER => Some(Primitive::Int),
        LONG => Some(Primitive::Long),
        _ => None,
    }
}

/// Whether a primitive widens to another one (Java Language Specification, 5.1.2).
pub fn widens_to(from: Primitive, to: Primitive) -> bool
    ensures { result ≡ widens from to }
{
    match from {
        Primitive::Boolean | Primitive::Long => false,
        Primitive::Byte => matches!(to, Primitive::Short | Primitive::Int | Primitive::Long),
        Primitive::Short | Primitive::Char => matches!(to, Primitive::Int | Primitive::Long),
        Primitive::Int => to == Primitive::Long,
    }
}

/// Whether a primitive goes to another, or to its box, in a cast that is written or in one that is not.
fn reaches_to(from: Primitive, to: Primitive, explicit: bool) -> bool
    ensures { result ≡ reaches from to explicit }
{
    same(from, to) || widens_to(from, to) || (explicit && narrows_to(from, to))
}

fn narrows_to(from: Primitive, to: Primitive) -> bool
    ensures { result ≡ narrows from to }
{
    from != Primitive::Boolean && to != Primitive::Boolean && from != to && !widens_to(from, to)
}
