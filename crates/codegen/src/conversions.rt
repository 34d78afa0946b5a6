//! Instructions of casts.

ghost use Rattle.std.specs.Prelude.{◌≡◌, [], ◌∷◌, ◌++◌, map, OnOk};
ghost use Rattle.codegen.specs.declared.labels.Line.TheVariants.{Fixed};
ghost use Rattle.codegen.specs.Errors.{OnlyMemory};
ghost use Rattle.codegen.specs.Pieces.{if_any};
ghost use Rattle.codegen.specs.Sound.{Names};
ghost use Rattle.pl_code.specs.declared.code.Instruction.TheVariants as i;
ghost use Rattle.pl_code.specs.declared.kinds.Way.TheVariants as way;
ghost use Rattle.pl_types.specs.declared.classes.TheConstants.{STRING};
ghost use Rattle.pl_types.specs.declared.primitive.Primitive.TheVariants as prim;
ghost use Rattle.pl_types.specs.declared.ty.Ty.TheVariants as t;
ghost use Rattle.pl_types.specs.Texts.{full_text};
ghost use Rattle.compiler_relation.specs.Parts.{cast_code, run_time_code, number_code, from_int_code, from_long_code, from_byte_code, from_short_code, from_char_code};
ghost use Rattle.program_typing.specs.Types.{IsNamed};

use crate::error::CodeError;
use crate::labels::Line;
use crate::naming::type_name;
use crate::pieces::{one, put_if_any};
use pl_code::{Instruction, Plain, Typed, Way};
use pl_types::classes::STRING;
use pl_types::{Cast, Primitive, Ty};
use plain_data::Items;
use std::alloc::{AllocError, Global};

fn from_int(to: Primitive) -> Option<Instruction>
    ensures { if_any result ≡ from_int_code to }
{
    match to {
        Primitive::Byte => Some(Instruction::Plain(Plain::IntToByte)),
        Primitive::Short => Some(Instruction::Plain(Plain::IntToShort)),
        Primitive::Char => Some(Instruction::Plain(Plain::IntToChar)),
        Primitive::Long => Some(Instruction::Plain(Plain::IntToLong)),
        Primitive::Boolean => None,
        Primitive::Int => None,
    }
}

fn from_byte(to: Primitive) -> Option<Instruction>
    ensures { if_any result ≡ from_byte_code to }
{
    match to {
        Primitive::Byte => None,
        Primitive::Short => None,
        _ => from_int(to),
    }
}

fn from_short(to: Primitive) -> Option<Instruction>
    ensures { if_any result ≡ from_short_code to }
{
    match to {
        Primitive::Short => None,
        _ => from_int(to),
    }
}

fn from_char(to: Primitive) -> Option<Instruction>
    ensures { if_any result ≡ from_char_code to }
{
    match to {
        Primitive::Char => None,
        _ => from_int(to),
    }
}

#[tactic(auto, using(crate::proofs::Lists::one_and_more))]
fn put_from_long(lines: &mut Items<Line>, to: Primitive) -> Result<(), AllocError>
    ensures { OnOk result (lines.new ≡ lines.old ++ map Fixed (from_long_code to)) }
{
    match to {
        Primitive::Boolean => Ok(()),
        Primitive::Long => Ok(()),
        _ => {
            one(lines, Instruction::Plain(Plain::LongToInt))?;
            put_if_any(lines, from_int(to))
        }
    }
}

fn put_number(lines: &mut Items<Line>, from: Primitive, to: Primitive) -> Result<(), AllocError>
    ensures { OnOk result (lines.new ≡ lines.old ++ map Fixed (number_code from to)) }
{
    match from {
        Primitive::Boolean => Ok(()),
        Primitive::Byte => put_if_any(lines, from_byte(to)),
        Primitive::Short => put_if_any(lines, from_short(to)),
        Primitive::Char => put_if_any(lines, from_char(to)),
        Primitive::Int => put_if_any(lines, from_int(to)),
        Primitive::Long => put_from_long(lines, to),
    }
}

#[tactic(auto, using(crate::proofs::Lists::more_and_one))]
fn put_wrapped(lines: &mut Items<Line>, from: Primitive, to: Primitive) -> Result<(), AllocError>
    ensures { OnOk result (lines.new ≡ lines.old ++ map Fixed (number_code from to ++ i.Boxing to ∷ [])) }
{
    put_number(lines, from, to)?;
    one(lines, Instruction::Boxing(to))
}

#[tactic(auto, using(crate::proofs::Lists::one_and_more))]
fn put_unwrapped(lines: &mut Items<Line>, from: Primitive, to: Primitive) -> Result<(), AllocError>
    ensures { OnOk result (lines.new ≡ lines.old ++ map Fixed (i.Unboxing from way.Implicit ∷ number_code from to)) }
{
    one(lines, Instruction::Unboxing(from, Way::Implicit))?;
    put_number(lines, from, to)
}

/// Puts a cast of a reference to a type.
fn put_reference(alloc: Global, lines: &mut Items<Line>, to: &Ty, way: Way) -> Result<(), CodeError>
    ensures lines { OnOk result (lines.new ≡ lines.old ++ map Fixed (i.Cast (full_text to.now) way ∷ [])) }
    ensures total { IsNamed to.now → OnlyMemory result }
{
    let name = type_name(alloc, to)?;
    one(lines, Instruction::Cast(name, way))?;
    Ok(())
}

/// Puts a cast that is done when the script runs.
fn put_run_time(alloc: Global, lines: &mut Items<Line>, to: &Ty, way: Way) -> Result<(), CodeError>
    ensures lines { OnOk result (lines.new ≡ lines.old ++ map Fixed (run_time_code to.now way)) }
    ensures total { IsNamed to.now → OnlyMemory result }
{
    match to {
        Ty::Prim(primitive) => {
            one(lines, Instruction::Unboxing(*primitive, way))?;
            Ok(())
        }
        Ty::Void => put_reference(alloc, lines, to, way),
        Ty::Null => put_reference(alloc, lines, to, way),
        Ty::Def => put_reference(alloc, lines, to, way),
        Ty::Class(_) => put_reference(alloc, lines, to, way),
        Ty::Array(_) => put_reference(alloc, lines, to, way),
    }
}

/// Puts what makes a text of a char.
fn put_text_of_char(alloc: Global, lines: &mut Items<Line>) -> Result<(), CodeError>
    ensures lines { OnOk result (lines.new ≡ lines.old ++ map Fixed (i.Boxing prim.Char ∷ i.Cast (full_text (t.Class STRING)) way.Explicit ∷ [])) }
    ensures memory { OnlyMemory result }
{
    one(lines, Instruction::Boxing(Primitive::Char))?;
    let string = Ty::Class(STRING);
    put_reference(alloc, lines, &string, Way::Explicit)
}

/// Puts a cast between numbers.
fn put_between(lines: &mut Items<Line>, from: Primitive, to: Primitive) -> Result<(), CodeError>
    ensures lines { OnOk result (lines.new ≡ lines.old ++ map Fixed (number_code from to)) }
    ensures memory { OnlyMemory result }
{
    put_number(lines, from, to)?;
    Ok(())
}

/// Puts a cast of a number to an object.
fn put_boxed(lines: &mut Items<Line>, from: Primitive, to: Primitive) -> Result<(), CodeError>
    ensures lines { OnOk result (lines.new ≡ lines.old ++ map Fixed (number_code from to ++ i.Boxing to ∷ [])) }
    ensures memory { OnlyMemory result }
{
    put_wrapped(lines, from, to)?;
    Ok(())
}

/// Puts a cast of a box to a number.
fn put_unboxed(lines: &mut Items<Line>, from: Primitive, to: Primitive) -> Result<(), CodeError>
    ensures lines { OnOk result (lines.new ≡ lines.old ++ map Fixed (i.Unboxing from way.Implicit ∷ number_code from to)) }
    ensures memory { OnlyMemory result }
{
    put_unwrapped(lines, from, to)?;
    Ok(())
}

/// Puts what makes a char of a text.
fn put_char_of_text(lines: &mut Items<Line>) -> Result<(), CodeError>
    ensures lines { OnOk result (lines.new ≡ lines.old ++ map Fixed (i.Unboxing prim.Char way.Explicit ∷ [])) }
    ensures memory { OnlyMemory result }
{
    one(lines, Instruction::Unboxing(Primitive::Char, Way::Explicit))?;
    Ok(())
}

/// Puts a cast to a type at the end. `Malformed` where code has no name for the type.
pub fn put_cast(
    alloc: Global,
    lines: &mut Items<Line>,
    cast: Cast,
    to: &Ty,
) -> Result<(), CodeError>
    ensures lines { OnOk result (lines.new ≡ lines.old ++ map Fixed (cast_code cast to.now)) }
    ensures total { Names cast to.now → OnlyMemory result }
{
    match cast {
        Cast::Number(from, into) => put_between(lines, from, into),
        Cast::Wrap(from, into) => put_boxed(lines, from, into),
        Cast::Unwrap(from, into) => put_unboxed(lines, from, into),
        Cast::Implicit => put_run_time(alloc, lines, to, Way::Implicit),
        Cast::Explicit => put_run_time(alloc, lines, to, Way::Explicit),
        Cast::CharToText => put_text_of_char(alloc, lines),
        Cast::TextToChar => put_char_of_text(lines),
        _ => Ok(()),
    }
}

/// Puts an instruction with a type at the end. `Malformed` where code has no name for the type.
pub fn put_typed(
    alloc: Global,
    lines: &mut Items<Line>,
    kind: Typed,
    of: &Ty,
) -> Result<(), CodeError>
    ensures lines { OnOk result (lines.new ≡ lines.old ++ map Fixed (i.Typed kind (full_text of.now) ∷ [])) }
    ensures total { IsNamed of.now → OnlyMemory result }
{
    let name = type_name(alloc, of)?;
    one(lines, Instruction::Typed(kind, name))?;
    Ok(())
}
