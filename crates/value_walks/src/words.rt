//! Texts that are written behind others.
ghost use Rattle.std.specs.Prelude.{◌≡◌, OnOk, IfOk, IfErr};
ghost use Rattle.std.specs.Fmt.{signed_decimal};
ghost use Rattle.std.specs.Option.{option_copied};
ghost use Rattle.pl_units.specs.Utf16.{units};
ghost use Rattle.pl_types.specs.Texts.{names_of};
ghost use Rattle.value_walks.specs.Outputs.{put};
ghost use Rattle.value_walks.specs.Texts.{flag_text, interface_text, exception_text};

use crate::error::TextErr;
use crate::outputs::Output;
use pl_types::{ClassNames, Ty, push_type};
use pl_units::{UText, decimal};
use std::alloc::{AllocError, Global};

const TRUE: [u16; 4] = [116, 114, 117, 101];

const FALSE: [u16; 5] = [102, 97, 108, 115, 101];

/// Writes a truth value.
pub fn write_flag(out: &mut Output, flag: bool) -> Result<(), TextErr>
    ensures ok { OnOk result (out.new ≡ put out.old (flag_text flag)) }
    ensures err { IfErr result (λ cause. cause ≡ TextErr.NoMemory) }
{
    if flag {
        out.write(&TRUE)
    } else {
        out.write(&FALSE)
    }
}

/// Writes a number in decimal.
pub fn write_number(alloc: Global, out: &mut Output, number: i64) -> Result<(), TextErr>
    ensures ok { OnOk result (out.new ≡ put out.old (signed_decimal number)) }
    ensures err { IfErr result (λ cause. cause ≡ TextErr.NoMemory) }
{
    match decimal(alloc, number) {
        Ok(text) => out.write(text.units()),
        Err(_) => Err(TextErr::NoMemory),
    }
}

// The name of a class.
fn class_text(alloc: Global, class: u32, names: ClassNames) -> Result<UText, AllocError>
    ensures { IfOk result (λ text. text ≡ units (names_of names class)) }
{
    let mut name = String::new(alloc);
    push_type(&mut name, &Ty::Class(class), names)?;
    UText::from_utf8(alloc, name.as_str())
}

/// Writes the name of a class.
pub fn write_class(
    alloc: Global,
    out: &mut Output,
    class: u32,
    names: ClassNames,
) -> Result<(), TextErr>
    ensures ok { OnOk result (out.new ≡ put out.old (units (names_of names class))) }
    ensures err { IfErr result (λ cause. cause ≡ TextErr.NoMemory) }
{
    match class_text(alloc, class, names) {
        Ok(text) => out.write(text.units()),
        Err(_) => Err(TextErr::NoMemory),
    }
}

const LAMBDA: [u16; 6] = [108, 97, 109, 98, 100, 97];

/// Writes the name of a function value's interface.
pub fn write_interface(
    alloc: Global,
    out: &mut Output,
    interface: Option<u32>,
) -> Result<(), TextErr>
    ensures ok { OnOk result (out.new ≡ put out.old (interface_text interface)) }
    ensures err { IfErr result (λ cause. cause ≡ TextErr.NoMemory) }
{
    match interface {
        Some(class) => write_class(alloc, out, class, ClassNames::Short),
        None => out.write(&LAMBDA),
    }
}

/// Writes the class of an exception, and its message.
pub fn write_exception(
    alloc: Global,
    out: &mut Output,
    class: u32,
    message: Option<&UText>,
) -> Result<(), TextErr>
    ensures ok { OnOk result (out.new ≡ put out.old (exception_text class (option_copied message.entry))) }
    ensures err { IfErr result (λ cause. cause ≡ TextErr.NoMemory) }
{
    write_class(alloc, out, class, ClassNames::Full)?;
    match message {
        Some(message) => {
            out.write(&[58, 32])?;
            out.write(message.units())
        }
        None => Ok(()),
    }
}
