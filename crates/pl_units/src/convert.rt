//! Units from scalar values.
ghost use Rattle.std.specs.Prelude.{◌≡◌, ◌++◌, OnOk};
ghost use Rattle.pl_units.specs.Utf16.{units_of_scalar};

use std::alloc::AllocError;

/// Appends the one or two units of a scalar value.
pub fn push_scalar(text: &mut Vec<u16>, scalar: char) -> Result<(), AllocError>
    ensures { OnOk result (text.new.items ≡ text.old.items ++ units_of_scalar scalar) }
{
    let code = scalar as u32;
    if code < 0x1_0000 {
        text.push(code as u16)?;
        return Ok(());
    }
    let mut pair = [0; 2];
    text.extend_from_slice(scalar.encode_utf16(&mut pair))
}
