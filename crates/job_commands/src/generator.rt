//! The documents of the generator.

ghost use Rattle.std.specs.Prelude.{◌≡◌, IfOk, string_bytes};
ghost use Rattle.serde_json.specs.View.{view};
ghost use Rattle.job_commands.specs.Generator.{document_of, following, tag_of};

use itoa::Buffer;
use serde_json::{Value as Json, json};
use std::alloc::{AllocError, Global};

/// The number behind another, by a linear congruential generator of 31 bits.
pub(crate) fn following(number: u32) -> u32
    ensures { result ≡ following number }
{
    ((u64::from(number) * 1_103_515_245 + 12_345) % 2_147_483_648) as u32
}

/// The tag of the document of a number.
fn tag_of(alloc: Global, number: u32) -> Result<String, AllocError>
    ensures { IfOk result (λ tag. string_bytes tag ≡ tag_of number) }
{
    let mut buffer = Buffer::new();
    let mut tag = String::from_str(alloc, "t")?;
    tag.push_str(buffer.format(number % 7))?;
    Ok(tag)
}

/// The document of a number.
pub(crate) fn document_of(alloc: Global, number: u32) -> Result<Json, AllocError>
    ensures { IfOk result (λ document. view document ≡ document_of number) }
{
    let tag = tag_of(alloc, number)?;
    if number % 10 == 5 {
        json!(in alloc; {"tag": tag})
    } else {
        json!(in alloc; {"n": number % 1_000, "tag": tag})
    }
}
