//! A rule that is broken.

ghost use Rattle.std.specs.Prelude.{◌≡◌};
ghost use Rattle.typing_rules.specs.Outcomes.{refusal};

use pl_types::{Fail, Refusal};

/// A rule is broken here.
pub(crate) fn refuse(number: u8, offset: u32) -> Fail
    ensures { result ≡ Fail.Refused (refusal number offset) }
{
    Fail::Refused(Refusal { number, offset })
}
