//! Refusals as JSON.

ghost use Rattle.std.specs.Prelude.{◌≡◌, IfOk};
ghost use Rattle.serde_json.specs.View.{view};
ghost use Rattle.json_replies.specs.Replies.{name_of, refusal_of};

use pl_types::{Refusal, name_of_rule, rules};
use serde_json::{Value as Json, json};
use std::alloc::{AllocError, Global};

/// The name of the rule of a number, if it is a rule's.
pub fn name_of(number: u8) -> &'static str
    ensures { result.now ≡ name_of number }
{
    if 1 <= number && number <= rules::RULE_COUNT {
        name_of_rule(number)
    } else {
        ""
    }
}

/// A script that is refused.
pub fn refusal_of(alloc: Global, refusal: Refusal) -> Result<Json, AllocError>
    ensures { IfOk result (λ json. view json ≡ refusal_of refusal) }
{
    let name = name_of(refusal.number);
    let number = refusal.number;
    let offset = refusal.offset;
    json!(in alloc; {"refused": {"name": name, "number": number, "offset": offset}})
}
