//! Lines of results that are a truth value or a whole number, for which no tree is made.

ghost use Rattle.std.specs.Prelude.{◌≡◌, ◌++◌, codes, false, string_bytes, IfOk};
ghost use Rattle.serde_json.specs.Data.{boolean, number};
ghost use Rattle.serde_json.specs.Find.{of_integer};
ghost use Rattle.json_replies.specs.Replies.{is_error, line_of, only};

use crate::line::Line;
use itoa::Buffer;
use std::alloc::{AllocError, Global};

/// The longest line here has the least number of 64 bits.
const LENGTH: usize = 32;

/// The line of a result of this text.
fn line_with(alloc: Global, text: &str) -> Result<Line, AllocError>
    ensures text { IfOk result (λ line. string_bytes line.text ≡ (codes "{\"result\":" ++ text.now) ++ codes "}\n") }
    ensures error { IfOk result (λ line. line.is_error ≡ false) }
{
    let mut line = String::with_capacity(alloc, LENGTH)?;
    line.push_str("{\"result\":")?;
    line.push_str(text)?;
    line.push_str("}\n")?;
    Ok(Line {
        text: line,
        is_error: false,
    })
}

/// The line of a result that is a truth value.
#[tactic(auto, using(crate::proofs::Texts::flag_text))]
pub(crate) fn flag_line(alloc: Global, flag: bool) -> Result<Line, AllocError>
    ensures text { IfOk result (λ line. string_bytes line.text ≡ line_of (only (codes "result") (boolean flag))) }
    ensures error { IfOk result (λ line. line.is_error ≡ is_error (only (codes "result") (boolean flag))) }
{
    line_with(alloc, if flag { "true" } else { "false" })
}

/// The line of a result that is a whole number.
#[tactic(auto, using(crate::proofs::Texts::whole_text))]
pub(crate) fn whole_line(alloc: Global, whole: i64) -> Result<Line, AllocError>
    ensures text { IfOk result (λ line. string_bytes line.text ≡ line_of (only (codes "result") (number (of_integer whole)))) }
    ensures error { IfOk result (λ line. line.is_error ≡ is_error (only (codes "result") (number (of_integer whole)))) }
{
    let mut buffer = Buffer::new();
    line_with(alloc, buffer.format(whole))
}
