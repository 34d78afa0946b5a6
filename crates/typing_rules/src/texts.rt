//! Text literals.

ghost use Rattle.std.specs.Prelude.{◌≡◌, ◌<◌, MatchOption, Some, None, IfOk};
ghost use Rattle.typing_rules.specs.Rules.Literals.{between, unescaped, unquoted};

use plain_data::Text;
use std::alloc::{AllocError, Global};

/// What stands between two quotes of a kind, where one stands at each end.
fn between(quote: char, spelling: &str) -> Option<&str>
    requires { quote < 128 }
    ensures { MatchOption result (between quote spelling.now ≡ None) (λ written. between quote spelling.now ≡ Some written.now) }
{
    match spelling.strip_prefix(quote) {
        Some(opened) => opened.strip_suffix(quote),
        None => None,
    }
}

/// A text as it is written, without its quotes. One that has none stands for itself.
pub(crate) fn unquoted(spelling: &str) -> &str
    ensures { result.now ≡ unquoted spelling.now }
{
    if let Some(written) = between('"', spelling) {
        return written;
    }
    match between('\'', spelling) {
        Some(written) => written,
        None => spelling,
    }
}

/// What a text stands for that is written between quotes: a backslash for nothing, and what is behind it for itself.
pub(crate) fn unescaped(alloc: Global, written: &str) -> Result<Text, AllocError>
    ensures { IfOk result (λ text. text ≡ unescaped written.now) }
{
    let mut text = String::new(alloc);
    let mut rest = written;
    'pieces: while let Some((before, behind)) = rest.split_once('\\') {
        text.push_str(before)?;
        rest = behind;
        if let Some(further) = behind.strip_prefix('\\') {
            text.push_str("\\")?;
            rest = further;
        } else if behind.is_empty() {
            text.push_str("\\")?;
        }
    }
    text.push_str(rest)?;
    Text::new(alloc, text.as_str())
}
