//! Lines before the replies, which show the codes that a job runs.

ghost use Rattle.std.specs.Prelude.{◌≡◌, string_bytes, IfOk};
ghost use Rattle.serde_json.specs.View.{view};
ghost use Rattle.json_replies.specs.Replies.{line_of};
ghost use Rattle.job_replies.specs.Listings.{listing_of, named_listing_of, prelude_listing_of, script_listing_of};

use json_replies::line_of;
use serde_json::{Value as Json, json};
use std::alloc::{AllocError, Global};

/// The listing of a script's code as JSON.
fn listing_of(alloc: Global, text: &str) -> Result<Json, AllocError>
    ensures { IfOk result (λ json. view json ≡ listing_of text.now) }
{
    json!(in alloc; {"listing": text})
}

/// The same with the script's key.
fn named_listing_of(alloc: Global, key: &str, text: &str) -> Result<Json, AllocError>
    ensures { IfOk result (λ json. view json ≡ named_listing_of key.now text.now) }
{
    json!(in alloc; {"listing": text, "script": key})
}

/// The listing of the prelude's code as JSON.
fn prelude_listing_of(alloc: Global, text: &str) -> Result<Json, AllocError>
    ensures { IfOk result (λ json. view json ≡ prelude_listing_of text.now) }
{
    json!(in alloc; {"listing": text, "script": "prelude"})
}

/// The line that shows the listing of a script's code.
fn listing_line(alloc: Global, text: &str) -> Result<String, AllocError>
    ensures { IfOk result (λ line. string_bytes line ≡ line_of (listing_of text.now)) }
{
    let json = listing_of(alloc, text)?;
    line_of(alloc, &json)
}

/// The same with the script's key.
fn named_listing_line(alloc: Global, key: &str, text: &str) -> Result<String, AllocError>
    ensures { IfOk result (λ line. string_bytes line ≡ line_of (named_listing_of key.now text.now)) }
{
    let json = named_listing_of(alloc, key, text)?;
    line_of(alloc, &json)
}

/// The line that shows the listing of a script's code, where the scripts of a context are told by their keys or not.
pub fn script_listing_line(
    alloc: Global,
    by_key: bool,
    key: &str,
    text: &str,
) -> Result<String, AllocError>
    ensures { IfOk result (λ line. string_bytes line ≡ line_of (script_listing_of by_key key.now text.now)) }
{
    if by_key {
        named_listing_line(alloc, key, text)
    } else {
        listing_line(alloc, text)
    }
}

/// The line that shows the listing of the prelude's code.
pub fn prelude_listing_line(alloc: Global, text: &str) -> Result<String, AllocError>
    ensures { IfOk result (λ line. string_bytes line ≡ line_of (prelude_listing_of text.now)) }
{
    let json = prelude_listing_of(alloc, text)?;
    line_of(alloc, &json)
}
