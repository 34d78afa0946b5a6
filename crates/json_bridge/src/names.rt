//! Keys of maps as names of members.

ghost use Rattle.std.specs.Prelude.{◌≡◌, ◌≤◌, ℕ, List, [], Some, true, IfNone, IfOk, IfSome, length, slice_get};
ghost use Rattle.serde_json.specs.Data.{put as with_member};
ghost use Rattle.serde_json.specs.View.{view, members_view};
ghost use Rattle.json_bridge.specs.Giving as spec;
ghost use Rattle.json_bridge.specs.Giving.{HasNames};

use object_values::{Pairs, Value};
use serde_json::{Map, Value as Json};
use std::alloc::{AllocError, Global};

/// The key and the value at a place.
pub fn pair_at(pairs: &Pairs, at: usize) -> Option<(&Value, &Value)>
    ensures none { IfNone result (length pairs.now ≤ at) }
    ensures some { IfSome result (λ pair. slice_get pairs.now at ≡ Some (pair.0.now, pair.1.now)) }
{
    match (pairs.key_at(at), pairs.value_at(at)) {
        (Some(key), Some(value)) => Some((key, value)),
        _ => None,
    }
}

/// Whether each key is a text, and no two have one UTF-8 form.
pub fn are_names(alloc: Global, pairs: &Pairs) -> Result<bool, AllocError>
    ensures { IfOk result (λ are. are ≡ spec.are_new_names [] pairs.now) }
{
    let mut names = Map::new(alloc);
    for at in 0..pairs.len() {
        let Some((key, _)) = pair_at(pairs, at) else {
            return Ok(true);
        };
        if !put(&mut names, key, Json::Null)? {
            return Ok(false);
        }
    }
    Ok(true)
}

/// Puts a member under the UTF-8 form of a key, with U+FFFD for an unpaired surrogate, and tells whether the key is a text and no
/// member had that name.
pub fn put(members: &mut Map<String, Json>, key: &Value, json: Json) -> Result<bool, AllocError>
    ensures new { IfOk result (λ is. (before : List (List ℕ)) → HasNames (members_view members.old.entries) before → is ≡ spec.is_new_name before key.now) }
    ensures members { IfOk result (λ is. is ≡ true → (members_view members.new.entries ≡ with_member (spec.name_of key.now) (view json) (members_view members.old.entries))) }
{
    let Value::Str(text) = key else {
        return Ok(false);
    };
    let name = text.to_utf8()?;
    let before = members.insert(name, json)?;
    let is_new = before.is_none();
    drop(before);
    Ok(is_new)
}
