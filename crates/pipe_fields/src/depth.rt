//! How deep lists and objects stand in one another.

ghost use Rattle.std.specs.Prelude.{◌≡◌, nat_le};
ghost use Rattle.serde_json.specs.Data.{depth, items_depth, members_depth};
ghost use Rattle.serde_json.specs.View.{view, items_view, members_view};
ghost use Rattle.pipe_fields.specs.Ways.{is_too_deep};

use plain_data::Text;
use serde_json::{Map, Value};

/// The deepest place of a list or an object in a document's source, which is at 1.
const DEEPEST: usize = 120;

/// Whether lists and objects stand at most so deep in a value. It goes two calls deeper for each level of the room.
#[cycle(depth)]
fn is_within(value: &Value, room: usize) -> bool
    ensures { result ≡ nat_le (depth (view value.now)) room }
{
    match value {
        Value::Array(items) => 0 < room && are_within(items, room - 1),
        Value::Object(members) => 0 < room && all_within(members, room - 1),
        Value::Null | Value::Bool(_) | Value::Number(_) | Value::String(_) => true,
    }
}

/// The same of each item of a list.
#[tactic(auto, using(crate::proofs::Depths::within_both))]
#[cycle(depth)]
fn are_within(items: &Vec<Value>, room: usize) -> bool
    ensures { result ≡ nat_le (items_depth (items_view items.now.items)) room }
{
    for item in items {
        if !is_within(item, room) {
            return false;
        }
    }
    true
}

/// The same of each member of an object.
#[tactic(auto, using(crate::proofs::Depths::within_both))]
#[cycle(depth)]
fn all_within(members: &Map<String, Value>, room: usize) -> bool
    ensures { result ≡ nat_le (members_depth (members_view members.now.entries)) room }
{
    for (_key, member) in members.iter() {
        if !is_within(member, room) {
            return false;
        }
    }
    true
}

/// Whether a value would stand too deep at the end of a way.
#[tactic(auto, using(crate::proofs::Depths::deeper_than_room))]
pub(crate) fn is_too_deep(names: &[Text], value: &Value) -> bool
    ensures { result ≡ is_too_deep names.now (view value.now) }
{
    match DEEPEST.checked_sub(names.len()) {
        Some(room) => !is_within(value, room),
        None => true,
    }
}
