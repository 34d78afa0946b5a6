//! What is shown beside a reply, by the keys that are.
ghost use Rattle.std.specs.Prelude.{◌≡◌, ◌∷◌, [], IfOk};

use allowlist::Catalogue;
use json_replies::{ShownKeys, shown_reply_line};
use object_heap::{End, Heap, Outcome, Which};
use object_values::{Elements, Seed, Value};
use search_ctx::SearchKind;
use std::alloc::{AllocError, Global};

/// `new ArrayList()`, `get` of a list and `Integer.MAX_VALUE`, by their numbers in the catalogue.
fn members(alloc: Global) -> Result<Elements<u32>, AllocError>
    ensures { IfOk result (λ members. members ≡ 123 ∷ 115 ∷ 14 ∷ []) }
{
    Ok(Elements::from_vec(vec![in alloc; 123, 115, 14]?))
}

/// The line of a run that ended so behind five instructions, having called these members.
fn line_of(alloc: Global, keys: ShownKeys, end: End) -> Result<(String, bool), AllocError> {
    let allow = Catalogue::full(alloc)?;
    let outcome = Outcome {
        end,
        heap: Heap::new(alloc, 0, Seed::of(b"test")),
        ticks: 2,
        steps: 5,
        reached: members(alloc)?,
    };
    let line = shown_reply_line(alloc, &allow, SearchKind::Field, keys, &outcome)?;
    Ok((line.text, line.is_error))
}

/// Whether that line is this one, and an error or not.
fn is_told(alloc: Global, keys: ShownKeys, end: End, is_error: bool, wanted: &str) -> bool {
    match line_of(alloc, keys, end) {
        Ok((text, error)) => text.as_str() == wanted && error == is_error,
        Err(_) => false,
    }
}

/// Keys that are shown, and the lines of a result and of an error.
const SHOWN: [(bool, bool, &str, &str); 4] = [
    (
        false,
        false,
        "{\"result\":7}\n",
        "{\"error\":{\"kind\":\"limit-loop\"}}\n",
    ),
    (
        false,
        true,
        "{\"result\":7,\"steps\":5}\n",
        "{\"error\":{\"kind\":\"limit-loop\"},\"steps\":5}\n",
    ),
    (
        true,
        false,
        "{\"members\":[\"java.util.ArrayList/0\",\"java.util.List.get/1\",\"java.lang.Integer.MAX_VALUE\"],\"result\":7}\n",
        "{\"error\":{\"kind\":\"limit-loop\"},\"members\":[\"java.util.ArrayList/0\",\"java.util.List.get/1\",\"java.lang.Integer.MAX_VALUE\"]}\n",
    ),
    (
        true,
        true,
        "{\"members\":[\"java.util.ArrayList/0\",\"java.util.List.get/1\",\"java.lang.Integer.MAX_VALUE\"],\"result\":7,\"steps\":5}\n",
        "{\"error\":{\"kind\":\"limit-loop\"},\"members\":[\"java.util.ArrayList/0\",\"java.util.List.get/1\",\"java.lang.Integer.MAX_VALUE\"],\"steps\":5}\n",
    ),
];

#[test]
fn shown(rt: HostRuntime) {
    for (members, steps, result, error) in &SHOWN {
        let keys = ShownKeys {
            members: *members,
            steps: *steps,
        };
        let value = End::Value(Value::Int(7));
        let gives = is_told(rt.alloc(), keys, value, false, *result);
        let limit = End::Limit {
            limit: Which::Loop,
            place: None,
        };
        let fails = is_told(rt.alloc(), keys, limit, true, *error);
        assert!(rt; gives, "{result}");
        assert!(rt; fails, "{error}");
    }
}
