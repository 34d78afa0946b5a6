//! Lists of functions with their answers: the path of the first place that is wrong.

use function_score::{FunErr, Functions};
use serde_json::Value;
use std::alloc::{AllocError, Global};
use std::test::Fail;

/// The answer where nothing is wrong.
const OK: &str = "";

/// Whether a list is answered so.
fn answers(alloc: Global, text: &str, wanted: &str) -> bool {
    let Ok(value) = Value::from_str(alloc, text) else {
        return false;
    };
    match Functions::read(alloc, &value) {
        Ok(_) => wanted.is_empty(),
        Err(FunErr::Bad(path)) => path.as_str() == wanted,
        Err(FunErr::NoMemory) => false,
    }
}

/// Lists and their answers.
const ROWS: [(&str, &str); 35] = [
    ("[]", OK),
    ("{}", "functions"),
    ("null", "functions"),
    ("\"\"", "functions"),
    ("[{}]", "functions.0"),
    ("[null]", "functions.0"),
    ("[[]]", "functions.0"),
    ("[{\"weight\":1}]", OK),
    ("[{\"script\":\"\"}]", OK),
    ("[{\"filter\":\"\"}]", "functions.0"),
    ("[{\"filter\":\"\",\"weight\":0}]", OK),
    ("[{\"filter\":\"a\",\"script\":\"b\",\"weight\":7}]", OK),
    ("[{\"weight\":1},{\"filter\":\"\"}]", "functions.1"),
    ("[{\"weight\":1000000000}]", OK),
    ("[{\"weight\":1000000001}]", "functions.0.weight"),
    ("[{\"weight\":-1}]", "functions.0.weight"),
    ("[{\"weight\":1.0}]", "functions.0.weight"),
    ("[{\"weight\":1e3}]", "functions.0.weight"),
    ("[{\"weight\":-0}]", "functions.0.weight"),
    ("[{\"weight\":\"1\"}]", "functions.0.weight"),
    ("[{\"weight\":null}]", "functions.0.weight"),
    ("[{\"weight\":9223372036854775808}]", "functions.0.weight"),
    ("[{\"script\":1}]", "functions.0.script"),
    ("[{\"script\":null,\"weight\":1}]", "functions.0.script"),
    ("[{\"filter\":true,\"weight\":1}]", "functions.0.filter"),
    (
        "[{\"filter\":1,\"script\":2,\"weight\":-1}]",
        "functions.0.filter",
    ),
    ("[{\"script\":2,\"weight\":-1}]", "functions.0.script"),
    ("[{\"filter\":1}]", "functions.0.filter"),
    ("[{\"z\":1,\"b\":2,\"filter\":1}]", "functions.0.b"),
    ("[{\"b\":1,\"B\":1,\"weight\":1}]", "functions.0.B"),
    ("[{\"é\":1,\"z\":1}]", "functions.0.z"),
    ("[{\"\":1}]", "functions.0."),
    ("[{\"Weight\":1}]", "functions.0.Weight"),
    (
        "[{\"weight\":1},{\"weight\":2},{\"a.b\":2}]",
        "functions.2.a.b",
    ),
    ("[{\"weight\":-1,\"weight\":1}]", OK),
];

#[test]
fn lists_are_answered(rt: HostRuntime) {
    for row in &ROWS {
        assert!(rt; answers(rt.alloc(), row.0, row.1), "{}", row.0);
    }
}

/// A list of so many functions, with another one at a place.
fn many(alloc: Global, count: usize, place: usize, other: &str) -> Result<String, AllocError> {
    let mut list = String::from_str(alloc, "[")?;
    for number in 0..count {
        if number > 0 {
            list.push_str(",")?;
        }
        list.push_str(if number == place {
            other
        } else {
            "{\"weight\":1}"
        })?;
    }
    list.push_str("]")?;
    Ok(list)
}

/// The function behind 64 is wrong, whatever it is, unless one before it is.
#[test]
fn at_most_64_functions(rt: HostRuntime) -> Result<(), Fail> {
    let alloc = rt.alloc();
    let list = many(alloc, 64, 64, "{}")?;
    assert!(rt; answers(alloc, list.as_str(), OK));
    let list = many(alloc, 65, 65, "{}")?;
    assert!(rt; answers(alloc, list.as_str(), "functions.64"));
    let list = many(alloc, 66, 64, "{\"weight\":-1}")?;
    assert!(rt; answers(alloc, list.as_str(), "functions.64"));
    let list = many(alloc, 65, 63, "{\"weight\":-1}")?;
    assert!(rt; answers(alloc, list.as_str(), "functions.63.weight"));
    let list = many(alloc, 66, 65, "{}")?;
    assert!(rt; answers(alloc, list.as_str(), "functions.64"));
    Ok(())
}
