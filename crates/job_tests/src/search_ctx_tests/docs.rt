//! What the fields of documents hold.
use super::binding::has_values;
use std::alloc::Global;

/// One field of each kind.
const KINDS: &str = "{\"b\":\"boolean\",\"k\":\"keyword\",\"n\":\"long\"}";

/// What stands at a field, and what it comes to at a boolean, a keyword and a long.
const EACH: [(&str, &str, &str, &str); 31] = [
    ("5", "field", "[ '5' ]", "[ 5 ]"),
    ("-1", "field", "[ '-1' ]", "[ -1 ]"),
    ("true", "[ true ]", "[ 'true' ]", "field"),
    ("false", "[ false ]", "[ 'false' ]", "field"),
    ("\"true\"", "[ true ]", "[ 'true' ]", "field"),
    ("\"false\"", "[ false ]", "[ 'false' ]", "field"),
    ("\"True\"", "field", "[ 'True' ]", "field"),
    ("\"\"", "[ false ]", "[ '' ]", "field"),
    ("\"5\"", "field", "[ '5' ]", "[ 5 ]"),
    ("\"+7\"", "field", "[ '+7' ]", "[ 7 ]"),
    ("\"-07\"", "field", "[ '-07' ]", "[ -7 ]"),
    ("\"-0\"", "field", "[ '-0' ]", "[ 0 ]"),
    ("\"+\"", "field", "[ '+' ]", "field"),
    ("\" 5\"", "field", "[ ' 5' ]", "field"),
    ("\"5.0\"", "field", "[ '5.0' ]", "field"),
    ("\"1e3\"", "field", "[ '1e3' ]", "field"),
    (
        "9223372036854775807",
        "field",
        "[ '9223372036854775807' ]",
        "[ 9223372036854775807 ]",
    ),
    (
        "\"9223372036854775807\"",
        "field",
        "[ '9223372036854775807' ]",
        "[ 9223372036854775807 ]",
    ),
    (
        "\"9223372036854775808\"",
        "field",
        "[ '9223372036854775808' ]",
        "field",
    ),
    (
        "\"-9223372036854775808\"",
        "field",
        "[ '-9223372036854775808' ]",
        "[ -9223372036854775808 ]",
    ),
    ("9223372036854775808", "number", "number", "number"),
    ("-9223372036854775809", "number", "number", "number"),
    ("-0", "number", "number", "number"),
    ("1e3", "number", "number", "number"),
    ("1.0", "number", "number", "number"),
    ("null", "[ ]", "[ ]", "[ ]"),
    ("[]", "[ ]", "[ ]", "[ ]"),
    ("[null,[null]]", "[ ]", "[ ]", "[ ]"),
    ("{}", "field", "field", "field"),
    ("[{}]", "field", "field", "field"),
    ("[{\"x\":null}]", "field", "field", "field"),
];

/// A document with one member, which has the name of a field of one kind.
fn single(alloc: Global, name: &str, value: &str) -> Option<String> {
    format!(in alloc; "{{\"{name}\":{value}}}").ok()
}

/// A mapping with one field, of one kind.
fn mapping(alloc: Global, name: &str, kind: &str) -> Option<String> {
    format!(in alloc; "{{\"{name}\":\"{kind}\"}}").ok()
}

/// Whether a value at a field of a kind comes to this.
fn comes_to(alloc: Global, kind: &str, value: &str, wanted: &str) -> bool {
    match (single(alloc, "f", value), mapping(alloc, "f", kind)) {
        (Some(line), Some(mapping)) => {
            has_values(alloc, mapping.as_str(), line.as_str(), wanted)
        }
        _ => false,
    }
}

#[test]
fn each_value_at_each_kind(rt: HostRuntime) {
    for (value, boolean, keyword, long) in &EACH {
        let as_boolean = comes_to(rt.alloc(), "boolean", *value, *boolean);
        let as_keyword = comes_to(rt.alloc(), "keyword", *value, *keyword);
        let as_long = comes_to(rt.alloc(), "long", *value, *long);
        assert!(rt; as_boolean, "{value} as boolean");
        assert!(rt; as_keyword, "{value} as keyword");
        assert!(rt; as_long, "{value} as long");
    }
}

/// Mappings, documents, and the values of each field in turn.
const ROWS: [(&str, &str, &str); 41] = [
    (KINDS, "{}", "[ ][ ][ ]"),
    (KINDS, "{\"n\":[3,1,2,1]}", "[ ][ ][ 1 1 2 3 ]"),
    (
        KINDS,
        "{\"n\":[0,\"-5\",9223372036854775807,-9223372036854775808]}",
        "[ ][ ][ -9223372036854775808 -5 0 9223372036854775807 ]",
    ),
    (
        KINDS,
        "{\"k\":[\"b\",10,true,\"b\",\"\",-5,9,\"\"]}",
        "[ ][ '' '-5' '10' '9' 'b' 'true' ][ ]",
    ),
    (
        KINDS,
        "{\"k\":[\"\\ud83d\\ude00\",\"\\uff66\",\"\\ue000\",\"\\ud800\\udc00\",\"\\ud7ff\"]}",
        "[ ][ '\u{d7ff}' '\u{e000}' '\u{ff66}' '\u{10000}' '\u{1f600}' ][ ]",
    ),
    (
        KINDS,
        "{\"b\":[true,\"\",null,false,\"true\"]}",
        "[ false false true true ][ ][ ]",
    ),
    (KINDS, "{\"n\":[1,[2,[null,[3]]],[]]}", "[ ][ ][ 1 2 3 ]"),
    (KINDS, "{\"n\":[1,true]}", "field"),
    (KINDS, "{\"n\":[1,{}]}", "field"),
    (KINDS, "{\"n\":1,\"b\":1}", "field"),
    (
        KINDS,
        "{\"x\":{\"n\":1},\"y\":[true,{}],\"N\":2}",
        "[ ][ ][ ]",
    ),
    (KINDS, "{\"x\":1.5}", "number"),
    (KINDS, "{\"k\":{},\"n\":1.5}", "number"),
    (KINDS, "[]", "field"),
    (KINDS, "[{\"n\":1}]", "field"),
    (KINDS, "null", "field"),
    (KINDS, "7", "field"),
    (KINDS, "\"n\"", "field"),
    (KINDS, "1.5", "number"),
    (KINDS, "", "syntax"),
    (KINDS, "{\"n\":1", "syntax"),
    (KINDS, "{\"n\":1}}", "syntax"),
    (KINDS, "{\"n\":01}", "syntax"),
    (KINDS, "{\"n\":1.5,\"k\":\"\\ud800\"}", "syntax"),
    (KINDS, "{\"n\":1e400}", "syntax"),
    (KINDS, " {\"n\" : 1}\r", "[ ][ ][ 1 ]"),
    (KINDS, "{\"n\":1,\"n\":2}", "[ ][ ][ 2 ]"),
    (KINDS, "{\"n\":1.5,\"n\":true,\"n\":2}", "[ ][ ][ 2 ]"),
    (KINDS, "{\"n\":2,\"n\":1.5}", "number"),
    ("{}", "{\"a\":[{\"b\":true}]}", ""),
    ("{}", "{\"a\":-0}", "number"),
    (
        "{\"a.b\":\"long\"}",
        "{\"a\":{\"b\":1},\"a.b\":2}",
        "[ 1 2 ]",
    ),
    (
        "{\"a.b\":\"long\"}",
        "{\"a.b\":1,\"a\":{\"b\":2}}",
        "[ 1 2 ]",
    ),
    (
        "{\"a.b\":\"long\",\"a.c\":\"keyword\"}",
        "{\"a\":{\"b\":1},\"a\":{\"c\":2}}",
        "[ ][ '2' ]",
    ),
    (
        "{\"a.b\":\"long\"}",
        "{\"a\":[{\"b\":2},{\"b\":[1,null]},7,[[{\"b\":3}]]]}",
        "[ 1 2 3 ]",
    ),
    (
        "{\"a.b.c\":\"keyword\"}",
        "{\"a\":[{\"b\":{\"c\":\"z\"}},{\"b.c\":\"y\"}],\"a.b\":{\"c\":\"x\"},\"a.b.c\":\"w\"}",
        "[ 'w' 'x' 'y' 'z' ]",
    ),
    (
        "{\"a\":\"long\",\"a.b\":\"long\"}",
        "{\"a\":{\"b\":1}}",
        "field",
    ),
    (
        "{\"a\":\"long\",\"a.b\":\"long\"}",
        "{\"a\":1,\"a.b\":2}",
        "[ 1 ][ 2 ]",
    ),
    (
        "{\".\":\"long\",\".x\":\"long\",\"a.\":\"long\"}",
        "{\"\":{\"x\":1,\"\":2},\"a\":{\"\":3}}",
        "[ 2 ][ 1 ][ 3 ]",
    ),
    ("{\"x\":\"long\"}", "{\"\":1,\"x\":2}", "[ 2 ]"),
    (
        "{\"\\u00e9\":\"long\"}",
        "{\"\u{e9}\":1,\"e\\u0301\":2}",
        "[ 1 ]",
    ),
];

#[test]
fn documents(rt: HostRuntime) {
    for (mapping, line, wanted) in &ROWS {
        let as_wanted = has_values(rt.alloc(), *mapping, *line, *wanted);
        assert!(rt; as_wanted, "{mapping} {line}");
    }
}
