//! Starts of runs over lines.
use super::binding::{bound, starts_so};
use json_reading::Scratch;
use search_ctx::{BindErr, SearchKind};

/// A mapping with a field that has the name of a score.
const SCORED: &str = "{\"_score\":\"long\",\"a._score\":\"long\",\"n\":\"long\"}";

/// What a context starts with: the context, mapping and parameters, line, and heap and arguments or cause.
const ROWS: [(SearchKind, (&str, &str), &str, &str); 26] = [
    (SearchKind::Filter, ("{}", "{}"), "{}", "{ }! { }m | #0 #1 "),
    (
        SearchKind::Field,
        ("{\"n\":\"long\"}", "{}"),
        "{\"n\":[2,1]}",
        "{ }! [ 1 2 ]d! { 'n'=#1 }m | #0 #2 ",
    ),
    (
        SearchKind::Filter,
        (
            "{\"k\":\"keyword\",\"b\":\"boolean\",\"n\":\"long\"}",
            "{\"p\":7}",
        ),
        "{\"n\":1,\"k\":\"x\",\"b\":true}",
        "{ 'p'=7i }! [ true ]d! [ 'x' ]d! [ 1 ]d! { 'b'=#1 'k'=#2 'n'=#3 }m | #0 #4 ",
    ),
    (
        SearchKind::Filter,
        ("{}", "{\"b\":2,\"a\":[{\"d\":[1],\"c\":null},{}]}"),
        "{}",
        "[ 1i ]! { 'c'=null 'd'=#0 }! { }! [ #1 #2 ]! { 'a'=#3 'b'=2i }! { }m | #4 #5 ",
    ),
    (
        SearchKind::Filter,
        ("{}", "[[3000000000]]"),
        "{}",
        "[ 3000000000 ]! [ #0 ]! { }m | #1 #2 ",
    ),
    (SearchKind::Filter, ("{}", "null"), "{}", "{ }m | null #0 "),
    (SearchKind::Filter, ("{}", "{\"p\":[1.5]}"), "{}", "number"),
    (SearchKind::Filter, ("{}", "{\"p\":1.5}"), "[]", "number"),
    (SearchKind::Filter, ("{}", "{\"p\":1.5}"), "[", "syntax"),
    (
        SearchKind::Filter,
        (SCORED, "{}"),
        "{\"_score\":3,\"n\":1}",
        "{ }! [ 3 ]d! [ ]d! [ 1 ]d! { '_score'=#1 'a._score'=#2 'n'=#3 }m | #0 #4 ",
    ),
    (
        SearchKind::Field,
        (SCORED, "{}"),
        "{\"_score\":true}",
        "field",
    ),
    (
        SearchKind::Filter,
        ("{}", "{}"),
        "{\"_score\":-1}",
        "{ }! { }m | #0 #1 ",
    ),
    (
        SearchKind::Score,
        (SCORED, "{}"),
        "{\"_score\":3,\"n\":1}",
        "{ }! [ ]d! [ ]d! [ 1 ]d! { '_score'=#1 'a._score'=#2 'n'=#3 }m | #0 #4 3 ",
    ),
    (
        SearchKind::Score,
        (SCORED, "{}"),
        "{\"a\":{\"_score\":5},\"n\":\"2\"}",
        "{ }! [ ]d! [ 5 ]d! [ 2 ]d! { '_score'=#1 'a._score'=#2 'n'=#3 }m | #0 #4 1 ",
    ),
    (
        SearchKind::Score,
        ("{}", "{}"),
        "{}",
        "{ }! { }m | #0 #1 1 ",
    ),
    (
        SearchKind::Score,
        ("{}", "{}"),
        "{\"_score\":0}",
        "{ }! { }m | #0 #1 0 ",
    ),
    (
        SearchKind::Score,
        ("{}", "{}"),
        "{\"_score\":9223372036854775807}",
        "{ }! { }m | #0 #1 9223372036854775807 ",
    ),
    (
        SearchKind::Score,
        ("{}", "{}"),
        "{\"_score\":-1,\"_score\":2}",
        "{ }! { }m | #0 #1 2 ",
    ),
    (SearchKind::Score, ("{}", "{}"), "{\"_score\":-1}", "field"),
    (
        SearchKind::Score,
        ("{}", "{}"),
        "{\"_score\":\"3\"}",
        "field",
    ),
    (
        SearchKind::Score,
        ("{}", "{}"),
        "{\"_score\":null}",
        "field",
    ),
    (SearchKind::Score, ("{}", "{}"), "{\"_score\":[3]}", "field"),
    (
        SearchKind::Score,
        ("{}", "{}"),
        "{\"_score\":-1,\"x\":0.5}",
        "number",
    ),
    (
        SearchKind::Score,
        ("{}", "{}"),
        "{\"_score\":1.0}",
        "number",
    ),
    (
        SearchKind::Score,
        (SCORED, "{}"),
        "{\"_score\":1,\"n\":{}}",
        "field",
    ),
    (SearchKind::Score, ("{}", "{}"), "[1]", "field"),
];

#[test]
fn starts(rt: HostRuntime) {
    let mut scratch = Scratch::new(rt.alloc());
    for (kind, texts, line, wanted) in &ROWS {
        let as_wanted = starts_so(rt.alloc(), *kind, *texts, *line, *wanted, &mut scratch);
        assert!(rt; as_wanted, "{line}");
    }
}

/// A document whose name is no UTF-8.
const NO_TEXT: [u8; 7] = [b'{', b'"', 0xff, b'"', b':', b'1', b'}'];

#[test]
fn bytes_that_are_no_text(rt: HostRuntime) {
    let texts = ("{}", "{}");
    let mut scratch = Scratch::new(rt.alloc());
    let cause = bound(
        rt.alloc(),
        SearchKind::Filter,
        texts,
        &NO_TEXT,
        &mut scratch,
    )
    .err();
    assert!(rt; cause == Some(BindErr::Syntax));
}
