//! Lines with their shards.

use json_bridge::BindErr;
use json_reading::Scratch;
use metric_ctx::split;
use std::alloc::Global;

/// What a line is answered: its shard and its document, or what is wrong with it.
#[derive(Clone, Copy)]
enum Wanted {
    Split(u32, &'static str),
    Wrong(BindErr),
}

/// A line, how many shards there are, and the answer.
type Row = (&'static str, u32, Wanted);

const ROWS: [Row; 20] = [
    ("{}", 1, Wanted::Split(0, "{}")),
    ("{\"n\":1}", 3, Wanted::Split(0, "{\"n\":1}")),
    ("{\"_shard\":2,\"n\":1}", 3, Wanted::Split(2, "{\"n\":1}")),
    ("{\"n\":1,\"_shard\":0}", 1, Wanted::Split(0, "{\"n\":1}")),
    ("{\"_shard\":63}", 64, Wanted::Split(63, "{}")),
    ("{\"_shard\":1,\"_shard\":2}", 3, Wanted::Split(2, "{}")),
    (
        "{\"a\":{\"_shard\":7}}",
        1,
        Wanted::Split(0, "{\"a\":{\"_shard\":7}}"),
    ),
    ("{\"_shard\":3}", 3, Wanted::Wrong(BindErr::Field)),
    ("{\"_shard\":1}", 1, Wanted::Wrong(BindErr::Field)),
    ("{\"_shard\":-1}", 3, Wanted::Wrong(BindErr::Field)),
    ("{\"_shard\":4294967296}", 3, Wanted::Wrong(BindErr::Field)),
    ("{\"_shard\":\"1\"}", 3, Wanted::Wrong(BindErr::Field)),
    ("{\"_shard\":null}", 3, Wanted::Wrong(BindErr::Field)),
    ("{\"_shard\":1.0}", 3, Wanted::Wrong(BindErr::Number)),
    ("[]", 1, Wanted::Wrong(BindErr::Field)),
    ("1", 1, Wanted::Wrong(BindErr::Field)),
    ("[1.5]", 1, Wanted::Wrong(BindErr::Number)),
    (
        "{\"_shard\":9,\"n\":1.5}",
        3,
        Wanted::Wrong(BindErr::Number),
    ),
    ("{", 1, Wanted::Wrong(BindErr::Syntax)),
    ("", 1, Wanted::Wrong(BindErr::Syntax)),
];

/// Whether a line has its answer.
fn row_holds(alloc: Global, row: &Row) -> bool {
    if row.1 == 0 {
        return false;
    }
    let mut scratch = Scratch::new(alloc);
    match (split(alloc, row.0.as_bytes(), row.1, &mut scratch), row.2) {
        (Ok((shard, document)), Wanted::Split(number, text)) => match document.to_string(alloc) {
            Ok(shown) => shard == number && shown.as_str() == text,
            Err(_) => false,
        },
        (Err(error), Wanted::Wrong(other)) => error == other,
        _ => false,
    }
}

#[test]
fn lines_are_split(rt: HostRuntime) {
    for (number, row) in ROWS.iter().enumerate() {
        assert!(rt; row_holds(rt.alloc(), row), "row {number}");
    }
}
