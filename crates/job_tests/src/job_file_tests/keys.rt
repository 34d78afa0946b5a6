//! The keys of a job and its limits, and what is wrong with their values. Each row is what stands in an object of the
//! context `field` with a script.

use super::files::{Answer, OK, answers};
use job_file::JobCommand;
use std::alloc::{AllocError, Global};
use std::test::Fail;

/// The object of the context `field` that has these members too.
fn with_members(alloc: Global, members: &str) -> Result<String, AllocError> {
    let mut file = String::from_str(alloc, "{\"context\":\"field\",\"script\":\"1\",")?;
    file.push_str(members)?;
    file.push_str("}")?;
    Ok(file)
}

/// Whether a row's file is answered so.
fn row_answers(alloc: Global, members: &str, wanted: Answer) -> Result<bool, AllocError> {
    let file = with_members(alloc, members)?;
    Ok(answers(alloc, file.as_bytes(), JobCommand::Run, wanted))
}

/// Keys that are unknown, and values of other types.
const KEYS: [(&str, Answer); 78] = [
    ("\"z\":1,\"b\":2", "field b"),
    ("\"b\":2,\"z\":1", "field b"),
    ("\"aa\":2,\"a\":1", "field a"),
    ("\"a\":2,\"B\":1", "field B"),
    ("\"é\":2,\"z\":1", "field z"),
    ("\"\":2,\"a\":1", "field "),
    ("\"Context\":2", "field Context"),
    ("\"init\":\"1\"", "field init"),
    ("\"map\":\"1\"", "field map"),
    ("\"combine\":\"1\"", "field combine"),
    ("\"reduce\":\"1\"", "field reduce"),
    ("\"shards\":1", "field shards"),
    ("\"order\":[]", "field order"),
    ("\"slice\":1", "field slice"),
    ("\"slice\":1,\"order\":[]", "field order"),
    ("\"documents\":{}", "field documents"),
    ("\"script\":null", "field script"),
    ("\"script\":1", "field script"),
    ("\"script\":true", "field script"),
    ("\"script\":[\"1\"]", "field script"),
    ("\"script\":{}", "field script"),
    ("\"script\":1,\"script\":\"\"", OK),
    ("\"params\":{}", OK),
    ("\"params\":null", "field params"),
    ("\"params\":[]", "field params"),
    ("\"params\":\"{}\"", "field params"),
    ("\"params\":1", "field params"),
    ("\"params\":false", "field params"),
    ("\"params\":{\"a\":1.0}", "field params"),
    ("\"params\":{\"a\":1e3}", "field params"),
    ("\"params\":{\"a\":-0}", "field params"),
    ("\"params\":{\"a\":9223372036854775808}", "field params"),
    ("\"params\":{\"a\":-9223372036854775809}", "field params"),
    (
        "\"params\":{\"a\":9223372036854775807,\"b\":-9223372036854775808,\"c\":0}",
        OK,
    ),
    (
        "\"params\":{\"a\":[1,{\"b\":[2,{\"c\":0.5}]}]}",
        "field params",
    ),
    (
        "\"params\":{\"a\":[1,{\"b\":[2,{\"c\":\"0.5\"}]}],\"d\":null,\"e\":true}",
        OK,
    ),
    ("\"params\":{\"a\":0.5,\"a\":1}", OK),
    ("\"params\":{\"a\":1,\"a\":0.5}", "field params"),
    ("\"params\":{\"a\":{\"b\":0.5},\"a\":{}}", OK),
    ("\"mapping\":{}", OK),
    ("\"mapping\":null", "field mapping"),
    ("\"mapping\":[]", "field mapping"),
    ("\"mapping\":\"long\"", "field mapping"),
    ("\"mapping\":1", "field mapping"),
    ("\"mapping\":true", "field mapping"),
    ("\"allow\":\"\"", OK),
    ("\"allow\":null", "field allow"),
    ("\"allow\":1", "field allow"),
    ("\"allow\":[]", "field allow"),
    ("\"allow\":{}", "field allow"),
    ("\"allow\":true", "field allow"),
    ("\"limits\":{}", OK),
    ("\"limits\":null", "field limits"),
    ("\"limits\":[]", "field limits"),
    ("\"limits\":5", "field limits"),
    ("\"limits\":\"\"", "field limits"),
    ("\"limits\":false", "field limits"),
    ("\"limits\":{\"lop\":1}", "field limits"),
    ("\"limits\":{\"shards\":1}", "field limits"),
    ("\"limits\":{\"loop\":1,\"\":1}", "field limits"),
    ("\"limits\":{\"loop\":null}", "field limits"),
    ("\"limits\":{\"loop\":\"1\"}", "field limits"),
    ("\"limits\":{\"loop\":1.0}", "field limits"),
    ("\"limits\":{\"loop\":1e3}", "field limits"),
    ("\"limits\":{\"loop\":-0}", "field limits"),
    ("\"limits\":{\"loop\":9223372036854775808}", "field limits"),
    ("\"limits\":{\"loop\":0,\"tick\":1}", "field limits"),
    ("\"limits\":{\"loop\":0.5,\"loop\":1}", OK),
    (
        "\"listing\":true,\"steps\":false,\"members\":true,\"prelude\":false",
        OK,
    ),
    ("\"listing\":1", "field listing"),
    ("\"listing\":null", "field listing"),
    ("\"listing\":\"true\"", "field listing"),
    ("\"steps\":0", "field steps"),
    ("\"steps\":[]", "field steps"),
    ("\"members\":{}", "field members"),
    ("\"members\":null", "field members"),
    ("\"prelude\":\"\"", "field prelude"),
    ("\"prelude\":null", "field prelude"),
];

#[test]
fn keys_and_types(rt: HostRuntime) -> Result<(), Fail> {
    for (members, wanted) in &KEYS {
        let as_wanted = row_answers(rt.alloc(), *members, *wanted)?;
        assert!(rt; as_wanted, "{members}");
    }
    Ok(())
}

/// Limits at both ends of their ranges, and fields of mappings.
const VALUES: [(&str, Answer); 45] = [
    (
        "\"limits\":{\"loop\":1,\"depth\":1,\"ticks\":1,\"room\":1,\"input\":1}",
        OK,
    ),
    (
        "\"limits\":{\"loop\":1000000000,\"depth\":1024,\"ticks\":1000000000,\"room\":100000000,\"input\":4294967296}",
        OK,
    ),
    ("\"limits\":{\"loop\":0}", "range loop"),
    ("\"limits\":{\"loop\":-1}", "range loop"),
    ("\"limits\":{\"loop\":1000000001}", "range loop"),
    ("\"limits\":{\"loop\":9223372036854775807}", "range loop"),
    ("\"limits\":{\"loop\":-9223372036854775808}", "range loop"),
    ("\"limits\":{\"depth\":0}", "range depth"),
    ("\"limits\":{\"depth\":1025}", "range depth"),
    ("\"limits\":{\"depth\":4294967297}", "range depth"),
    ("\"limits\":{\"ticks\":0}", "range ticks"),
    ("\"limits\":{\"ticks\":1000000001}", "range ticks"),
    ("\"limits\":{\"room\":0}", "range room"),
    ("\"limits\":{\"room\":100000001}", "range room"),
    ("\"limits\":{\"input\":0}", "range input"),
    ("\"limits\":{\"input\":4294967297}", "range input"),
    ("\"limits\":{\"depth\":0,\"loop\":0}", "range loop"),
    ("\"limits\":{\"depth\":0,\"input\":0}", "range depth"),
    ("\"limits\":{\"ticks\":0,\"depth\":0}", "range depth"),
    ("\"limits\":{\"ticks\":0,\"room\":0}", "range ticks"),
    ("\"limits\":{\"input\":0,\"room\":0}", "range room"),
    ("\"limits\":{\"loop\":0,\"loop\":1}", OK),
    ("\"limits\":{\"loop\":1,\"loop\":0}", "range loop"),
    (
        "\"limits\":{\"input\":0},\"mapping\":{\"f\":\"date\"}",
        "range input",
    ),
    (
        "\"mapping\":{\"a\":\"long\",\"b.c\":\"keyword\",\"d\":\"boolean\"}",
        OK,
    ),
    ("\"mapping\":{\"f\":\"date\"}", "mapping f"),
    ("\"mapping\":{\"f\":\"Long\"}", "mapping f"),
    ("\"mapping\":{\"f\":\"longs\"}", "mapping f"),
    ("\"mapping\":{\"f\":\"\"}", "mapping f"),
    ("\"mapping\":{\"f\":null}", "mapping f"),
    ("\"mapping\":{\"f\":1}", "mapping f"),
    ("\"mapping\":{\"f\":1.5}", "mapping f"),
    ("\"mapping\":{\"f\":[\"long\"]}", "mapping f"),
    ("\"mapping\":{\"f\":{\"type\":\"long\"}}", "mapping f"),
    ("\"mapping\":{\"\":\"long\"}", "mapping "),
    ("\"mapping\":{\"\":\"date\",\"!\":\"date\"}", "mapping "),
    ("\"mapping\":{\"!\":\"date\",\"\":\"long\"}", "mapping "),
    ("\"mapping\":{\"g\":\"date\",\"f\":\"date\"}", "mapping f"),
    ("\"mapping\":{\"f\":\"date\",\"g\":\"date\"}", "mapping f"),
    (
        "\"mapping\":{\"a\":\"long\",\"ab\":\"date\",\"b\":\"date\"}",
        "mapping ab",
    ),
    ("\"mapping\":{\"z\":\"date\",\"é\":\"date\"}", "mapping z"),
    ("\"mapping\":{\"é\":\"date\",\"z\":\"long\"}", "mapping é"),
    ("\"mapping\":{\"f\":\"date\",\"f\":\"long\"}", OK),
    ("\"mapping\":{\"f\":\"long\",\"f\":\"date\"}", "mapping f"),
    ("\"mapping\":{\" \":\"long\"}", OK),
];

#[test]
fn limits_and_mappings(rt: HostRuntime) -> Result<(), Fail> {
    for (members, wanted) in &VALUES {
        let as_wanted = row_answers(rt.alloc(), *members, *wanted)?;
        assert!(rt; as_wanted, "{members}");
    }
    Ok(())
}

/// A mapping of so many fields, the first of which has this kind and the others `long`.
fn many_fields(alloc: Global, count: u32, first: &str) -> Result<String, AllocError> {
    let mut members = format!(in alloc; "\"mapping\":{{\"f0\":\"{first}\"")?;
    for number in 1..count {
        let one = format!(in alloc; ",\"f{number}\":\"long\"")?;
        members.push_str(one.as_str())?;
    }
    members.push_str("}")?;
    Ok(members)
}

const COUNTS: [(u32, &str, Answer); 4] = [
    (1_000, "long", OK),
    (1_000, "date", "mapping f0"),
    (1_001, "long", "mapping "),
    (1_001, "date", "mapping "),
];

#[test]
fn how_many_fields(rt: HostRuntime) -> Result<(), Fail> {
    for (count, first, wanted) in &COUNTS {
        let members = many_fields(rt.alloc(), *count, *first)?;
        let as_wanted = row_answers(rt.alloc(), members.as_str(), *wanted)?;
        assert!(rt; as_wanted, "{count} {first}");
    }
    Ok(())
}

/// Parameters that nest so many lists.
fn nested(alloc: Global, count: u32) -> Result<String, AllocError> {
    let mut members = String::from_str(alloc, "\"params\":{\"a\":")?;
    for _ in 0..count {
        members.push_str("[")?;
    }
    for _ in 0..count {
        members.push_str("]")?;
    }
    members.push_str("}")?;
    Ok(members)
}

/// The file and the parameters are two of the 127 objects and lists that may stand in one another.
const DEPTHS: [(u32, Answer); 2] = [(125, OK), (126, "syntax")];

#[test]
fn how_deep_parameters_are(rt: HostRuntime) -> Result<(), Fail> {
    for (count, wanted) in &DEPTHS {
        let members = nested(rt.alloc(), *count)?;
        let as_wanted = row_answers(rt.alloc(), members.as_str(), *wanted)?;
        assert!(rt; as_wanted, "{count}");
    }
    Ok(())
}
