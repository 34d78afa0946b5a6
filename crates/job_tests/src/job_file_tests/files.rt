//! What is wrong with files, step by step, and the order of the steps.

use job_file::{Job, JobCommand, JobErr};
use std::alloc::Global;

/// What reading a file answers: the name of the step that refuses it, or `ok`, and the key.
pub type Answer = &'static str;

/// The file is read.
pub const OK: Answer = "ok";

/// It is no JSON object.
pub const SYNTAX: Answer = "syntax";

const CONTEXT: Answer = "field context";

/// Whether an answer is a step's name and this key.
fn is_step(wanted: Answer, step: &str, key: &str) -> bool {
    match wanted.strip_prefix(step) {
        Some(rest) => rest == key,
        None => false,
    }
}

/// Whether an error is the wanted one.
pub fn is_error(error: &JobErr, wanted: Answer) -> bool {
    match error {
        JobErr::Syntax => wanted == "syntax",
        JobErr::Field(key) => is_step(wanted, "field ", key.as_str()),
        JobErr::Range(key) => is_step(wanted, "range ", key.as_str()),
        JobErr::Mapping(name) => is_step(wanted, "mapping ", name.as_str()),
        JobErr::NoMemory => false,
    }
}

/// Whether reading a file answers so.
pub fn answers(alloc: Global, file: &[u8], command: JobCommand, wanted: Answer) -> bool {
    match Job::read(alloc, file, command) {
        Ok(_) => wanted == "ok",
        Err(error) => is_error(&error, wanted),
    }
}

/// Files, and what `run` answers.
const FILES: [(&str, Answer); 28] = [
    ("", SYNTAX),
    ("{", SYNTAX),
    ("[]", SYNTAX),
    ("1", SYNTAX),
    ("null", SYNTAX),
    ("\"field\"", SYNTAX),
    ("{} {}", SYNTAX),
    ("{\"context\":\"field\",\"script\":\"\\ud800\"}", SYNTAX),
    (
        "{\"context\":\"field\",\"script\":\"1\",\"params\":{\"a\":1e400}}",
        SYNTAX,
    ),
    ("{}", CONTEXT),
    (" {\n} ", CONTEXT),
    ("{\"context\":null}", CONTEXT),
    ("{\"context\":1}", CONTEXT),
    ("{\"context\":[\"field\"]}", CONTEXT),
    ("{\"context\":\"\"}", CONTEXT),
    ("{\"context\":\"Field\"}", CONTEXT),
    ("{\"context\":\"field \"}", CONTEXT),
    ("{\"context\":\"sort\"}", CONTEXT),
    ("{\"context\":\"updates\"}", CONTEXT),
    ("{\"context\":\"update\",\"nope\":1}", "field nope"),
    ("{\"context\":\"ingest\",\"script\":\"1\"}", OK),
    ("{\"context\":\"metric\",\"shards\":0}", CONTEXT),
    ("{\"context\":\"eval\",\"script\":\"1\"}", CONTEXT),
    ("{\"context\":\"filter\",\"script\":\"true\"}", OK),
    ("{\"context\":\"score\",\"script\":\"1\"}", OK),
    ("{\"context\":\"field\",\"script\":\"1\"}", OK),
    (
        "{\"context\":\"eval\",\"script\":\"1\",\"context\":\"field\"}",
        OK,
    ),
    (
        "{\"context\":\"field\",\"script\":\"1\",\"context\":\"eval\"}",
        CONTEXT,
    ),
];

#[test]
fn files_and_contexts(rt: HostRuntime) {
    for (file, wanted) in &FILES {
        let as_wanted = answers(rt.alloc(), file.as_bytes(), JobCommand::Run, *wanted);
        assert!(rt; as_wanted, "{file}");
    }
}

/// Bytes that are not UTF-8, and a mark of the order of bytes.
const BYTES: [&[u8]; 3] = [b"\xef\xbb\xbf{}", b"\xff", b"{\"context\":\"\xff\"}"];

#[test]
fn bytes_that_are_no_json(rt: HostRuntime) {
    for bytes in &BYTES {
        let as_wanted = answers(rt.alloc(), *bytes, JobCommand::Run, SYNTAX);
        let length = bytes.len();
        assert!(rt; as_wanted, "{length}");
    }
}

/// Files of the context `eval`, and what `check` and `list` answer.
const EVALS: [(&str, Answer); 13] = [
    ("{\"context\":\"eval\",\"script\":\"1\"}", OK),
    (
        "{\"context\":\"eval\",\"script\":\"1\",\"allow\":\"a\",\"limits\":{},\"prelude\":true}",
        OK,
    ),
    ("{\"context\":\"eval\"}", "field script"),
    (
        "{\"context\":\"eval\",\"script\":\"1\",\"params\":{}}",
        "field params",
    ),
    (
        "{\"context\":\"eval\",\"script\":\"1\",\"mapping\":{}}",
        "field mapping",
    ),
    (
        "{\"context\":\"eval\",\"script\":\"1\",\"listing\":true}",
        "field listing",
    ),
    (
        "{\"context\":\"eval\",\"script\":\"1\",\"steps\":true}",
        "field steps",
    ),
    (
        "{\"context\":\"eval\",\"script\":\"1\",\"members\":true}",
        "field members",
    ),
    (
        "{\"context\":\"eval\",\"script\":\"1\",\"shards\":1}",
        "field shards",
    ),
    (
        "{\"context\":\"eval\",\"script\":\"1\",\"prelude\":1}",
        "field prelude",
    ),
    ("{\"context\":\"update\",\"script\":\"1\"}", OK),
    ("{\"context\":\"sort\",\"script\":\"1\"}", CONTEXT),
    ("[]", SYNTAX),
];

#[test]
fn scripts_of_their_own(rt: HostRuntime) {
    for (file, wanted) in &EVALS {
        let checked = answers(rt.alloc(), file.as_bytes(), JobCommand::Check, *wanted);
        let listed = answers(rt.alloc(), file.as_bytes(), JobCommand::List, *wanted);
        assert!(rt; checked && listed, "{file}");
    }
}

/// Two faults in one file: that of the earlier step is told, wherever they stand.
const PAIRS: [(&str, Answer); 22] = [
    ("{\"a\":1,\"context\":\"sort\"}", CONTEXT),
    ("{\"limits\":{\"loop\":0}}", CONTEXT),
    ("{\"mapping\":{\"\":1},\"script\":2}", CONTEXT),
    ("{\"context\":\"field\",\"z\":1}", "field z"),
    ("{\"context\":\"field\",\"script\":1,\"z\":1}", "field z"),
    (
        "{\"context\":\"field\",\"script\":\"1\",\"params\":[],\"z\":1}",
        "field z",
    ),
    (
        "{\"context\":\"field\",\"script\":\"1\",\"limits\":{\"loop\":0},\"z\":1}",
        "field z",
    ),
    (
        "{\"context\":\"field\",\"script\":\"1\",\"mapping\":{\"\":1},\"z\":1}",
        "field z",
    ),
    ("{\"context\":\"field\",\"params\":[]}", "field script"),
    (
        "{\"context\":\"field\",\"script\":1,\"params\":[]}",
        "field script",
    ),
    (
        "{\"prelude\":1,\"params\":[],\"script\":\"1\",\"context\":\"field\"}",
        "field params",
    ),
    (
        "{\"context\":\"field\",\"script\":\"1\",\"params\":[],\"mapping\":[]}",
        "field params",
    ),
    (
        "{\"context\":\"field\",\"script\":\"1\",\"mapping\":[],\"allow\":1}",
        "field mapping",
    ),
    (
        "{\"context\":\"field\",\"script\":\"1\",\"allow\":1,\"limits\":1}",
        "field allow",
    ),
    (
        "{\"context\":\"field\",\"script\":\"1\",\"limits\":{\"lop\":1},\"params\":[]}",
        "field params",
    ),
    (
        "{\"context\":\"field\",\"script\":\"1\",\"limits\":{\"lop\":1},\"listing\":1}",
        "field limits",
    ),
    (
        "{\"context\":\"field\",\"script\":\"1\",\"listing\":1,\"steps\":1}",
        "field listing",
    ),
    (
        "{\"context\":\"field\",\"script\":\"1\",\"members\":1,\"steps\":1}",
        "field steps",
    ),
    (
        "{\"context\":\"field\",\"script\":\"1\",\"prelude\":1,\"members\":1}",
        "field members",
    ),
    (
        "{\"context\":\"field\",\"script\":\"1\",\"limits\":{\"loop\":0},\"prelude\":1}",
        "field prelude",
    ),
    (
        "{\"context\":\"field\",\"script\":\"1\",\"mapping\":{\"\":1},\"prelude\":1}",
        "field prelude",
    ),
    (
        "{\"context\":\"field\",\"script\":\"1\",\"mapping\":{\"\":1},\"limits\":{\"input\":0}}",
        "range input",
    ),
];

#[test]
fn the_first_of_two_faults(rt: HostRuntime) {
    for (file, wanted) in &PAIRS {
        let as_wanted = answers(rt.alloc(), file.as_bytes(), JobCommand::Run, *wanted);
        assert!(rt; as_wanted, "{file}");
    }
}
