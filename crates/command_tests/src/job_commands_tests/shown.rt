//! What jobs show beside their replies, and what the report has.

use super::worlds::{Pieces, WHOLE, listed, reported};
use command_parts::Status;
use pl_code::{listing, read_listing};
use std::test::Fail;

/// The listing of the prelude's code.
const PRELUDE: &str = "painless 1\nfun 0 free V - -\nret\nend\n";

/// Jobs, and the listings of their scripts.
const LISTED: [(&str, &str); 4] = [
    (
        r#"{"context":"field","script":"1"}"#,
        "painless 1\nfun 0 loop R RR -\ni 1\nbox int\nret\nend\n",
    ),
    (
        r#"{"context":"eval","script":"1"}"#,
        "painless 1\nfun 0 loop R - -\ni 1\nbox int\nret\nend\n",
    ),
    (
        r#"{"context":"field","prelude":true,"script":"1"}"#,
        PRELUDE,
    ),
    (
        r#"{"context":"field","script":"1 +"}"#,
        "{\"refused\":{\"name\":\"Syntax\",\"number\":2,\"offset\":3}}\n",
    ),
];

/// The jobs of the examples.
const EXAMPLES: [&str; 5] = [
    r#"{"context":"field","limits":{"loop":100},"script":"long s = 0; for (int i = 1; i <= 100; i++) { s += i } s"}"#,
    r#"{"context":"filter","mapping":{"n":"long","tag":"keyword"},"params":{"field":"tag"},"script":"doc.size() == 2 && !params.containsKey('limit')"}"#,
    r#"{"context":"score","mapping":{"likes":"long"},"script":"doc['likes'].size() == 0 ? _score : _score * (1 + doc['likes'].value)"}"#,
    r#"{"context":"field","limits":{"loop":3},"mapping":{"n":"long"},"script":"long sum = 0; for (n in doc['n']) { sum += n } sum"}"#,
    r#"{"context":"filter","mapping":{"price":"long","tag":"keyword"},"params":{"most":500,"tags":["new","sale"]},"script":"boolean isWanted(List tags, List own) { for (tag in own) { if (tags.contains(tag)) { return true } } return false } doc['price'].value <= params.most && isWanted(params.tags, doc['tag'])"}"#,
];

/// A job, lines, what is written for them, and the instructions that are run for them all.
const SHOWN: [(&str, &str, &str, u64); 9] = [
    // Three lines.
    (
        r#"{"context":"field","script":"1","steps":true}"#,
        "{}",
        "{\"listing\":\"painless 1\\nfun 0 loop R RR -\\ni 1\\nbox int\\nret\\nend\\n\"}\n{\"listing\":\"painless 1\\nfun 0 free V - -\\nret\\nend\\n\",\"script\":\"prelude\"}\n{\"result\":1,\"steps\":3}\n",
        3,
    ),
    // Blank lines have no reply, and bad ones no run.
    (
        r#"{"context":"field","script":"1","steps":true,"members":true}"#,
        "{}\n \n[]\n{\n{}\n",
        "{\"listing\":\"painless 1\\nfun 0 loop R RR -\\ni 1\\nbox int\\nret\\nend\\n\"}\n{\"listing\":\"painless 1\\nfun 0 free V - -\\nret\\nend\\n\",\"script\":\"prelude\"}\n{\"members\":[],\"result\":1,\"steps\":3}\n{\"error\":{\"kind\":\"line-field\"}}\n{\"error\":{\"kind\":\"line-syntax\"}}\n{\"members\":[],\"result\":1,\"steps\":3}\n",
        6,
    ),
    // The listing alone, also where there are no lines.
    (
        r#"{"context":"field","script":"1","listing":true}"#,
        "{}\n",
        "{\"listing\":\"painless 1\\nfun 0 loop R RR -\\ni 1\\nbox int\\nret\\nend\\n\"}\n{\"result\":1}\n",
        3,
    ),
    (
        r#"{"context":"field","script":"1","listing":true}"#,
        "",
        "{\"listing\":\"painless 1\\nfun 0 loop R RR -\\ni 1\\nbox int\\nret\\nend\\n\"}\n",
        0,
    ),
    // Members by their first calls, also those that are found when the script runs, and of runs that end by an exception: 8 instructions, 8 and 4.
    (
        r#"{"context":"filter","mapping":{"n":"long"},"members":true,"script":"doc['n'].value > 3"}"#,
        "{\"n\":5}\n{\"n\":[7,1]}\n{\"t\":\"a\"}\n",
        "{\"members\":[\"java.util.Map.get/1\",\"org.elasticsearch.index.fielddata.ScriptDocValues.getValue/0\"],\"result\":true}\n{\"members\":[\"java.util.Map.get/1\",\"org.elasticsearch.index.fielddata.ScriptDocValues.getValue/0\"],\"result\":false}\n{\"error\":{\"class\":\"IllegalStateException\",\"kind\":\"thrown\",\"message\":\"A document doesn't have a value for a field! Use doc[<field>].size()==0 to check if a document is missing a field!\"},\"members\":[\"java.util.Map.get/1\",\"org.elasticsearch.index.fielddata.ScriptDocValues.getValue/0\"]}\n",
        20,
    ),
    // Each line has its own: 10 instructions where the member is called, and 8 where it is not.
    (
        r#"{"context":"score","members":true,"script":"_score > 1 ? params.size() : 0"}"#,
        "{\"_score\":2}\n{\"_score\":0}\n",
        "{\"members\":[\"java.util.Map.size/0\"],\"result\":0}\n{\"members\":[],\"result\":0}\n",
        18,
    ),
    // A run that ends by a limit: 4 instructions before the loop, and 2 of each of 5 turns, of which the last is one too many.
    (
        r#"{"context":"field","limits":{"loop":4},"members":true,"script":"params.size(); while (true) { }"}"#,
        "{}\n{}\n",
        "{\"error\":{\"kind\":\"limit-loop\"},\"members\":[\"java.util.Map.size/0\"]}\n{\"error\":{\"kind\":\"limit-loop\"},\"members\":[\"java.util.Map.size/0\"]}\n",
        28,
    ),
    // 5 instructions before the loop, 4 of its test 4 times, 12 of its body 3 times, and 3 behind it.
    (
        r#"{"context":"field","script":"int s = 0; for (int i = 0; i < 3; i++) { s += i } s"}"#,
        "{}\n",
        "{\"result\":3}\n",
        60,
    ),
    // 4 instructions of the main script, 11 of each call with a greater number, and 7 of the call with 0.
    (
        r#"{"context":"field","script":"int f(int n) { return n == 0 ? 0 : f(n-1) + 1 } f(2)"}"#,
        "{}\n",
        "{\"result\":2}\n",
        33,
    ),
];

#[test]
fn listings(rt: HostRuntime) -> Result<(), Fail> {
    let alloc = rt.alloc();
    for (job, text) in &LISTED {
        let answer = listed(alloc, job.as_bytes())?;
        assert!(rt; answer.0.as_slice() == text.as_bytes(), "{job}");
        assert_eq!(rt; answer.1.listings.len(), 0);
        assert_eq!(rt; answer.1.steps, 0);
    }
    Ok(())
}

#[test]
fn examples(rt: HostRuntime) -> Result<(), Fail> {
    let alloc = rt.alloc();
    for job in &EXAMPLES {
        let answer = listed(alloc, job.as_bytes())?;
        assert!(rt; answer.1.status == Status::Done);
        let Ok(code) = read_listing(alloc, answer.0.as_slice()) else {
            assert!(rt; false, "{job}");
            return Ok(());
        };
        let again = listing(alloc, &code)?;
        assert!(rt; again.as_bytes() == answer.0.as_slice(), "{job}");
    }
    Ok(())
}

#[test]
fn shown(rt: HostRuntime) -> Result<(), Fail> {
    let alloc = rt.alloc();
    for (job, lines, written, steps) in &SHOWN {
        let answer = reported(alloc, job.as_bytes(), lines.as_bytes(), &WHOLE)?;
        assert!(rt; answer.0.as_slice() == written.as_bytes(), "{job}");
        assert!(rt; answer.1.steps == *steps, "{job}");
        // The report has the script's listing, which `list` writes, and the prelude's.
        let script = listed(alloc, job.as_bytes())?;
        assert_eq!(rt; answer.1.listings.len(), 2);
        for (at, text) in answer.1.listings.iter().enumerate() {
            let same = if at == 0 {
                text.as_bytes() == script.0.as_slice()
            } else {
                text.as_str() == PRELUDE
            };
            assert!(rt; same, "{job}");
        }
    }
    Ok(())
}

#[test]
fn reports(rt: HostRuntime) -> Result<(), Fail> {
    let alloc = rt.alloc();
    let broken = Pieces {
        sink_fails: 1,
        ..WHOLE
    };
    let short = r#"{"context":"field","limits":{"input":3},"script":"1"}"#;
    let refused = r#"{"context":"field","script":"1 +","steps":true}"#;
    for (job, pieces, status) in [
        (short, &WHOLE, Status::InputLong),
        (short, &broken, Status::WriteFault),
        (refused, &WHOLE, Status::Refused),
    ] {
        let answer = reported(alloc, job.as_bytes(), b"{}\n{}\n", pieces)?;
        assert_eq!(rt; answer.1.status, status);
        assert_eq!(rt; answer.1.listings.len(), 0);
        assert_eq!(rt; answer.1.steps, 0);
    }
    Ok(())
}
