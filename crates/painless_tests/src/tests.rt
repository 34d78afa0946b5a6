//! Words, and the top call over what never fails.
ghost use Rattle.std.specs.Prelude.{◌≤◌};

use outer_io::{MemFiles, MemSink, MemSource, SureFiles, SureSink, SureSource};
use painless::{Status, painless, painless_surely};
use std::alloc::{AllocError, Global};
use std::test::Fail;

/// The listing of the prelude's code.
const PRELUDE: &str = "painless 1\nfun 0 free V - -\nret\nend\n";

/// A command, the file that its word names, the input, what is written, the listing of the script in the report, and how many
/// instructions it has.
const ROWS: [(&str, &str, &str, &str, &str, u64); 6] = [
    (
        "eval",
        "6*7",
        "",
        "{\"result\":42}\n",
        "painless 1\nfun 0 loop R - -\ni 6\ni 7\nmul.i\nbox int\nret\nend\n",
        5,
    ),
    (
        "check",
        "{\"context\":\"field\",\"script\":\"1\"}",
        "",
        "{\"ok\":true}\n",
        "",
        0,
    ),
    (
        "list",
        "{\"context\":\"field\",\"script\":\"1\"}",
        "",
        "painless 1\nfun 0 loop R RR -\ni 1\nbox int\nret\nend\n",
        "",
        0,
    ),
    (
        "run",
        "{\"context\":\"field\",\"script\":\"1\"}",
        "{}\n\n{}",
        "{\"result\":1}\n{\"result\":1}\n",
        "painless 1\nfun 0 loop R RR -\ni 1\nbox int\nret\nend\n",
        6,
    ),
    (
        "run",
        "{\"context\":\"field\",\"script\":\"1\",\"steps\":true}",
        "{}",
        "{\"listing\":\"painless 1\\nfun 0 loop R RR -\\ni 1\\nbox int\\nret\\nend\\n\"}\n{\"listing\":\"painless 1\\nfun 0 free V - -\\nret\\nend\\n\",\"script\":\"prelude\"}\n{\"result\":1,\"steps\":3}\n",
        "painless 1\nfun 0 loop R RR -\ni 1\nbox int\nret\nend\n",
        3,
    ),
    (
        "pipe",
        "{\"context\":\"pipe\",\"pipeline\":[{\"script\":{\"source\":\"ctx.a = 1\"}}]}",
        "{\"_source\":{}}\n\n{\"_id\":\"1\",\"_source\":{}}",
        "{\"_id\":\"\",\"_index\":\"docs\",\"_source\":{\"a\":1}}\n{\"_id\":\"1\",\"_index\":\"docs\",\"_source\":{\"a\":1}}\n",
        "painless 1\nfun 0 loop V RR -\nload 1\ntext \"a\"\ni 1\nbox int\ndupx2\ninvoke java.util.Map.put/2\npop\npop\nret\nend\n",
        18,
    ),
];

/// Words that are no command with its one word.
const NO_COMMANDS: [&[&str]; 18] = [
    &[],
    &["run"],
    &["run", "a", "b"],
    &["fly", "a"],
    &["eval"],
    &["check"],
    &["list"],
    &["pipe"],
    &["Eval", "f"],
    &["eval", "f", "f"],
    &["gen"],
    &["gen", "f"],
    &["gen", ""],
    &["gen", "0"],
    &["gen", "01"],
    &["gen", "+1"],
    &["gen", "1000001"],
    &["gen", "4294967297"],
];

fn words_of(alloc: Global, words: &[&str]) -> Result<Vec<String>, AllocError> {
    let mut all = Vec::new(alloc);
    for word in words {
        all.push(String::from_str(alloc, word)?)?;
    }
    Ok(all)
}

fn files_of(alloc: Global, text: &str) -> Result<Vec<(String, Vec<u8>)>, AllocError> {
    let mut contents = Vec::new(alloc);
    contents.push((
        String::from_str(alloc, "f")?,
        Vec::from_slice(alloc, text.as_bytes())?,
    ))?;
    Ok(contents)
}

#[test]
fn words(rt: HostRuntime) -> Result<(), Fail> {
    let alloc = rt.alloc();
    for words in &NO_COMMANDS {
        let words = words_of(alloc, words)?;
        let mut files = MemFiles::new(files_of(alloc, "1")?, Vec::new(alloc));
        let mut input = MemSource::new(Vec::new(alloc), 1, Vec::new(alloc));
        let mut out = MemSink::new(alloc, 7, Vec::new(alloc));
        let report = painless(alloc, words.as_slice(), &mut files, &mut input, &mut out);
        assert_eq!(rt; report.status, Status::Usage);
        assert_eq!(rt; out.bytes().len(), 0);
    }
    Ok(())
}

#[test]
fn commands(rt: HostRuntime) -> Result<(), Fail> {
    let alloc = rt.alloc();
    for row in &ROWS {
        let (command, file, text, written, listing, steps) = *row;
        let words = words_of(alloc, &[command, "f"])?;
        let mut files = SureFiles::new(files_of(alloc, file)?);
        let mut input = SureSource::new(Vec::from_slice(alloc, text.as_bytes())?, 1);
        let mut out = SureSink::new(alloc, 7);
        let report = painless_surely(alloc, words.as_slice(), &mut files, &mut input, &mut out);
        assert_eq!(rt; report.status, Status::Done);
        assert_eq!(rt; out.bytes(), written.as_bytes());
        assert_eq!(rt; report.steps, steps);
        let texts = if listing == "" { 0 } else { 2 };
        assert_eq!(rt; report.listings.len(), texts);
        for (at, shown) in report.listings.iter().enumerate() {
            let same = if at == 0 {
                shown.as_str() == listing
            } else {
                shown.as_str() == PRELUDE
            };
            assert!(rt; same, "{command}");
        }
    }
    Ok(())
}

/// How many documents are made, and what is written. The numbers behind 0 are 12345, 1406932606, 654583775, 1449466924, 229283573,
/// 1109335178, 1051550459, 1293799192, 794471793 and 551188310: in ten documents two have no `n`, and the tags have two units each.
const GENERATED: [(&str, &str); 4] = [
    ("1", "{\"docs\":1,\"errors\":1,\"ok\":0,\"sum\":0}\n"),
    ("2", "{\"docs\":2,\"errors\":1,\"ok\":1,\"sum\":1214}\n"),
    ("3", "{\"docs\":3,\"errors\":2,\"ok\":1,\"sum\":1214}\n"),
    ("10", "{\"docs\":10,\"errors\":2,\"ok\":8,\"sum\":8086}\n"),
];

#[test]
fn documents(rt: HostRuntime) -> Result<(), Fail> {
    let alloc = rt.alloc();
    for row in &GENERATED {
        let (count, written) = *row;
        let words = words_of(alloc, &["gen", count])?;
        let mut files = SureFiles::new(Vec::new(alloc));
        let mut input = SureSource::new(Vec::new(alloc), 1);
        let mut out = SureSink::new(alloc, 7);
        let report = painless_surely(alloc, words.as_slice(), &mut files, &mut input, &mut out);
        assert_eq!(rt; report.status, Status::Done);
        assert_eq!(rt; out.bytes(), written.as_bytes());
        assert_eq!(rt; report.listings.len(), 2);
    }
    Ok(())
}
