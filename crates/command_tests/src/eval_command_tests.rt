//! The worked rows of `eval`: scripts, files and sinks, with the exact bytes and statuses.
ghost use Rattle.std.specs.Prelude.{◌≤◌};

use command_parts::{Report, Status};
use eval_command::eval as eval_file;
use outer_io::{MemFiles, MemSink};
use std::alloc::{AllocError, Global};
use std::process::Abort;
use std::test::Fail;

/// What is written to a sink that is given `most` bytes a call and fails at the calls in `sink_fails`, and the report,
/// for the file of a name among the one file `script`, where the files fail at the calls in `file_fails`.
fn report(
    alloc: Global,
    name: &str,
    script: &[u8],
    most: usize,
    sink_fails: &[u64],
    file_fails: &[u64],
) -> Result<(Vec<u8>, Report), AllocError>
    requires { 1 ≤ most }
{
    let mut contents = Vec::new(alloc);
    contents.push((
        String::from_str(alloc, "script")?,
        Vec::from_slice(alloc, script)?,
    ))?;
    let mut files = MemFiles::new(contents, Vec::from_slice(alloc, file_fails)?);
    let mut out = MemSink::new(alloc, most, Vec::from_slice(alloc, sink_fails)?);
    let report = eval_file(alloc, name, &mut files, &mut out);
    Ok((Vec::from_slice(alloc, out.bytes())?, report))
}

/// The same with the status alone.
fn run(
    alloc: Global,
    name: &str,
    script: &[u8],
    most: usize,
    sink_fails: &[u64],
    file_fails: &[u64],
) -> Result<(Vec<u8>, Status), AllocError>
    requires { 1 ≤ most }
{
    let (bytes, report) = report(alloc, name, script, most, sink_fails, file_fails)?;
    Ok((bytes, report.status))
}

fn eval(alloc: Global, script: &[u8]) -> Result<(Vec<u8>, Status), AllocError> {
    run(alloc, "script", script, 4096, &[], &[])
}

fn refused(alloc: Global, name: &str, number: u8, offset: u32) -> Result<String, AllocError> {
    format!(in alloc;
        "{{\"refused\":{{\"name\":\"{name}\",\"number\":{number},\"offset\":{offset}}}}}\n"
    )
}

/// Whether a script is answered by this line, and with this status.
fn answers(alloc: Global, script: &[u8], line: &str, status: Status) -> Result<bool, AllocError> {
    let answer = eval(alloc, script)?;
    Ok(answer.0.as_slice() == line.as_bytes() && answer.1 == status)
}

/// Each script is replied to so, without an error or with one.
fn are_replied_to(
    rt: &impl Abort,
    alloc: Global,
    rows: &[(&str, &str)],
    status: Status,
) -> Result<(), AllocError> {
    for (script, reply) in rows {
        let line = format!(in alloc; "{reply}\n")?;
        let good = answers(alloc, script.as_bytes(), line.as_str(), status)?;
        assert!(rt; good, "{script}");
    }
    Ok(())
}

/// The script is refused by the rule of this name and number, at the place.
fn is_refused(
    rt: &impl Abort,
    alloc: Global,
    script: &str,
    name: &str,
    number: u8,
    offset: u32,
) -> Result<(), AllocError> {
    let line = refused(alloc, name, number, offset)?;
    let good = answers(alloc, script.as_bytes(), line.as_str(), Status::Refused)?;
    assert!(rt; good, "{script}");
    Ok(())
}

/// Each script is refused by this rule, at its place.
fn are_refused(
    rt: &impl Abort,
    alloc: Global,
    name: &str,
    number: u8,
    rows: &[(&str, u32)],
) -> Result<(), AllocError> {
    for (script, offset) in rows {
        is_refused(rt, alloc, script, name, number, *offset)?;
    }
    Ok(())
}

/// The script is replied to with this whole number.
fn is_worth(rt: &impl Abort, alloc: Global, script: &str, value: i32) -> Result<(), AllocError> {
    let line = format!(in alloc; "{{\"result\":{value}}}\n")?;
    let good = answers(alloc, script.as_bytes(), line.as_str(), Status::Done)?;
    assert!(rt; good, "{script}");
    Ok(())
}

#[test]
fn arithmetic(rt: HostRuntime) -> Result<(), Fail> {
    are_replied_to(
        &rt,
        rt.alloc(),
        &[
            ("1+2*3", "{\"result\":7}"),
            ("8-3-2", "{\"result\":3}"),
            ("2147483647 + 1", "{\"result\":-2147483648}"),
            ("-2147483648", "{\"result\":-2147483648}"),
            ("- 2147483648", "{\"result\":-2147483648}"),
            ("-2147483648 / -1", "{\"result\":-2147483648}"),
            ("-2147483648 % -1", "{\"result\":0}"),
            ("7 % -3", "{\"result\":1}"),
            ("-7 / 2", "{\"result\":-3}"),
            ("-7 % 2", "{\"result\":-1}"),
            ("2 * (3 + 4)", "{\"result\":14}"),
            ("- -1", "{\"result\":1}"),
            ("1- -1", "{\"result\":2}"),
            ("\t1\r\n+ 1 ", "{\"result\":2}"),
            ("65536 * 65536", "{\"result\":0}"),
            ("0x1F + 010", "{\"result\":39}"),
            ("1 + 2;", "{\"result\":3}"),
            ("((2)) * (3);", "{\"result\":6}"),
            ("-0X80000000", "{\"result\":-2147483648}"),
            ("100 / 5 / 2 * 3 % 4 - 1 + 2", "{\"result\":3}"),
        ],
        Status::Done,
    )?;
    Ok(())
}

#[test]
fn statements_and_functions(rt: HostRuntime) -> Result<(), Fail> {
    are_replied_to(
        &rt,
        rt.alloc(),
        &[
            ("int x = 7; x <<= 33; x", "{\"result\":14}"),
            ("long y = 1; y << 33", "{\"result\":8589934592}"),
            ("(char)65601", "{\"result\":\"A\"}"),
            ("byte b = (byte)200; b", "{\"result\":-56}"),
            ("byte b = 127; b", "{\"result\":127}"),
            (
                "int f(int n) { return n == 0 ? 0 : f(n-1) + 1 } f(255)",
                "{\"result\":255}",
            ),
            (
                "int s = 0; for (int i = 0; i < 5; i++) { s += i } s",
                "{\"result\":10}",
            ),
            (
                "int g() { int s = 0; for (int i = 0; i < 600000; i++) { s = 3 } return s } int h() { int s = 0; for (int i = 0; i < 600000; i++) { s = 3 } return s } g() + h()",
                "{\"result\":6}",
            ),
            ("true", "{\"result\":true}"),
            ("1 < 2 && !(2 < 1)", "{\"result\":true}"),
            ("-9223372036854775808L", "{\"result\":-9223372036854775808}"),
            ("(char)55296", "{\"result\":\"\u{fffd}\"}"),
            ("(char)34", "{\"result\":\"\\\"\"}"),
            ("return 1", "{\"result\":1}"),
            ("int x; x", "{\"result\":0}"),
            ("int x = 1;", "{\"result\":null}"),
            ("void f() { return; } f()", "{\"result\":null}"),
            ("int i = 5; i = i++ + ++i; i", "{\"result\":12}"),
            (
                "int x = 0; while (x < 10) { if (x == 7) { break } x++ } x",
                "{\"result\":7}",
            ),
            (
                "int s = 0; for (int i = 0; i < 9; ++i) { if (i % 2 == 0) { continue } s += i } s",
                "{\"result\":16}",
            ),
            ("int x = 3; do { x-- } while (x > 0); x", "{\"result\":0}"),
        ],
        Status::Done,
    )?;
    Ok(())
}

#[test]
fn errors(rt: HostRuntime) -> Result<(), Fail> {
    let alloc = rt.alloc();
    let line =
        "{\"error\":{\"class\":\"ArithmeticException\",\"kind\":\"thrown\",\"message\":\"/ by zero\"}}";
    for script in &[
        "1/0",
        "1 % 0",
        "1/0*(1/0)",
        "(1 - 1 / 0) * 2147483647",
        "-(1 / (2 - 2))",
        "long f(int n) { return n == 0 ? 1L / n : f(n - 1) } f(3)",
    ] {
        are_replied_to(&rt, alloc, &[(*script, line)], Status::SomeErrors)?;
    }
    are_replied_to(
        &rt,
        alloc,
        &[
            ("for (;;) {}", "{\"error\":{\"kind\":\"limit-loop\"}}"),
            (
                "int f() { return f() } f()",
                "{\"error\":{\"kind\":\"limit-depth\"}}",
            ),
            (
                "int f(int n) { return n == 0 ? 0 : f(n-1) + 1 } f(256)",
                "{\"error\":{\"kind\":\"limit-depth\"}}",
            ),
        ],
        Status::SomeErrors,
    )?;
    Ok(())
}

#[test]
fn nothing(rt: HostRuntime) -> Result<(), Fail> {
    let alloc = rt.alloc();
    for script in &[
        "",
        " \n ",
        "// nothing",
        "/* nothing */",
        "// nothing\n/* at all */\n",
    ] {
        are_replied_to(&rt, alloc, &[(*script, "{\"result\":null}")], Status::Done)?;
    }
    Ok(())
}

#[test]
fn faults_of_tokens(rt: HostRuntime) -> Result<(), Fail> {
    let alloc = rt.alloc();
    are_refused(
        &rt,
        alloc,
        "BadToken",
        1,
        &[
            ("1#2", 1),
            ("1 + /* 2", 4),
            // A fault of the tokens is told before one of the grammar, and before a literal's.
            ("1 + # + 2147483648", 4),
            (") #", 2),
        ],
    )?;
    for (script, offset) in [
        (b"1+\xff".as_slice(), 2),
        (b"\xc3".as_slice(), 0),
        (b"1 \xe2\x82 #".as_slice(), 2),
        // U+20AC is text, and begins no token.
        (b"1 + \xe2\x82\xac".as_slice(), 4),
    ] {
        let line = refused(alloc, "BadToken", 1, offset)?;
        let good = answers(alloc, script, line.as_str(), Status::Refused)?;
        assert!(rt; good);
    }
    Ok(())
}

#[test]
fn places_of_syntax(rt: HostRuntime) -> Result<(), Fail> {
    let alloc = rt.alloc();
    are_refused(
        &rt,
        alloc,
        "Syntax",
        2,
        &[
            // More is wanted than there is.
            ("int x = ", 8),
            ("1+", 2),
            ("2147483648 +", 12),
            ("(1", 2),
            ("if", 2),
            ("if (1) ", 7),
            ("x.", 2),
            ("x?.", 3),
            ("[1,", 3),
            ("[:", 2),
            ("new", 3),
            ("new int", 7),
            ("f(", 2),
            ("f(x ->", 6),
            ("f(List::", 8),
            ("1 ? 2", 5),
            ("x instanceof", 12),
            ("try {}", 6),
            ("x[]", 3),
            // No script begins so.
            (")", 0),
            ("else", 0),
            ("->", 0),
            ("::", 0),
            (";", 0),
            ("this", 0),
            ("{ 1 }", 0),
            // A script goes on otherwise.
            ("1 2", 2),
            ("1)", 1),
            ("1 +* 2", 3),
            ("(1;)", 2),
            ("()", 1),
            ("x ->", 2),
            ("(x) y", 4),
            ("(int x) -> 1", 5),
            ("x[] = 1", 4),
            ("a b c", 4),
            ("do 1", 3),
            ("for (int i = 0; ) ", 16),
            ("new int[] {1,2,}", 15),
            // `--` is one token, and steps the literal before it.
            ("1--1", 3),
            // What begins with a zero and is no literal is two tokens.
            ("08", 1),
            ("0x", 1),
            // A statement before another ends with its `;`, in front of `else` too; a block's last need not.
            ("if (1) { 1 2 }", 11),
            ("if (1) 1 else 2", 9),
            ("if (1) { if (1) 1 }", 18),
            // No statement is empty.
            ("if (1) {};", 9),
            // Functions come first.
            ("1; int f() {}", 8),
            // The first fault counts.
            ("1 +* 2 )", 3),
            (") 1 2", 0),
            ("(1;) else", 2),
        ],
    )?;
    Ok(())
}

#[test]
fn literals_out_of_range(rt: HostRuntime) -> Result<(), Fail> {
    let alloc = rt.alloc();
    are_refused(
        &rt,
        alloc,
        "LiteralRange",
        18,
        &[
            ("2147483648", 0),
            ("1 + 99999999999999999999", 4),
            ("-(2147483648)", 2),
            ("- -2147483649", 3),
            ("2147483648 + 2147483649", 0),
            ("0x80000000", 0),
            // What is not built is refused once its parts are not.
            ("+2147483648", 1),
            ("1 << 2147483648", 5),
            ("(int)2147483648", 5),
            ("int x = 2147483648;", 8),
            ("return 2147483648", 7),
            ("f(x -> 2147483648)", 7),
            ("[1, 2147483648]", 4),
            ("[1:2147483648]", 3),
            ("while (2147483648);", 7),
            ("2147483648; x", 0),
        ],
    )?;
    Ok(())
}

#[test]
fn nodes_that_are_not_built(rt: HostRuntime) -> Result<(), Fail> {
    are_refused(
        &rt,
        rt.alloc(),
        "OutOfProfile",
        19,
        &[
            ("1.5", 0),
            ("f(x -> 1)", 2),
            ("f((x, y) -> 1)", 2),
            ("f(this::g)", 2),
            ("f(List::size)", 2),
            ("f(int[]::new)", 2),
        ],
    )?;
    Ok(())
}

#[test]
fn types(rt: HostRuntime) -> Result<(), Fail> {
    let alloc = rt.alloc();
    for (script, name, number, offset) in &[
        ("x", "UnknownVariable", 4, 0),
        ("y = 1", "UnknownVariable", 4, 0),
        ("x + 2147483648", "UnknownVariable", 4, 0),
        ("(x)-1", "UnknownVariable", 4, 1),
        ("for (x in l) { }", "UnknownVariable", 4, 10),
        ("int x = 1; int x = 2", "AlreadyDefined", 5, 15),
        ("a b", "UnknownType", 6, 0),
        ("Foo x", "UnknownType", 6, 0),
        ("f(1)", "UnknownFunction", 8, 0),
        ("g(1)", "UnknownFunction", 8, 0),
        ("byte b = 200; b", "BadCast", 9, 9),
        ("while (1);", "BadCast", 9, 7),
        ("if (1) 1; else 2", "BadCast", 9, 4),
        ("do {} while (1)", "BadCast", 9, 13),
        ("1 ? 2 : 3", "BadCast", 9, 0),
        ("!1", "BadCast", 9, 1),
        ("1 < true", "BadOperand", 10, 2),
        ("1; 2", "NotAStatement", 11, 0),
        ("while (true) { } 1", "Unreachable", 12, 17),
        (
            "int f(int n) { if (n > 0) { return 1 } } f(1)",
            "MissingReturn",
            13,
            4,
        ),
        ("break", "BadJump", 14, 0),
        ("1 = 2", "NotAssignable", 15, 2),
        ("1++", "NotAssignable", 15, 0),
    ] {
        is_refused(&rt, alloc, *script, *name, *number, *offset)?;
    }
    Ok(())
}

#[test]
fn brackets(rt: HostRuntime) -> Result<(), Fail> {
    let alloc = rt.alloc();
    for (open, inside, shut, times, value) in &[
        ("(", "1", ")", 200, 1),
        ("true?1:(", "2", ")", 199, 1),
    ] {
        let script = nested(alloc, *open, *inside, *shut, *times)?;
        is_worth(&rt, alloc, script.as_str(), *value)?;
    }
    for (open, inside, shut, times, name, number, offset) in &[
        ("(", "1", ")", 201, "NestingDeep", 3, 200),
        ("[", "1", "]", 201, "NestingDeep", 3, 200),
        // No script begins with a block.
        ("{", "1", "}", 200, "Syntax", 2, 0),
        ("{", "1", "}", 201, "NestingDeep", 3, 200),
        ("while(1){", "1", "}", 200, "BadCast", 9, 6),
        ("while(1){", "1", "}", 201, "NestingDeep", 3, 1805),
        ("if(true){", "1", "}", 200, "NotAStatement", 11, 1800),
        ("([", "1", "])", 101, "NestingDeep", 3, 200),
        ("[f(()->{", "((1))", "})]", 66, "NotAStatement", 11, 528),
        ("[f(x->{", "1", "})]", 66, "AlreadyDefined", 5, 10),
        ("[f(x->{", "1", "})]", 67, "NestingDeep", 3, 468),
        // Near both bounds at once, where productions nest deepest.
        ("x=-(", "1", ")", 200, "UnknownVariable", 4, 0),
        ("x?x:(", "1", ")", 199, "UnknownVariable", 4, 0),
    ] {
        let script = nested(alloc, *open, *inside, *shut, *times)?;
        is_refused(&rt, alloc, script.as_str(), *name, *number, *offset)?;
    }
    Ok(())
}

#[test]
fn reach(rt: HostRuntime) -> Result<(), Fail> {
    let alloc = rt.alloc();
    for (front, part, times, behind, value) in &[
        // A reach of 1,000: of one level, of two, and of signs that nest.
        ("-1", "+1", 499, "", 498),
        ("(1", "+1", 499, ")", 500),
        ("", "- ", 999, "1", -1),
        // A closing bracket ends its level.
        ("(1)", "+(1)", 300, "", 301),
        // What ends a statement begins a share anew.
        ("int a;", "a++;", 10_000, "a", 10_000),
        ("int a;", "if(true){a++}", 2000, "a", 2000),
    ] {
        let script = repeated(alloc, *front, *part, *times, *behind)?;
        is_worth(&rt, alloc, script.as_str(), *value)?;
    }
    for (front, part, times, behind, name, number, offset) in &[
        ("1", "+1", 500, "", "NestingDeep", 3, 1000),
        ("1", "+1", 499, "+", "Syntax", 2, 1000),
        ("(1", "+1", 500, ")", "NestingDeep", 3, 1000),
        ("", "- ", 1000, "1", "NestingDeep", 3, 2000),
        // So do commas.
        ("int a", ",a", 2000, "", "AlreadyDefined", 5, 6),
        ("", "1;", 20_000, "", "NotAStatement", 11, 0),
        ("", "int f(){}", 6000, "", "AlreadyDefined", 5, 13),
        // What `else` follows does not. This is a reach of 1,000, and these are of 1,001.
        ("", "if(1)1;else ", 166, "if(1)1", "BadCast", 9, 3),
        ("", "if(1)1;else ", 166, "if(1)1;", "NestingDeep", 3, 1998),
        ("", "if(1){}else ", 166, "if(1){}", "NestingDeep", 3, 1998),
        // Nesting is told before the grammar, and tokens before both.
        (")", "(", 201, "", "NestingDeep", 3, 201),
        (")", "(", 201, "#", "BadToken", 1, 202),
    ] {
        let script = repeated(alloc, *front, *part, *times, *behind)?;
        is_refused(&rt, alloc, script.as_str(), *name, *number, *offset)?;
    }
    Ok(())
}

/// A front, a part so many times, and what stands behind.
fn repeated(
    alloc: Global,
    front: &str,
    part: &str,
    times: usize,
    behind: &str,
) -> Result<String, AllocError> {
    let parts = part.repeat(alloc, times)?;
    let middle = parts.as_str();
    format!(in alloc; "{front}{middle}{behind}")
}

/// What stands inside, between so many openings and as many closings.
fn nested(
    alloc: Global,
    open: &str,
    inside: &str,
    shut: &str,
    times: usize,
) -> Result<String, AllocError> {
    let openings = open.repeat(alloc, times)?;
    let closings = shut.repeat(alloc, times)?;
    let front = openings.as_str();
    let behind = closings.as_str();
    format!(in alloc; "{front}{inside}{behind}")
}

#[test]
fn files(rt: HostRuntime) -> Result<(), Fail> {
    let alloc = rt.alloc();
    for name in ["scrip", ""] {
        let absent = run(alloc, name, b"1", 4096, &[], &[])?;
        assert!(rt; absent.1 == Status::FileAbsent);
        assert_eq!(rt; absent.0.len(), 0);
    }
    let failed = run(alloc, "script", b"1", 4096, &[], &[1])?;
    assert_eq!(rt; failed.1, Status::FileFault);
    assert_eq!(rt; failed.0.len(), 0);
    Ok(())
}

#[test]
fn the_limit_of_a_file(rt: HostRuntime) -> Result<(), Fail> {
    let alloc = rt.alloc();
    let blanks = vec![in alloc; b' '; 1_048_577]?;
    let long = eval(alloc, blanks.as_slice())?;
    assert_eq!(rt; long.1, Status::FileLong);
    assert_eq!(rt; long.0.len(), 0);
    // A file of the limit's size is read, and then its text is too large for a script.
    let most = eval(alloc, blanks.as_slice().split_at(1_048_576).0)?;
    assert_eq!(rt; most.1, Status::Refused);
    let line = refused(alloc, "TooLarge", 20, 65_535)?;
    assert_eq!(rt; most.0.as_slice(), line.as_bytes());
    let large = eval(alloc, blanks.as_slice().split_at(65_536).0)?;
    assert_eq!(rt; large.1, Status::Refused);
    assert_eq!(rt; large.0.as_slice(), line.as_bytes());
    let largest = eval(alloc, blanks.as_slice().split_at(65_535).0)?;
    assert_eq!(rt; largest.1, Status::Done);
    assert_eq!(rt; largest.0.as_slice(), b"{\"result\":null}\n".as_slice());
    Ok(())
}

#[test]
fn sinks(rt: HostRuntime) -> Result<(), Fail> {
    let alloc = rt.alloc();
    let failed = run(alloc, "script", b"1", 4096, &[1], &[])?;
    assert_eq!(rt; failed.1, Status::WriteFault);
    assert_eq!(rt; failed.0.len(), 0);
    let one_by_one = run(alloc, "script", b"1+2*3", 1, &[], &[])?;
    assert_eq!(rt; one_by_one.1, Status::Done);
    assert_eq!(rt; one_by_one.0.as_slice(), b"{\"result\":7}\n".as_slice());
    let cut = run(alloc, "script", b"1", 4, &[3], &[])?;
    assert_eq!(rt; cut.1, Status::WriteFault);
    assert_eq!(rt; cut.0.as_slice(), b"{\"result".as_slice());
    Ok(())
}

#[test]
fn reports(rt: HostRuntime) -> Result<(), Fail> {
    let alloc = rt.alloc();
    for (script, listing, steps) in &[
        (
            "1+2",
            "painless 1\nfun 0 loop R - -\ni 1\ni 2\nadd.i\nbox int\nret\nend\n",
            5,
        ),
        (
            "1/0",
            "painless 1\nfun 0 loop R - -\ni 1\ni 0\ndiv.i\nbox int\nret\nend\n",
            3,
        ),
        // Two instructions of each turn, of which one is one too many, and the one before them.
        (
            "while (true) { }",
            "painless 1\nfun 0 loop R - -\ngoto 1\ni 1\nloop 1\nnull\nret\nend\n",
            2_000_003,
        ),
    ] {
        let answer = report(alloc, "script", script.as_bytes(), 4096, &[], &[])?;
        assert!(rt; answer.1.steps == *steps, "{script}");
        assert_eq!(rt; answer.1.listings.len(), 2);
        for (at, text) in answer.1.listings.iter().enumerate() {
            let same = if at == 0 {
                text.as_str() == *listing
            } else {
                text.as_str() == "painless 1\nfun 0 free V - -\nret\nend\n"
            };
            assert!(rt; same, "{script}");
        }
    }
    for (name, script) in [("script", "1 +"), ("none", "1")] {
        let answer = report(alloc, name, script.as_bytes(), 4096, &[], &[])?;
        assert_eq!(rt; answer.1.listings.len(), 0);
        assert_eq!(rt; answer.1.steps, 0);
    }
    Ok(())
}
