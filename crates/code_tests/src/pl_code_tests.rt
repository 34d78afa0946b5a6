//! Lines of listings that are read and written, and those that are refused.

use listing_parts::TypeName;
use pl_code::{Code, ListingErr, code_is_formed, listing, read_back, read_listing};
use std::alloc::{AllocError, Global};
use std::test::Fail;

const LINES: [&str; 124] = [
    "null",
    "pop",
    "dup",
    "dup2",
    "dupx1",
    "dupx2",
    "i2j",
    "j2i",
    "i2b",
    "i2s",
    "i2c",
    "concat",
    "same",
    "equal",
    "alen",
    "getidx",
    "putidx",
    "iter",
    "has",
    "next",
    "throw",
    "ret",
    "add.i",
    "add.j",
    "sub.i",
    "sub.j",
    "mul.i",
    "mul.j",
    "div.i",
    "div.j",
    "rem.i",
    "rem.j",
    "and.i",
    "and.j",
    "or.i",
    "or.j",
    "xor.i",
    "xor.j",
    "neg.i",
    "neg.j",
    "not.i",
    "not.j",
    "shl.i",
    "shl.j",
    "shr.i",
    "shr.j",
    "ushr.i",
    "ushr.j",
    "lt.i",
    "lt.j",
    "le.i",
    "le.j",
    "gt.i",
    "gt.j",
    "ge.i",
    "ge.j",
    "eq.i",
    "eq.j",
    "ne.i",
    "ne.j",
    "def.add",
    "def.sub",
    "def.mul",
    "def.div",
    "def.rem",
    "def.and",
    "def.or",
    "def.xor",
    "def.neg",
    "def.not",
    "def.pos",
    "def.shl",
    "def.shr",
    "def.ushr",
    "def.lt",
    "def.le",
    "def.gt",
    "def.ge",
    "i 0",
    "i -1",
    "i 2147483647",
    "i -2147483648",
    "j 9223372036854775807",
    "j -9223372036854775808",
    "text \"\"",
    "text \"a b\"",
    "text \"\\\\ \\\" \\x00\\x0a\\x1f é\"",
    "getname \"size\"",
    "putname \"\"",
    "load 0",
    "store 4294967295",
    "goto 7",
    "ifz 1",
    "ifnz 2",
    "ifnull 3",
    "loop 0",
    "list 2",
    "map 1",
    "call 1",
    "box boolean",
    "box byte",
    "unbox short imp",
    "unbox char exp",
    "unbox int exp",
    "box long",
    "cast java.util.Map$Entry imp",
    "cast int[] exp",
    "isa def",
    "isa String[][]",
    "aload int",
    "astore java.util.List",
    "array def 3",
    "newarray int[][] 2",
    "defcall size 0",
    "defcall new 1",
    "invoke java.util.List.get/1",
    "invoke static_import.f/0",
    "new java.util.ArrayList/0",
    "field java.lang.Integer.MAX_VALUE",
    "lambda - 1 0",
    "lambda java.util.function.Predicate 2 1",
    "ref - java.lang.String length",
    "ref java.util.Comparator a$b.c x",
    "newref - int[]",
];

const THREE: &str = "painless 1
fun 0 loop R IJ R
trap 0 2 3 java.lang.Exception
trap 1 2 4 a$b.C
text \"\\\"a\\\\b\\x09\"
pop
i 1
pop
ret
end
fun 1 free V - -
ret
end
fun 2 free I RRR IJ
end
";

/// Bad listings, and the line at which each is refused.
const BAD: [(&str, u32); 52] = [
    ("", 1),
    ("painless", 1),
    ("painless 1", 1),
    ("painless 01\n", 1),
    ("painless -0\n", 1),
    ("painless  1\n", 1),
    ("painless 1 \n", 1),
    ("painless 1\r\n", 1),
    ("painless x\n", 1),
    ("Painless 9\n", 1),
    ("\n", 1),
    ("painless 1\n\n", 2),
    ("painless 1\nret\n", 2),
    ("painless 1\nend\n", 2),
    ("painless 1\nfun 1 loop I - -\n", 2),
    ("painless 1\nfun 0 both I - -\n", 2),
    ("painless 1\nfun 0 loop X - -\n", 2),
    ("painless 1\nfun 0 loop I  -\n", 2),
    ("painless 1\nfun 0 loop I - \n", 2),
    ("painless 1\nfun 0 loop I I- -\n", 2),
    ("painless 1\nfun 00 loop I - -\n", 2),
    ("painless 1\nfun 0 loop I - -\n", 3),
    ("painless 1\nfun 0 loop I - -\nret", 3),
    ("painless 1\nfun 0 loop I - -\nret\n", 4),
    ("painless 1\nfun 0 loop I - -\nret\nend", 4),
    (
        "painless 1\nfun 0 loop R - -\ni 6\ni 7\nmul.i\nbox int\nret\nen\n",
        8,
    ),
    (
        "painless 1\nfun 0 loop I I -\ni 06\nload 0\nifz 4\ni 2\nret\nend\n",
        3,
    ),
    ("painless 1\nfun 0 loop I - -\nret\nen\n", 4),
    ("painless 1\nfun 0 loop I - -\nend\nfun 0 loop I - -\n", 4),
    ("painless 1\nfun 0 loop I - -\nend\nx", 4),
    ("painless 1\nfun 0 loop I - -\nfun 1 loop I - -\n", 3),
    ("painless 1\nfun 0 loop I - -\nret\ntrap 0 1 1 a\n", 4),
    ("painless 1\nfun 0 loop I - -\ntrap 0 1 1 int\n", 3),
    ("painless 1\nfun 0 loop I - -\ntrap 0 1 a\n", 3),
    ("painless 1\nfun 0 loop I - -\ni 06\n", 3),
    ("painless 1\nfun 0 loop I - -\ni +6\n", 3),
    ("painless 1\nfun 0 loop I - -\ni -0\n", 3),
    ("painless 1\nfun 0 loop I - -\ni 2147483648\n", 3),
    ("painless 1\nfun 0 loop I - -\nj 9223372036854775808\n", 3),
    ("painless 1\nfun 0 loop I - -\nload 4294967296\n", 3),
    ("painless 1\nfun 0 loop I - -\ni  6\n", 3),
    ("painless 1\nfun 0 loop I - -\ni 6 \n", 3),
    ("painless 1\nfun 0 loop I - -\ni 6\r\n", 3),
    ("painless 1\nfun 0 loop I - -\ni\n", 3),
    ("painless 1\nfun 0 loop I - -\nret 1\n", 3),
    ("painless 1\nfun 0 loop I - -\nnop\n", 3),
    ("painless 1\nfun 0 loop I - -\ntext \"a\n", 3),
    ("painless 1\nfun 0 loop I - -\ntext \"\\x20\"\n", 3),
    ("painless 1\nfun 0 loop I - -\ntext \"\\x0A\"\n", 3),
    ("painless 1\nfun 0 loop I - -\ninvoke a.b.if/0\n", 3),
    ("painless 1\nfun 0 loop I - -\ninvoke a$b/0\n", 3),
    ("painless 1\nfun 0 loop I - -\nnew a.b/00\n", 3),
];

const OTHER: [&str; 5] = [
    "painless 9\n",
    "painless 0\nx",
    "painless -5\n",
    "painless 123456789012345678901234567890\n",
    "painless 10",
];

/// The line of the refusal; 0 where there is none, and another number for the others.
fn refusal(read: Result<Code, ListingErr>) -> u32 {
    match read {
        Ok(_code) => 0,
        Err(ListingErr::Syntax(line)) => line,
        Err(ListingErr::Version) => 1_000_000,
        Err(ListingErr::NoMemory) => 2_000_000,
    }
}

fn is_kept(alloc: Global, text: &str) -> Result<bool, AllocError> {
    match read_listing(alloc, text.as_bytes()) {
        Ok(code) => {
            let again = listing(alloc, &code)?;
            Ok(again.as_str() == text)
        }
        Err(_) => Ok(false),
    }
}

/// The same by way of the code that comes back from its listing.
fn is_back(alloc: Global, text: &str) -> Result<bool, AllocError> {
    let Ok(code) = read_listing(alloc, text.as_bytes()) else {
        return Ok(false);
    };
    code_is_formed(&code);
    match read_back(alloc, &code) {
        Ok(back) => Ok(listing(alloc, &back)?.as_str() == text),
        Err(_) => Ok(false),
    }
}

fn with_line(alloc: Global, line: &str) -> Result<String, AllocError> {
    format!(in alloc; "painless 1\nfun 0 loop I - -\n{line}\nend\n")
}

#[test]
fn each_instruction_is_written_and_read(rt: HostRuntime) -> Result<(), Fail> {
    for line in LINES.iter() {
        let text = with_line(rt.alloc(), line)?;
        let kept = is_kept(rt.alloc(), text.as_str())?;
        assert!(rt; kept);
    }
    Ok(())
}

#[test]
fn three_functions_are_written_and_read(rt: HostRuntime) -> Result<(), Fail> {
    let kept = is_kept(rt.alloc(), THREE)?;
    let back = is_back(rt.alloc(), THREE)?;
    assert!(rt; kept);
    assert!(rt; back);
    Ok(())
}

#[test]
fn bad_listings_are_refused_at_their_lines(rt: HostRuntime) {
    for (text, line) in BAD.iter() {
        let refused = refusal(read_listing(rt.alloc(), text.as_bytes()));
        assert!(rt; refused == *line);
    }
}

#[test]
fn other_versions_are_refused(rt: HostRuntime) {
    for text in OTHER.iter() {
        let refused = refusal(read_listing(rt.alloc(), text.as_bytes()));
        assert!(rt; refused == 1_000_000);
    }
}

/// The line in which a text ends, an empty one counted.
fn last_line(bytes: &[u8]) -> u32 {
    let mut line: u32 = 1;
    for byte in bytes {
        if *byte == b'\n' {
            line = line.saturating_add(1);
        }
    }
    line
}

#[test]
fn a_file_that_is_cut_is_refused_where_it_ends(rt: HostRuntime) {
    let bytes = THREE.as_bytes();
    for end in 0..bytes.len() {
        let front = &bytes[..end];
        let refused = refusal(read_listing(rt.alloc(), front));
        let is_whole = front.ends_with(b"end\n".as_slice()) || front == b"painless 1\n".as_slice();
        let wanted = if is_whole { 0 } else { last_line(front) };
        assert!(rt; refused == wanted);
    }
}

#[test]
fn bytes_that_are_no_text_are_refused(rt: HostRuntime) {
    let bytes = b"painless 1\nfun 0 loop I - -\ntext \"\xff\"\nend\n";
    assert!(rt; refusal(read_listing(rt.alloc(), bytes.as_slice())) == 3);
}

#[test]
fn a_long_listing_is_read(rt: HostRuntime) -> Result<(), Fail> {
    let mut text = String::from_str(rt.alloc(), "painless 1\nfun 0 loop I - -\n")?;
    for _ in 0..100_000 {
        text.push_str("invoke java.util.List.get/1\n")?;
    }
    text.push_str("end\n")?;
    let kept = is_kept(rt.alloc(), text.as_str())?;
    assert!(rt; kept);
    Ok(())
}

#[test]
fn a_name_is_made_only_of_its_form(rt: HostRuntime) -> Result<(), Fail> {
    let right = TypeName::new(rt.alloc(), "java.util.List[]")?;
    let wrong = TypeName::new(rt.alloc(), "java..List")?;
    assert!(rt; right.is_some());
    assert!(rt; wrong.is_none());
    Ok(())
}
