//! Listings with what the verifier answers of them.

use allowlist::{Allow, Catalogue};
use pl_code::{Code, listing, read_listing};
use std::alloc::{AllocError, Global};
use std::test::Fail;
use verifier::{VerifyErr, verify};

/// The status of the answer, 0 where the code may run, and its line; what stands behind `fun 0 loop`; and the lines behind it.
const CODES: &str = "\
0:0:R - -:i 6|i 7|mul.i|box int|ret
29:3:R - -:add.i|i 7|mul.i|box int|ret
32:3:R - -:goto 0|i 7|mul.i|box int|ret
30:3:R - -:load 4|i 7|mul.i|box int|ret
31:3:R - -:new java.io.File/1|i 7|mul.i|box int|ret
0:0:R - -:i 1|loop 0|null|ret
0:0:I - I:load 0|ret
0:0:V - -:ret
29:2:V - -:
29:7:I I -:i 1|load 0|ifz 4|i 2|ret
0:0:V - -:j 1|j2i|pop|ret
29:4:V - -:i 1|j2i|pop|ret
0:0:V - -:i 1|i2j|neg.j|pop|ret
29:4:V - -:i 1|neg.j|pop|ret
0:0:V - -:i 1|i2b|i2s|i2c|not.i|pop|ret
29:4:V - -:null|i2b|pop|ret
0:0:V - -:j 1|i 2|shl.j|pop|ret
29:5:V - -:j 1|j 2|shl.j|pop|ret
29:5:V - -:i 1|j 1|ushr.j|pop|ret
0:0:V - -:j 1|j 2|lt.j|neg.i|pop|ret
29:5:V - -:i 1|j 2|eq.j|pop|ret
29:5:V - -:j 1|j 2|xor.i|pop|ret
0:0:V - -:text \"a\"|null|concat|null|same|not.i|pop|ret
29:5:V - -:i 1|null|concat|pop|ret
0:0:V - -:null|null|equal|not.i|pop|ret
29:5:V - -:null|i 1|equal|pop|ret
0:0:V - -:null|null|def.add|def.neg|null|def.lt|not.i|pop|ret
29:5:V - -:null|i 1|def.rem|pop|ret
29:4:V - -:i 1|def.pos|pop|ret
0:0:V - -:i 1|dup|add.i|pop|ret
29:3:V - -:dup|ret
0:0:V - -:i 1|j 1|dup2|neg.j|pop|neg.i|pop|pop|pop|ret
29:4:V - -:i 1|dup2|ret
0:0:V - -:null|i 1|dupx1|i2j|pop|iter|pop|neg.i|pop|ret
29:4:V - -:i 1|dupx1|ret
0:0:V - -:null|j 1|i 1|dupx2|neg.i|pop|neg.j|pop|iter|pop|neg.i|pop|ret
29:5:V - -:j 1|i 1|dupx2|ret
29:3:V - -:pop|ret
0:0:V IJ R:load 0|store 0|load 1|store 1|load 2|store 2|ret
29:4:V IJ R:load 1|store 0|ret
30:3:V IJ R:load 3|pop|ret
29:4:V IJ R:i 1|store 2|ret
30:4:V IJ R:i 1|store 3|ret
0:0:V - -:i 1|box char|unbox long exp|neg.j|pop|ret
29:4:V - -:i 1|box long|pop|ret
29:4:V - -:j 1|unbox int imp|pop|ret
0:0:V - -:null|cast java.util.List imp|isa int[][]|not.i|pop|ret
29:4:V - -:i 1|cast def exp|pop|ret
31:4:V - -:null|cast java.util.Lisst imp|pop|ret
31:4:V - -:null|isa List|pop|ret
31:4:V - -:null|isa void[]|pop|ret
31:4:V - -:null|cast Prelude imp|pop|ret
29:4:V - -:i 1|isa def|pop|ret
0:0:V - -:null|null|list 2|pop|ret
29:5:V - -:null|i 1|list 2|pop|ret
0:0:V - -:map 0|pop|ret
29:4:V - -:null|map 1|pop|ret
0:0:V - -:null|null|map 1|iter|pop|ret
29:3:V - -:list 4294967295|pop|ret
0:0:V - -:j 1|j 2|array long 2|alen|pop|ret
29:4:V - -:i 1|array long 1|pop|ret
31:3:V - -:array java.util.Sett 0|pop|ret
0:0:V - -:i 1|i 2|newarray int[][] 2|alen|pop|ret
30:3:V - -:newarray int[] 0|pop|ret
30:5:V - -:i 1|i 2|newarray int[] 2|pop|ret
31:4:V - -:i 1|newarray a.B[] 1|pop|ret
30:4:V - -:i 1|newarray a.B 1|pop|ret
29:4:V - -:j 1|newarray int[] 1|pop|ret
0:0:V - -:null|i 0|aload long|neg.j|pop|ret
29:5:V - -:null|j 0|aload int|pop|ret
31:5:V - -:null|i 0|aload x.Y|pop|ret
0:0:V - -:null|i 0|j 5|astore long|ret
29:6:V - -:null|i 0|i 5|astore long|ret
29:4:V - -:i 1|alen|pop|ret
0:0:V - -:null|null|getidx|pop|ret
29:5:V - -:null|i 0|getidx|pop|ret
0:0:V - -:null|null|null|putidx|ret
29:5:V - -:null|null|putidx|ret
0:0:V - -:null|getname \"a\"|null|putname \"b\"|ret
29:4:V - -:null|putname \"b\"|ret
29:4:V - -:i 1|getname \"a\"|pop|ret
0:0:V - -:null|null|defcall size 1|pop|ret
29:4:V - -:null|defcall size 1|pop|ret
0:0:V - -:null|i 0|invoke java.util.List.get/1|pop|ret
29:4:V - -:null|invoke java.util.List.get/1|pop|ret
29:5:V - -:i 0|null|invoke java.util.List.get/1|pop|ret
31:4:V - -:null|invoke java.util.ArrayList.size/0|pop|ret
0:0:V - -:null|invoke java.util.Collection.size/0|not.i|pop|ret
31:4:V - -:null|invoke java.util.Collection.size/1|pop|ret
0:0:V - -:i 1|i 2|invoke java.lang.Integer.max/2|not.i|pop|ret
31:3:V - -:invoke java.lang.Integer.MAX_VALUE/0|pop|ret
31:4:V - -:null|invoke Prelude.concat/1|pop|ret
0:0:V - -:null|invoke java.util.Collection.clear/0|alen|pop|ret
0:0:V - -:null|invoke java.util.Map$Entry.getKey/0|pop|ret
31:4:V - -:null|invoke java.util.Map.Entry.getKey/0|pop|ret
0:0:V - -:new java.util.ArrayList/0|pop|ret
0:0:V - -:null|new java.util.ArrayList/1|alen|pop|ret
29:3:V - -:new java.util.ArrayList/1|pop|ret
31:3:V - -:new java.util.List/0|pop|ret
0:0:V - -:field java.lang.Long.MAX_VALUE|neg.j|pop|ret
0:0:V - -:field java.lang.Integer.MAX_VALUE|not.i|pop|ret
31:3:V - -:field java.lang.Integer.max|pop|ret
0:0:V - -:i 1|j 2|call 1|iter|pop|ret|end|fun 1 loop R IJ -|null|ret
29:5:V - -:j 2|i 1|call 1|pop|ret|end|fun 1 loop R IJ -|null|ret
30:3:V - -:call 2|ret
0:0:V - -:call 1|ret|end|fun 1 loop V - -|ret
29:4:V - -:call 1|pop|ret|end|fun 1 loop V - -|ret
0:0:V - -:null|lambda - 1 1|pop|ret|end|fun 1 loop R RR -|null|ret
30:3:V - -:lambda - 1 0|pop|ret|end|fun 1 loop I - -|i 1|ret
30:3:V - -:lambda - 1 0|pop|ret|end|fun 1 loop R I -|null|ret
30:3:V - -:lambda - 1 0|pop|ret|end|fun 1 loop V - -|ret
30:5:V - -:null|null|lambda - 1 2|pop|ret|end|fun 1 loop R R -|null|ret
0:0:V - -:lambda java.util.function.Function 1 0|pop|ret|end|fun 1 loop R R -|null|ret
30:3:V - -:lambda java.util.function.Function 1 0|pop|ret|end|fun 1 loop R RR -|null|ret
30:3:V - -:lambda java.util.function.Function 1 0|pop|ret|end|fun 1 loop R - -|null|ret
31:3:V - -:lambda java.util.List 1 0|pop|ret|end|fun 1 loop R RRR -|null|ret
31:3:V - -:lambda a.B 1 0|pop|ret|end|fun 1 loop R RRR -|null|ret
30:3:V - -:lambda - 2 0|pop|ret
29:4:V - -:i 1|lambda - 1 1|pop|ret|end|fun 1 loop R R -|null|ret
0:0:V - -:ref - java.lang.String length|pop|ret
0:0:V - -:ref java.util.Comparator java.lang.String x|iter|pop|ret
31:3:V - -:ref - java.lang.String[] length|pop|ret
31:3:V - -:ref - int x|pop|ret
31:3:V - -:ref java.util.List java.lang.String x|pop|ret
0:0:V - -:newref - int[]|pop|ret
31:3:V - -:newref java.util.function.Supplier a.B|pop|ret
31:3:V - -:newref java.util.Set java.util.HashSet|pop|ret
0:0:V - -:null|iter|has|not.i|pop|ret
0:0:V - -:null|next|throw
29:4:V - -:i 1|iter|pop|ret
29:4:V - -:i 1|throw
29:4:J - -:i 1|ret
29:3:J - -:ret
0:0:J - -:null|j 1|ret
0:0:V - -:i 1|ifz 3|goto 3|ret
32:3:V - -:goto 0|ret
32:4:V - -:i 1|ifz 1|ret
32:4:V - -:i 1|ifnz 0|ret
32:4:V - -:null|ifnull 1|ret
29:4:V - -:i 1|ifnull 2|ret
29:4:V - -:null|ifnz 2|ret
32:4:V - -:i 1|loop 2|ret
29:3:V - -:loop 0|ret
29:5:V - -:i 1|i 1|loop 0|ret
29:4:V - -:i 1|i 1|loop 1|ret
30:4:V - -:i 1|loop 9|ret
30:3:V - -:goto 5|ret
30:3:V - -:goto 2|ret
29:4:V - -:goto 2|null|ret
29:8:V - -:i 1|ifz 4|i 2|goto 5|null|pop|ret
0:0:V - -:i 1|ifz 4|i 2|goto 5|i 3|pop|ret
29:4:V - -:null|pop
0:0:V - -:i 1|ifz 2|ret
29:4:V - -:ret|ret
30:4:V - -:i 1|ifz 2
0:0:V - -:trap 0 1 1 java.lang.Exception|ret|throw
32:3:V - -:trap 0 0 1 java.lang.Exception|ret|throw
30:3:V - -:trap 0 2 1 java.lang.Exception|ret|throw
32:3:V - -:trap 0 2 1 java.lang.Exception|null|pop|ret
32:3:V - -:trap 1 0 1 java.lang.Exception|ret|throw
31:3:V - -:trap 0 1 1 java.lang.Exeption|ret|throw
30:3:V - -:trap 0 1 5 a.B|ret|throw
31:3:V - -:trap 1 1 1 a.B|ret|throw
0:0:V - -:trap 0 1 1 java.lang.Exception|null|throw
29:5:V - -:trap 0 1 1 java.lang.Exception|i 1|throw
0:0:V - -:trap 0 1 1 java.lang.Exception|trap 0 1 1 java.lang.RuntimeException|ret|throw
0:0:V - -:trap 0 1 1 java.util.List|ret|throw
29:5:V - -:ret|end|fun 1 loop V - -
29:6:V - -:ret|end|fun 1 loop V - -|pop|ret
31:6:V - -:ret|end|fun 1 free V - -|trap 0 0 0 a.B|ret
32:6:V - -:ret|end|fun 1 loop V - -|goto 0
";

fn code_of(alloc: Global, text: &str) -> Result<Option<Code>, AllocError> {
    match read_listing(alloc, text.as_bytes()) {
        Ok(code) => Ok(Some(code)),
        Err(_) => Ok(None),
    }
}

fn status(refused: VerifyErr) -> (u32, u32) {
    match refused {
        VerifyErr::BadShape(line) => (29, line),
        VerifyErr::BadTarget(line) => (30, line),
        VerifyErr::BadMember(line) => (31, line),
        VerifyErr::BackJump(line) => (32, line),
        VerifyErr::NoMemory => (0, 1),
    }
}

fn verified(alloc: Global, allow: &Allow, text: &str) -> Result<(u32, u32), AllocError> {
    match code_of(alloc, text)? {
        None => Ok((27, 0)),
        Some(code) => match verify(alloc, allow, code) {
            Ok(_verified) => Ok((0, 0)),
            Err((_code, refused)) => Ok(status(refused)),
        },
    }
}

fn text_of(alloc: Global, head: &str, lines: &str) -> Result<String, AllocError> {
    let mut text = String::from_str(alloc, "painless 1\nfun 0 loop ")?;
    text.push_str(head)?;
    text.push('\n')?;
    for line in lines.split('|') {
        if !line.is_empty() {
            text.push_str(line)?;
            text.push('\n')?;
        }
    }
    text.push_str("end\n")?;
    Ok(text)
}

fn answers(
    alloc: Global,
    allow: &Allow,
    head: &str,
    lines: &str,
    wanted: (u32, u32),
) -> Result<bool, AllocError> {
    let text = text_of(alloc, head, lines)?;
    let answer = verified(alloc, allow, text.as_str())?;
    Ok(answer.0 == wanted.0 && answer.1 == wanted.1)
}

/// What stands before the first `:`, and what behind it.
fn cut(text: &str) -> (&str, &str) {
    match text.split_once(':') {
        Some((first, rest)) => (first, rest),
        None => (text, ""),
    }
}

fn number(text: &str) -> u32 {
    match text.parse::<u32>() {
        Ok(number) => number,
        Err(_) => 99,
    }
}

fn is_answered(alloc: Global, allow: &Allow, row: &str) -> Result<bool, AllocError> {
    let (status, row) = cut(row);
    let (line, row) = cut(row);
    let (head, lines) = cut(row);
    answers(alloc, allow, head, lines, (number(status), number(line)))
}

#[test]
fn each_code_is_answered(rt: HostRuntime) -> Result<(), Fail> {
    let allow = Catalogue::full(rt.alloc())?;
    for row in CODES.lines() {
        let right = is_answered(rt.alloc(), &allow, row)?;
        assert!(rt; right);
    }
    Ok(())
}

#[test]
fn code_without_functions_has_no_function_0(rt: HostRuntime) -> Result<(), Fail> {
    let allow = Catalogue::full(rt.alloc())?;
    let (status, line) = verified(rt.alloc(), &allow, "painless 1\n")?;
    assert!(rt; status == 30 && line == 1);
    Ok(())
}

#[test]
fn loops_without_a_limit_are_verified_alike(rt: HostRuntime) -> Result<(), Fail> {
    let allow = Catalogue::full(rt.alloc())?;
    let text = "painless 1\nfun 0 free R - -\ni 1\nloop 0\nnull\nret\nend\n";
    let (status, _line) = verified(rt.alloc(), &allow, text)?;
    assert!(rt; status == 0);
    Ok(())
}

const FEW: &str = "class java.util.List {\n  def set(int,def)\n}\n";

/// What is answered under a list that has one member.
const UNDER_FEW: [(&str, &str, (u32, u32)); 4] = [
    (
        "V - -",
        "null|i 0|null|invoke java.util.List.set/2|pop|ret",
        (0, 0),
    ),
    (
        "V - -",
        "null|i 0|invoke java.util.List.get/1|pop|ret",
        (31, 5),
    ),
    ("V - -", "new java.util.ArrayList/0|pop|ret", (31, 3)),
    ("V - -", "null|cast java.util.Map imp|pop|ret", (0, 0)),
];

#[test]
fn members_are_those_of_the_list(rt: HostRuntime) -> Result<(), Fail> {
    let read = Allow::read(rt.alloc(), FEW.as_bytes());
    assert!(rt; read.is_ok());
    if let Ok(allow) = read {
        for (head, lines, wanted) in &UNDER_FEW {
            let right = answers(rt.alloc(), &allow, *head, *lines, *wanted)?;
            assert!(rt; right);
        }
    }
    Ok(())
}

/// The members of the hidden class are named under the prelude's own list alone.
const HIDDEN: &str = "null|null|invoke Prelude.compare/2|not.i|pop|ret";

#[test]
fn the_prelude_names_its_own_class(rt: HostRuntime) -> Result<(), Fail> {
    let prelude = Catalogue::with_prelude(rt.alloc())?;
    let full = Catalogue::full(rt.alloc())?;
    let named = answers(rt.alloc(), &prelude, "V - -", HIDDEN, (0, 0))?;
    let hidden = answers(rt.alloc(), &full, "V - -", HIDDEN, (31, 5))?;
    assert!(rt; named);
    assert!(rt; hidden);
    Ok(())
}

#[test]
fn what_is_handed_back_and_kept_is_the_code(rt: HostRuntime) -> Result<(), Fail> {
    let allow = Catalogue::full(rt.alloc())?;
    let text = "painless 1\nfun 0 loop V - -\nret\nend\n";
    if let Some(code) = code_of(rt.alloc(), text)? {
        if let Ok(verified) = verify(rt.alloc(), &allow, code) {
            let written = listing(rt.alloc(), verified.code())?;
            assert!(rt; written.as_str() == text);
            let kept = verified.allow();
            assert!(rt; kept.member_count() > 0 && kept.allows(0));
            let (code, _) = verified.into_parts();
            let again = listing(rt.alloc(), &code)?;
            assert!(rt; again.as_str() == text);
        }
    }
    Ok(())
}

fn has_frame_words(
    alloc: Global,
    allow: &Allow,
    head: &str,
    lines: &str,
    wanted: usize,
) -> Result<bool, AllocError> {
    let text = text_of(alloc, head, lines)?;
    match code_of(alloc, text.as_str())? {
        None => Ok(false),
        Some(code) => match verify(alloc, allow, code) {
            Ok(verified) => Ok(verified.frame_words() == wanted),
            Err((_code, _refused)) => Ok(false),
        },
    }
}

/// How many words a frame has at most: the locals of its function and the most operands at a line, in the function that has the
/// most of both.
const FRAME_WORDS: [(&str, &str, usize); 7] = [
    ("V - -", "ret", 0),
    ("R - -", "i 6|i 7|mul.i|box int|ret", 2),
    ("V - -", "i 1|j 1|dup2|neg.j|pop|neg.i|pop|pop|pop|ret", 4),
    (
        "V IJ R",
        "load 0|store 0|load 1|store 1|load 2|store 2|ret",
        4,
    ),
    ("V - -", "trap 0 1 1 java.lang.Exception|ret|throw", 1),
    (
        "V - -",
        "i 1|j 2|call 1|iter|pop|ret|end|fun 1 loop R IJ -|null|ret",
        3,
    ),
    ("V - RRR", "call 1|ret|end|fun 1 loop V - -|ret", 3),
];

#[test]
fn a_frame_has_its_locals_and_operands(rt: HostRuntime) -> Result<(), Fail> {
    let allow = Catalogue::full(rt.alloc())?;
    for (head, lines, wanted) in &FRAME_WORDS {
        let right = has_frame_words(rt.alloc(), &allow, *head, *lines, *wanted)?;
        assert!(rt; right);
    }
    Ok(())
}

#[test]
fn long_code_is_verified(rt: HostRuntime) -> Result<(), Fail> {
    let allow = Catalogue::full(rt.alloc())?;
    let mut text = String::from_str(rt.alloc(), "painless 1\nfun 0 loop V - -\n")?;
    for _ in 0..50_000 {
        text.push_str("null\n")?;
    }
    for _ in 0..50_000 {
        text.push_str("pop\n")?;
    }
    text.push_str("ret\nend\n")?;
    let (status, _line) = verified(rt.alloc(), &allow, text.as_str())?;
    assert!(rt; status == 0);
    Ok(())
}
