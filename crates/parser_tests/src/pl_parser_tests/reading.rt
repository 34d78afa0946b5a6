//! How the tests read scripts.

ghost use Rattle.std.specs.Prelude.{IfOk};
ghost use Rattle.pl_grammar.specs.Lexeme.{AllLieIn};

use super::printer::{Detail, printed};
use pl_lexer::{MOST_BYTES, Token, lex};
use pl_parser::parse;
use pl_tree::Tree;
use pl_types::{Fail, TypeNames, rules};
use std::alloc::{AllocError, Global};
use std::process::Abort;

/// Five classes, by their short names.
struct Classes;

impl TypeNames for Classes {
    ghost use Rattle.std.specs.Prelude.{codes, [], ◌∷◌};
    ghost use Rattle.pl_lexer.specs.Tables.{look_up};

    ghost class_of = { λ _ name. look_up name
        ((codes "List", 1) ∷ (codes "Map.Entry", 2) ∷ (codes "Object", 3) ∷ (codes "Exception", 4)
        ∷ (codes "Math", 5) ∷ []) };

    fn class_named(&self, name: &str) -> Option<u32> {
        if name == "List" {
            Some(1)
        } else if name == "Map.Entry" {
            Some(2)
        } else if name == "Object" {
            Some(3)
        } else if name == "Exception" {
            Some(4)
        } else if name == "Math" {
            Some(5)
        } else {
            None
        }
    }
}

#[tactic(auto, using(crate::proofs::Placed::spelled_lie_in))]
fn tokens_of(alloc: Global, text: &str) -> Result<Vec<Token>, Fail>
    ensures { IfOk result (λ tokens. AllLieIn text.now tokens.items) }
{
    lex(alloc, text, &Classes)
}

/// The tree of a script.
pub fn tree_of(rt: &impl Abort, alloc: Global, text: &str) -> Result<Tree, Fail> {
    assert!(rt; text.len() <= MOST_BYTES as usize);
    let tokens = tokens_of(alloc, text)?;
    parse(alloc, text, tokens.as_slice())
}

/// Whether the printer writes the tree of a script so.
fn reads_as(
    rt: &impl Abort,
    alloc: Global,
    detail: Detail,
    text: &str,
    expected: &str,
) -> Result<bool, AllocError> {
    match tree_of(rt, alloc, text) {
        Ok(tree) => {
            let line = printed(alloc, detail, &tree);
            tree.discard();
            let line = line?;
            Ok(line.as_str() == expected)
        }
        Err(_) => Ok(false),
    }
}

/// Whether a script is refused by this rule at this place.
fn is_refused(rt: &impl Abort, alloc: Global, text: &str, number: u8, place: u32) -> bool {
    match tree_of(rt, alloc, text) {
        Ok(tree) => {
            tree.discard();
            false
        }
        Err(Fail::Refused(refusal)) => refusal.number == number && refusal.offset == place,
        Err(Fail::NoMemory) => false,
    }
}

/// Whether a script has so many functions and so many statements.
pub fn has_parts(
    rt: &impl Abort,
    alloc: Global,
    text: &str,
    functions: usize,
    statements: usize,
) -> bool {
    match tree_of(rt, alloc, text) {
        Ok(tree) => {
            let holds = tree.functions.len() == functions && tree.statements.len() == statements;
            tree.discard();
            holds
        }
        Err(_) => false,
    }
}

/// Each script is read so.
pub fn are_read(
    rt: &impl Abort,
    alloc: Global,
    detail: Detail,
    rows: &[(&str, &str)],
) -> Result<(), AllocError> {
    for (text, expected) in rows {
        let holds = reads_as(rt, alloc, detail, text, expected)?;
        assert!(rt; holds, "in {text:?}");
    }
    Ok(())
}

/// Each script has a tree of this shape.
pub fn have_shapes(
    rt: &impl Abort,
    alloc: Global,
    rows: &[(&str, &str)],
) -> Result<(), AllocError> {
    are_read(rt, alloc, Detail::Shape, rows)
}

/// Each script is refused by Syntax at this place.
pub fn are_refused(rt: &impl Abort, alloc: Global, rows: &[(&str, u32)]) {
    for (text, place) in rows {
        let holds = is_refused(rt, alloc, text, rules::SYNTAX, *place);
        assert!(rt; holds, "in {text:?}");
    }
}

/// The first part so many times, the second, and the third so many times.
pub fn nested(
    alloc: Global,
    times: usize,
    parts: (&str, &str, &str),
) -> Result<String, AllocError> {
    let (front, middle, back) = parts;
    let mut text = String::new(alloc);
    for _ in 0..times {
        text.push_str(front)?;
    }
    text.push_str(middle)?;
    for _ in 0..times {
        text.push_str(back)?;
    }
    Ok(text)
}

/// Whether the printer writes a nested script as this nested text.
fn nests(
    rt: &impl Abort,
    alloc: Global,
    times: usize,
    script: (&str, &str, &str),
    shape: (&str, &str, &str),
) -> Result<bool, AllocError> {
    let text = nested(alloc, times, script)?;
    let expected = nested(alloc, times, shape)?;
    reads_as(rt, alloc, Detail::Shape, text.as_str(), expected.as_str())
}

/// Each nested script has a tree of this nested shape.
pub fn nest(
    rt: &impl Abort,
    alloc: Global,
    rows: &[(usize, (&str, &str, &str), (&str, &str, &str))],
) -> Result<(), AllocError> {
    for (times, script, shape) in rows {
        let holds = nests(rt, alloc, *times, *script, *shape)?;
        assert!(rt; holds, "in {times} levels");
    }
    Ok(())
}

/// Each nested script is refused by NestingDeep at this place.
pub fn are_deep(
    rt: &impl Abort,
    alloc: Global,
    rows: &[(usize, (&str, &str, &str), u32)],
) -> Result<(), AllocError> {
    for (times, script, place) in rows {
        let text = nested(alloc, *times, *script)?;
        let holds = is_refused(rt, alloc, text.as_str(), rules::NESTING_DEEP, *place);
        assert!(rt; holds, "at {place}");
    }
    Ok(())
}

/// Many such parts, each nested so many times.
fn blocks_of(
    alloc: Global,
    blocks: usize,
    times: usize,
    parts: (&str, &str, &str),
) -> Result<String, AllocError> {
    let block = nested(alloc, times, parts)?;
    nested(alloc, blocks, (block.as_str(), "", ""))
}

/// Each script is one statement, however deep it is.
pub fn have_one_statement(
    rt: &impl Abort,
    alloc: Global,
    rows: &[(usize, usize, (&str, &str, &str), &str, (&str, &str, &str))],
) -> Result<(), AllocError> {
    for (blocks, times, before, middle, behind) in rows {
        let mut text = blocks_of(alloc, *blocks, *times, *before)?;
        text.push_str(middle)?;
        let back = blocks_of(alloc, *blocks, *times, *behind)?;
        text.push_str(back.as_str())?;
        assert!(rt;
            has_parts(rt, alloc, text.as_str(), 0, 1),
            "in {blocks} blocks"
        );
    }
    Ok(())
}

/// Each list is one statement, however long it is.
pub fn are_one_statement(
    rt: &impl Abort,
    alloc: Global,
    rows: &[(&str, &str, &str)],
) -> Result<(), AllocError> {
    for (opening, part, closing) in rows {
        let mut text = String::new(alloc);
        text.push_str(opening)?;
        let rest = nested(alloc, 2_000, (part, closing, ""))?;
        text.push_str(rest.as_str())?;
        assert!(rt;
            has_parts(rt, alloc, text.as_str(), 0, 1),
            "in many {part:?}"
        );
    }
    Ok(())
}
