//! How tables over pairs of types are gone over.

use super::pairs::{LETTERS, TYPES};
use super::reading::Reader;
use pl_types::classes::CLASS_COUNT;
use pl_types::rules::{BAD_CAST, BAD_NULLABLE, BAD_OPERAND};
use pl_types::{Fail, Refusal, Ty, class_short, primitive_word};
use std::alloc::{AllocError, Global};
use std::process::Abort;
use typed_tree::{Node, Operation, Program, StatementNode, Typed};

/// A script, and where the `@`, the last `x` and the last `y` stood in what it was made from.
#[derive(Drop)]
struct Script {
    text: String,
    mark: usize,
    x: usize,
    y: usize,
}

/// What is made from a form: the types stand for `X` and `Y`.
fn script_of(alloc: Global, form: &str, left: &str, right: &str) -> Result<Script, AllocError> {
    let mut text = String::new(alloc);
    let (mut mark, mut x, mut y) = (0, 0, 0);
    for sign in form.chars() {
        let place = text.len();
        match sign {
            'X' => text.push_str(left)?,
            'Y' => text.push_str(right)?,
            '@' => mark = place,
            _ => text.push(sign)?,
        }
        if sign == 'x' {
            x = place;
        }
        if sign == 'y' {
            y = place;
        }
    }
    Ok(Script { text, mark, x, y })
}

fn type_name(of: &Ty) -> &'static str {
    match of {
        Ty::Prim(primitive) => primitive_word(*primitive),
        Ty::Class(class) if *class < CLASS_COUNT => class_short(*class),
        Ty::Def => "def",
        _ => "",
    }
}

fn letter_of(name: &str) -> u8 {
    for (other, letter) in TYPES.split(' ').zip(LETTERS.bytes()) {
        if other == name {
            return letter;
        }
    }
    b'.'
}

/// The type below a cast.
fn type_below(value: &Typed) -> &Ty {
    let Node::Apply {
        operation: Operation::Cast(_),
        parts,
    } = &value.node
    else {
        return &value.of;
    };
    match parts.get(0) {
        Some(part) => &part.get().of,
        None => &value.of,
    }
}

/// The type of what the first function returns, before it is cast to the function's own.
fn returned(program: &Program) -> Option<&Ty> {
    let function = program.functions.get(0)?;
    let statement = function.body.get(0)?;
    match &statement.get().node {
        StatementNode::Return(Some(value)) => Some(type_below(value.get())),
        _ => None,
    }
}

fn typed_letter(program: &Program) -> u8 {
    match returned(program) {
        Some(of) => letter_of(type_name(of)),
        None => b'.',
    }
}

fn letter_at_mark(number: u8) -> u8 {
    match number {
        BAD_CAST => b'x',
        BAD_OPERAND => b'-',
        BAD_NULLABLE => b'!',
        _ => b'.',
    }
}

fn refused_letter(refusal: Refusal, script: &Script) -> u8 {
    let place = refusal.offset as usize;
    if place == script.mark {
        return letter_at_mark(refusal.number);
    }
    if refusal.number != BAD_CAST {
        return b'.';
    }
    if place == script.x {
        b'<'
    } else if place == script.y {
        b'>'
    } else {
        b'.'
    }
}

/// Whether typing answers what a letter says.
fn answers(answer: Result<Program, Fail>, script: &Script, letter: u8) -> bool {
    match answer {
        Ok(program) => letter == b'=' || letter == typed_letter(&program),
        Err(Fail::Refused(refusal)) => letter == refused_letter(refusal, script),
        Err(Fail::NoMemory) => false,
    }
}

/// A form over a type on the left and each type on the right.
fn row_holds(
    rt: &impl Abort,
    reader: &Reader,
    form: &str,
    left: &str,
    letters: &str,
) -> Result<(), AllocError> {
    for (right, letter) in TYPES.split(' ').zip(letters.bytes()) {
        let script = script_of(reader.alloc(), form, left, right)?;
        let text = script.text.as_str();
        let holds = answers(reader.program(rt, text), &script, letter);
        assert!(rt; holds, "{text:?}");
    }
    Ok(())
}

/// A form over the rows of a block: `TYPES: LETTERS`.
fn rows_hold(rt: &impl Abort, reader: &Reader, form: &str, rows: &str) -> Result<(), AllocError> {
    for row in rows.lines() {
        let (types, letters) = row.split_once(": ").unwrap_or(("", row));
        for left in types.split(' ') {
            row_holds(rt, reader, form, left, letters)?;
        }
    }
    Ok(())
}

/// A block over its forms, which stand between the two ends of a frame.
fn block_holds(
    rt: &impl Abort,
    reader: &Reader,
    frame: (&str, &str),
    block: &str,
) -> Result<(), AllocError> {
    let (forms, rows) = block.split_once('\n').unwrap_or((block, ""));
    let (before, behind) = frame;
    for form in forms.split(';') {
        let form = format!(in reader.alloc(); "{before}{form}{behind}")?;
        rows_hold(rt, reader, form.as_str(), rows)?;
    }
    Ok(())
}

/// Typing answers what each letter of a table says, whose blocks stand between the two ends of a frame.
pub fn table_holds(
    rt: &impl Abort,
    reader: &Reader,
    frame: (&str, &str),
    table: &str,
) -> Result<(), AllocError> {
    for block in table.split('#') {
        block_holds(rt, reader, frame, block)?;
    }
    Ok(())
}
