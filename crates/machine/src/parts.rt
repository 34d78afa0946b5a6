//! The parts of lists, maps and arrays, and what a method is called with: words off the stack, as the values that they stand for.
ghost use Rattle.std.specs.Prelude.{◌≡◌, ◌≤◌, [], Some, IfOk};
ghost use Rattle.code_meaning.specs.Machine as spec;
ghost use Rattle.code_meaning.specs.Members.{ints_in, references_in, taken_alike};
ghost use Rattle.machine.specs.Members.{filled};
ghost use Rattle.machine.specs.Rows.{beside};
ghost use Rattle.machine.specs.Seen.{with_stack};

use crate::members::take_words;
use crate::receiving::{reference_in, taken};
use code_meaning::Word;
use machine_parts::{Frames, Words};
use object_values::{Elements, Value};
use pl_types::Ty;
use std::alloc::{AllocError, Global};

/// So many words off the stack, the deepest on the top. It is false where there are too few.
pub fn parts_off(frames: &mut Frames, count: usize, taken: &mut Words) -> Result<bool, AllocError>
    ensures words { IfOk result (λ enough. beside frames.new.top.stack (filled enough taken.new.items) ≡ spec.take_words count frames.old.top.stack []) }
    ensures room { (frames.new.count ≤ frames.old.count) × (frames.new.words ≡ frames.old.words) × (frames.new.depth ≡ frames.old.depth) × (taken.new.room ≡ taken.old.room) }
    ensures top { IfOk result (λ enough. frames.new.top ≡ with_stack frames.old.top frames.new.top.stack) }
    ensures below { IfOk result (λ enough. frames.new.below ≡ frames.old.below) }
{
    taken.clear();
    take_words(frames, count, taken)
}

/// Words as references, which they are moved to. It is none where one is a number.
pub fn references_of(
    alloc: Global,
    words: &mut Words,
) -> Result<Option<Elements<Value>>, AllocError>
    ensures exact { IfOk result (λ values. values ≡ references_in words.old.items) }
    ensures room { words.new.room ≡ words.old.room }
{
    let mut values = Elements::new(alloc);
    'words: while let Some(word) = words.pop() {
        match reference_in(word) {
            Some(value) => values.push(value)?,
            None => return Ok(None),
        }
    }
    Ok(Some(values))
}

/// Words as values of a type. It is none where one is of another kind.
pub fn alike_of(
    alloc: Global,
    of: &Ty,
    words: &mut Words,
) -> Result<Option<Elements<Value>>, AllocError>
    ensures exact { IfOk result (λ values. values ≡ taken_alike of.now words.old.items) }
    ensures room { words.new.room ≡ words.old.room }
{
    let mut values = Elements::new(alloc);
    'words: while let Some(word) = words.pop() {
        match taken(of, word) {
            Some(value) => values.push(value)?,
            None => return Ok(None),
        }
    }
    Ok(Some(values))
}

/// Words as ints. It is none where one is no int.
pub fn ints_of(alloc: Global, words: &mut Words) -> Result<Option<Elements<i32>>, AllocError>
    ensures exact { IfOk result (λ numbers. numbers ≡ ints_in words.old.items) }
    ensures room { words.new.room ≡ words.old.room }
{
    let mut numbers = Elements::new(alloc);
    'words: while let Some(word) = words.pop() {
        match &word {
            Word::I(number) => numbers.push(*number)?,
            _ => return Ok(None),
        }
    }
    Ok(Some(numbers))
}
