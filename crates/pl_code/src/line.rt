//! One line of a listing.

ghost use Rattle.std.specs.Prelude.{◌≡◌, IfOk, Some, None, if◌then◌else◌};
ghost use Rattle.pl_code.specs.Reading.{next};
ghost use Rattle.listing_parts.specs.Split.{both};
ghost use Rattle.listing_parts.specs.Names.{formed, is_class, is_type, is_word};
ghost use Rattle.pl_code.specs.Lines.{number_of, loops_of, result_of, slots_of, interface_of, numbered_of, int_of, long_of, quoted_of, boxing_of, unboxing_of, cast_of, typed_of, sized_of, defcall_of, invoke_of, new_of, field_of, lambda_of, ref_of, newref_of, header_of, trap_of, operand_line, bare_line, line_of};

use crate::code::{Instruction, Trap};
use crate::fields::{interface_of, loops_of, primitive_of, result_of, slots_of, way_of};
use crate::head::{Head, head_of};
use crate::kinds::{Numbered, Quoting, Sized, Slot, Typed};
use crate::reading::Reading;
use listing_parts::{
    ClassName, ConstructorName, FieldName, MethodName, TypeName, Word, count, int, long, natural,
    split_at_blank, unquoted,
};
use plain_data::Items;
use std::alloc::{AllocError, Global};

/// The line `fun`.
#[derive(Drop)]
pub(crate) struct Header {
    pub number: u64,
    pub loops: bool,
    pub result: Option<Slot>,
    pub params: Items<Slot>,
    pub locals: Items<Slot>,
}

/// What a line says.
pub(crate) enum Line {
    Fun(Header),
    Caught(Trap),
    Do(Instruction),
    End,
}

impl Drop for Line {
    fn drop(self) {
        match self {
            Line::Fun(_header) => {}
            Line::Caught(_trap) => {}
            Line::Do(_instruction) => {}
            Line::End => {}
        }
    }
}

impl Line {
    /// What a line makes of what was read. `false` where it cannot follow.
    pub(crate) fn join(self, alloc: Global, reading: &mut Reading) -> Result<bool, AllocError>
        ensures { IfOk result (λ goes. (if goes then Some reading.new else None) ≡ next reading.old self) }
    {
        match self {
            Line::Fun(header) => Ok(reading.begin(alloc, header)),
            Line::Caught(trap) => reading.catch(trap),
            Line::Do(instruction) => reading.add(instruction),
            Line::End => reading.end(),
        }
    }
}

fn numbered_of(numbered: Numbered, text: &str) -> Option<Line>
    ensures { result ≡ numbered_of numbered text.now }
{
    match natural(text) {
        Some(number) => Some(Line::Do(Instruction::Numbered(numbered, number))),
        None => None,
    }
}

fn int_of(text: &str) -> Option<Line>
    ensures { result ≡ int_of text.now }
{
    match int(text) {
        Some(number) => Some(Line::Do(Instruction::Int(number))),
        None => None,
    }
}

fn long_of(text: &str) -> Option<Line>
    ensures { result ≡ long_of text.now }
{
    match long(text) {
        Some(number) => Some(Line::Do(Instruction::Long(number))),
        None => None,
    }
}

fn quoted_of(alloc: Global, quoting: Quoting, text: &str) -> Result<Option<Line>, AllocError>
    ensures { IfOk result (λ line. line ≡ quoted_of quoting text.now) }
{
    match unquoted(alloc, text)? {
        Some(text) => Ok(Some(Line::Do(Instruction::Quoted(quoting, text)))),
        None => Ok(None),
    }
}

fn boxing_of(text: &str) -> Option<Line>
    ensures { result ≡ boxing_of text.now }
{
    match primitive_of(text) {
        Some(primitive) => Some(Line::Do(Instruction::Boxing(primitive))),
        None => None,
    }
}

#[tactic(auto, unfolding(listing_parts::specs::Split::both))]
fn unboxing_of(text: &str) -> Option<Line>
    ensures { result ≡ unboxing_of text.now }
{
    let Some((first, second)) = split_at_blank(text) else {
        return None;
    };
    let Some(primitive) = primitive_of(first) else {
        return None;
    };
    match way_of(second) {
        Some(way) => Some(Line::Do(Instruction::Unboxing(primitive, way))),
        None => None,
    }
}

#[tactic(auto, unfolding(listing_parts::specs::Split::both))]
fn cast_of(alloc: Global, text: &str) -> Result<Option<Line>, AllocError>
    ensures { IfOk result (λ line. line ≡ cast_of text.now) }
{
    let Some((first, second)) = split_at_blank(text) else {
        return Ok(None);
    };
    let Some(ty) = TypeName::new(alloc, first)? else {
        return Ok(None);
    };
    match way_of(second) {
        Some(way) => Ok(Some(Line::Do(Instruction::Cast(ty, way)))),
        None => Ok(None),
    }
}

fn typed_of(alloc: Global, typed: Typed, text: &str) -> Result<Option<Line>, AllocError>
    ensures { IfOk result (λ line. line ≡ typed_of typed text.now) }
{
    match TypeName::new(alloc, text)? {
        Some(ty) => Ok(Some(Line::Do(Instruction::Typed(typed, ty)))),
        None => Ok(None),
    }
}

#[tactic(auto, unfolding(listing_parts::specs::Split::both))]
fn sized_of(alloc: Global, sized: Sized, text: &str) -> Result<Option<Line>, AllocError>
    ensures { IfOk result (λ line. line ≡ sized_of sized text.now) }
{
    let Some((first, second)) = split_at_blank(text) else {
        return Ok(None);
    };
    let Some(ty) = TypeName::new(alloc, first)? else {
        return Ok(None);
    };
    match natural(second) {
        Some(number) => Ok(Some(Line::Do(Instruction::Sized(sized, ty, number)))),
        None => Ok(None),
    }
}

#[tactic(auto, unfolding(listing_parts::specs::Split::both))]
fn defcall_of(alloc: Global, text: &str) -> Result<Option<Line>, AllocError>
    ensures { IfOk result (λ line. line ≡ defcall_of text.now) }
{
    let Some((first, second)) = split_at_blank(text) else {
        return Ok(None);
    };
    let Some(word) = Word::new(alloc, first)? else {
        return Ok(None);
    };
    match natural(second) {
        Some(number) => Ok(Some(Line::Do(Instruction::DefCall(word, number)))),
        None => Ok(None),
    }
}

fn invoke_of(alloc: Global, text: &str) -> Result<Option<Line>, AllocError>
    ensures { IfOk result (λ line. line ≡ invoke_of text.now) }
{
    match MethodName::new(alloc, text)? {
        Some(method) => Ok(Some(Line::Do(Instruction::Invoke(method)))),
        None => Ok(None),
    }
}

fn new_of(alloc: Global, text: &str) -> Result<Option<Line>, AllocError>
    ensures { IfOk result (λ line. line ≡ new_of text.now) }
{
    match ConstructorName::new(alloc, text)? {
        Some(constructor) => Ok(Some(Line::Do(Instruction::New(constructor)))),
        None => Ok(None),
    }
}

fn field_of(alloc: Global, text: &str) -> Result<Option<Line>, AllocError>
    ensures { IfOk result (λ line. line ≡ field_of text.now) }
{
    match FieldName::new(alloc, text)? {
        Some(field) => Ok(Some(Line::Do(Instruction::Field(field)))),
        None => Ok(None),
    }
}

#[tactic(auto, unfolding(listing_parts::specs::Split::both))]
fn two_numbers(text: &str) -> Option<(u32, u32)>
    ensures { result ≡ both number_of number_of text.now }
{
    let Some((first, second)) = split_at_blank(text) else {
        return None;
    };
    let Some(one) = natural(first) else {
        return None;
    };
    match natural(second) {
        Some(two) => Some((one, two)),
        None => None,
    }
}

#[tactic(auto, unfolding(listing_parts::specs::Split::both))]
fn lambda_of(alloc: Global, text: &str) -> Result<Option<Line>, AllocError>
    ensures { IfOk result (λ line. line ≡ lambda_of text.now) }
{
    let Some((first, rest)) = split_at_blank(text) else {
        return Ok(None);
    };
    let Some(interface) = interface_of(alloc, first)? else {
        return Ok(None);
    };
    match two_numbers(rest) {
        Some((function, number)) => {
            Ok(Some(Line::Do(Instruction::Lambda(interface, function, number))))
        }
        None => Ok(None),
    }
}

#[tactic(auto, unfolding(listing_parts::specs::Split::both))]
fn type_and_word(alloc: Global, text: &str) -> Result<Option<(TypeName, Word)>, AllocError>
    ensures { IfOk result (λ found. found ≡ both (formed is_type) (formed is_word) text.now) }
{
    let Some((first, second)) = split_at_blank(text) else {
        return Ok(None);
    };
    let Some(ty) = TypeName::new(alloc, first)? else {
        return Ok(None);
    };
    match Word::new(alloc, second)? {
        Some(word) => Ok(Some((ty, word))),
        None => Ok(None),
    }
}

#[tactic(auto, unfolding(listing_parts::specs::Split::both))]
fn ref_of(alloc: Global, text: &str) -> Result<Option<Line>, AllocError>
    ensures { IfOk result (λ line. line ≡ ref_of text.now) }
{
    let Some((first, rest)) = split_at_blank(text) else {
        return Ok(None);
    };
    let Some(interface) = interface_of(alloc, first)? else {
        return Ok(None);
    };
    match type_and_word(alloc, rest)? {
        Some((ty, word)) => Ok(Some(Line::Do(Instruction::Ref(interface, ty, word)))),
        None => Ok(None),
    }
}

#[tactic(auto, unfolding(listing_parts::specs::Split::both))]
fn newref_of(alloc: Global, text: &str) -> Result<Option<Line>, AllocError>
    ensures { IfOk result (λ line. line ≡ newref_of text.now) }
{
    let Some((first, second)) = split_at_blank(text) else {
        return Ok(None);
    };
    let Some(interface) = interface_of(alloc, first)? else {
        return Ok(None);
    };
    match TypeName::new(alloc, second)? {
        Some(ty) => Ok(Some(Line::Do(Instruction::NewRef(interface, ty)))),
        None => Ok(None),
    }
}

#[tactic(auto, unfolding(listing_parts::specs::Split::both))]
fn slots_twice(alloc: Global, text: &str) -> Result<Option<(Items<Slot>, Items<Slot>)>, AllocError>
    ensures { IfOk result (λ found. found ≡ both slots_of slots_of text.now) }
{
    let Some((first, second)) = split_at_blank(text) else {
        return Ok(None);
    };
    let Some(params) = slots_of(alloc, first)? else {
        return Ok(None);
    };
    match slots_of(alloc, second)? {
        Some(locals) => Ok(Some((params, locals))),
        None => Ok(None),
    }
}

/// What a function gives, its parameters and its locals.
type Signature = (Option<Slot>, (Items<Slot>, Items<Slot>));

#[tactic(auto, unfolding(listing_parts::specs::Split::both))]
fn signature_of(alloc: Global, text: &str) -> Result<Option<Signature>, AllocError>
    ensures { IfOk result (λ found. found ≡ both result_of (both slots_of slots_of) text.now) }
{
    let Some((first, rest)) = split_at_blank(text) else {
        return Ok(None);
    };
    let Some(gives) = result_of(first.as_bytes()) else {
        return Ok(None);
    };
    match slots_twice(alloc, rest)? {
        Some(slots) => Ok(Some((gives, slots))),
        None => Ok(None),
    }
}

#[tactic(auto, unfolding(listing_parts::specs::Split::both))]
fn header_of(alloc: Global, text: &str) -> Result<Option<Line>, AllocError>
    ensures { IfOk result (λ line. line ≡ header_of text.now) }
{
    let Some((first, behind)) = split_at_blank(text) else {
        return Ok(None);
    };
    let Some(number) = count(first) else {
        return Ok(None);
    };
    let Some((second, rest)) = split_at_blank(behind) else {
        return Ok(None);
    };
    let Some(loops) = loops_of(second) else {
        return Ok(None);
    };
    match signature_of(alloc, rest)? {
        Some((result, (params, locals))) => Ok(Some(Line::Fun(Header {
            number,
            loops,
            result,
            params,
            locals,
        }))),
        None => Ok(None),
    }
}

#[tactic(auto, unfolding(listing_parts::specs::Split::both))]
fn place_and_class(alloc: Global, text: &str) -> Result<Option<(u32, ClassName)>, AllocError>
    ensures { IfOk result (λ found. found ≡ both number_of (formed is_class) text.now) }
{
    let Some((first, second)) = split_at_blank(text) else {
        return Ok(None);
    };
    let Some(at) = natural(first) else {
        return Ok(None);
    };
    match ClassName::new(alloc, second)? {
        Some(class) => Ok(Some((at, class))),
        None => Ok(None),
    }
}

#[tactic(auto, unfolding(listing_parts::specs::Split::both))]
fn trap_of(alloc: Global, text: &str) -> Result<Option<Line>, AllocError>
    ensures { IfOk result (λ line. line ≡ trap_of text.now) }
{
    let Some((first, behind)) = split_at_blank(text) else {
        return Ok(None);
    };
    let Some(from) = natural(first) else {
        return Ok(None);
    };
    let Some((second, rest)) = split_at_blank(behind) else {
        return Ok(None);
    };
    let Some(to) = natural(second) else {
        return Ok(None);
    };
    match place_and_class(alloc, rest)? {
        Some((at, class)) => Ok(Some(Line::Caught(Trap {
            from,
            to,
            at,
            class,
        }))),
        None => Ok(None),
    }
}

/// What stands behind the word of a line.
#[tactic(auto, unfolding(crate::specs::Lines::operand_line))]
fn operand_line(alloc: Global, head: Head, text: &str) -> Result<Option<Line>, AllocError>
    ensures { IfOk result (λ line. line ≡ operand_line head text.now) }
{
    match head {
        Head::Plain(_) => Ok(None),
        Head::Arithmetic(_, _) => Ok(None),
        Head::Dynamic(_) => Ok(None),
        Head::Int => Ok(int_of(text)),
        Head::Long => Ok(long_of(text)),
        Head::Quoted(quoting) => quoted_of(alloc, quoting, text),
        Head::Numbered(numbered) => Ok(numbered_of(numbered, text)),
        Head::Boxing => Ok(boxing_of(text)),
        Head::Unboxing => Ok(unboxing_of(text)),
        Head::Cast => cast_of(alloc, text),
        Head::Typed(typed) => typed_of(alloc, typed, text),
        Head::Sized(sized) => sized_of(alloc, sized, text),
        Head::DefCall => defcall_of(alloc, text),
        Head::Invoke => invoke_of(alloc, text),
        Head::New => new_of(alloc, text),
        Head::Field => field_of(alloc, text),
        Head::Lambda => lambda_of(alloc, text),
        Head::Ref => ref_of(alloc, text),
        Head::NewRef => newref_of(alloc, text),
        Head::Fun => header_of(alloc, text),
        Head::Trap => trap_of(alloc, text),
        Head::End => Ok(None),
    }
}

/// What a word alone says.
#[tactic(auto, unfolding(crate::specs::Lines::bare_line))]
fn bare_line(head: Head) -> Option<Line>
    ensures { result ≡ bare_line head }
{
    match head {
        Head::Plain(plain) => Some(Line::Do(Instruction::Plain(plain))),
        Head::Arithmetic(op, width) => Some(Line::Do(Instruction::Arithmetic(op, width))),
        Head::Dynamic(op) => Some(Line::Do(Instruction::Dynamic(op))),
        Head::End => Some(Line::End),
        _ => None,
    }
}

/// What a line says. `None` where no line of code has this text.
#[tactic(auto, unfolding(crate::specs::Lines::line_of))]
pub(crate) fn line_of(alloc: Global, text: &str) -> Result<Option<Line>, AllocError>
    ensures { IfOk result (λ line. line ≡ line_of text.now) }
{
    match split_at_blank(text) {
        None => match head_of(text) {
            Some(head) => Ok(bare_line(head)),
            None => Ok(None),
        },
        Some((word, operand)) => match head_of(word) {
            Some(head) => operand_line(alloc, head, operand),
            None => Ok(None),
        },
    }
}
