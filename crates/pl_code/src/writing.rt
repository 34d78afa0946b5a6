//! Writing a listing.

ghost use Rattle.std.specs.Prelude.{◌≡◌, ◌++◌, ◌∷◌, [], OnOk, IfOk, decimal, map};
ghost use Rattle.std.specs.Fmt.{signed_decimal};
ghost use Rattle.std.specs.String.{string_bytes};
ghost use Rattle.listing_parts.specs.Split.{spaced};
ghost use Rattle.listing_parts.specs.Quoted.{quoted};
ghost use Rattle.pl_code.specs.Words.{head_word, way_word, primitive_word, loop_word, slot_letter};
ghost use Rattle.pl_code.specs.Instructions.{interface_text, with_operand, instruction_text};
ghost use Rattle.pl_code.specs.Listing.{result_text, slots_text, header_text, trap_text, text_of, function_lines, written};
ghost use Rattle.pl_code.specs.declared.head.Head.TheVariants as head;

use crate::code::{Code, FunCode, Instruction, Trap};
use crate::fields::{loop_word, primitive_word, way_word};
use crate::head::{Head, head_word};
use crate::kinds::Slot;
use itoa::Buffer;
use listing_parts::{ClassName, push_quoted};
use std::alloc::{AllocError, Global};

/// Adds a blank and a text.
fn push_part(out: &mut String, part: &str) -> Result<(), AllocError>
    ensures { OnOk result (string_bytes out.new ≡ string_bytes out.old ++ 32 ∷ part.now) }
{
    out.push(' ')?;
    out.push_str(part)
}

/// Adds a word and what stands behind it.
fn push_operand(out: &mut String, head: Head, operand: &str) -> Result<(), AllocError>
    ensures { OnOk result (string_bytes out.new ≡ string_bytes out.old ++ with_operand head operand.now) }
{
    out.push_str(head_word(head))?;
    push_part(out, operand)
}

fn push_two(out: &mut String, head: Head, first: &str, second: &str) -> Result<(), AllocError>
    ensures { OnOk result (string_bytes out.new ≡ string_bytes out.old ++ with_operand head (spaced first.now second.now)) }
{
    push_operand(out, head, first)?;
    push_part(out, second)
}

fn push_three(
    out: &mut String,
    head: Head,
    first: &str,
    second: &str,
    third: &str,
) -> Result<(), AllocError>
    ensures { OnOk result (string_bytes out.new ≡ string_bytes out.old ++ with_operand head (spaced first.now (spaced second.now third.now))) }
{
    push_operand(out, head, first)?;
    push_part(out, second)?;
    push_part(out, third)
}

fn push_number(out: &mut String, head: Head, number: u32) -> Result<(), AllocError>
    ensures { OnOk result (string_bytes out.new ≡ string_bytes out.old ++ with_operand head (decimal number)) }
{
    let mut buffer = Buffer::new();
    push_operand(out, head, buffer.format(number))
}

fn push_int(out: &mut String, number: i32) -> Result<(), AllocError>
    ensures { OnOk result (string_bytes out.new ≡ string_bytes out.old ++ with_operand head.Int (signed_decimal number)) }
{
    let mut buffer = Buffer::new();
    push_operand(out, Head::Int, buffer.format(number))
}

fn push_long(out: &mut String, number: i64) -> Result<(), AllocError>
    ensures { OnOk result (string_bytes out.new ≡ string_bytes out.old ++ with_operand head.Long (signed_decimal number)) }
{
    let mut buffer = Buffer::new();
    push_operand(out, Head::Long, buffer.format(number))
}

fn push_text(out: &mut String, head: Head, text: &str) -> Result<(), AllocError>
    ensures { OnOk result (string_bytes out.new ≡ string_bytes out.old ++ with_operand head (quoted text.now)) }
{
    out.push_str(head_word(head))?;
    out.push(' ')?;
    push_quoted(out, text)
}

fn push_with_number(out: &mut String, head: Head, part: &str, number: u32) -> Result<(), AllocError>
    ensures { OnOk result (string_bytes out.new ≡ string_bytes out.old ++ with_operand head (spaced part.now (decimal number))) }
{
    let mut buffer = Buffer::new();
    push_two(out, head, part, buffer.format(number))
}

fn push_lambda(
    out: &mut String,
    interface: &str,
    function: u32,
    number: u32,
) -> Result<(), AllocError>
    ensures { OnOk result (string_bytes out.new ≡ string_bytes out.old ++ with_operand head.Lambda (spaced interface.now (spaced (decimal function) (decimal number)))) }
{
    let mut first = Buffer::new();
    let mut second = Buffer::new();
    push_three(
        out,
        Head::Lambda,
        interface,
        first.format(function),
        second.format(number),
    )
}

fn interface_text(interface: &Option<ClassName>) -> &str
    ensures { result.now ≡ interface_text interface.now }
{
    match interface {
        None => "-",
        Some(class) => class.as_str(),
    }
}

/// Adds an instruction.
#[tactic(auto, unfolding(crate::specs::Instructions::instruction_text))]
fn push_instruction(out: &mut String, instruction: &Instruction) -> Result<(), AllocError>
    ensures { OnOk result (string_bytes out.new ≡ string_bytes out.old ++ instruction_text instruction.now) }
{
    match instruction {
        Instruction::Plain(plain) => out.push_str(head_word(Head::Plain(*plain))),
        Instruction::Arithmetic(op, width) => out.push_str(head_word(Head::Arithmetic(
            *op, *width,
        ))),
        Instruction::Dynamic(op) => out.push_str(head_word(Head::Dynamic(*op))),
        Instruction::Int(number) => push_int(out, *number),
        Instruction::Long(number) => push_long(out, *number),
        Instruction::Quoted(quoting, text) => push_text(out, Head::Quoted(*quoting), text.as_str()),
        Instruction::Numbered(numbered, number) => {
            push_number(out, Head::Numbered(*numbered), *number)
        }
        Instruction::Boxing(primitive) => {
            push_operand(out, Head::Boxing, primitive_word(*primitive))
        }
        Instruction::Unboxing(primitive, way) => push_two(
            out,
            Head::Unboxing,
            primitive_word(*primitive),
            way_word(*way),
        ),
        Instruction::Cast(ty, way) => push_two(out, Head::Cast, ty.as_str(), way_word(*way)),
        Instruction::Typed(typed, ty) => push_operand(out, Head::Typed(*typed), ty.as_str()),
        Instruction::Sized(sized, ty, number) => {
            push_with_number(out, Head::Sized(*sized), ty.as_str(), *number)
        }
        Instruction::DefCall(word, number) => {
            push_with_number(out, Head::DefCall, word.as_str(), *number)
        }
        Instruction::Invoke(method) => push_operand(out, Head::Invoke, method.as_str()),
        Instruction::New(constructor) => push_operand(out, Head::New, constructor.as_str()),
        Instruction::Field(field) => push_operand(out, Head::Field, field.as_str()),
        Instruction::Lambda(interface, function, number) => {
            push_lambda(out, interface_text(interface), *function, *number)
        }
        Instruction::Ref(interface, ty, word) => push_three(
            out,
            Head::Ref,
            interface_text(interface),
            ty.as_str(),
            word.as_str(),
        ),
        Instruction::NewRef(interface, ty) => {
            push_two(out, Head::NewRef, interface_text(interface), ty.as_str())
        }
    }
}

fn slot_word(slot: Slot) -> &'static str
    ensures { result.now ≡ slot_letter slot ∷ [] }
{
    match slot {
        Slot::I => "I",
        Slot::J => "J",
        Slot::R => "R",
    }
}

fn result_word(gives: Option<Slot>) -> &'static str
    ensures { result.now ≡ result_text gives }
{
    match gives {
        None => "V",
        Some(slot) => slot_word(slot),
    }
}

/// Adds a letter for each slot.
fn push_letters(out: &mut String, slots: &[Slot]) -> Result<(), AllocError>
    ensures { OnOk result (string_bytes out.new ≡ string_bytes out.old ++ map slot_letter slots.now) }
{
    for slot in slots {
        out.push_str(slot_word(*slot))?;
    }
    Ok(())
}

/// Adds a blank, and parameters or locals.
fn push_slots(out: &mut String, slots: &[Slot]) -> Result<(), AllocError>
    ensures { OnOk result (string_bytes out.new ≡ string_bytes out.old ++ 32 ∷ slots_text slots.now) }
{
    out.push(' ')?;
    match slots {
        [] => out.push('-'),
        [_, ..] => push_letters(out, slots),
    }
}

/// Adds the line `fun`, without its newline.
fn push_header(out: &mut String, number: u64, function: &FunCode) -> Result<(), AllocError>
    ensures { OnOk result (string_bytes out.new ≡ string_bytes out.old
        ++ header_text number function.now.loops function.now.result function.now.params function.now.locals) }
{
    let mut buffer = Buffer::new();
    push_three(
        out,
        Head::Fun,
        buffer.format(number),
        loop_word(function.loops),
        result_word(function.result),
    )?;
    push_slots(out, function.params.as_slice())?;
    push_slots(out, function.locals.as_slice())
}

/// Adds a line `trap`, without its newline.
fn push_trap(out: &mut String, trap: &Trap) -> Result<(), AllocError>
    ensures { OnOk result (string_bytes out.new ≡ string_bytes out.old ++ trap_text trap.now) }
{
    let mut from = Buffer::new();
    let mut to = Buffer::new();
    let mut at = Buffer::new();
    push_three(
        out,
        Head::Trap,
        from.format(trap.from),
        to.format(trap.to),
        at.format(trap.at),
    )?;
    push_part(out, trap.class.as_str())
}

fn push_traps(out: &mut String, traps: &[Trap]) -> Result<(), AllocError>
    ensures { OnOk result (string_bytes out.new ≡ string_bytes out.old ++ text_of (map trap_text traps.now)) }
{
    for trap in traps {
        push_trap(out, trap)?;
        out.push('\n')?;
    }
    Ok(())
}

fn push_instructions(out: &mut String, lines: &[Instruction]) -> Result<(), AllocError>
    ensures { OnOk result (string_bytes out.new ≡ string_bytes out.old ++ text_of (map instruction_text lines.now)) }
{
    for line in lines {
        push_instruction(out, line)?;
        out.push('\n')?;
    }
    Ok(())
}

/// Adds the lines of a function.
fn push_function(out: &mut String, number: u64, function: &FunCode) -> Result<(), AllocError>
    ensures { OnOk result (string_bytes out.new ≡ string_bytes out.old ++ text_of (function_lines number function.now)) }
{
    push_header(out, number, function)?;
    out.push('\n')?;
    push_traps(out, function.traps.as_slice())?;
    push_instructions(out, function.lines.as_slice())?;
    out.push_str("end\n")
}

/// The listing of a code: the one text that is read as this code.
pub fn listing(alloc: Global, code: &Code) -> Result<String, AllocError>
    ensures { IfOk result (λ text. string_bytes text ≡ written code.now) }
{
    let mut out = String::from_str(alloc, "painless 1\n")?;
    let mut number: u64 = 0;
    for function in code.functions.as_slice() {
        push_function(&mut out, number, function)?;
        number += 1;
    }
    Ok(out)
}
