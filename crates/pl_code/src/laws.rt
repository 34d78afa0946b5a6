//! What holds of all code.

ghost use Rattle.std.specs.Prelude.{◌≡◌, ◌^◌, ◌↔◌, ℕ, Bool, List, Some, nat_lt, true, Result, Ok};
ghost use Rattle.std.specs.Int.Signed.{mag};
ghost use Rattle.std.specs.Str.{is_utf8};
ghost use Rattle.std.specs.List.{list_all};
ghost use Rattle.pl_code.specs.Instructions.{is_instruction, is_number, is_interface};
ghost use Rattle.pl_code.specs.Listing.{is_trap, is_function, is_code, written};
ghost use Rattle.pl_code.specs.Reading.{Gives};
ghost use Rattle.pl_code.specs.Faults.{IsReading};
ghost use Rattle.pl_code.specs.Words.{head_of, head_word, way_word, primitive_word, slot_letter, loop_word};
ghost use Rattle.pl_code.specs.Lines.{way_of, primitive_of, loops_of, letter_of};
ghost use Rattle.pl_types.specs.declared.primitive.Primitive.{Primitive as PrimitiveData};
ghost use Rattle.pl_code.specs.declared.head.Head.{Head as HeadData};
ghost use Rattle.pl_code.specs.declared.kinds.Way.{Way as WayData};
ghost use Rattle.pl_code.specs.declared.kinds.Slot.{Slot as SlotData};
ghost use Rattle.pl_code.specs.declared.code.Code.{Code as CodeData};
ghost use Rattle.pl_code.specs.declared.error.ListingErr.{ListingErr as Refusal};

use crate::code::{Code, FunCode, Instruction, Trap};
use crate::error::ListingErr;
use crate::reading::read_listing;
use crate::writing::listing;
use listing_parts::ClassName;
use std::alloc::Global;

/// Two codes with one listing are one code, and a code's listing is read as this code.
pub fn listing_laws()
    ensures one_code { (c d : CodeData) → is_code c ≡ true → is_code d ≡ true → written c ≡ written d → c ≡ d }
    ensures read_back { (c : CodeData) → is_code c ≡ true → (read : Result CodeData Refusal) → IsReading (written c) read → Gives read (Ok c) }
{}

/// A word of a listing is read as the one thing that is written by it, and every other word as none: the tables that reading goes
/// by have each instruction, way, primitive, kind and header of a function.
pub fn word_laws()
    ensures heads { (word : List ℕ) (head : HeadData) → (head_of word ≡ Some head) ↔ (head_word head ≡ word) }
    ensures ways { (word : List ℕ) (way : WayData) → (way_of word ≡ Some way) ↔ (way_word way ≡ word) }
    ensures primitives { (word : List ℕ) (primitive : PrimitiveData) → (primitive_of word ≡ Some primitive) ↔ (primitive_word primitive ≡ word) }
    ensures loops { (word : List ℕ) (loops : Bool) → (loops_of word ≡ Some loops) ↔ (loop_word loops ≡ word) }
    ensures slots { (letter : ℕ) (slot : SlotData) → (letter_of letter ≡ Some slot) ↔ (slot_letter slot ≡ letter) }
{}

fn number_is_formed(number: u32)
    ensures { is_number number ≡ true }
{}

fn int_is_formed(number: i32)
    ensures { nat_lt (mag number) (2 ^ 31) ≡ true }
{}

fn long_is_formed(number: i64)
    ensures { nat_lt (mag number) (2 ^ 63) ≡ true }
{}

fn text_is_formed(text: &str)
    ensures { is_utf8 text.now ≡ true }
{}

fn interface_is_formed(interface: &Option<ClassName>)
    ensures { is_interface interface.now ≡ true }
{
    if let Some(class) = interface {
        let _class = class.as_str();
    }
}

/// The numbers of an instruction fit, and its texts have their forms.
#[tactic(auto, unfolding(crate::specs::Instructions::is_instruction))]
fn instruction_is_formed(instruction: &Instruction)
    ensures { is_instruction instruction.now ≡ true }
{
    match instruction {
        Instruction::Plain(_plain) => {}
        Instruction::Arithmetic(_op, _width) => {}
        Instruction::Dynamic(_op) => {}
        Instruction::Int(number) => int_is_formed(*number),
        Instruction::Long(number) => long_is_formed(*number),
        Instruction::Quoted(_quoting, text) => text_is_formed(text.as_str()),
        Instruction::Numbered(_numbered, number) => number_is_formed(*number),
        Instruction::Boxing(_primitive) => {}
        Instruction::Unboxing(_primitive, _way) => {}
        Instruction::Cast(ty, _way) => {
            let _ty = ty.as_str();
        }
        Instruction::Typed(_typed, ty) => {
            let _ty = ty.as_str();
        }
        Instruction::Sized(_sized, ty, number) => {
            let _ty = ty.as_str();
            number_is_formed(*number);
        }
        Instruction::DefCall(word, number) => {
            let _word = word.as_str();
            number_is_formed(*number);
        }
        Instruction::Invoke(method) => {
            let _method = method.as_str();
        }
        Instruction::New(constructor) => {
            let _constructor = constructor.as_str();
        }
        Instruction::Field(field) => {
            let _field = field.as_str();
        }
        Instruction::Lambda(interface, function, number) => {
            interface_is_formed(interface);
            number_is_formed(*function);
            number_is_formed(*number);
        }
        Instruction::Ref(interface, ty, word) => {
            interface_is_formed(interface);
            let _ty = ty.as_str();
            let _word = word.as_str();
        }
        Instruction::NewRef(interface, ty) => {
            interface_is_formed(interface);
            let _ty = ty.as_str();
        }
    }
}

fn trap_is_formed(trap: &Trap)
    ensures { is_trap trap.now ≡ true }
{
    number_is_formed(trap.from);
    number_is_formed(trap.to);
    number_is_formed(trap.at);
    let _class = trap.class.as_str();
}

fn traps_are_formed(traps: &[Trap])
    ensures { list_all is_trap traps.now ≡ true }
{
    for trap in traps {
        trap_is_formed(trap);
    }
}

fn instructions_are_formed(lines: &[Instruction])
    ensures { list_all is_instruction lines.now ≡ true }
{
    for line in lines {
        instruction_is_formed(line);
    }
}

fn function_is_formed(function: &FunCode)
    ensures { is_function function.now ≡ true }
{
    traps_are_formed(function.traps.as_slice());
    instructions_are_formed(function.lines.as_slice());
}

fn functions_are_formed(functions: &[FunCode])
    ensures { list_all is_function functions.now ≡ true }
{
    for function in functions {
        function_is_formed(function);
    }
}

/// Every code keeps the forms of its texts by their types, so this holds of each, and tests nothing. It takes the time of one
/// walk over the code.
#[tactic(auto, unfolding(crate::specs::Listing::is_code))]
pub fn code_is_formed(code: &Code)
    ensures { is_code code.now ≡ true }
{
    functions_are_formed(code.functions.as_slice());
}

/// The code, written and read: it comes back as it was. NoMemory is free.
pub fn read_back(alloc: Global, code: &Code) -> Result<Code, ListingErr>
    ensures { Gives result (Ok code.now) }
{
    code_is_formed(code);
    let text = listing(alloc, code)?;
    read_listing(alloc, text.as_bytes())
}
