//! Code as data.

use crate::kinds::{
    ArithmeticOp, DynamicOp, Numbered, Plain, Quoting, Sized, Slot, Typed, Way, Width,
};
use listing_parts::{ClassName, ConstructorName, FieldName, MethodName, TypeName, Word};
use pl_types::Primitive;
use plain_data::{Items, Text};

/// An instruction, with what stands behind its word in a listing. Numbers of functions, locals and lines count from 0.
pub enum Instruction {
    /// An instruction without operands.
    Plain(Plain),
    /// An operator on numbers.
    Arithmetic(ArithmeticOp, Width),
    /// An operator on values whose types are known only at run time.
    Dynamic(DynamicOp),
    /// A constant of 32 bits.
    Int(i32),
    /// A constant of 64 bits.
    Long(i64),
    /// An instruction with a text.
    Quoted(Quoting, Text),
    /// An instruction with a number: of a local, a line or a function, or how many values.
    Numbered(Numbered, u32),
    /// Makes an object of a primitive.
    Boxing(Primitive),
    /// Makes a primitive of an object.
    Unboxing(Primitive, Way),
    /// Casts a reference.
    Cast(TypeName, Way),
    /// An instruction with a type.
    Typed(Typed, TypeName),
    /// An instruction with a type and a number.
    Sized(Sized, TypeName, u32),
    /// Calls a method that is looked for at run time, by its name and how many arguments it takes.
    DefCall(Word, u32),
    /// Calls a method.
    Invoke(MethodName),
    /// Makes an object.
    New(ConstructorName),
    /// Reads a field.
    Field(FieldName),
    /// A function as a value: the interface, where one is known, the function, and how many of its parameters are given.
    Lambda(Option<ClassName>, u32, u32),
    /// A method as a value: the interface, where one is known, the type, and the method's name.
    Ref(Option<ClassName>, TypeName, Word),
    /// A constructor as a value: the interface, where one is known, and the type.
    NewRef(Option<ClassName>, TypeName),
}

impl Drop for Instruction {
    fn drop(self) {
        match self {
            Instruction::Plain(_plain) => {}
            Instruction::Arithmetic(_op, _width) => {}
            Instruction::Dynamic(_op) => {}
            Instruction::Int(_number) => {}
            Instruction::Long(_number) => {}
            Instruction::Quoted(_quoting, _text) => {}
            Instruction::Numbered(_numbered, _number) => {}
            Instruction::Boxing(_primitive) => {}
            Instruction::Unboxing(_primitive, _way) => {}
            Instruction::Cast(_ty, _way) => {}
            Instruction::Typed(_typed, _ty) => {}
            Instruction::Sized(_sized, _ty, _number) => {}
            Instruction::DefCall(_word, _number) => {}
            Instruction::Invoke(_method) => {}
            Instruction::New(_constructor) => {}
            Instruction::Field(_field) => {}
            Instruction::Lambda(_interface, _function, _number) => {}
            Instruction::Ref(_interface, _ty, _word) => {}
            Instruction::NewRef(_interface, _ty) => {}
        }
    }
}

/// What catches exceptions of a class: from line `from` on, before line `to`, going on at line `at`.
#[derive(Drop)]
pub struct Trap {
    /// The first line.
    pub from: u32,
    /// The line behind the last.
    pub to: u32,
    /// Where it goes on.
    pub at: u32,
    /// The class, in full.
    pub class: ClassName,
}

/// A function's code.
#[derive(Drop)]
pub struct FunCode {
    /// Whether turns of its loops are counted against the limit.
    pub loops: bool,
    /// What it gives. `None` where that is nothing.
    pub result: Option<Slot>,
    /// Its parameters, which are its first locals.
    pub params: Items<Slot>,
    /// Its other locals.
    pub locals: Items<Slot>,
    /// Its traps. The first that fits counts.
    pub traps: Items<Trap>,
    /// Its instructions.
    pub lines: Items<Instruction>,
}

/// The code of a script. Function 0 is where it begins.
#[derive(Drop)]
pub struct Code {
    /// Its functions, by their numbers.
    pub functions: Items<FunCode>,
}
