//! Instructions that depend on nothing but what is done.

ghost use Rattle.std.specs.Prelude.{◌≡◌, [], ◌∷◌, ◌++◌, map, OnOk};
ghost use Rattle.codegen.specs.Checks.{denoted};
ghost use Rattle.codegen.specs.declared.labels.Line.TheVariants.{Fixed};
ghost use Rattle.codegen.specs.Pieces.{piece, parts_below, if_any, in_width};
ghost use Rattle.pl_code.specs.declared.code.Instruction.TheVariants as i;
ghost use Rattle.pl_code.specs.declared.kinds.Width.{Width};
ghost use Rattle.compiler_relation.specs.Parts.{constant_code, text_code, arithmetic_code, boolean_code, turned_round, dynamic_code, operator_code, default_code, default_of_primitive, pops, without_null, kept_under, copies, kept_before, kept_behind};
ghost use Rattle.compiler_relation.specs.Stands.{settled};

use crate::labels::Line;
use crate::representation::Representation;
use arithmetic::Op;
use pl_code::{ArithmeticOp, DynamicOp, Instruction, Numbered, Plain, Quoting, Width};
use pl_types::{Primitive, Ty};
use plain_data::{Items, Text};
use std::alloc::{AllocError, Global};
use typed_tree::{Constant, Gives, Logical, Operator};

/// How many parts of a place a value lies on.
#[derive(Clone, Copy)]
pub enum Below {
    Nothing,
    One,
    Two,
}

/// Some instructions.
#[derive(Clone, Copy)]
pub enum Piece<'a> {
    Call(u32),
    Operator(Operator),
    Plain(Plain),
    Int(i32),
    Constant(Constant),
    Text(&'a Text),
    /// A value is dropped that is represented so.
    Pop(Representation),
    /// A null is dropped where what is given is represented so.
    WithoutNull(Representation),
    /// The value that settles an operator before its right side.
    Settled(Logical),
    /// A copy of a value, below the parts of its place.
    Under(Below),
    /// Copies of the parts of a place.
    Copies(Below),
    /// What keeps a value below a change of it.
    Before(Below, Gives),
    /// What keeps a value behind a change.
    Behind(Below, Gives),
    /// What a variable of a type begins with.
    Default(&'a Ty),
}

/// Puts one instruction at the end.
pub fn one(lines: &mut Items<Line>, instruction: Instruction) -> Result<(), AllocError>
    ensures { OnOk result (lines.new ≡ lines.old ++ Fixed instruction ∷ []) }
{
    lines.push(Line::Fixed(instruction))?;
    Ok(())
}

/// Puts some instructions at the end.
pub fn put<'a>(alloc: Global, lines: &mut Items<Line>, what: Piece<'a>) -> Result<(), AllocError>
    ensures { OnOk result (lines.new ≡ lines.old ++ map Fixed (piece what.entry)) }
{
    match what {
        Piece::Call(number) => one(lines, Instruction::Numbered(Numbered::Call, number)),
        Piece::Operator(operator) => put_operator(lines, operator),
        Piece::Plain(plain) => one(lines, Instruction::Plain(plain)),
        Piece::Int(number) => one(lines, Instruction::Int(number)),
        Piece::Constant(constant) => one(lines, constant_of(constant)),
        Piece::Text(text) => put_text(alloc, lines, text),
        Piece::Pop(representation) => put_pop(lines, representation),
        Piece::WithoutNull(representation) => put_without_null(lines, representation),
        Piece::Settled(operator) => put_settled(lines, operator),
        Piece::Under(below) => put_under(lines, below),
        Piece::Copies(below) => put_copies(lines, below),
        Piece::Before(below, gives) => put_before(lines, below, gives),
        Piece::Behind(below, gives) => put_behind(lines, below, gives),
        Piece::Default(of) => put_default(lines, of),
    }
}

fn constant_of(constant: Constant) -> Instruction
    ensures { result ≡ constant_code constant }
{
    match constant {
        Constant::Null => Instruction::Plain(Plain::Null),
        Constant::Boolean(flag) => Instruction::Int(if flag { 1 } else { 0 }),
        Constant::Byte(number) => Instruction::Int(number as i32),
        Constant::Short(number) => Instruction::Int(number as i32),
        Constant::Char(unit) => Instruction::Int(unit as i32),
        Constant::Int(number) => Instruction::Int(number),
        Constant::Long(number) => Instruction::Long(number),
    }
}

fn put_text(alloc: Global, lines: &mut Items<Line>, text: &Text) -> Result<(), AllocError>
    ensures { OnOk result (lines.new ≡ lines.old ++ map Fixed (text_code text.now ∷ [])) }
{
    let text = Text::new(alloc, text.as_str())?;
    one(lines, Instruction::Quoted(Quoting::Constant, text))
}

fn put_pop(lines: &mut Items<Line>, representation: Representation) -> Result<(), AllocError>
    ensures { OnOk result (lines.new ≡ lines.old ++ map Fixed (pops (denoted representation))) }
{
    match representation {
        Representation::Absent => Ok(()),
        _ => one(lines, Instruction::Plain(Plain::Pop)),
    }
}

/// Drops the null that a member leaves which gives nothing.
pub fn put_without_null(
    lines: &mut Items<Line>,
    representation: Representation,
) -> Result<(), AllocError>
    ensures { OnOk result (lines.new ≡ lines.old ++ map Fixed (without_null (denoted representation))) }
{
    match representation {
        Representation::Absent => one(lines, Instruction::Plain(Plain::Pop)),
        _ => Ok(()),
    }
}

fn put_settled(lines: &mut Items<Line>, operator: Logical) -> Result<(), AllocError>
    ensures { OnOk result (lines.new ≡ lines.old ++ map Fixed (settled operator ∷ [])) }
{
    match operator {
        Logical::And => one(lines, Instruction::Int(0)),
        Logical::Or => one(lines, Instruction::Int(1)),
    }
}

fn put_under(lines: &mut Items<Line>, below: Below) -> Result<(), AllocError>
    ensures { OnOk result (lines.new ≡ lines.old ++ map Fixed (kept_under (parts_below below))) }
{
    match below {
        Below::Nothing => one(lines, Instruction::Plain(Plain::Dup)),
        Below::One => one(lines, Instruction::Plain(Plain::DupX1)),
        Below::Two => one(lines, Instruction::Plain(Plain::DupX2)),
    }
}

fn put_copies(lines: &mut Items<Line>, below: Below) -> Result<(), AllocError>
    ensures { OnOk result (lines.new ≡ lines.old ++ map Fixed (copies (parts_below below))) }
{
    match below {
        Below::Nothing => Ok(()),
        Below::One => one(lines, Instruction::Plain(Plain::Dup)),
        Below::Two => one(lines, Instruction::Plain(Plain::Dup2)),
    }
}

fn put_before(lines: &mut Items<Line>, below: Below, gives: Gives) -> Result<(), AllocError>
    ensures { OnOk result (lines.new ≡ lines.old ++ map Fixed (kept_before (parts_below below) gives)) }
{
    match gives {
        Gives::Old => put_under(lines, below),
        Gives::New => Ok(()),
    }
}

fn put_behind(lines: &mut Items<Line>, below: Below, gives: Gives) -> Result<(), AllocError>
    ensures { OnOk result (lines.new ≡ lines.old ++ map Fixed (kept_behind (parts_below below) gives)) }
{
    match gives {
        Gives::Old => Ok(()),
        Gives::New => put_under(lines, below),
    }
}

fn default_of(primitive: Primitive) -> Instruction
    ensures { result ≡ default_of_primitive primitive }
{
    match primitive {
        Primitive::Long => Instruction::Long(0),
        _ => Instruction::Int(0),
    }
}

fn put_default(lines: &mut Items<Line>, of: &Ty) -> Result<(), AllocError>
    ensures { OnOk result (lines.new ≡ lines.old ++ map Fixed (default_code of.now)) }
{
    match of {
        Ty::Void => Ok(()),
        Ty::Prim(primitive) => one(lines, default_of(*primitive)),
        Ty::Null => one(lines, Instruction::Plain(Plain::Null)),
        Ty::Def => one(lines, Instruction::Plain(Plain::Null)),
        Ty::Class(_) => one(lines, Instruction::Plain(Plain::Null)),
        Ty::Array(_) => one(lines, Instruction::Plain(Plain::Null)),
    }
}

/// Puts an operator at the end whose node's type says nothing more.
pub fn put_operator(lines: &mut Items<Line>, operator: Operator) -> Result<(), AllocError>
    ensures { OnOk result (lines.new ≡ lines.old ++ map Fixed (operator_code operator)) }
{
    match operator {
        Operator::Int(op) => put_arithmetic(lines, op, Width::Int),
        Operator::Long(op) => put_arithmetic(lines, op, Width::Long),
        Operator::Boolean(op) => put_boolean(lines, op),
        Operator::Equal => one(lines, Instruction::Plain(Plain::Equal)),
        Operator::NotEqual => put_turned_round(lines, Plain::Equal),
        Operator::Same => one(lines, Instruction::Plain(Plain::Same)),
        Operator::NotSame => put_turned_round(lines, Plain::Same),
        Operator::Concat => one(lines, Instruction::Plain(Plain::Concat)),
        Operator::Def(op) => put_dynamic(lines, op),
        Operator::Length => one(lines, Instruction::Plain(Plain::ArrayLength)),
        Operator::Iterate => one(lines, Instruction::Plain(Plain::Iter)),
        Operator::HasNext => one(lines, Instruction::Plain(Plain::Has)),
        Operator::Next => one(lines, Instruction::Plain(Plain::Next)),
        _ => Ok(()),
    }
}

/// What gives a truth value, and then that the other way round.
fn put_turned_round(lines: &mut Items<Line>, plain: Plain) -> Result<(), AllocError>
    ensures { OnOk result (lines.new ≡ lines.old ++ map Fixed (i.Plain plain ∷ turned_round)) }
{
    one(lines, Instruction::Plain(plain))?;
    one(lines, Instruction::Int(0))?;
    one(lines, Instruction::Arithmetic(ArithmeticOp::Eq, Width::Int))
}

fn dynamic_op(op: Op) -> Option<Instruction>
    ensures { if_any result ≡ dynamic_code op }
{
    match op {
        Op::Add => Some(Instruction::Dynamic(DynamicOp::Add)),
        Op::Sub => Some(Instruction::Dynamic(DynamicOp::Sub)),
        Op::Mul => Some(Instruction::Dynamic(DynamicOp::Mul)),
        Op::Div => Some(Instruction::Dynamic(DynamicOp::Div)),
        Op::Rem => Some(Instruction::Dynamic(DynamicOp::Rem)),
        Op::And => Some(Instruction::Dynamic(DynamicOp::And)),
        Op::Or => Some(Instruction::Dynamic(DynamicOp::Or)),
        Op::Xor => Some(Instruction::Dynamic(DynamicOp::Xor)),
        Op::Shl => Some(Instruction::Dynamic(DynamicOp::Shl)),
        Op::Shr => Some(Instruction::Dynamic(DynamicOp::Shr)),
        Op::Ushr => Some(Instruction::Dynamic(DynamicOp::Ushr)),
        Op::Neg => Some(Instruction::Dynamic(DynamicOp::Neg)),
        Op::Not => Some(Instruction::Dynamic(DynamicOp::Not)),
        Op::Pos => Some(Instruction::Dynamic(DynamicOp::Pos)),
        Op::Lt => Some(Instruction::Dynamic(DynamicOp::Lt)),
        Op::Le => Some(Instruction::Dynamic(DynamicOp::Le)),
        Op::Gt => Some(Instruction::Dynamic(DynamicOp::Gt)),
        Op::Ge => Some(Instruction::Dynamic(DynamicOp::Ge)),
        Op::Eq => None,
        Op::Ne => None,
    }
}

fn put_dynamic(lines: &mut Items<Line>, op: Op) -> Result<(), AllocError>
    ensures { OnOk result (lines.new ≡ lines.old ++ map Fixed (dynamic_code op)) }
{
    put_if_any(lines, dynamic_op(op))
}

fn arithmetic_op(op: Op) -> Option<ArithmeticOp>
    ensures { (width : Width) → arithmetic_code op width ≡ in_width result width }
{
    match op {
        Op::Add => Some(ArithmeticOp::Add),
        Op::Sub => Some(ArithmeticOp::Sub),
        Op::Mul => Some(ArithmeticOp::Mul),
        Op::Div => Some(ArithmeticOp::Div),
        Op::Rem => Some(ArithmeticOp::Rem),
        Op::And => Some(ArithmeticOp::And),
        Op::Or => Some(ArithmeticOp::Or),
        Op::Xor => Some(ArithmeticOp::Xor),
        Op::Shl => Some(ArithmeticOp::Shl),
        Op::Shr => Some(ArithmeticOp::Shr),
        Op::Ushr => Some(ArithmeticOp::Ushr),
        Op::Neg => Some(ArithmeticOp::Neg),
        Op::Not => Some(ArithmeticOp::Not),
        Op::Pos => None,
        Op::Lt => Some(ArithmeticOp::Lt),
        Op::Le => Some(ArithmeticOp::Le),
        Op::Gt => Some(ArithmeticOp::Gt),
        Op::Ge => Some(ArithmeticOp::Ge),
        Op::Eq => Some(ArithmeticOp::Eq),
        Op::Ne => Some(ArithmeticOp::Ne),
    }
}

/// Puts an instruction at the end, where there is one.
pub fn put_if_any(
    lines: &mut Items<Line>,
    instruction: Option<Instruction>,
) -> Result<(), AllocError>
    ensures { OnOk result (lines.new ≡ lines.old ++ map Fixed (if_any instruction)) }
{
    match instruction {
        Some(instruction) => one(lines, instruction),
        None => Ok(()),
    }
}

fn put_arithmetic(lines: &mut Items<Line>, op: Op, width: Width) -> Result<(), AllocError>
    ensures { OnOk result (lines.new ≡ lines.old ++ map Fixed (arithmetic_code op width)) }
{
    match arithmetic_op(op) {
        Some(op) => one(lines, Instruction::Arithmetic(op, width)),
        None => Ok(()),
    }
}

fn put_boolean(lines: &mut Items<Line>, op: Op) -> Result<(), AllocError>
    ensures { OnOk result (lines.new ≡ lines.old ++ map Fixed (boolean_code op)) }
{
    match op {
        Op::And => one(
            lines,
            Instruction::Arithmetic(ArithmeticOp::And, Width::Int),
        ),
        Op::Or => one(lines, Instruction::Arithmetic(ArithmeticOp::Or, Width::Int)),
        Op::Xor => one(
            lines,
            Instruction::Arithmetic(ArithmeticOp::Xor, Width::Int),
        ),
        Op::Eq => one(lines, Instruction::Arithmetic(ArithmeticOp::Eq, Width::Int)),
        Op::Ne => one(lines, Instruction::Arithmetic(ArithmeticOp::Ne, Width::Int)),
        Op::Not => {
            one(lines, Instruction::Int(0))?;
            one(lines, Instruction::Arithmetic(ArithmeticOp::Eq, Width::Int))
        }
        _ => Ok(()),
    }
}
