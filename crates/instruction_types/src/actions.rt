//! The table of instructions: what each does to the stack.

ghost use Rattle.std.specs.Prelude.{◌≡◌, ◌<◌, [], ◌∷◌, ◌++◌, if◌then◌else◌, length, slice_get, option_map, replicate};
ghost use Rattle.std.specs.Option.{option_copied};
ghost use Rattle.pl_code.specs.declared.kinds.Slot.TheVariants.{I, R};
ghost use Rattle.instruction_types.specs.Types.{kind_of_text};
ghost use Rattle.instruction_types.specs.Members.{method_of, constructor_of, field_of, argument_kinds, has_receiver};
ghost use Rattle.instruction_types.specs.Effects.{Exchanges, Copies, Empties, result_kinds, plain_effect, arithmetic_effect, dynamic_effect, quoting_effect, numbered_effect, typed_effect, sized_effect, kind_of_width, local_kind, loads, stores, calls, invokes, makes, reads, effect_of};
ghost use Rattle.instruction_types.specs.Seen.{seen_action, seen_takes};

use crate::action::{Action, Takes};
use crate::copying::Copying;
use crate::members::{constructor_of, field_of, method_of};
use crate::types::{kind_of_primitive, kind_of_text, kind_of_type};
use allowlist::{Allow, MemberKind};
use listing_parts::{ConstructorName, FieldName, MethodName, TypeName};
use pl_code::{
    ArithmeticOp, DynamicOp, FunCode, Instruction, Numbered, Plain, Quoting, Sized, Slot, Typed,
    Width,
};
use pl_types::Ty;

/// One kind for another.
#[tactic(auto, unfolding(crate::specs::Seen::seen_action, crate::specs::Seen::seen_takes))]
fn one(takes: Slot, gives: Slot) -> Action<'static>
    ensures { seen_action result ≡ Exchanges (takes ∷ []) (gives ∷ []) }
{
    Action::Exchanges(Takes::One(takes), Some(gives))
}

/// Two of a kind for another.
#[tactic(auto, unfolding(crate::specs::Seen::seen_action, crate::specs::Seen::seen_takes))]
fn two(takes: Slot, gives: Slot) -> Action<'static>
    ensures { seen_action result ≡ Exchanges (takes ∷ takes ∷ []) (gives ∷ []) }
{
    Action::Exchanges(Takes::Two(takes, takes), Some(gives))
}

/// So many of a kind for a reference.
#[tactic(auto, unfolding(crate::specs::Seen::seen_action, crate::specs::Seen::seen_takes))]
fn many(number: u64, takes: Slot) -> Action<'static>
    ensures { seen_action result ≡ Exchanges (replicate number takes) (R ∷ []) }
{
    Action::Exchanges(Takes::Copies(number, takes), Some(Slot::R))
}

#[tactic(auto, unfolding(crate::specs::Seen::seen_action, crate::specs::Seen::seen_takes))]
fn puts(gives: Slot) -> Action<'static>
    ensures { seen_action result ≡ Exchanges [] (gives ∷ []) }
{
    Action::Exchanges(Takes::Nothing, Some(gives))
}

#[tactic(auto, unfolding(crate::specs::Seen::seen_action, crate::specs::Seen::seen_takes))]
fn drops(takes: Takes<'static>) -> Action<'static>
    ensures { seen_action result ≡ Exchanges (seen_takes takes.entry) [] }
{
    Action::Exchanges(takes, None)
}

#[tactic(auto, unfolding(crate::specs::Seen::seen_action))]
fn copies(copying: Copying) -> Action<'static>
    ensures { seen_action result ≡ Copies copying }
{
    Action::Copies(copying)
}

#[tactic(auto, unfolding(crate::specs::Seen::seen_takes))]
fn plain_action(gives: Option<Slot>, plain: Plain) -> Action<'static>
    ensures { seen_action result ≡ plain_effect gives plain }
{
    match plain {
        Plain::Null => puts(Slot::R),
        Plain::Pop => copies(Copying::Drop),
        Plain::Dup => copies(Copying::One),
        Plain::Dup2 => copies(Copying::Two),
        Plain::DupX1 => copies(Copying::UnderOne),
        Plain::DupX2 => copies(Copying::UnderTwo),
        Plain::IntToLong => one(Slot::I, Slot::J),
        Plain::LongToInt => one(Slot::J, Slot::I),
        Plain::IntToByte => one(Slot::I, Slot::I),
        Plain::IntToShort => one(Slot::I, Slot::I),
        Plain::IntToChar => one(Slot::I, Slot::I),
        Plain::Concat => two(Slot::R, Slot::R),
        Plain::Same => two(Slot::R, Slot::I),
        Plain::Equal => two(Slot::R, Slot::I),
        Plain::ArrayLength => one(Slot::R, Slot::I),
        Plain::GetIndex => two(Slot::R, Slot::R),
        Plain::PutIndex => drops(Takes::Three(Slot::R, Slot::R, Slot::R)),
        Plain::Iter => one(Slot::R, Slot::R),
        Plain::Has => one(Slot::R, Slot::I),
        Plain::Next => one(Slot::R, Slot::R),
        Plain::Throw => drops(Takes::One(Slot::R)),
        Plain::Ret => returns(gives),
    }
}

#[tactic(auto, unfolding(crate::specs::Seen::seen_takes))]
fn returns(gives: Option<Slot>) -> Action<'static>
    ensures { seen_action result ≡ Exchanges (result_kinds gives) [] }
{
    match gives {
        None => drops(Takes::Nothing),
        Some(kind) => drops(Takes::One(kind)),
    }
}

fn kind_of_width(width: Width) -> Slot
    ensures { result ≡ kind_of_width width }
{
    match width {
        Width::Int => Slot::I,
        Width::Long => Slot::J,
    }
}

#[tactic(auto, unfolding(crate::specs::Seen::seen_action, crate::specs::Seen::seen_takes))]
fn shift(kind: Slot) -> Action<'static>
    ensures { seen_action result ≡ Exchanges (I ∷ kind ∷ []) (kind ∷ []) }
{
    Action::Exchanges(Takes::Two(Slot::I, kind), Some(kind))
}

fn arithmetic_action(op: ArithmeticOp, kind: Slot) -> Action<'static>
    ensures { seen_action result ≡ arithmetic_effect op kind }
{
    match op {
        ArithmeticOp::Add => two(kind, kind),
        ArithmeticOp::Sub => two(kind, kind),
        ArithmeticOp::Mul => two(kind, kind),
        ArithmeticOp::Div => two(kind, kind),
        ArithmeticOp::Rem => two(kind, kind),
        ArithmeticOp::And => two(kind, kind),
        ArithmeticOp::Or => two(kind, kind),
        ArithmeticOp::Xor => two(kind, kind),
        ArithmeticOp::Neg => one(kind, kind),
        ArithmeticOp::Not => one(kind, kind),
        ArithmeticOp::Shl => shift(kind),
        ArithmeticOp::Shr => shift(kind),
        ArithmeticOp::Ushr => shift(kind),
        ArithmeticOp::Lt => two(kind, Slot::I),
        ArithmeticOp::Le => two(kind, Slot::I),
        ArithmeticOp::Gt => two(kind, Slot::I),
        ArithmeticOp::Ge => two(kind, Slot::I),
        ArithmeticOp::Eq => two(kind, Slot::I),
        ArithmeticOp::Ne => two(kind, Slot::I),
    }
}

fn dynamic_action(op: DynamicOp) -> Action<'static>
    ensures { seen_action result ≡ dynamic_effect op }
{
    match op {
        DynamicOp::Add => two(Slot::R, Slot::R),
        DynamicOp::Sub => two(Slot::R, Slot::R),
        DynamicOp::Mul => two(Slot::R, Slot::R),
        DynamicOp::Div => two(Slot::R, Slot::R),
        DynamicOp::Rem => two(Slot::R, Slot::R),
        DynamicOp::And => two(Slot::R, Slot::R),
        DynamicOp::Or => two(Slot::R, Slot::R),
        DynamicOp::Xor => two(Slot::R, Slot::R),
        DynamicOp::Neg => one(Slot::R, Slot::R),
        DynamicOp::Not => one(Slot::R, Slot::R),
        DynamicOp::Pos => one(Slot::R, Slot::R),
        DynamicOp::Shl => two(Slot::R, Slot::R),
        DynamicOp::Shr => two(Slot::R, Slot::R),
        DynamicOp::Ushr => two(Slot::R, Slot::R),
        DynamicOp::Lt => two(Slot::R, Slot::I),
        DynamicOp::Le => two(Slot::R, Slot::I),
        DynamicOp::Gt => two(Slot::R, Slot::I),
        DynamicOp::Ge => two(Slot::R, Slot::I),
    }
}

#[tactic(auto, unfolding(crate::specs::Seen::seen_takes))]
fn quoting_action(quoting: Quoting) -> Action<'static>
    ensures { seen_action result ≡ quoting_effect quoting }
{
    match quoting {
        Quoting::Constant => puts(Slot::R),
        Quoting::GetName => one(Slot::R, Slot::R),
        Quoting::PutName => drops(Takes::Two(Slot::R, Slot::R)),
    }
}

/// The kind of a local, the parameters first.
fn local_kind(function: &FunCode, number: u32) -> Option<Slot>
    ensures { result ≡ local_kind function.now number }
{
    let number = number as usize;
    let params = function.params.len();
    if number < params {
        function.params.get(number).copied()
    } else {
        function.locals.get(number - params).copied()
    }
}

fn loads(kind: Option<Slot>) -> Option<Action<'static>>
    ensures { option_map seen_action result ≡ option_map loads kind }
{
    match kind {
        None => None,
        Some(kind) => Some(puts(kind)),
    }
}

#[tactic(auto, unfolding(crate::specs::Seen::seen_takes))]
fn stores(kind: Option<Slot>) -> Option<Action<'static>>
    ensures { option_map seen_action result ≡ option_map stores kind }
{
    match kind {
        None => None,
        Some(kind) => Some(drops(Takes::One(kind))),
    }
}

#[tactic(auto, unfolding(crate::specs::Effects::calls, crate::specs::Seen::seen_action, crate::specs::Seen::seen_takes))]
fn calls(function: Option<&FunCode>) -> Option<Action<'_>>
    ensures { option_map seen_action result ≡ option_map calls (option_copied function.entry) }
{
    match function {
        None => None,
        Some(function) => {
            let params = Takes::Params(function.params.as_slice());
            Some(Action::Exchanges(params, function.result))
        }
    }
}

#[tactic(auto, unfolding(crate::specs::Seen::seen_action))]
fn empties() -> Action<'static>
    ensures { seen_action result ≡ Empties }
{
    Action::Empties
}

/// A function by its number.
pub(crate) fn function_at(functions: &[FunCode], number: u32) -> Option<&FunCode>
    ensures { option_copied result ≡ slice_get functions.now number }
{
    functions.get(number as usize)
}

#[tactic(auto, unfolding(crate::specs::Seen::seen_takes))]
fn numbered_action<'a>(
    functions: &'a [FunCode],
    function: &FunCode,
    numbered: Numbered,
    number: u32,
) -> Option<Action<'a>>
    ensures { option_map seen_action result ≡ numbered_effect functions.now function.now numbered number }
{
    match numbered {
        Numbered::Load => loads(local_kind(function, number)),
        Numbered::Store => stores(local_kind(function, number)),
        Numbered::Goto => Some(drops(Takes::Nothing)),
        Numbered::IfZero => Some(drops(Takes::One(Slot::I))),
        Numbered::IfNotZero => Some(drops(Takes::One(Slot::I))),
        Numbered::IfNull => Some(drops(Takes::One(Slot::R))),
        Numbered::Loop => Some(empties()),
        Numbered::List => Some(many(u64::from(number), Slot::R)),
        Numbered::Map => Some(many(2 * u64::from(number), Slot::R)),
        Numbered::Call => calls(function_at(functions, number)),
    }
}

#[tactic(auto, unfolding(crate::specs::Seen::seen_action, crate::specs::Seen::seen_takes))]
fn typed_action(typed: Typed, kind: Slot) -> Action<'static>
    ensures { seen_action result ≡ typed_effect typed kind }
{
    match typed {
        Typed::IsA => one(Slot::R, Slot::I),
        Typed::LoadElement => Action::Exchanges(Takes::Two(Slot::I, Slot::R), Some(kind)),
        Typed::StoreElement => drops(Takes::Three(kind, Slot::I, Slot::R)),
    }
}

fn sized_action(sized: Sized, kind: Slot, number: u32) -> Action<'static>
    ensures { seen_action result ≡ sized_effect sized kind number }
{
    match sized {
        Sized::Filled => many(u64::from(number), kind),
        Sized::Empty => many(u64::from(number), Slot::I),
    }
}

#[tactic(auto, unfolding(crate::specs::Seen::seen_takes))]
fn arguments(kind: MemberKind, params: &[Ty]) -> Takes<'_>
    ensures { seen_takes result ≡ argument_kinds params.now ++ (if has_receiver kind then R ∷ [] else []) }
{
    match kind {
        MemberKind::Instance => Takes::Received(params),
        MemberKind::Constructor => Takes::Arguments(params),
        MemberKind::Static => Takes::Arguments(params),
        MemberKind::Field => Takes::Arguments(params),
    }
}

#[tactic(auto, unfolding(crate::specs::Seen::seen_action))]
fn invokes(allow: &Allow, member: u32) -> Action<'_>
    requires { member < length allow.now.members }
    ensures { seen_action result ≡ invokes allow.now member }
{
    let called = allow.member_type(member);
    let takes = arguments(called.kind, called.params.as_slice());
    let gives = kind_of_type(&called.result);
    Action::Exchanges(takes, Some(gives))
}

#[tactic(auto, unfolding(crate::specs::Seen::seen_action, crate::specs::Seen::seen_takes))]
fn makes(allow: &Allow, member: u32) -> Action<'_>
    requires { member < length allow.now.members }
    ensures { seen_action result ≡ makes allow.now member }
{
    let made = allow.member_type(member);
    Action::Exchanges(Takes::Arguments(made.params.as_slice()), Some(Slot::R))
}

fn reads(allow: &Allow, member: u32) -> Action<'_>
    requires { member < length allow.now.members }
    ensures { seen_action result ≡ reads allow.now member }
{
    let read = allow.member_type(member);
    puts(kind_of_type(&read.result))
}

fn invoke_action<'a>(allow: &'a Allow, method: &MethodName) -> Option<Action<'a>>
    ensures { option_map seen_action result ≡ option_map (invokes allow.now) (method_of allow.now method.now) }
{
    match method_of(allow, method) {
        None => None,
        Some(member) => Some(invokes(allow, member)),
    }
}

fn new_action<'a>(allow: &'a Allow, constructor: &ConstructorName) -> Option<Action<'a>>
    ensures { option_map seen_action result ≡ option_map (makes allow.now) (constructor_of allow.now constructor.now) }
{
    match constructor_of(allow, constructor) {
        None => None,
        Some(member) => Some(makes(allow, member)),
    }
}

fn field_action<'a>(allow: &'a Allow, field: &FieldName) -> Option<Action<'a>>
    ensures { option_map seen_action result ≡ option_map (reads allow.now) (field_of allow.now field.now) }
{
    match field_of(allow, field) {
        None => None,
        Some(member) => Some(reads(allow, member)),
    }
}

/// What an instruction of a function does to the stack. `None` where what it names is not there.
#[tactic(auto, unfolding(crate::specs::Effects::effect_of))]
pub fn action_of<'a>(
    allow: &'a Allow,
    functions: &'a [FunCode],
    function: &FunCode,
    instruction: &Instruction,
) -> Option<Action<'a>>
    ensures { option_map seen_action result ≡ effect_of allow.now functions.now function.now instruction.now }
{
    match instruction {
        Instruction::Plain(plain) => Some(plain_action(function.result, *plain)),
        Instruction::Arithmetic(op, width) => Some(arithmetic_action(*op, kind_of_width(*width))),
        Instruction::Dynamic(op) => Some(dynamic_action(*op)),
        Instruction::Int(_) => Some(puts(Slot::I)),
        Instruction::Long(_) => Some(puts(Slot::J)),
        Instruction::Quoted(quoting, _) => Some(quoting_action(*quoting)),
        Instruction::Numbered(numbered, number) => {
            numbered_action(functions, function, *numbered, *number)
        }
        Instruction::Boxing(primitive) => Some(one(kind_of_primitive(*primitive), Slot::R)),
        Instruction::Unboxing(primitive, _) => Some(one(Slot::R, kind_of_primitive(*primitive))),
        Instruction::Cast(_, _) => Some(one(Slot::R, Slot::R)),
        Instruction::Typed(typed, ty) => Some(typed_action(*typed, kind_of_name(ty))),
        Instruction::Sized(sized, ty, number) => {
            Some(sized_action(*sized, kind_of_name(ty), *number))
        }
        Instruction::DefCall(_, number) => Some(many(u64::from(*number) + 1, Slot::R)),
        Instruction::Invoke(method) => invoke_action(allow, method),
        Instruction::New(constructor) => new_action(allow, constructor),
        Instruction::Field(field) => field_action(allow, field),
        Instruction::Lambda(_, _, given) => Some(many(u64::from(*given), Slot::R)),
        Instruction::Ref(_, _, _) => Some(puts(Slot::R)),
        Instruction::NewRef(_, _) => Some(puts(Slot::R)),
    }
}

fn kind_of_name(ty: &TypeName) -> Slot
    ensures { result ≡ kind_of_text ty.now }
{
    kind_of_text(ty.as_str().as_bytes())
}
