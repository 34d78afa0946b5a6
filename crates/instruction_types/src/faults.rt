//! What can be wrong with a line whatever lies on the stack.

ghost use Rattle.std.specs.Prelude.{◌≡◌, ◌+◌, ◌<◌, not, is_some, length, map, nat_le, option_map};
ghost use Rattle.std.specs.List.{list_all};
ghost use Rattle.std.specs.Option.{option_copied, ForSome};
ghost use Rattle.instruction_types.specs.Types.{is_known_type, catalogue_class};
ghost use Rattle.instruction_types.specs.Faults.{is_reference, gives_reference, is_value_function, breaks_method, breaks_interface, is_bad_lambda, numbered_out, sized_out, is_bad_target, is_unknown_interface, is_bad_member, goes_wrong, is_bad_jump, is_bad_trap_target, is_bad_trap_class, is_bad_trap_order};

use crate::actions::function_at;
use crate::flow::{Flow, flow_of};
use crate::members::{constructor_of, field_of, method_of};
use crate::types::{catalogue_class, dimensions_of, interface_method, is_known_type};
use allowlist::Allow;
use listing_parts::{ClassName, TypeName};
use pl_code::{FunCode, Instruction, Numbered, Sized, Slot, Trap};

fn is_reference(kind: Slot) -> bool
    ensures { result ≡ is_reference kind }
{
    matches!(kind, Slot::R)
}

fn gives_reference(gives: Option<Slot>) -> bool
    ensures { result ≡ gives_reference gives }
{
    matches!(gives, Some(Slot::R))
}

fn are_references(kinds: &[Slot]) -> bool
    ensures { result ≡ list_all is_reference kinds.now }
{
    kinds.iter().all(|kind| is_reference(*kind))
}

/// Whether a function may be a value: all that it takes and gives are references.
#[tactic(auto, unfolding(crate::specs::Faults::is_value_function))]
pub fn is_value_function(function: &FunCode) -> bool
    ensures { result ≡ is_value_function function.now }
{
    are_references(function.params.as_slice()) && gives_reference(function.result)
}

fn breaks_method(allow: &Allow, others: usize, method: Option<u32>) -> bool
    requires { ForSome method (λ number. number < length allow.now.members) }
    ensures { result ≡ breaks_method others method }
{
    match method {
        None => false,
        Some(method) => allow.member_type(method).params.len() != others,
    }
}

fn breaks_interface(allow: &Allow, others: usize, interface: &Option<ClassName>) -> bool
    ensures { result ≡ breaks_interface others interface.now }
{
    match interface {
        None => false,
        Some(interface) => {
            breaks_method(
                allow,
                others,
                interface_method(allow, interface.as_str().as_bytes()),
            )
        }
    }
}

fn is_bad_lambda(
    allow: &Allow,
    interface: &Option<ClassName>,
    given: u32,
    function: Option<&FunCode>,
    is_value: Option<bool>,
) -> bool
    requires { is_value ≡ option_map is_value_function (option_copied function) }
    ensures { result ≡ is_bad_lambda interface.now given (option_copied function.entry) }
{
    match function {
        None => true,
        Some(function) => {
            let params = function.params.len();
            let given = given as usize;
            !is_value.unwrap_or(false)
                || params < given
                || breaks_interface(allow, params.saturating_sub(given), interface)
        }
    }
}

fn numbered_out(functions: &[FunCode], function: &FunCode, numbered: Numbered, number: u32) -> bool
    ensures { result ≡ numbered_out functions.now function.now numbered number }
{
    let number = number as usize;
    match numbered {
        Numbered::Load => is_no_local(function, number),
        Numbered::Store => is_no_local(function, number),
        Numbered::Goto => function.lines.len() <= number,
        Numbered::IfZero => function.lines.len() <= number,
        Numbered::IfNotZero => function.lines.len() <= number,
        Numbered::IfNull => function.lines.len() <= number,
        Numbered::Loop => function.lines.len() <= number,
        Numbered::List => false,
        Numbered::Map => false,
        Numbered::Call => functions.len() <= number,
    }
}

/// The parameters are the first locals.
fn is_no_local(function: &FunCode, number: usize) -> bool
    ensures { result ≡ nat_le (length function.now.params + length function.now.locals) number }
{
    let params = function.params.len();
    params <= number && function.locals.len() <= number - params
}

fn sized_out(sized: Sized, ty: &TypeName, number: u32) -> bool
    ensures { result ≡ sized_out sized ty.now number }
{
    match sized {
        Sized::Filled => false,
        Sized::Empty => number == 0 || dimensions_of(ty.as_str().as_bytes()) < number as usize,
    }
}

/// Whether an instruction of a function has a number out of range: of a local, a line, a function, or how many sizes of an
/// array are given; or is a `lambda` of a function that is none, takes or gives other than references, or does not take as
/// many as it has to. `values` has of each function whether it may be a value, so that no line walks over parameters.
#[tactic(auto, unfolding(crate::specs::Faults::is_bad_target))]
pub fn is_bad_target(
    allow: &Allow,
    functions: &[FunCode],
    values: &[bool],
    function: &FunCode,
    instruction: &Instruction,
) -> bool
    requires { values.now ≡ map is_value_function functions.now }
    ensures { result ≡ is_bad_target functions.now function.now instruction.now }
{
    match instruction {
        Instruction::Numbered(numbered, number) => {
            numbered_out(functions, function, *numbered, *number)
        }
        Instruction::Sized(sized, ty, number) => sized_out(*sized, ty, *number),
        Instruction::Lambda(interface, number, given) => {
            let is_value = values.get(*number as usize).copied();
            let function = function_at(functions, *number);
            is_bad_lambda(allow, interface, *given, function, is_value)
        }
        Instruction::Plain(_) => false,
        Instruction::Arithmetic(_, _) => false,
        Instruction::Dynamic(_) => false,
        Instruction::Int(_) => false,
        Instruction::Long(_) => false,
        Instruction::Quoted(_, _) => false,
        Instruction::Boxing(_) => false,
        Instruction::Unboxing(_, _) => false,
        Instruction::Cast(_, _) => false,
        Instruction::Typed(_, _) => false,
        Instruction::DefCall(_, _) => false,
        Instruction::Invoke(_) => false,
        Instruction::New(_) => false,
        Instruction::Field(_) => false,
        Instruction::Ref(_, _, _) => false,
        Instruction::NewRef(_, _) => false,
    }
}

fn is_unknown_type(ty: &TypeName) -> bool
    ensures { result ≡ not (is_known_type ty.now) }
{
    !is_known_type(ty.as_str().as_bytes())
}

fn is_no_class(ty: &TypeName) -> bool
    ensures { result ≡ not (is_some (catalogue_class ty.now)) }
{
    catalogue_class(ty.as_str().as_bytes()).is_none()
}

fn is_unknown_interface(allow: &Allow, interface: &Option<ClassName>) -> bool
    ensures { result ≡ is_unknown_interface interface.now }
{
    match interface {
        None => false,
        Some(interface) => interface_method(allow, interface.as_str().as_bytes()).is_none(),
    }
}

/// Whether an instruction names a member that the list lacks, or a class, a type or an interface that the catalogue lacks.
#[tactic(auto, unfolding(crate::specs::Faults::is_bad_member))]
pub fn is_bad_member(allow: &Allow, instruction: &Instruction) -> bool
    ensures { result ≡ is_bad_member allow.now instruction.now }
{
    match instruction {
        Instruction::Cast(ty, _) => is_unknown_type(ty),
        Instruction::Typed(_, ty) => is_unknown_type(ty),
        Instruction::Sized(_, ty, _) => is_unknown_type(ty),
        Instruction::Invoke(method) => method_of(allow, method).is_none(),
        Instruction::New(constructor) => constructor_of(allow, constructor).is_none(),
        Instruction::Field(field) => field_of(allow, field).is_none(),
        Instruction::Lambda(interface, _, _) => is_unknown_interface(allow, interface),
        Instruction::Ref(interface, ty, _) => {
            is_unknown_interface(allow, interface) || is_no_class(ty)
        }
        Instruction::NewRef(interface, ty) => {
            is_unknown_interface(allow, interface) || is_unknown_type(ty)
        }
        Instruction::Plain(_) => false,
        Instruction::Arithmetic(_, _) => false,
        Instruction::Dynamic(_) => false,
        Instruction::Int(_) => false,
        Instruction::Long(_) => false,
        Instruction::Quoted(_, _) => false,
        Instruction::Numbered(_, _) => false,
        Instruction::Boxing(_) => false,
        Instruction::Unboxing(_, _) => false,
        Instruction::DefCall(_, _) => false,
    }
}

fn goes_wrong(line: usize, flow: Flow) -> bool
    ensures { result ≡ goes_wrong line flow }
{
    match flow {
        Flow::GoesOn => false,
        Flow::Jumps(to) => to as usize <= line,
        Flow::Branches(to) => to as usize <= line,
        Flow::Turns(to) => line < to as usize,
        Flow::Ends => false,
    }
}

/// Whether the instruction at a line jumps to its own line or before, or turns to a later line.
#[tactic(auto, unfolding(crate::specs::Faults::is_bad_jump))]
pub fn is_bad_jump(line: usize, instruction: &Instruction) -> bool
    ensures { result ≡ is_bad_jump line instruction.now }
{
    goes_wrong(line, flow_of(instruction))
}

/// Whether a number of a trap is no line of its function, which has so many.
#[tactic(auto, unfolding(crate::specs::Faults::is_bad_trap_target))]
pub fn is_bad_trap_target(lines: usize, trap: &Trap) -> bool
    ensures { result ≡ is_bad_trap_target lines trap.now }
{
    lines <= trap.from as usize || lines <= trap.to as usize || lines <= trap.at as usize
}

/// Whether the catalogue lacks a trap's class.
#[tactic(auto, unfolding(crate::specs::Faults::is_bad_trap_class))]
pub fn is_bad_trap_class(trap: &Trap) -> bool
    ensures { result ≡ is_bad_trap_class trap.now }
{
    catalogue_class(trap.class.as_str().as_bytes()).is_none()
}

/// Whether a trap is over no line, or goes on at a line before its end.
#[tactic(auto, unfolding(crate::specs::Faults::is_bad_trap_order))]
pub fn is_bad_trap_order(trap: &Trap) -> bool
    ensures { result ≡ is_bad_trap_order trap.now }
{
    !(trap.from < trap.to && trap.to <= trap.at)
}
