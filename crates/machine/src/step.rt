//! One instruction.
ghost use Rattle.code_meaning.specs.Machine.{act, step};
ghost use Rattle.std.specs.Prelude.{◌≡◌, ◌<◌, ◌+◌, ◌^◌, suc, Some};
ghost use Rattle.run_state.specs.World.{allowed_in};
ghost use Rattle.machine_parts.specs.Links.{instruction_at};
ghost use Rattle.machine_parts.specs.Rooms.{MembersWithin};
ghost use Rattle.machine.specs.Memory.{HasMemory, HasSpace};
ghost use Rattle.machine.specs.Seen.{Comes, configuration_of, room_of, world_of, codes_in, limits_in};
ghost use Rattle.machine.specs.Sparing.{InstructionSpares, Spares};
ghost use Rattle.machine.specs.Runs.{CountsFit};

use crate::access_rows::call_method;
use crate::boxes::{box_number, unbox};
use crate::configuration::{Configuration, Limits, Step};
use crate::dynamic_rows::dynamic;
use crate::jumps::numbered;
use crate::members::named;
use crate::operands::plain;
use crate::operators::arithmetic;
use crate::references::quoted;
use crate::typed::{cast, sized_by_name, typed};
use code_meaning::Word;
use machine_parts::Executable;
use pl_code::Instruction;

/// Does the instruction at the line of the newest frame.
#[inline(always)]
pub fn step(run: &mut Configuration, executable: &Executable, limits: &Limits) -> Step
    requires reached { MembersWithin executable.now run.old.world.reached.room }
    requires counts { CountsFit (configuration_of run.old) }
    ensures exact { Comes (step (codes_in executable.now) (limits_in executable.now limits.now) (configuration_of run.old)) result run.new }
    ensures memory { Spares (codes_in executable.now) (limits_in executable.now limits.now) (configuration_of run.old) → HasSpace executable.now limits.now.depth run.old → HasMemory result }
    ensures room { room_of run.new ≡ room_of run.old }
{
    match executable.instruction(&run.frames) {
        Some(instruction) => execute(run, executable, limits, instruction),
        None => Step::Stuck,
    }
}

#[inline(always)]
fn execute(
    run: &mut Configuration,
    executable: &Executable,
    limits: &Limits,
    instruction: &Instruction,
) -> Step
    requires reached { MembersWithin executable.now run.old.world.reached.room }
    requires counts { run.old.frames.top.turns + run.old.world.ticks < 2 ^ 64 }
    requires instruction { instruction_at executable.now run.old.frames.top ≡ Some instruction.now }
    ensures exact { Comes (act (codes_in executable.now) (limits_in executable.now limits.now) instruction.now run.old.frames.top run.old.frames.below (world_of run.old.world)) result run.new }
    ensures memory { InstructionSpares (allowed_in (limits_in executable.now limits.now) run.old.frames.top.text) instruction.now run.old.frames.top run.old.world.heap → HasSpace executable.now limits.now.depth run.old → suc run.old.frames.top.line < 2 ^ 64 → HasMemory result }
    ensures room { room_of run.new ≡ room_of run.old }
{
    match instruction {
        Instruction::Plain(kind) => plain(run, executable, limits, *kind),
        Instruction::Arithmetic(op, width) => arithmetic(run, executable, limits, *op, *width),
        Instruction::Int(number) => run.push(Word::I(*number)),
        Instruction::Long(number) => run.push(Word::J(*number)),
        Instruction::Numbered(kind, number) => numbered(run, executable, limits, *kind, *number),
        Instruction::Boxing(primitive) => box_number(run, *primitive),
        Instruction::Unboxing(primitive, way) => unbox(run, executable, limits, *primitive, *way),
        Instruction::Dynamic(op) => dynamic(run, executable, limits, *op),
        Instruction::Quoted(kind, text) => quoted(run, executable, limits, *kind, text),
        Instruction::Typed(kind, _) => typed(run, executable, limits, *kind),
        Instruction::Sized(kind, _, count) => {
            sized_by_name(run, executable, limits, *kind, *count)
        }
        Instruction::DefCall(name, count) => {
            call_method(run, executable, limits, name.as_str(), *count)
        }
        Instruction::Cast(_, way) => cast(run, executable, limits, *way),
        Instruction::Invoke(_) => named(run, executable, limits),
        Instruction::New(_) => named(run, executable, limits),
        Instruction::Field(_) => named(run, executable, limits),
        _ => Step::Stuck,
    }
}
