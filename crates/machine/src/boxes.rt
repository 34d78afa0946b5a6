//! Boxes: a primitive as a value, and a value as a primitive.
ghost use Rattle.std.specs.Prelude.{◌≡◌, ◌≤◌, ◌<◌, ◌^◌, List, ◌∷◌, suc};
ghost use Rattle.pl_types.specs.declared.ty.Ty.TheVariants as ty;
ghost use Rattle.object_heap.specs.Effects.{Answers};
ghost use Rattle.number_ops.specs.Outcomes.{effect};
ghost use Rattle.number_ops.specs.Casts.{cast_at_run_time};
ghost use Rattle.run_state.specs.World.{acts_in};
ghost use Rattle.code_meaning.specs.Words as words;
ghost use Rattle.code_meaning.specs.declared.word.Word.{Word};
ghost use Rattle.code_meaning.specs.declared.word.Word.TheVariants.{R};
ghost use Rattle.code_meaning.specs.Machine.{on_top, on_value, on_reference, on_outcome, to_line, is_written};
ghost use Rattle.machine.specs.Seen.{Comes, room_of, with_stack, world_of, codes_in, limits_in};
ghost use Rattle.number_ops.specs.Outcomes.{WantsMemory};
ghost use Rattle.machine.specs.Sparing.{CastSpares, OnReference, OnValue};
ghost use Rattle.machine.specs.Memory.{HasMemory};

use crate::configuration::{Configuration, Limits, Step};
use crate::throwing::answered;
use code_meaning::Word;
use machine_parts::Executable;
use machine_paths::boxed;
use number_ops::to_type;
use object_heap::{Answer, Heap};
use object_values::Value;
use pl_code::Way;
use pl_types::{Primitive, Ty};

/// Makes a value of the number on the stack.
pub fn box_number(run: &mut Configuration, primitive: Primitive) -> Step
    ensures exact { Comes (on_top run.old.frames.top.stack (λ word stack. on_value (words.boxed primitive word) (λ value. to_line run.old.frames.top run.old.frames.below (world_of run.old.world) (suc run.old.frames.top.line) (R value ∷ stack)))) result run.new }
    ensures memory { run.old.frames.count ≤ run.old.frames.words → suc run.old.frames.top.line < 2 ^ 64 → HasMemory result }
    ensures room { room_of run.new ≡ room_of run.old }
{
    match run.frames.pop() {
        Some(word) => match boxed(primitive, &word) {
            Some(value) => run.push(Word::R(value)),
            None => Step::Stuck,
        },
        None => Step::Stuck,
    }
}

/// Makes a number of a primitive of the value on the stack.
pub fn unbox(
    run: &mut Configuration,
    executable: &Executable,
    limits: &Limits,
    primitive: Primitive,
    way: Way,
) -> Step
    ensures exact { Comes (on_top run.old.frames.top.stack (λ word stack. on_reference word (λ value. on_outcome (codes_in executable.now) (limits_in executable.now limits.now) (acts_in (world_of run.old.world) (effect run.old.world.heap (cast_at_run_time run.old.world.heap.objects value (ty.Prim primitive) (is_written way)))) words.unboxed run.old.frames.top run.old.frames.below (world_of run.old.world) stack))) result run.new }
    ensures memory { OnValue run.old.frames.top.stack (CastSpares run.old.world.heap.objects (ty.Prim primitive) (is_written way)) → run.old.frames.count ≤ run.old.frames.words → suc run.old.frames.top.line < 2 ^ 64 → HasMemory result }
    ensures room { room_of run.new ≡ room_of run.old }
{
    match run.frames.pop() {
        Some(word) => unbox_word(run, executable, limits, &word, primitive, way),
        None => Step::Stuck,
    }
}

// The same of a word that was taken off the stack.
fn unbox_word(
    run: &mut Configuration,
    executable: &Executable,
    limits: &Limits,
    word: &Word,
    primitive: Primitive,
    way: Way,
) -> Step
    ensures exact { (stack : List Word) → Comes (on_reference word.now (λ value. on_outcome (codes_in executable.now) (limits_in executable.now limits.now) (acts_in (world_of run.old.world) (effect run.old.world.heap (cast_at_run_time run.old.world.heap.objects value (ty.Prim primitive) (is_written way)))) words.unboxed (with_stack run.old.frames.top stack) run.old.frames.below (world_of run.old.world) run.old.frames.top.stack)) result run.new }
    ensures memory { OnReference word.now (CastSpares run.old.world.heap.objects (ty.Prim primitive) (is_written way)) → run.old.frames.count < run.old.frames.words → suc run.old.frames.top.line < 2 ^ 64 → HasMemory result }
    ensures room { room_of run.new ≡ room_of run.old }
{
    match word {
        Word::R(value) => {
            let answer = cast(&mut run.world.heap, value, primitive, way);
            answered(run, executable, limits, answer)
        }
        _ => Step::Stuck,
    }
}

fn cast(heap: &mut Heap, value: &Value, primitive: Primitive, way: Way) -> Answer
    ensures exact { Answers (effect heap.old (cast_at_run_time heap.old.objects value.now (ty.Prim primitive) (is_written way))) heap.old heap.new result }
    ensures memory { WantsMemory (cast_at_run_time heap.old.objects value.now (ty.Prim primitive) (is_written way)) result }
{
    to_type(heap, value, &Ty::Prim(primitive), is_written(way))
}

/// Whether a cast is written in the script.
pub fn is_written(way: Way) -> bool
    ensures { result ≡ is_written way }
{
    match way {
        Way::Implicit => false,
        Way::Explicit => true,
    }
}
