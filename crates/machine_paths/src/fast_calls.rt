//! Calls and returns on the fast path. What is returned there is a number. Where a limit bars a call, or there is no memory or no frame
//! below, nothing is changed.
ghost use Rattle.std.specs.Prelude.{◌≡◌, Some, List, ℕ, slice_get};
ghost use Rattle.object_heap.specs.Store.{Store};
ghost use Rattle.run_state.specs.World.{Limits, World};
ghost use Rattle.pl_code.specs.declared.kinds.Plain.TheVariants as plains;
ghost use Rattle.code_meaning.specs.Machine.{Codes, code_in, function_of, gives_back, on_call, on_top, plain_act};
ghost use Rattle.machine_paths.specs.Fast.{Does, KeepsRoom, in_world, moves, placed, stays};
ghost use Rattle.machine_parts.specs.Code.{codes_in};

use code_meaning::Word;
use machine_parts::{Executable, Frames};
use pl_code::FunCode;

/// What came of an instruction of the fast path.
#[derive(Clone, Copy)]
pub enum Taken {
    /// It was done, and the same function runs on.
    Here,
    /// It was done, and another function runs.
    Elsewhere,
    /// It is none of the path, and nothing was changed.
    Not,
}

/// What came of an instruction that stays in its function, by whether it was done.
#[inline(always)]
pub fn stays(done: bool) -> Taken
    ensures { result ≡ stays done }
{
    if done { Taken::Here } else { Taken::Not }
}

/// The same of one that goes to another function.
#[inline(always)]
pub fn moves(done: bool) -> Taken
    ensures { result ≡ moves done }
{
    if done { Taken::Elsewhere } else { Taken::Not }
}

/// Calls the function of this number: whether it was called.
#[inline(always)]
pub fn call(
    frames: &mut Frames,
    ticks: &mut u64,
    executable: &Executable,
    depth: u32,
    number: u32,
) -> bool
    ensures exact { (limits : Limits) (store : Store) (reached : List ℕ) → limits.depth ≡ depth → Does (on_call (codes_in executable.now) limits (slice_get (code_in (codes_in executable.now) frames.old.top.text) number) number frames.old.top frames.old.below (record { store = store; ticks = ticks.old; reached = reached })) (placed frames.old store ticks.old reached) (placed frames.new store ticks.new reached) result }
    ensures room { KeepsRoom frames.old frames.new }
{
    match executable.function_at(frames, number) {
        Some(function) => enter(frames, ticks, function, depth, number),
        None => false,
    }
}

#[inline(always)]
fn enter(frames: &mut Frames, ticks: &mut u64, function: &FunCode, depth: u32, number: u32) -> bool
    ensures exact { (codes : Codes) (limits : Limits) (store : Store) (reached : List ℕ) → limits.depth ≡ depth → Does (on_call codes limits (Some function.now) number frames.old.top frames.old.below (record { store = store; ticks = ticks.old; reached = reached })) (placed frames.old store ticks.old reached) (placed frames.new store ticks.new reached) result }
    ensures room { KeepsRoom frames.old frames.new }
{
    if *ticks == 0 {
        return false;
    }
    if frames.depth() >= depth as usize {
        return false;
    }
    if !frames.enter_reserved(number, function.params.len(), function.locals.as_slice()) {
        return false;
    }
    *ticks -= 1;
    true
}

/// Returns the number on the stack to the frame below: whether it was returned.
#[inline(always)]
pub fn give_back(frames: &mut Frames, function: &FunCode) -> bool
    ensures exact { (codes : Codes) (limits : Limits) (w : World) → function_of codes frames.old.top ≡ Some function.now → Does (plain_act codes limits plains.Ret frames.old.top frames.old.below w) (in_world frames.old w) (in_world frames.new w) result }
    ensures room { KeepsRoom frames.old frames.new }
{
    match function.result {
        None => false,
        Some(_) => give_number(frames),
    }
}

#[inline(always)]
#[tactic(auto, using(crate::proofs::Moving::given_back))]
fn give_number(frames: &mut Frames) -> bool
    ensures exact { (codes : Codes) (limits : Limits) (w : World) → Does (on_top frames.old.top.stack (λ word rest. gives_back codes limits frames.old.below frames.old.top.due (Some word) w)) (in_world frames.old w) (in_world frames.new w) result }
    ensures room { KeepsRoom frames.old frames.new }
{
    match frames.upper() {
        Some(Word::I(a)) => {
            let held = *a;
            frames.give_back(Word::I(held))
        }
        Some(Word::J(a)) => {
            let held = *a;
            frames.give_back(Word::J(held))
        }
        _ => false,
    }
}
