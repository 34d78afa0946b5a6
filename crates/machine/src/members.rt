//! Members: calls, what is made by constructors, and fields.
ghost use Rattle.std.specs.Prelude.{◌≡◌, ◌≤◌, ◌<◌, ◌+◌, ◌^◌, suc, length, true, List, [], Some, IfOk, IsOk};
ghost use Rattle.def_access.specs.Members.{does};
ghost use Rattle.def_access.specs.Answers.{NeedsMemory};
ghost use Rattle.machine.specs.Sparing.{CallSpares, MemberSpares, ReceivingSpares};
ghost use Rattle.machine_parts.specs.Links.{link_at, linked_member};
ghost use Rattle.machine_parts.specs.Rooms.{MembersWithin};
ghost use Rattle.code_meaning.specs.declared.word.Word.{Word};
ghost use Rattle.number_ops.specs.Outcomes.{effect, null_error};
ghost use Rattle.run_state.specs.Calls.{suits_member, wrong_class};
ghost use Rattle.run_state.specs.World.{acts_in, pay_member};
ghost use Rattle.code_meaning.specs.Members.{Receives, count_of, given_as, received};
ghost use Rattle.allowlist.specs.Index.{member_in};
ghost use Rattle.machine.specs.Memory.{HasMemory, HasSpace, OnlyToMake};
ghost use Rattle.code_meaning.specs.Machine as spec;
ghost use Rattle.machine.specs.Seen.{Comes, room_of, with_stack, world_of, codes_in, limits_in, text_of};
ghost use Rattle.machine.specs.Rows.{beside};
ghost use Rattle.machine.specs.Members.{filled, receiving_of};
ghost use Rattle.pl_types.specs.Host.{no_host};

use crate::configuration::{Configuration, Limits, RunEnd, Step};
use crate::paying::pay_member;
use crate::receiving::{Receiving, received};
use crate::suiting::suits_member;
use crate::throwing::answered_as;
use allowlist::MemberType;
use code_meaning::Word;
use machine_parts::{Executable, Frames, Link, Words, count_of};
use object_heap::throw;
use pl_types::classes::{CLASS_CAST_EXCEPTION, NULL_POINTER_EXCEPTION};
use std::alloc::AllocError;

/// What the member does that the instruction names: a method is called, a value made by a constructor, or a field read.
pub fn named(run: &mut Configuration, executable: &Executable, limits: &Limits) -> Step
    requires reached { MembersWithin executable.now run.old.world.reached.room }
    ensures exact { Comes (spec.member_act (codes_in executable.now) (limits_in executable.now limits.now) (text_of executable.now run.old.frames.top.text).allow (linked_member (link_at executable.now run.old.frames.top)) run.old.frames.top run.old.frames.below (world_of run.old.world)) result run.new }
    ensures memory { MemberSpares (text_of executable.now run.old.frames.top.text).allow (linked_member (link_at executable.now run.old.frames.top)) run.old.frames.top.stack run.old.world.heap.objects → HasSpace executable.now limits.now.depth run.old → suc run.old.frames.top.line < 2 ^ 64 → HasMemory result }
    ensures room { room_of run.new ≡ room_of run.old }
{
    match executable.link(&run.frames) {
        Some(Link::Member(member)) => call_numbered(run, executable, limits, member.number()),
        _ => Step::Stuck,
    }
}

// The member of this number.
fn call_numbered(
    run: &mut Configuration,
    executable: &Executable,
    limits: &Limits,
    number: u32,
) -> Step
    requires listed { number < length (text_of executable.now run.old.frames.top.text).allow.members }
    requires reached { MembersWithin executable.now run.old.world.reached.room }
    ensures exact { Comes (spec.member_act (codes_in executable.now) (limits_in executable.now limits.now) (text_of executable.now run.old.frames.top.text).allow (Some number) run.old.frames.top run.old.frames.below (world_of run.old.world)) result run.new }
    ensures memory { CallSpares (spec.take_words (count_of (member_in (text_of executable.now run.old.frames.top.text).allow number)) run.old.frames.top.stack []) (member_in (text_of executable.now run.old.frames.top.text).allow number) number run.old.world.heap.objects → HasSpace executable.now limits.now.depth run.old → suc run.old.frames.top.line < 2 ^ 64 → HasMemory result }
    ensures room { room_of run.new ≡ room_of run.old }
{
    let called = executable.member(&run.frames, number);
    call_member(run, executable, limits, number, called)
}

fn call_member(
    run: &mut Configuration,
    executable: &Executable,
    limits: &Limits,
    number: u32,
    called: &MemberType,
) -> Step
    requires { number < run.old.world.reached.room }
    ensures exact { Comes (spec.on_words (spec.take_words (count_of called.now) run.old.frames.top.stack []) (λ words stack. spec.on_received (codes_in executable.now) (limits_in executable.now limits.now) (received called.now words) number called.now run.old.frames.top run.old.frames.below (world_of run.old.world) stack)) result run.new }
    ensures memory { CallSpares (spec.take_words (count_of called.now) run.old.frames.top.stack []) called.now number run.old.world.heap.objects → count_of called.now ≤ run.old.words.room → count_of called.now ≤ run.old.values.room → run.old.frames.count < run.old.frames.words → suc run.old.frames.top.line < 2 ^ 64 → HasMemory result }
    ensures room { room_of run.new ≡ room_of run.old }
{
    match words_of(&mut run.frames, &mut run.words, called) {
        Ok(true) => call_with(run, executable, limits, number, called),
        Ok(false) => Step::Stuck,
        Err(_) => Step::NoMemory,
    }
}

// The words that a call takes off the stack, the deepest on the top. It is false where there are too few.
fn words_of(frames: &mut Frames, taken: &mut Words, called: &MemberType) -> Result<bool, AllocError>
    ensures words { IfOk result (λ enough. beside frames.new.top.stack (filled enough taken.new.items) ≡ spec.take_words (count_of called.now) frames.old.top.stack []) }
    ensures memory { count_of called.now ≤ taken.old.room → IsOk result }
    ensures room { (frames.new.count ≤ frames.old.count) × (frames.new.words ≡ frames.old.words) × (frames.new.depth ≡ frames.old.depth) × (taken.new.room ≡ taken.old.room) }
    ensures taken { IfOk result (λ enough. enough ≡ true → length taken.new.items ≡ count_of called.now) }
    ensures top { IfOk result (λ enough. frames.new.top ≡ with_stack frames.old.top frames.new.top.stack) }
    ensures below { IfOk result (λ enough. frames.new.below ≡ frames.old.below) }
{
    taken.clear();
    take_words(frames, count_of(called), taken)
}

// So many words off the stack, the deepest on the top.
pub(crate) fn take_words(
    frames: &mut Frames,
    count: usize,
    taken: &mut Words,
) -> Result<bool, AllocError>
    ensures words { IfOk result (λ enough. beside frames.new.top.stack (filled enough taken.new.items) ≡ spec.take_words count frames.old.top.stack taken.old.items) }
    ensures memory { length taken.old.items + count ≤ taken.old.room → IsOk result }
    ensures room { (frames.new.count ≤ frames.old.count) × (frames.new.words ≡ frames.old.words) × (frames.new.depth ≡ frames.old.depth) × (taken.new.room ≡ taken.old.room) }
    ensures taken { IfOk result (λ enough. enough ≡ true → length taken.new.items ≡ length taken.old.items + count) }
    ensures top { IfOk result (λ enough. frames.new.top ≡ with_stack frames.old.top frames.new.top.stack) }
    ensures below { IfOk result (λ enough. frames.new.below ≡ frames.old.below) }
{
    'words: for place in 0..count {
        match frames.pop() {
            Some(word) => taken.push(word)?,
            None => return Ok(false),
        }
    }
    Ok(true)
}

// A call with words that were taken off the stack.
fn call_with(
    run: &mut Configuration,
    executable: &Executable,
    limits: &Limits,
    number: u32,
    called: &MemberType,
) -> Step
    requires { number < run.old.world.reached.room }
    ensures exact { (stack : List Word) → Comes (spec.on_received (codes_in executable.now) (limits_in executable.now limits.now) (received called.now run.old.words.items) number called.now (with_stack run.old.frames.top stack) run.old.frames.below (world_of run.old.world) run.old.frames.top.stack) result run.new }
    ensures memory { ReceivingSpares called.now (received called.now run.old.words.items) number run.old.world.heap.objects → length run.old.words.items ≤ run.old.values.room → run.old.frames.count < run.old.frames.words → suc run.old.frames.top.line < 2 ^ 64 → HasMemory result }
    ensures room { room_of run.new ≡ room_of run.old }
{
    match received(called, &mut run.words, &mut run.values) {
        Ok(receiving) => call_on(run, executable, limits, number, called, receiving),
        Err(_) => Step::NoMemory,
    }
}

// A receiver that is null throws before the call is paid; a field is read without a tick.
fn call_on(
    run: &mut Configuration,
    executable: &Executable,
    limits: &Limits,
    number: u32,
    called: &MemberType,
    receiving: Receiving,
) -> Step
    requires { number < run.old.world.reached.room }
    ensures exact { (stack : List Word) → Comes (spec.on_received (codes_in executable.now) (limits_in executable.now limits.now) (receiving_of receiving run.old.values.items) number called.now (with_stack run.old.frames.top stack) run.old.frames.below (world_of run.old.world) run.old.frames.top.stack) result run.new }
    ensures memory { ReceivingSpares called.now (receiving_of receiving run.old.values.items) number run.old.world.heap.objects → run.old.frames.count < run.old.frames.words → suc run.old.frames.top.line < 2 ^ 64 → HasMemory result }
    ensures room { room_of run.new ≡ room_of run.old }
{
    match receiving {
        Receiving::Unfit => Step::Stuck,
        Receiving::OnNull => on_null(run, executable, limits, called),
        Receiving::Receives => test_and_pay(run, executable, limits, number, called),
        Receiving::Reads => {
            run.values.clear();
            act(run, executable, limits, number, called)
        }
    }
}

// Throws the exception of a receiver that is null. It wants memory for the exception alone.
#[tactic(auto, using(crate::proofs::Spared::only_to_make))]
fn on_null(
    run: &mut Configuration,
    executable: &Executable,
    limits: &Limits,
    called: &MemberType,
) -> Step
    ensures exact { (stack : List Word) → Comes (spec.on_outcome (codes_in executable.now) (limits_in executable.now limits.now) (acts_in (world_of run.old.world) (effect run.old.world.heap null_error)) (given_as called.now.result) (with_stack run.old.frames.top stack) run.old.frames.below (world_of run.old.world) run.old.frames.top.stack) result run.new }
    ensures memory { run.old.frames.count < run.old.frames.words → suc run.old.frames.top.line < 2 ^ 64 → OnlyToMake run.old.world.heap run.new.world.heap result }
    ensures room { room_of run.new ≡ room_of run.old }
{
    let thrown = throw(&mut run.world.heap, NULL_POINTER_EXCEPTION, None);
    answered_as(run, executable, limits, &called.result, thrown)
}

// A receiver or an argument of another class throws before the call is paid.
fn test_and_pay(
    run: &mut Configuration,
    executable: &Executable,
    limits: &Limits,
    number: u32,
    called: &MemberType,
) -> Step
    requires { number < run.old.world.reached.room }
    ensures exact { (stack : List Word) → Comes (spec.on_tested (codes_in executable.now) (limits_in executable.now limits.now) (suits_member run.old.world.heap.objects called.now run.old.values.items) number run.old.values.items called.now (with_stack run.old.frames.top stack) run.old.frames.below (world_of run.old.world) run.old.frames.top.stack) result run.new }
    ensures memory { suits_member run.old.world.heap.objects called.now run.old.values.items ≡ true → (NeedsMemory run.old.world.heap.objects number run.old.values.items → ⊥) → run.old.frames.count < run.old.frames.words → suc run.old.frames.top.line < 2 ^ 64 → HasMemory result }
    ensures room { room_of run.new ≡ room_of run.old }
{
    if suits_member(&run.world.heap, called, run.values.as_slice()) {
        pay_and_act(run, executable, limits, number, called)
    } else {
        on_wrong_class(run, executable, limits, called)
    }
}

// Throws the exception of a receiver or an argument of another class. It wants memory for the exception alone.
#[tactic(auto, using(crate::proofs::Spared::only_to_make))]
fn on_wrong_class(
    run: &mut Configuration,
    executable: &Executable,
    limits: &Limits,
    called: &MemberType,
) -> Step
    ensures exact { (stack : List Word) → Comes (spec.on_outcome (codes_in executable.now) (limits_in executable.now limits.now) (acts_in (world_of run.old.world) (effect run.old.world.heap wrong_class)) (given_as called.now.result) (with_stack run.old.frames.top stack) run.old.frames.below (world_of run.old.world) run.old.frames.top.stack) result run.new }
    ensures memory { run.old.frames.count < run.old.frames.words → suc run.old.frames.top.line < 2 ^ 64 → OnlyToMake run.old.world.heap run.new.world.heap result }
    ensures room { room_of run.new ≡ room_of run.old }
{
    let thrown = throw(&mut run.world.heap, CLASS_CAST_EXCEPTION, None);
    answered_as(run, executable, limits, &called.result, thrown)
}

fn pay_and_act(
    run: &mut Configuration,
    executable: &Executable,
    limits: &Limits,
    number: u32,
    called: &MemberType,
) -> Step
    requires { number < run.old.world.reached.room }
    ensures exact { (stack : List Word) → Comes (spec.on_paid (codes_in executable.now) (limits_in executable.now limits.now) (pay_member run.old.frames.top.text number (world_of run.old.world)) number run.old.values.items called.now (with_stack run.old.frames.top stack) run.old.frames.below run.old.frames.top.stack) result run.new }
    ensures memory { (NeedsMemory run.old.world.heap.objects number run.old.values.items → ⊥) → run.old.frames.count < run.old.frames.words → suc run.old.frames.top.line < 2 ^ 64 → HasMemory result }
    ensures room { room_of run.new ≡ room_of run.old }
{
    match pay_member(&mut run.world, run.frames.text(), number) {
        Ok(None) => act(run, executable, limits, number, called),
        Ok(Some(which)) => {
            run.end = RunEnd::Limit {
                limit: which,
                place: None,
            };
            Step::Ends
        }
        Err(_) => Step::NoMemory,
    }
}

// What the member does.
#[tactic(auto, using(crate::proofs::Spared::is_answered))]
fn act(
    run: &mut Configuration,
    executable: &Executable,
    limits: &Limits,
    number: u32,
    called: &MemberType,
) -> Step
    ensures exact { (stack : List Word) → Comes (spec.on_act (codes_in executable.now) (limits_in executable.now limits.now) (does no_host number run.old.values.items run.old.world.heap) called.now (with_stack run.old.frames.top stack) run.old.frames.below (world_of run.old.world) run.old.frames.top.stack) result run.new }
    ensures memory { (NeedsMemory run.old.world.heap.objects number run.old.values.items → ⊥) → run.old.frames.count < run.old.frames.words → suc run.old.frames.top.line < 2 ^ 64 → HasMemory result }
    ensures room { room_of run.new ≡ room_of run.old }
{
    match def_access::call(number, &mut run.world.heap, run.values.as_slice()) {
        Some(answer) => answered_as(run, executable, limits, &called.result, answer),
        None => Step::Stuck,
    }
}
