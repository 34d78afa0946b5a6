//! Indexes, names and calls on values whose classes are found when the code runs: what is found is looked up, paid and called, or done at
//! once.
ghost use Rattle.std.specs.Prelude.{◌≡◌, ◌≤◌, ◌<◌, List, [], ◌∷◌, Some, suc, length};
ghost use Rattle.object_heap.specs.Store.{Store};
ghost use Rattle.object_values.specs.Utf16.{units};
ghost use Rattle.pl_types.specs.Host.{no_host};
ghost use Rattle.def_access.specs.Members.{does};
ghost use Rattle.def_access.specs.Access as access;
ghost use Rattle.def_access.specs.Access.{Access};
ghost use Rattle.def_access.specs.Coming as coming;
ghost use Rattle.run_state.specs.World.{pay_member, with_store};
ghost use Rattle.code_meaning.specs.declared.word.Word.{Word};
ghost use Rattle.code_meaning.specs.Machine as spec;
ghost use Rattle.code_meaning.specs.Machine.{on_access, on_first, on_reference, on_top, on_values, on_words, on_write, take_words};
ghost use Rattle.code_meaning.specs.Members.{references_in};
ghost use Rattle.machine_parts.specs.Links.{link_at, methods_in, methods_of};
ghost use Rattle.machine_parts.specs.Rooms.{MembersWithin};
ghost use Rattle.machine.specs.Rows.{CallsWithin, on_pair, on_references, on_triple, on_three};
ghost use Rattle.machine.specs.Seen.{Comes, room_of, with_stack, world_of, codes_in, limits_in, text_of};

use crate::configuration::{Configuration, Limits, RunEnd, Step};
use crate::name_keys::{name_found, name_put_found};
use crate::parts::{parts_off, references_of};
use crate::paying::pay_member;
use crate::receiving::reference_in;
use crate::throwing::{answered_done, answered_whole};
use code_meaning::Word;
use def_access::{Accessed, index_found, index_put_found};
use machine_parts::{Executable, MethodTable, Purpose, method_by_class};
use object_values::{UText, Value};

// ---- members that were found

// Pays the call of a member and calls it: what it gives is a reference.
fn call_found(
    run: &mut Configuration,
    executable: &Executable,
    limits: &Limits,
    number: u32,
    values: &[Value],
) -> Step
    requires { number < run.old.world.reached.room }
    ensures exact { (stack : List Word) → Comes (spec.on_found_paid (codes_in executable.now) (limits_in executable.now limits.now) (pay_member run.old.frames.top.text number (world_of run.old.world)) number values.now (with_stack run.old.frames.top stack) run.old.frames.below run.old.frames.top.stack) result run.new }
    ensures room { room_of run.new ≡ room_of run.old }
{
    match pay_member(&mut run.world, run.frames.text(), number) {
        Ok(None) => act_found(run, executable, limits, number, values),
        Ok(Some(which)) => {
            run.end = RunEnd::Limit {
                limit: which,
                place: None,
            };
            Step::Ends
        }
        Err(_) => Step::NoMemory,
    }
}

fn act_found(
    run: &mut Configuration,
    executable: &Executable,
    limits: &Limits,
    number: u32,
    values: &[Value],
) -> Step
    ensures exact { (stack : List Word) → Comes (spec.on_found (codes_in executable.now) (limits_in executable.now limits.now) (does no_host number values.now run.old.world.heap) (with_stack run.old.frames.top stack) run.old.frames.below (world_of run.old.world) run.old.frames.top.stack) result run.new }
    ensures room { room_of run.new ≡ room_of run.old }
{
    match def_access::call(number, &mut run.world.heap, values) {
        Some(answer) => answered_whole(run, executable, limits, answer),
        None => Step::Stuck,
    }
}

// The same of one that writes: what it gives is dropped.
fn call_put(
    run: &mut Configuration,
    executable: &Executable,
    limits: &Limits,
    number: u32,
    values: &[Value],
) -> Step
    requires { number < run.old.world.reached.room }
    ensures exact { (stack : List Word) → Comes (spec.on_put_paid (codes_in executable.now) (limits_in executable.now limits.now) (pay_member run.old.frames.top.text number (world_of run.old.world)) number values.now (with_stack run.old.frames.top stack) run.old.frames.below run.old.frames.top.stack) result run.new }
    ensures room { room_of run.new ≡ room_of run.old }
{
    match pay_member(&mut run.world, run.frames.text(), number) {
        Ok(None) => act_put(run, executable, limits, number, values),
        Ok(Some(which)) => {
            run.end = RunEnd::Limit {
                limit: which,
                place: None,
            };
            Step::Ends
        }
        Err(_) => Step::NoMemory,
    }
}

fn act_put(
    run: &mut Configuration,
    executable: &Executable,
    limits: &Limits,
    number: u32,
    values: &[Value],
) -> Step
    ensures exact { (stack : List Word) → Comes (spec.on_put (codes_in executable.now) (limits_in executable.now limits.now) (does no_host number values.now run.old.world.heap) (with_stack run.old.frames.top stack) run.old.frames.below (world_of run.old.world) run.old.frames.top.stack) result run.new }
    ensures room { room_of run.new ≡ room_of run.old }
{
    match def_access::call(number, &mut run.world.heap, values) {
        Some(answer) => answered_done(run, executable, limits, answer),
        None => Step::Stuck,
    }
}

// ---- what comes of an access

// Of one that reads.
fn read_accessed(
    run: &mut Configuration,
    executable: &Executable,
    limits: &Limits,
    accessed: Accessed,
    receiver: Value,
) -> Step
    requires { CallsWithin accessed run.old.world.reached.room }
    ensures exact { (access : Access) (old : Store) (stack : List Word) → coming.Comes access old run.old.world.heap receiver [] accessed → Comes (on_access (codes_in executable.now) (limits_in executable.now limits.now) access (with_stack run.old.frames.top stack) run.old.frames.below (with_store (world_of run.old.world) old) run.old.frames.top.stack) result run.new }
    ensures room { room_of run.new ≡ room_of run.old }
{
    match accessed {
        Accessed::Calls(number) => {
            let values = [receiver];
            call_found(run, executable, limits, number, &values)
        }
        Accessed::CallsWith(number, first) => {
            let values = [receiver, first];
            call_found(run, executable, limits, number, &values)
        }
        Accessed::Acts(answer) => answered_whole(run, executable, limits, answer),
    }
}

// Of one that writes a value.
fn write_accessed(
    run: &mut Configuration,
    executable: &Executable,
    limits: &Limits,
    accessed: Accessed,
    receiver: Value,
    value: Value,
) -> Step
    requires { CallsWithin accessed run.old.world.reached.room }
    ensures exact { (access : Access) (old : Store) (stack : List Word) → coming.Comes access old run.old.world.heap receiver (value ∷ []) accessed → Comes (on_write (codes_in executable.now) (limits_in executable.now limits.now) access (with_stack run.old.frames.top stack) run.old.frames.below (with_store (world_of run.old.world) old) run.old.frames.top.stack) result run.new }
    ensures room { room_of run.new ≡ room_of run.old }
{
    match accessed {
        Accessed::Calls(number) => {
            let values = [receiver, value];
            call_put(run, executable, limits, number, &values)
        }
        Accessed::CallsWith(number, first) => {
            let values = [receiver, first, value];
            call_put(run, executable, limits, number, &values)
        }
        Accessed::Acts(answer) => answered_done(run, executable, limits, answer),
    }
}

// Of a call with these values, the receiver first.
fn call_accessed(
    run: &mut Configuration,
    executable: &Executable,
    limits: &Limits,
    accessed: Accessed,
    values: &[Value],
) -> Step
    requires { CallsWithin accessed run.old.world.reached.room }
    ensures exact { (access : Access) (old : Store) (stack : List Word) → coming.ComesOn access old run.old.world.heap values.now accessed → Comes (on_access (codes_in executable.now) (limits_in executable.now limits.now) access (with_stack run.old.frames.top stack) run.old.frames.below (with_store (world_of run.old.world) old) run.old.frames.top.stack) result run.new }
    ensures room { room_of run.new ≡ room_of run.old }
{
    match accessed {
        Accessed::Calls(number) => call_found(run, executable, limits, number, values),
        Accessed::CallsWith(_, _) => Step::Stuck,
        Accessed::Acts(answer) => answered_whole(run, executable, limits, answer),
    }
}

// ---- indexes

/// What stands at an index of a value.
pub fn get_index(run: &mut Configuration, executable: &Executable, limits: &Limits) -> Step
    requires reached { MembersWithin executable.now run.old.world.reached.room }
    ensures exact { Comes (on_pair run.old.frames.top.stack (λ receiver index stack. on_access (codes_in executable.now) (limits_in executable.now limits.now) (access.index_read (text_of executable.now run.old.frames.top.text).allow run.old.world.heap receiver index) run.old.frames.top run.old.frames.below (world_of run.old.world) stack)) result run.new }
    ensures room { room_of run.new ≡ room_of run.old }
{
    match run.frames.pop() {
        Some(upper) => match run.frames.pop() {
            Some(lower) => get_index_words(run, executable, limits, lower, upper),
            None => Step::Stuck,
        },
        None => Step::Stuck,
    }
}

fn get_index_words(
    run: &mut Configuration,
    executable: &Executable,
    limits: &Limits,
    lower: Word,
    upper: Word,
) -> Step
    requires reached { MembersWithin executable.now run.old.world.reached.room }
    ensures exact { (stack : List Word) → Comes (on_references lower upper (λ receiver index. on_access (codes_in executable.now) (limits_in executable.now limits.now) (access.index_read (text_of executable.now run.old.frames.top.text).allow run.old.world.heap receiver index) (with_stack run.old.frames.top stack) run.old.frames.below (world_of run.old.world) run.old.frames.top.stack)) result run.new }
    ensures room { room_of run.new ≡ room_of run.old }
{
    match reference_in(upper) {
        Some(index) => match reference_in(lower) {
            Some(receiver) => get_index_values(run, executable, limits, receiver, index),
            None => Step::Stuck,
        },
        None => Step::Stuck,
    }
}

#[tactic(auto, using(crate::proofs::Accessing::index_read_within), unfolding(def_access::specs::Access::index_read))]
fn get_index_values(
    run: &mut Configuration,
    executable: &Executable,
    limits: &Limits,
    receiver: Value,
    index: Value,
) -> Step
    requires reached { length (text_of executable.now run.old.frames.top.text).allow.members ≤ run.old.world.reached.room }
    ensures exact { (stack : List Word) → Comes (on_access (codes_in executable.now) (limits_in executable.now limits.now) (access.index_read (text_of executable.now run.old.frames.top.text).allow run.old.world.heap receiver index) (with_stack run.old.frames.top stack) run.old.frames.below (world_of run.old.world) run.old.frames.top.stack) result run.new }
    ensures room { room_of run.new ≡ room_of run.old }
{
    let found = executable.index_access(&run.frames, &run.world.heap, &receiver, Purpose::Read);
    let accessed = index_found(&mut run.world.heap, &receiver, index, found);
    read_accessed(run, executable, limits, accessed, receiver)
}

/// Writes a value at an index of another.
pub fn put_index(run: &mut Configuration, executable: &Executable, limits: &Limits) -> Step
    requires reached { MembersWithin executable.now run.old.world.reached.room }
    ensures exact { Comes (on_triple run.old.frames.top.stack (λ receiver index value stack. on_write (codes_in executable.now) (limits_in executable.now limits.now) (access.index_written (text_of executable.now run.old.frames.top.text).allow run.old.world.heap receiver index value) run.old.frames.top run.old.frames.below (world_of run.old.world) stack)) result run.new }
    ensures room { room_of run.new ≡ room_of run.old }
{
    match run.frames.pop() {
        Some(third) => match run.frames.pop() {
            Some(second) => match run.frames.pop() {
                Some(first) => put_index_words(run, executable, limits, first, second, third),
                None => Step::Stuck,
            },
            None => Step::Stuck,
        },
        None => Step::Stuck,
    }
}

fn put_index_words(
    run: &mut Configuration,
    executable: &Executable,
    limits: &Limits,
    first: Word,
    second: Word,
    third: Word,
) -> Step
    requires reached { MembersWithin executable.now run.old.world.reached.room }
    ensures exact { (stack : List Word) → Comes (on_three first second third (λ receiver index value. on_write (codes_in executable.now) (limits_in executable.now limits.now) (access.index_written (text_of executable.now run.old.frames.top.text).allow run.old.world.heap receiver index value) (with_stack run.old.frames.top stack) run.old.frames.below (world_of run.old.world) run.old.frames.top.stack)) result run.new }
    ensures room { room_of run.new ≡ room_of run.old }
{
    match reference_in(third) {
        Some(value) => match reference_in(second) {
            Some(index) => match reference_in(first) {
                Some(receiver) => put_index_values(run, executable, limits, receiver, index, value),
                None => Step::Stuck,
            },
            None => Step::Stuck,
        },
        None => Step::Stuck,
    }
}

#[tactic(auto, using(crate::proofs::Accessing::index_written_within), unfolding(def_access::specs::Access::index_written))]
fn put_index_values(
    run: &mut Configuration,
    executable: &Executable,
    limits: &Limits,
    receiver: Value,
    index: Value,
    value: Value,
) -> Step
    requires reached { length (text_of executable.now run.old.frames.top.text).allow.members ≤ run.old.world.reached.room }
    ensures exact { (stack : List Word) → Comes (on_write (codes_in executable.now) (limits_in executable.now limits.now) (access.index_written (text_of executable.now run.old.frames.top.text).allow run.old.world.heap receiver index value) (with_stack run.old.frames.top stack) run.old.frames.below (world_of run.old.world) run.old.frames.top.stack) result run.new }
    ensures room { room_of run.new ≡ room_of run.old }
{
    let found = executable.index_access(&run.frames, &run.world.heap, &receiver, Purpose::Write);
    let accessed = index_put_found(&mut run.world.heap, &receiver, index, &value, found);
    write_accessed(run, executable, limits, accessed, receiver, value)
}

// ---- names

/// What a name behind the dot of a value means.
pub fn get_name(
    run: &mut Configuration,
    executable: &Executable,
    limits: &Limits,
    name: &str,
    shared: &UText,
) -> Step
    requires reached { MembersWithin executable.now run.old.world.reached.room }
    requires shared { shared.now ≡ units name.now }
    ensures exact { Comes (on_top run.old.frames.top.stack (λ word stack. on_reference word (λ receiver. on_access (codes_in executable.now) (limits_in executable.now limits.now) (access.name_read (text_of executable.now run.old.frames.top.text).allow run.old.world.heap receiver name.now) run.old.frames.top run.old.frames.below (world_of run.old.world) stack))) result run.new }
    ensures room { room_of run.new ≡ room_of run.old }
{
    match run.frames.pop() {
        Some(word) => get_name_word(run, executable, limits, name, shared, word),
        None => Step::Stuck,
    }
}

fn get_name_word(
    run: &mut Configuration,
    executable: &Executable,
    limits: &Limits,
    name: &str,
    shared: &UText,
    word: Word,
) -> Step
    requires reached { MembersWithin executable.now run.old.world.reached.room }
    requires shared { shared.now ≡ units name.now }
    ensures exact { (stack : List Word) → Comes (on_reference word (λ receiver. on_access (codes_in executable.now) (limits_in executable.now limits.now) (access.name_read (text_of executable.now run.old.frames.top.text).allow run.old.world.heap receiver name.now) (with_stack run.old.frames.top stack) run.old.frames.below (world_of run.old.world) run.old.frames.top.stack)) result run.new }
    ensures room { room_of run.new ≡ room_of run.old }
{
    match reference_in(word) {
        Some(receiver) => get_name_value(run, executable, limits, name, shared, receiver),
        None => Step::Stuck,
    }
}

#[tactic(auto, using(crate::proofs::Accessing::name_read_within), unfolding(def_access::specs::Access::name_read))]
fn get_name_value(
    run: &mut Configuration,
    executable: &Executable,
    limits: &Limits,
    name: &str,
    shared: &UText,
    receiver: Value,
) -> Step
    requires reached { length (text_of executable.now run.old.frames.top.text).allow.members ≤ run.old.world.reached.room }
    requires shared { shared.now ≡ units name.now }
    ensures exact { (stack : List Word) → Comes (on_access (codes_in executable.now) (limits_in executable.now limits.now) (access.name_read (text_of executable.now run.old.frames.top.text).allow run.old.world.heap receiver name.now) (with_stack run.old.frames.top stack) run.old.frames.below (world_of run.old.world) run.old.frames.top.stack) result run.new }
    ensures room { room_of run.new ≡ room_of run.old }
{
    let found = executable.name_access(
        &run.frames,
        &run.world.heap,
        &receiver,
        name,
        Purpose::Read,
    );
    let accessed = name_found(&mut run.world.heap, &receiver, name, shared, found);
    read_accessed(run, executable, limits, accessed, receiver)
}

/// Writes a value under the name behind the dot of another.
pub fn put_name(
    run: &mut Configuration,
    executable: &Executable,
    limits: &Limits,
    name: &str,
    shared: &UText,
) -> Step
    requires reached { MembersWithin executable.now run.old.world.reached.room }
    requires shared { shared.now ≡ units name.now }
    ensures exact { Comes (on_pair run.old.frames.top.stack (λ receiver value stack. on_write (codes_in executable.now) (limits_in executable.now limits.now) (access.name_written (text_of executable.now run.old.frames.top.text).allow run.old.world.heap receiver name.now value) run.old.frames.top run.old.frames.below (world_of run.old.world) stack)) result run.new }
    ensures room { room_of run.new ≡ room_of run.old }
{
    match run.frames.pop() {
        Some(upper) => match run.frames.pop() {
            Some(lower) => put_name_words(run, executable, limits, name, shared, lower, upper),
            None => Step::Stuck,
        },
        None => Step::Stuck,
    }
}

fn put_name_words(
    run: &mut Configuration,
    executable: &Executable,
    limits: &Limits,
    name: &str,
    shared: &UText,
    lower: Word,
    upper: Word,
) -> Step
    requires reached { MembersWithin executable.now run.old.world.reached.room }
    requires shared { shared.now ≡ units name.now }
    ensures exact { (stack : List Word) → Comes (on_references lower upper (λ receiver value. on_write (codes_in executable.now) (limits_in executable.now limits.now) (access.name_written (text_of executable.now run.old.frames.top.text).allow run.old.world.heap receiver name.now value) (with_stack run.old.frames.top stack) run.old.frames.below (world_of run.old.world) run.old.frames.top.stack)) result run.new }
    ensures room { room_of run.new ≡ room_of run.old }
{
    match reference_in(upper) {
        Some(value) => match reference_in(lower) {
            Some(receiver) => put_name_values(
                run, executable, limits, name, shared, receiver, value,
            ),
            None => Step::Stuck,
        },
        None => Step::Stuck,
    }
}

#[tactic(auto, using(crate::proofs::Accessing::name_written_within), unfolding(def_access::specs::Access::name_written))]
fn put_name_values(
    run: &mut Configuration,
    executable: &Executable,
    limits: &Limits,
    name: &str,
    shared: &UText,
    receiver: Value,
    value: Value,
) -> Step
    requires reached { length (text_of executable.now run.old.frames.top.text).allow.members ≤ run.old.world.reached.room }
    requires shared { shared.now ≡ units name.now }
    ensures exact { (stack : List Word) → Comes (on_write (codes_in executable.now) (limits_in executable.now limits.now) (access.name_written (text_of executable.now run.old.frames.top.text).allow run.old.world.heap receiver name.now value) (with_stack run.old.frames.top stack) run.old.frames.below (world_of run.old.world) run.old.frames.top.stack) result run.new }
    ensures room { room_of run.new ≡ room_of run.old }
{
    let mut value = value;
    let found = executable.name_access(
        &run.frames,
        &run.world.heap,
        &receiver,
        name,
        Purpose::Write,
    );
    let accessed = name_put_found(
        executable.allow(&run.frames),
        &mut run.world.heap,
        &receiver,
        name,
        shared,
        &mut value,
        found,
    );
    write_accessed(run, executable, limits, accessed, receiver, value)
}

// ---- calls

/// Calls the method of a name on a value, with so many arguments that lie above it.
pub fn call_method(
    run: &mut Configuration,
    executable: &Executable,
    limits: &Limits,
    name: &str,
    count: u32,
) -> Step
    requires reached { MembersWithin executable.now run.old.world.reached.room }
    requires linked { methods_in (link_at executable.now run.old.frames.top) ≡ Some (methods_of (text_of executable.now run.old.frames.top.text).allow name.now count) }
    ensures exact { Comes (on_words (take_words (suc count) run.old.frames.top.stack []) (λ words stack. on_values (references_in words) (λ values. on_first values (λ receiver arguments. on_access (codes_in executable.now) (limits_in executable.now limits.now) (access.method_called (text_of executable.now run.old.frames.top.text).allow run.old.world.heap receiver name.now arguments) run.old.frames.top run.old.frames.below (world_of run.old.world) stack)))) result run.new }
    ensures room { room_of run.new ≡ room_of run.old }
{
    match executable.methods(&run.frames) {
        Some(methods) => call_linked(run, executable, limits, methods, name, count),
        None => Step::Stuck,
    }
}

// The same with what the name means on a value of each class.
fn call_linked(
    run: &mut Configuration,
    executable: &Executable,
    limits: &Limits,
    methods: &MethodTable,
    name: &str,
    count: u32,
) -> Step
    requires reached { MembersWithin executable.now run.old.world.reached.room }
    requires methods { methods.now ≡ methods_of (text_of executable.now run.old.frames.top.text).allow name.now count }
    ensures exact { Comes (on_words (take_words (suc count) run.old.frames.top.stack []) (λ words stack. on_values (references_in words) (λ values. on_first values (λ receiver arguments. on_access (codes_in executable.now) (limits_in executable.now limits.now) (access.method_called (text_of executable.now run.old.frames.top.text).allow run.old.world.heap receiver name.now arguments) run.old.frames.top run.old.frames.below (world_of run.old.world) stack)))) result run.new }
    ensures room { room_of run.new ≡ room_of run.old }
{
    match parts_off(&mut run.frames, count as usize + 1, &mut run.words) {
        Ok(true) => call_words(run, executable, limits, methods, name, count),
        Ok(false) => Step::Stuck,
        Err(_) => Step::NoMemory,
    }
}

fn call_words(
    run: &mut Configuration,
    executable: &Executable,
    limits: &Limits,
    methods: &MethodTable,
    name: &str,
    count: u32,
) -> Step
    requires reached { MembersWithin executable.now run.old.world.reached.room }
    requires methods { methods.now ≡ methods_of (text_of executable.now run.old.frames.top.text).allow name.now count }
    ensures exact { (stack : List Word) → Comes (on_values (references_in run.old.words.items) (λ values. on_first values (λ receiver arguments. on_access (codes_in executable.now) (limits_in executable.now limits.now) (access.method_called (text_of executable.now run.old.frames.top.text).allow run.old.world.heap receiver name.now arguments) (with_stack run.old.frames.top stack) run.old.frames.below (world_of run.old.world) run.old.frames.top.stack))) result run.new }
    ensures room { room_of run.new ≡ room_of run.old }
{
    match references_of(run.world.heap.alloc(), &mut run.words) {
        Ok(Some(values)) => {
            call_values(
                run,
                executable,
                limits,
                methods,
                name,
                count,
                values.into_vec(),
            )
        }
        Ok(None) => Step::Stuck,
        Err(_) => Step::NoMemory,
    }
}

#[tactic(auto, using(crate::proofs::Accessing::method_called_within))]
fn call_values(
    run: &mut Configuration,
    executable: &Executable,
    limits: &Limits,
    methods: &MethodTable,
    name: &str,
    count: u32,
    values: Vec<Value>,
) -> Step
    requires reached { length (text_of executable.now run.old.frames.top.text).allow.members ≤ run.old.world.reached.room }
    requires methods { methods.now ≡ methods_of (text_of executable.now run.old.frames.top.text).allow name.now count }
    ensures exact { (stack : List Word) → Comes (on_first values.items (λ receiver arguments. on_access (codes_in executable.now) (limits_in executable.now limits.now) (access.method_called (text_of executable.now run.old.frames.top.text).allow run.old.world.heap receiver name.now arguments) (with_stack run.old.frames.top stack) run.old.frames.below (world_of run.old.world) run.old.frames.top.stack)) result run.new }
    ensures room { room_of run.new ≡ room_of run.old }
{
    if values.is_empty() {
        return Step::Stuck;
    }
    let mut values = values;
    let accessed = method_by_class(
        executable.allow(&run.frames),
        &mut run.world.heap,
        methods,
        name,
        count,
        values.as_mut_slice(),
    );
    call_accessed(run, executable, limits, accessed, values.as_slice())
}
