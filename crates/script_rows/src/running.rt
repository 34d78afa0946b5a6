//! How scripts are compiled and run.

ghost use Rattle.std.specs.Prelude.{◌≡◌, IfOk, []};
ghost use Rattle.pl_types.specs.declared.ty.Ty.TheVariants as def;
ghost use Rattle.script_engine.specs.Rows.{HaveRows};
ghost use Rattle.script_engine.specs.Running.{TakesArguments};

use allowlist::{Allow, AllowErr, Catalogue};
use object_heap::{End, Heap, Outcome, Which};
use object_values::{Seed, Value};
use pl_types::classes::CLASS_COUNT;
use pl_types::{Fail, Ty, class_short};
use pl_units::UText;
use plain_data::Items;
use script_engine::{ContextTypes, Limits, Script, compile};
use std::alloc::{AllocError, Global};

/// What a run is bounded by: the turns of a frame's loops, the depth of calls, the ticks, and the room of the heap.
#[derive(Clone, Copy)]
pub struct Bounds {
    pub loops: u64,
    pub depth: u32,
    pub ticks: u64,
    pub room: u64,
}

/// The bounds that a run has where nothing else is said.
pub const USUAL: Bounds = Bounds {
    loops: 1_000_000,
    depth: 256,
    ticks: 10_000_000,
    room: 16_000_000,
};

/// What scripts are compiled by: the classes and members of a list, no variable, and any result.
#[derive(Drop)]
pub struct Compiler {
    alloc: Global,
    allow: Allow,
}

impl Compiler {
    /// Every class of the catalogue is allowed.
    ///
    /// # Errors
    ///
    /// Want of memory.
    pub fn new(alloc: Global) -> Result<Compiler, AllocError> {
        let allow = Catalogue::full(alloc)?;
        Ok(Compiler { alloc, allow })
    }

    /// What an allowlist file names is allowed.
    ///
    /// # Errors
    ///
    /// That of the file, or want of memory.
    pub fn reading(alloc: Global, file: &str) -> Result<Compiler, AllowErr> {
        let allow = Allow::read(alloc, file.as_bytes())?;
        Ok(Compiler { alloc, allow })
    }

    /// What gives memory.
    pub fn alloc(&self) -> Global {
        self.alloc
    }

    fn compiled(&self, script: &str) -> Result<Script, Fail>
        ensures rows { IfOk result (λ script. HaveRows script.executable.allow script.executable.code.functions) }
        ensures takes { IfOk result (λ script. TakesArguments script []) }
    {
        let context = context(self.alloc);
        compile(self.alloc, script, &self.allow, &context)
    }
}

/// A context without variables, and with any result.
fn context(alloc: Global) -> ContextTypes
    ensures { result ≡ record { variables = []; result = def.Def } }
{
    ContextTypes {
        variables: Items::new(alloc),
        result: Ty::Def,
    }
}

fn run(alloc: Global, script: &Script, bounds: Bounds) -> Result<Outcome, AllocError>
    requires rows { HaveRows script.now.executable.allow script.now.executable.code.functions }
    requires takes { TakesArguments script.now [] }
{
    let args = Vec::new(alloc);
    let heap = Heap::new(alloc, bounds.room, Seed::of(b"row"));
    let limits = Limits {
        loops: bounds.loops,
        depth: bounds.depth,
        ticks: bounds.ticks,
    };
    script.run(heap, args, limits)
}

fn number_text(alloc: Global, letter: &str, number: i64) -> Result<String, AllocError> {
    format!(in alloc; "{letter} {number}")
}

fn text_text(alloc: Global, text: &UText) -> Result<String, AllocError> {
    let text = text.to_utf8()?;
    let text = text.as_str();
    format!(in alloc; "T {text}")
}

/// A value, a number after a letter for its type, and a text after `T`.
fn value_text(alloc: Global, value: &Value) -> Result<String, AllocError> {
    match value {
        Value::Null => String::from_str(alloc, "null"),
        Value::Bool(true) => String::from_str(alloc, "true"),
        Value::Bool(false) => String::from_str(alloc, "false"),
        Value::Byte(number) => number_text(alloc, "B", i64::from(*number)),
        Value::Short(number) => number_text(alloc, "S", i64::from(*number)),
        Value::Char(unit) => number_text(alloc, "C", i64::from(*unit)),
        Value::Int(number) => number_text(alloc, "I", i64::from(*number)),
        Value::Long(number) => number_text(alloc, "J", *number),
        Value::Str(text) => text_text(alloc, text),
        _ => String::from_str(alloc, "another value"),
    }
}

fn class_text(class: Option<u32>) -> &'static str {
    match class {
        Some(class) if class < CLASS_COUNT => class_short(class),
        _ => "nothing",
    }
}

fn thrown_text(heap: &Heap, id: u32) -> Result<String, AllocError> {
    let alloc = heap.alloc();
    let class = class_text(heap.class(id));
    match heap.message(id) {
        None => format!(in alloc; "thrown {class}"),
        Some(message) => {
            let message = message.to_utf8()?;
            let text = message.as_str();
            format!(in alloc; "thrown {class} {text}")
        }
    }
}

fn limit_text(which: Which) -> &'static str {
    match which {
        Which::Loop => "limit loop",
        Which::Depth => "limit depth",
        Which::Ticks => "limit ticks",
        Which::Room => "limit room",
    }
}

fn end_text(outcome: &Outcome) -> Result<String, AllocError> {
    let alloc = outcome.heap.alloc();
    match &outcome.end {
        End::Value(value) => value_text(alloc, value),
        End::Thrown { id, .. } => thrown_text(&outcome.heap, *id),
        End::Limit { limit, .. } => String::from_str(alloc, limit_text(*limit)),
    }
}

/// An end, and behind it the numbers of the members that were reached.
fn reached_text(alloc: Global, end: &str, reached: &[u32]) -> Result<String, AllocError> {
    let mut text = format!(in alloc; "{end}, reached")?;
    for number in reached {
        let word = format!(in alloc; " {number}")?;
        text.push_str(word.as_str())?;
    }
    Ok(text)
}

/// Whether a run ended as a row says: `END`, `END, N ticks`, or `END, reached NUMBERS`.
fn ended(outcome: &Outcome, wanted: &str) -> Result<bool, AllocError> {
    let alloc = outcome.heap.alloc();
    let text = end_text(outcome)?;
    let end = text.as_str();
    let ticks = outcome.ticks;
    let paid = format!(in alloc; "{end}, {ticks} ticks")?;
    let reached = reached_text(alloc, end, outcome.reached.as_slice())?;
    Ok(wanted == end || wanted == paid.as_str() || wanted == reached.as_str())
}

/// Whether a script is refused as a row says: `refused by RULE at BYTE`.
fn refused(alloc: Global, fail: &Fail, wanted: &str) -> Result<bool, AllocError> {
    match fail {
        Fail::Refused(refusal) => {
            let (rule, byte) = (refusal.number, refusal.offset);
            let text = format!(in alloc; "refused by {rule} at {byte}")?;
            Ok(wanted == text.as_str())
        }
        Fail::NoMemory => Ok(false),
    }
}

/// Whether a script, run within bounds, ends as a row says.
///
/// # Errors
///
/// Want of memory.
pub fn script_ends(
    compiler: &Compiler,
    script: &str,
    bounds: Bounds,
    wanted: &str,
) -> Result<bool, AllocError> {
    match compiler.compiled(script) {
        Ok(compiled) => {
            let outcome = run(compiler.alloc, &compiled, bounds)?;
            ended(&outcome, wanted)
        }
        Err(fail) => refused(compiler.alloc, &fail, wanted),
    }
}

/// Whether a script has a listing, and a run of it within bounds ends as a row says, after so many instructions: the script, its
/// listing, its end, and how many instructions are run.
///
/// # Errors
///
/// Want of memory.
pub fn listed_and_counted(
    compiler: &Compiler,
    bounds: Bounds,
    row: (&str, &str, &str, u64),
) -> Result<bool, AllocError> {
    let (script, listing, wanted, steps) = row;
    match compiler.compiled(script) {
        Ok(compiled) => {
            let text = compiled.listing(compiler.alloc)?;
            let outcome = run(compiler.alloc, &compiled, bounds)?;
            let good = ended(&outcome, wanted)?;
            Ok(good && outcome.steps == steps && text.as_str() == listing)
        }
        Err(_) => Ok(false),
    }
}

/// Whether the prelude of a script has a listing.
///
/// # Errors
///
/// Want of memory.
pub fn prelude_is_listed(
    compiler: &Compiler,
    script: &str,
    listing: &str,
) -> Result<bool, AllocError> {
    match compiler.compiled(script) {
        Ok(compiled) => {
            let text = compiled.prelude_listing(compiler.alloc)?;
            Ok(text.as_str() == listing)
        }
        Err(_) => Ok(false),
    }
}
