//! From a script's bytes to what they come to.

ghost use Rattle.std.specs.Prelude.{◌≡◌, ◌≤◌, ℕ, IfOk, List, [], None, Result, length, map, string_bytes};
ghost use Rattle.script_engine.specs.Rows.{HaveRows};
ghost use Rattle.pl_types.specs.Answers.{Answers};
ghost use Rattle.pl_types.specs.declared.refusal.Refusal.{Refusal};
ghost use Rattle.allowlist.specs.Allow.{full_list};
ghost use Rattle.object_values.specs.Seeds.{seed_of};
ghost use Rattle.script_engine.specs.Faults.{shape_fault};
ghost use Rattle.script_engine.specs.Programs.{IsProgramOf};
ghost use Rattle.script_engine.specs.Compiling.{Compiles};
ghost use Rattle.script_engine.specs.Running.{TakesArguments};
ghost use Rattle.eval_command.specs.Script.{Decodes, Means, MeansText, eval_types};
ghost use Rattle.eval_command.specs.Evaluation.{listings_of};
ghost use Rattle.eval_command.specs.Codes.{AreCodesOf, AreCodesOfText};
ghost use Rattle.eval_command.specs.Outcomes.{Comes, CountsAsEval, RunsAsEval, RunsCodes, RunsListed};
ghost use Rattle.script_engine.specs.Codes.{script_codes};
ghost use Rattle.command_parts.specs.Told.{file_limit};

use allowlist::{Allow, Catalogue};
use object_heap::{Heap, Outcome};
use object_values::Seed;
use pl_types::{Fail, Refusal, Ty, rules};
use plain_data::Items;
use script_engine::{Limits, Script, code_laws, compile, script_laws};
use static_types::ContextTypes;
use std::alloc::{AllocError, Global};

/// The text that bytes are. BadToken: they are no UTF-8, from the offset on.
fn decode(bytes: &[u8]) -> Result<&str, Fail>
    requires { length bytes.now ≤ file_limit }
    ensures exact { Answers (λ text. text.now) result (Decodes bytes.now) }
    ensures only { (reading : Result (List ℕ) Refusal) → Decodes bytes.now reading → Answers (λ text. text.now) result (λ a. a ≡ reading) }
{
    match str::from_utf8(bytes) {
        Ok(text) => Ok(text),
        Err(error) => Err(Fail::Refused(Refusal {
            number: rules::BAD_TOKEN,
            offset: error.valid_up_to() as u32,
        })),
    }
}

/// The context of `eval`: no variables, and any result.
fn context(alloc: Global) -> ContextTypes
    ensures { result ≡ eval_types }
{
    ContextTypes {
        variables: Items::new(alloc),
        result: Ty::Def,
    }
}

/// The script of a text under the full catalogue.
fn compiled(alloc: Global, text: &str, allow: &Allow) -> Result<Script, Fail>
    requires full { allow.now ≡ full_list }
    ensures exact { Compiles full_list eval_types (IsProgramOf full_list eval_types text.now) result }
    ensures sound { IfOk result (λ script. shape_fault full_list script.executable.code ≡ None) }
    ensures rows { IfOk result (λ script. HaveRows script.executable.allow script.executable.code.functions) }
    ensures takes { IfOk result (λ script. TakesArguments script []) }
{
    let context = context(alloc);
    compile(alloc, text, allow, &context)
}

/// What the run of a script leaves, and the listings of its code and of the prelude's.
#[derive(Drop)]
pub struct EvalRun {
    pub outcome: Outcome,
    pub listings: Vec<String>,
}

/// Runs a script with the default limits, over a heap that is made from a seed.
fn run(alloc: Global, script: &Script, seed: Seed) -> Result<Outcome, AllocError>
    requires rows { HaveRows script.now.executable.allow script.now.executable.code.functions }
    requires takes { TakesArguments script.now [] }
    ensures program { IfOk result (RunsAsEval script.now) }
    ensures counts { IfOk result (CountsAsEval script.now) }
{
    let heap = Heap::new(alloc, 16_000_000, seed);
    let limits = Limits {
        loops: 1_000_000,
        depth: 256,
        ticks: 10_000_000,
    };
    let args = Vec::new(alloc);
    script.run(heap, args, limits)
}

/// The listings of a script's code and of the prelude's.
fn listings(alloc: Global, script: &Script) -> Result<Vec<String>, AllocError>
    ensures { IfOk result (λ texts. map string_bytes texts.items ≡ listings_of (script_codes script.now)) }
{
    let mut texts = Vec::new(alloc);
    texts.push(script.listing(alloc)?)?;
    texts.push(script.prelude_listing(alloc)?)?;
    Ok(texts)
}

/// Runs a script, and lists its code.
fn run_listed(alloc: Global, script: &Script, seed: Seed) -> Result<EvalRun, AllocError>
    requires rows { HaveRows script.now.executable.allow script.now.executable.code.functions }
    requires takes { TakesArguments script.now [] }
    ensures { IfOk result (RunsListed script.now) }
{
    let listings = listings(alloc, script)?;
    let outcome = run(alloc, script, seed)?;
    Ok(EvalRun { outcome, listings })
}

/// From what the heap of a text's run is made, which changes no answer.
fn seed_of(text: &str) -> Seed
    ensures { result ≡ seed_of text.now }
{
    Seed::of(text.as_bytes())
}

/// What a text comes to under the full catalogue.
fn run_under(alloc: Global, allow: &Allow, text: &str) -> Result<EvalRun, Fail>
    requires full { allow.now ≡ full_list }
    ensures exact { Comes (MeansText text.now) result }
    ensures codes { IfOk result (RunsCodes (AreCodesOfText text.now)) }
{
    script_laws();
    code_laws();
    match compiled(alloc, text, allow) {
        Ok(script) => Ok(run_listed(alloc, &script, seed_of(text))?),
        Err(fail) => Err(fail),
    }
}

/// What a text comes to.
fn run_text(alloc: Global, text: &str) -> Result<EvalRun, Fail>
    ensures exact { Comes (MeansText text.now) result }
    ensures codes { IfOk result (RunsCodes (AreCodesOfText text.now)) }
{
    let allow = Catalogue::full(alloc)?;
    run_under(alloc, &allow, text)
}

/// What a script's bytes come to: how their program's run ends, what it leaves, and the listings of its codes, or the first rule by which
/// they are refused.
pub fn run_script(alloc: Global, script: &[u8]) -> Result<EvalRun, Fail>
    requires { length script.now ≤ file_limit }
    ensures exact { Comes (Means script.now) result }
    ensures codes { IfOk result (RunsCodes (AreCodesOf script.now)) }
{
    match decode(script) {
        Ok(text) => run_text(alloc, text),
        Err(fail) => Err(fail),
    }
}
