//! From a text to its script.

ghost use Rattle.std.specs.Prelude.{◌≡◌, ◌≤◌, IfOk, None, Result, length, string_bytes};
ghost use Rattle.pl_code.specs.Listing.{written};
ghost use Rattle.verified_machine.specs.Faults.{shape_fault};
ghost use Rattle.verified_machine.specs.Verified.{FrameWords};
ghost use Rattle.verified_machine.specs.Rows.{HaveRows};
ghost use Rattle.codegen.specs.declared.error.CodeError.TheVariants as code_errors;
ghost use Rattle.pl_types.specs.declared.refusal.Fail.TheVariants as fails;
ghost use Rattle.pl_types.specs.Answers.{Answers};
ghost use Rattle.pl_types.specs.declared.refusal.Refusal.{Refusal};
ghost use Rattle.pl_parser.specs.Lexeme.{AllLieIn};
ghost use Rattle.typed_tree.specs.declared.program.Program as typed;
ghost use Rattle.typing_soundness.specs.Laws.{IsContext};
ghost use Rattle.script_engine.specs.Programs.{TypesTree, TypesTokens, IsProgramOf};
ghost use Rattle.script_engine.specs.Codes.{prelude_code};
ghost use Rattle.script_engine.specs.Compiling.{Compiles};
ghost use Rattle.script_engine.specs.Running.{TakesTyped};

use crate::executable::ScriptExecutable;
use crate::prelude::VerifiedPrelude;
use crate::verifying::verified_code;
use codegen::{CodeError, generate};
use compiled_runs::{code_is_well_shaped, programs_run};
use pl_code::{Code, listing};
use pl_parser::{Token, Tree, lex, parse};
use pl_types::{Fail, Ty};
use static_types::{Allow, ContextTypes, elaborate};
use std::alloc::{AllocError, Global};
use typed_tree::Program;

/// A script that was compiled: verified code with the list of what it may use, beside the prelude's.
pub struct Script {
    pub(crate) executable: ScriptExecutable,
    /// The type of what it gives.
    pub(crate) result: Ty,
}

impl Drop for Script {
    fn drop(self) {
        let Script {
            executable: _executable,
            result: _result,
        } = self;
    }
}

impl Script {
    /// The listing of the code.
    pub fn listing(&self, alloc: Global) -> Result<String, AllocError>
        ensures { IfOk result (λ text. string_bytes text ≡ written self.now.executable.code) }
    {
        listing(alloc, self.executable.code())
    }

    /// The listing of the code of the prelude, with which the script runs.
    pub fn prelude_listing(&self, alloc: Global) -> Result<String, AllocError>
        ensures { IfOk result (λ text. string_bytes text ≡ written prelude_code) }
    {
        listing(alloc, self.executable.prelude_code())
    }

    /// The list by whose classes and members it was compiled.
    pub fn allow(&self) -> &Allow
        ensures { result.now ≡ self.now.executable.allow }
    {
        self.executable.allow()
    }
}

/// The program of a tree.
fn program_of_tree(
    alloc: Global,
    allow: &Allow,
    context: &ContextTypes,
    tree: &Tree,
) -> Result<Program, Fail>
    ensures exact { Answers (λ p. p) result (TypesTree allow.now context.now tree.now) }
    ensures only { (reading : Result typed.Program Refusal) → TypesTree allow.now context.now tree.now reading → Answers (λ p. p) result (λ a. a ≡ reading) }
{
    elaborate(alloc, allow, context, tree)
}

/// The program of the tokens of a text.
fn program_of_tokens(
    alloc: Global,
    allow: &Allow,
    context: &ContextTypes,
    text: &str,
    tokens: &[Token],
) -> Result<Program, Fail>
    requires short { length text.now ≤ 1048576 }
    requires placed { AllLieIn text.now tokens.now }
    ensures exact { Answers (λ p. p) result (TypesTokens allow.now context.now text.now tokens.now) }
    ensures only { (reading : Result typed.Program Refusal) → TypesTokens allow.now context.now text.now tokens.now reading → Answers (λ p. p) result (λ a. a ≡ reading) }
{
    let tree = parse(alloc, text, tokens)?;
    program_of_tree(alloc, allow, context, &tree)
}

/// The program of a text.
fn program_of(
    alloc: Global,
    allow: &Allow,
    context: &ContextTypes,
    text: &str,
) -> Result<Program, Fail>
    ensures exact { Answers (λ p. p) result (IsProgramOf allow.now context.now text.now) }
    ensures only { (reading : Result typed.Program Refusal) → IsProgramOf allow.now context.now text.now reading → Answers (λ p. p) result (λ a. a ≡ reading) }
{
    let tokens = lex(alloc, text, allow)?;
    program_of_tokens(alloc, allow, context, text, tokens.as_slice())
}

/// The script of a text, whose names mean the classes of a list, by the variables and the result of a context.
///
/// # Errors
///
/// Refused by the first rule that the text breaks: of tokens, then of the grammar, then of types. `NoMemory`.
pub fn compile(
    alloc: Global,
    text: &str,
    allow: &Allow,
    context: &ContextTypes,
) -> Result<Script, Fail>
    requires context { IsContext context.now }
    ensures exact { Compiles allow.now context.now (IsProgramOf allow.now context.now text.now) result }
    ensures only { (reading : Result typed.Program Refusal) → IsProgramOf allow.now context.now text.now reading → Compiles allow.now context.now (λ a. a ≡ reading) result }
    // The verifier finds no fault in the code, and no frame of a run has more words than there is memory for.
    ensures sound { IfOk result (λ script. shape_fault allow.now script.executable.code ≡ None) }
    ensures frames { IfOk result (λ script. FrameWords script.executable.frame (record { code = script.executable.code; allow = script.executable.allow })) }
    // Each of its instructions has a row, and it takes arguments of the types of the context's variables.
    ensures rows { IfOk result (λ script. HaveRows script.executable.allow script.executable.code.functions) }
    ensures takes { IfOk result (λ script. TakesTyped context.now script) }
{
    let prelude = VerifiedPrelude::new(alloc)?;
    compile_beside(alloc, text, allow, context, &prelude)
}

/// The same beside a prelude that is there, which many scripts share.
///
/// # Errors
///
/// As of [`compile`].
pub fn compile_beside(
    alloc: Global,
    text: &str,
    allow: &Allow,
    context: &ContextTypes,
    prelude: &VerifiedPrelude,
) -> Result<Script, Fail>
    requires context { IsContext context.now }
    ensures exact { Compiles allow.now context.now (IsProgramOf allow.now context.now text.now) result }
    ensures only { (reading : Result typed.Program Refusal) → IsProgramOf allow.now context.now text.now reading → Compiles allow.now context.now (λ a. a ≡ reading) result }
    // The verifier finds no fault in the code, and no frame of a run has more words than there is memory for.
    ensures sound { IfOk result (λ script. shape_fault allow.now script.executable.code ≡ None) }
    ensures frames { IfOk result (λ script. FrameWords script.executable.frame (record { code = script.executable.code; allow = script.executable.allow })) }
    // Each of its instructions has a row, and it takes arguments of the types of the context's variables.
    ensures rows { IfOk result (λ script. HaveRows script.executable.allow script.executable.code.functions) }
    ensures takes { IfOk result (λ script. TakesTyped context.now script) }
{
    code_is_well_shaped();
    programs_run();
    let program = program_of(alloc, allow, context, text)?;
    let result = context.result.share(alloc)?;
    match generate(alloc, allow, &program) {
        Ok(code) => {
            let executable = executable_of(alloc, allow, code, prelude)?;
            Ok(Script { executable, result })
        }
        Err(error) => Err(memory_alone(error)),
    }
}

/// Why a program that typing made has no code: for want of memory alone.
fn memory_alone(error: CodeError) -> Fail
    requires { error ≡ code_errors.NoMemory }
    ensures { result ≡ fails.NoMemory }
{
    match error {
        CodeError::NoMemory => Fail::NoMemory,
        CodeError::Malformed => unreachable!(),
        CodeError::Unbuilt => unreachable!(),
    }
}

/// Code that breaks nowhere, made ready to run beside the prelude's.
fn executable_of(
    alloc: Global,
    allow: &Allow,
    code: Code,
    prelude: &VerifiedPrelude,
) -> Result<ScriptExecutable, AllocError>
    requires { shape_fault allow.now code ≡ None }
    ensures code { IfOk result (λ e. (e.code ≡ code) × (e.allow ≡ allow.now)) }
    ensures frames { IfOk result (λ e. FrameWords e.frame (record { code = e.code; allow = e.allow })) }
{
    let verified = verified_code(alloc, allow, code)?;
    ScriptExecutable::new(alloc, verified, prelude)
}
