//! Functions and programs.

ghost use Rattle.std.specs.Prelude.{◌≡◌, ◌≢◌, ◌++◌, [], ◌∷◌, map, IfOk, OnOk};
ghost use Rattle.codegen.specs.Functions.{Begun, EndsAsProgram, FunStands, InScope};
ghost use Rattle.codegen.specs.Worklist.{entry};
ghost use Rattle.codegen.specs.Errors.{OnlyMemory};
ghost use Rattle.compiler_relation.specs.Correct.{IsCodeOf};
ghost use Rattle.compiler_relation.specs.Representation.{Absent, kind_of, representation_of};
ghost use Rattle.source_meaning.specs.Programs.{program_of, fun_of, variable_of};
ghost use Rattle.allowlist.specs.Allow.{AllowList};
ghost use Rattle.program_typing.specs.Agreeing.{FunAgrees, HaveValues, WellFormed, known};
ghost use Rattle.program_typing.specs.Types.{HasValues};

use crate::config::{Config, number_of};
use crate::error::CodeError;
use crate::labels::Labels;
use crate::representation::{representation_of, slot};
use crate::scopes::{entry_for, present};
use crate::symbols::{Entry, SymbolTable};
use crate::work_item::{Tail, WorkItem};
use crate::writer::walk;
use allowlist::Allow;
use compiler_relation::{compiler_laws, covering_laws};
use pl_code::{Code, FunCode, Slot};
use plain_data::Items;
use plain_stack::Stack;
use std::alloc::Global;
use typed_tree::{Named, Program, TypedFunction};

/// Code of a program: function k of the program is function k of the code, its turns are limited, and where the program comes to an
/// end, its code comes to the same end. Of the list, only its catalogue of members counts.
///
/// # Errors
///
/// `Malformed` where the program breaks a rule of types or scopes; `Unbuilt` where it has a part of a kind that has no code yet;
/// `NoMemory`. A well-formed program, as typing makes them, gets `NoMemory` at most.
pub fn generate(alloc: Global, catalogue: &Allow, program: &Program) -> Result<Code, CodeError>
    ensures code { IfOk result (λ code. IsCodeOf program.now code.functions) }
    ensures ends { IfOk result (λ code. EndsAsProgram program.now code.functions) }
    ensures total { (allow : AllowList) → WellFormed (known allow (program_of program.now)) → OnlyMemory result }
{
    compiler_laws();
    write(alloc, catalogue, program)
}

fn write(alloc: Global, catalogue: &Allow, program: &Program) -> Result<Code, CodeError>
    ensures code { IfOk result (λ code. IsCodeOf program.now code.functions) }
    ensures total { (allow : AllowList) → WellFormed (known allow (program_of program.now)) → OnlyMemory result }
{
    let mut functions = Items::new(alloc);
    let main = function(alloc, catalogue, program, &program.main)?;
    functions.push(main)?;
    for f in program.functions.as_slice() {
        let code = function(alloc, catalogue, program, f)?;
        functions.push(code)?;
    }
    Ok(Code { functions })
}

/// Code of a function.
fn function(
    alloc: Global,
    catalogue: &Allow,
    program: &Program,
    f: &TypedFunction,
) -> Result<FunCode, CodeError>
    ensures code { IfOk result (λ code. FunStands (program_of program.now) code (fun_of f.now)) }
    ensures total { (allow : AllowList) → FunAgrees (known allow (program_of program.now)) (fun_of f.now) → OnlyMemory result }
{
    let mut config = begin(alloc, f)?;
    let mut worklist = Stack::new(alloc);
    worklist.push_two(
        WorkItem::Rest(Tail::Row(&f.body, 0), None),
        WorkItem::End(&f.result),
    )?;
    walk(alloc, catalogue, program, &mut config, &mut worklist)?;
    covering_laws();
    config.finish(alloc, &f.result)
}

/// Nothing is written yet, and the parameters are in scope.
fn begin(alloc: Global, f: &TypedFunction) -> Result<Config, CodeError>
    ensures begun { IfOk result (λ config. Begun (fun_of f.now) config) }
    ensures total { HaveValues (fun_of f.now).params → OnlyMemory result }
{
    let mut params = Items::new(alloc);
    let scope = parameters(alloc, &f.parameters, &mut params)?;
    Ok(Config {
        result: representation_of(&f.result),
        params,
        locals: Items::new(alloc),
        traps: Items::new(alloc),
        lines: Items::new(alloc),
        labels: Labels::new(alloc),
        scope,
        flows: Stack::new(alloc),
    })
}

/// The scope of some parameters, the last of them the newest.
fn parameters(
    alloc: Global,
    all: &Items<Named>,
    params: &mut Items<Slot>,
) -> Result<SymbolTable, CodeError>
    ensures scope { IfOk result (λ scope. InScope all.now params.old params.new scope) }
    ensures total { HaveValues (map variable_of all.now) → OnlyMemory result }
{
    let mut scope = SymbolTable::new(alloc);
    for param in all.as_slice() {
        let local = number_of(scope.len())?;
        parameter(alloc, param, local, &mut scope, params)?;
    }
    Ok(scope)
}

fn parameter(
    alloc: Global,
    param: &Named,
    local: u32,
    scope: &mut SymbolTable,
    params: &mut Items<Slot>,
) -> Result<(), CodeError>
    ensures present { OnOk result (representation_of param.now.of ≢ Absent) }
    ensures scope { OnOk result (map entry scope.new ≡ record { name = param.now.name; of = param.now.of; local = local } ∷ map entry scope.old) }
    ensures kinds { OnOk result (params.new ≡ params.old ++ kind_of param.now.of ∷ []) }
    ensures total { HasValues param.now.of → OnlyMemory result }
{
    present(&param.of)?;
    let one = entry_for(alloc, &param.name, &param.of, local)?;
    scope.push(alloc, one)?;
    params.push(slot(&param.of))?;
    Ok(())
}
