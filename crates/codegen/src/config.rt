//! What is written so far.

ghost use Rattle.std.specs.Prelude.{◌≡◌, ◌<◌, length, IfOk, MatchResult, OnErr};
ghost use Rattle.codegen.specs.Functions.{Finished};
ghost use Rattle.codegen.specs.Errors.{OnlyMemory};
ghost use Rattle.codegen.specs.Worklist.{next_in};

use crate::error::CodeError;
use crate::labels::{Labels, Line, settle};
use crate::representation::{Representation, given};
use crate::symbols::SymbolTable;
use pl_code::{FunCode, Slot, Trap};
use pl_types::Ty;
use plain_data::Items;
use plain_stack::Stack;
use std::alloc::Global;

/// Whether the line behind a statement's code is reached, and whether a `continue` of its own is.
#[derive(Clone, Copy, Debug, PartialEq, Eq)]
pub struct Flow {
    /// Whether the line behind is reached.
    pub falls: bool,
    /// Whether a `continue` of its own is.
    pub continues: bool,
}

/// What is written so far of a function.
pub struct Config {
    /// How its result is represented.
    pub result: Representation,
    /// The kinds of its parameters.
    pub params: Items<Slot>,
    /// The kinds of its further locals.
    pub locals: Items<Slot>,
    /// Its trap lines.
    pub traps: Items<Trap>,
    /// Its instructions, jumps by labels among them.
    pub lines: Items<Line>,
    /// The lines of labels that are bound.
    pub labels: Labels,
    /// The names in sight.
    pub scope: SymbolTable,
    /// Of the statements that are written and not yet part of another.
    pub flows: Stack<Flow>,
}

impl Drop for Config {
    fn drop(self) {
        let Config {
            result: _,
            params: _params,
            locals: _locals,
            traps: _traps,
            lines: _lines,
            labels: _labels,
            scope: _scope,
            flows: _flows,
        } = self;
    }
}

impl Config {
    /// The code of what is written, with its jumps settled.
    pub fn finish(self, alloc: Global, of: &Ty) -> Result<FunCode, CodeError>
        ensures code { IfOk result (λ code. Finished self of.now code) }
        ensures memory { OnlyMemory result }
    {
        let Config {
            result: _,
            params,
            locals,
            traps,
            lines,
            labels,
            scope: _scope,
            flows: _flows,
        } = self;
        let lines = settle(alloc, &labels, lines)?;
        Ok(FunCode {
            loops: true,
            result: given(of),
            params,
            locals,
            traps,
            lines,
        })
    }
}

/// So many as an instruction has it, which has 32 bits for a number of lines or locals. `NoMemory` where there are more: code has no room for
/// them.
pub fn number_of(count: usize) -> Result<u32, CodeError>
    ensures { MatchResult result (λ number. number ≡ count) (λ error. (error ≡ CodeError.NoMemory) × (4294967295 < count)) }
{
    if count > 4294967295 {
        return Err(CodeError::NoMemory);
    }
    Ok(count as u32)
}

/// The number of the next line.
pub fn next_line(config: &Config) -> Result<u32, CodeError>
    ensures number { IfOk result (λ line. line ≡ length config.now.lines) }
    ensures memory { OnlyMemory result }
    ensures full { OnErr result (4294967295 < length config.now.lines) }
{
    number_of(config.lines.len())
}

/// The number of the next local.
pub fn next_local(config: &Config) -> Result<u32, CodeError>
    ensures number { IfOk result (λ local. local ≡ next_in config.now) }
    ensures memory { OnlyMemory result }
    ensures full { OnErr result (4294967295 < next_in config.now) }
{
    let params = config.params.len();
    let locals = config.locals.len();
    number_of(params.saturating_add(locals))
}
