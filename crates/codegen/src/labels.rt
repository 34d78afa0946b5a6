//! Lines whose jumps name labels, and the lines that labels have.

ghost use Rattle.std.specs.Prelude.{◌≡◌, ◌≢◌, ◌++◌, [], ◌∷◌, length, slice_get, slice_set, map, IfOk, MatchResult, OnOk};
ghost use Rattle.codegen.specs.Labels as spec;
ghost use Rattle.codegen.specs.Labels.{bound, settled_line};
ghost use Rattle.codegen.specs.Errors.{OnlyMemory};

use crate::error::CodeError;
use pl_code::{Instruction, Numbered};
use plain_data::Items;
use plain_stack::Stack;
use std::alloc::Global;
use std::marker::Model;

/// A line of code. A jump names its label.
pub enum Line {
    Fixed(Instruction),
    Jump(Numbered, usize),
}

impl Drop for Line {
    fn drop(self) {
        match self {
            Line::Fixed(_instruction) => {}
            Line::Jump(_, _) => {}
        }
    }
}

/// The lines of labels, by their numbers. A label that is not bound yet has none.
pub struct Labels {
    lines: Vec<Option<u32>>,
}

impl Drop for Labels {
    fn drop(self) {
        let Labels { lines: _lines } = self;
    }
}

impl Model for Labels {
    ghost use Rattle.std.specs.Prelude.{List, Option, ℕ};

    ghost Value = { List (Option ℕ) };

    ghost view = { λ l. l.lines.items };
}

impl Labels {
    /// No labels.
    pub fn new(alloc: Global) -> Labels
        ensures { result ≡ [] }
    {
        Labels {
            lines: Vec::new(alloc),
        }
    }

    /// A label that is not bound.
    pub fn fresh(&mut self) -> Result<usize, CodeError>
        ensures label { IfOk result (λ label. label ≡ length self.old) }
        ensures labels { OnOk result (self.new ≡ self.old ++ None ∷ []) }
        ensures memory { OnlyMemory result }
    {
        let label = self.lines.len();
        self.lines.push(None)?;
        Ok(label)
    }

    /// Gives a label its line. It has none yet.
    pub fn bind(&mut self, label: usize, line: u32) -> Result<(), CodeError>
        ensures free { MatchResult result (λ _. slice_get self.old label ≡ Some None) (λ _. slice_get self.old label ≢ Some None) }
        ensures labels { OnOk result (self.new ≡ slice_set self.old label (Some line)) }
    {
        let Some(None) = self.lines.get(label) else {
            return Err(CodeError::Malformed);
        };
        self.lines[label] = Some(line);
        Ok(())
    }

    /// The line of a label.
    pub fn get(&self, label: usize) -> Option<u32>
        ensures { result ≡ bound (slice_get self.now label) }
    {
        match self.lines.get(label) {
            Some(line) => *line,
            None => None,
        }
    }
}

impl Line {
    /// The instruction of a line.
    fn settled(self, labels: &Labels) -> Instruction
        ensures { result ≡ settled_line labels.now self }
    {
        match self {
            Line::Fixed(instruction) => instruction,
            Line::Jump(kind, label) => Instruction::Numbered(kind, or_first(labels.get(label))),
        }
    }
}

fn or_first(line: Option<u32>) -> u32
    ensures { result ≡ spec.or_first line }
{
    match line {
        Some(line) => line,
        None => 0,
    }
}

/// The instructions of some lines.
pub fn settle(
    alloc: Global,
    labels: &Labels,
    mut lines: Items<Line>,
) -> Result<Items<Instruction>, CodeError>
    ensures lines { IfOk result (λ instructions. instructions ≡ map (settled_line labels.now) lines) }
    ensures memory { OnlyMemory result }
{
    let mut settled = Stack::new(alloc);
    while let Some(line) = lines.pop() {
        settled.push(line.settled(labels))?;
    }
    Ok(settled.into_items())
}
