//! A context whose reply needs its start, and a script that gives nothing.

ghost use Rattle.std.specs.Prelude.{◌≡◌, pos, IfOk, [], ◌∷◌, string_bytes};
ghost use Rattle.serde_json.specs.Data.{number, unsigned};
ghost use Rattle.object_values.specs.declared.value.Value.TheVariants as v;
ghost use Rattle.job_loading.specs.Replies.{line_of};
ghost use Rattle.job_tests.specs.FirstBytes.{KeepsByte, byte_reply, byte_start, first_byte};

use document_replies::{BoundLine, DocumentScript, Line, LineContext, ShownKeys, line_of};
use job_loading::Allow;
use json_bridge::{BindErr, Bound};
use object_heap::{End, Heap, Outcome};
use object_values::{Elements, Seed, Value};
use serde_json::Value as Json;
use std::alloc::{AllocError, Global};

/// Binds a line to its first byte, and replies with the number that a run started with.
#[derive(Drop)]
pub struct FirstBytes {
    pub alloc: Global,
}

/// The first byte of a line, and 0 where it is empty.
fn first_byte(line: &[u8]) -> u8
    ensures { result ≡ first_byte line.now }
{
    match line.first() {
        Some(byte) => *byte,
        None => 0,
    }
}

/// The arguments of a byte.
fn args_of(alloc: Global, byte: u8) -> Result<Elements<Value>, AllocError>
    ensures { IfOk result (λ args. args ≡ v.Long (pos byte) ∷ []) }
{
    let mut args = Elements::new(alloc);
    args.push(Value::Long(i64::from(byte)))?;
    Ok(args)
}

/// The line of a number.
fn number_line(alloc: Global, byte: u8) -> Result<String, AllocError>
    ensures { IfOk result (λ text. string_bytes text ≡ line_of (number (unsigned byte))) }
{
    line_of(alloc, &Json::from(byte))
}

impl LineContext for FirstBytes {
    type Scratch = ();

    type Kept = u8;

    ghost start = { λ _ line. byte_start line };

    ghost answer = { λ _ from ran. byte_reply from ran };

    ghost keeps = { λ _ from byte. KeepsByte from byte };

    fn scratch(&self, _alloc: Global) {}

    fn bind(&self, line: &[u8], _scratch: &mut ()) -> Result<BoundLine<u8>, BindErr> {
        let kept = first_byte(line);
        let args = args_of(self.alloc, kept)?;
        let heap = Heap::new(self.alloc, 0, Seed::of(line));
        Ok(BoundLine {
            bound: Bound { heap, args },
            kept,
        })
    }

    fn reply(
        &self,
        _allow: &Allow,
        _keys: ShownKeys,
        kept: u8,
        _outcome: &Outcome,
    ) -> Result<Line, AllocError> {
        let text = number_line(self.alloc, kept)?;
        Ok(Line {
            text,
            is_error: false,
        })
    }
}

/// A script that gives null.
#[derive(Drop)]
pub struct Nothing {
    pub alloc: Global,
    pub allow: Allow,
}

impl DocumentScript for Nothing {
    type Memory = ();

    ghost takes = { λ _ _. Unit {0} };

    ghost list = { λ script. script.allow };

    ghost ends = { λ _ _ _ _. Unit {0} };

    fn allow(&self) -> &Allow {
        &self.allow
    }

    fn memory(&self, _alloc: Global) {}

    fn run(&self, _memory: &mut (), heap: Heap, _args: Vec<Value>) -> Result<Outcome, AllocError> {
        Ok(Outcome {
            end: End::Value(Value::Null),
            heap,
            ticks: 0,
            steps: 0,
            reached: Elements::new(self.alloc),
        })
    }
}
