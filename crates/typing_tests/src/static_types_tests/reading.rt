//! How the tests read scripts.

ghost use Rattle.std.specs.Prelude.{IfOk};
ghost use Rattle.pl_grammar.specs.Lexeme.{AllLieIn};

use allowlist::{Allow, Catalogue};
use pl_lexer::{MOST_BYTES, Token, lex};
use pl_parser::parse;
use pl_types::{Fail, Primitive, Ty};
use plain_data::{Items, Text};
use static_types::{ContextTypes, elaborate};
use std::alloc::{AllocError, Global};
use std::process::Abort;
use typed_tree::{Named, Program};

#[tactic(auto, using(crate::proofs::Placed::spelled_lie_in))]
fn tokens_of(alloc: Global, names: &Allow, text: &str) -> Result<Vec<Token>, Fail>
    ensures { IfOk result (λ tokens. AllLieIn text.now tokens.items) }
{
    lex(alloc, text, names)
}

/// A context with a variable `n` of type long.
fn context_of(alloc: Global, wanted: Ty) -> Result<ContextTypes, AllocError> {
    let name = Text::new(alloc, "n")?;
    let mut variables = Items::new(alloc);
    variables.push(Named {
        name,
        of: Ty::Prim(Primitive::Long),
    })?;
    Ok(ContextTypes {
        variables,
        result: wanted,
    })
}

/// What scripts are read by: every class, and a context.
#[derive(Drop)]
pub struct Reader {
    alloc: Global,
    allow: Allow,
    context: ContextTypes,
}

impl Reader {
    /// Every class of the catalogue is allowed.
    pub fn new(alloc: Global, wanted: Wanted) -> Result<Reader, AllocError> {
        let allow = Catalogue::full(alloc)?;
        let context = context_of(alloc, type_of(wanted))?;
        Ok(Reader {
            alloc,
            allow,
            context,
        })
    }

    /// The allocator.
    pub fn alloc(&self) -> Global {
        self.alloc
    }

    /// The program of a script, or why there is none.
    pub fn program(&self, rt: &impl Abort, text: &str) -> Result<Program, Fail> {
        assert!(rt; text.len() <= MOST_BYTES as usize);
        let alloc = self.alloc;
        let tokens = tokens_of(alloc, &self.allow, text)?;
        let tree = parse(alloc, text, tokens.as_slice())?;
        elaborate(alloc, &self.allow, &self.context, &tree)
    }
}

/// What a context wants.
#[derive(Clone, Copy)]
pub enum Wanted {
    Number,
    Nothing,
}

fn type_of(wanted: Wanted) -> Ty {
    match wanted {
        Wanted::Number => Ty::Prim(Primitive::Int),
        Wanted::Nothing => Ty::Void,
    }
}

/// Whether a script breaks no rule.
fn is_typed(rt: &impl Abort, reader: &Reader, text: &str) -> bool {
    match reader.program(rt, text) {
        Ok(_) => true,
        Err(_) => false,
    }
}

/// Whether a script is refused by this rule at this place.
fn is_refused(rt: &impl Abort, reader: &Reader, text: &str, number: u8, place: u32) -> bool {
    match reader.program(rt, text) {
        Ok(_) => false,
        Err(Fail::Refused(refusal)) => refusal.number == number && refusal.offset == place,
        Err(Fail::NoMemory) => false,
    }
}

/// Each script is refused so.
pub fn are_refused(rt: &impl Abort, reader: &Reader, rows: &[(&str, u8, u32)]) {
    for (text, number, place) in rows {
        let holds = is_refused(rt, reader, text, *number, *place);
        assert!(rt; holds, "in {text:?}");
    }
}

/// Each script breaks no rule.
pub fn are_typed(rt: &impl Abort, reader: &Reader, rows: &[&str]) {
    for text in rows {
        let holds = is_typed(rt, reader, text);
        assert!(rt; holds, "in {text:?}");
    }
}
