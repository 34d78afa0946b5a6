//! The parser, over the actions of whoever keeps what is read.

ghost use Rattle.std.specs.Prelude.{◌≡◌, ◌≤◌, ◌++◌, List, Result, length};
ghost use Rattle.pl_types.specs.Answers.{Answers};
ghost use Rattle.pl_types.specs.declared.refusal.Refusal.{Refusal};
ghost use Rattle.pl_tree.specs.declared.tree.Tree as tree;
ghost use Rattle.pl_grammar.specs.Lexeme.{AllLieIn, Lexeme, lexemes};
ghost use Rattle.pl_grammar.specs.Parses.{Parses, place_of};

use crate::cursor::Cursor;
use crate::script::read_script;
use parse_values::Actions;
use pl_grammar::Stop;
use pl_grammar_laws::grammar_laws;
use pl_lexer::Token;
use pl_nesting::nesting_fault;
use pl_tree::Tree;
use pl_types::{Fail, Refusal, rules};
use std::alloc::Global;

/// Where the first of the last `left` tokens begins, or the length of the text.
fn place(text: &str, tokens: &[Token], left: usize) -> u32
    requires short { length text.now ≤ 1048576 }
    requires within { left ≤ length tokens.now }
    ensures { (front rest : List Lexeme) → lexemes text.now tokens.now ≡ front ++ rest → length rest ≡ left → result ≡ place_of (length text.now) rest }
{
    match &tokens[tokens.len() - left..] {
        [] => text.len() as u32,
        [first, ..] => first.start,
    }
}

/// The tree of the script that the tokens of a text are, built by the actions `S`.
///
/// Refused by NestingDeep, and else by Syntax, as `pl_parser::parse` says.
pub fn parse_by<S: Actions>(alloc: Global, text: &str, tokens: &[Token]) -> Result<Tree, Fail>
    requires short { length text.now ≤ 1048576 }
    requires placed { AllLieIn text.now tokens.now }
    // The answer is a reading of the tokens.
    ensures exact { Answers (λ tree. tree) result (Parses text.now tokens.now) }
    // They have no other.
    ensures only { (reading : Result tree.Tree Refusal) → Parses text.now tokens.now reading → Answers (λ tree. tree) result (λ answer. answer ≡ reading) }
{
    grammar_laws();
    if let Some(offset) = nesting_fault(alloc, tokens)? {
        return Err(Fail::Refused(Refusal {
            number: rules::NESTING_DEEP,
            offset,
        }));
    }
    let levels = 32 * tokens.len() as u64 + 31;
    let mut cursor = Cursor::new(text, tokens);
    let mut stack = S::new(alloc);
    let mut script = Tree::new(alloc);
    let Err(stop) = read_script(alloc, &mut cursor, &mut stack, &mut script, levels) else {
        return Ok(script);
    };
    script.discard();
    match stop {
        Stop::NoMemory => Err(Fail::NoMemory),
        Stop::TooDeep => unreachable!(),
        Stop::Unexpected(left) => Err(Fail::Refused(Refusal {
            number: rules::SYNTAX,
            offset: place(text, tokens, left),
        })),
    }
}
