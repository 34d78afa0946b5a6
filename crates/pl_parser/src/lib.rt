//! The parser: from tokens to the tree, by the rows of the grammar.
#![tactic(auto)]

ghost use Rattle.std.specs.Prelude.{◌≡◌, ◌≤◌, Result, length};
ghost use Rattle.pl_types.specs.Answers.{Answers};
ghost use Rattle.pl_types.specs.declared.refusal.Refusal.{Refusal};
ghost use Rattle.pl_tree.specs.declared.tree.Tree as tree;
ghost use Rattle.pl_grammar.specs.Lexeme.{AllLieIn};
ghost use Rattle.pl_grammar_plain.specs.PlainParses.{PlainParses};

use parse_actions::Builder;
use parse_driver::parse_by;
pub use pl_grammar_plain::plain_laws;
pub use pl_lexer::{Token, each_text_has_one_reading, lex};
pub use pl_tree::Tree;
use pl_types::Fail;
use std::alloc::Global;

/// The tree of the script that the tokens of a text are.
///
/// Refused by the first of these rules that is broken:
/// - NestingDeep, number 3: brackets nest too deep, or a token reaches too far. Its offset is the start of the first such
///   token.
/// - Syntax, number 2: the tokens are no script. Its offset is the start of the first token with which the tokens up to and
///   including it begin no script, or the length of the text in bytes where there is no such token.
pub fn parse(alloc: Global, text: &str, tokens: &[Token]) -> Result<Tree, Fail>
    requires short { length text.now ≤ 1048576 }
    requires placed { AllLieIn text.now tokens.now }
    // The answer is a reading of the tokens.
    ensures exact { Answers (λ tree. tree) result (PlainParses text.now tokens.now) }
    // They have no other.
    ensures only { (reading : Result tree.Tree Refusal) → PlainParses text.now tokens.now reading → Answers (λ tree. tree) result (λ answer. answer ≡ reading) }
{
    plain_laws();
    parse_by::<Builder>(alloc, text, tokens)
}
