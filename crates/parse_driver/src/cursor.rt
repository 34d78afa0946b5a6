//! A cursor over the tokens of a text.

ghost use Rattle.std.specs.Prelude.{◌≡◌, length};
ghost use Rattle.pl_grammar.specs.Lexeme.{AllLieIn, lexemes, mark, text, next};
ghost use Rattle.pl_grammar.specs.declared.stop.Stop.TheVariants as stop;
ghost use Rattle.pl_grammar.specs.Ahead.{seen};
ghost use Rattle.pl_grammar.specs.Reading.{Reads, read_token};

use pl_grammar::{Seen, Stop, Terminal, look, matches, terminal_of};
use pl_lexer::Token;
use pl_tree::Spelled;
use plain_data::Text;
use std::alloc::Global;
use std::marker::Model;

/// The tokens that are left, and the text that they stand in.
#[derive(Drop)]
pub struct Cursor<'a> {
    text: &'a str,
    left: &'a [Token],
}

impl<'a> Model for Cursor<'a> {
    ghost use Rattle.std.specs.Prelude.{List};
    ghost use Rattle.pl_grammar.specs.Lexeme.{Lexeme, AllLieIn, lexemes};

    ghost Value = { List Lexeme };

    ghost view = { λ c. lexemes c.text.now c.left.now };

    ghost invariant = { λ c. AllLieIn c.text.now c.left.now };
}

impl<'a> Cursor<'a> {
    /// Before the first of these tokens.
    pub fn new(text: &'a str, left: &'a [Token]) -> Cursor<'a>
        requires { AllLieIn text.now left.now }
        ensures { result ≡ lexemes text.now left.now }
    {
        Cursor { text, left }
    }

    /// How many tokens are left.
    #[tactic(auto, using(crate::proofs::Lexemes::length_lexemes))]
    pub fn count(&self) -> usize
        ensures { result ≡ length self.now }
    {
        self.left.len()
    }

    /// The class of the next token.
    pub fn peek(&self) -> Terminal
        ensures { result ≡ next self.now }
    {
        match self.left {
            [] => Terminal::End,
            [token, ..] => terminal_of(token.kind),
        }
    }

    /// What is seen of all that are left, from this on.
    pub fn look(&self, from: Seen) -> Seen
        ensures { result ≡ seen from self.now }
    {
        look(self.left, from)
    }

    /// Why reading stops here.
    #[tactic(auto, using(crate::proofs::Lexemes::length_lexemes))]
    pub fn refuse(&self) -> Stop
        ensures { result ≡ stop.Unexpected (length self.now) }
    {
        Stop::Unexpected(self.left.len())
    }

    /// Takes a token of this class.
    #[tactic(auto, unfolding(pl_grammar::specs::Reading::read_token))]
    pub fn expect(&mut self, terminal: Terminal) -> Result<Token, Stop>
        ensures { Reads (read_token mark terminal self.old) result self.new }
    {
        let Some((first, rest)) = self.left.split_first() else {
            return Err(self.refuse());
        };
        if !matches(terminal, terminal_of(first.kind)) {
            return Err(self.refuse());
        }
        let token = *first;
        self.left = rest;
        Ok(token)
    }

    /// Takes a token of this class, with its bytes.
    #[tactic(auto, unfolding(pl_grammar::specs::Reading::read_token))]
    pub fn expect_spelled(&mut self, alloc: Global, terminal: Terminal) -> Result<Spelled, Stop>
        ensures { Reads (read_token text terminal self.old) result self.new }
    {
        let Some((first, rest)) = self.left.split_first() else {
            return Err(self.refuse());
        };
        if !matches(terminal, terminal_of(first.kind)) {
            return Err(self.refuse());
        }
        let spelling = Text::new(alloc, &self.text[first.start as usize..first.end as usize])?;
        let at = first.start;
        self.left = rest;
        Ok(Spelled { at, spelling })
    }
}
