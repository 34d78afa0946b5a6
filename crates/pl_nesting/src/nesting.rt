//! How deep brackets nest, and how far a token reaches.

ghost use Rattle.std.specs.Prelude.{[], ◌≡◌, ◌≤◌, ◌+◌, sum, IfOk, Option};
ghost use Rattle.pl_nesting.specs.Nesting as spec;

use pl_lexer::{Kind, Sign, Token, Word};
use std::alloc::{AllocError, Global};
use std::marker::Model;

/// The most brackets that may be open at once.
const DEEPEST: usize = 200;
/// The most that a token may reach.
const FARTHEST: u32 = 1000;

fn opens(kind: Kind) -> bool
    ensures { result ≡ spec.opens kind }
{
    matches!(
        kind,
        Kind::Sign(Sign::LeftParen | Sign::LeftBracket | Sign::LeftBrace)
    )
}

fn shuts(kind: Kind) -> bool
    ensures { result ≡ spec.shuts kind }
{
    matches!(
        kind,
        Kind::Sign(Sign::RightParen | Sign::RightBracket | Sign::RightBrace)
    )
}

fn is_else(after: &[Token]) -> bool
    ensures { result ≡ spec.is_else after.now }
{
    match after {
        [] => false,
        [next, ..] => matches!(next.kind, Kind::Word(Word::Else)),
    }
}

fn separates(kind: Kind, after: &[Token]) -> bool
    ensures { result ≡ spec.separates kind after.now }
{
    match kind {
        Kind::Sign(Sign::Comma) => true,
        Kind::Sign(Sign::Semicolon) => !is_else(after),
        Kind::Sign(Sign::RightBrace) => !is_else(after),
        _ => false,
    }
}

/// The shares of the open levels.
#[derive(Drop)]
struct Levels {
    inner: u32,
    /// Those outside, the outermost first.
    outer: Vec<u32>,
    /// The sum of those outside.
    total: u32,
}

impl Model for Levels {
    ghost use Rattle.std.specs.Prelude.{◌≡◌, sum, reverse};
    ghost use Rattle.pl_nesting.specs.Nesting.{Shares};

    ghost Value = { Shares };

    ghost view = { λ l. record { inner = l.inner; outer = reverse l.outer.items } };

    ghost invariant = { λ l. l.total ≡ sum (reverse l.outer.items) };
}

impl Levels {
    fn new(alloc: Global) -> Levels
        ensures { result ≡ record { inner = 0; outer = [] } }
    {
        Levels {
            inner: 0,
            outer: Vec::new(alloc),
            total: 0,
        }
    }

    /// Counts a token in its level.
    fn count(&mut self, kind: Kind)
        requires { self.old.inner + sum self.old.outer ≤ 1000 }
        ensures { self.new ≡ spec.counted kind self.old }
    {
        if shuts(kind) {
            self.shut();
        }
        self.inner += 1;
    }

    fn shut(&mut self)
        requires { self.old.inner + sum self.old.outer ≤ 1000 }
        ensures { self.new ≡ spec.outside self.old }
    {
        match self.outer.pop() {
            None => {}
            Some(share) => {
                self.inner = share;
                self.total -= share;
            }
        }
    }

    fn is_deep(&self, kind: Kind) -> bool
        requires { self.now.inner + sum self.now.outer ≤ 1001 }
        ensures { result ≡ spec.is_deep kind self.now }
    {
        opens(kind) && self.outer.len() >= DEEPEST || self.inner + self.total > FARTHEST
    }

    /// Goes on after a token.
    fn leave(&mut self, kind: Kind, after: &[Token]) -> Result<(), AllocError>
        requires { self.old.inner + sum self.old.outer ≤ 1000 }
        ensures { IfOk result (λ _. self.new ≡ spec.left_by kind after.now self.old) }
    {
        if opens(kind) {
            self.outer.push(self.inner)?;
            self.total += self.inner;
            self.inner = 0;
        } else if separates(kind, after) {
            self.inner = 0;
        }
        Ok(())
    }
}

/// Where the first token begins that breaks the nesting rule, if one does.
pub fn nesting_fault(alloc: Global, tokens: &[Token]) -> Result<Option<u32>, AllocError>
    ensures { IfOk result (λ fault. fault ≡ spec.nesting_fault tokens.now) }
{
    let mut levels = Levels::new(alloc);
    for at in 0..tokens.len() {
        let token = tokens[at];
        levels.count(token.kind);
        if levels.is_deep(token.kind) {
            return Ok(Some(token.start));
        }
        levels.leave(token.kind, &tokens[at + 1..])?;
    }
    Ok(None)
}
