//! Two conversations over lines, whose replies depend on the lines before.

ghost use Rattle.std.specs.Prelude.{◌≡◌, IfOk, string_bytes, codes, ◌++◌};
ghost use Rattle.std.specs.Fmt.{decimal};
ghost use Rattle.line_run.specs.Replies.{no_reply};
ghost use Rattle.line_run.specs.Shown.{reply_shown};
ghost use Rattle.job_tests.specs.Talks.{HeardKinds, HeardSoMany, kinds, next, number_reply, numbers};

use line_run::{ReplyLine, Talker};
use std::alloc::{AllocError, Global};

/// Tells each line its number, counted from 1, and behind the last one how many there were.
#[derive(Drop)]
pub struct Numbers {
    pub alloc: Global,
}

/// Tells each line how many before it were of its kind, and behind the last one nothing.
#[derive(Drop)]
pub struct Kinds {
    pub alloc: Global,
}

/// How many lines were short, and how many too long.
#[derive(Clone, Copy)]
pub struct KindCounts {
    pub short: u64,
    pub long: u64,
}

/// One more.
fn following(count: u64) -> u64
    ensures { result ≡ next count }
{
    count.saturating_add(1)
}

/// A number as it is written.
fn number_text(alloc: Global, number: u64) -> Result<String, AllocError>
    ensures { IfOk result (λ text. string_bytes text ≡ decimal number ++ codes "\n") }
{
    format!(in alloc; "{number}\n")
}

/// A number on a line of its own.
fn number_line(alloc: Global, number: u64) -> Result<ReplyLine, AllocError>
    ensures { IfOk result (λ reply. reply_shown reply ≡ number_reply number) }
{
    let text = number_text(alloc, number)?;
    Ok(ReplyLine {
        text,
        is_error: false,
        steps: 0,
    })
}

/// No reply.
fn nothing(alloc: Global) -> ReplyLine
    ensures { reply_shown result ≡ no_reply }
{
    ReplyLine {
        text: String::new(alloc),
        is_error: false,
        steps: 0,
    }
}

impl Talker for Numbers {
    type State = u64;

    ghost ready = { λ _. Unit {0} };

    ghost talk = { λ _. numbers };

    ghost heard = { λ _ count lines. HeardSoMany count lines };

    fn begin(&self, _alloc: Global) -> u64 {
        0
    }

    fn reply(&self, _line: &[u8], state: &mut u64) -> Result<ReplyLine, AllocError> {
        let count = following(*state);
        *state = count;
        number_line(self.alloc, count)
    }

    fn reply_to_long(&self, state: &mut u64) -> Result<ReplyLine, AllocError> {
        let count = following(*state);
        *state = count;
        number_line(self.alloc, count)
    }

    fn end(&self, alloc: Global, state: u64) -> Result<ReplyLine, AllocError> {
        number_line(alloc, state)
    }
}

impl Talker for Kinds {
    type State = KindCounts;

    ghost ready = { λ _. Unit {0} };

    ghost talk = { λ _. kinds };

    ghost heard = { λ _ counts lines. HeardKinds counts lines };

    fn begin(&self, _alloc: Global) -> KindCounts {
        KindCounts { short: 0, long: 0 }
    }

    fn reply(&self, _line: &[u8], state: &mut KindCounts) -> Result<ReplyLine, AllocError> {
        let KindCounts { short, long } = *state;
        let count = following(short);
        *state = KindCounts { short: count, long };
        number_line(self.alloc, short)
    }

    fn reply_to_long(&self, state: &mut KindCounts) -> Result<ReplyLine, AllocError> {
        let KindCounts { short, long } = *state;
        let count = following(long);
        *state = KindCounts { short, long: count };
        number_line(self.alloc, long)
    }

    fn end(&self, alloc: Global, _state: KindCounts) -> Result<ReplyLine, AllocError> {
        Ok(nothing(alloc))
    }
}
