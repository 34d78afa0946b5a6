//! Reading a listing.

ghost use Rattle.std.specs.Prelude.{◌≡◌, ◌+◌, ◌<◌, ◌==◌, true, false, IfOk, Option, Some, None, if◌then◌else◌, ℕ, [], option_map};
ghost use Rattle.std.specs.Str.{bytes_eq};
ghost use Rattle.std.specs.Char.{is_ascii_digit};
ghost use Rattle.std.specs.List.{list_all};
ghost use Rattle.pl_code.specs.Reading.{next, next_line, told, finished, is_natural, is_negative, is_integer, is_other_version};
ghost use Rattle.pl_code.specs.Reading.{first_ended, reading_in, read_bytes, first_fault, listing_of, Gives};
ghost use Rattle.pl_code.specs.Seen.{seen_pair};
ghost use Rattle.pl_code.specs.Listing.{is_code, written};
ghost use Rattle.pl_code.specs.Faults.{FaultsAt, first_of, IsReading};
ghost use Rattle.pl_code.specs.declared.code.Code.{Code as CodeData};
ghost use Rattle.pl_code.specs.declared.error.ListingErr.TheVariants.{Syntax, Version};
ghost use Rattle.pl_code.specs.declared.line.Line.TheVariants.{Fun, Caught, Do, End};

use crate::code::{Code, FunCode, Instruction, Trap};
use crate::error::ListingErr;
use crate::line::{Header, line_of};
use listing_parts::place_of;
use plain_data::Items;
use std::alloc::{AllocError, Global};

/// What was read of a listing: the functions that ended, and the one that stands open.
#[derive(Drop)]
pub(crate) struct Reading {
    pub functions: Items<FunCode>,
    pub current: Option<FunCode>,
}

impl Reading {
    /// The same for the text of a line.
    #[tactic(auto, unfolding(crate::specs::Reading::next_line))]
    fn read_line(&mut self, alloc: Global, line: &[u8]) -> Result<bool, AllocError>
        ensures { IfOk result (λ goes. (if goes then Some self.new else None) ≡ next_line self.old line.now) }
    {
        let Ok(text) = str::from_utf8(line) else {
            return Ok(false);
        };
        match line_of(alloc, text)? {
            Some(line) => line.join(alloc, self),
            None => Ok(false),
        }
    }

    /// The code that was read, where the text ends here.
    fn finish(self, number: u32, rest: &[u8]) -> Result<Code, ListingErr>
        ensures { (n : ℕ) → number ≡ told n → result ≡ finished n self.functions self.current rest.now }
    {
        let Reading { functions, current } = self;
        match current {
            None => {
                if rest.is_empty() {
                    Ok(Code { functions })
                } else {
                    Err(ListingErr::Syntax(number))
                }
            }
            Some(_function) => Err(ListingErr::Syntax(number)),
        }
    }

    #[tactic(auto, unfolding(crate::specs::Reading::next))]
    /// The line `fun`: where no function stands open, and it has the next number.
    pub(crate) fn begin(&mut self, alloc: Global, header: Header) -> bool
        ensures { (if result then Some self.new else None) ≡ next self.old (Fun header) }
    {
        if self.current.is_some() || header.number != self.functions.len() as u64 {
            return false;
        }
        let Header {
            number: _number,
            loops,
            result,
            params,
            locals,
        } = header;
        self.current = Some(FunCode {
            loops,
            result,
            params,
            locals,
            traps: Items::new(alloc),
            lines: Items::new(alloc),
        });
        true
    }

    #[tactic(auto, unfolding(crate::specs::Reading::next))]
    /// A trap: where a function stands open that has no instruction yet.
    pub(crate) fn catch(&mut self, trap: Trap) -> Result<bool, AllocError>
        ensures { IfOk result (λ goes. (if goes then Some self.new else None) ≡ next self.old (Caught trap)) }
    {
        match &mut self.current {
            None => Ok(false),
            Some(function) => {
                if !function.lines.is_empty() {
                    return Ok(false);
                }
                function.traps.push(trap)?;
                Ok(true)
            }
        }
    }

    #[tactic(auto, unfolding(crate::specs::Reading::next))]
    /// An instruction: where a function stands open.
    pub(crate) fn add(&mut self, instruction: Instruction) -> Result<bool, AllocError>
        ensures { IfOk result (λ goes. (if goes then Some self.new else None) ≡ next self.old (Do instruction)) }
    {
        match &mut self.current {
            None => Ok(false),
            Some(function) => {
                function.lines.push(instruction)?;
                Ok(true)
            }
        }
    }

    #[tactic(auto, unfolding(crate::specs::Reading::next))]
    /// The line `end`: where a function stands open.
    pub(crate) fn end(&mut self) -> Result<bool, AllocError>
        ensures { IfOk result (λ goes. (if goes then Some self.new else None) ≡ next self.old End) }
    {
        match self.current.take() {
            None => Ok(false),
            Some(function) => {
                self.functions.push(function)?;
                Ok(true)
            }
        }
    }
}

/// The first line that ends at a newline, and what stands behind it.
#[tactic(auto, unfolding(crate::specs::Reading::first_ended))]
fn first_ended(text: &[u8]) -> Option<(&[u8], &[u8])>
    ensures { option_map seen_pair result ≡ first_ended text.now }
{
    let at = place_of(text, b'\n');
    if at < text.len() {
        Some((&text[..at], &text[at + 1..]))
    } else {
        None
    }
}

fn is_natural(text: &[u8]) -> bool
    ensures { result ≡ is_natural text.now }
{
    match text {
        [] => false,
        [first, rest @ ..] => {
            first.is_ascii_digit() && are_digits(rest) && (*first != b'0' || rest.is_empty())
        }
    }
}

fn are_digits(text: &[u8]) -> bool
    ensures { result ≡ list_all is_ascii_digit text.now }
{
    text.iter().all(|byte| byte.is_ascii_digit())
}

fn same(text: &[u8], other: &[u8]) -> bool
    ensures { result ≡ bytes_eq text.now other.now }
{
    text == other
}

fn is_negative(text: &[u8]) -> bool
    ensures { result ≡ is_negative text.now }
{
    is_natural(text) && !same(text, b"0")
}

fn is_integer(text: &[u8]) -> bool
    ensures { result ≡ is_integer text.now }
{
    match text {
        [] => false,
        [first, rest @ ..] => {
            if *first == b'-' {
                is_negative(rest)
            } else {
                is_natural(text)
            }
        }
    }
}

/// Whether a line is `painless` and another number than 1.
#[tactic(auto, unfolding(crate::specs::Reading::is_other_version))]
fn is_other_version(line: &[u8]) -> bool
    ensures { result ≡ is_other_version line.now }
{
    match line.strip_prefix(b"painless ".as_slice()) {
        Some(number) => is_integer(number) && !same(line, b"painless 1"),
        None => false,
    }
}

/// Why a first line is refused.
fn first_fault(line: &[u8]) -> ListingErr
    ensures { result ≡ first_fault line.now }
{
    if is_other_version(line) {
        ListingErr::Version
    } else {
        ListingErr::Syntax(1)
    }
}

/// Reads what stands behind the first line.
fn read_functions(alloc: Global, text: &[u8]) -> Result<Code, ListingErr>
    ensures { Gives result (read_bytes 1 (reading_in [] None) text.now) }
{
    let mut reading = Reading {
        functions: Items::new(alloc),
        current: None,
    };
    let mut rest = text;
    let mut before: u32 = 1;
    while let Some((line, behind)) = first_ended(rest) {
        before = before.saturating_add(1);
        if !reading.read_line(alloc, line)? {
            return Err(ListingErr::Syntax(before));
        }
        rest = behind;
    }
    reading.finish(before.saturating_add(1), rest)
}

/// What a listing is read as.
#[tactic(auto, unfolding(crate::specs::Reading::listing_of))]
fn listing_of(alloc: Global, bytes: &[u8]) -> Result<Code, ListingErr>
    ensures { Gives result (listing_of bytes.now) }
{
    match first_ended(bytes) {
        None => Err(first_fault(bytes)),
        Some((first, rest)) => {
            if same(first, b"painless 1") {
                read_functions(alloc, rest)
            } else {
                Err(first_fault(first))
            }
        }
    }
}

/// The code whose listing this is. The answer is Version exactly where the first line is `painless` and another number
/// than 1. Else it is Syntax, with the line, exactly where no code has this listing. NoMemory is free.
pub fn read_listing(alloc: Global, bytes: &[u8]) -> Result<Code, ListingErr>
    ensures exact { IsReading bytes.now result }
    ensures only_code { (c : CodeData) → is_code c ≡ true → written c ≡ bytes.now → Gives result (Ok c) }
    ensures only_syntax { (n : ℕ) → is_other_version (first_of bytes.now) ≡ false → FaultsAt bytes.now n → Gives result (Err (Syntax n)) }
    ensures only_version { is_other_version (first_of bytes.now) ≡ true → Gives result (Err Version) }
{
    listing_of(alloc, bytes)
}
