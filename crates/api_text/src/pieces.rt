//! Texts cut at the occurrences of a token, and with occurrences replaced.
ghost use Rattle.std.specs.Prelude.{◌≡◌, ◌++◌, ◌+◌, ◌<◌, ◌^◌, [], ◌∷◌, IfErr, IfOk, length};
ghost use Rattle.std.specs.Option.{option_map};
ghost use Rattle.object_values.specs.declared.value.Value.TheVariants as v;
ghost use Rattle.api_text.specs.Pieces as spec;
ghost use Rattle.api_text.specs.Writing.{Made, MadeTexts, StopsOne};

use crate::writing::{Stop, Texts, kept, push_piece, write, write_both};
use object_values::{Elements, Value};
use pl_units::{UText, find_units};
use std::alloc::Global;

// What stands before the first occurrence of a token, and what behind it.
#[tactic(auto, using(crate::proofs::Places::first_place_within))]
fn parts_around<'a>(token: &[u16], text: &'a [u16]) -> Option<(&'a [u16], &'a [u16])>
    ensures { option_map (λ parts. (parts.0.now, parts.1.now)) result ≡ spec.around token.now text.now }
{
    match find_units(text, token, 0) {
        Some(place) => Some((&text[..place], &text[place + token.len()..])),
        None => None,
    }
}

// What is written, and then the rest.
fn finished(mut out: Vec<u16>, rest: &[u16], room: u64) -> Result<UText, Stop>
    ensures { Made room (out.items ++ rest.now) result }
{
    match write(&mut out, rest, room) {
        Ok(()) => kept(out),
        Err(stop) => Err(stop),
    }
}

// A text with every occurrence of another that is not empty replaced.
fn replaced_in(
    alloc: Global,
    room: u64,
    text: &[u16],
    target: &[u16],
    by: &[u16],
) -> Result<UText, Stop>
    ensures { Made room (spec.replaced_times (length text.now) target.now by.now text.now) result }
{
    let mut out = Vec::new(alloc);
    let mut rest = text;
    for _left in (0..text.len()).rev() {
        let Some((before, behind)) = parts_around(target, rest) else {
            return finished(out, rest, room);
        };
        match write_both(&mut out, before, by, room) {
            Ok(()) => rest = behind,
            Err(stop) => return Err(stop),
        }
    }
    finished(out, rest, room)
}

// A text before each unit and at the end.
fn spread(alloc: Global, room: u64, text: &[u16], by: &[u16]) -> Result<UText, Stop>
    ensures { Made room (spec.spread by.now text.now) result }
{
    let mut out = Vec::new(alloc);
    for unit in text {
        write_both(&mut out, by, &[*unit], room)?;
    }
    finished(out, by, room)
}

/// A text with every occurrence of another replaced.
pub fn replaced(
    alloc: Global,
    room: u64,
    text: &[u16],
    target: &[u16],
    by: &[u16],
) -> Result<UText, Stop>
    ensures { Made room (spec.replaced text.now target.now by.now) result }
{
    match target {
        [] => spread(alloc, room, text, by),
        _ => replaced_in(alloc, room, text, target, by),
    }
}

// The last piece of a text, and all of them.
fn last_piece(
    alloc: Global,
    mut items: Vec<Value>,
    mut cost: u64,
    mut spare: u64,
    rest: &[u16],
) -> Result<Texts, Stop>
    requires { cost + spare < 2 ^ 64 }
    ensures items { IfOk result (λ texts. texts.items ≡ items.items ++ v.Str rest.now ∷ []) }
    ensures cost { IfOk result (λ texts. texts.cost ≡ cost + (length rest.now + 1)) }
    ensures stop { IfErr result (λ stop. StopsOne spare rest.now stop) }
{
    match push_piece(alloc, &mut items, &mut cost, &mut spare, rest) {
        Ok(()) => Ok(Texts {
            items: Elements::from_vec(items),
            cost,
        }),
        Err(stop) => Err(stop),
    }
}

// The pieces of a text that is cut at most so many times.
fn cut(alloc: Global, room: u64, text: &[u16], token: &[u16], times: usize) -> Result<Texts, Stop>
    ensures { MadeTexts room (spec.cut times token.now text.now) result }
{
    let mut items = Vec::new(alloc);
    let mut cost = 0;
    let mut spare = room;
    let mut rest = text;
    for _left in (0..times).rev() {
        let Some((before, behind)) = parts_around(token, rest) else {
            return last_piece(alloc, items, cost, spare, rest);
        };
        match push_piece(alloc, &mut items, &mut cost, &mut spare, before) {
            Ok(()) => rest = behind,
            Err(stop) => return Err(stop),
        }
    }
    last_piece(alloc, items, cost, spare, rest)
}

// How often a text of so many units is cut.
fn times_of(count: usize, limit: i32) -> usize
    ensures { result ≡ spec.times_of count limit }
{
    if limit <= 0 {
        return count;
    }
    limit as usize - 1
}

/// The pieces of a text between the occurrences of a token, of which there are at most so many where the limit is above 0.
pub fn pieces(
    alloc: Global,
    room: u64,
    text: &[u16],
    token: &[u16],
    limit: i32,
) -> Result<Texts, Stop>
    ensures { MadeTexts room (spec.pieces text.now token.now limit) result }
{
    match token {
        [] => cut(alloc, room, text, token, 0),
        _ => cut(alloc, room, text, token, times_of(text.len(), limit)),
    }
}
