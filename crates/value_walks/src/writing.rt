//! The text of a value.
ghost use Rattle.std.specs.Prelude.{◌≡◌, [], OnOk, IfErr, Option, ℕ};
ghost use Rattle.std.specs.Option.{option_copied};
ghost use Rattle.object_heap.specs.Parts.{pairs_in};
ghost use Rattle.value_walks.specs.declared.outputs.Output.{Output};
ghost use Rattle.value_walks.specs.Outputs.{put};
ghost use Rattle.value_walks.specs.Texts as spec;
ghost use Rattle.value_walks.specs.Texts.{AValue, AnEntry, Writes, Gives, GivesWithin, text_of, entry_text_of};

use crate::LEVELS;
use crate::equality::value_now;
use crate::error::TextErr;
use crate::keyed::{Shown, item_at, pair_at, shown_of};
use crate::outputs::Output;
use crate::words::{write_class, write_exception, write_flag, write_interface, write_number};
use object_heap::Heap;
use object_values::{Object, Pairs, Value};
use pl_types::ClassNames;
use pl_types::classes::ITERATOR;
use pl_units::UText;

/// The text of a value, by a walk over the values that it writes, from level 1: `null`; `true` and `false`; whole numbers in
/// decimal; chars and texts themselves; lists, arrays, sets and views as `[a, b]`; maps as `{k=v, k=v}`; an entry as `k=v`, with the
/// value that its map has now; a builder's units; an exception by its full class name and, where it has one, `: ` and its message;
/// an iterator and a function value by the short name of the class, `Iterator` or the interface, and `lambda` where it has no
/// interface. Keys are visited too, and so is each entry of a view of entries, one level below the view.
///
/// None where the text is of more units than there is `room` for: then it is not made. `Deep` is a visit below level 100, and
/// `Large` one more than the budget, whatever the text's length; the first is told where both hold. `NoMemory`: there was none for
/// the text.
pub fn text_within(
    heap: &Heap,
    value: &Value,
    budget: u64,
    room: u64,
) -> Result<Option<UText>, TextErr>
    ensures { GivesWithin room (text_of heap.now.objects value.now budget) result }
{
    let mut out = Output::new(heap.alloc(), room);
    let walked = push_text(heap, value, budget, &mut out);
    text_written(out, walked)
}

/// The text of a value, whatever its length. The errors are those of [`text_within`]. (There is no memory for more units than a number
/// counts.)
#[tactic(auto, using(crate::proofs::Behind::given_whole, crate::proofs::Behind::stopped_whole))]
pub fn text(heap: &Heap, value: &Value, budget: u64) -> Result<UText, TextErr>
    ensures { Gives (text_of heap.now.objects value.now budget) result }
{
    match text_within(heap, value, budget, u64::MAX) {
        Ok(Some(text)) => Ok(text),
        Ok(None) => Err(TextErr::NoMemory),
        Err(cause) => Err(cause),
    }
}

/// The text of a walk that alone was written to an output, by what the walk answered: none where it is of more units than there was
/// room for. The errors are the walk's; `NoMemory`: there was none for the text.
#[tactic(auto, using(crate::proofs::Behind::given_within, crate::proofs::Behind::stopped_within))]
pub fn text_written(out: Output, walked: Result<u64, TextErr>) -> Result<Option<UText>, TextErr>
    ensures { (room : ℕ) (walk : spec.Text) → Writes walk (Output.Kept [] room) out walked → GivesWithin room walk result }
{
    match walked {
        Ok(_) => out.text(),
        Err(cause) => Err(cause),
    }
}

/// Writes the text of a value behind what is there, and gives the visits that are left. After an error some of it may stand there.
/// The errors are those of [`text_within`].
#[tactic(auto, unfolding(crate::specs::Texts::text_of))]
pub fn push_text(heap: &Heap, value: &Value, budget: u64, out: &mut Output) -> Result<u64, TextErr>
    ensures { Writes (text_of heap.now.objects value.now budget) out.old out.new result }
{
    value_at(heap, LEVELS, value, budget, out)
}

/// Writes the text of an entry of a view, a key and the value that it has now, behind what is there: a visit at level 1, and the key
/// and the value at level 2. The answers are those of [`push_text`].
#[tactic(auto, unfolding(crate::specs::Texts::entry_text_of))]
pub fn push_entry(
    heap: &Heap,
    key: &Value,
    value: &Value,
    budget: u64,
    out: &mut Output,
) -> Result<u64, TextErr>
    ensures { Writes (entry_text_of heap.now.objects key.now value.now budget) out.old out.new result }
{
    entry_at(heap, LEVELS, key, value, budget, out)
}

// Visits a value, at so many levels and so many visits.
#[cycle(text)]
fn value_at(
    heap: &Heap,
    levels: u32,
    value: &Value,
    visits: u64,
    out: &mut Output,
) -> Result<u64, TextErr>
    ensures { Writes (spec.node_at levels heap.now.objects (AValue value.now) visits) out.old out.new result }
{
    if levels == 0 {
        return Err(TextErr::Deep);
    }
    if visits == 0 {
        return Err(TextErr::Large);
    }
    value_text(heap, levels - 1, value, visits - 1, out)
}

// Visits an entry of a view.
#[cycle(text)]
fn entry_at(
    heap: &Heap,
    levels: u32,
    key: &Value,
    value: &Value,
    visits: u64,
    out: &mut Output,
) -> Result<u64, TextErr>
    ensures { Writes (spec.node_at levels heap.now.objects (AnEntry key.now value.now) visits) out.old out.new result }
{
    if levels == 0 {
        return Err(TextErr::Deep);
    }
    if visits == 0 {
        return Err(TextErr::Large);
    }
    pair_text(heap, levels - 1, key, value, visits - 1, out)
}

#[cycle(text)]
fn value_text(
    heap: &Heap,
    levels: u32,
    value: &Value,
    visits: u64,
    out: &mut Output,
) -> Result<u64, TextErr>
    ensures { Writes (spec.value_text (spec.node_at levels heap.now.objects) heap.now.objects value.now visits) out.old out.new result }
{
    match value {
        Value::Ref(id) => match heap.get(*id) {
            Some(object) => object_text(heap, levels, object, visits, out),
            None => Ok(visits),
        },
        _ => plain_text(heap, value, visits, out),
    }
}

const NULL: [u16; 4] = [110, 117, 108, 108];

// The text of a value that is no object.
fn plain_text(heap: &Heap, value: &Value, visits: u64, out: &mut Output) -> Result<u64, TextErr>
    ensures { Writes (spec.plain_text value.now visits) out.old out.new result }
{
    match value {
        Value::Null => out.write(&NULL)?,
        Value::Bool(flag) => write_flag(out, *flag)?,
        Value::Byte(number) => write_number(heap.alloc(), out, i64::from(*number))?,
        Value::Short(number) => write_number(heap.alloc(), out, i64::from(*number))?,
        Value::Char(unit) => out.write(&[*unit])?,
        Value::Int(number) => write_number(heap.alloc(), out, i64::from(*number))?,
        Value::Long(number) => write_number(heap.alloc(), out, *number)?,
        Value::Str(text) => out.write(text.units())?,
        Value::Ref(_) => {}
    }
    Ok(visits)
}

#[cycle(text)]
fn object_text(
    heap: &Heap,
    levels: u32,
    object: &Object,
    visits: u64,
    out: &mut Output,
) -> Result<u64, TextErr>
    ensures { Writes (spec.object_text (spec.node_at levels heap.now.objects) heap.now.objects object.now visits) out.old out.new result }
{
    match object {
        Object::List { items, .. } => list_text(heap, levels, items.as_slice(), visits, out),
        Object::Array { items, .. } => list_text(heap, levels, items.as_slice(), visits, out),
        Object::Map { pairs, .. } => {
            keyed_text(heap, levels, Shown::Pairs, Some(pairs), visits, out)
        }
        Object::Set { items, .. } => {
            keyed_text(heap, levels, Shown::Keys, Some(items), visits, out)
        }
        Object::View { map, part } => {
            keyed_text(heap, levels, shown_of(*part), heap.pairs(*map), visits, out)
        }
        Object::Entry { map, key } => {
            let null = Value::Null;
            let value = value_now(heap, *map, key, &null);
            pair_text(heap, levels, key, value, visits, out)
        }
        _ => name_text(heap, object, visits, out),
    }
}

// The text of an object that shows no other value.
fn name_text(heap: &Heap, object: &Object, visits: u64, out: &mut Output) -> Result<u64, TextErr>
    ensures { Writes (spec.name_text object.now visits) out.old out.new result }
{
    match object {
        Object::Iter { .. } => write_class(heap.alloc(), out, ITERATOR, ClassNames::Short)?,
        Object::Builder { units } => out.write(units.as_slice())?,
        Object::Fun { iface, .. } => write_interface(heap.alloc(), out, *iface)?,
        Object::Exc { class, message } => {
            write_exception(heap.alloc(), out, *class, message.as_ref())?
        }
        _ => {}
    }
    Ok(visits)
}

#[cycle(text)]
fn pair_text(
    heap: &Heap,
    levels: u32,
    key: &Value,
    value: &Value,
    visits: u64,
    out: &mut Output,
) -> Result<u64, TextErr>
    ensures { Writes (spec.pair_text (spec.node_at levels heap.now.objects) key.now value.now visits) out.old out.new result }
{
    let rest = value_at(heap, levels, key, visits, out)?;
    out.write(&[61])?;
    value_at(heap, levels, value, rest, out)
}

#[cycle(text)]
fn list_text(
    heap: &Heap,
    levels: u32,
    items: &[Value],
    visits: u64,
    out: &mut Output,
) -> Result<u64, TextErr>
    ensures { Writes (spec.list_text (spec.node_at levels heap.now.objects) items.now visits) out.old out.new result }
{
    out.write(&[91])?;
    let rest = items_text(heap, levels, items, visits, out)?;
    out.write(&[93])?;
    Ok(rest)
}

#[cycle(text)]
fn items_text(
    heap: &Heap,
    levels: u32,
    items: &[Value],
    visits: u64,
    out: &mut Output,
) -> Result<u64, TextErr>
    ensures { Writes (spec.items_text (λ value. spec.node_at levels heap.now.objects (AValue value)) items.now visits) out.old out.new result }
{
    let mut rest = visits;
    for at in 0..items.len() {
        separate(out, at)?;
        let Some(item) = item_at(items, at) else {
            unreachable!()
        };
        rest = value_at(heap, levels, item, rest, out)?;
    }
    Ok(rest)
}

// Writes a comma before each item but the first.
fn separate(out: &mut Output, at: usize) -> Result<(), TextErr>
    ensures ok { OnOk result (out.new ≡ put out.old (spec.separator at)) }
    ensures err { IfErr result (λ cause. cause ≡ TextErr.NoMemory) }
{
    if at > 0 { out.write(&[44, 32]) } else { Ok(()) }
}

// What is shown of the pairs of a map or a set.
#[cycle(text)]
fn keyed_text(
    heap: &Heap,
    levels: u32,
    shown: Shown,
    pairs: Option<&Pairs>,
    visits: u64,
    out: &mut Output,
) -> Result<u64, TextErr>
    ensures { Writes (spec.keyed_text (spec.node_at levels heap.now.objects) shown (pairs_in (option_copied pairs.entry)) visits) out.old out.new result }
{
    write_opening(out, shown)?;
    let rest = pairs_text(heap, levels, shown, pairs, visits, out)?;
    write_closing(out, shown)?;
    Ok(rest)
}

#[cycle(text)]
fn pairs_text(
    heap: &Heap,
    levels: u32,
    shown: Shown,
    pairs: Option<&Pairs>,
    visits: u64,
    out: &mut Output,
) -> Result<u64, TextErr>
    ensures { Writes (spec.items_text (spec.shown_text (spec.node_at levels heap.now.objects) shown) (pairs_in (option_copied pairs.entry)) visits) out.old out.new result }
{
    match pairs {
        Some(pairs) => all_pairs_text(heap, levels, shown, pairs, visits, out),
        None => Ok(visits),
    }
}

#[cycle(text)]
fn all_pairs_text(
    heap: &Heap,
    levels: u32,
    shown: Shown,
    pairs: &Pairs,
    visits: u64,
    out: &mut Output,
) -> Result<u64, TextErr>
    ensures { Writes (spec.items_text (spec.shown_text (spec.node_at levels heap.now.objects) shown) pairs.now visits) out.old out.new result }
{
    let mut rest = visits;
    for at in 0..pairs.len() {
        separate(out, at)?;
        let Some((key, value)) = pair_at(pairs, at) else {
            unreachable!()
        };
        rest = shown_text(heap, levels, shown, key, value, rest, out)?;
    }
    Ok(rest)
}

#[cycle(text)]
fn shown_text(
    heap: &Heap,
    levels: u32,
    shown: Shown,
    key: &Value,
    value: &Value,
    visits: u64,
    out: &mut Output,
) -> Result<u64, TextErr>
    ensures { Writes (spec.shown_text (spec.node_at levels heap.now.objects) shown (key.now, value.now) visits) out.old out.new result }
{
    match shown {
        Shown::Keys => value_at(heap, levels, key, visits, out),
        Shown::Values => value_at(heap, levels, value, visits, out),
        Shown::Entries => entry_at(heap, levels, key, value, visits, out),
        Shown::Pairs => pair_text(heap, levels, key, value, visits, out),
    }
}

fn write_opening(out: &mut Output, shown: Shown) -> Result<(), TextErr>
    ensures ok { OnOk result (out.new ≡ put out.old (spec.opening shown)) }
    ensures err { IfErr result (λ cause. cause ≡ TextErr.NoMemory) }
{
    match shown {
        Shown::Keys | Shown::Values | Shown::Entries => out.write(&[91]),
        Shown::Pairs => out.write(&[123]),
    }
}

fn write_closing(out: &mut Output, shown: Shown) -> Result<(), TextErr>
    ensures ok { OnOk result (out.new ≡ put out.old (spec.closing shown)) }
    ensures err { IfErr result (λ cause. cause ≡ TextErr.NoMemory) }
{
    match shown {
        Shown::Keys | Shown::Values | Shown::Entries => out.write(&[93]),
        Shown::Pairs => out.write(&[125]),
    }
}
