//! Reading by the rules of the grammar: a phrase by the symbols of its rule, and each symbol by what it is. What is read of a
//! symbol goes on the stack, and a rule's symbols give way there to what the rule makes of them. Phrases inside phrases are read
//! by frames and not by functions that call themselves, so that no script is too deep for the machine's own stack.

ghost use Rattle.std.specs.Prelude.{ℕ, ◌+◌, ◌<◌, ◌≤◌, List, ◌∷◌, length, Result, Ok, OnOk};
ghost use Rattle.pl_grammar.specs.Lexeme.{Lexeme};
ghost use Rattle.pl_grammar.specs.Grammar as grammar;
ghost use Rattle.pl_grammar.specs.Grammar.{TreeOf, SymbolTree};
ghost use Rattle.pl_grammar.specs.Reading as reading;
ghost use Rattle.pl_grammar.specs.Reading.{and_then};
ghost use Rattle.parse_tables.specs.Names.{form_of, series_form, symbol_of};
ghost use Rattle.parse_values.specs.declared.value.Value as declared;
ghost use Rattle.parse_values.specs.Values.{value_of, list_value};
ghost use Rattle.parse_driver.specs.Read.{ReadsAs};
ghost use Rattle.parse_driver.specs.Control.{Whole, ComesTo, Wait, Keeps, steps, phrase_steps, symbol_steps};

use crate::control::{Control, Frame};
use crate::cursor::Cursor;
use parse_tables::{Form, Series, Symbol, absent, choose, first, scan, series_form, symbols};
use parse_values::Actions;
use pl_grammar::Stop;
use std::alloc::Global;

/// Begins a phrase of a form, by the rule that the tokens ahead tell. Rules nest no deeper than `levels`.
fn begin(tokens: &Cursor<'_>, control: &mut Control, levels: u64, form: Form) -> Result<(), Stop>
    ensures read { (below : List declared.Value) (next : TreeOf (form_of form) → List Lexeme → Whole) → Wait control.old (grammar.phrase (form_of form)) below next → Keeps (and_then (reading.read_form levels (form_of form) tokens.now) next) result control.new below tokens.now }
    ensures less { OnOk result ((most : ℕ) → steps most control.new < steps most control.old + phrase_steps most levels) }
{
    if levels == 0 {
        return Err(Stop::TooDeep);
    }
    let rule = choose(form, tokens.peek(), tokens.look(scan(form)));
    control.push(Frame::Rest {
        rule,
        at: 0,
        levels: levels - 1,
    })?;
    Ok(())
}

/// Reads a token, or begins what the symbol stands for.
fn read_symbol<S: Actions>(
    alloc: Global,
    tokens: &mut Cursor<'_>,
    stack: &mut S,
    control: &mut Control,
    levels: u64,
    symbol: Symbol,
) -> Result<(), Stop>
    ensures read { (next : SymbolTree (symbol_of symbol) → List Lexeme → Whole) → Wait control.old (symbol_of symbol) (S.values stack.old) next → Keeps (and_then (reading.read_symbol (reading.read_form levels) (symbol_of symbol) tokens.old) next) result control.new (S.values stack.new) tokens.new }
    ensures less { OnOk result ((most : ℕ) → length tokens.old ≤ most → (length tokens.new ≤ most) × (steps most control.new < steps most control.old + symbol_steps most levels)) }
{
    match symbol {
        Symbol::Sign(terminal) => {
            let token = tokens.expect(terminal)?;
            stack.push_token(alloc, token)?;
            Ok(())
        }
        Symbol::Spelled(terminal) => {
            let token = tokens.expect_spelled(alloc, terminal)?;
            stack.push_spelled(alloc, token)?;
            Ok(())
        }
        Symbol::Phrase(form) => begin(tokens, control, levels, form),
        Symbol::Repeated(series) => {
            stack.push_none(alloc, series)?;
            control.push(Frame::More {
                series,
                turns: tokens.count(),
                levels,
            })?;
            Ok(())
        }
        Symbol::Optional(form) => {
            let next = tokens.peek();
            if first(form, next) {
                return begin(tokens, control, levels, form);
            }
            if !absent(form, next) {
                return Err(tokens.refuse());
            }
            stack.push_nothing(alloc)?;
            Ok(())
        }
    }
}

/// Goes on with a frame that was taken.
fn step<S: Actions>(
    alloc: Global,
    tokens: &mut Cursor<'_>,
    stack: &mut S,
    control: &mut Control,
    frame: Frame,
) -> Result<(), Stop>
    requires { (whole : Whole) × ComesTo (frame ∷ control.old) (S.values stack.old) tokens.old whole }
    ensures read { (whole : Whole) → ComesTo (frame ∷ control.old) (S.values stack.old) tokens.old whole → Keeps whole result control.new (S.values stack.new) tokens.new }
    ensures less { OnOk result ((most : ℕ) → length tokens.old ≤ most → (length tokens.new ≤ most) × (steps most control.new < steps most (frame ∷ control.old))) }
{
    match frame {
        Frame::Rest { rule, at, levels } => {
            let Some(symbol) = symbols(rule).get(at) else {
                stack.reduce(alloc, rule)?;
                return Ok(());
            };
            control.push(Frame::Rest {
                rule,
                at: at + 1,
                levels,
            })?;
            read_symbol(alloc, tokens, stack, control, levels, *symbol)
        }
        Frame::More {
            series,
            turns,
            levels,
        } => {
            let form = series_form(series);
            if turns == 0 {
                return Ok(());
            }
            if !first(form, tokens.peek()) {
                return Ok(());
            }
            control.push(Frame::Join {
                series,
                turns: turns - 1,
                levels,
            })?;
            begin(tokens, control, levels, form)
        }
        Frame::Join {
            series,
            turns,
            levels,
        } => {
            stack.extend(alloc, series)?;
            control.push(Frame::More {
                series,
                turns,
                levels,
            })?;
            Ok(())
        }
    }
}

/// Goes on with the innermost frame, up to where there is none.
fn run<S: Actions>(
    alloc: Global,
    tokens: &mut Cursor<'_>,
    stack: &mut S,
    control: &mut Control,
) -> Result<(), Stop>
    requires { (whole : Whole) × ComesTo control.old (S.values stack.old) tokens.old whole }
    ensures { (whole : Whole) → ComesTo control.old (S.values stack.old) tokens.old whole → ReadsAs (λ values. values) whole result tokens.new (S.values stack.new) }
{
    while let Some(frame) = control.pop() {
        step(alloc, tokens, stack, control, frame)?;
    }
    Ok(())
}

/// A phrase of a form. Rules nest no deeper than `levels`.
pub fn read_phrase<S: Actions>(
    alloc: Global,
    tokens: &mut Cursor<'_>,
    stack: &mut S,
    levels: u64,
    form: Form,
) -> Result<(), Stop>
    ensures { ReadsAs (λ tree. value_of (form_of form) tree ∷ S.values stack.old) (reading.read_form levels (form_of form) tokens.old) result tokens.new (S.values stack.new) }
{
    let mut control = Control::new(alloc);
    begin(tokens, &mut control, levels, form)?;
    run(alloc, tokens, stack, &mut control)
}

/// Phrases, up to a token that begins none.
pub fn read_series<S: Actions>(
    alloc: Global,
    tokens: &mut Cursor<'_>,
    stack: &mut S,
    levels: u64,
    series: Series,
) -> Result<(), Stop>
    ensures { ReadsAs (λ trees. list_value (series_form series) trees ∷ S.values stack.old) (reading.read_repeated (reading.read_form levels) (length tokens.old) (series_form series) tokens.old) result tokens.new (S.values stack.new) }
{
    let mut control = Control::new(alloc);
    stack.push_none(alloc, series)?;
    control.push(Frame::More {
        series,
        turns: tokens.count(),
        levels,
    })?;
    run(alloc, tokens, stack, &mut control)
}
