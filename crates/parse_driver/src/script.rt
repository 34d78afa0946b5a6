//! Whole scripts.

ghost use Rattle.std.specs.Prelude.{◌≡◌, ◌<◌, [], false, OnOk};
ghost use Rattle.pl_grammar.specs.declared.ahead.Seen.TheVariants as s;
ghost use Rattle.pl_grammar.specs.Ahead.{seen};
ghost use Rattle.pl_grammar.specs.Grammar as grammar;
ghost use Rattle.pl_grammar.specs.Lexeme.{next};
ghost use Rattle.pl_grammar.specs.Reading as reading;
ghost use Rattle.parse_driver.specs.Read.{ReadsAs, ReadsStatements, alone};

use crate::cursor::Cursor;
use crate::reader::{read_phrase, read_series};
use parse_tables::{Form, Series, first, is_function_ahead};
use parse_values::Actions;
use pl_grammar::{Seen, Stop};
use pl_tree::Tree;
use std::alloc::Global;

/// Statements up to the end of the script, one at least.
fn read_statements<S: Actions>(
    alloc: Global,
    tokens: &mut Cursor<'_>,
    stack: &mut S,
    script: &mut Tree,
    levels: u64,
) -> Result<(), Stop>
    requires some { 0 < levels }
    requires ahead { reading.function_ahead (next tokens.old) (seen s.Start tokens.old) ≡ false }
    requires none { script.old.statements ≡ [] }
    ensures read { ReadsStatements script.old (reading.read_form levels grammar.top tokens.old) result tokens.new script.new }
    ensures kept { OnOk result (S.values stack.new ≡ S.values stack.old) }
{
    read_phrase(alloc, tokens, stack, levels - 1, Form::Statement)?;
    read_series(alloc, tokens, stack, levels - 1, Series::Statement)?;
    stack.take_statements(script)?;
    Ok(())
}

/// Functions, as long as one is ahead, and then statements, if there are tokens that begin one.
fn read_top<S: Actions>(
    alloc: Global,
    tokens: &mut Cursor<'_>,
    stack: &mut S,
    script: &mut Tree,
    levels: u64,
) -> Result<(), Stop>
    requires { script.old ≡ alone [] }
    ensures read { ReadsAs (λ tree. tree) (reading.read_form levels grammar.top tokens.old) result tokens.new script.new }
    ensures kept { OnOk result (S.values stack.new ≡ S.values stack.old) }
{
    for used in 0..levels {
        if !is_function_ahead(tokens.peek(), tokens.look(Seen::Start)) {
            return read_statements(alloc, tokens, stack, script, levels - used);
        }
        read_phrase(alloc, tokens, stack, levels - used - 1, Form::Function)?;
        stack.take_function(script)?;
        if !first(Form::Statement, tokens.peek()) {
            return Ok(());
        }
    }
    Err(Stop::TooDeep)
}

/// A whole script and nothing behind it, into a script that is empty before. Rules nest no deeper than `levels`.
///
/// An error says why and where reading stops; nothing is known then of what the stack and the script hold.
pub fn read_script<S: Actions>(
    alloc: Global,
    tokens: &mut Cursor<'_>,
    stack: &mut S,
    script: &mut Tree,
    levels: u64,
) -> Result<(), Stop>
    requires { script.old ≡ alone [] }
    ensures read { ReadsAs (λ tree. tree) (reading.read_script levels tokens.old) result tokens.new script.new }
    ensures kept { OnOk result (S.values stack.new ≡ S.values stack.old) }
{
    if tokens.count() == 0 {
        return Ok(());
    }
    read_top(alloc, tokens, stack, script, levels)?;
    if tokens.count() != 0 {
        return Err(tokens.refuse());
    }
    Ok(())
}
