//! Literals, lists and maps.

ghost use Rattle.std.specs.Prelude.{OnOk};
ghost use Rattle.pl_grammar.specs.Grammar as g;
ghost use Rattle.parse_values.specs.Stack.{AreOnTop, Reduces};

use parse_nodes::{before, collected, constant_of};
use parse_stack::Stack;
use parse_values::Value;
use pl_grammar::{Contents, More, Placed};
use pl_tree::{Entry, Expr, Spelled};
use plain_data::Items;
use std::alloc::{AllocError, Global};

/// A whole number.
pub fn integer(alloc: Global, stack: &mut Stack) -> Result<(), AllocError>
    requires { AreOnTop g.integer stack.old }
    ensures { OnOk result (Reduces g.integer stack.old stack.new) }
{
    let Spelled { at, spelling } = stack.spelled();
    let expr = Expr::held(alloc, Expr::Integer { at, spelling })?;
    stack.push(alloc, Value::Placed(Some(Placed { start: at, expr })))
}

/// A text.
pub fn string(alloc: Global, stack: &mut Stack) -> Result<(), AllocError>
    requires { AreOnTop g.string stack.old }
    ensures { OnOk result (Reduces g.string stack.old stack.new) }
{
    let Spelled { at, spelling } = stack.spelled();
    let expr = Expr::held(alloc, Expr::Text { at, spelling })?;
    stack.push(alloc, Value::Placed(Some(Placed { start: at, expr })))
}

/// `true`, `false` or `null`
pub fn constant(alloc: Global, stack: &mut Stack) -> Result<(), AllocError>
    requires { AreOnTop g.constant stack.old }
    ensures { OnOk result (Reduces g.constant stack.old stack.new) }
{
    let token = stack.token();
    let expr = Expr::held(
        alloc,
        Expr::Constant {
            constant: constant_of(token.kind),
            at: token.start,
        },
    )?;
    stack.push(
        alloc,
        Value::Placed(Some(Placed {
            start: token.start,
            expr,
        })),
    )
}

/// `[ .. ]`, a list or a map.
pub fn collection(alloc: Global, stack: &mut Stack) -> Result<(), AllocError>
    requires { AreOnTop g.collection stack.old }
    ensures { OnOk result (Reduces g.collection stack.old stack.new) }
{
    stack.skip();
    let inside = stack.contents_if_any();
    let at = stack.token().start;
    let expr = collected(alloc, at, inside)?;
    stack.push(alloc, Value::Placed(Some(Placed { start: at, expr })))
}

/// The `:` of an empty map.
pub fn no_entries(alloc: Global, stack: &mut Stack) -> Result<(), AllocError>
    requires { AreOnTop g.no_entries stack.old }
    ensures { OnOk result (Reduces g.no_entries stack.old stack.new) }
{
    stack.skip();
    stack.push(alloc, Value::Contents(Some(Contents::NoEntries)))
}

/// Contents of a list or a map, one at least.
pub fn filled(alloc: Global, stack: &mut Stack) -> Result<(), AllocError>
    requires { AreOnTop g.filled stack.old }
    ensures { OnOk result (Reduces g.filled stack.old stack.new) }
{
    let more = stack.more_if_any();
    let one = stack.placed().expr;
    stack.push(alloc, Value::Contents(Some(Contents::Filled(one, more))))
}

/// Further items of a list.
pub fn more_items(alloc: Global, stack: &mut Stack) -> Result<(), AllocError>
    requires { AreOnTop g.more_items stack.old }
    ensures { OnOk result (Reduces g.more_items stack.old stack.new) }
{
    let others = stack.exprs();
    let one = stack.expr();
    stack.push(
        alloc,
        Value::More(Some(More::Items(before(alloc, one, others)?))),
    )
}

/// The first value of a map, and further entries.
pub fn more_entries(alloc: Global, stack: &mut Stack) -> Result<(), AllocError>
    requires { AreOnTop g.more_entries stack.old }
    ensures { OnOk result (Reduces g.more_entries stack.old stack.new) }
{
    let others = stack.entries();
    let one = stack.placed().expr;
    stack.skip();
    stack.push(alloc, Value::More(Some(More::Entries(one, others))))
}

/// `key : value`
pub fn entry_of(alloc: Global, stack: &mut Stack) -> Result<(), AllocError>
    requires { AreOnTop g.entry_of stack.old }
    ensures { OnOk result (Reduces g.entry_of stack.old stack.new) }
{
    let value = stack.placed().expr;
    stack.skip();
    let key = stack.placed().expr;
    stack.push(alloc, Value::Entry(Some(Entry { key, value })))
}

/// Items, one at least.
pub fn items_of(alloc: Global, stack: &mut Stack) -> Result<(), AllocError>
    requires { AreOnTop g.items_of stack.old }
    ensures { OnOk result (Reduces g.items_of stack.old stack.new) }
{
    let others = stack.exprs();
    let one = stack.expr();
    stack.push(alloc, Value::Exprs(Some(before(alloc, one, others)?)))
}

/// An item.
pub fn item_of(alloc: Global, stack: &mut Stack) -> Result<(), AllocError>
    requires { AreOnTop g.item_of stack.old }
    ensures { OnOk result (Reduces g.item_of stack.old stack.new) }
{
    let one = stack.placed().expr;
    stack.push(alloc, Value::Expr(Some(one)))
}
