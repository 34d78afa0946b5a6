//! New objects and arrays.

ghost use Rattle.std.specs.Prelude.{OnOk};
ghost use Rattle.pl_grammar.specs.Grammar as g;
ghost use Rattle.parse_values.specs.Stack.{AreOnTop, Reduces};

use parse_nodes::{before, bracket_first, chained, created_as, or_none};
use parse_stack::Stack;
use parse_values::Value;
use pl_grammar::{New, Placed};
use pl_tree::Expr;
use plain_data::Items;
use std::alloc::{AllocError, Global};

/// `new of`, what follows, and the suffixes.
pub fn created(alloc: Global, stack: &mut Stack) -> Result<(), AllocError>
    requires { AreOnTop g.created stack.old }
    ensures { OnOk result (Reduces g.created stack.old stack.new) }
{
    let others = stack.suffixes();
    let rest = stack.new_rest();
    let of = stack.type_name();
    let at = stack.token().start;
    let object = created_as(alloc, at, of, rest)?;
    stack.push(alloc, Value::Placed(Some(chained(alloc, object, others)?)))
}

/// The arguments of a new object.
pub fn new_object(alloc: Global, stack: &mut Stack) -> Result<(), AllocError>
    requires { AreOnTop g.new_object stack.old }
    ensures { OnOk result (Reduces g.new_object stack.old stack.new) }
{
    let given = stack.arguments();
    stack.push(
        alloc,
        Value::New(Some(New::Object(Items::new(alloc), given))),
    )
}

/// `[` and what follows.
pub fn new_array(alloc: Global, stack: &mut Stack) -> Result<(), AllocError>
    requires { AreOnTop g.new_array stack.old }
    ensures { OnOk result (Reduces g.new_array stack.old stack.new) }
{
    let rest = stack.new_rest();
    let at = stack.token().start;
    stack.push(alloc, Value::New(Some(bracket_first(alloc, at, rest)?)))
}

/// The sizes of a new array.
pub fn first_size(alloc: Global, stack: &mut Stack) -> Result<(), AllocError>
    requires { AreOnTop g.first_size stack.old }
    ensures { OnOk result (Reduces g.first_size stack.old stack.new) }
{
    let others = stack.exprs();
    stack.skip();
    let one = stack.placed().expr;
    let sizes = before(alloc, one, others)?;
    stack.push(alloc, Value::New(Some(New::Sized(sizes))))
}

/// The items of a new array.
pub fn array_items(alloc: Global, stack: &mut Stack) -> Result<(), AllocError>
    requires { AreOnTop g.array_items stack.old }
    ensures { OnOk result (Reduces g.array_items stack.old stack.new) }
{
    stack.skip();
    let items = or_none(alloc, stack.exprs_if_any());
    stack.skip();
    stack.push(alloc, Value::New(Some(New::Filled(items))))
}

/// Further `[ ]` of a type, and the arguments of a new object.
pub fn array_deeper(alloc: Global, stack: &mut Stack) -> Result<(), AllocError>
    requires { AreOnTop g.array_deeper stack.old }
    ensures { OnOk result (Reduces g.array_deeper stack.old stack.new) }
{
    let given = stack.arguments();
    let others = stack.places();
    let one = stack.place();
    let brackets = before(alloc, one, others)?;
    stack.push(alloc, Value::New(Some(New::Object(brackets, given))))
}

/// `[size]`
pub fn size_of(alloc: Global, stack: &mut Stack) -> Result<(), AllocError>
    requires { AreOnTop g.size_of stack.old }
    ensures { OnOk result (Reduces g.size_of stack.old stack.new) }
{
    stack.skip();
    let size = stack.placed().expr;
    stack.skip();
    stack.push(alloc, Value::Expr(Some(size)))
}
