//! Listings of texts, casts of references and instances.
use crate::build::{
    boolean, constant, expression, function, local, named, number, one_part, statement,
};
use crate::tests::{has_listing, returned};
use arithmetic::Op;
use pl_types::classes::{EXCEPTION, INTEGER, STRING};
use pl_types::{Cast, Primitive, Ty};
use plain_data::{Items, Subtree, Text};
use std::alloc::{AllocError, Global};
use std::test::Fail;
use typed_tree::{
    Change, Constant, FunctionKind, Gives, Node, Operation, Operator, Program, StatementNode,
    Target, Typed, TypedStatement,
};

// `return 'a' + 1`, beside a parameter
const JOINED: &str = "painless 1
fun 0 loop R R -
text \"a\"
i 1
box int
concat
ret
end
";

// `return x ?: 'b'` of a text
const OTHER: &str = "painless 1
fun 0 loop R R -
load 0
dup
ifnull 4
goto 6
pop
text \"b\"
ret
end
";

// `return (String) x` of a def
const CAST: &str = "painless 1
fun 0 loop R R -
load 0
cast java.lang.String exp
ret
end
";

// `return (String) x` of a char
const CAST_OF_CHAR: &str = "painless 1
fun 0 loop R I -
load 0
box char
cast java.lang.String exp
ret
end
";

// `return x` of a def, where a long is wanted
const UNBOXED: &str = "painless 1
fun 0 loop J R -
load 0
unbox long imp
ret
end
";

// `return x` of an Integer, where a long is wanted
const WIDENED: &str = "painless 1
fun 0 loop J R -
load 0
unbox int imp
i2j
ret
end
";

// `return x += 2L` of an Integer
const CHANGED: &str = "painless 1
fun 0 loop R R -
load 0
unbox int imp
i2j
j 2
add.j
j2i
box int
dup
store 0
ret
end
";

// `return x instanceof String` of a def
const INSTANCE: &str = "painless 1
fun 0 loop I R -
load 0
isa java.lang.String
ret
end
";

// `return x != null` of a def
const NOT_EQUAL: &str = "painless 1
fun 0 loop I R -
load 0
null
equal
i 0
eq.i
ret
end
";

// `throw x` of a def
const THROW: &str = "painless 1
fun 0 loop V R -
load 0
cast java.lang.Exception imp
throw
end
";

/// The type `String`.
pub fn string() -> Ty {
    Ty::Class(STRING)
}

/// A text.
pub fn text(alloc: Global, it: &str) -> Result<Subtree<Typed>, AllocError> {
    let it = Text::new(alloc, it)?;
    expression(alloc, string(), Node::Text(it))
}

/// A cast to a type.
pub fn cast_to(
    alloc: Global,
    to: Ty,
    cast: Cast,
    part: Subtree<Typed>,
) -> Result<Subtree<Typed>, AllocError> {
    one_part(alloc, to, Operation::Cast(cast), part)
}

/// An operator on two parts.
pub fn two_parts(
    alloc: Global,
    of: Ty,
    operator: Operator,
    left: Subtree<Typed>,
    right: Subtree<Typed>,
) -> Result<Subtree<Typed>, AllocError> {
    let mut parts = Items::new(alloc);
    parts.push(left)?;
    parts.push(right)?;
    let operation = Operation::Operator(operator);
    expression(alloc, of, Node::Apply { operation, parts })
}

/// A script of one parameter `x` and one statement.
pub fn script(
    alloc: Global,
    of: Ty,
    given: Ty,
    only: Subtree<TypedStatement>,
) -> Result<Program, AllocError> {
    let mut parameters = Items::new(alloc);
    parameters.push(named(alloc, "x", of)?)?;
    let mut body = Items::new(alloc);
    body.push(only)?;
    Ok(Program {
        functions: Items::new(alloc),
        main: function(alloc, FunctionKind::Main, parameters, given, body)?,
    })
}

// `return value`, in a script of one parameter `x`.
fn giving(alloc: Global, of: Ty, given: Ty, value: Subtree<Typed>) -> Result<Program, AllocError> {
    let only = returned(alloc, value)?;
    script(alloc, of, given, only)
}

fn joined(alloc: Global) -> Result<Program, AllocError> {
    let wrap = Cast::Wrap(Primitive::Int, Primitive::Int);
    let left = text(alloc, "a")?;
    let right = cast_to(alloc, Ty::Def, wrap, number(alloc, 1)?)?;
    let value = two_parts(alloc, string(), Operator::Concat, left, right)?;
    giving(alloc, Ty::Def, string(), value)
}

fn other_than_null(alloc: Global) -> Result<Program, AllocError> {
    let left = local(alloc, string(), "x")?;
    let right = text(alloc, "b")?;
    let value = expression(alloc, string(), Node::Elvis { left, right })?;
    giving(alloc, string(), string(), value)
}

// A cast of `x`.
fn casting(alloc: Global, from: Ty, to: Ty, cast: Cast) -> Result<Subtree<Typed>, AllocError> {
    let part = local(alloc, from, "x")?;
    cast_to(alloc, to, cast, part)
}

fn cast_of_def(alloc: Global) -> Result<Program, AllocError> {
    let value = casting(alloc, Ty::Def, string(), Cast::Explicit)?;
    giving(alloc, Ty::Def, string(), value)
}

fn cast_of_char(alloc: Global) -> Result<Program, AllocError> {
    let char = Primitive::Char;
    let value = casting(alloc, Ty::Prim(char), string(), Cast::CharToText)?;
    giving(alloc, Ty::Prim(char), string(), value)
}

fn cast_to_number(alloc: Global) -> Result<Program, AllocError> {
    let long = Primitive::Long;
    let value = casting(alloc, Ty::Def, Ty::Prim(long), Cast::Implicit)?;
    giving(alloc, Ty::Def, Ty::Prim(long), value)
}

fn unboxed_to_long(alloc: Global) -> Result<Program, AllocError> {
    let long = Ty::Prim(Primitive::Long);
    let integer = Ty::Class(INTEGER);
    let unwrap = Cast::Unwrap(Primitive::Int, Primitive::Long);
    let value = casting(alloc, integer, long, unwrap)?;
    giving(alloc, Ty::Class(INTEGER), Ty::Prim(Primitive::Long), value)
}

fn changed_box(alloc: Global) -> Result<Program, AllocError> {
    let target = Target::Local(Text::new(alloc, "x")?);
    let change = Change {
        before: Cast::Unwrap(Primitive::Int, Primitive::Long),
        operator: Operator::Long(Op::Add),
        after: Cast::Wrap(Primitive::Long, Primitive::Int),
    };
    let right = constant(alloc, Ty::Prim(Primitive::Long), Constant::Long(2))?;
    let node = Node::Change {
        target,
        parts: Items::new(alloc),
        change,
        right,
        gives: Gives::New,
    };
    let value = expression(alloc, Ty::Class(INTEGER), node)?;
    giving(alloc, Ty::Class(INTEGER), Ty::Class(INTEGER), value)
}

fn instance(alloc: Global) -> Result<Program, AllocError> {
    let part = local(alloc, Ty::Def, "x")?;
    let value = one_part(alloc, boolean(), Operation::InstanceOf(string()), part)?;
    giving(alloc, Ty::Def, boolean(), value)
}

fn compared(alloc: Global) -> Result<Program, AllocError> {
    let left = local(alloc, Ty::Def, "x")?;
    let right = constant(alloc, Ty::Null, Constant::Null)?;
    let value = two_parts(alloc, boolean(), Operator::NotEqual, left, right)?;
    giving(alloc, Ty::Def, boolean(), value)
}

fn thrown(alloc: Global) -> Result<Program, AllocError> {
    let value = casting(alloc, Ty::Def, Ty::Class(EXCEPTION), Cast::Implicit)?;
    let only = statement(alloc, StatementNode::Throw(value))?;
    script(alloc, Ty::Def, Ty::Void, only)
}

#[derive(Clone, Copy)]
enum Sample {
    Joined,
    Other,
    CastOfDef,
    CastOfChar,
    CastToNumber,
    UnboxedToLong,
    ChangedBox,
    Instance,
    Compared,
    Thrown,
}

fn program(alloc: Global, sample: Sample) -> Result<Program, AllocError> {
    match sample {
        Sample::Joined => joined(alloc),
        Sample::Other => other_than_null(alloc),
        Sample::CastOfDef => cast_of_def(alloc),
        Sample::CastOfChar => cast_of_char(alloc),
        Sample::CastToNumber => cast_to_number(alloc),
        Sample::UnboxedToLong => unboxed_to_long(alloc),
        Sample::ChangedBox => changed_box(alloc),
        Sample::Instance => instance(alloc),
        Sample::Compared => compared(alloc),
        Sample::Thrown => thrown(alloc),
    }
}

const ROWS: [(Sample, &str); 10] = [
    (Sample::Joined, JOINED),
    (Sample::Other, OTHER),
    (Sample::CastOfDef, CAST),
    (Sample::CastOfChar, CAST_OF_CHAR),
    (Sample::CastToNumber, UNBOXED),
    (Sample::UnboxedToLong, WIDENED),
    (Sample::ChangedBox, CHANGED),
    (Sample::Instance, INSTANCE),
    (Sample::Compared, NOT_EQUAL),
    (Sample::Thrown, THROW),
];

#[test]
fn references(rt: HostRuntime) -> Result<(), Fail> {
    let alloc = rt.alloc();
    for (sample, text) in &ROWS {
        let program = program(alloc, *sample)?;
        let same = has_listing(alloc, &program, text)?;
        assert!(rt; same);
    }
    Ok(())
}
