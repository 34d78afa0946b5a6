//! Listings of calls of members.
use crate::build::{expression, int, local, number, one_part, statement};
use crate::references::{cast_to, script, string, text};
use crate::tests::{has_listing, returned};
use allowlist::{Catalogue, MEMBER_COUNT};
use pl_types::classes::{CHAR_SEQUENCE, STRING, STRING_BUILDER};
use pl_types::{Cast, Primitive, Ty};
use plain_data::{Items, Subtree, Text};
use std::alloc::{AllocError, Global};
use std::test::Fail;
use typed_tree::{Member, Node, Operation, StatementNode, Typed};

// `return 'ab'.length()`
const LENGTH: &str = "painless 1
fun 0 loop I R -
text \"ab\"
invoke java.lang.CharSequence.length/0
ret
end
";

// `return new StringBuilder('a').append(1)`
const APPENDED: &str = "painless 1
fun 0 loop R R -
text \"a\"
new java.lang.StringBuilder/1
i 1
box int
invoke java.lang.StringBuilder.append/1
ret
end
";

// `return String.valueOf(1)`
const VALUE: &str = "painless 1
fun 0 loop R R -
i 1
box int
invoke java.lang.String.valueOf/1
ret
end
";

// `return x?.trim()` of a text
const TRIMMED: &str = "painless 1
fun 0 loop R R -
load 0
dup
ifnull 4
invoke java.lang.String.trim/0
ret
end
";

// `x.setLength(0)` of a builder
const SHORTENED: &str = "painless 1
fun 0 loop V R -
load 0
i 0
invoke java.lang.StringBuilder.setLength/1
pop
ret
end
";

/// A member of a class by its name, which is empty where the class is made.
pub fn member(
    alloc: Global,
    class: u32,
    name: &str,
    arity: u32,
    text: &str,
) -> Result<Member, AllocError> {
    let allow = Catalogue::full(alloc)?;
    let number = match allow.member(class, name, arity) {
        Some(number) => number,
        None => MEMBER_COUNT,
    };
    let text = Text::new(alloc, text)?;
    Ok(Member { number, text })
}

/// The type `StringBuilder`.
pub fn builder() -> Ty {
    Ty::Class(STRING_BUILDER)
}

/// An int in its box.
pub fn boxed(alloc: Global, it: i32) -> Result<Subtree<Typed>, AllocError> {
    let wrap = Cast::Wrap(Primitive::Int, Primitive::Int);
    cast_to(alloc, Ty::Def, wrap, number(alloc, it)?)
}

/// A call of a member on a value, with one argument.
pub fn called_with(
    alloc: Global,
    of: Ty,
    member: Member,
    receiver: Subtree<Typed>,
    argument: Subtree<Typed>,
) -> Result<Subtree<Typed>, AllocError> {
    let mut parts = Items::new(alloc);
    parts.push(receiver)?;
    parts.push(argument)?;
    let operation = Operation::Instance(member);
    expression(alloc, of, Node::Apply { operation, parts })
}

/// Whether `return value` has this listing, in a script of one parameter `x`.
pub fn gives(
    alloc: Global,
    of: Ty,
    given: Ty,
    value: Subtree<Typed>,
    text: &str,
) -> Result<bool, AllocError> {
    let program = script(alloc, of, given, returned(alloc, value)?)?;
    has_listing(alloc, &program, text)
}

#[test]
fn called_on_a_value(rt: HostRuntime) -> Result<(), Fail> {
    let alloc = rt.alloc();
    let length = member(
        alloc,
        CHAR_SEQUENCE,
        "length",
        0,
        "java.lang.CharSequence.length/0",
    )?;
    let value = one_part(
        alloc,
        int(),
        Operation::Instance(length),
        text(alloc, "ab")?,
    )?;
    let same = gives(alloc, Ty::Def, int(), value, LENGTH)?;
    assert!(rt; same);
    Ok(())
}

#[test]
fn made(rt: HostRuntime) -> Result<(), Fail> {
    let alloc = rt.alloc();
    let make = member(alloc, STRING_BUILDER, "", 1, "java.lang.StringBuilder/1")?;
    let receiver = one_part(
        alloc,
        builder(),
        Operation::Constructor(make),
        text(alloc, "a")?,
    )?;
    let append = member(
        alloc,
        STRING_BUILDER,
        "append",
        1,
        "java.lang.StringBuilder.append/1",
    )?;
    let value = called_with(alloc, builder(), append, receiver, boxed(alloc, 1)?)?;
    let same = gives(alloc, Ty::Def, builder(), value, APPENDED)?;
    assert!(rt; same);
    Ok(())
}

#[test]
fn called_on_a_class(rt: HostRuntime) -> Result<(), Fail> {
    let alloc = rt.alloc();
    let value_of = member(alloc, STRING, "valueOf", 1, "java.lang.String.valueOf/1")?;
    let value = one_part(
        alloc,
        string(),
        Operation::Static(value_of),
        boxed(alloc, 1)?,
    )?;
    let same = gives(alloc, Ty::Def, string(), value, VALUE)?;
    assert!(rt; same);
    Ok(())
}

#[test]
fn left_out_by_null(rt: HostRuntime) -> Result<(), Fail> {
    let alloc = rt.alloc();
    let trim = member(alloc, STRING, "trim", 0, "java.lang.String.trim/0")?;
    let mut parts = Items::new(alloc);
    parts.push(local(alloc, string(), "x")?)?;
    let operation = Operation::Instance(trim);
    let value = expression(alloc, string(), Node::Guarded { operation, parts })?;
    let same = gives(alloc, string(), string(), value, TRIMMED)?;
    assert!(rt; same);
    Ok(())
}

#[test]
fn given_nothing(rt: HostRuntime) -> Result<(), Fail> {
    let alloc = rt.alloc();
    let set = member(
        alloc,
        STRING_BUILDER,
        "setLength",
        1,
        "java.lang.StringBuilder.setLength/1",
    )?;
    let receiver = local(alloc, builder(), "x")?;
    let value = called_with(alloc, Ty::Void, set, receiver, number(alloc, 0)?)?;
    let only = statement(alloc, StatementNode::Expression(value))?;
    let program = script(alloc, builder(), Ty::Void, only)?;
    let same = has_listing(alloc, &program, SHORTENED)?;
    assert!(rt; same);
    Ok(())
}
