//! Listings of lists, maps, arrays, iterators, operators on values of any types, and places.
use crate::build::{constant, expression, int, local, long, number, one_part};
use crate::members::{boxed, builder, gives, member};
use crate::references::{text, two_parts};
use arithmetic::Op;
use pl_types::classes::{ARRAY_LIST, HASH_MAP, ITERATOR, MAP, STRING_BUILDER};
use pl_types::{Cast, Primitive, Ty};
use plain_data::{Boxed, Items, Subtree};
use std::alloc::{AllocError, Global};
use std::test::Fail;
use typed_tree::{Change, Constant, Gives, Node, Operation, Operator, Target, Typed};

// `return [1, 2]`
const LIST: &str = "painless 1
fun 0 loop R R -
i 1
box int
i 2
box int
list 2
ret
end
";

// `return ['a': 1]`
const MAP_OF_ONE: &str = "painless 1
fun 0 loop R R -
text \"a\"
i 1
box int
map 1
ret
end
";

// `return new int[2][3]`
const SIZES: &str = "painless 1
fun 0 loop R R -
i 2
i 3
newarray int[][] 2
ret
end
";

// `return new long[] {1L}`
const FILLED: &str = "painless 1
fun 0 loop R R -
j 1
array long 1
ret
end
";

// `return x[1]` of a `long[]`
const READ: &str = "painless 1
fun 0 loop J R -
load 0
i 1
aload long
ret
end
";

// `return x.length` of an array
const LENGTH: &str = "painless 1
fun 0 loop I R -
load 0
alen
ret
end
";

// `return x - 1` of a def
const DIFFERENCE: &str = "painless 1
fun 0 loop R R -
load 0
i 1
box int
def.sub
ret
end
";

// an iterator over a def
const ITERATOR_OF: &str = "painless 1
fun 0 loop R R -
load 0
iter
ret
end
";

// `return x[1] = 5` of an `int[]`
const WRITTEN: &str = "painless 1
fun 0 loop I R -
load 0
i 1
i 5
dupx2
astore int
ret
end
";

// `return x[1]++` of a `byte[]`
const COUNTED: &str = "painless 1
fun 0 loop I R -
load 0
i 1
dup2
aload byte
dupx2
i 1
add.i
i2b
astore byte
ret
end
";

// `return x[1] += 2L` of a `long[]`
const CHANGED: &str = "painless 1
fun 0 loop J R -
load 0
i 1
dup2
aload long
j 2
add.j
dupx2
astore long
ret
end
";

// `return x.length = 3` of a builder
const SET: &str = "painless 1
fun 0 loop I R -
load 0
i 3
dupx1
invoke java.lang.StringBuilder.setLength/1
pop
ret
end
";

// `return x['a'] += 1` of a map
const ENTRY: &str = "painless 1
fun 0 loop R R -
load 0
text \"a\"
dup2
invoke java.util.Map.get/1
i 1
box int
def.add
dupx2
invoke java.util.Map.put/2
pop
ret
end
";

fn array(alloc: Global, of: Ty) -> Result<Ty, AllocError> {
    Ok(Ty::Array(Boxed::new(alloc, of)?))
}

fn operator(
    alloc: Global,
    of: Ty,
    operator: Operator,
    parts: Items<Subtree<Typed>>,
) -> Result<Subtree<Typed>, AllocError> {
    let operation = Operation::Operator(operator);
    expression(alloc, of, Node::Apply { operation, parts })
}

/// Two parts.
pub fn pair(
    alloc: Global,
    first: Subtree<Typed>,
    second: Subtree<Typed>,
) -> Result<Items<Subtree<Typed>>, AllocError> {
    let mut parts = Items::new(alloc);
    parts.push(first)?;
    parts.push(second)?;
    Ok(parts)
}

// `x[1]` of an array of a type, as the parts of a place or of an operation
fn second_of(alloc: Global, of: Ty) -> Result<Items<Subtree<Typed>>, AllocError> {
    let x = local(alloc, array(alloc, of)?, "x")?;
    pair(alloc, x, number(alloc, 1)?)
}

#[test]
fn made(rt: HostRuntime) -> Result<(), Fail> {
    let alloc = rt.alloc();
    let list = Ty::Class(ARRAY_LIST);
    let parts = pair(alloc, boxed(alloc, 1)?, boxed(alloc, 2)?)?;
    let value = operator(alloc, list, Operator::List, parts)?;
    let same = gives(alloc, Ty::Def, Ty::Class(ARRAY_LIST), value, LIST)?;
    assert!(rt; same);
    let parts = pair(alloc, text(alloc, "a")?, boxed(alloc, 1)?)?;
    let value = operator(alloc, Ty::Class(HASH_MAP), Operator::Map, parts)?;
    let same = gives(alloc, Ty::Def, Ty::Class(HASH_MAP), value, MAP_OF_ONE)?;
    assert!(rt; same);
    Ok(())
}

#[test]
fn arrays(rt: HostRuntime) -> Result<(), Fail> {
    let alloc = rt.alloc();
    let of = array(alloc, array(alloc, int())?)?;
    let given = array(alloc, array(alloc, int())?)?;
    let parts = pair(alloc, number(alloc, 2)?, number(alloc, 3)?)?;
    let value = operator(alloc, of, Operator::NewArray, parts)?;
    let same = gives(alloc, Ty::Def, given, value, SIZES)?;
    assert!(rt; same);
    let mut parts = Items::new(alloc);
    parts.push(constant(alloc, long(), Constant::Long(1))?)?;
    let value = operator(alloc, array(alloc, long())?, Operator::ArrayOf, parts)?;
    let same = gives(alloc, Ty::Def, array(alloc, long())?, value, FILLED)?;
    assert!(rt; same);
    Ok(())
}

#[test]
fn read(rt: HostRuntime) -> Result<(), Fail> {
    let alloc = rt.alloc();
    let value = operator(alloc, long(), Operator::Element, second_of(alloc, long())?)?;
    let same = gives(alloc, array(alloc, long())?, long(), value, READ)?;
    assert!(rt; same);
    let x = local(alloc, array(alloc, int())?, "x")?;
    let length = Operation::Operator(Operator::Length);
    let value = one_part(alloc, int(), length, x)?;
    let same = gives(alloc, array(alloc, int())?, int(), value, LENGTH)?;
    assert!(rt; same);
    Ok(())
}

#[test]
fn of_any_types(rt: HostRuntime) -> Result<(), Fail> {
    let alloc = rt.alloc();
    let x = local(alloc, Ty::Def, "x")?;
    let value = two_parts(alloc, Ty::Def, Operator::Def(Op::Sub), x, boxed(alloc, 1)?)?;
    let same = gives(alloc, Ty::Def, Ty::Def, value, DIFFERENCE)?;
    assert!(rt; same);
    let x = local(alloc, Ty::Def, "x")?;
    let iterate = Operation::Operator(Operator::Iterate);
    let value = one_part(alloc, Ty::Class(ITERATOR), iterate, x)?;
    let same = gives(alloc, Ty::Def, Ty::Class(ITERATOR), value, ITERATOR_OF)?;
    assert!(rt; same);
    Ok(())
}

fn element() -> Target {
    Target::Place {
        read: Some(Operation::Operator(Operator::Element)),
        write: Operation::Operator(Operator::PutElement),
    }
}

#[test]
fn elements_written(rt: HostRuntime) -> Result<(), Fail> {
    let alloc = rt.alloc();
    let node = Node::Assign {
        target: element(),
        parts: second_of(alloc, int())?,
        value: number(alloc, 5)?,
    };
    let value = expression(alloc, int(), node)?;
    let same = gives(alloc, array(alloc, int())?, int(), value, WRITTEN)?;
    assert!(rt; same);
    Ok(())
}

#[test]
fn elements_changed(rt: HostRuntime) -> Result<(), Fail> {
    let alloc = rt.alloc();
    let byte = Primitive::Byte;
    let node = Node::Change {
        target: element(),
        parts: second_of(alloc, Ty::Prim(byte))?,
        change: Change {
            before: Cast::Number(byte, Primitive::Int),
            operator: Operator::Int(Op::Add),
            after: Cast::Number(Primitive::Int, byte),
        },
        right: number(alloc, 1)?,
        gives: Gives::Old,
    };
    let value = expression(alloc, Ty::Prim(byte), node)?;
    let same = gives(
        alloc,
        array(alloc, Ty::Prim(byte))?,
        Ty::Prim(byte),
        value,
        COUNTED,
    )?;
    assert!(rt; same);
    let node = Node::Change {
        target: element(),
        parts: second_of(alloc, long())?,
        change: Change {
            before: Cast::Keep,
            operator: Operator::Long(Op::Add),
            after: Cast::Keep,
        },
        right: constant(alloc, long(), Constant::Long(2))?,
        gives: Gives::New,
    };
    let value = expression(alloc, long(), node)?;
    let same = gives(alloc, array(alloc, long())?, long(), value, CHANGED)?;
    assert!(rt; same);
    Ok(())
}

#[test]
fn members_write(rt: HostRuntime) -> Result<(), Fail> {
    let alloc = rt.alloc();
    let set = member(
        alloc,
        STRING_BUILDER,
        "setLength",
        1,
        "java.lang.StringBuilder.setLength/1",
    )?;
    let mut parts = Items::new(alloc);
    parts.push(local(alloc, builder(), "x")?)?;
    let node = Node::Assign {
        target: Target::Place {
            read: None,
            write: Operation::Instance(set),
        },
        parts,
        value: number(alloc, 3)?,
    };
    let value = expression(alloc, int(), node)?;
    let same = gives(alloc, builder(), int(), value, SET)?;
    assert!(rt; same);
    let get = member(alloc, MAP, "get", 1, "java.util.Map.get/1")?;
    let put = member(alloc, MAP, "put", 2, "java.util.Map.put/2")?;
    let x = local(alloc, Ty::Class(MAP), "x")?;
    let node = Node::Change {
        target: Target::Place {
            read: Some(Operation::Instance(get)),
            write: Operation::Instance(put),
        },
        parts: pair(alloc, x, text(alloc, "a")?)?,
        change: Change {
            before: Cast::Keep,
            operator: Operator::Def(Op::Add),
            after: Cast::Keep,
        },
        right: boxed(alloc, 1)?,
        gives: Gives::New,
    };
    let value = expression(alloc, Ty::Def, node)?;
    let same = gives(alloc, Ty::Class(MAP), Ty::Def, value, ENTRY)?;
    assert!(rt; same);
    Ok(())
}
