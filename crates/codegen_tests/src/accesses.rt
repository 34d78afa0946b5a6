//! Listings of what is found for a receiver when the script runs: calls, names and indexes.
use crate::build::{expression, local, one_part};
use crate::containers::pair;
use crate::members::{boxed, gives};
use arithmetic::Op;
use pl_types::{Cast, Ty};
use plain_data::{Items, Subtree, Text};
use std::alloc::{AllocError, Global};
use std::test::Fail;
use typed_tree::{Change, Gives, Node, Operation, Operator, Target, Typed};

// `return x.f(1)`
const CALLED: &str = "painless 1
fun 0 loop R R -
load 0
i 1
box int
defcall f 1
ret
end
";

// `return x.size()`
const CALLED_ALONE: &str = "painless 1
fun 0 loop R R -
load 0
defcall size 0
ret
end
";

// `return x.y`
const NAMED: &str = "painless 1
fun 0 loop R R -
load 0
getname \"y\"
ret
end
";

// `return x[1]`
const INDEXED: &str = "painless 1
fun 0 loop R R -
load 0
i 1
box int
getidx
ret
end
";

// `return x.y = 1`
const NAME_WRITTEN: &str = "painless 1
fun 0 loop R R -
load 0
i 1
box int
dupx1
putname \"y\"
ret
end
";

// `return x[1] += 2`
const INDEX_CHANGED: &str = "painless 1
fun 0 loop R R -
load 0
i 1
box int
dup2
getidx
i 2
box int
def.add
dupx2
putidx
ret
end
";

// `return x?.f(1)`
const CALL_LEFT_OUT: &str = "painless 1
fun 0 loop R R -
load 0
dup
ifnull 6
i 1
box int
defcall f 1
ret
end
";

// `return x?.y`
const NAME_LEFT_OUT: &str = "painless 1
fun 0 loop R R -
load 0
dup
ifnull 4
getname \"y\"
ret
end
";

fn x(alloc: Global) -> Result<Subtree<Typed>, AllocError> {
    local(alloc, Ty::Def, "x")
}

// `x`, and `1`
fn x_and_one(alloc: Global) -> Result<Items<Subtree<Typed>>, AllocError> {
    pair(alloc, x(alloc)?, boxed(alloc, 1)?)
}

fn method(alloc: Global, name: &str) -> Result<Operation, AllocError> {
    Ok(Operation::DefCall(Text::new(alloc, name)?))
}

fn name(alloc: Global, name: &str) -> Result<Operation, AllocError> {
    Ok(Operation::DefName(Text::new(alloc, name)?))
}

fn of_def(alloc: Global, value: Subtree<Typed>, text: &str) -> Result<bool, AllocError> {
    gives(alloc, Ty::Def, Ty::Def, value, text)
}

#[test]
fn called(rt: HostRuntime) -> Result<(), Fail> {
    let alloc = rt.alloc();
    let operation = method(alloc, "f")?;
    let parts = x_and_one(alloc)?;
    let value = expression(alloc, Ty::Def, Node::Apply { operation, parts })?;
    let same = of_def(alloc, value, CALLED)?;
    assert!(rt; same);
    let value = one_part(alloc, Ty::Def, method(alloc, "size")?, x(alloc)?)?;
    let same = of_def(alloc, value, CALLED_ALONE)?;
    assert!(rt; same);
    Ok(())
}

#[test]
fn read(rt: HostRuntime) -> Result<(), Fail> {
    let alloc = rt.alloc();
    let value = one_part(alloc, Ty::Def, name(alloc, "y")?, x(alloc)?)?;
    let same = of_def(alloc, value, NAMED)?;
    assert!(rt; same);
    let operation = Operation::DefIndex;
    let parts = x_and_one(alloc)?;
    let value = expression(alloc, Ty::Def, Node::Apply { operation, parts })?;
    let same = of_def(alloc, value, INDEXED)?;
    assert!(rt; same);
    Ok(())
}

#[test]
fn written(rt: HostRuntime) -> Result<(), Fail> {
    let alloc = rt.alloc();
    let mut parts = Items::new(alloc);
    parts.push(x(alloc)?)?;
    let write = Operation::PutDefName(Text::new(alloc, "y")?);
    let node = Node::Assign {
        target: Target::Place { read: None, write },
        parts,
        value: boxed(alloc, 1)?,
    };
    let value = expression(alloc, Ty::Def, node)?;
    let same = of_def(alloc, value, NAME_WRITTEN)?;
    assert!(rt; same);
    let node = Node::Change {
        target: Target::Place {
            read: Some(Operation::DefIndex),
            write: Operation::PutDefIndex,
        },
        parts: x_and_one(alloc)?,
        change: Change {
            before: Cast::Keep,
            operator: Operator::Def(Op::Add),
            after: Cast::Keep,
        },
        right: boxed(alloc, 2)?,
        gives: Gives::New,
    };
    let value = expression(alloc, Ty::Def, node)?;
    let same = of_def(alloc, value, INDEX_CHANGED)?;
    assert!(rt; same);
    Ok(())
}

#[test]
fn left_out(rt: HostRuntime) -> Result<(), Fail> {
    let alloc = rt.alloc();
    let operation = method(alloc, "f")?;
    let parts = x_and_one(alloc)?;
    let value = expression(alloc, Ty::Def, Node::Guarded { operation, parts })?;
    let same = of_def(alloc, value, CALL_LEFT_OUT)?;
    assert!(rt; same);
    let operation = name(alloc, "y")?;
    let mut parts = Items::new(alloc);
    parts.push(x(alloc)?)?;
    let value = expression(alloc, Ty::Def, Node::Guarded { operation, parts })?;
    let same = of_def(alloc, value, NAME_LEFT_OUT)?;
    assert!(rt; same);
    Ok(())
}
