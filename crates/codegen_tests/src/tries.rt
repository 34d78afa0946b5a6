//! Listings of statements that catch and throw.
use crate::build::{changed, function, int, local, named, number, statement};
use crate::tests::{has_listing, returned};
use arithmetic::Op;
use pl_types::Ty;
use pl_types::classes::{ARITHMETIC_EXCEPTION, EXCEPTION, NULL_POINTER_EXCEPTION};
use plain_data::{Items, Subtree, Text};
use std::alloc::{AllocError, Global};
use std::test::Fail;
use typed_tree::{FunctionKind, Gives, Program, StatementNode, TypedCatch, TypedStatement};

// `try { x += 1 } catch (Exception e) { x += 2 } return x`
const ONE: &str = "painless 1
fun 0 loop I I R
trap 0 7 7 java.lang.Exception
load 0
i 1
add.i
dup
store 0
pop
goto 14
store 1
load 0
i 2
add.i
dup
store 0
pop
load 0
ret
end
";

// `try { x += 1 } catch (ArithmeticException e) { x += 2 } catch (Exception e) { x += 3 } return x`
const TWO: &str = "painless 1
fun 0 loop I I RR
trap 0 7 7 java.lang.ArithmeticException
trap 0 7 15 java.lang.Exception
load 0
i 1
add.i
dup
store 0
pop
goto 22
store 1
load 0
i 2
add.i
dup
store 0
pop
goto 22
store 2
load 0
i 3
add.i
dup
store 0
pop
load 0
ret
end
";

// `try { try { x += 1 } catch (ArithmeticException e) { return 1 } catch (NullPointerException e) { x += 2 } } catch (Exception e) { throw e } return x`
const INNER: &str = "painless 1
fun 0 loop I I RRR
trap 0 7 7 java.lang.ArithmeticException
trap 0 7 10 java.lang.NullPointerException
trap 0 18 18 java.lang.Exception
load 0
i 1
add.i
dup
store 0
pop
goto 17
store 1
i 1
ret
store 2
load 0
i 2
add.i
dup
store 0
pop
goto 21
store 3
load 3
throw
load 0
ret
end
";

// `x += number`
fn plus(alloc: Global, addend: i32) -> Result<Subtree<TypedStatement>, AllocError> {
    let value = changed(alloc, "x", Op::Add, number(alloc, addend)?, Gives::New)?;
    statement(alloc, StatementNode::Expression(value))
}

// One more catch, whose exception is `e`.
fn caught(
    alloc: Global,
    catches: &mut Items<TypedCatch>,
    class: u32,
    body: Subtree<TypedStatement>,
) -> Result<(), AllocError> {
    let name = Text::new(alloc, "e")?;
    catches.push(TypedCatch {
        at: 0,
        class,
        name,
        body,
    })?;
    Ok(())
}

// A statement and `return x`, in a script of one parameter `x`.
fn script(alloc: Global, first: Subtree<TypedStatement>) -> Result<Program, AllocError> {
    let mut parameters = Items::new(alloc);
    parameters.push(named(alloc, "x", int())?)?;
    let mut body = Items::new(alloc);
    body.push(first)?;
    body.push(returned(alloc, local(alloc, int(), "x")?)?)?;
    Ok(Program {
        functions: Items::new(alloc),
        main: function(alloc, FunctionKind::Main, parameters, int(), body)?,
    })
}

fn one_catch(alloc: Global) -> Result<Program, AllocError> {
    let body = plus(alloc, 1)?;
    let mut catches = Items::new(alloc);
    caught(alloc, &mut catches, EXCEPTION, plus(alloc, 2)?)?;
    script(
        alloc,
        statement(alloc, StatementNode::Try { body, catches })?,
    )
}

fn two_catches(alloc: Global) -> Result<Program, AllocError> {
    let body = plus(alloc, 1)?;
    let mut catches = Items::new(alloc);
    caught(alloc, &mut catches, ARITHMETIC_EXCEPTION, plus(alloc, 2)?)?;
    caught(alloc, &mut catches, EXCEPTION, plus(alloc, 3)?)?;
    script(
        alloc,
        statement(alloc, StatementNode::Try { body, catches })?,
    )
}

fn inner(alloc: Global) -> Result<Subtree<TypedStatement>, AllocError> {
    let body = plus(alloc, 1)?;
    let mut catches = Items::new(alloc);
    let given = returned(alloc, number(alloc, 1)?)?;
    caught(alloc, &mut catches, ARITHMETIC_EXCEPTION, given)?;
    caught(alloc, &mut catches, NULL_POINTER_EXCEPTION, plus(alloc, 2)?)?;
    statement(alloc, StatementNode::Try { body, catches })
}

fn inner_first(alloc: Global) -> Result<Program, AllocError> {
    let body = inner(alloc)?;
    let mut catches = Items::new(alloc);
    let value = local(alloc, Ty::Class(EXCEPTION), "e")?;
    let thrown = statement(alloc, StatementNode::Throw(value))?;
    caught(alloc, &mut catches, EXCEPTION, thrown)?;
    script(
        alloc,
        statement(alloc, StatementNode::Try { body, catches })?,
    )
}

#[derive(Clone, Copy)]
enum Sample {
    One,
    Two,
    Inner,
}

fn program(alloc: Global, sample: Sample) -> Result<Program, AllocError> {
    match sample {
        Sample::One => one_catch(alloc),
        Sample::Two => two_catches(alloc),
        Sample::Inner => inner_first(alloc),
    }
}

const ROWS: [(Sample, &str); 3] = [
    (Sample::One, ONE),
    (Sample::Two, TWO),
    (Sample::Inner, INNER),
];

#[test]
fn catches(rt: HostRuntime) -> Result<(), Fail> {
    let alloc = rt.alloc();
    for (sample, text) in &ROWS {
        let program = program(alloc, *sample)?;
        let same = has_listing(alloc, &program, text)?;
        assert!(rt; same);
    }
    Ok(())
}
