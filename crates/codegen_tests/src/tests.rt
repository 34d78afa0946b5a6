//! Listings of numbers, loops and calls, and what has no code.
use crate::build::{
    binary, boolean, both, cast, changed, constant, expression, function, int, local, long, named,
    number, one_part, statement, variable,
};
use allowlist::Catalogue;
use arithmetic::Op;
use codegen::{CodeError, generate};
use pl_code::listing;
use pl_types::{Primitive, Ty};
use plain_data::{Items, Subtree};
use std::alloc::{AllocError, Global};
use std::test::Fail;
use typed_tree::{
    Constant, FunctionKind, Gives, Node, Operation, Program, StatementNode, Typed, TypedFunction,
    TypedStatement,
};

// `int x = 1; while (x < 3) { x += 2 } return x + 2`, where an int is wanted
const LOOP: &str = "painless 1
fun 0 loop I - I
i 1
store 0
goto 9
load 0
i 2
add.i
dup
store 0
pop
load 0
i 3
lt.i
loop 3
load 0
i 2
add.i
ret
end
";

// `return a && b < 1 ? (long)b : 2L` of a boolean and an int
const CHOICE: &str = "painless 1
fun 0 loop J II -
load 0
ifz 6
load 1
i 1
lt.i
goto 7
i 0
ifz 11
load 1
i2j
goto 12
j 2
ret
end
";

// `for (int i = 0; i < 9; i++) { if (i == 5) break; if (i == 2) continue; f(i) }`, where f does nothing
const JUMPS: &str = "painless 1
fun 0 loop V - I
i 0
store 0
goto 21
load 0
i 5
eq.i
ifz 8
goto 25
load 0
i 2
eq.i
ifz 13
goto 15
load 0
call 1
load 0
dup
i 1
add.i
store 0
pop
load 0
i 9
lt.i
loop 3
ret
end
fun 1 loop V I -
ret
end
";

fn main_script(
    alloc: Global,
    given: Ty,
    body: Items<Subtree<TypedStatement>>,
) -> Result<TypedFunction, AllocError> {
    function(alloc, FunctionKind::Main, Items::new(alloc), given, body)
}

fn less(alloc: Global, name: &str, bound: i32) -> Result<Subtree<Typed>, AllocError> {
    let left = local(alloc, int(), name)?;
    let right = number(alloc, bound)?;
    binary(alloc, boolean(), Op::Lt, left, right)
}

/// `return value;`
pub fn returned(
    alloc: Global,
    value: Subtree<Typed>,
) -> Result<Subtree<TypedStatement>, AllocError> {
    statement(alloc, StatementNode::Return(Some(value)))
}

fn loop_program(alloc: Global) -> Result<Program, AllocError> {
    let first = variable(alloc, "x", number(alloc, 1)?)?;
    let turn = changed(alloc, "x", Op::Add, number(alloc, 2)?, Gives::New)?;
    let turn = statement(alloc, StatementNode::Expression(turn))?;
    let node = StatementNode::Loop {
        first: None,
        condition: Some(less(alloc, "x", 3)?),
        update: None,
        body: Some(turn),
    };
    let turns = statement(alloc, node)?;
    let left = local(alloc, int(), "x")?;
    let sum = binary(alloc, int(), Op::Add, left, number(alloc, 2)?)?;
    let last = returned(alloc, sum)?;
    let mut body = Items::new(alloc);
    body.push(first)?;
    body.push(turns)?;
    body.push(last)?;
    Ok(Program {
        functions: Items::new(alloc),
        main: main_script(alloc, int(), body)?,
    })
}

fn choice_program(alloc: Global) -> Result<Program, AllocError> {
    let condition = both(alloc, local(alloc, boolean(), "a")?, less(alloc, "b", 1)?)?;
    let yes = cast(
        alloc,
        Primitive::Int,
        Primitive::Long,
        local(alloc, int(), "b")?,
    )?;
    let no = constant(alloc, long(), Constant::Long(2))?;
    let node = Node::Conditional { condition, yes, no };
    let value = expression(alloc, long(), node)?;
    let mut body = Items::new(alloc);
    body.push(returned(alloc, value)?)?;
    let mut parameters = Items::new(alloc);
    parameters.push(named(alloc, "a", boolean())?)?;
    parameters.push(named(alloc, "b", int())?)?;
    Ok(Program {
        functions: Items::new(alloc),
        main: function(alloc, FunctionKind::Main, parameters, long(), body)?,
    })
}

// `if (i == number) jump`
fn jump(
    alloc: Global,
    at: i32,
    then: Subtree<TypedStatement>,
) -> Result<Subtree<TypedStatement>, AllocError> {
    let left = local(alloc, int(), "i")?;
    let condition = binary(alloc, boolean(), Op::Eq, left, number(alloc, at)?)?;
    let node = StatementNode::If {
        condition,
        then,
        otherwise: None,
    };
    statement(alloc, node)
}

fn jumps_program(alloc: Global) -> Result<Program, AllocError> {
    let called = local(alloc, int(), "i")?;
    let call = one_part(alloc, Ty::Void, Operation::Function(1), called)?;
    let mut turn = Items::new(alloc);
    turn.push(jump(alloc, 5, statement(alloc, StatementNode::Break)?)?)?;
    turn.push(jump(alloc, 2, statement(alloc, StatementNode::Continue)?)?)?;
    turn.push(statement(alloc, StatementNode::Expression(call))?)?;
    let node = StatementNode::Loop {
        first: Some(variable(alloc, "i", number(alloc, 0)?)?),
        condition: Some(less(alloc, "i", 9)?),
        update: Some(changed(alloc, "i", Op::Add, number(alloc, 1)?, Gives::Old)?),
        body: Some(statement(alloc, StatementNode::Block(turn))?),
    };
    let mut body = Items::new(alloc);
    body.push(statement(alloc, node)?)?;
    let mut parameters = Items::new(alloc);
    parameters.push(named(alloc, "i", int())?)?;
    let callee = function(
        alloc,
        FunctionKind::Named,
        parameters,
        Ty::Void,
        Items::new(alloc),
    )?;
    let mut functions = Items::new(alloc);
    functions.push(callee)?;
    Ok(Program {
        functions,
        main: main_script(alloc, Ty::Void, body)?,
    })
}

// As deep as a script of 65,535 bytes may nest.
const LEVELS: usize = 32_000;

// `return 1 + (1 + (1 + ..))`
fn deep_expression(alloc: Global) -> Result<Program, AllocError> {
    let mut value = number(alloc, 1)?;
    for _ in 0..LEVELS {
        let left = number(alloc, 1)?;
        value = binary(alloc, int(), Op::Add, left, value)?;
    }
    let mut body = Items::new(alloc);
    body.push(returned(alloc, value)?)?;
    Ok(Program {
        functions: Items::new(alloc),
        main: main_script(alloc, int(), body)?,
    })
}

// `if (true) if (true) .. {}`
fn deep_statement(alloc: Global) -> Result<Program, AllocError> {
    let mut inner = statement(alloc, StatementNode::Block(Items::new(alloc)))?;
    for _ in 0..LEVELS {
        let condition = constant(alloc, boolean(), Constant::Boolean(true))?;
        let node = StatementNode::If {
            condition,
            then: inner,
            otherwise: None,
        };
        inner = statement(alloc, node)?;
    }
    let mut body = Items::new(alloc);
    body.push(inner)?;
    Ok(Program {
        functions: Items::new(alloc),
        main: main_script(alloc, Ty::Void, body)?,
    })
}

// How many lines the main script's code has.
fn count_of_lines(alloc: Global, program: &Program) -> Result<usize, AllocError> {
    let catalogue = Catalogue::full(alloc)?;
    match generate(alloc, &catalogue, program) {
        Ok(code) => match code.functions.get(0) {
            Some(main) => Ok(main.lines.len()),
            None => Ok(0),
        },
        Err(_) => Ok(0),
    }
}

#[test]
fn deep_expressions(rt: HostRuntime) -> Result<(), Fail> {
    let alloc = rt.alloc();
    let program = deep_expression(alloc)?;
    let lines = count_of_lines(alloc, &program)?;
    assert!(rt; lines == 64_002);
    Ok(())
}

#[test]
fn deep_statements(rt: HostRuntime) -> Result<(), Fail> {
    let alloc = rt.alloc();
    let program = deep_statement(alloc)?;
    let lines = count_of_lines(alloc, &program)?;
    assert!(rt; lines == 96_001);
    Ok(())
}

/// Whether a program's code has this listing.
pub fn has_listing(alloc: Global, program: &Program, text: &str) -> Result<bool, AllocError> {
    let catalogue = Catalogue::full(alloc)?;
    match generate(alloc, &catalogue, program) {
        Ok(code) => {
            let written = listing(alloc, &code)?;
            Ok(written.as_str() == text)
        }
        Err(_) => Ok(false),
    }
}

#[test]
fn loops(rt: HostRuntime) -> Result<(), Fail> {
    let alloc = rt.alloc();
    let program = loop_program(alloc)?;
    assert!(rt; has_listing(alloc, &program, LOOP)?);
    Ok(())
}

#[test]
fn choices(rt: HostRuntime) -> Result<(), Fail> {
    let alloc = rt.alloc();
    let program = choice_program(alloc)?;
    assert!(rt; has_listing(alloc, &program, CHOICE)?);
    Ok(())
}

#[test]
fn jumps(rt: HostRuntime) -> Result<(), Fail> {
    let alloc = rt.alloc();
    let program = jumps_program(alloc)?;
    assert!(rt; has_listing(alloc, &program, JUMPS)?);
    Ok(())
}

// A name that is not in scope.
#[test]
fn malformed(rt: HostRuntime) -> Result<(), Fail> {
    let alloc = rt.alloc();
    let value = local(alloc, int(), "x")?;
    let mut body = Items::new(alloc);
    body.push(returned(alloc, value)?)?;
    let program = Program {
        functions: Items::new(alloc),
        main: main_script(alloc, int(), body)?,
    };
    let catalogue = Catalogue::full(alloc)?;
    let refused = match generate(alloc, &catalogue, &program) {
        Ok(_) => false,
        Err(error) => error == CodeError::Malformed,
    };
    assert!(rt; refused);
    Ok(())
}
