//! Rows of calls on function values, and of calls by a name: what is called, with how many values and casts due, and what is thrown.
use crate::calls::Comes::{Acts, Enters, Makes, Raises, Works};
use crate::functions::Calls::{Gone, Lambda, Member, New, NewArray, NewInt};
use crate::functions::{Calls, counts, target};
use crate::members::owner;
use crate::sample::Listed::{All, GetAlone, Nothing, ParentAlone};
use crate::sample::Row::{Byte, Char, Int, Long, Null, Object as At, Short, Word};
use crate::sample::{Listed, Row, allow, value};
use allowlist::{Allow, Catalogue};
use function_calls::{
    Called, Dues, Resolved, Texts, Work, apply, call_named, cast_due, chains_end,
    function_calls_laws, meet,
};
use object_heap::{Answer, Heap};
use object_values::{Elements, Guard, Object, Owner, Seed, Target, Value};
use pl_types::Ty;
use pl_types::classes::{
    ARRAY_LIST, BI_FUNCTION, CHAR_SEQUENCE, CLASS_CAST_EXCEPTION, COLLECTION, COMPARATOR, CONSUMER,
    FUNCTION, ILLEGAL_ARGUMENT_EXCEPTION, ILLEGAL_STATE_EXCEPTION, INTEGER, LIST,
    NULL_POINTER_EXCEPTION, OBJ_INT_CONSUMER, PREDICATE, STRING, SUPPLIER,
};
use plain_data::Items;
use std::alloc::{AllocError, Global};
use std::test::Fail;

/// What comes of a call: what is called, with so many values and so many casts that are due, or an exception.
#[derive(Clone, Copy)]
enum Comes {
    /// A lambda of this number.
    Enters(u32, usize, u32),
    /// A member of this class.
    Acts(u32, usize, u32),
    /// A function of the prelude's.
    Works(u32, usize, u32),
    /// The making of an array.
    Makes(usize, u32),
    /// An exception of this class.
    Raises(u32),
}

const UNFIT: Comes = Raises(ILLEGAL_ARGUMENT_EXCEPTION);

const ENDED: Comes = Raises(ILLEGAL_STATE_EXCEPTION);

const WRONG: Comes = Raises(CLASS_CAST_EXCEPTION);

const NULLED: Comes = Raises(NULL_POINTER_EXCEPTION);

/// What a function value calls, its interface, how many arguments come, and these.
type Applied = (Listed, Calls, u32, u32, Row, Row, Comes);

const APPLIED: [Applied; 39] = [
    (
        All,
        Lambda(0, 1),
        FUNCTION,
        1,
        Int(5),
        Null,
        Enters(0, 1, 1),
    ),
    (
        Nothing,
        Lambda(0, 1),
        FUNCTION,
        1,
        Int(5),
        Null,
        Enters(0, 1, 1),
    ),
    (
        All,
        Lambda(2, 3),
        FUNCTION,
        1,
        Int(5),
        Null,
        Enters(0, 3, 1),
    ),
    (All, Lambda(0, 0), SUPPLIER, 0, Null, Null, Enters(0, 0, 1)),
    (
        All,
        Lambda(1, 3),
        BI_FUNCTION,
        2,
        Null,
        Null,
        Enters(0, 3, 1),
    ),
    // a lambda that takes another number
    (All, Lambda(0, 2), FUNCTION, 1, Int(5), Null, UNFIT),
    (All, Lambda(1, 1), FUNCTION, 1, Int(5), Null, UNFIT),
    (All, Lambda(2, 1), SUPPLIER, 0, Null, Null, UNFIT),
    (All, Gone, FUNCTION, 1, Int(5), Null, ENDED),
    (All, Gone, SUPPLIER, 0, Null, Null, ENDED),
    // static members
    (
        All,
        Member(INTEGER, "parseInt"),
        FUNCTION,
        1,
        Word("1"),
        Null,
        Acts(INTEGER, 1, 1),
    ),
    (
        All,
        Member(INTEGER, "parseInt"),
        FUNCTION,
        1,
        Int(1),
        Null,
        WRONG,
    ),
    (
        All,
        Member(INTEGER, "parseInt"),
        FUNCTION,
        1,
        Null,
        Null,
        Acts(INTEGER, 1, 1),
    ),
    (
        All,
        Member(INTEGER, "parseInt"),
        SUPPLIER,
        0,
        Null,
        Null,
        UNFIT,
    ),
    (
        All,
        Member(INTEGER, "compare"),
        COMPARATOR,
        2,
        Byte(1),
        Char(65),
        Acts(INTEGER, 2, 1),
    ),
    (
        All,
        Member(INTEGER, "compare"),
        COMPARATOR,
        2,
        Int(1),
        Long(1),
        WRONG,
    ),
    (
        All,
        Member(INTEGER, "compare"),
        COMPARATOR,
        2,
        Null,
        Long(1),
        NULLED,
    ),
    // instance members, whose receivers come first
    (
        All,
        Member(STRING, "length"),
        FUNCTION,
        1,
        Word("a"),
        Null,
        Acts(CHAR_SEQUENCE, 1, 1),
    ),
    (
        All,
        Member(STRING, "length"),
        FUNCTION,
        1,
        Int(1),
        Null,
        WRONG,
    ),
    (
        All,
        Member(STRING, "length"),
        FUNCTION,
        1,
        Null,
        Null,
        NULLED,
    ),
    (
        All,
        Member(STRING, "length"),
        SUPPLIER,
        0,
        Null,
        Null,
        UNFIT,
    ),
    (
        GetAlone,
        Member(STRING, "length"),
        FUNCTION,
        1,
        Word("a"),
        Null,
        UNFIT,
    ),
    (
        GetAlone,
        Member(LIST, "get"),
        BI_FUNCTION,
        2,
        At(0),
        Int(0),
        Acts(LIST, 2, 1),
    ),
    (
        All,
        Member(LIST, "get"),
        BI_FUNCTION,
        2,
        At(0),
        Word("a"),
        WRONG,
    ),
    // all casts come before the test of the receiver
    (
        All,
        Member(LIST, "get"),
        BI_FUNCTION,
        2,
        Null,
        Word("a"),
        WRONG,
    ),
    (
        All,
        Member(STRING, "nope"),
        FUNCTION,
        1,
        Word("a"),
        Null,
        UNFIT,
    ),
    // constructors and arrays
    (
        All,
        New(ARRAY_LIST),
        SUPPLIER,
        0,
        Null,
        Null,
        Acts(ARRAY_LIST, 0, 1),
    ),
    (
        All,
        New(ARRAY_LIST),
        FUNCTION,
        1,
        At(0),
        Null,
        Acts(ARRAY_LIST, 1, 1),
    ),
    (Nothing, New(ARRAY_LIST), SUPPLIER, 0, Null, Null, UNFIT),
    (All, New(LIST), SUPPLIER, 0, Null, Null, UNFIT),
    (Nothing, NewArray, FUNCTION, 1, Int(3), Null, Makes(1, 1)),
    (All, NewArray, FUNCTION, 1, Word("3"), Null, WRONG),
    (All, NewArray, SUPPLIER, 0, Null, Null, UNFIT),
    (All, NewInt, FUNCTION, 1, Int(3), Null, UNFIT),
    // an interface's method calls its first argument
    (
        All,
        Member(FUNCTION, "apply"),
        BI_FUNCTION,
        2,
        At(2),
        Int(5),
        Enters(1, 1, 2),
    ),
    (
        All,
        Member(FUNCTION, "apply"),
        BI_FUNCTION,
        2,
        At(4),
        At(3),
        Enters(2, 0, 3),
    ),
    (
        All,
        Member(FUNCTION, "apply"),
        BI_FUNCTION,
        2,
        Null,
        Int(5),
        NULLED,
    ),
    (
        All,
        Member(FUNCTION, "apply"),
        BI_FUNCTION,
        2,
        At(5),
        Int(5),
        WRONG,
    ),
    // what has taken no interface does not fit where none is wanted
    (
        All,
        Member(INTEGER, "parseInt"),
        FUNCTION,
        1,
        At(6),
        Null,
        UNFIT,
    ),
];

/// A name, the value that it is called on, how many arguments come, and these.
type Named = (Listed, &'static str, Row, u32, Row, Row, Comes);

const NAMED: [Named; 17] = [
    (All, "get", At(0), 1, Int(0), Null, Acts(LIST, 2, 0)),
    (GetAlone, "get", At(0), 1, Byte(0), Null, Acts(LIST, 2, 0)),
    (ParentAlone, "get", At(0), 1, Int(0), Null, UNFIT),
    (All, "get", At(0), 1, Word("a"), Null, WRONG),
    (All, "get", Null, 1, Int(0), Null, NULLED),
    (All, "nope", At(0), 1, Int(0), Null, UNFIT),
    // a function value answers the method of its interface, whatever the list of its caller has
    (Nothing, "apply", At(2), 1, Int(5), Null, Enters(1, 1, 1)),
    (All, "apply", At(2), 2, Int(5), Null, UNFIT),
    (All, "compare", At(5), 2, Int(5), Null, Enters(3, 2, 1)),
    (All, "apply", At(6), 1, Int(5), Null, UNFIT),
    // a reference is looked for in the script's list, and not in its caller's
    (
        Nothing,
        "apply",
        At(1),
        1,
        Word("1"),
        Null,
        Acts(INTEGER, 1, 1),
    ),
    // a parameter of def is of no interface
    (All, "apply", At(2), 1, At(6), Null, UNFIT),
    (All, "apply", At(2), 1, At(2), Null, Enters(1, 1, 1)),
    // what a method takes is cast to its types
    (All, "accept", At(7), 2, Null, Word("a"), WRONG),
    (All, "accept", At(7), 2, Null, Short(1), Enters(3, 2, 1)),
    // members whose work is a function of the prelude's
    (All, "removeIf", At(0), 1, At(6), Null, Works(0, 2, 0)),
    (All, "forEach", At(0), 1, At(6), Null, UNFIT),
];

// ---- what rows stand over

// Captured values: 10, 11 and so on.
fn captured(alloc: Global, count: u32) -> Result<Elements<Value>, AllocError> {
    let mut captures = Elements::new(alloc);
    let mut number = 10i32;
    for _ in 0..count {
        captures.push(Value::Int(number))?;
        number = number.wrapping_add(1);
    }
    Ok(captures)
}

fn place_function(
    alloc: Global,
    heap: &mut Heap,
    iface: Option<u32>,
    calls: Calls,
) -> Result<(), AllocError> {
    let (count, _) = counts(calls);
    heap.place(Object::Fun {
        iface,
        target: target(alloc, calls)?,
        captures: captured(alloc, count)?,
    })?;
    Ok(())
}

fn place_lambda(
    alloc: Global,
    heap: &mut Heap,
    iface: Option<u32>,
    number: u32,
) -> Result<(), AllocError> {
    heap.place(Object::Fun {
        iface,
        target: Target::Lambda(Owner::Script, number),
        captures: Elements::new(alloc),
    })?;
    Ok(())
}

/// Objects: 0 a list of one, 1 this function value, 2 a Function of the lambda 1, 3 a Supplier of the lambda 2, 4 a Function that is
/// `Supplier::get`, 5 a Comparator and 7 an ObjIntConsumer of the lambda 3, 6 the lambda 1 without an interface.
fn heap(alloc: Global, iface: Option<u32>, calls: Calls) -> Result<Heap, AllocError> {
    let mut heap = Heap::new(alloc, 100, Seed::of(b"test"));
    let mut items = Elements::new(alloc);
    items.push(Value::Int(7))?;
    heap.place(Object::List {
        class: ARRAY_LIST,
        items,
        guard: Guard::Open,
        changes: 0,
    })?;
    place_function(alloc, &mut heap, iface, calls)?;
    place_lambda(alloc, &mut heap, Some(FUNCTION), 1)?;
    place_lambda(alloc, &mut heap, Some(SUPPLIER), 2)?;
    place_function(
        alloc,
        &mut heap,
        Some(FUNCTION),
        Calls::Member(SUPPLIER, "get"),
    )?;
    place_lambda(alloc, &mut heap, Some(COMPARATOR), 3)?;
    place_lambda(alloc, &mut heap, None, 1)?;
    place_lambda(alloc, &mut heap, Some(OBJ_INT_CONSUMER), 3)?;
    Ok(heap)
}

/// The lambda 0 has so many parameters, 1 has one, 2 none and 3 two. The prelude's function 0 does `removeIf` of a collection.
fn texts(alloc: Global, calls: Calls) -> Result<Texts, AllocError> {
    let (_, parameters) = counts(calls);
    let all = Catalogue::full(alloc)?;
    let mut works = Items::new(alloc);
    if let Some(member) = all.member(COLLECTION, "removeIf", 1) {
        works.push(Work {
            member,
            function: 0,
        })?;
    }
    Ok(Texts {
        script: Items::from_slice(alloc, &[parameters, 1, 0, 2])?,
        prelude: Items::from_slice(alloc, &[2])?,
        works,
    })
}

fn arguments(
    alloc: Global,
    receiver: Row,
    count: u32,
    first: Row,
    second: Row,
) -> Result<Elements<Value>, AllocError> {
    let mut values = Elements::new(alloc);
    values.push(value(alloc, receiver)?)?;
    if count > 0 {
        values.push(value(alloc, first)?)?;
    }
    if count > 1 {
        values.push(value(alloc, second)?)?;
    }
    Ok(values)
}

// ---- what comes

fn due_count(dues: Dues) -> u32 {
    match dues {
        Dues::Nothing => 0,
        Dues::One(_) => 1,
        Dues::Two(_, _) => 2,
        Dues::Three(_, _, _) => 3,
    }
}

fn is_called(allow: &Allow, called: &Called, count: usize, dues: Dues, wanted: Comes) -> bool {
    let due = due_count(dues);
    match (called, wanted) {
        (Called::Lambda(Owner::Script, number), Enters(lambda, values, casts)) => {
            *number == lambda && count == values && due == casts
        }
        (Called::Member(number), Acts(class, values, casts)) => {
            owner(allow, *number) == Some(class) && count == values && due == casts
        }
        (Called::Work(_, number), Works(function, values, casts)) => {
            *number == function && count == values && due == casts
        }
        (Called::Array(_), Makes(values, casts)) => count == values && due == casts,
        _ => false,
    }
}

fn is_raised(heap: &Heap, answer: &Answer, wanted: Comes) -> bool {
    match (answer, wanted) {
        (Answer::Thrown(id), Raises(class)) => heap.class(*id) == Some(class),
        _ => false,
    }
}

fn comes_so(allow: &Allow, heap: &Heap, resolved: Resolved, count: usize, wanted: Comes) -> bool {
    match resolved {
        Resolved::Calls(called, _, dues) => is_called(allow, &called, count, dues, wanted),
        Resolved::Acts(answer) => is_raised(heap, &answer, wanted),
    }
}

fn is_applied(alloc: Global, row: &Applied) -> Result<bool, AllocError> {
    let (listed, calls, iface, count, first, second, wanted) = *row;
    let allow = allow(alloc, listed)?;
    let texts = texts(alloc, calls)?;
    let mut heap = heap(alloc, Some(iface), calls)?;
    let mut values = arguments(alloc, Row::Object(1), count, first, second)?;
    let resolved = apply(&texts, &allow, &mut heap, 0, &[], &mut values);
    Ok(comes_so(&allow, &heap, resolved, values.len(), wanted))
}

#[test]
fn function_values_call(rt: HostRuntime) -> Result<(), Fail> {
    function_calls_laws();
    chains_end();
    let mut at = 0u32;
    for row in &APPLIED {
        let holds = is_applied(rt.alloc(), row)?;
        assert!(rt; holds, "{at}");
        at = at.wrapping_add(1);
    }
    Ok(())
}

fn is_named(alloc: Global, row: &Named) -> Result<bool, AllocError> {
    let (listed, name, receiver, count, first, second, wanted) = *row;
    let all = allow(alloc, Listed::All)?;
    let own = allow(alloc, listed)?;
    let calls = Calls::Member(INTEGER, "parseInt");
    let texts = texts(alloc, calls)?;
    let mut heap = heap(alloc, Some(FUNCTION), calls)?;
    let mut values = arguments(alloc, receiver, count, first, second)?;
    let text = Owner::Prelude;
    let resolved = call_named(&texts, &all, &own, text, &mut heap, name, &mut values);
    Ok(comes_so(&all, &heap, resolved, values.len(), wanted))
}

#[test]
fn names_call(rt: HostRuntime) -> Result<(), Fail> {
    let mut at = 0u32;
    for row in &NAMED {
        let holds = is_named(rt.alloc(), row)?;
        assert!(rt; holds, "{at}");
        at = at.wrapping_add(1);
    }
    Ok(())
}

// ---- what is captured, taken and cast

fn is_int(value: Option<&Value>, wanted: i32) -> bool {
    match value {
        Some(Value::Int(number)) => *number == wanted,
        _ => false,
    }
}

// What a lambda captured comes first, in its order, and then the argument.
fn has_captures_first(alloc: Global) -> Result<bool, AllocError> {
    let calls = Calls::Lambda(2, 3);
    let allow = allow(alloc, Listed::All)?;
    let texts = texts(alloc, calls)?;
    let mut heap = heap(alloc, Some(FUNCTION), calls)?;
    let mut values = arguments(alloc, Row::Object(1), 1, Row::Int(5), Row::Null)?;
    let _resolved = apply(&texts, &allow, &mut heap, 0, &[], &mut values);
    let values = values.as_slice();
    Ok(is_int(values.get(0), 10) && is_int(values.get(1), 11) && is_int(values.get(2), 5))
}

#[test]
fn captures_come_first(rt: HostRuntime) -> Result<(), Fail> {
    let holds = has_captures_first(rt.alloc())?;
    assert!(rt; holds);
    Ok(())
}

// The interface that the value 6 has after a call of this name, where this comes of it.
fn takes(
    alloc: Global,
    name: &str,
    receiver: Row,
    wanted: Comes,
) -> Result<Option<u32>, AllocError> {
    let all = allow(alloc, Listed::All)?;
    let calls = Calls::Gone;
    let texts = texts(alloc, calls)?;
    let mut heap = heap(alloc, Some(FUNCTION), calls)?;
    let mut values = arguments(alloc, receiver, 1, Row::Object(6), Row::Null)?;
    let text = Owner::Script;
    let resolved = call_named(&texts, &all, &all, text, &mut heap, name, &mut values);
    if comes_so(&all, &heap, resolved, values.len(), wanted) {
        Ok(heap.iface(6))
    } else {
        Ok(Some(CONSUMER))
    }
}

#[test]
fn interfaces_are_taken_in_place(rt: HostRuntime) -> Result<(), Fail> {
    let alloc = rt.alloc();
    let taken = takes(alloc, "removeIf", Row::Object(0), Works(0, 2, 0))?;
    assert!(rt; taken == Some(PREDICATE));
    // and none is where the parameter is of none
    let none = takes(alloc, "apply", Row::Object(2), UNFIT)?;
    assert!(rt; none.is_none());
    Ok(())
}

// Two calls of which the second wants another interface: the first one stays, and the value is of no other.
fn takes_once(alloc: Global) -> Result<bool, AllocError> {
    let all = allow(alloc, Listed::All)?;
    let texts = texts(alloc, Calls::Gone)?;
    let mut heap = heap(alloc, Some(FUNCTION), Calls::Gone)?;
    let first = meet(
        &texts,
        &all,
        &mut heap,
        &Ty::Class(PREDICATE),
        &Value::Ref(6),
    );
    let second = meet(
        &texts,
        &all,
        &mut heap,
        &Ty::Class(FUNCTION),
        &Value::Ref(6),
    );
    let went = matches!(&first, Answer::Value(Value::Ref(6)));
    let raised = is_raised(&heap, &second, WRONG);
    Ok(went && raised && heap.iface(6) == Some(PREDICATE))
}

#[test]
fn an_interface_is_taken_once(rt: HostRuntime) -> Result<(), Fail> {
    let holds = takes_once(rt.alloc())?;
    assert!(rt; holds);
    Ok(())
}

// What a function value gave, cast to the result of the method of this class, if it is an int then.
fn is_due(alloc: Global, class: u32, given: Row) -> Result<Option<i32>, AllocError> {
    let all = allow(alloc, Listed::All)?;
    let mut heap = heap(alloc, Some(FUNCTION), Calls::Gone)?;
    let given = value(alloc, given)?;
    let Some(method) = all.iface_method(class) else {
        return Ok(None);
    };
    let due = cast_due(&all, &mut heap, method, &given);
    match &due {
        Answer::Value(Value::Int(number)) => Ok(Some(*number)),
        _ => Ok(None),
    }
}

#[test]
fn results_are_cast(rt: HostRuntime) -> Result<(), Fail> {
    let alloc = rt.alloc();
    let widened = is_due(alloc, COMPARATOR, Row::Byte(3))?;
    assert!(rt; widened == Some(3));
    let refused = is_due(alloc, COMPARATOR, Row::Word("3"))?;
    assert!(rt; refused.is_none());
    let kept = is_due(alloc, FUNCTION, Row::Int(3))?;
    assert!(rt; kept == Some(3));
    // a void method drops it
    let dropped = is_due(alloc, CONSUMER, Row::Int(3))?;
    assert!(rt; dropped.is_none());
    Ok(())
}
