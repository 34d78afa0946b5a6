//! Rows of exceptions.
use super::rows::Arg::{Null, Object, Word};
use super::rows::{Row, Wanted};
use super::running::first_wrong;
use pl_types::classes::{
    ARITHMETIC_EXCEPTION, ARRAY_INDEX_OUT_OF_BOUNDS_EXCEPTION, CLASS_CAST_EXCEPTION,
    CONCURRENT_MODIFICATION_EXCEPTION, EXCEPTION, ILLEGAL_ARGUMENT_EXCEPTION,
    ILLEGAL_STATE_EXCEPTION, INDEX_OUT_OF_BOUNDS_EXCEPTION, NEGATIVE_ARRAY_SIZE_EXCEPTION,
    NO_SUCH_ELEMENT_EXCEPTION, NULL_POINTER_EXCEPTION, NUMBER_FORMAT_EXCEPTION, RUNTIME_EXCEPTION,
    STRING_INDEX_OUT_OF_BOUNDS_EXCEPTION, UNSUPPORTED_OPERATION_EXCEPTION,
};
use std::test::Fail;

const EXCEPTIONS: [Row; 24] = [
    (194, &[], Wanted::NewException(EXCEPTION, None), 1),
    (
        195,
        &[Word("m")],
        Wanted::NewException(EXCEPTION, Some("m")),
        2,
    ),
    (
        195,
        &[Word("")],
        Wanted::NewException(EXCEPTION, Some("")),
        1,
    ),
    (195, &[Null], Wanted::NewException(EXCEPTION, None), 1),
    (196, &[Object(8)], Wanted::Null, 0),
    (196, &[Object(9)], Wanted::Word("oh"), 3),
    (197, &[], Wanted::NewException(RUNTIME_EXCEPTION, None), 1),
    (
        198,
        &[Word("m")],
        Wanted::NewException(RUNTIME_EXCEPTION, Some("m")),
        2,
    ),
    (
        199,
        &[],
        Wanted::NewException(ARITHMETIC_EXCEPTION, None),
        1,
    ),
    (
        202,
        &[Word("m")],
        Wanted::NewException(CLASS_CAST_EXCEPTION, Some("m")),
        2,
    ),
    (
        203,
        &[],
        Wanted::NewException(CONCURRENT_MODIFICATION_EXCEPTION, None),
        1,
    ),
    (
        205,
        &[],
        Wanted::NewException(ILLEGAL_ARGUMENT_EXCEPTION, None),
        1,
    ),
    (
        207,
        &[],
        Wanted::NewException(ILLEGAL_STATE_EXCEPTION, None),
        1,
    ),
    (
        209,
        &[],
        Wanted::NewException(INDEX_OUT_OF_BOUNDS_EXCEPTION, None),
        1,
    ),
    (
        211,
        &[],
        Wanted::NewException(NEGATIVE_ARRAY_SIZE_EXCEPTION, None),
        1,
    ),
    (
        213,
        &[],
        Wanted::NewException(NO_SUCH_ELEMENT_EXCEPTION, None),
        1,
    ),
    (
        215,
        &[],
        Wanted::NewException(NULL_POINTER_EXCEPTION, None),
        1,
    ),
    (
        217,
        &[],
        Wanted::NewException(UNSUPPORTED_OPERATION_EXCEPTION, None),
        1,
    ),
    (
        219,
        &[],
        Wanted::NewException(NUMBER_FORMAT_EXCEPTION, None),
        1,
    ),
    (
        221,
        &[],
        Wanted::NewException(ARRAY_INDEX_OUT_OF_BOUNDS_EXCEPTION, None),
        1,
    ),
    (
        224,
        &[Word("m")],
        Wanted::NewException(STRING_INDEX_OUT_OF_BOUNDS_EXCEPTION, Some("m")),
        2,
    ),
    (2, &[Word("a")], Wanted::Null, 0),
    (86, &[Word("a")], Wanted::Null, 0),
    (225, &[Word("a")], Wanted::Null, 0),
];

#[test]
fn exceptions_and_numbers_of_other_members(rt: HostRuntime) -> Result<(), Fail> {
    let wrong = first_wrong(rt.alloc(), &EXCEPTIONS)?;
    assert!(rt; wrong == 0, "row {wrong}");
    Ok(())
}
