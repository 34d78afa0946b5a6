//! Each call once, on numbers.

use crate::stack::Stack;

/// The numbers of a `Vec` as the digits of one, the first on the left.
fn digits(numbers: &Vec<u32>) -> u32 {
    let mut all = 0u32;
    for number in numbers {
        all = all.wrapping_mul(10).wrapping_add(*number);
    }
    all
}

/// What is taken off, as digits; 0 where there is not so much.
fn taken(items: Option<Vec<u32>>) -> u32 {
    match items {
        Some(items) => digits(&items),
        None => 0,
    }
}

#[test]
fn what_is_put_on_comes_off(rt: HostRuntime) -> Result<(), std::alloc::AllocError> {
    let mut stack = Stack::new(rt.alloc());
    stack.push_four(1u32, 2, 3, 4)?;
    stack.push_three(5, 6, 7)?;
    stack.push_two(8, 9)?;
    assert!(rt; stack.pop() == Some(8));
    assert!(rt; stack.pop_two() == Some((5, 9)));
    stack.lower(5);
    assert!(rt; stack.len() == 5);
    let two = taken(stack.take_above(rt.alloc(), 3)?);
    assert!(rt; two == 17);
    let one = taken(stack.take(rt.alloc(), 1)?);
    assert!(rt; one == 2);
    let rest = stack.into_items();
    assert!(rt; rest.as_slice() == [3u32, 4].as_slice());
    Ok(())
}
