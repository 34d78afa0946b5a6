//! The order in which tasks have their turns.

use super::noting::Noting;
use std::cell::Cell;
use task_core::run_order;

/// The order gives the second task, the first and the second again a turn of two; the rounds behind it give each what is left.
#[test]
fn turns_come_in_their_order(rt: HostRuntime) {
    let clock = Cell::new(0);
    let mut tasks = [Noting::new(0, 3, &clock), Noting::new(1, 5, &clock)];
    assert!(rt; run_order(&mut tasks, &[1, 0, 1], 2).is_ok());
    assert!(rt; tasks[0].turns == 2 && tasks[0].notes[0] == (1, 2) && tasks[0].notes[1] == (3, 1));
    assert!(rt;
        tasks[1].turns == 3
            && tasks[1].notes[0] == (0, 2)
            && tasks[1].notes[1] == (2, 2)
            && tasks[1].notes[2] == (4, 1)
    );
}

/// An entry gives a task that is done no turn, and the rounds give it none.
#[test]
fn who_is_done_has_no_turn(rt: HostRuntime) {
    let clock = Cell::new(0);
    let mut tasks = [Noting::new(0, 1, &clock), Noting::new(1, 4, &clock)];
    assert!(rt; run_order(&mut tasks, &[0, 0, 0], 3).is_ok());
    assert!(rt; tasks[0].turns == 1 && tasks[0].notes[0] == (0, 1));
    assert!(rt; tasks[1].turns == 2 && tasks[1].notes[0] == (1, 3) && tasks[1].notes[1] == (2, 1));
}

/// Without tasks there is nothing to do.
#[test]
fn no_task_takes_no_turn(rt: HostRuntime) {
    let mut tasks: [Noting<'static>; 0] = [];
    assert!(rt; run_order(&mut tasks, &[], 1).is_ok());
}
