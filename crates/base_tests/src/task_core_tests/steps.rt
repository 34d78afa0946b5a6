//! The order in which tasks take their steps.

use super::adding::{Adding, Notes};
use task_core::run_order_with;

/// An order of entries for two tasks that add 2 and 5 to 0, whose steps come, and the sum that they leave.
type Row = (&'static [u32], [u32; 4], u64);

const ROWS: [Row; 6] = [
    (&[], [0, 1, 0, 1], 5),
    (&[0, 1, 0, 1, 0, 1], [0, 1, 0, 1], 5),
    (&[1, 1], [1, 1, 0, 0], 7),
    (&[0, 0, 0, 0, 1], [0, 0, 1, 1], 7),
    (&[1, 7, 2, 0, 0], [1, 0, 0, 1], 5),
    (&[1, 0, 1], [1, 0, 1, 0], 2),
];

/// First the entries give their tasks steps, none where the task is done or where there is none of that place; then each has
/// one in turn. What was read before another task wrote is added to all the same.
#[test]
fn steps_come_in_their_order(rt: HostRuntime) {
    for row in &ROWS {
        let mut sum = 0;
        let mut notes = Notes::new();
        let mut tasks = [Adding::new(0, 2), Adding::new(1, 5)];
        assert!(rt; run_order_with(&mut sum, &mut notes, &mut tasks, row.0).is_ok());
        assert!(rt; notes.count == 4);
        assert!(rt;
            notes.places[0] == row.1[0]
                && notes.places[1] == row.1[1]
                && notes.places[2] == row.1[2]
                && notes.places[3] == row.1[3]
        );
        assert!(rt; sum == row.2);
    }
}

/// Without tasks no entry gives a step, and no round is gone.
#[test]
fn no_task_takes_no_step(rt: HostRuntime) {
    let mut sum = 4;
    let mut notes = Notes::new();
    let mut tasks: [Adding; 0] = [];
    assert!(rt; run_order_with(&mut sum, &mut notes, &mut tasks, &[0, 3]).is_ok());
    assert!(rt; notes.count == 0 && sum == 4);
}
