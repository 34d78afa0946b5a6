//! Which turns shards have.

ghost use Rattle.std.specs.Prelude.{◌≡◌, IfOk, length};

use super::noting::Noting;
use metric_ctx::Shards;
use std::alloc::{AllocError, Global};
use std::cell::Cell;
use std::test::Fail;

/// Two tasks.
fn two(alloc: Global, clock: &Cell<u64>) -> Result<Vec<Noting<'_>>, AllocError>
    ensures { IfOk result (λ tasks. length tasks.items ≡ 2) }
{
    let mut tasks = Vec::with_capacity(alloc, 2)?;
    tasks.push(Noting::new(3, clock))?;
    tasks.push(Noting::new(5, clock))?;
    Ok(tasks)
}

/// The order gives the second shard, the first and the second again a turn of two; the rounds behind it give each what is left.
#[test]
fn turns_come_in_their_order(rt: HostRuntime) -> Result<(), Fail> {
    let clock = Cell::new(0);
    let tasks = two(rt.alloc(), &clock)?;
    let mut shards = Shards::new(tasks);
    shards.run(&[1, 0, 1], 2)?;
    let tasks = shards.into_tasks();
    assert!(rt; tasks.len() == 2);
    let one = &tasks[0];
    let other = &tasks[1];
    assert!(rt; one.turns == 2 && one.had(0, 1, 2) && one.had(1, 3, 1));
    assert!(rt; other.turns == 3 && other.had(0, 0, 2) && other.had(1, 2, 2) && other.had(2, 4, 1));
    Ok(())
}
