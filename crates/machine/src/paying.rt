//! Calls of members that are paid, and the members that are reached.
ghost use Rattle.std.specs.Prelude.{◌≡◌, ◌<◌, IfOk, IsOk};
ghost use Rattle.run_state.specs.World.{pay_member, pay_tick, reaches};
ghost use Rattle.machine.specs.Seen.{world_of};
ghost use Rattle.machine.specs.Rows.{CountsTo};

use machine_parts::World;
use object_heap::Which;
use object_values::Owner;
use std::alloc::AllocError;

/// Pays the tick of a call of a member. Where the call stands in the script's text the member is reached then.
#[tactic(auto, unfolding(run_state::specs::World::pay_member))]
pub fn pay_member(world: &mut World, text: Owner, number: u32) -> Result<Option<Which>, AllocError>
    requires { number < world.old.reached.room }
    ensures exact { IfOk result (λ limit. CountsTo (pay_member text number (world_of world.old)) (world_of world.new) limit) }
    ensures memory { IsOk result }
    ensures heap { world.new.heap ≡ world.old.heap }
    ensures room { world.new.reached.room ≡ world.old.reached.room }
{
    match text {
        Owner::Script => pay_and_reach(world, number),
        Owner::Prelude => Ok(pay_tick(world)),
    }
}

#[tactic(auto, unfolding(run_state::specs::World::reaches, run_state::specs::World::reach))]
fn pay_and_reach(world: &mut World, number: u32) -> Result<Option<Which>, AllocError>
    requires { number < world.old.reached.room }
    ensures exact { IfOk result (λ limit. CountsTo (reaches number (pay_tick (world_of world.old))) (world_of world.new) limit) }
    ensures memory { IsOk result }
    ensures heap { world.new.heap ≡ world.old.heap }
    ensures room { world.new.reached.room ≡ world.old.reached.room }
{
    match pay_tick(world) {
        Some(which) => Ok(Some(which)),
        None => {
            if !world.reached.has(number) {
                world.reached.push(number)?;
            }
            Ok(None)
        }
    }
}

#[tactic(auto, unfolding(run_state::specs::World::pay_tick))]
fn pay_tick(world: &mut World) -> Option<Which>
    ensures exact { CountsTo (pay_tick (world_of world.old)) (world_of world.new) result }
    ensures heap { world.new.heap ≡ world.old.heap }
    ensures reached { world.new.reached ≡ world.old.reached }
{
    if world.ticks == 0 {
        return Some(Which::Ticks);
    }
    world.ticks -= 1;
    None
}
