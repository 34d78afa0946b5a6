//! Clients in every order of their first steps, beside a replay by numbers alone.

use super::acting::{Act, Acting};
use super::replay::Replay;
use super::shown::{clients_of, replies_shown, store_shown, two_documents};
use std::alloc::{AllocError, Global};
use std::test::Fail;
use update_store::run_updates;

/// The order of a number: so many entries, each of them its next digit to a base.
fn order_of(alloc: Global, number: u32, base: u32, entries: usize) -> Result<Vec<u32>, AllocError> {
    let mut order = Vec::with_capacity(alloc, entries)?;
    let mut rest = number;
    for _entry in 0..entries {
        order.push(rest.checked_rem(base).unwrap_or(0))?;
        rest = rest.checked_div(base).unwrap_or(0);
    }
    Ok(order)
}

/// Whether clients come to what the replay says, in an order. Each is given by whether its document is the second one, and how
/// often it may begin again.
fn comes_so(
    alloc: Global,
    acts: &[Act],
    clients: &[(bool, u32)],
    order: &[u32],
) -> Result<bool, AllocError> {
    let mut replay = Replay::new(alloc, clients)?;
    replay.play(acts, order, 9)?;
    let mut rows = Vec::new(alloc);
    for client in clients {
        let id = if client.0 { "b" } else { "a" };
        rows.push((id, client.1))?;
    }
    let mut store = two_documents(alloc)?;
    let mut runner = Acting {
        alloc,
        acts,
        spent: 0,
    };
    let clients = clients_of(alloc, rows.as_slice())?;
    if clients.len() >= 4_294_967_296 {
        return Ok(false);
    }
    let replies = run_updates(&mut store, &mut runner, clients, order)?;
    let told = replies_shown(alloc, replies.as_slice())?;
    let left = store_shown(alloc, &store)?;
    let wanted_told = replay.replies_shown()?;
    let wanted_left = replay.store_shown()?;
    Ok(told.as_str() == wanted_told.as_str() && left.as_str() == wanted_left.as_str())
}

/// Whether they do in each order of so many entries.
fn all_come_so(
    alloc: Global,
    acts: &[Act],
    clients: &[(bool, u32)],
    base: u32,
    entries: usize,
    orders: u32,
) -> Result<bool, AllocError> {
    for number in 0..orders {
        let order = order_of(alloc, number, base, entries)?;
        if !comes_so(alloc, acts, clients, order.as_slice())? {
            return Ok(false);
        }
    }
    Ok(true)
}

/// What the scripts of two clients do.
const PAIRS: [[Act; 2]; 6] = [
    [Act::Add(2), Act::Add(5)],
    [Act::Delete, Act::Add(5)],
    [Act::Add(2), Act::Delete],
    [Act::Delete, Act::Delete],
    [Act::Keep, Act::Add(5)],
    [Act::Fail, Act::Add(5)],
];

/// Two clients, each six steps at most: all interleavings are among the orders of eleven entries, since the last step is taken
/// behind them.
#[test]
fn two_clients_in_every_order(rt: HostRuntime) -> Result<(), Fail> {
    for acts in &PAIRS {
        for retries in 0..3 {
            let holds = pair_comes_so(rt.alloc(), acts, retries)?;
            assert!(rt; holds, "{retries}");
        }
    }
    Ok(())
}

/// Over one document, and over two.
fn pair_comes_so(alloc: Global, acts: &[Act], retries: u32) -> Result<bool, AllocError> {
    let one = [(false, retries), (false, 0)];
    let two = [(false, retries), (true, retries)];
    let both = [(true, retries), (true, retries)];
    Ok(
        all_come_so(alloc, acts, &one, 2, 11, 2048)?
            && all_come_so(alloc, acts, &two, 2, 6, 64)?
            && all_come_so(alloc, acts, &both, 2, 11, 2048)?,
    )
}

/// What the scripts of three clients do.
const TRIPLES: [[Act; 3]; 3] = [
    [Act::Add(2), Act::Add(5), Act::Add(7)],
    [Act::Add(2), Act::Delete, Act::Add(7)],
    [Act::Keep, Act::Add(5), Act::Delete],
];

/// Three clients in the orders of their first seven steps.
#[test]
fn three_clients_in_many_orders(rt: HostRuntime) -> Result<(), Fail> {
    for acts in &TRIPLES {
        for retries in 0..3 {
            let holds = triple_comes_so(rt.alloc(), acts, retries)?;
            assert!(rt; holds, "{retries}");
        }
    }
    Ok(())
}

fn triple_comes_so(alloc: Global, acts: &[Act], retries: u32) -> Result<bool, AllocError> {
    let one = [(false, retries), (false, retries), (false, 1)];
    let two = [(false, retries), (true, retries), (false, 0)];
    Ok(all_come_so(alloc, acts, &one, 3, 7, 2187)? && all_come_so(alloc, acts, &two, 3, 7, 2187)?)
}
