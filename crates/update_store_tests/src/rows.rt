//! Clients by an order, what they are told, and the store behind them.

use super::acting::{Act, Acting};
use super::shown::{clients_of, replies_shown, store_shown, two_documents};
use std::alloc::{AllocError, Global};
use std::test::Fail;
use update_store::run_updates;

/// What the scripts of clients do, the clients with their documents and retries, the order, the replies, the store behind them,
/// and what the calls of the scripts have cost.
struct Row {
    acts: &'static [Act],
    clients: &'static [(&'static str, u32)],
    order: &'static [u32],
    replies: &'static str,
    store: &'static str,
    spent: u64,
}

/// The scripts of two clients that both add.
const ADDS: &[Act] = &[Act::Add(2), Act::Add(5)];

/// By turns.
const BY_TURNS: &[u32] = &[0, 1, 0, 1, 0, 1];

const ROWS: [Row; 16] = [
    // The second client finds what the first has committed, and begins again.
    Row {
        acts: ADDS,
        clients: &[("a", 0), ("a", 1)],
        order: BY_TURNS,
        replies: "{\"_id\":\"a\",\"_version\":2,\"op\":\"index\"}\n{\"_id\":\"a\",\"_version\":3,\"op\":\"index\"}\n",
        store: "a 3 {\"n\":8}\nb 1 {\"n\":10}\n0 over 1\n1 over 2\n",
        spent: 5,
    },
    // With no retry its update is not lost in silence.
    Row {
        acts: ADDS,
        clients: &[("a", 0), ("a", 0)],
        order: BY_TURNS,
        replies: "{\"_id\":\"a\",\"_version\":2,\"op\":\"index\"}\n{\"error\":{\"found\":2,\"kind\":\"conflict\",\"read\":1}}\n",
        store: "a 2 {\"n\":3}\nb 1 {\"n\":10}\n0 over 1\n",
        spent: 2,
    },
    // With no order the clients take their steps from client 0 on.
    Row {
        acts: ADDS,
        clients: &[("a", 0), ("a", 1)],
        order: &[],
        replies: "{\"_id\":\"a\",\"_version\":2,\"op\":\"index\"}\n{\"_id\":\"a\",\"_version\":3,\"op\":\"index\"}\n",
        store: "a 3 {\"n\":8}\nb 1 {\"n\":10}\n0 over 1\n1 over 2\n",
        spent: 5,
    },
    // One behind the other, none has to begin again.
    Row {
        acts: ADDS,
        clients: &[("a", 0), ("a", 0)],
        order: &[1, 1, 1, 0, 0, 0],
        replies: "{\"_id\":\"a\",\"_version\":3,\"op\":\"index\"}\n{\"_id\":\"a\",\"_version\":2,\"op\":\"index\"}\n",
        store: "a 3 {\"n\":8}\nb 1 {\"n\":10}\n1 over 1\n0 over 2\n",
        spent: 7,
    },
    // A step ahead is the first commit.
    Row {
        acts: ADDS,
        clients: &[("a", 0), ("a", 0)],
        order: &[1],
        replies: "{\"error\":{\"found\":2,\"kind\":\"conflict\",\"read\":1}}\n{\"_id\":\"a\",\"_version\":2,\"op\":\"index\"}\n",
        store: "a 2 {\"n\":6}\nb 1 {\"n\":10}\n1 over 1\n",
        spent: 2,
    },
    // Clients of different documents do not meet.
    Row {
        acts: ADDS,
        clients: &[("a", 0), ("b", 0)],
        order: BY_TURNS,
        replies: "{\"_id\":\"a\",\"_version\":2,\"op\":\"index\"}\n{\"_id\":\"b\",\"_version\":2,\"op\":\"index\"}\n",
        store: "a 2 {\"n\":3}\nb 2 {\"n\":15}\n0 over 1\n1 over 1\n",
        spent: 11,
    },
    Row {
        acts: ADDS,
        clients: &[("z", 0)],
        order: &[],
        replies: "{\"error\":{\"kind\":\"missing\"}}\n",
        store: "a 1 {\"n\":1}\nb 1 {\"n\":10}\n",
        spent: 0,
    },
    Row {
        acts: &[Act::Keep],
        clients: &[("a", 0)],
        order: &[],
        replies: "{\"_id\":\"a\",\"op\":\"none\"}\n",
        store: "a 1 {\"n\":1}\nb 1 {\"n\":10}\n",
        spent: 1,
    },
    Row {
        acts: &[Act::Fail],
        clients: &[("b", 3)],
        order: &[],
        replies: "\"fails\"\n",
        store: "a 1 {\"n\":1}\nb 1 {\"n\":10}\n",
        spent: 10,
    },
    Row {
        acts: &[Act::Delete],
        clients: &[("a", 0)],
        order: &[],
        replies: "{\"_id\":\"a\",\"_version\":2,\"op\":\"delete\"}\n",
        store: "b 1 {\"n\":10}\n0 over 1\n",
        spent: 1,
    },
    // What is deleted is not read.
    Row {
        acts: &[Act::Delete, Act::Add(5)],
        clients: &[("a", 0), ("a", 0)],
        order: &[0, 0, 0],
        replies: "{\"_id\":\"a\",\"_version\":2,\"op\":\"delete\"}\n{\"error\":{\"kind\":\"missing\"}}\n",
        store: "b 1 {\"n\":10}\n0 over 1\n",
        spent: 1,
    },
    // Its version is found, though.
    Row {
        acts: &[Act::Delete, Act::Add(5)],
        clients: &[("a", 0), ("a", 0)],
        order: BY_TURNS,
        replies: "{\"_id\":\"a\",\"_version\":2,\"op\":\"delete\"}\n{\"error\":{\"found\":2,\"kind\":\"conflict\",\"read\":1}}\n",
        store: "b 1 {\"n\":10}\n0 over 1\n",
        spent: 2,
    },
    Row {
        acts: &[Act::Delete, Act::Add(5)],
        clients: &[("a", 0), ("a", 2)],
        order: BY_TURNS,
        replies: "{\"_id\":\"a\",\"_version\":2,\"op\":\"delete\"}\n{\"error\":{\"kind\":\"missing\"}}\n",
        store: "b 1 {\"n\":10}\n0 over 1\n",
        spent: 2,
    },
    // An entry for no client does nothing, and so does one for a client that has ended.
    Row {
        acts: ADDS,
        clients: &[("b", 0), ("b", 0)],
        order: &[7, 0, 0, 4294967295, 0, 0, 0],
        replies: "{\"_id\":\"b\",\"_version\":2,\"op\":\"index\"}\n{\"_id\":\"b\",\"_version\":3,\"op\":\"index\"}\n",
        store: "a 1 {\"n\":1}\nb 3 {\"n\":17}\n0 over 1\n1 over 2\n",
        spent: 22,
    },
    // Each of three commits makes the others begin again.
    Row {
        acts: &[Act::Add(1), Act::Add(2), Act::Add(4)],
        clients: &[("a", 2), ("a", 2), ("a", 2)],
        order: &[],
        replies: "{\"_id\":\"a\",\"_version\":2,\"op\":\"index\"}\n{\"_id\":\"a\",\"_version\":3,\"op\":\"index\"}\n{\"_id\":\"a\",\"_version\":4,\"op\":\"index\"}\n",
        store: "a 4 {\"n\":8}\nb 1 {\"n\":10}\n0 over 1\n1 over 2\n2 over 3\n",
        spent: 11,
    },
    Row {
        acts: ADDS,
        clients: &[],
        order: &[0, 1],
        replies: "",
        store: "a 1 {\"n\":1}\nb 1 {\"n\":10}\n",
        spent: 0,
    },
];

/// Whether the clients of a row come to what it says.
fn comes_so(alloc: Global, row: &Row) -> Result<bool, AllocError> {
    let mut store = two_documents(alloc)?;
    let mut runner = Acting {
        alloc,
        acts: row.acts,
        spent: 0,
    };
    let clients = clients_of(alloc, row.clients)?;
    if clients.len() >= 4_294_967_296 {
        return Ok(false);
    }
    let replies = run_updates(&mut store, &mut runner, clients, row.order)?;
    let told = replies_shown(alloc, replies.as_slice())?;
    let left = store_shown(alloc, &store)?;
    Ok(told.as_str() == row.replies && left.as_str() == row.store && runner.spent == row.spent)
}

#[test]
fn clients_by_an_order(rt: HostRuntime) -> Result<(), Fail> {
    for row in &ROWS {
        let holds = comes_so(rt.alloc(), row)?;
        assert!(rt; holds, "{}", row.replies);
    }
    Ok(())
}
