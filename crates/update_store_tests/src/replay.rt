//! Clients over two numbers, written apart from what it is compared with.

use super::acting::{Act, act_of};
use std::alloc::{AllocError, Global};

/// A document as a number, which is none where it is deleted.
#[derive(Clone, Copy)]
struct Cell {
    version: u64,
    number: Option<u64>,
}

/// What a client has before it.
#[derive(Clone, Copy)]
enum Todo {
    /// To look at its document.
    Look,
    /// To think of what it has seen: a version, and a number.
    Think(u64, u64),
    /// To put a number, or none, in the place of what it has seen.
    Put(u64, Option<u64>),
    /// To say that nothing is changed.
    Leave,
    /// Nothing.
    Over,
}

/// What a client says in the end.
#[derive(Clone, Copy)]
enum Says {
    Indexed(u64),
    Deleted(u64),
    Unchanged,
    Missing,
    Conflict(u64, u64),
    Failed,
}

#[derive(Clone, Copy)]
struct Player {
    /// Whether its document is the second one.
    second: bool,
    left: u32,
    todo: Todo,
    says: Says,
}

impl Player {
    fn to(self, todo: Todo) -> Player {
        Player { todo, ..self }
    }

    fn over(self, says: Says) -> Player {
        Player {
            todo: Todo::Over,
            says,
            ..self
        }
    }

    /// The player behind a look.
    fn looked(self, cell: Cell) -> Player {
        match cell.number {
            Some(number) => self.to(Todo::Think(cell.version, number)),
            None => self.over(Says::Missing),
        }
    }

    /// The player behind a thought.
    fn thought(self, act: Act, version: u64, number: u64) -> Player {
        match act {
            Act::Add(more) => self.to(Todo::Put(version, Some(number.saturating_add(more)))),
            Act::Delete => self.to(Todo::Put(version, None)),
            Act::Keep => self.to(Todo::Leave),
            Act::Fail => self.over(Says::Failed),
        }
    }

    /// The player that has put a number, or none.
    fn put(self, version: u64, number: Option<u64>) -> Player {
        match number {
            Some(_) => self.over(Says::Indexed(version)),
            None => self.over(Says::Deleted(version)),
        }
    }

    /// The player that has come too late.
    fn late(self, seen: u64, found: u64) -> Player {
        match self.left.checked_sub(1) {
            Some(left) => Player {
                left,
                todo: Todo::Look,
                ..self
            },
            None => self.over(Says::Conflict(seen, found)),
        }
    }

    /// What it says, as a line.
    fn line(self, alloc: Global) -> Result<String, AllocError> {
        let id = if self.second { "b" } else { "a" };
        match self.says {
            Says::Indexed(version) => {
                format!(in alloc; "{{\"_id\":\"{id}\",\"_version\":{version},\"op\":\"index\"}}\n")
            }
            Says::Deleted(version) => {
                format!(in alloc; "{{\"_id\":\"{id}\",\"_version\":{version},\"op\":\"delete\"}}\n")
            }
            Says::Unchanged => format!(in alloc; "{{\"_id\":\"{id}\",\"op\":\"none\"}}\n"),
            Says::Missing => String::from_str(alloc, "{\"error\":{\"kind\":\"missing\"}}\n"),
            Says::Conflict(seen, found) => {
                format!(in alloc;
                    "{{\"error\":{{\"found\":{found},\"kind\":\"conflict\",\"read\":{seen}}}}}\n"
                )
            }
            Says::Failed => String::from_str(alloc, "\"fails\"\n"),
        }
    }
}

/// Clients over two numbers.
#[derive(Drop)]
pub struct Replay {
    alloc: Global,
    first: Cell,
    second: Cell,
    players: Vec<Player>,
    history: Vec<(usize, u64)>,
}

impl Replay {
    /// The numbers 1 and 10, and clients, each by whether its number is the second one and how often it may begin again.
    pub fn new(alloc: Global, clients: &[(bool, u32)]) -> Result<Replay, AllocError> {
        let mut players = Vec::new(alloc);
        for client in clients {
            players.push(Player {
                second: client.0,
                left: client.1,
                todo: Todo::Look,
                says: Says::Unchanged,
            })?;
        }
        Ok(Replay {
            alloc,
            first: Cell {
                version: 1,
                number: Some(1),
            },
            second: Cell {
                version: 1,
                number: Some(10),
            },
            players,
            history: Vec::new(alloc),
        })
    }

    fn cell(&self, second: bool) -> Cell {
        if second { self.second } else { self.first }
    }

    /// Puts a number, or none, where the version is still the one that was seen.
    fn put(
        &mut self,
        client: usize,
        player: Player,
        seen: u64,
        number: Option<u64>,
    ) -> Result<Player, AllocError> {
        let found = self.cell(player.second).version;
        if found != seen {
            return Ok(player.late(seen, found));
        }
        let version = found.saturating_add(1);
        let cell = Cell { version, number };
        if player.second {
            self.second = cell;
        } else {
            self.first = cell;
        }
        self.history.push((client, seen))?;
        Ok(player.put(version, number))
    }

    /// The client of a number does one thing, if there is one.
    fn step(&mut self, acts: &[Act], client: usize) -> Result<(), AllocError> {
        let Some(player) = self.players.get(client) else {
            return Ok(());
        };
        let player = *player;
        let next = match player.todo {
            Todo::Look => player.looked(self.cell(player.second)),
            Todo::Think(version, number) => player.thought(act_of(acts, client), version, number),
            Todo::Put(seen, number) => self.put(client, player, seen, number)?,
            Todo::Leave => player.over(Says::Unchanged),
            Todo::Over => player,
        };
        if let Some(slot) = self.players.get_mut(client) {
            *slot = next;
        }
        Ok(())
    }

    /// Each entry of an order has its client do one thing; then each does as many as it may need, by turns.
    pub fn play(&mut self, acts: &[Act], order: &[u32], rounds: usize) -> Result<(), AllocError> {
        for entry in order {
            self.step(acts, *entry as usize)?;
        }
        for _round in 0..rounds {
            self.play_round(acts)?;
        }
        Ok(())
    }

    fn play_round(&mut self, acts: &[Act]) -> Result<(), AllocError> {
        for client in 0..self.players.len() {
            self.step(acts, client)?;
        }
        Ok(())
    }

    /// What the clients say, a line each.
    pub fn replies_shown(&self) -> Result<String, AllocError> {
        let mut all = String::new(self.alloc);
        for player in &self.players {
            let line = player.line(self.alloc)?;
            all.push_str(line.as_str())?;
        }
        Ok(all)
    }

    /// The numbers that are there with their versions, and then the history, a line each.
    pub fn store_shown(&self) -> Result<String, AllocError> {
        let mut all = cell_shown(self.alloc, "a", self.first)?;
        let second = cell_shown(self.alloc, "b", self.second)?;
        all.push_str(second.as_str())?;
        for commit in &self.history {
            let client = commit.0;
            let seen = commit.1;
            let line = format!(in self.alloc; "{client} over {seen}\n")?;
            all.push_str(line.as_str())?;
        }
        Ok(all)
    }
}

fn cell_shown(alloc: Global, id: &str, cell: Cell) -> Result<String, AllocError> {
    let version = cell.version;
    match cell.number {
        Some(number) => format!(in alloc; "{id} {version} {{\"n\":{number}}}\n"),
        None => Ok(String::new(alloc)),
    }
}
