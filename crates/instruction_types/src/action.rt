//! What instructions take from the stack.

use crate::copying::Copying;
use pl_code::Slot;
use pl_types::Ty;

/// What an instruction takes from the stack, from the top down.
#[derive(Clone, Copy)]
pub enum Takes<'a> {
    /// Nothing.
    Nothing,
    /// One of this kind.
    One(Slot),
    /// Two, the first on the top.
    Two(Slot, Slot),
    /// Three, the first on the top.
    Three(Slot, Slot, Slot),
    /// So many of one kind.
    Copies(u64, Slot),
    /// One for each parameter, the last on the top.
    Params(&'a [Slot]),
    /// One for each parameter of these types, the last on the top.
    Arguments(&'a [Ty]),
    /// The same, and a reference under them.
    Received(&'a [Ty]),
}

/// What an instruction does to the stack.
#[derive(Clone, Copy)]
pub enum Action<'a> {
    /// Takes some off, and puts a value of a kind on, or none.
    Exchanges(Takes<'a>, Option<Slot>),
    /// Copies what lies there, of whichever kind.
    Copies(Copying),
    /// Takes an int, and nothing may lie below it.
    Empties,
}
