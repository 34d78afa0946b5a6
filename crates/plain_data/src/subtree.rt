//! Parts of trees.

ghost use Rattle.std.specs.Prelude.{◌≡◌, IfOk};

use std::alloc::{AllocError, Global};
use std::marker::Model;

/// A part of a tree in a box, with a count of the nodes in it. Contracts see the part, and no count.
pub struct Subtree<T> {
    inner: Box<T>,
    nodes: u32,
}

impl<T: Drop> Drop for Subtree<T> {
    fn drop(self) {
        let Subtree {
            inner: _inner,
            nodes: _,
        } = self;
    }
}

impl<T> Model for Subtree<T> {
    ghost Value = { T };

    ghost coded = { T.code };

    ghost view = { λ s. s.inner.value };
}

impl<T> Subtree<T> {
    /// The part.
    pub fn get(&self) -> &T
        ensures { result.now ≡ self.now }
    {
        &self.inner
    }

    /// Takes the part out of its box.
    pub fn into_inner(self) -> T
        ensures { result ≡ self }
    {
        let Subtree { inner, nodes: _ } = self;
        Box::into_inner(inner)
    }

    /// The count that it was made with.
    pub fn nodes(&self) -> u32 {
        self.nodes
    }
}

/// The sum of the counts of some parts, or the largest count.
pub fn nodes_of<T>(parts: &[Subtree<T>]) -> u32 {
    let mut sum = 0u32;
    for part in parts {
        sum = sum.saturating_add(part.nodes);
    }
    sum
}

impl<T: Drop> Subtree<T> {
    /// Puts a part in a box, with the count of its nodes.
    pub fn new(alloc: Global, part: T, nodes: u32) -> Result<Subtree<T>, AllocError>
        ensures { IfOk result (λ subtree. subtree ≡ part) }
    {
        let inner = Box::new(alloc, part)?;
        Ok(Subtree { inner, nodes })
    }
}
