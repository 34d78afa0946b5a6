//! Stacks of kinds, each of them once.

ghost use Rattle.std.specs.Prelude.{◌≡◌, ◌<◌, [], ◌∷◌, length, drop, IfOk, OnErr};
ghost use Rattle.verifier_table.specs.Shapes.{same_kinds};
ghost use Rattle.verifier_table.specs.Nodes.{stack_at, link_of, with_link};
ghost use Rattle.verifier_table.specs.Grows.{Grows, HasTop};
ghost use Rattle.verifier_table.specs.Windows.{HasWindow};

use crate::node::Node;
use crate::windows::{WINDOW, window_with};
use pl_code::Slot;
use std::alloc::{AllocError, Global};
use std::marker::Model;

/// Stacks, which contracts see as their list. The first is empty.
#[derive(Drop)]
pub(crate) struct Stacks {
    nodes: Vec<Node>,
}

impl Model for Stacks {
    ghost use Rattle.std.specs.Prelude.{List};
    ghost use Rattle.pl_code.specs.declared.kinds.Slot.{Slot as SlotData};
    ghost use Rattle.verifier_table.specs.Nodes.{stacks_of, AreLinked};
    ghost use Rattle.verifier_table.specs.Measures.{HaveMeasures};

    ghost Value = { List (List SlotData) };

    ghost view = { λ s. stacks_of s.nodes.items };

    ghost invariant = { λ s. AreLinked s.nodes.items × HaveMeasures s.nodes.items };
}

const ROOT: Node = Node {
    kind: Slot::R,
    below: 0,
    height: 0,
    window: 0,
    under: 0,
    with_int: 0,
    with_long: 0,
    with_reference: 0,
};

fn link_of(node: &Node, kind: Slot) -> usize
    ensures { result ≡ link_of node.now kind }
{
    match kind {
        Slot::I => node.with_int,
        Slot::J => node.with_long,
        Slot::R => node.with_reference,
    }
}

fn link(node: &mut Node, kind: Slot, to: usize)
    ensures { node.new ≡ with_link node.old kind to }
{
    match kind {
        Slot::I => node.with_int = to,
        Slot::J => node.with_long = to,
        Slot::R => node.with_reference = to,
    }
}

impl Stacks {
    /// The empty stack alone.
    pub(crate) fn new(alloc: Global) -> Result<Stacks, AllocError>
        ensures { IfOk result (λ stacks. stacks ≡ [] ∷ []) }
    {
        let mut nodes = Vec::new(alloc);
        nodes.push(ROOT)?;
        Ok(Stacks { nodes })
    }

    /// The place of the empty stack.
    pub(crate) fn empty(&self) -> usize
        ensures within { result < length self.now }
        ensures empty { stack_at self.now result ≡ [] }
    {
        let _nodes = self.nodes.len();
        0
    }

    /// The top of a stack, and the place of what lies below it. `None` where it is empty.
    pub(crate) fn top(&self, at: usize) -> Option<(Slot, usize)>
        requires { at < length self.now }
        ensures { HasTop self.now at result }
    {
        let node = self.nodes[at];
        if at == 0 {
            None
        } else {
            Some((node.kind, node.below))
        }
    }

    pub(crate) fn is_same(&self, a: usize, b: usize) -> bool
        requires first { a < length self.now }
        requires second { b < length self.now }
        ensures { result ≡ same_kinds (stack_at self.now a) (stack_at self.now b) }
    {
        let _nodes = self.nodes.len();
        a == b
    }

    /// How many kinds a stack has.
    pub(crate) fn height(&self, at: usize) -> usize
        requires { at < length self.now }
        ensures { result ≡ length (stack_at self.now at) }
    {
        self.nodes[at].height
    }

    /// The place of a stack without its top, if it has one.
    fn rest(&self, at: usize) -> usize
        requires { at < length self.now }
        ensures within { result < length self.now }
        ensures rest { stack_at self.now result ≡ drop 1 (stack_at self.now at) }
    {
        match self.top(at) {
            None => at,
            Some((_, rest)) => rest,
        }
    }

    /// The place of what lies below so many kinds of a stack.
    fn below(&self, at: usize, count: usize) -> usize
        requires { at < length self.now }
        ensures within { result < length self.now }
        ensures below { stack_at self.now result ≡ drop count (stack_at self.now at) }
    {
        let mut place = at;
        for _ in 0..count {
            place = self.rest(place);
        }
        place
    }

    /// The place of what lies below the top 31 kinds of a stack, if their number is this one.
    pub(crate) fn under(&self, at: usize, window: u64) -> Option<usize>
        requires { at < length self.now }
        ensures { HasWindow self.now at window result }
    {
        let node = self.nodes[at];
        if node.window == window {
            Some(node.under)
        } else {
            None
        }
    }

    /// The place of a stack with one more kind on top.
    pub(crate) fn with(&mut self, at: usize, kind: Slot) -> Result<usize, AllocError>
        requires { at < length self.old }
        ensures ok { IfOk result (λ new. Grows self.old self.new new (kind ∷ stack_at self.old at)) }
        ensures err { OnErr result (self.new ≡ self.old) }
    {
        let node = self.nodes[at];
        let linked = link_of(&node, kind);
        if linked != 0 {
            return Ok(linked);
        }
        let under = self.below(at, WINDOW - 1);
        let new = self.nodes.len();
        self.nodes.push(Node {
            kind,
            below: at,
            height: node.height + 1,
            window: window_with(node.window, kind),
            under,
            with_int: 0,
            with_long: 0,
            with_reference: 0,
        })?;
        link(&mut self.nodes[at], kind, new);
        Ok(new)
    }
}
