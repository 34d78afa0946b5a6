//! What typing knows of the parts of a node.

ghost use Rattle.std.specs.Prelude.{◌≡◌};
ghost use Rattle.typing_rules.specs.Rules.Nodes as spec;
ghost use Rattle.typing_rules.specs.Rules.Places as places;
ghost use Rattle.typing_rules.specs.Rules.Statements as statements;

use pl_types::Ty;
use plain_data::{Items, Subtree, Text};
use typed_tree::{Target, Typed, TypedCatch, TypedStatement};

/// What an expression is to the rules of the node around it.
#[derive(Clone, Copy)]
pub enum Form {
    /// An int literal, or the `-` directly before one, of this value.
    Number(i32),
    /// The literal `true`.
    True,
    /// Any other literal.
    Literal,
    /// What may stand as a statement.
    Deed,
    Other,
}

/// An expression that is typed, where it stands, and what it is to the node around it. Brackets stand at their `(`, and what is in them
/// is no literal any more.
pub struct Part {
    pub at: u32,
    pub form: Form,
    pub typed: Subtree<Typed>,
}

impl Drop for Part {
    fn drop(self) {
        let Part {
            at: _,
            form: _,
            typed: _typed,
        } = self;
    }
}

impl Part {
    /// The expression.
    pub fn into_typed(self) -> Subtree<Typed>
        ensures { result ≡ self.typed }
    {
        let Part {
            at: _,
            form: _,
            typed,
        } = self;
        typed
    }

    /// The type of the expression.
    pub fn of(&self) -> &Ty
        ensures { result.now ≡ spec.type_of_part self.now }
    {
        &self.typed.get().of
    }

    /// The same in brackets that stand at a place.
    pub fn bracketed(self, at: u32) -> Part
        ensures { result ≡ spec.bracketed at self }
    {
        let typed = self.into_typed();
        Part {
            at,
            form: Form::Other,
            typed,
        }
    }
}

/// What is written to, with the parts of it that are values.
pub struct Location {
    pub target: Target,
    pub parts: Items<Subtree<Typed>>,
    /// The type of what is read.
    pub gives: Ty,
    /// The type of what is written.
    pub takes: Ty,
}

impl Drop for Location {
    fn drop(self) {
        let Location {
            target: _target,
            parts: _parts,
            gives: _gives,
            takes: _takes,
        } = self;
    }
}

impl Location {
    /// The target, its parts, the type of what is read, and that of what is written.
    pub fn into_parts(self) -> (Target, Items<Subtree<Typed>>, Ty, Ty)
        ensures { result ≡ (self.target, self.parts, self.gives, self.takes) }
    {
        let Location {
            target,
            parts,
            gives,
            takes,
        } = self;
        (target, parts, gives, takes)
    }
}

/// What stands before `=`, `+=` or the like, or at `++` or `--`.
pub enum Place {
    /// What is written to.
    Written(Location),
    /// What is not written to.
    Fixed,
}

impl Drop for Place {
    fn drop(self) {
        match self {
            Place::Written(_location) => {}
            Place::Fixed => {}
        }
    }
}

impl Place {
    /// What is written to, if anything is.
    pub fn into_location(self) -> Option<Location>
        ensures { result ≡ places.location_in self }
    {
        match self {
            Place::Written(location) => Some(location),
            Place::Fixed => None,
        }
    }
}

/// How a loop over elements begins: the declaration of its iterator, and that of its variable, with which each turn begins.
pub struct Each {
    pub first: Step,
    pub element: Step,
}

impl Drop for Each {
    fn drop(self) {
        let Each {
            first: _first,
            element: _element,
        } = self;
    }
}

impl Each {
    /// The two declarations.
    pub fn into_steps(self) -> (Step, Step)
        ensures { result ≡ (self.first, self.element) }
    {
        let Each { first, element } = self;
        (first, element)
    }
}

/// A statement that is typed: whether it escapes, so that nothing behind it is reached, and whether it leaves the loop around it by a
/// `break`.
pub struct Step {
    pub escapes: bool,
    pub breaks: bool,
    pub statement: Subtree<TypedStatement>,
}

impl Drop for Step {
    fn drop(self) {
        let Step {
            escapes: _,
            breaks: _,
            statement: _statement,
        } = self;
    }
}

impl Step {
    /// The statement.
    pub fn into_statement(self) -> Subtree<TypedStatement>
        ensures { result ≡ self.statement }
    {
        let Step {
            escapes: _,
            breaks: _,
            statement,
        } = self;
        statement
    }
}

/// A catch that is typed, where it stands: the class whose instances it takes, the name that they have in its block, and the block.
pub struct Caught {
    pub at: u32,
    pub class: u32,
    pub name: Text,
    pub body: Step,
}

impl Drop for Caught {
    fn drop(self) {
        let Caught {
            at: _,
            class: _,
            name: _name,
            body: _body,
        } = self;
    }
}

impl Caught {
    /// The catch.
    pub fn into_catch(self) -> TypedCatch
        ensures { result ≡ statements.catch_of self }
    {
        let Caught {
            at,
            class,
            name,
            body,
        } = self;
        TypedCatch {
            at,
            class,
            name,
            body: body.into_statement(),
        }
    }
}
