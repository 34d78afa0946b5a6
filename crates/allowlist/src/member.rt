//! What a member of the catalogue is.

use pl_types::Ty;
use plain_data::{Items, Text};

/// What a member is.
#[derive(Clone, Copy, Debug, PartialEq, Eq)]
pub enum MemberKind {
    /// `new` makes a value by it.
    Constructor,
    /// It is called on the class.
    Static,
    /// It is called on a value.
    Instance,
    /// A constant of the class.
    Field,
}

/// Where a member comes from.
#[derive(Clone, Copy, Debug, PartialEq, Eq)]
pub enum Origin {
    /// Java's class has it.
    Java,
    /// The language adds it to the class. In an allowlist file it stands with the augmentation word.
    Augmented,
    /// Java's class has it, and its work is a function of the prelude.
    Prelude,
    /// The language adds it, and its work is a function of the prelude.
    AugmentedPrelude,
}

/// A member of the catalogue.
#[derive(Drop)]
pub struct MemberType {
    /// The number of its class.
    pub owner: u32,
    /// Its name; that of a constructor is empty.
    pub name: Text,
    /// What it is.
    pub kind: MemberKind,
    /// Where it comes from.
    pub origin: Origin,
    /// The types of its parameters, without the receiver.
    pub params: Items<Ty>,
    /// The type of its result; that of a constructor is its class.
    pub result: Ty,
}
