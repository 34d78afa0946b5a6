//! The types of scripts.

ghost use Rattle.std.specs.Prelude.{◌≡◌, ◌↔◌, IsTrue, IfOk};
ghost use Rattle.pl_types.specs.Types.{same_types};

use crate::primitive::Primitive;
use plain_data::Boxed;
use std::alloc::{AllocError, Global};

/// A type of the language.
#[derive(Drop)]
pub enum Ty {
    /// The result of what gives no value.
    Void,
    /// The type of `null`.
    Null,
    /// Any value, whose type is known only when the script runs.
    Def,
    /// A primitive type.
    Prim(Primitive),
    /// A class, by its number.
    Class(u32),
    /// The arrays whose elements have this type.
    Array(Boxed<Ty>),
}

impl Ty {
    /// A copy.
    pub fn share(&self, alloc: Global) -> Result<Ty, AllocError>
        ensures { IfOk result (λ copy. copy ≡ self.now) }
    {
        match self {
            Ty::Void => Ok(Ty::Void),
            Ty::Null => Ok(Ty::Null),
            Ty::Def => Ok(Ty::Def),
            Ty::Prim(primitive) => Ok(Ty::Prim(*primitive)),
            Ty::Class(class) => Ok(Ty::Class(*class)),
            Ty::Array(element) => {
                let element = element.get().share(alloc)?;
                Ok(Ty::Array(Boxed::new(alloc, element)?))
            }
        }
    }

    /// Whether two types are one.
    pub fn is(&self, other: &Ty) -> bool
        ensures same { IsTrue result ↔ (self.now ≡ other.now) }
        ensures test { result ≡ same_types self.now other.now }
    {
        match (self, other) {
            (Ty::Void, Ty::Void) | (Ty::Null, Ty::Null) | (Ty::Def, Ty::Def) => true,
            (Ty::Prim(a), Ty::Prim(b)) => a == b,
            (Ty::Class(a), Ty::Class(b)) => a == b,
            (Ty::Array(a), Ty::Array(b)) => a.get().is(b.get()),
            _ => false,
        }
    }
}
