//! The names that files were asked for.

ghost use Rattle.std.specs.Prelude.{◌≡◌, [], ◌∷◌, ◌++◌, OnOk, OnErr};

use std::alloc::{AllocError, Global};
use std::marker::Model;

/// The names that files were asked for, in their order.
#[derive(Drop)]
pub(crate) struct Asked {
    names: Vec<String>,
}

impl Model for Asked {
    ghost use Rattle.std.specs.Prelude.{ℕ, List, map, string_bytes};

    ghost Value = { List (List ℕ) };

    ghost view = { λ s. map string_bytes s.names.items };
}

impl Asked {
    /// No name was asked for yet.
    pub(crate) fn new(alloc: Global) -> Asked
        ensures { result ≡ [] }
    {
        Asked {
            names: Vec::new(alloc),
        }
    }

    /// Puts a name behind those that were asked for.
    pub(crate) fn note(&mut self, name: &str) -> Result<(), AllocError>
        ensures ok { OnOk result (self.new ≡ self.old ++ name.now ∷ []) }
        ensures err { OnErr result (self.new ≡ self.old) }
    {
        let name = String::from_str(*self.names.allocator(), name)?;
        self.names.push(name).map_err(|_| AllocError)
    }
}
