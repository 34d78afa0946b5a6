//! Which names mean classes, as a trait.

ghost use Rattle.std.specs.Prelude.{◌≡◌, ℕ, List, Option};

/// Which names mean classes.
pub trait TypeNames {
    /// The number of the class that a name means.
    ghost class_of: { Self → List ℕ → Option ℕ };

    /// The number of the class that a full or a short name means.
    fn class_named(&self, name: &str) -> Option<u32>
        ensures { result ≡ class_of self.now name.now };
}
