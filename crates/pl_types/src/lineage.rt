//! Which classes stand below which, as a trait.

ghost use Rattle.std.specs.Prelude.{◌≡◌, ℕ, Bool};

/// Which classes stand below which.
pub trait Lineage {
    /// Whether the first class is the second or stands below it.
    ghost is_below: { Self → ℕ → ℕ → Bool };

    /// Whether class `a` is class `b` or stands below it.
    fn is_sub(&self, a: u32, b: u32) -> bool
        ensures { result ≡ is_below self.now a b };
}
