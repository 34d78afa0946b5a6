//! What compiles scripts.

use crate::kind::ServeKind;
use pl_types::Fail;

/// What compiles the scripts of a store.
pub trait Compiler {
    ghost use Rattle.std.specs.Prelude.{◌≡◌, ℕ, Result};
    ghost use Rattle.pl_types.specs.declared.refusal.Refusal.{Refusal};
    ghost use Rattle.script_store.specs.Script.{Script, script};
    ghost use Rattle.script_store.specs.Compiling.{Compiles, counted};

    /// A compiled script.
    type Out: Drop;

    /// What a compiled script means, as contracts see it.
    type Meaning;

    /// Whether a compiled script has this meaning.
    ghost means: { Self.Out → Self.Meaning → Type 0 };

    /// The meaning of each script, or why it is refused.
    ghost compiled: { Self → Script → Result Self.Meaning Refusal };

    /// How often it was called. The count stands still at 2^64 - 1.
    ghost calls: { Self → ℕ };

    /// Compiles a source for a context.
    ///
    /// # Errors
    ///
    /// Refused as `compiled` says. `NoMemory`.
    fn compile(&mut self, kind: ServeKind, source: &str) -> Result<Self::Out, Fail>
        ensures answers { Compiles means (compiled self.old (script kind source.now)) result }
        ensures compiled { compiled self.new ≡ compiled self.old }
        ensures calls { calls self.new ≡ counted (calls self.old) };
}
