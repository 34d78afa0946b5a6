//! A compiler that measures.

use pl_types::{Fail, Refusal};
use script_store::{Compiler, ServeKind};

/// What a script is compiled to.
#[derive(Clone, Copy, Debug, PartialEq, Eq)]
pub struct Measured {
    pub kind: ServeKind,
    pub length: usize,
}

/// A compiler that gives how long a source is, and refuses an empty one.
#[derive(Drop)]
pub struct Measuring {
    pub calls: u64,
}

impl Compiler for Measuring {
    ghost use Rattle.std.specs.Prelude.{◌≡◌, ◌==◌, Ok, Err, length, if◌then◌else◌};

    type Out = Measured;

    type Meaning = Measured;

    ghost means = { λ out meaning. out ≡ meaning };

    ghost compiled = { λ _ script. if length script.source == 0 then Err (record { number = 2; offset = 0 }) else Ok (record { kind = script.kind; length = length script.source }) };

    ghost calls = { λ measuring. measuring.calls };

    fn compile(&mut self, kind: ServeKind, source: &str) -> Result<Measured, Fail> {
        self.calls = self.calls.saturating_add(1);
        let length = source.len();
        if length == 0 {
            let refusal = Refusal {
                number: 2,
                offset: 0,
            };
            return Err(Fail::Refused(refusal));
        }
        Ok(Measured { kind, length })
    }
}
