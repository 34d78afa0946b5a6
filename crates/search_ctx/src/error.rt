//! Why a document is not bound.

ghost use Rattle.std.specs.Prelude.{◌≡◌};

use json_bridge::BindErr;
use std::alloc::AllocError;

/// Why a document has no doc values.
#[derive(Clone, Copy, Debug, PartialEq, Eq, thiserror::Error)]
pub enum DocErr {
    /// It is no object, or a value stands at a field that does not take it.
    #[error("a field does not take its value")]
    Field,
    /// Memory ran out.
    #[error("out of memory")]
    NoMemory,
}

impl From<AllocError> for DocErr {
    ghost use Rattle.search_ctx.specs.declared.error.DocErr.TheVariants.{NoMemory};

    ghost from_gives = { λ _ e. e ≡ NoMemory };

    fn from(_error: AllocError) -> DocErr {
        DocErr::NoMemory
    }
}

impl From<DocErr> for BindErr {
    ghost use Rattle.search_ctx.specs.Errors.{bind_of_doc};

    ghost from_gives = { λ cause e. e ≡ bind_of_doc cause };

    fn from(error: DocErr) -> BindErr {
        match error {
            DocErr::Field => BindErr::Field,
            DocErr::NoMemory => BindErr::NoMemory,
        }
    }
}
