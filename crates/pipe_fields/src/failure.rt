//! Why a document is not changed.

ghost use Rattle.std.specs.Prelude.{◌≡◌};
ghost use Rattle.pipe_fields.specs.Edits.{kind_of};
ghost use Rattle.pipe_fields.specs.Failures.{IsErrorOf};

use serde_json::{Value, json};
use std::alloc::{AllocError, Global};

/// What is wrong at a field.
#[derive(Clone, Copy)]
pub enum FieldFault {
    /// There is no such field.
    Missing,
    /// The target of a rename is there.
    Exists,
    /// The way to the field meets a value that is no object.
    Parent,
    /// The index or the id takes texts alone.
    Type,
    /// A list or object would stand deeper than 120.
    Depth,
}

/// Why a document is not changed.
#[derive(Drop)]
pub enum EditErr {
    /// The processor fails with this error, and the document is as it was.
    Failed(Value),
    /// Memory ran out.
    NoMemory,
}

impl From<AllocError> for EditErr {
    ghost use Rattle.pipe_fields.specs.declared.failure.EditErr.TheVariants.{NoMemory};

    ghost from_gives = { λ _ e. e ≡ NoMemory };

    fn from(_error: AllocError) -> EditErr {
        EditErr::NoMemory
    }
}

impl FieldFault {
    /// The kind of its error.
    pub fn kind(self) -> &'static str
        ensures { result.now ≡ kind_of self }
    {
        match self {
            FieldFault::Missing => "pipe-missing",
            FieldFault::Exists => "pipe-exists",
            FieldFault::Parent => "pipe-parent",
            FieldFault::Type => "pipe-type",
            FieldFault::Depth => "pipe-depth",
        }
    }

    /// Its error at the field of a text.
    pub(crate) fn at(self, alloc: Global, field: &str) -> EditErr
        ensures { IsErrorOf self field.now result }
    {
        match json!(in alloc; {"field": field, "kind": self.kind()}) {
            Ok(error) => EditErr::Failed(error),
            Err(_) => EditErr::NoMemory,
        }
    }
}
