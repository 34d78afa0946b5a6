//! Laws on what the lines of documents that a script changes are bound to.

ghost use Rattle.document_replies.specs.ChangeLaws.{ChangesFit, ChangesTyped};

use write_ctx::{lines_are_typed, lines_fit};

/// A law that callers may cite: what such a line is bound to fits every program and code, the arguments among it.
pub fn changes_fit()
    ensures { ChangesFit }
{
    lines_fit();
}

/// A law that callers may cite: such a line is bound to two maps, `params` and `ctx`, where the job's params are an object.
pub fn changes_are_typed()
    ensures { ChangesTyped }
{
    lines_are_typed();
}
