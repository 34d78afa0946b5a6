//! Laws on what placing and binding keep, and on the fields of a mapping.

ghost use Rattle.search_ctx.specs.Laws.{FieldsStay, JobFieldsAreDistinct, LinesFit, PlacingFits, ReadFieldsAreDistinct};
ghost use Rattle.search_ctx.specs.Typed.{LinesTyped, ParamsAreObjects};

use json_bridge::binding_keeps_fit;

/// A law that callers may cite: a heap that fits a program or a code fits it after the doc values of a document are placed in
/// it, and so does the map `doc`.
pub fn placing_keeps_fit()
    ensures { PlacingFits }
{}

/// A law that callers may cite: what a line is bound to fits every program and code, the arguments among it.
pub fn lines_fit()
    ensures { LinesFit }
{
    binding_keeps_fit();
}

/// A law that callers may cite: what a line is bound to are arguments of the types of its context's variables, where `params` is an object.
pub fn lines_are_typed()
    ensures { LinesTyped }
{}

/// A law that callers may cite: `params` of a job that is read is an object.
pub fn params_are_objects()
    ensures { ParamsAreObjects }
{}

/// A law that callers may cite: where no name stands twice in a mapping, its fields are the mapping's.
pub fn fields_stay()
    ensures { FieldsStay }
{}

/// A law that callers may cite: in a mapping that is read as JSON no name stands twice, so its fields are the mapping's.
pub fn read_fields_are_distinct()
    ensures { ReadFieldsAreDistinct }
{}

/// A law that callers may cite: nor does one in the mapping of a job that is read.
pub fn job_fields_are_distinct()
    ensures { JobFieldsAreDistinct }
{}
