//! What holds of every well-formed program.
ghost use Rattle.program_typing.specs.Enough.{ComesToAnEnd};

/// A well-formed program comes to an end at a bound that is known before it runs.
pub fn never_more()
    ensures ends { ComesToAnEnd }
{}
