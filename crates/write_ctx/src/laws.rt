//! Laws on what binding keeps, and on replies.

ghost use Rattle.write_ctx.specs.Laws.{LinesFit, LinesTyped, RepliesHaveNoFloat};

use json_bridge::binding_keeps_fit;

/// A law that callers may cite: what a line is bound to fits every program and code, the arguments among it.
pub fn lines_fit()
    ensures { LinesFit }
{
    binding_keeps_fit();
}

/// A law that callers may cite: what a line is bound to are maps, where `params` is an object.
pub fn lines_are_typed()
    ensures { LinesTyped }
{}

/// A law that callers may cite: no reply has a float, so its text is known.
pub fn replies_have_no_float()
    ensures { RepliesHaveNoFloat }
{}
