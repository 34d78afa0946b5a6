//! Laws on what binding and giving keep.
ghost use Rattle.json_bridge.specs.Laws.{BindFits, BindFreezes, GivesNoFloat};
ghost use Rattle.json_bridge.specs.Returning.{GivesBack};

/// A law that callers may cite: a heap that fits a program or a code fits it after a value is bound in it, and so does what
/// the value is bound to.
pub fn binding_keeps_fit()
    ensures { BindFits }
{}

/// A law that callers may cite: nothing may change what is bound frozen, at any depth.
pub fn binding_freezes()
    ensures { BindFreezes }
{}

/// A law that callers may cite: what a value is given as has no float.
pub fn giving_has_no_float()
    ensures { GivesNoFloat }
{}

/// A law that callers may cite: a JSON value that is bound and given back is the value with the members of each object in byte
/// order of their names, where its numbers are whole ones of 64 bits with a sign and no name of an object stands twice, as none
/// does in what is read, and where it has at most 100 levels and 1,000,000 values.
pub fn bound_is_given_back()
    ensures { GivesBack }
{}
