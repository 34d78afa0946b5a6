//! What holds of all code.

ghost use Rattle.verifier.specs.Laws.{ShapesAreUnique, SoundIsWellShaped, BreaksWhereShapesEnd, FittingGoesOn};

/// What verified code keeps: each line has one list of kinds, and a run that fits a line finds its operands and fits where it
/// goes on.
pub fn shape_laws()
    ensures unique { ShapesAreUnique }
    ensures well_shaped { SoundIsWellShaped }
    ensures first { BreaksWhereShapesEnd }
    ensures goes_on { FittingGoesOn }
{}
