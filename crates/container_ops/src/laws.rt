//! What holds of what the language does with lists, maps, arrays and iterators.
ghost use Rattle.container_ops.specs.Laws.{FormsFit, FormsGivePrimitives, FormsLeave};

/// Laws that callers may cite: where the heap and what is handed in fit a program or a code, what is left and given fits it too; each
/// object is there afterwards, of the same kind; and what is read as of a primitive type is of it.
pub fn container_laws()
    ensures fit { FormsFit }
    ensures leave { FormsLeave }
    ensures primitives { FormsGivePrimitives }
{}
