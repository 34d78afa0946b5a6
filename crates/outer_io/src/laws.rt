//! What holds of every step of a reader of lines.

ghost use Rattle.std.specs.Prelude.{◌≡◌, ℕ, List, Option, Some, Result, is_ok, true};
ghost use Rattle.outer_io.specs.declared.lines.Line.{Line};
ghost use Rattle.outer_io.specs.declared.lines.ReadErr.{ReadErr};
ghost use Rattle.outer_io.specs.Reading.{Intake, Reads};
ghost use Rattle.outer_io.specs.Steps.{IsSettled, Steps, TellsSteps};

/// A law of reading line by line, which runs nothing: what the clause of [`LineReader::next`](crate::LineReader::next)
/// says of a call is that the first of the lines that are left was given, and the others are left.
pub fn step_laws()
    // Whatever the source goes on with, and also where it does not tell its bytes.
    ensures steps { (old new : Intake) (left left' : Option (List ℕ)) (answer : Result Line ReadErr) → IsSettled old left → Reads old new left left' answer → Steps old new left left' answer }
    // Over what a source that tells its bytes has left.
    ensures told { (old new : Intake) (left left' : List ℕ) (answer : Result Line ReadErr) → IsSettled old (Some left) → Reads old new (Some left) (Some left') answer → TellsSteps old new left left' answer }
    // A reader that took nothing is settled, and stays so.
    ensures settled { (old new : Intake) (left left' : Option (List ℕ)) (answer : Result Line ReadErr) → IsSettled old left → Reads old new left left' answer → is_ok answer ≡ true → IsSettled new left' }
{}
