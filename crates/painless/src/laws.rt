//! What holds of every run.

ghost use Rattle.std.specs.Prelude.{◌≡◌, ◌≢◌, ℕ, List, Option};
ghost use Rattle.command_parts.specs.Told.{Told};
ghost use Rattle.painless.specs.Whole.{AreCodes, Tells, telling_of};

use crate::top::painless;
use command_parts::{Report, Status};
use eval_command::{code_laws, script_laws};
use outer_io::{SureFiles, SureSink, SureSource};
use std::alloc::Global;

/// A law of the definition of the whole, which runs nothing: the words, over files of one content, codes and one input, are told at most
/// one thing, and where these are codes of the script that the words name, they are told one.
pub fn one_thing_is_told()
    ensures some { (words : List (List ℕ)) (content : List ℕ → Option (List ℕ)) (codes : (telling_of words).Codes) (input : List ℕ) → AreCodes words content codes → (told : Told) × Tells words content codes input told }
    ensures once { (words : List (List ℕ)) (content : List ℕ → Option (List ℕ)) (codes : (telling_of words).Codes) (input : List ℕ) (a b : Told) → Tells words content codes input a → Tells words content codes input b → a ≡ b }
{
    script_laws();
    code_laws();
}

/// `painless` over files, an input and a sink that never fail: none is ever said to have failed.
pub fn painless_surely(
    alloc: Global,
    words: &[String],
    files: &mut SureFiles,
    input: &mut SureSource,
    out: &mut SureSink,
) -> Report
    ensures read { result.status ≢ Status.ReadFault }
    ensures write { result.status ≢ Status.WriteFault }
    ensures file { result.status ≢ Status.FileFault }
{
    painless(alloc, words, files, input, out)
}
