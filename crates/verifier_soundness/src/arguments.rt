//! Which arguments a run may begin with.
ghost use Rattle.std.specs.Prelude.{◌≡◌, ◌↔◌, IsTrue};
ghost use Rattle.verifier_table.specs.Shapes.{same_kinds};
ghost use Rattle.verifier_soundness.specs.Fits as fits;
ghost use Rattle.verifier_soundness.specs.Fits.{kinds_of, main_params};

use code_meaning::Word;
use pl_code::{Code, Slot};
use verifier_table::is_same_slot;

/// Whether arguments are as many as function 0 has parameters, and of their kinds.
pub fn fit_main(code: &Code, arguments: &[Word]) -> bool
    ensures { IsTrue result ↔ (kinds_of arguments.now ≡ main_params code.now.functions) }
{
    match code.functions.get(0) {
        Some(main) => are_of(arguments, main.params.as_slice()),
        None => arguments.is_empty(),
    }
}

fn are_of(words: &[Word], kinds: &[Slot]) -> bool
    ensures { result ≡ same_kinds (kinds_of words.now) kinds.now }
{
    let mut words_left = words;
    let mut kinds_left = kinds;
    'words: while let [word, more_words @ ..] = words_left {
        match kinds_left {
            [kind, more_kinds @ ..] => {
                if !is_same_slot(kind_of(word), *kind) {
                    return false;
                }
                words_left = more_words;
                kinds_left = more_kinds;
            }
            [] => return false,
        }
    }
    kinds_left.is_empty()
}

fn kind_of(word: &Word) -> Slot
    ensures { result ≡ fits.kind_of word.now }
{
    match word {
        Word::I(_) => Slot::I,
        Word::J(_) => Slot::J,
        Word::R(_) => Slot::R,
    }
}
