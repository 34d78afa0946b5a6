//! The words of a process.
ghost use Rattle.std.specs.Prelude.{◌≡◌, ◌^◌, map, option_map, string_bytes};
ghost use Rattle.listing_parts.specs.Numbers.{natural_of};
ghost use Rattle.painless.specs.Whole.{call_by, call_of, called, command_named, gen_of};
ghost use Rattle.painless.specs.Words.{call_view, words_behind};

use listing_parts::natural;

/// The most documents that `gen` makes.
const MOST_DOCUMENTS: u32 = 1_000_000;

/// A command that has the name of a file behind it.
#[derive(Clone, Copy)]
pub enum Command {
    /// Runs the script in a file.
    Eval,
    /// Compiles the script of a job.
    Check,
    /// Compiles the script of a job, and writes the listing of its code.
    List,
    /// Runs the script of a job over the input.
    Run,
    /// Passes the documents of the input through the pipeline of a job.
    Pipe,
}

/// What the words call.
pub(crate) enum Called<'a> {
    /// A command over the file of a name.
    File(Command, &'a str),
    /// The command `gen` over so many documents.
    Documents(u32),
}

/// The words behind the program's name, which comes first.
pub fn words_behind(all: &[String]) -> &[String]
    ensures { map string_bytes result.now ≡ words_behind (map string_bytes all.now) }
{
    match all {
        [] => all,
        [_, words @ ..] => words,
    }
}

/// The command of a name.
fn command_named(word: &str) -> Option<Command>
    ensures { result ≡ command_named word.now }
{
    match word {
        "eval" => Some(Command::Eval),
        "check" => Some(Command::Check),
        "list" => Some(Command::List),
        "run" => Some(Command::Run),
        "pipe" => Some(Command::Pipe),
        _ => None,
    }
}

/// The command of a name over a file.
fn called_file<'a>(word: &str, name: &'a str) -> Option<Called<'a>>
    ensures { option_map call_view result ≡ called (command_named word.now) name.now }
{
    match command_named(word) {
        Some(command) => Some(Called::File(command, name)),
        None => None,
    }
}

/// The command `gen` over as many documents as a word says.
fn called_gen(word: &str) -> Option<Called<'_>>
    ensures { option_map call_view result ≡ gen_of (natural_of (2 ^ 32) word.now) }
{
    match natural(word) {
        Some(count) => {
            if 1 <= count && count <= MOST_DOCUMENTS {
                Some(Called::Documents(count))
            } else {
                None
            }
        }
        None => None,
    }
}

/// The command of a word, with its one word.
fn call_by<'a>(word: &str, name: &'a str) -> Option<Called<'a>>
    ensures { option_map call_view result ≡ call_by word.now name.now }
{
    if word == "gen" {
        called_gen(name)
    } else {
        called_file(word, name)
    }
}

/// What the words call.
pub(crate) fn call_of(words: &[String]) -> Option<Called<'_>>
    ensures { option_map call_view result ≡ call_of (map string_bytes words.now) }
{
    match words {
        [word, name] => call_by(word.as_str(), name.as_str()),
        _ => None,
    }
}
