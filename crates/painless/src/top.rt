//! The top call: from the words to the report.

ghost use Rattle.std.specs.Prelude.{◌≡◌, map, string_bytes};
ghost use Rattle.command_parts.specs.Ends.{EndsAsTold};
ghost use Rattle.painless.specs.Whole.{telling_named, telling_of};

use crate::words::{Called, Command, call_of};
use command_parts::{Report, Status};
use eval_command::eval;
use outer_io::{Files, Sink, Source};
use pipe_command::{check, gen_, list, pipe, run};
use std::alloc::Global;

/// Runs the command that the words say, over these files, this input and this sink.
///
/// `words` are those after the program's name. `eval FILE` runs the script that stands in the file and writes one line, its reply or
/// its refusal. `check FILE` compiles the script of the job in the file, and writes that it is accepted or why it is refused. `list FILE`
/// compiles it and writes the listing of its code, or that of the prelude's where the job asks for it.
/// `run FILE` runs the script of the job in the file over each line of the input, and writes the replies. `pipe FILE` passes the document of
/// each line of the input through the pipeline of the job in the file, and writes the replies. `gen N` makes so many documents,
/// from 1 to 1,000,000, runs a fixed job over them, and writes a summary. The report's status says how
/// the run ended; with `ReadFault`, `WriteFault`, `NoMemory` and `InputLong` some of what is told may be missing, with `Usage` and
/// the statuses of files nothing is written. With status 0 or 1 of `eval`, `run`, `pipe` and `gen` the report has the listing of the code of each
/// script and that of the prelude's, and how many instructions were run.
pub fn painless<F: Files, S: Source, K: Sink>(
    alloc: Global,
    words: &[String],
    files: &mut F,
    input: &mut S,
    out: &mut K,
) -> Report
    // It ends as is told of the words: `EndsAsTold` has what that is, clause by clause, from what was seen of the files, the input and the
    // sink before and after. The sink holds what is told, or a front of it by the status, and the report is the told one. Each fault was
    // counted, and was the last call. No file was changed, none was asked for but those of the words, and the input was left or read to its
    // end.
    ensures ends { EndsAsTold (telling_of (map string_bytes words.now))
        (record { content = F.content files.old; asked = F.asked files.old; file_faults = F.faults files.old; left = S.left input.old; read_faults = S.faults input.old; held = K.held out.old; write_faults = K.faults out.old })
        (record { content = F.content files.new; asked = F.asked files.new; file_faults = F.faults files.new; left = S.left input.new; read_faults = S.faults input.new; held = K.held out.new; write_faults = K.faults out.new })
        (input.new ≡ input.old) result }
{
    match call_of(words) {
        Some(Called::File(command, name)) => called(alloc, command, name, files, input, out),
        Some(Called::Documents(count)) => gen_(alloc, count, out),
        None => Report::quiet(alloc, Status::Usage),
    }
}

/// Runs a command with its one word.
fn called<F: Files, S: Source, K: Sink>(
    alloc: Global,
    command: Command,
    name: &str,
    files: &mut F,
    input: &mut S,
    out: &mut K,
) -> Report
    ensures ends { EndsAsTold (telling_named command name.now)
        (record { content = F.content files.old; asked = F.asked files.old; file_faults = F.faults files.old; left = S.left input.old; read_faults = S.faults input.old; held = K.held out.old; write_faults = K.faults out.old })
        (record { content = F.content files.new; asked = F.asked files.new; file_faults = F.faults files.new; left = S.left input.new; read_faults = S.faults input.new; held = K.held out.new; write_faults = K.faults out.new })
        (input.new ≡ input.old) result }
{
    match command {
        Command::Eval => eval(alloc, name, files, out),
        Command::Check => check(alloc, name, files, out),
        Command::List => list(alloc, name, files, out),
        Command::Run => run(alloc, name, files, input, out),
        Command::Pipe => pipe(alloc, name, files, input, out),
    }
}
