//! `painless`: scripts of the Painless language, proved to do what the language says.
#![tactic(auto)]

use outer_io::{StdFiles, StdSink, StdSource};
use painless::{Status, painless, words_behind};
use std::alloc::AllocError;
use std::process::ExitCode;
use std::rt::Env;
use std::{env, io};

/// All words with which the process was called, the program's name first.
fn all_words(rt: &(impl Env + AllocGlobal)) -> io::Result<Vec<String>> {
    let mut words = Vec::new(rt.alloc());
    for word in env::args(rt)? {
        words.push(word).map_err(|_| AllocError)?;
    }
    Ok(words)
}

/// Runs the command that the words of the process say, over the real files, input and output. The status is the report's.
/// Words that cannot be had, since one is no UTF-8, are no command.
fn main(rt: HostRuntime) -> ExitCode {
    let words = match all_words(&rt) {
        Ok(words) => words,
        Err(error) if error.kind() == io::ErrorKind::OutOfMemory => {
            return ExitCode::from(Status::NoMemory.exit_status());
        }
        Err(_) => return ExitCode::from(Status::Usage.exit_status()),
    };
    let mut files = StdFiles::new(rt.alloc(), &rt);
    let mut input = StdSource::new(rt.reader());
    let mut out = StdSink::new(io::writer(&rt));
    let report = painless(
        rt.alloc(),
        words_behind(words.as_slice()),
        &mut files,
        &mut input,
        &mut out,
    );
    ExitCode::from(report.status.exit_status())
}
