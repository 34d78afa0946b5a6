//! The seeds of heaps, by the job and by the line.
use super::binding::{ROOM, fields_of, params_of};
use job_file::JobCommand;
use job_loading::read_job;
use json_reading::Scratch;
use outer_io::MemFiles;
use search_ctx::{Fields, Params, SearchKind, Seed, bind_line};
use std::alloc::{AllocError, Global};

/// A job and a line. No two are the same, and those of one length differ in one byte.
const STARTS: [(&str, &str); 5] = [
    ("job", "{}"),
    ("jot", "{}"),
    ("job", "{} "),
    ("job", "{}\t"),
    ("jo", "{}"),
];

/// The seed of the heap to which a line of a job is bound.
fn seed_under(
    alloc: Global,
    fields: &Fields,
    params: &Params,
    start: (&str, &str),
) -> Option<Seed> {
    let seed = Seed::of(start.0.as_bytes());
    let line = start.1.as_bytes();
    let mut scratch = Scratch::new(alloc);
    match bind_line(
        alloc,
        SearchKind::Filter,
        fields,
        params,
        line,
        ROOM,
        seed,
        &mut scratch,
    ) {
        Ok(bound) => Some(bound.heap.seed()),
        Err(_) => None,
    }
}

/// The same under no fields and no parameters.
fn seed_of(alloc: Global, start: (&str, &str)) -> Option<Seed> {
    let fields = fields_of(alloc, "{}")?;
    let params = params_of(alloc, "{}")?;
    seed_under(alloc, &fields, &params, start)
}

/// Whether a start has this seed.
fn has_seed(alloc: Global, start: (&str, &str), seed: Seed) -> bool {
    match seed_of(alloc, start) {
        Some(found) => found == seed,
        None => false,
    }
}

/// Whether just one of the starts has a seed.
fn is_of_one(alloc: Global, seed: Seed) -> bool {
    let mut found = false;
    for other in &STARTS {
        if has_seed(alloc, *other, seed) {
            if found {
                return false;
            }
            found = true;
        }
    }
    found
}

/// Whether a start has a seed that no other has.
fn has_its_own(alloc: Global, start: (&str, &str)) -> bool {
    match seed_of(alloc, start) {
        Some(seed) => is_of_one(alloc, seed),
        None => false,
    }
}

/// A file.
fn file(alloc: Global, name: &str, text: &str) -> Result<(String, Vec<u8>), AllocError> {
    Ok((
        String::from_str(alloc, name)?,
        Vec::from_slice(alloc, text.as_bytes())?,
    ))
}

/// Two jobs that differ in one byte.
fn jobs(alloc: Global) -> Result<Vec<(String, Vec<u8>)>, AllocError> {
    let mut files = Vec::new(alloc);
    files.push(file(alloc, "a", "{\"context\":\"field\",\"script\":\"1\"}")?)?;
    files.push(file(alloc, "b", "{\"context\":\"field\",\"script\":\"2\"}")?)?;
    Ok(files)
}

/// The seed of the job in a file.
fn seed_of_job(alloc: Global, name: &str, files: &mut MemFiles) -> Option<Seed> {
    match read_job(alloc, JobCommand::Run, name, files) {
        Ok(found) => Some(found.seed),
        Err(_) => None,
    }
}

/// Whether there are two seeds, which are not the same.
fn are_two(first: Option<Seed>, second: Option<Seed>) -> bool {
    match first {
        Some(first) => match second {
            Some(second) => first != second,
            None => false,
        },
        None => false,
    }
}

#[test]
fn heaps_have_seeds_of_their_own(rt: HostRuntime) {
    let alloc = rt.alloc();
    for start in &STARTS {
        assert!(rt; has_its_own(alloc, *start));
    }
}

#[test]
fn jobs_have_seeds_of_their_own(rt: HostRuntime) -> Result<(), AllocError> {
    let alloc = rt.alloc();
    let mut files = MemFiles::new(jobs(alloc)?, Vec::new(alloc));
    let first = seed_of_job(alloc, "a", &mut files);
    let second = seed_of_job(alloc, "b", &mut files);
    assert!(rt; are_two(first, second));
    Ok(())
}
