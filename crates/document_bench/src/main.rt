//! Prints what reading, binding and answering a document takes, in nanoseconds, over 200,000 documents of one form: `rt run -- times`.
//! With `lines` it prints the documents, so that others can be measured over the same bytes. With no argument it does nothing.
#![tactic(auto)]

use job_file::Mapping;
use json_bridge::{bind, give};
use json_reading::{Scratch, read_json};
use object_heap::Heap;
use object_values::Seed;
use search_ctx::{Fields, Params, SearchKind, bind_line};
use serde_json::Value as Json;
use std::alloc::{AllocError, Global};
use std::rt::Clock;
use std::time::Instant;
use std::{env, io};

const DOCUMENTS: u32 = 200_000;

const TIMES: u32 = 5;

const ROOM: u64 = 16_000_000;

const MAPPING: &str = "{\"n\":\"long\",\"tag\":\"keyword\"}";

/// What is made once for all documents.
struct Job {
    alloc: Global,
    fields: Fields,
    params: Params,
}

impl Drop for Job {
    fn drop(self) {
        let Job {
            alloc: _,
            fields: _fields,
            params: _params,
        } = self;
    }
}

// None where the mapping is bad or memory fails.
fn job_of(alloc: Global) -> Option<Job> {
    let mapping = Json::from_slice(alloc, MAPPING.as_bytes()).ok()?;
    let mapping = Mapping::read(alloc, &mapping).ok()?;
    Some(Job {
        alloc,
        fields: Fields::new(alloc, &mapping).ok()?,
        params: Params::new(alloc, Json::Null, Seed::of(b"job")).ok()?,
    })
}

/// How far a document is taken.
#[derive(Clone, Copy)]
enum Part {
    /// By `serde_json`, which takes memory anew for each.
    ReadAnew,
    Read,
    Bound,
    Answered,
    /// The start of a run over it, with doc values of both its fields.
    Started,
}

fn name(part: Part) -> &'static str {
    match part {
        Part::ReadAnew => "read by serde_json",
        Part::Read => "read",
        Part::Bound => "read and bound",
        Part::Answered => "read, bound, given back and written",
        Part::Started => "read, and its doc values bound",
    }
}

// The number of the next document, of 31 bits.
fn next(x: u64) -> u64 {
    x.wrapping_mul(1_103_515_245).wrapping_add(12_345) % 2_147_483_648
}

fn document(alloc: Global, x: u64) -> Result<String, AllocError> {
    let n = x % 1000;
    let tag = x % 7;
    if x % 10 == 5 {
        format!(in alloc; "{{\"tag\":\"t{tag}\"}}")
    } else {
        format!(in alloc; "{{\"n\":{n},\"tag\":\"t{tag}\"}}")
    }
}

fn documents(alloc: Global) -> Result<Vec<String>, AllocError> {
    let mut lines = Vec::new(alloc);
    let mut x = 0;
    for _ in 0..DOCUMENTS {
        x = next(x);
        lines.push(document(alloc, x)?)?;
    }
    Ok(lines)
}

fn is_answered(heap: &mut Heap, json: &Json) -> bool {
    let Ok(value) = bind(heap, json, false) else {
        return false;
    };
    match give(heap, &value) {
        Ok(given) => given.to_string(heap.alloc()).is_ok(),
        Err(_) => false,
    }
}

// Whether a document that is read comes so far.
fn goes_on(alloc: Global, part: Part, json: &Json) -> bool {
    let mut heap = Heap::new(alloc, ROOM, Seed::of(b"bench"));
    match part {
        Part::Bound => bind(&mut heap, json, false).is_ok(),
        Part::Answered => is_answered(&mut heap, json),
        _ => true,
    }
}

fn is_started(job: &Job, line: &str, scratch: &mut Scratch) -> bool {
    bind_line(
        job.alloc,
        SearchKind::Filter,
        &job.fields,
        &job.params,
        line.as_bytes(),
        ROOM,
        Seed::of(b"job"),
        scratch,
    )
    .is_ok()
}

// Whether a line comes so far.
fn comes(job: &Job, part: Part, line: &str, scratch: &mut Scratch) -> bool {
    match part {
        Part::ReadAnew => Json::from_slice(job.alloc, line.as_bytes()).is_ok(),
        Part::Started => is_started(job, line, scratch),
        _ => match read_json(job.alloc, line.as_bytes(), scratch) {
            Ok(json) => goes_on(job.alloc, part, &json),
            Err(_) => false,
        },
    }
}

fn come_often(job: &Job, part: Part, lines: &[String]) -> u32 {
    let mut done = 0u32;
    let mut scratch = Scratch::new(job.alloc);
    for line in lines {
        if comes(job, part, line.as_str(), &mut scratch) {
            done = done.saturating_add(1);
        }
    }
    done
}

// The least of some runs, in nanoseconds a document.
fn least(rt: &impl Clock, job: &Job, part: Part, lines: &[String]) -> io::Result<(u128, u32)> {
    let mut least = u128::MAX;
    let mut done = 0;
    for _ in 0..TIMES {
        let start = Instant::now(rt)?;
        done = come_often(job, part, lines);
        least = least.min(start.elapsed(rt)?.as_nanos() / u128::from(DOCUMENTS));
    }
    Ok((least, done))
}

fn measure(rt: &(impl Clock + Print), job: &Job, lines: &[String]) -> io::Result<()> {
    for part in [
        Part::ReadAnew,
        Part::Read,
        Part::Bound,
        Part::Answered,
        Part::Started,
    ] {
        let (spent, done) = least(rt, job, part, lines)?;
        let name = name(part);
        println!(rt; "{name}: {spent} ns ({done} of {DOCUMENTS})")?;
    }
    Ok(())
}

fn print_all(rt: &impl Print, lines: &[String]) -> io::Result<()> {
    for line in lines {
        println!(rt; "{line}")?;
    }
    Ok(())
}

fn main(rt: HostRuntime) -> io::Result<()> {
    let mut args = env::args(&rt)?;
    let Some(word) = args.nth(1) else {
        return Ok(());
    };
    let Ok(lines) = documents(rt.alloc()) else {
        return println!(rt; "no memory");
    };
    let Some(job) = job_of(rt.alloc()) else {
        return println!(rt; "no job");
    };
    match word.as_str() {
        "lines" => print_all(&rt, &lines),
        _ => measure(&rt, &job, &lines),
    }
}
