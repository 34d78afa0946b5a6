//! Refusals of jobs, of allowlists and of scripts.

ghost use Rattle.std.specs.Prelude.{◌≡◌, string_bytes, IfOk};
ghost use Rattle.serde_json.specs.View.{view};
ghost use Rattle.job_file.specs.Jobs as job;
ghost use Rattle.json_replies.specs.Replies.{line_of};
ghost use Rattle.job_replies.specs.Errors.{IsJobLine, IsListLine};
ghost use Rattle.job_replies.specs.Refusals.{accepted, job_refusal, named, named_refusal, refused, refused_field, refused_line, script_refusal};

use allowlist::AllowErr;
use job_file::JobErr;
use json_replies::{line_of, name_of, refusal_line};
use pl_types::Refusal;
use serde_json::{Value as Json, json};
use std::alloc::{AllocError, Global};

/// A refusal that has a name and a number alone.
fn refused(alloc: Global, name: &str, number: u32) -> Result<Json, AllocError>
    ensures { IfOk result (λ json. view json ≡ refused (named name.now number)) }
{
    json!(in alloc; {"refused": {"name": name, "number": number}})
}

/// A refusal of a key or a field.
fn refused_field(alloc: Global, field: &str, name: &str, number: u32) -> Result<Json, AllocError>
    ensures { IfOk result (λ json. view json ≡ refused_field field.now name.now number) }
{
    json!(in alloc; {"refused": {"field": field, "name": name, "number": number}})
}

/// A refusal of a line of a file.
fn refused_line(alloc: Global, line: u32, name: &str, number: u32) -> Result<Json, AllocError>
    ensures { IfOk result (λ json. view json ≡ refused_line line name.now number) }
{
    json!(in alloc; {"refused": {"line": line, "name": name, "number": number}})
}

/// The line of a refusal that has a name and a number alone.
fn line_refused(alloc: Global, name: &str, number: u32) -> Result<String, AllocError>
    ensures { IfOk result (λ line. string_bytes line ≡ line_of (refused (named name.now number))) }
{
    let json = refused(alloc, name, number)?;
    line_of(alloc, &json)
}

/// The line of a refusal of a key or a field.
fn line_refused_field(
    alloc: Global,
    field: &str,
    name: &str,
    number: u32,
) -> Result<String, AllocError>
    ensures { IfOk result (λ line. string_bytes line ≡ line_of (refused_field field.now name.now number)) }
{
    let json = refused_field(alloc, field, name, number)?;
    line_of(alloc, &json)
}

/// The line of a refusal of a line of a file.
fn line_refused_line(
    alloc: Global,
    line: u32,
    name: &str,
    number: u32,
) -> Result<String, AllocError>
    ensures { IfOk result (λ text. string_bytes text ≡ line_of (refused_line line name.now number)) }
{
    let json = refused_line(alloc, line, name, number)?;
    line_of(alloc, &json)
}

/// The line of a key of a job that is refused.
pub fn field_refusal_line(alloc: Global, key: &str) -> Result<String, AllocError>
    ensures { IfOk result (λ line. string_bytes line ≡ line_of (job_refusal (job.field key.now))) }
{
    line_refused_field(alloc, key, "JobField", 22)
}

/// The line of what is wrong with a job.
pub fn job_refusal_line(alloc: Global, error: &JobErr) -> Result<String, AllocError>
    ensures { IfOk result (λ line. IsJobLine error.now (string_bytes line)) }
{
    match error {
        JobErr::Syntax => line_refused(alloc, "JobSyntax", 21),
        JobErr::Field(key) => line_refused_field(alloc, key.as_str(), "JobField", 22),
        JobErr::Range(key) => line_refused_field(alloc, key.as_str(), "LimitRange", 25),
        JobErr::Mapping(field) => line_refused_field(alloc, field.as_str(), "MappingBad", 26),
        JobErr::NoMemory => Err(AllocError),
    }
}

/// The line of what is wrong with an allowlist.
pub fn list_refusal_line(alloc: Global, error: &AllowErr) -> Result<String, AllocError>
    ensures { IfOk result (λ line. IsListLine error.now (string_bytes line)) }
{
    match error {
        AllowErr::Syntax(line) => line_refused_line(alloc, *line, "AllowSyntax", 23),
        AllowErr::Unknown(line) => line_refused_line(alloc, *line, "AllowUnknown", 24),
        AllowErr::NoMemory => Err(AllocError),
    }
}

/// A script that is refused and told by its key.
fn named_refusal(alloc: Global, key: &str, wrong: Refusal) -> Result<Json, AllocError>
    ensures { IfOk result (λ json. view json ≡ named_refusal key.now wrong) }
{
    let name = name_of(wrong.number);
    let number = wrong.number;
    let offset = wrong.offset;
    json!(in alloc; {"refused": {"name": name, "number": number, "offset": offset, "script": key}})
}

/// Its line.
fn named_refusal_line(alloc: Global, key: &str, wrong: Refusal) -> Result<String, AllocError>
    ensures { IfOk result (λ line. string_bytes line ≡ line_of (named_refusal key.now wrong)) }
{
    let json = named_refusal(alloc, key, wrong)?;
    line_of(alloc, &json)
}

/// The line of a script of a job that is refused, where the scripts of its context are told by their keys or not.
pub fn script_refusal_line(
    alloc: Global,
    by_key: bool,
    key: &str,
    wrong: Refusal,
) -> Result<String, AllocError>
    ensures { IfOk result (λ line. string_bytes line ≡ line_of (script_refusal by_key key.now wrong)) }
{
    if by_key {
        named_refusal_line(alloc, key, wrong)
    } else {
        refusal_line(alloc, wrong)
    }
}

/// The line of a job that is accepted.
pub fn accepted_line() -> &'static str
    ensures { result.now ≡ line_of accepted }
{
    "{\"ok\":true}\n"
}
