//! A job read from the bytes of a job file.

ghost use Rattle.std.specs.Prelude.{◌≡◌, None, Some, map, option_map, option_and_then, IfOk, IfErr, Ok, Err, string_bytes};
ghost use Rattle.std.specs.Str.{IsUtf8};
ghost use Rattle.serde_json.specs.Find.{as_str};
ghost use Rattle.serde_json.specs.Read.{read};
ghost use Rattle.serde_json.specs.View.{view};
ghost use Rattle.job_file.specs.Answers.{Answered, IsFault, fields_view, job_view, parts_of, scripts_view};
ghost use Rattle.job_file.specs.Contexts.{context_of};
ghost use Rattle.job_file.specs.Jobs.{field, first, key_fault, mapping, job_in, job_in_context, job_of_read, object_of, script_keys, syntax, text_at, truth_at, unknown_key};
ghost use Rattle.job_file.specs.Keys.{keys, row_of, value_at};
ghost use Rattle.job_file.specs.Mappings.{bad_field, fields_of, members_of};
ghost use Rattle.job_file.specs.declared.keys.Key.TheVariants as k;

use crate::context::{JobCommand, JobContext};
use crate::error::JobErr;
use crate::job::Job;
use crate::keys::Key;
use crate::lookup::{text_at, truth_at, unknown_key, value_of, wrong_key};
use crate::mapping::{MapErr, Mapping};
use crate::numbers::{Numbers, numbers_of};
use crate::particulars::particulars_of;
use serde_json::{Map, Value};
use std::alloc::{AllocError, Global};

/// An error for a key.
fn wrong_field(alloc: Global, name: &str) -> JobErr
    ensures { IsFault result (Some (field name.now)) }
{
    match String::from_str(alloc, name) {
        Ok(name) => JobErr::Field(name),
        Err(_) => JobErr::NoMemory,
    }
}

/// The context of a job file, where it is built and the command takes it.
fn context_of(command: JobCommand, file: &Value) -> Option<JobContext>
    ensures { result ≡ context_of command (view file.now) }
{
    let name = file.get("context").and_then(Value::as_str)?;
    let context = JobContext::named(name)?;
    if context.is_built() && command.takes(context) {
        Some(context)
    } else {
        None
    }
}

/// Whether each key of a job file is known in its context.
fn try_known(alloc: Global, context: JobContext, file: &Value) -> Result<(), JobErr>
    ensures known { IfOk result (λ _. unknown_key context (view file.now) ≡ None) }
    ensures fault { IfErr result (λ e. IsFault e (option_map field (unknown_key context (view file.now)))) }
{
    match unknown_key(context, file) {
        Some(name) => Err(wrong_field(alloc, name)),
        None => Ok(()),
    }
}

/// Whether each key of the table is there, where it is required, and has a value of its type.
fn try_types(alloc: Global, context: JobContext, file: &Value) -> Result<(), JobErr>
    ensures right { IfOk result (λ _. first (map (key_fault context (view file.now)) keys) ≡ None) }
    ensures fault { IfErr result (λ e. IsFault e (first (map (key_fault context (view file.now)) keys))) }
{
    match wrong_key(context, file) {
        Some(key) => Err(wrong_field(alloc, key.name())),
        None => Ok(()),
    }
}

/// The mapping of a job file.
fn mapping_of(alloc: Global, file: &Value) -> Result<Mapping, JobErr>
    ensures good { IfOk result (λ _. bad_field (members_of (value_at k.Mapping (view file.now))) ≡ None) }
    ensures fields { IfOk result (λ mapping. fields_view mapping.fields.items ≡ fields_of (members_of (value_at k.Mapping (view file.now)))) }
    ensures fault { IfErr result (λ e. IsFault e (option_map mapping (bad_field (members_of (value_at k.Mapping (view file.now)))))) }
{
    let Some(value) = value_of(file, Key::Mapping) else {
        return Ok(Mapping {
            fields: Vec::new(alloc),
        });
    };
    match Mapping::read(alloc, value) {
        Ok(mapping) => Ok(mapping),
        Err(MapErr::Bad(name)) => Err(JobErr::Mapping(name)),
        Err(MapErr::NoMemory) => Err(JobErr::NoMemory),
    }
}

/// The keys of the scripts of a context.
fn script_keys(context: JobContext) -> &'static [Key]
    ensures { result.now ≡ script_keys context }
{
    match context {
        JobContext::Metric => &[Key::Init, Key::Map, Key::Combine, Key::Reduce],
        JobContext::Pipe | JobContext::Serve | JobContext::FunctionScore => &[],
        _ => &[Key::Script],
    }
}

/// The scripts at some keys, each after its key.
fn scripts_of(
    alloc: Global,
    file: &Value,
    keys: &[Key],
) -> Result<Vec<(String, String)>, AllocError>
    ensures { IfOk result (λ scripts. scripts_view scripts.items ≡ map (λ key. ((row_of key).name, text_at key (view file.now))) keys.now) }
{
    let mut scripts = Vec::new(alloc);
    for key in keys {
        let name = String::from_str(alloc, key.name())?;
        let text = String::from_str(alloc, text_at(file, *key))?;
        scripts.push((name, text))?;
    }
    Ok(scripts)
}

/// The parameters.
fn params_of(alloc: Global, file: &Value) -> Result<Value, AllocError>
    ensures { IfOk result (λ params. view params ≡ value_at k.Params (view file.now)) }
{
    match value_of(file, Key::Params) {
        Some(params) => params.clone(),
        None => Ok(Value::Object(Map::new(alloc))),
    }
}

/// The name of the allowlist file.
fn allow_of(alloc: Global, file: &Value) -> Result<Option<String>, AllocError>
    ensures { IfOk result (λ allow. option_map string_bytes allow ≡ as_str (value_at k.Allow (view file.now))) }
{
    match value_of(file, Key::Allow).and_then(Value::as_str) {
        Some(name) => Ok(Some(String::from_str(alloc, name)?)),
        None => Ok(None),
    }
}

/// The job that these parts and what is left of a file make up.
fn made(
    alloc: Global,
    context: JobContext,
    file: &Value,
    numbers: Numbers,
    mapping: Mapping,
) -> Result<Job, AllocError>
    ensures { IfOk result (λ job. job_view job ≡ parts_of context (view file.now) numbers mapping) }
{
    let scripts = scripts_of(alloc, file, script_keys(context))?;
    let params = params_of(alloc, file)?;
    let allow = allow_of(alloc, file)?;
    let particulars = particulars_of(alloc, file, numbers.capacity)?;
    Ok(Job {
        context,
        scripts,
        params,
        mapping,
        allow,
        limits: numbers.limits,
        shards: numbers.shards,
        order: numbers.order,
        slice: numbers.slice,
        listing: truth_at(file, Key::Listing),
        steps: truth_at(file, Key::Steps),
        members: truth_at(file, Key::Members),
        prelude: truth_at(file, Key::Prelude),
        particulars,
    })
}

/// The object that the bytes of a file are read as.
fn object_from(alloc: Global, bytes: &[u8]) -> Result<Value, JobErr>
    ensures text { IsUtf8 bytes.now → Answered view result (object_of (read bytes.now)) }
    ensures bytes { ¬ IsUtf8 bytes.now → Answered view result (Err syntax) }
{
    match Value::from_slice(alloc, bytes) {
        Ok(value) => if value.is_object() {
            Ok(value)
        } else {
            Err(JobErr::Syntax)
        },
        Err(error) => if error.is_memory() {
            Err(JobErr::NoMemory)
        } else {
            Err(JobErr::Syntax)
        },
    }
}

/// The job of an object for a command.
fn job_of(alloc: Global, command: JobCommand, file: &Value) -> Result<Job, JobErr>
    ensures { Answered job_view result (job_in_context (context_of command (view file.now)) (view file.now)) }
{
    match context_of(command, file) {
        Some(context) => Job::of_object(alloc, context, file),
        None => Err(wrong_field(alloc, Key::Context.name())),
    }
}

impl Job {
    /// The job that an object denotes in a context, or the first thing that is wrong with it. The context's own key is
    /// not looked at but for its type, and the context need not be built.
    pub fn of_object(alloc: Global, context: JobContext, file: &Value) -> Result<Job, JobErr>
        ensures { Answered job_view result (job_in context (view file.now)) }
    {
        try_known(alloc, context, file)?;
        try_types(alloc, context, file)?;
        let numbers = numbers_of(alloc, context, file)?;
        let mapping = mapping_of(alloc, file)?;
        Ok(made(alloc, context, file, numbers, mapping)?)
    }

    /// The job that the bytes of a job file denote, or the first thing that is wrong with them, for a command that
    /// reads the file.
    pub fn read(alloc: Global, bytes: &[u8], command: JobCommand) -> Result<Job, JobErr>
        ensures text { IsUtf8 bytes.now → Answered job_view result (job_of_read command (object_of (read bytes.now))) }
        ensures bytes { ¬ IsUtf8 bytes.now → Answered job_view result (Err syntax) }
    {
        match object_from(alloc, bytes) {
            Ok(file) => job_of(alloc, command, &file),
            Err(error) => Err(error),
        }
    }
}
