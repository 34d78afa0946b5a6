//! What jobs of one command alone have.

ghost use Rattle.std.specs.Prelude.{◌≡◌, IfOk, option_map, string_bytes};
ghost use Rattle.serde_json.specs.Find.{as_str};
ghost use Rattle.serde_json.specs.View.{view};
ghost use Rattle.job_file.specs.Answers.{no_particulars, particular_parts, particulars_view};
ghost use Rattle.job_file.specs.Keys.{row_of, value_at};
ghost use Rattle.job_file.specs.declared.keys.Key.TheVariants as k;

use crate::keys::Key;
use crate::lookup::value_of;
use serde_json::{Map, Value};
use std::alloc::{AllocError, Global};

/// What jobs of one command alone have. A job of another context has the defaults.
pub struct JobParticulars {
    /// Of `updates`: an object from ids to documents, each an object in which each number is a whole one of 64 bits with a
    /// sign.
    pub documents: Value,
    /// Of `pipe`: a list, or null where there is none.
    pub pipeline: Value,
    /// Of `serve`: how many compiled scripts the cache keeps.
    pub capacity: u32,
    /// Of scores by functions: a list, or null where there is none.
    pub functions: Value,
    /// How the values of functions are combined; they are multiplied where there is none.
    pub score_mode: Option<String>,
    /// How a score and the value of functions are combined; they are multiplied where there is none.
    pub boost_mode: Option<String>,
}

impl Drop for JobParticulars {
    fn drop(self) {
        let JobParticulars {
            documents: _documents,
            pipeline: _pipeline,
            capacity: _,
            functions: _functions,
            score_mode: _score_mode,
            boost_mode: _boost_mode,
        } = self;
    }
}

/// The documents of a store, by their ids.
fn documents_of(alloc: Global, file: &Value) -> Result<Value, AllocError>
    ensures { IfOk result (λ documents. view documents ≡ value_at k.Documents (view file.now)) }
{
    match value_of(file, Key::Documents) {
        Some(documents) => documents.clone(),
        None => Ok(Value::Object(Map::new(alloc))),
    }
}

/// The processors of a pipeline.
fn pipeline_of(file: &Value) -> Result<Value, AllocError>
    ensures { IfOk result (λ pipeline. view pipeline ≡ value_at k.Pipeline (view file.now)) }
{
    match value_of(file, Key::Pipeline) {
        Some(pipeline) => pipeline.clone(),
        None => Ok(Value::Null),
    }
}

/// The functions of a score.
fn functions_of(file: &Value) -> Result<Value, AllocError>
    ensures { IfOk result (λ functions. view functions ≡ value_at k.Functions (view file.now)) }
{
    match value_of(file, Key::Functions) {
        Some(functions) => functions.clone(),
        None => Ok(Value::Null),
    }
}

/// How the values of functions are combined.
fn score_mode_of(alloc: Global, file: &Value) -> Result<Option<String>, AllocError>
    ensures { IfOk result (λ mode. option_map string_bytes mode ≡ as_str (value_at k.ScoreMode (view file.now))) }
{
    match value_of(file, Key::ScoreMode).and_then(Value::as_str) {
        Some(mode) => Ok(Some(String::from_str(alloc, mode)?)),
        None => Ok(None),
    }
}

/// How a score and the value of functions are combined.
fn boost_mode_of(alloc: Global, file: &Value) -> Result<Option<String>, AllocError>
    ensures { IfOk result (λ mode. option_map string_bytes mode ≡ as_str (value_at k.BoostMode (view file.now))) }
{
    match value_of(file, Key::BoostMode).and_then(Value::as_str) {
        Some(mode) => Ok(Some(String::from_str(alloc, mode)?)),
        None => Ok(None),
    }
}

impl JobParticulars {
    /// What a job of none of these commands has.
    pub fn none(alloc: Global) -> JobParticulars
        ensures { particulars_view result ≡ no_particulars }
    {
        JobParticulars {
            documents: Value::Object(Map::new(alloc)),
            pipeline: Value::Null,
            capacity: 100,
            functions: Value::Null,
            score_mode: None,
            boost_mode: None,
        }
    }
}

/// What is particular in a file, with a number for its capacity.
pub(crate) fn particulars_of(
    alloc: Global,
    file: &Value,
    capacity: u32,
) -> Result<JobParticulars, AllocError>
    ensures { IfOk result (λ p. particulars_view p ≡ particular_parts (view file.now) capacity) }
{
    let documents = documents_of(alloc, file)?;
    let pipeline = pipeline_of(file)?;
    let functions = functions_of(file)?;
    let score_mode = score_mode_of(alloc, file)?;
    let boost_mode = boost_mode_of(alloc, file)?;
    Ok(JobParticulars {
        documents,
        pipeline,
        capacity,
        functions,
        score_mode,
        boost_mode,
    })
}
