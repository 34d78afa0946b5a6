//! The contexts of jobs: what scripts of each see and give, and what the lines of a job are.

ghost use Rattle.std.specs.Prelude.{◌≡◌, IfOk, option_map, codes, if◌then◌else◌};
ghost use Rattle.job_file.specs.Answers.{fields_view, job_view};
ghost use Rattle.search_ctx.specs.Fields.{HasDistinctNames};
ghost use Rattle.document_replies.specs.LinesSeen.{changes_of, lines_seen};
ghost use Rattle.document_replies.specs.Searches.{documents_of};
ghost use Rattle.job_commands.specs.Contexts.{change_row, change_types, changes_in, context_in, documents_in, is_test, keys_in, own_types, pipe_types, row_of, search_row, search_types, test_types, types_of, variable};

use document_replies::{ChangeContext, JobLines, SearchContext, ShownKeys, WriteKind};
use job_file::{Job, JobContext};
use job_loading::ReadJob;
use pl_types::classes::MAP;
use pl_types::{Primitive, Ty};
use script_engine::ContextTypes;
use search_ctx::{Fields, Params, SearchKind, fields_stay};
use std::alloc::{AllocError, Global};
use typed_tree::{Items, Named, Text};

/// A variable of a type.
fn variable(alloc: Global, name: &str, of: Ty) -> Result<Named, AllocError>
    ensures { IfOk result (λ found. found ≡ variable name.now of) }
{
    Ok(Named {
        name: Text::new(alloc, name)?,
        of,
    })
}

/// The variables of a context over documents.
fn search_variables(alloc: Global, kind: SearchKind) -> Result<Items<Named>, AllocError>
    ensures { IfOk result (λ variables. variables ≡ (search_types kind).variables) }
{
    let mut variables = Items::new(alloc);
    variables.push(variable(alloc, "params", Ty::Class(MAP))?)?;
    variables.push(variable(alloc, "doc", Ty::Class(MAP))?)?;
    match kind {
        SearchKind::Score => {
            variables.push(variable(alloc, "_score", Ty::Prim(Primitive::Long))?)?;
            Ok(variables)
        }
        SearchKind::Filter | SearchKind::Field => Ok(variables),
    }
}

/// The type of what a script of a context over documents gives.
fn search_result(kind: SearchKind) -> Ty
    ensures { result ≡ (search_types kind).result }
{
    match kind {
        SearchKind::Filter => Ty::Prim(Primitive::Boolean),
        SearchKind::Score => Ty::Prim(Primitive::Long),
        SearchKind::Field => Ty::Def,
    }
}

/// The variables and the result of a context over documents.
fn search_types(alloc: Global, kind: SearchKind) -> Result<ContextTypes, AllocError>
    ensures { IfOk result (λ types. types ≡ search_types kind) }
{
    Ok(ContextTypes {
        variables: search_variables(alloc, kind)?,
        result: search_result(kind),
    })
}

/// The variables of a context of documents that a script changes.
fn change_variables(alloc: Global) -> Result<Items<Named>, AllocError>
    ensures { IfOk result (λ variables. variables ≡ change_types.variables) }
{
    let mut variables = Items::new(alloc);
    variables.push(variable(alloc, "params", Ty::Class(MAP))?)?;
    variables.push(variable(alloc, "ctx", Ty::Class(MAP))?)?;
    Ok(variables)
}

/// The variables and the result of such a context.
fn change_types(alloc: Global) -> Result<ContextTypes, AllocError>
    ensures { IfOk result (λ types. types ≡ change_types) }
{
    Ok(ContextTypes {
        variables: change_variables(alloc)?,
        result: Ty::Void,
    })
}

/// Those of a test of a document that is changed.
fn test_types(alloc: Global) -> Result<ContextTypes, AllocError>
    ensures { IfOk result (λ types. types ≡ test_types) }
{
    Ok(ContextTypes {
        variables: change_variables(alloc)?,
        result: Ty::Prim(Primitive::Boolean),
    })
}

/// Whether the path of a script of a pipeline is that of a test.
pub fn is_test(path: &str) -> bool
    ensures { result ≡ is_test path.now }
{
    path.as_bytes().ends_with(b".if".as_slice())
}

/// The variables and the result of the script of a path of a pipeline.
fn pipe_types(alloc: Global, path: &str) -> Result<ContextTypes, AllocError>
    ensures { IfOk result (λ types. types ≡ pipe_types path.now) }
{
    if is_test(path) {
        test_types(alloc)
    } else {
        change_types(alloc)
    }
}

/// Those of a script of its own.
fn own_types(alloc: Global) -> ContextTypes
    ensures { result ≡ own_types }
{
    ContextTypes {
        variables: Items::new(alloc),
        result: Ty::Def,
    }
}

/// The variables and the result of the script of a context under a key.
pub fn context_types(
    alloc: Global,
    context: JobContext,
    key: &str,
) -> Result<ContextTypes, AllocError>
    ensures { IfOk result (λ types. types ≡ types_of context key.now) }
{
    match context {
        JobContext::Filter => search_types(alloc, SearchKind::Filter),
        JobContext::Score => search_types(alloc, SearchKind::Score),
        JobContext::Field => search_types(alloc, SearchKind::Field),
        JobContext::Update | JobContext::Ingest | JobContext::Updates => change_types(alloc),
        JobContext::Pipe => pipe_types(alloc, key),
        JobContext::Eval | JobContext::Metric | JobContext::Serve | JobContext::FunctionScore => Ok(
            own_types(alloc),
        ),
    }
}

/// Whether the scripts of a context are told by their keys.
pub(crate) fn tells_keys(context: JobContext) -> bool
    ensures { result ≡ (row_of context).by_key }
{
    match context {
        JobContext::Metric | JobContext::Pipe => true,
        JobContext::Eval
        | JobContext::Filter
        | JobContext::Score
        | JobContext::Field
        | JobContext::Update
        | JobContext::Ingest
        | JobContext::Updates
        | JobContext::Serve
        | JobContext::FunctionScore => false,
    }
}

/// The context of a job over documents of a kind.
pub(crate) fn search_context(
    alloc: Global,
    kind: SearchKind,
    found: &ReadJob,
) -> Result<SearchContext, AllocError>
    requires distinct { HasDistinctNames (fields_view found.now.job.mapping.fields.items) }
    ensures { IfOk result (λ context. documents_of context ≡ documents_in kind (job_view found.now.job)) }
{
    fields_stay();
    Ok(SearchContext {
        alloc,
        kind,
        fields: Fields::new(alloc, &found.job.mapping)?,
        params: Params::new(alloc, found.job.params.clone()?, found.seed)?,
        room: found.job.limits.room,
        seed: found.seed,
    })
}

/// The context of a job whose script changes documents.
fn change_context(
    alloc: Global,
    kind: WriteKind,
    found: &ReadJob,
) -> Result<ChangeContext, AllocError>
    ensures { IfOk result (λ context. changes_of context ≡ changes_in kind (job_view found.now.job)) }
{
    Ok(ChangeContext {
        alloc,
        kind,
        params: Params::new(alloc, found.job.params.clone()?, found.seed)?,
        room: found.job.limits.room,
        seed: found.seed,
    })
}

/// The lines of a job over documents of a kind.
fn search_lines(
    alloc: Global,
    kind: SearchKind,
    found: &ReadJob,
) -> Result<Option<JobLines>, AllocError>
    requires distinct { HasDistinctNames (fields_view found.now.job.mapping.fields.items) }
    ensures { IfOk result (λ lines. option_map (lines_seen (keys_in (job_view found.now.job))) lines ≡ (search_row kind).lines (job_view found.now.job)) }
{
    let context = search_context(alloc, kind, found)?;
    Ok(Some(JobLines::Search(context)))
}

/// The lines of a job whose script changes documents.
fn change_lines(
    alloc: Global,
    kind: WriteKind,
    found: &ReadJob,
) -> Result<Option<JobLines>, AllocError>
    ensures { IfOk result (λ lines. option_map (lines_seen (keys_in (job_view found.now.job))) lines ≡ (change_row kind).lines (job_view found.now.job)) }
{
    let context = change_context(alloc, kind, found)?;
    Ok(Some(JobLines::Change(context)))
}

/// The lines of a job in a context.
fn lines_by(
    alloc: Global,
    context: JobContext,
    found: &ReadJob,
) -> Result<Option<JobLines>, AllocError>
    requires distinct { HasDistinctNames (fields_view found.now.job.mapping.fields.items) }
    ensures { IfOk result (λ lines. option_map (lines_seen (keys_in (job_view found.now.job))) lines ≡ (row_of context).lines (job_view found.now.job)) }
{
    match context {
        JobContext::Filter => search_lines(alloc, SearchKind::Filter, found),
        JobContext::Score => search_lines(alloc, SearchKind::Score, found),
        JobContext::Field => search_lines(alloc, SearchKind::Field, found),
        JobContext::Update => change_lines(alloc, WriteKind::Update, found),
        JobContext::Ingest => change_lines(alloc, WriteKind::Ingest, found),
        JobContext::Eval
        | JobContext::Metric
        | JobContext::Updates
        | JobContext::Pipe
        | JobContext::Serve
        | JobContext::FunctionScore => Ok(None),
    }
}

/// The lines of a job in its context, where it has lines.
pub(crate) fn lines_of(alloc: Global, found: &ReadJob) -> Result<Option<JobLines>, AllocError>
    requires distinct { HasDistinctNames (fields_view found.now.job.mapping.fields.items) }
    ensures { IfOk result (λ lines. option_map (lines_seen (keys_in (job_view found.now.job))) lines ≡ context_in (job_view found.now.job)) }
{
    lines_by(alloc, found.job.context, found)
}

/// What is shown beside the replies of a job.
pub(crate) fn keys_of(job: &Job) -> ShownKeys
    ensures { result ≡ keys_in (job_view job.now) }
{
    ShownKeys {
        members: job.members,
        steps: job.steps,
    }
}
