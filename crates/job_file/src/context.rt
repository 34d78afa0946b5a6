//! The contexts of jobs, and the commands that read them.

ghost use Rattle.std.specs.Prelude.{◌≡◌};
ghost use Rattle.job_file.specs.Contexts.{context_names, is_built, is_of_one_command, is_run, named, takes};

/// What a job's scripts are run for.
#[derive(Clone, Copy, PartialEq, Eq)]
pub enum JobContext {
    /// A script on its own, without documents.
    Eval,
    /// Whether a document passes.
    Filter,
    /// The score of a document.
    Score,
    /// A value of a document.
    Field,
    /// A document is changed or deleted.
    Update,
    /// A document is changed before it is stored.
    Ingest,
    /// A value of all documents.
    Metric,
    /// Many updates of one store of documents.
    Updates,
    /// Documents through a pipeline before they are stored.
    Pipe,
    /// Scripts that are stored, and run when a line asks for it.
    Serve,
    /// The score of a document by functions.
    FunctionScore,
}

/// A command that reads a job file.
#[derive(Clone, Copy, PartialEq, Eq)]
pub enum JobCommand {
    /// The job's scripts are compiled.
    Check,
    /// The job's scripts are compiled and listed.
    List,
    /// The job is run over its input.
    Run,
    /// The updates of its input are made.
    Updates,
    /// The documents of its input go through its pipeline.
    Pipe,
    /// The commands of its input are obeyed.
    Serve,
}

impl JobContext {
    /// The context of a name.
    pub fn named(name: &str) -> Option<JobContext>
        ensures { result ≡ named name.now context_names }
    {
        match name {
            "eval" => Some(JobContext::Eval),
            "filter" => Some(JobContext::Filter),
            "score" => Some(JobContext::Score),
            "field" => Some(JobContext::Field),
            "update" => Some(JobContext::Update),
            "ingest" => Some(JobContext::Ingest),
            "metric" => Some(JobContext::Metric),
            "updates" => Some(JobContext::Updates),
            "pipe" => Some(JobContext::Pipe),
            "serve" => Some(JobContext::Serve),
            "function_score" => Some(JobContext::FunctionScore),
            _ => None,
        }
    }

    /// Whether jobs of this context are built.
    pub fn is_built(self) -> bool
        ensures { result ≡ is_built self }
    {
        match self {
            JobContext::Eval
            | JobContext::Filter
            | JobContext::Score
            | JobContext::Field
            | JobContext::Update
            | JobContext::Ingest
            | JobContext::Updates
            | JobContext::Pipe
            | JobContext::Serve => true,
            JobContext::Metric | JobContext::FunctionScore => false,
        }
    }

    /// Whether jobs of this context are of one command alone.
    fn is_of_one_command(self) -> bool
        ensures { result ≡ is_of_one_command self }
    {
        matches!(
            self,
            JobContext::Updates | JobContext::Pipe | JobContext::Serve | JobContext::FunctionScore
        )
    }

    /// Whether `run` takes jobs of this context.
    fn is_run(self) -> bool
        ensures { result ≡ is_run self }
    {
        match self {
            JobContext::Eval => false,
            JobContext::FunctionScore => true,
            _ => !self.is_of_one_command(),
        }
    }
}

impl JobCommand {
    /// Whether the command takes jobs of this context.
    pub fn takes(self, context: JobContext) -> bool
        ensures { result ≡ takes self context }
    {
        match self {
            JobCommand::Check | JobCommand::List => !context.is_of_one_command(),
            JobCommand::Run => context.is_run(),
            JobCommand::Updates => matches!(context, JobContext::Updates),
            JobCommand::Pipe => matches!(context, JobContext::Pipe),
            JobCommand::Serve => matches!(context, JobContext::Serve),
        }
    }
}
