//! The keys of a job file: one row a key.

ghost use Rattle.std.specs.Prelude.{◌≡◌, ◌&&◌};
ghost use Rattle.std.specs.List.{list_any};
ghost use Rattle.std.specs.Str.{bytes_eq};
ghost use Rattle.job_file.specs.Jobs.{is_key, is_required};
ghost use Rattle.job_file.specs.Keys.{belongs, includes, keys, row_of};
ghost use Rattle.job_file.specs.Rows.{contexts_of, presence_of};

use crate::context::JobContext;

/// A key of a job file.
#[derive(Clone, Copy)]
pub enum Key {
    Context,
    Script,
    Init,
    Map,
    Combine,
    Reduce,
    Params,
    Mapping,
    Allow,
    Limits,
    Shards,
    Order,
    Slice,
    Listing,
    Steps,
    Members,
    Prelude,
    Documents,
    Pipeline,
    Capacity,
    Functions,
    ScoreMode,
    BoostMode,
}

/// What the value of a key has to be.
#[derive(Clone, Copy)]
pub enum ValueType {
    Text,
    Object,
    /// An object in which each number is a whole one of 64 bits with a sign.
    Parameters,
    /// An object of limits by their names.
    Limits,
    Number,
    /// A list of numbers.
    Numbers,
    /// `true` or `false`.
    Truth,
    /// An object of objects in which each number is a whole one of 64 bits with a sign.
    Documents,
    /// A list of anything.
    Values,
    /// One of the five names of how values of functions are combined.
    ScoreMode,
    /// One of the five names of how a score and the value of functions are combined.
    BoostMode,
}

/// The contexts that have a key.
#[derive(Clone, Copy)]
pub enum Contexts {
    All,
    /// Those of `check`, `list` and `run`: all but those of one command alone.
    Plain,
    /// Of these, those that have lines.
    WithLines,
    /// Those that have one script.
    WithScript,
    WithParams,
    WithMapping,
    /// Those of `run` that reply to each line of the input.
    WithReplies,
    /// Those whose shards or clients take turns.
    WithTurns,
    Metric,
    Updates,
    Pipe,
    Serve,
    FunctionScore,
}

/// Whether a key has to be there.
#[derive(Clone, Copy)]
pub enum Presence {
    Required,
    Optional,
}

/// What the table says of a key beside its name.
#[derive(Clone, Copy)]
pub struct KeyRow {
    pub value_type: ValueType,
    pub contexts: Contexts,
    pub presence: Presence,
}

/// The keys in the order of the table.
pub const KEYS: [Key; 23] = [
    Key::Context,
    Key::Script,
    Key::Init,
    Key::Map,
    Key::Combine,
    Key::Reduce,
    Key::Params,
    Key::Mapping,
    Key::Allow,
    Key::Limits,
    Key::Shards,
    Key::Order,
    Key::Slice,
    Key::Listing,
    Key::Steps,
    Key::Members,
    Key::Prelude,
    Key::Documents,
    Key::Pipeline,
    Key::Capacity,
    Key::Functions,
    Key::ScoreMode,
    Key::BoostMode,
];

/// A row of the table.
const fn row(value_type: ValueType, contexts: Contexts, presence: Presence) -> KeyRow
    ensures value { result.value_type ≡ value_type }
    ensures contexts { result.contexts ≡ contexts }
    ensures presence { result.presence ≡ presence }
{
    KeyRow {
        value_type,
        contexts,
        presence,
    }
}

impl Contexts {
    /// Whether a context is among them.
    pub fn include(self, context: JobContext) -> bool
        ensures { result ≡ includes (contexts_of self) context }
    {
        match self {
            Contexts::All => true,
            Contexts::Plain => !matches!(
                context,
                JobContext::Updates
                    | JobContext::Pipe
                    | JobContext::Serve
                    | JobContext::FunctionScore
            ),
            Contexts::WithLines => matches!(
                context,
                JobContext::Filter
                    | JobContext::Score
                    | JobContext::Field
                    | JobContext::Update
                    | JobContext::Ingest
                    | JobContext::Metric
            ),
            Contexts::WithScript => matches!(
                context,
                JobContext::Eval
                    | JobContext::Filter
                    | JobContext::Score
                    | JobContext::Field
                    | JobContext::Update
                    | JobContext::Ingest
                    | JobContext::Updates
            ),
            Contexts::WithParams => matches!(
                context,
                JobContext::Filter
                    | JobContext::Score
                    | JobContext::Field
                    | JobContext::Update
                    | JobContext::Ingest
                    | JobContext::Metric
                    | JobContext::Updates
                    | JobContext::FunctionScore
            ),
            Contexts::WithMapping => matches!(
                context,
                JobContext::Filter
                    | JobContext::Score
                    | JobContext::Field
                    | JobContext::Metric
                    | JobContext::Serve
                    | JobContext::FunctionScore
            ),
            Contexts::WithReplies => matches!(
                context,
                JobContext::Filter
                    | JobContext::Score
                    | JobContext::Field
                    | JobContext::Update
                    | JobContext::Ingest
            ),
            Contexts::WithTurns => matches!(context, JobContext::Metric | JobContext::Updates),
            Contexts::Metric => matches!(context, JobContext::Metric),
            Contexts::Updates => matches!(context, JobContext::Updates),
            Contexts::Pipe => matches!(context, JobContext::Pipe),
            Contexts::Serve => matches!(context, JobContext::Serve),
            Contexts::FunctionScore => matches!(context, JobContext::FunctionScore),
        }
    }
}

impl Key {
    /// The name of the key.
    pub fn name(self) -> &'static str
        ensures { result.now ≡ (row_of self).name }
    {
        match self {
            Key::Context => "context",
            Key::Script => "script",
            Key::Init => "init",
            Key::Map => "map",
            Key::Combine => "combine",
            Key::Reduce => "reduce",
            Key::Params => "params",
            Key::Mapping => "mapping",
            Key::Allow => "allow",
            Key::Limits => "limits",
            Key::Shards => "shards",
            Key::Order => "order",
            Key::Slice => "slice",
            Key::Listing => "listing",
            Key::Steps => "steps",
            Key::Members => "members",
            Key::Prelude => "prelude",
            Key::Documents => "documents",
            Key::Pipeline => "pipeline",
            Key::Capacity => "capacity",
            Key::Functions => "functions",
            Key::ScoreMode => "score_mode",
            Key::BoostMode => "boost_mode",
        }
    }

    /// The row of the key.
    pub fn row(self) -> KeyRow
        ensures value { result.value_type ≡ (row_of self).type_ }
        ensures contexts { contexts_of result.contexts ≡ (row_of self).contexts }
        ensures presence { presence_of (is_required (row_of self).default) ≡ result.presence }
    {
        match self {
            Key::Context => row(ValueType::Text, Contexts::All, Presence::Required),
            Key::Script => row(ValueType::Text, Contexts::WithScript, Presence::Required),
            Key::Init => row(ValueType::Text, Contexts::Metric, Presence::Optional),
            Key::Map => row(ValueType::Text, Contexts::Metric, Presence::Required),
            Key::Combine => row(ValueType::Text, Contexts::Metric, Presence::Required),
            Key::Reduce => row(ValueType::Text, Contexts::Metric, Presence::Required),
            Key::Params => row(
                ValueType::Parameters,
                Contexts::WithParams,
                Presence::Optional,
            ),
            Key::Mapping => row(ValueType::Object, Contexts::WithMapping, Presence::Optional),
            Key::Allow => row(ValueType::Text, Contexts::All, Presence::Optional),
            Key::Limits => row(ValueType::Limits, Contexts::All, Presence::Optional),
            Key::Shards => row(ValueType::Number, Contexts::Metric, Presence::Optional),
            Key::Order => row(ValueType::Numbers, Contexts::WithTurns, Presence::Optional),
            Key::Slice => row(ValueType::Number, Contexts::Metric, Presence::Optional),
            Key::Listing => row(ValueType::Truth, Contexts::WithLines, Presence::Optional),
            Key::Steps => row(ValueType::Truth, Contexts::WithReplies, Presence::Optional),
            Key::Members => row(ValueType::Truth, Contexts::WithReplies, Presence::Optional),
            Key::Prelude => row(ValueType::Truth, Contexts::Plain, Presence::Optional),
            Key::Documents => row(ValueType::Documents, Contexts::Updates, Presence::Optional),
            Key::Pipeline => row(ValueType::Values, Contexts::Pipe, Presence::Required),
            Key::Capacity => row(ValueType::Number, Contexts::Serve, Presence::Optional),
            Key::Functions => row(
                ValueType::Values,
                Contexts::FunctionScore,
                Presence::Required,
            ),
            Key::ScoreMode => row(
                ValueType::ScoreMode,
                Contexts::FunctionScore,
                Presence::Optional,
            ),
            Key::BoostMode => row(
                ValueType::BoostMode,
                Contexts::FunctionScore,
                Presence::Optional,
            ),
        }
    }

    /// Whether the key belongs to a context.
    pub fn belongs(self, context: JobContext) -> bool
        ensures { result ≡ belongs self context }
    {
        self.row().contexts.include(context)
    }
}

/// Whether a name is that of one of some keys that belongs to a context.
fn is_among(keys: &[Key], context: JobContext, name: &str) -> bool
    ensures { result ≡ list_any (λ key. bytes_eq name.now (row_of key).name && belongs key context) keys.now }
{
    keys.iter()
        .any(|key| name == key.name() && key.belongs(context))
}

/// Whether a name is a key of a context.
pub fn is_key(context: JobContext, name: &str) -> bool
    ensures { result ≡ is_key context name.now }
{
    is_among(&KEYS, context, name)
}
