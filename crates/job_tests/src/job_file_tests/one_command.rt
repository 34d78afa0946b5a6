//! Jobs of one command alone: what is wrong with an object as such a job, and what the job has.

use super::files::is_error;
use job_file::{Job, JobContext};
use serde_json::Value;
use std::alloc::{AllocError, Global};
use std::test::Fail;

/// A context, an object without it, and what the object is answered, a line each.
const ROWS: &str = "\
updates|{\"script\":\"1\"}|ok
updates|{\"script\":\"1\",\"context\":\"updates\",\"params\":{\"a\":[]},\"allow\":\"f\",\"limits\":{\"loop\":1},\"order\":[],\"documents\":{}}|ok
updates|{}|field script
updates|{\"script\":\"1\",\"mapping\":{}}|field mapping
updates|{\"script\":\"1\",\"shards\":1}|field shards
updates|{\"script\":\"1\",\"slice\":1}|field slice
updates|{\"script\":\"1\",\"listing\":false}|field listing
updates|{\"script\":\"1\",\"steps\":false}|field steps
updates|{\"script\":\"1\",\"members\":false}|field members
updates|{\"script\":\"1\",\"prelude\":false}|field prelude
updates|{\"script\":\"1\",\"pipeline\":[]}|field pipeline
updates|{\"script\":\"1\",\"documents\":[]}|field documents
updates|{\"script\":\"1\",\"documents\":null}|field documents
updates|{\"script\":\"1\",\"documents\":{\"a\":{},\"b\":1}}|field documents
updates|{\"script\":\"1\",\"documents\":{\"a\":[]}}|field documents
updates|{\"script\":\"1\",\"documents\":{\"a\":null}}|field documents
updates|{\"script\":\"1\",\"documents\":{\"a\":{\"n\":1.0}}}|field documents
updates|{\"script\":\"1\",\"documents\":{\"a\":{\"n\":[{\"m\":-0}]}}}|field documents
updates|{\"script\":\"1\",\"documents\":{\"a\":{\"n\":9223372036854775808}}}|field documents
updates|{\"script\":\"1\",\"documents\":{\"\":{},\"b\":{\"n\":9223372036854775807}}}|ok
updates|{\"script\":\"1\",\"order\":[0,9999]}|ok
updates|{\"script\":\"1\",\"order\":[10000]}|range order
updates|{\"script\":\"1\",\"order\":[-1]}|range order
updates|{\"script\":\"1\",\"order\":[10000],\"documents\":1}|field documents
updates|{\"script\":\"1\",\"order\":[10000],\"limits\":{\"input\":0}}|range input
updates|{\"script\":\"1\",\"order\":[\"0\"],\"documents\":1}|field order
pipe|{\"pipeline\":[]}|ok
pipe|{\"pipeline\":[{\"sett\":{\"n\":1.5}}],\"allow\":\"f\",\"limits\":{}}|ok
pipe|{}|field pipeline
pipe|{\"pipeline\":{}}|field pipeline
pipe|{\"pipeline\":null}|field pipeline
pipe|{\"pipeline\":[],\"script\":\"1\"}|field script
pipe|{\"pipeline\":[],\"params\":{}}|field params
pipe|{\"pipeline\":[],\"mapping\":{}}|field mapping
pipe|{\"pipeline\":[],\"listing\":true}|field listing
pipe|{\"pipeline\":[],\"prelude\":true}|field prelude
pipe|{\"pipeline\":[],\"limits\":{\"loop\":0}}|range loop
serve|{}|ok
serve|{\"mapping\":{\"n\":\"long\"},\"allow\":\"f\",\"limits\":{},\"capacity\":1000}|ok
serve|{\"capacity\":1}|ok
serve|{\"capacity\":0}|range capacity
serve|{\"capacity\":1001}|range capacity
serve|{\"capacity\":-1}|range capacity
serve|{\"capacity\":1.0}|field capacity
serve|{\"capacity\":\"1\"}|field capacity
serve|{\"capacity\":0,\"limits\":{\"room\":0}}|range room
serve|{\"capacity\":0,\"mapping\":{\"\":0}}|range capacity
serve|{\"capacity\":1,\"mapping\":{\"f\":0}}|mapping f
serve|{\"script\":\"1\"}|field script
serve|{\"params\":{}}|field params
serve|{\"steps\":true}|field steps
serve|{\"order\":[]}|field order
function_score|{\"functions\":[]}|ok
function_score|{\"functions\":[1.5],\"params\":{},\"mapping\":{},\"allow\":\"f\",\"limits\":{},\"score_mode\":\"first\",\"boost_mode\":\"replace\"}|ok
function_score|{}|field functions
function_score|{\"functions\":{}}|field functions
function_score|{\"functions\":[],\"script\":\"1\"}|field script
function_score|{\"functions\":[],\"capacity\":1}|field capacity
function_score|{\"functions\":[],\"steps\":true}|field steps
function_score|{\"functions\":[],\"score_mode\":\"replace\"}|field score_mode
function_score|{\"functions\":[],\"score_mode\":\"avg\"}|field score_mode
function_score|{\"functions\":[],\"score_mode\":null}|field score_mode
function_score|{\"functions\":[],\"boost_mode\":\"first\"}|field boost_mode
function_score|{\"functions\":[],\"boost_mode\":\"Sum\"}|field boost_mode
function_score|{\"functions\":[],\"boost_mode\":1}|field boost_mode
function_score|{\"functions\":1,\"score_mode\":1,\"boost_mode\":1}|field functions
function_score|{\"functions\":[],\"score_mode\":1,\"boost_mode\":1}|field score_mode
function_score|{\"functions\":[],\"score_mode\":\"max\",\"boost_mode\":\"min\",\"mapping\":{\"f\":0}}|mapping f
function_score|{\"functions\":[],\"score_mode\":\"min\",\"boost_mode\":\"max\"}|ok
function_score|{\"functions\":[],\"score_mode\":\"sum\",\"boost_mode\":\"multiply\"}|ok
function_score|{\"functions\":[],\"score_mode\":\"multiply\",\"boost_mode\":\"sum\"}|ok
field|{\"script\":\"1\",\"functions\":[]}|field functions
metric|{\"map\":\"\",\"combine\":\"\",\"reduce\":\"\",\"documents\":{}}|field documents
";

/// The object with its context.
fn with_context(alloc: Global, name: &str, text: &str) -> Result<String, AllocError> {
    let mut object = String::from_str(alloc, "{\"context\":\"")?;
    object.push_str(name)?;
    object.push_str("\"")?;
    let members = text.strip_prefix("{").unwrap_or(text);
    if members != "}" {
        object.push_str(",")?;
    }
    object.push_str(members)?;
    Ok(object)
}

/// Whether an object is answered so as a job of a context.
fn object_answers(alloc: Global, name: &str, text: &str, wanted: &'static str) -> bool {
    let Some(context) = JobContext::named(name) else {
        return false;
    };
    let Ok(object) = Value::from_str(alloc, text) else {
        return false;
    };
    match Job::of_object(alloc, context, &object) {
        Ok(_) => wanted == "ok",
        Err(error) => is_error(&error, wanted),
    }
}

/// Whether a row is answered as it says.
fn row_answers(alloc: Global, row: &'static str) -> Result<bool, AllocError> {
    let (name, rest) = row.split_once('|').unwrap_or((row, ""));
    let (text, wanted) = rest.split_once('|').unwrap_or((rest, ""));
    let object = with_context(alloc, name, text)?;
    Ok(object_answers(alloc, name, object.as_str(), wanted))
}

#[test]
fn objects_as_jobs_of_one_command(rt: HostRuntime) -> Result<(), Fail> {
    for row in ROWS.lines() {
        let as_wanted = row_answers(rt.alloc(), row)?;
        assert!(rt; as_wanted, "{row}");
    }
    Ok(())
}
