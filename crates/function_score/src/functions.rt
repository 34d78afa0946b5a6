//! Lists of functions.

ghost use Rattle.std.specs.Prelude.{◌≡◌, ◌≤◌, length};
ghost use Rattle.serde_json.specs.View.{view};
ghost use Rattle.function_score.specs.Answers.{IsRead, functions_view};
ghost use Rattle.function_score.specs.Functions.{functions_of};

use crate::error::FunErr;
use crate::function::ScoreFun;
use crate::reading::{functions_of, no_list};
use serde_json::Value;
use std::alloc::Global;
use std::marker::Model;

/// The functions of a job, in their order: at most 64.
#[derive(Drop)]
pub struct Functions {
    functions: Vec<ScoreFun>,
}

impl Model for Functions {
    ghost use Rattle.std.specs.Prelude.{◌≤◌, List, length};
    ghost use Rattle.function_score.specs.Answers.{functions_view};
    ghost use Rattle.function_score.specs.Functions.{FunctionData};

    ghost Value = { List FunctionData };

    ghost view = { λ it. functions_view it.functions.items };

    ghost invariant = { λ it. length it.functions.items ≤ 64 };
}

impl Functions {
    /// The functions that a value denotes: a list of at most 64 objects, each with any of the texts `filter` and `script`
    /// and the whole number `weight` from 0 to 10^9, and with at least one of the last two.
    ///
    /// Bad: the path of the first place that is wrong. Per function it is the least unknown key by bytes, then `filter`,
    /// `script` and `weight`, and the function where it has too little or is no object; `functions.64` where there are
    /// more, and `functions` for what is no list. NoMemory: want of memory.
    #[tactic(auto, unfolding(crate::specs::Functions::functions_of))]
    pub fn read(alloc: Global, value: &Value) -> Result<Functions, FunErr>
        ensures { IsRead result (functions_of (view value.now)) }
    {
        match value.as_array() {
            Some(items) => match functions_of(alloc, items) {
                Ok(functions) => Ok(Functions { functions }),
                Err(error) => Err(error),
            },
            None => Err(no_list(alloc)),
        }
    }

    /// The functions.
    pub fn functions(&self) -> &[ScoreFun]
        ensures functions { functions_view result.now ≡ self.now }
        ensures few { length result.now ≤ 64 }
    {
        self.functions.as_slice()
    }
}
