//! What holds of all shards.

ghost use Rattle.metric_ctx.specs.Laws.{OwnLinesAlone};
ghost use Rattle.metric_ctx.specs.Scripts.{comes_by};

use crate::scripts::ShardScripts;

/// A law that callers may cite: what a shard comes to depends on the lines that are its own, and on no others.
pub fn own_lines_alone<S: ShardScripts>()
    ensures { (scripts : S) → OwnLinesAlone (comes_by S.begun S.rest S.ending scripts) }
{}
