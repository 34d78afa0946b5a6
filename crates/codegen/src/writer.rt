//! Goes on until nothing is left to be written.

ghost use Rattle.std.specs.Prelude.{[], OnOk};
ghost use Rattle.codegen.specs.Worklist.{Back, items_of};
ghost use Rattle.codegen.specs.Errors.{OnlyMemory};
ghost use Rattle.codegen.specs.Sound.{Sound};
ghost use Rattle.allowlist.specs.Allow.{AllowList};
ghost use Rattle.source_meaning.specs.Programs.{program_of};
ghost use Rattle.program_typing.specs.Agreeing.{known};

use crate::config::Config;
use crate::error::CodeError;
use crate::step::step;
use crate::work_item::WorkItem;
use allowlist::Allow;
use plain_stack::Stack;
use std::alloc::Global;
use typed_tree::Program;

/// Goes on until nothing is left to be written.
pub fn walk<'a>(
    alloc: Global,
    catalogue: &'a Allow,
    program: &'a Program,
    config: &mut Config,
    worklist: &mut Stack<WorkItem<'a>>,
) -> Result<(), CodeError>
    ensures back { OnOk result (Back (program_of program.now) (items_of worklist.old) config.old [] config.new) }
    ensures total { (allow : AllowList) → Sound (known allow (program_of program.now)) (items_of worklist.old) config.old → OnlyMemory result }
{
    while let Some(item) = worklist.pop() {
        step(alloc, catalogue, program, config, worklist, item)?;
    }
    Ok(())
}
