//! What is put in the place of items, before those that are left.

ghost use Rattle.std.specs.Prelude.{◌∷◌, ◌<◌, OnOk};
ghost use Rattle.typing_worklist.specs.Going.{Goes};
ghost use Rattle.typing_worklist.specs.Items.{expression_item, statement_item, loop_item, declaration_item, catch_item, unbuilt_item};
ghost use Rattle.typing_worklist.specs.Machine.{run};
ghost use Rattle.typing_worklist.specs.Weights.{weights};

use allowlist::Allow;
use pl_types::Fail;
use typing_actions::Config;
use typing_rules::Header;
use typing_worklist::plans::{catches, declarations, expressions, loops, statements, unbuilt};
use typing_worklist::{
    CatchItem, DeclarationItem, ExpressionItem, LoopItem, StatementItem, UnbuiltItem, Worklist,
};

/// Goes on with an expression.
#[tactic(auto, using(typing_worklist::proofs::Families::expression_planned, typing_worklist::proofs::Lighter::expression_lighter))]
pub fn expression<'a>(
    _allow: &Allow,
    _headers: &[Header],
    config: &Config,
    worklist: &mut Worklist<'a>,
    item: ExpressionItem<'a>,
) -> Result<(), Fail>
    ensures goes { Goes (run _allow.now _headers.now (expression_item item.entry ∷ worklist.old) config.now) result (run _allow.now _headers.now worklist.new config.now) }
    ensures falls { OnOk result (weights worklist.new < weights (expression_item item.entry ∷ worklist.old)) }
{
    expressions::plan(config, worklist, item)?;
    Ok(())
}

/// Goes on with a statement, or a part of one.
#[tactic(auto, using(typing_worklist::proofs::Families::statement_planned, typing_worklist::proofs::Lighter::statement_lighter))]
pub fn statement<'a>(
    _allow: &Allow,
    _headers: &[Header],
    config: &Config,
    worklist: &mut Worklist<'a>,
    item: StatementItem<'a>,
) -> Result<(), Fail>
    ensures goes { Goes (run _allow.now _headers.now (statement_item item.entry ∷ worklist.old) config.now) result (run _allow.now _headers.now worklist.new config.now) }
    ensures falls { OnOk result (weights worklist.new < weights (statement_item item.entry ∷ worklist.old)) }
{
    statements::plan(config, worklist, item)?;
    Ok(())
}

/// Goes on with a loop, or a part of one.
#[tactic(auto, using(typing_worklist::proofs::Families::loop_part_planned, typing_worklist::proofs::Lighter::loop_lighter))]
pub fn loop_part<'a>(
    _allow: &Allow,
    _headers: &[Header],
    config: &Config,
    worklist: &mut Worklist<'a>,
    item: LoopItem<'a>,
) -> Result<(), Fail>
    ensures goes { Goes (run _allow.now _headers.now (loop_item item.entry ∷ worklist.old) config.now) result (run _allow.now _headers.now worklist.new config.now) }
    ensures falls { OnOk result (weights worklist.new < weights (loop_item item.entry ∷ worklist.old)) }
{
    loops::plan(config, worklist, item)?;
    Ok(())
}

/// Goes on with a declaration, or a part of one.
#[tactic(auto, using(typing_worklist::proofs::Families::declaration_planned, typing_worklist::proofs::Lighter::declaration_lighter))]
pub fn declaration<'a>(
    _allow: &Allow,
    _headers: &[Header],
    config: &Config,
    worklist: &mut Worklist<'a>,
    item: DeclarationItem<'a>,
) -> Result<(), Fail>
    ensures goes { Goes (run _allow.now _headers.now (declaration_item item.entry ∷ worklist.old) config.now) result (run _allow.now _headers.now worklist.new config.now) }
    ensures falls { OnOk result (weights worklist.new < weights (declaration_item item.entry ∷ worklist.old)) }
{
    declarations::plan(config, worklist, item)?;
    Ok(())
}

/// Goes on with the catches of a `try`.
#[tactic(auto, using(typing_worklist::proofs::Families::catch_planned, typing_worklist::proofs::Lighter::catch_lighter))]
pub fn catch<'a>(
    _allow: &Allow,
    _headers: &[Header],
    config: &Config,
    worklist: &mut Worklist<'a>,
    item: CatchItem<'a>,
) -> Result<(), Fail>
    ensures goes { Goes (run _allow.now _headers.now (catch_item item.entry ∷ worklist.old) config.now) result (run _allow.now _headers.now worklist.new config.now) }
    ensures falls { OnOk result (weights worklist.new < weights (catch_item item.entry ∷ worklist.old)) }
{
    catches::plan(config, worklist, item)?;
    Ok(())
}

/// Goes on with parts of what is not built.
#[tactic(auto, using(typing_worklist::proofs::Families::unbuilt_planned, typing_worklist::proofs::Lighter::unbuilt_lighter))]
pub fn unbuilt<'a>(
    _allow: &Allow,
    _headers: &[Header],
    _config: &Config,
    worklist: &mut Worklist<'a>,
    item: UnbuiltItem<'a>,
) -> Result<(), Fail>
    ensures goes { Goes (run _allow.now _headers.now (unbuilt_item item.entry ∷ worklist.old) _config.now) result (run _allow.now _headers.now worklist.new _config.now) }
    ensures falls { OnOk result (weights worklist.new < weights (unbuilt_item item.entry ∷ worklist.old)) }
{
    unbuilt::plan(worklist, item)?;
    Ok(())
}
