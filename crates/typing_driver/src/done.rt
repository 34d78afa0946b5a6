//! What is done once parts are typed, before the items that are left.

ghost use Rattle.std.specs.Prelude.{◌∷◌, ◌<◌};
ghost use Rattle.typing_worklist.specs.Going.{Goes};
ghost use Rattle.typing_worklist.specs.Item as j;
ghost use Rattle.typing_worklist.specs.Items.{word_item, binding_item};
ghost use Rattle.typing_worklist.specs.Machine.{run};
ghost use Rattle.typing_worklist.specs.Weights.{weights};

use crate::acts::{does, does_binding, does_statement, does_word};
use allowlist::Allow;
use pl_types::Fail;
use std::alloc::Global;
use typing_actions::Config;
use typing_rules::Header;
use typing_worklist::{Act, BindingItem, StatementAct, WordItem, Worklist};

/// What is done with an expression.
#[tactic(auto, using(typing_worklist::proofs::Families::act_goes))]
pub fn act<'a>(
    alloc: Global,
    _allow: &Allow,
    _headers: &[Header],
    config: &mut Config,
    _worklist: &Worklist<'a>,
    what: Act,
) -> Result<(), Fail>
    ensures goes { Goes (run _allow.now _headers.now (j.Do what ∷ _worklist.now) config.old) result (run _allow.now _headers.now _worklist.now config.new) }
    ensures falls { weights _worklist.now < weights (j.Do what ∷ _worklist.now) }
{
    does(alloc, config, what)
}

/// What is done with a statement.
#[tactic(auto, using(typing_worklist::proofs::Families::statement_act_goes))]
pub fn statement_act<'a>(
    alloc: Global,
    _allow: &Allow,
    _headers: &[Header],
    config: &mut Config,
    _worklist: &Worklist<'a>,
    what: StatementAct,
) -> Result<(), Fail>
    ensures goes { Goes (run _allow.now _headers.now (j.DoStatement what ∷ _worklist.now) config.old) result (run _allow.now _headers.now _worklist.now config.new) }
    ensures falls { weights _worklist.now < weights (j.DoStatement what ∷ _worklist.now) }
{
    does_statement(alloc, config, what)
}

/// What is done with a name, a spelling, a type or an expression of the script.
#[tactic(auto, using(typing_worklist::proofs::Families::word_goes, typing_worklist::proofs::Lighter::word_lighter))]
pub fn word<'a>(
    alloc: Global,
    allow: &Allow,
    headers: &[Header],
    config: &mut Config,
    _worklist: &Worklist<'a>,
    what: WordItem<'a>,
) -> Result<(), Fail>
    ensures goes { Goes (run allow.now headers.now (word_item what.entry ∷ _worklist.now) config.old) result (run allow.now headers.now _worklist.now config.new) }
    ensures falls { weights _worklist.now < weights (word_item what.entry ∷ _worklist.now) }
{
    does_word(alloc, allow, headers, config, what)
}

/// What is done with a name that a statement declares, or with its type.
#[tactic(auto, using(typing_worklist::proofs::Families::binding_goes, typing_worklist::proofs::Lighter::binding_lighter))]
pub fn binding<'a>(
    alloc: Global,
    _allow: &Allow,
    _headers: &[Header],
    config: &mut Config,
    _worklist: &Worklist<'a>,
    what: BindingItem<'a>,
) -> Result<(), Fail>
    ensures goes { Goes (run _allow.now _headers.now (binding_item what.entry ∷ _worklist.now) config.old) result (run _allow.now _headers.now _worklist.now config.new) }
    ensures falls { weights _worklist.now < weights (binding_item what.entry ∷ _worklist.now) }
{
    does_binding(alloc, config, what)
}
