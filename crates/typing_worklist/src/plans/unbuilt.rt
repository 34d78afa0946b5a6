//! Parts of what is not built: they are looked through, and then the node is refused.

ghost use Rattle.std.specs.Prelude.{◌≡◌, ◌++◌, slice_get, OnOk};
ghost use Rattle.typing_worklist.specs.Items.{binding_item};
ghost use Rattle.typing_worklist.specs.Plans as spec;

use crate::item::{BindingItem, UnbuiltItem, WorkItem, Worklist};
use crate::plans::expressions::inner;
use pl_tree::Parameter;
use plain_data::Items;
use std::alloc::AllocError;

/// What is done for a parameter of a function value.
fn parameter<'a>(e: &'a Parameter) -> BindingItem<'a>
    ensures { binding_item result ≡ spec.parameter_item e.now.name e.now.of }
{
    match &e.of {
        None => BindingItem::NamedDef(&e.name),
        Some(of) => BindingItem::Named(&e.name, of),
    }
}

/// Parameters of a function value from one on: this one, and then the rest.
fn parameters<'a>(
    worklist: &mut Worklist<'a>,
    all: &'a Items<Parameter>,
    at: usize,
) -> Result<(), AllocError>
    ensures { OnOk result (worklist.new ≡ spec.parameters_plan all.now at (slice_get all.now at) ++ worklist.old) }
{
    let _count = all.len();
    match all.get(at) {
        None => Ok(()),
        Some(one) => worklist.put(&[
            WorkItem::Binding(parameter(one)),
            WorkItem::Unbuilt(UnbuiltItem::Parameters(all, at + 1)),
        ]),
    }
}

/// Puts on what is to be done for parts of what is not built.
pub fn plan<'a>(worklist: &mut Worklist<'a>, item: UnbuiltItem<'a>) -> Result<(), AllocError>
    ensures { OnOk result (worklist.new ≡ spec.unbuilt_items item.entry ++ worklist.old) }
{
    match item {
        UnbuiltItem::Parameters(all, at) => parameters(worklist, all, at),
        UnbuiltItem::Inner(e, at) => inner(worklist, e, at),
    }
}
