//! Which names a function value copies.

ghost use Rattle.std.specs.Prelude.{◌≡◌, [], IfOk};
ghost use Rattle.std.specs.Option.{option_copied};
ghost use Rattle.typing_rules.specs.Rules.Functions.{is_named, named};
ghost use Rattle.typing_functions.specs.Captures as spec;

use crate::nodes::copy;
use plain_data::{Items, Text};
use std::alloc::{AllocError, Global};
use typed_tree::Named;
use typing_rules::{Entry, Scopes};

/// A name that is among so many of the oldest in sight.
fn outer<'a>(scopes: &'a Scopes, base: usize, name: &Text) -> Option<&'a Entry>
    ensures { option_copied result ≡ spec.outer scopes.now base name.now }
{
    match scopes.find(name) {
        Some(at) if at < base => scopes.get(at),
        _ => None,
    }
}

fn is_named(name: &Text, names: &[Named]) -> bool
    ensures { result ≡ is_named name.now names.now }
{
    names.iter().any(|n| n.name.as_str() == name.as_str())
}

fn entry_named(alloc: Global, e: &Entry) -> Result<Named, AllocError>
    ensures { IfOk result (λ n. n ≡ named e.now.name e.now.of) }
{
    let name = copy(alloc, &e.name)?;
    let of = e.of.share(alloc)?;
    Ok(Named { name, of })
}

fn with_entry(
    alloc: Global,
    e: Option<&Entry>,
    mut before: Items<Named>,
) -> Result<Items<Named>, AllocError>
    ensures { IfOk result (λ all. all ≡ spec.with_entry (option_copied e.entry) before) }
{
    match e {
        None => Ok(before),
        Some(e) => {
            before.push(entry_named(alloc, e)?)?;
            Ok(before)
        }
    }
}

fn with_name(
    alloc: Global,
    scopes: &Scopes,
    base: usize,
    name: &Text,
    before: Items<Named>,
) -> Result<Items<Named>, AllocError>
    ensures { IfOk result (λ all. all ≡ spec.with_name scopes.now base name.now before) }
{
    if is_named(name, before.as_slice()) {
        return Ok(before);
    }
    with_entry(alloc, outer(scopes, base, name), before)
}

/// The names that a function value copies, of those that its body mentions in their order. So many of the oldest names in sight were
/// declared around it.
pub fn captured(
    alloc: Global,
    scopes: &Scopes,
    base: usize,
    names: &[Text],
) -> Result<Items<Named>, AllocError>
    ensures { IfOk result (λ all. all ≡ spec.captured scopes.now base names.now []) }
{
    let mut all = Items::new(alloc);
    for name in names {
        all = with_name(alloc, scopes, base, name, all)?;
    }
    Ok(all)
}
