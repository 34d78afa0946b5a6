//! Lists of trees.

ghost use Rattle.std.specs.Prelude.{◌≡◌, [], ◌∷◌, reverse, IfOk};
ghost use Rattle.pl_grammar.specs.Making as making;

use plain_data::Items;
use std::alloc::{AllocError, Global};

/// One item alone.
pub fn single<T: Drop>(alloc: Global, one: T) -> Result<Items<T>, AllocError>
    ensures { IfOk result (λ all. all ≡ one ∷ []) }
{
    let mut all = Items::new(alloc);
    all.push(one)?;
    Ok(all)
}

/// These items, with one more before them.
pub fn before<T: Drop>(alloc: Global, one: T, others: Items<T>) -> Result<Items<T>, AllocError>
    ensures { IfOk result (λ all. all ≡ one ∷ others) }
{
    let mut all = single(alloc, one)?;
    all.append(others)?;
    Ok(all)
}

/// The items, or none where they are left out.
pub fn or_none<T>(alloc: Global, all: Option<Items<T>>) -> Items<T>
    ensures { result ≡ making.or_none all }
{
    match all {
        Some(items) => items,
        None => Items::new(alloc),
    }
}

/// The items, last to first.
pub fn reversed<T: Drop>(alloc: Global, items: Items<T>) -> Result<Items<T>, AllocError>
    ensures { IfOk result (λ reversed. reversed ≡ reverse items) }
{
    let mut left = items;
    let mut reversed = Items::new(alloc);
    'items: while let Some(item) = left.pop() {
        reversed.push(item)?;
    }
    Ok(reversed)
}
