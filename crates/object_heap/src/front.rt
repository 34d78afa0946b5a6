//! Objects that several heaps have in front of their own.
ghost use Rattle.std.specs.Prelude.{◌≡◌, ◌+◌, ◌<◌, ◌^◌, ◌++◌, true, false, [], IfNone, IfOk, IfSome, length, slice_get};
ghost use Rattle.std.specs.Option.{option_copied};
ghost use Rattle.object_heap.specs.Parts.{AreFrozen, frozen_of};

use crate::parts;
use object_values::Object;
use std::alloc::{AllocError, Global};
use std::marker::Model;
use std::rc::Rc;

/// Objects that nothing may change, which a heap has in front of its own. They stand in memory once, however many heaps have them.
/// Contracts see their list.
pub struct Front {
    objects: Option<Rc<Vec<Object>>>,
}

impl Model for Front {
    ghost use Rattle.std.specs.Prelude.{List};
    ghost use Rattle.std.specs.Coded.{codes};
    ghost use Rattle.pl_types.specs.contracts.ty.Ty as ty;
    ghost use Rattle.object_values.specs.declared.object.Object.{Object as declared};
    ghost use Rattle.object_heap.specs.Fronts.{objects_in};
    ghost use Rattle.object_heap.specs.Parts.{AreFrozen};

    ghost Value = { List declared };

    ghost coded = { Prim.hlevel (codes, ty.the_row.coded) };

    ghost view = { λ f. objects_in (λ held. held.value.items) f.objects };

    ghost invariant = { λ f. AreFrozen (objects_in (λ held. held.value.items) f.objects) };
}

impl Drop for Front {
    fn drop(self) {
        let Front { objects: _objects } = self;
    }
}

impl Front {
    /// No objects. It takes no memory.
    pub fn none() -> Front
        ensures { result ≡ [] }
    {
        Front { objects: None }
    }

    /// These objects.
    pub(crate) fn of(alloc: Global, objects: Vec<Object>) -> Result<Front, AllocError>
        requires { AreFrozen objects.items }
        ensures { IfOk result (λ front. front ≡ objects.items) }
    {
        let held = Rc::new(alloc, objects)?;
        Ok(Front {
            objects: Some(held),
        })
    }

    /// The same objects once more. It copies none, and fails only where a number of 64 bits does not count how often they are shared.
    pub fn share(&self) -> Result<Front, AllocError>
        ensures { IfOk result (λ front. front ≡ self.now) }
    {
        match &self.objects {
            None => Ok(Front { objects: None }),
            Some(held) => Ok(Front {
                objects: Some(held.clone()?),
            }),
        }
    }

    /// How many objects there are.
    pub fn len(&self) -> usize
        ensures value { result ≡ length self.now }
        ensures fits { length self.now < 2 ^ 63 }
        ensures frozen { AreFrozen self.now }
    {
        match &self.objects {
            None => 0,
            Some(held) => held.as_ref().len(),
        }
    }

    /// The object of this number.
    pub fn get(&self, at: usize) -> Option<&Object>
        ensures { option_copied result ≡ slice_get self.now at }
    {
        match &self.objects {
            None => None,
            Some(held) => held.as_ref().get(at),
        }
    }
}

/// Where the object of a number stands behind those in front, if it is not frozen. There may be none there.
#[tactic(auto, using(crate::proofs::Fronting::frozen_in_front, crate::proofs::Fronting::frozen_behind))]
pub fn open_place(front: &Front, objects: &[Object], id: u32) -> Option<usize>
    ensures place { IfSome result (λ at. id ≡ length front.now + at) }
    ensures free { IfSome result (λ at. frozen_of objects.now at ≡ false) }
    ensures frozen { IfNone result (frozen_of (front.now ++ objects.now) id ≡ true) }
{
    let before = front.len();
    let id = id as usize;
    if id < before {
        return None;
    }
    let at = id - before;
    if is_frozen_at(objects, at) {
        None
    } else {
        Some(at)
    }
}

fn is_frozen_at(objects: &[Object], at: usize) -> bool
    ensures { result ≡ frozen_of objects.now at }
{
    match objects.get(at) {
        Some(object) => parts::is_frozen(object),
        None => false,
    }
}

/// The object of a number, in front or behind.
#[tactic(auto, using(crate::proofs::Fronting::got_in_front, crate::proofs::Fronting::got_behind))]
pub fn found<'a>(front: &'a Front, objects: &'a [Object], id: u32) -> Option<&'a Object>
    ensures { option_copied result ≡ slice_get (front.now ++ objects.now) id }
{
    let before = front.len();
    let id = id as usize;
    if id < before {
        front.get(id)
    } else {
        objects.get(id - before)
    }
}
