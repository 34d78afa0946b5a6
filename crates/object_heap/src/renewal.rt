//! Objects in the place of others, and lambdas that are gone.
ghost use Rattle.std.specs.Prelude.{◌≡◌, ◌≤◌, ◌++◌, true, map, slice_get};
ghost use Rattle.object_heap.specs.Fronts.{AreRetired, is_function};
ghost use Rattle.object_heap.specs.Objects.{kind_of, may_become, may_take, renewed_by, renewal_growth, retired, retired_target};
ghost use Rattle.object_heap.specs.Parts.{asked};
ghost use Rattle.object_heap.specs.Store.{changed_one};

use crate::front::Front;
use crate::weights::elements;
use object_values::{Object, Owner, Target};

/// Whether an object may be replaced by another: its kind stays, and its class, type, part or interface.
pub fn may_be_renewed(object: &Object, after: &Object) -> bool
    ensures { result ≡ may_become (kind_of object.now) (kind_of after.now) }
{
    match (object, after) {
        (Object::List { class, .. }, Object::List { class: other, .. }) => class == other,
        (Object::Map { class, .. }, Object::Map { class: other, .. }) => class == other,
        (Object::Set { class, .. }, Object::Set { class: other, .. }) => class == other,
        (Object::Array { elem, .. }, Object::Array { elem: other, .. }) => elem.is(other),
        (Object::View { part, .. }, Object::View { part: other, .. }) => part == other,
        (Object::Entry { .. }, Object::Entry { .. }) => true,
        (Object::Iter { .. }, Object::Iter { .. }) => true,
        (Object::Builder { .. }, Object::Builder { .. }) => true,
        (Object::Fun { iface, .. }, Object::Fun { iface: other, .. }) => iface_may_become(
            *iface, *other,
        ),
        (Object::Exc { class, .. }, Object::Exc { class: other, .. }) => class == other,
        _ => false,
    }
}

// A function value that has no interface may take one.
fn iface_may_become(iface: Option<u32>, after: Option<u32>) -> bool
    ensures { result ≡ may_take iface after }
{
    match (iface, after) {
        (None, _) => true,
        (Some(iface), Some(after)) => iface == after,
        (Some(_), None) => false,
    }
}

/// How much a renewal adds to the weight.
pub fn renewal_growth_at(objects: &[Object], id: usize, after: &Object) -> u64
    ensures { result ≡ asked (renewal_growth after.now) 0 (slice_get objects.now id) }
{
    match objects.get(id) {
        Some(object) => growth_between(object, after),
        None => 0,
    }
}

fn growth_between(object: &Object, after: &Object) -> u64
    ensures { result ≡ renewal_growth after.now object.now }
{
    let growth = elements(after).saturating_sub(elements(object));
    if may_be_renewed(object, after) {
        growth
    } else {
        0
    }
}

/// Replaces an object, if it may be.
pub fn renew_at(objects: &mut Vec<Object>, id: usize, after: Object)
    ensures { objects.new.items ≡ changed_one objects.old.items id (renewed_by after) }
{
    match objects.get_mut(id) {
        Some(object) => renew_one(object, after),
        None => drop(after),
    }
}

fn renew_one(object: &mut Object, after: Object)
    ensures { object.new ≡ renewed_by after object.old }
{
    if may_be_renewed(object, &after) {
        *object = after;
    } else {
        drop(after);
    }
}

/// Every lambda of a script is gone. So many objects have none already.
#[tactic(auto, using(crate::proofs::Retiring::front_same))]
pub fn retire_all(objects: &mut Vec<Object>, from: usize)
    requires { AreRetired from objects.old.items }
    ensures { objects.new.items ≡ map retired objects.old.items }
{
    for at in from..objects.len() {
        retire_at(objects, at);
    }
}

/// The same of objects behind those in front, which are no lambdas. It says how many have none then.
pub fn retire_behind(front: &Front, objects: &mut Vec<Object>, from: usize) -> usize
    requires { AreRetired from objects.old.items }
    ensures whole { front.now ++ objects.new.items ≡ map retired (front.now ++ objects.old.items) }
    ensures count { AreRetired result objects.new.items }
{
    let _frozen = front.len();
    retire_all(objects, from);
    let count = objects.len();
    count
}

fn is_function(object: &Object) -> bool
    ensures { result ≡ is_function (kind_of object.now) }
{
    match object {
        Object::Fun { .. } => true,
        _ => false,
    }
}

/// Of so many objects that have no lambda of a script, how many surely have none when another takes a place.
pub fn still_retired(count: usize, place: usize, after: &Object) -> usize
    ensures fewer { result ≤ count }
    ensures before { is_function (kind_of after.now) ≡ true → result ≤ place }
{
    if !is_function(after) {
        return count;
    }
    if place < count { place } else { count }
}

fn retire_at(objects: &mut Vec<Object>, at: usize)
    ensures { objects.new.items ≡ changed_one objects.old.items at retired }
{
    match objects.get_mut(at) {
        Some(object) => retire(object),
        None => {}
    }
}

fn retire(object: &mut Object)
    ensures { object.new ≡ retired object.old }
{
    match object {
        Object::Fun { target, .. } => retire_target(target),
        _ => {}
    }
}

fn retire_target(target: &mut Target)
    ensures { target.new ≡ retired_target target.old }
{
    match target {
        Target::Lambda(Owner::Script, _) => *target = Target::Gone,
        _ => {}
    }
}
