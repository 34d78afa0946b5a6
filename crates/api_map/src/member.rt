//! The members by their numbers in the catalogue.
ghost use Rattle.std.specs.Prelude.{◌≡◌, length};
ghost use Rattle.object_heap.specs.Effects.{Answers};
ghost use Rattle.object_heap.specs.Fits.{Rules, Fits, AllFit, AnswerFits};
ghost use Rattle.container_outcomes.specs.Outcomes.{WantsMemory, effect};
ghost use Rattle.api_map.specs.Affording.{Affords};
ghost use Rattle.api_map.specs.Members as spec;
ghost use Rattle.api_map.specs.Members.{does, does_numbered, numbered};

use crate::affording::Afforded;
use crate::bulk::Bulk;
use crate::making::{MapClass, SetClass};
use crate::removing::{remove, remove_element, remove_pair};
use crate::{bulk, collections, entries, making, maps, whole};
use object_heap::{Answer, Heap};
use object_values::{Part, Value};

/// A member that takes nothing out under a key.
#[derive(Clone, Copy)]
pub enum Telling {
    Add,
    ClearCollection,
    Contains,
    IsEmptyCollection,
    SizeOfCollection,
    NewSet(SetClass),
    Clear,
    ContainsKey,
    ContainsValue,
    View(Part),
    Get,
    GetOrDefault,
    IsEmpty,
    Put,
    PutIfAbsent,
    Replace,
    Size,
    NewMap(MapClass),
    AddAll,
    ContainsAll,
    Sift(Bulk),
    PutAll,
    NewSetOf(SetClass),
    NewMapOf(MapClass),
    GetKey,
    GetValue,
    SetValue,
}

/// A member.
#[derive(Clone, Copy)]
pub enum Member {
    Tells(Telling),
    RemoveElement,
    Remove,
    RemovePair,
}

fn tells(heap: &Heap, member: Telling, args: &[Value]) -> Afforded
    ensures { Affords heap.now (spec.tells heap.now.objects member args.now) result }
{
    match member {
        Telling::Add => Afforded::Told(collections::add(heap, args)),
        Telling::ClearCollection => Afforded::Told(collections::clear(heap, args)),
        Telling::Contains => Afforded::Told(collections::contains(heap, args)),
        Telling::IsEmptyCollection => Afforded::Told(collections::is_empty(heap, args)),
        Telling::SizeOfCollection => Afforded::Told(collections::size(heap, args)),
        Telling::NewSet(class) => Afforded::Told(making::new_set(heap, class)),
        Telling::Clear => Afforded::Told(maps::clear(heap, args)),
        Telling::ContainsKey => Afforded::Told(maps::contains_key(heap, args)),
        Telling::ContainsValue => Afforded::Told(maps::contains_value(heap, args)),
        Telling::View(part) => Afforded::Told(maps::view(part, heap, args)),
        Telling::Get => maps::get(heap, args),
        Telling::GetOrDefault => Afforded::Told(maps::get_or_default(heap, args)),
        Telling::IsEmpty => Afforded::Told(maps::is_empty(heap, args)),
        Telling::Put => Afforded::Told(maps::put(heap, args)),
        Telling::PutIfAbsent => Afforded::Told(maps::put_if_absent(heap, args)),
        Telling::Replace => Afforded::Told(maps::replace(heap, args)),
        Telling::Size => Afforded::Told(maps::size(heap, args)),
        Telling::NewMap(class) => Afforded::Told(making::new_map(heap, class)),
        Telling::AddAll => Afforded::Told(whole::add_all(heap, args)),
        Telling::ContainsAll => Afforded::Told(bulk::contains_all(heap, args)),
        Telling::Sift(bulk) => Afforded::Told(bulk::sift_all(bulk, heap, args)),
        Telling::PutAll => Afforded::Told(whole::put_all(heap, args)),
        Telling::NewSetOf(class) => Afforded::Told(whole::new_set_of(class, heap, args)),
        Telling::NewMapOf(class) => Afforded::Told(whole::new_map_of(class, heap, args)),
        Telling::GetKey => Afforded::Told(entries::get_key(heap, args)),
        Telling::GetValue => Afforded::Told(entries::get_value(heap, args)),
        Telling::SetValue => Afforded::Told(entries::set_value(heap, args)),
    }
}

/// The members of Collection in the order of their numbers in the catalogue, from 97.
static OF_COLLECTIONS: [Option<Member>; 10] = [
    Some(Member::Tells(Telling::Add)),
    Some(Member::Tells(Telling::AddAll)),
    Some(Member::Tells(Telling::ClearCollection)),
    Some(Member::Tells(Telling::Contains)),
    Some(Member::Tells(Telling::ContainsAll)),
    Some(Member::Tells(Telling::IsEmptyCollection)),
    Some(Member::RemoveElement),
    Some(Member::Tells(Telling::Sift(Bulk::Remove))),
    Some(Member::Tells(Telling::Sift(Bulk::Retain))),
    Some(Member::Tells(Telling::SizeOfCollection)),
];

/// The constructors of sets, and the members of Map, from 125.
static OF_MAPS: [Option<Member>; 20] = [
    Some(Member::Tells(Telling::NewSet(SetClass::Hash))),
    Some(Member::Tells(Telling::NewSetOf(SetClass::Hash))),
    Some(Member::Tells(Telling::NewSet(SetClass::LinkedHash))),
    Some(Member::Tells(Telling::NewSetOf(SetClass::LinkedHash))),
    Some(Member::Tells(Telling::Clear)),
    Some(Member::Tells(Telling::ContainsKey)),
    Some(Member::Tells(Telling::ContainsValue)),
    Some(Member::Tells(Telling::View(Part::Entries))),
    Some(Member::Tells(Telling::Get)),
    Some(Member::Tells(Telling::GetOrDefault)),
    Some(Member::Tells(Telling::IsEmpty)),
    Some(Member::Tells(Telling::View(Part::Keys))),
    Some(Member::Tells(Telling::Put)),
    Some(Member::Tells(Telling::PutAll)),
    Some(Member::Tells(Telling::PutIfAbsent)),
    Some(Member::Remove),
    Some(Member::RemovePair),
    Some(Member::Tells(Telling::Replace)),
    Some(Member::Tells(Telling::Size)),
    Some(Member::Tells(Telling::View(Part::Values))),
];

/// The constructors of maps, and the members of Map.Entry, from 159.
static OF_ENTRIES: [Option<Member>; 7] = [
    Some(Member::Tells(Telling::NewMap(MapClass::Hash))),
    Some(Member::Tells(Telling::NewMapOf(MapClass::Hash))),
    Some(Member::Tells(Telling::NewMap(MapClass::LinkedHash))),
    Some(Member::Tells(Telling::NewMapOf(MapClass::LinkedHash))),
    Some(Member::Tells(Telling::GetKey)),
    Some(Member::Tells(Telling::GetValue)),
    Some(Member::Tells(Telling::SetValue)),
];

#[tactic(auto, unfolding(crate::specs::Members::of_collections))]
fn of_collections() -> &'static [Option<Member>]
    ensures { result.now ≡ spec.of_collections }
{
    &OF_COLLECTIONS
}

#[tactic(auto, unfolding(crate::specs::Members::of_maps))]
fn of_maps() -> &'static [Option<Member>]
    ensures { result.now ≡ spec.of_maps }
{
    &OF_MAPS
}

#[tactic(auto, unfolding(crate::specs::Members::of_entries))]
fn of_entries() -> &'static [Option<Member>]
    ensures { result.now ≡ spec.of_entries }
{
    &OF_ENTRIES
}

fn member_at(members: &[Option<Member>], at: usize) -> Option<Member>
    ensures { result ≡ spec.member_at members.now at }
{
    match members.get(at) {
        Some(member) => *member,
        None => None,
    }
}

#[tactic(auto, unfolding(crate::specs::Members::numbered))]
fn member_of(number: u32) -> Option<Member>
    ensures { result ≡ numbered number }
{
    if number < 97 {
        None
    } else if number < 125 {
        member_at(of_collections(), (number - 97) as usize)
    } else if number < 159 {
        member_at(of_maps(), (number - 125) as usize)
    } else {
        member_at(of_entries(), (number - 159) as usize)
    }
}

fn settled(telling: Telling, heap: &mut Heap, args: &[Value]) -> Answer
    ensures does { Answers (effect heap.old (spec.tells heap.old.objects telling args.now)) heap.old heap.new result }
    ensures memory { WantsMemory (spec.tells heap.old.objects telling args.now) result }
{
    let told = tells(heap, telling, args);
    told.settle(heap)
}

fn called(member: Member, heap: &mut Heap, args: &[Value]) -> Answer
    ensures does { Answers (effect heap.old (does heap.old.objects member args.now)) heap.old heap.new result }
    ensures memory { WantsMemory (does heap.old.objects member args.now) result }
{
    match member {
        Member::Tells(telling) => settled(telling, heap, args),
        Member::RemoveElement => remove_element(heap, args),
        Member::Remove => remove(heap, args),
        Member::RemovePair => remove_pair(heap, args),
    }
}

/// The call of a member of Map or Map.Entry, of a constructor of maps or sets, or of a member of Collection whose receiver is a
/// set or a view of a map, by its number in the catalogue. The receiver is the first argument; a constructor has none. A number
/// that is no such member's gives null, and an argument that is missing or of another kind counts as null.
///
/// `Thrown`: by `docs/CATALOGUE.md`, as the member says. `Room`: the charge is above the room left; it is for a new object its
/// weight, for a map that gets a new key 2, for a set 1, and nothing for what is taken out. `NoMemory`: there was none for what
/// is made, put or copied; what is only read or taken out takes none, but for a text that is given.
pub fn call(number: u32, heap: &mut Heap, args: &[Value]) -> Answer
    ensures does { Answers (effect heap.old (does_numbered heap.old.objects number args.now)) heap.old heap.new result }
    ensures memory { WantsMemory (does_numbered heap.old.objects number args.now) result }
    ensures keeps { (rules : Rules) → Fits rules heap.old.objects → AllFit (length heap.old.objects) args.now → AnswerFits rules heap.new result }
{
    match member_of(number) {
        Some(member) => called(member, heap, args),
        None => Answer::Value(Value::Null),
    }
}
