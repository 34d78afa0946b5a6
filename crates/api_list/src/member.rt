//! The members by their numbers in the catalogue.
ghost use Rattle.std.specs.Prelude.{◌≡◌, length};
ghost use Rattle.object_heap.specs.Effects.{Answers};
ghost use Rattle.object_heap.specs.Fits.{Rules, Fits, AllFit, AnswerFits};
ghost use Rattle.container_outcomes.specs.Outcomes.{Tells};
ghost use Rattle.api_list.specs.Members as spec;
ghost use Rattle.api_list.specs.Members.{does, does_found, numbered};
ghost use Rattle.api_list.specs.Taking.{Comes, ToldWants, told_effect};

use crate::told::Told;
use crate::{bulk, lists, making, orders, taking};
use api_map::Bulk;
use api_sort::Extreme;
use container_outcomes::Outcome;
use object_heap::{Answer, Heap};
use object_values::Value;

/// A member.
#[derive(Clone, Copy)]
pub enum Member {
    Add,
    Clear,
    Contains,
    ContainsAll,
    RemoveAll,
    RetainAll,
    IsEmpty,
    Remove,
    Size,
    ToArray,
    AddAt,
    Get,
    IndexOf,
    LastIndexOf,
    RemoveAt,
    Set,
    NewList,
    NewListOf,
    EmptyList,
    EmptyMap,
    Reverse,
    SingletonList,
    Swap,
    AsList,
    Max,
    Min,
    Sort,
}

fn tells(heap: &Heap, member: Member, args: &[Value]) -> Outcome
    ensures { Tells (does heap.now.objects member args.now) result }
{
    match member {
        Member::Add => lists::add(heap, args),
        Member::Clear => lists::clear(heap, args),
        Member::Contains => lists::contains(heap, args),
        Member::IsEmpty => lists::is_empty(heap, args),
        Member::Remove => lists::remove(heap, args),
        Member::Size => lists::size(heap, args),
        Member::AddAt => lists::add_at(heap, args),
        Member::Get => lists::get(heap, args),
        Member::IndexOf => lists::index_of(heap, args),
        Member::RemoveAt => lists::remove_at(heap, args),
        Member::Set => lists::set(heap, args),
        Member::ToArray => taking::to_array(heap, args),
        Member::LastIndexOf => lists::last_index_of(heap, args),
        Member::AsList => taking::as_list(heap, args),
        Member::ContainsAll => bulk::contains_all(heap, args),
        Member::RemoveAll => bulk::sift_all(Bulk::Remove, heap, args),
        Member::RetainAll => bulk::sift_all(Bulk::Retain, heap, args),
        Member::NewList => making::new_list(heap),
        Member::NewListOf => taking::new_list_of(heap, args),
        Member::EmptyList => making::empty_list(heap),
        Member::EmptyMap => making::empty_map(heap),
        Member::Reverse => orders::reverse_all(heap, args),
        Member::SingletonList => making::singleton_list(heap, args),
        Member::Swap => orders::swap(heap, args),
        Member::Max => orders::extreme(Extreme::Greatest, heap, args),
        Member::Min => orders::extreme(Extreme::Least, heap, args),
        Member::Sort => orders::sort(heap, args),
    }
}

/// The members of Collection, List and ArrayList in the order of their numbers in the catalogue, from 97.
static OF_LISTS: [Option<Member>; 28] = [
    Some(Member::Add),
    None,
    Some(Member::Clear),
    Some(Member::Contains),
    Some(Member::ContainsAll),
    Some(Member::IsEmpty),
    Some(Member::Remove),
    Some(Member::RemoveAll),
    Some(Member::RetainAll),
    Some(Member::Size),
    Some(Member::ToArray),
    None,
    None,
    None,
    None,
    None,
    Some(Member::AddAt),
    None,
    Some(Member::Get),
    Some(Member::Size),
    Some(Member::IndexOf),
    Some(Member::LastIndexOf),
    Some(Member::RemoveAt),
    None,
    Some(Member::Set),
    None,
    Some(Member::NewList),
    Some(Member::NewListOf),
];

/// The members of Collections, from 169.
static OF_MAKERS: [Option<Member>; 9] = [
    Some(Member::EmptyList),
    Some(Member::EmptyMap),
    Some(Member::Max),
    Some(Member::Min),
    Some(Member::Reverse),
    Some(Member::SingletonList),
    Some(Member::Sort),
    None,
    Some(Member::Swap),
];

#[tactic(auto, unfolding(crate::specs::Members::of_lists))]
fn of_lists() -> &'static [Option<Member>]
    ensures { result.now ≡ spec.of_lists }
{
    &OF_LISTS
}

#[tactic(auto, unfolding(crate::specs::Members::of_makers))]
fn of_makers() -> &'static [Option<Member>]
    ensures { result.now ≡ spec.of_makers }
{
    &OF_MAKERS
}

fn member_at(members: &[Option<Member>], at: usize) -> Option<Member>
    ensures { result ≡ spec.member_at members.now at }
{
    match members.get(at) {
        Some(member) => *member,
        None => None,
    }
}

#[tactic(auto, unfolding(crate::specs::Members::numbered))]
fn member_of(number: u32) -> Option<Member>
    ensures { result ≡ numbered number }
{
    if number == 89 {
        Some(Member::AsList)
    } else if number < 97 {
        None
    } else if number < 169 {
        member_at(of_lists(), (number - 97) as usize)
    } else {
        member_at(of_makers(), (number - 169) as usize)
    }
}

fn found_tells(heap: &Heap, member: Option<Member>, args: &[Value]) -> Outcome
    ensures { Tells (does_found heap.now.objects member args.now) result }
{
    match member {
        Some(member) => tells(heap, member, args),
        None => Outcome::Gives(Value::Null),
    }
}

// What the member of a number comes to.
fn comes_to(number: u32, heap: &Heap, args: &[Value]) -> Told
    ensures { Comes (spec.comes_to heap.now.objects number args.now) result }
{
    if number == 98 {
        taking::add_all(heap, args)
    } else if number == 114 {
        taking::add_all_at(heap, args)
    } else {
        Told::Says(found_tells(heap, member_of(number), args))
    }
}

/// The call of a member of Collection or List whose receiver is a list, of `asList` and `toArray` of any collection, of a
/// constructor of lists, or of a maker of Collections, by its number in the catalogue. The receiver is the first argument; a
/// constructor and a static member have none. A number that is no such member's gives null, and an argument that is missing or of
/// another kind counts as null.
///
/// `Thrown`: by `docs/CATALOGUE.md`, as the member says. `Room`: the charge is above the room left; it is for a new object its
/// weight, for each item that is added 1, and nothing for what is written or taken out; entries of a view that are taken are new
/// objects. `NoMemory`: there was none for what is made or added, or for a text that is given or written; nothing else takes any.
pub fn call(number: u32, heap: &mut Heap, args: &[Value]) -> Answer
    ensures does { Answers (told_effect heap.old (spec.comes_to heap.old.objects number args.now)) heap.old heap.new result }
    ensures memory { ToldWants (spec.comes_to heap.old.objects number args.now) result }
    ensures keeps { (rules : Rules) → Fits rules heap.old.objects → AllFit (length heap.old.objects) args.now → AnswerFits rules heap.new result }
{
    let told = comes_to(number, heap, args);
    told.settle(heap)
}
