//! Which members are built, and the call of one.
ghost use Rattle.std.specs.Prelude.{◌≡◌, ◌&&◌, length, nat_le, nat_lt};
ghost use Rattle.pl_types.specs.Host.{no_host};
ghost use Rattle.object_heap.specs.Effects.{Answers};
ghost use Rattle.object_heap.specs.Fits.{Rules, Fits, AllFit};
ghost use Rattle.api_text.specs.Outcomes.{effect};
ghost use Rattle.member_calls.specs.Answers.{AnswersIfBuilt, WantsMemory, CallFits};
ghost use Rattle.member_calls.specs.Members.{does, given_by_host, is_built, is_of_host, is_of_numbers, is_of_texts};

use allowlist::MEMBER_COUNT;
use container_calls::is_of_containers;
use object_heap::{Answer, Heap, throw};
use object_values::Value;
use pl_types::classes::ILLEGAL_ARGUMENT_EXCEPTION;
use pl_units::UText;

fn is_within(member: u32, from: u32, to: u32) -> bool
    ensures { result ≡ (nat_le from member && nat_lt member to) }
{
    from <= member && member < to
}

fn is_of_numbers(member: u32) -> bool
    ensures { result ≡ is_of_numbers member }
{
    is_within(member, 0, 3) || is_within(member, 5, 58)
}

fn is_of_texts(member: u32) -> bool
    ensures { result ≡ is_of_texts member }
{
    is_within(member, 3, 5) || (is_within(member, 58, 86) || is_within(member, 194, 225))
}

#[tactic(auto, unfolding(crate::specs::Members::is_of_host))]
fn is_of_host(member: u32) -> bool
    ensures { result ≡ is_of_host member }
{
    MEMBER_COUNT <= member
}

// What a function of a host that gives none comes to.
#[tactic(auto, unfolding(api_text::specs::Outcomes::says))]
fn refuse(heap: &mut Heap) -> Answer
    ensures { Answers (effect heap.old (given_by_host None)) heap.old heap.new result }
{
    match UText::from_utf8(heap.alloc(), "host function refused") {
        Ok(message) => throw(heap, ILLEGAL_ARGUMENT_EXCEPTION, Some(message)),
        Err(_) => Answer::NoMemory,
    }
}

/// Whether the member of this number in the catalogue is built: those of the classes up to StringBuilder, of exceptions and of
/// containers are, but for those of the prelude and those that [`container_calls::is_of_containers`] leaves out; those of functions
/// and hidden ones are not.
#[tactic(auto, unfolding(crate::specs::Members::is_built))]
pub fn is_built(member: u32) -> bool
    ensures { result ≡ is_built member }
{
    (is_of_numbers(member) || is_of_texts(member)) || is_of_containers(member)
}

/// The call of a member by its number in the catalogue, `None` where it is not built. The receiver is the first argument; a
/// constructor and a static member have none, and a field is a member without arguments. An argument that is missing or of
/// another kind counts as null. The numbers behind the catalogue's are those of functions of a host, and the host gives none.
///
/// `Thrown`: by `docs/CATALOGUE.md`, as the member says. `Room`: the charge is above the room left; it is for a text its units
/// and 1, for a new object its weight, and for an object that changes what it grows by. `NoMemory`: there
/// was none for what is made; a member that gives what is there already takes none.
pub fn call(member: u32, heap: &mut Heap, args: &[Value]) -> Option<Answer>
    ensures does { AnswersIfBuilt (does no_host member args.now heap.old) heap.old heap.new result }
    ensures memory { WantsMemory heap.old.objects member args.now result }
    ensures keeps { (rules : Rules) → Fits rules heap.old.objects → AllFit (length heap.old.objects) args.now → CallFits rules heap.new result }
{
    if is_of_numbers(member) {
        Some(number_ops::call(member, heap, args))
    } else if is_of_texts(member) {
        Some(api_text::call(member, heap, args))
    } else if is_of_containers(member) {
        Some(container_calls::call(member, heap, args))
    } else if is_of_host(member) {
        Some(refuse(heap))
    } else {
        None
    }
}
