//! What is tested of a member's call before it is paid: the classes of the receiver and of the arguments.
ghost use Rattle.std.specs.Prelude.{◌≡◌, ◌||◌};
ghost use Rattle.number_ops.specs.Operators.{is_null};
ghost use Rattle.number_ops.specs.Relations as relations;
ghost use Rattle.allowlist.specs.declared.member.MemberKind.TheVariants as kind;
ghost use Rattle.run_state.specs.Calls as spec;

use allowlist::{MemberKind, MemberType};
use number_ops::is_instance;
use object_heap::Heap;
use object_values::Value;
use pl_types::Ty;

/// Whether a member may be called with these values, the receiver first: each is of the class that the member names.
#[tactic(auto, unfolding(run_state::specs::Calls::suits_member))]
pub fn suits_member(heap: &Heap, called: &MemberType, values: &[Value]) -> bool
    ensures { result ≡ spec.suits_member heap.now.objects called.now values.now }
{
    let params = called.params.as_slice();
    match called.kind {
        MemberKind::Instance => on_instance(heap, called.owner, params, values),
        MemberKind::Static => arguments_suit(heap, params, values),
        MemberKind::Constructor => arguments_suit(heap, params, values),
        MemberKind::Field => arguments_suit(heap, params, values),
    }
}

// The receiver is an instance of the class that has the member.
fn on_instance(heap: &Heap, owner: u32, params: &[Ty], values: &[Value]) -> bool
    ensures { result ≡ spec.suits_by kind.Instance owner params.now heap.now.objects values.now }
{
    match values {
        [receiver, arguments @ ..] => {
            let owner = Ty::Class(owner);
            is_instance(heap, receiver, &owner) && arguments_suit(heap, params, arguments)
        }
        [] => true,
    }
}

// Whether each argument is one that its parameter takes.
fn arguments_suit(heap: &Heap, params: &[Ty], values: &[Value]) -> bool
    ensures { result ≡ spec.arguments_suit heap.now.objects params.now values.now }
{
    let mut types = params;
    let mut arguments = values;
    'arguments: while let [of, others @ ..] = types {
        match arguments {
            [value, rest @ ..] => {
                if !argument_suits(heap, of, value) {
                    return false;
                }
                arguments = rest;
            }
            [] => return true,
        }
        types = others;
    }
    true
}

fn argument_suits(heap: &Heap, of: &Ty, value: &Value) -> bool
    ensures { result ≡ spec.argument_suits heap.now.objects of.now value.now }
{
    match of {
        Ty::Void => true,
        Ty::Null => true,
        Ty::Def => true,
        Ty::Prim(_) => true,
        Ty::Class(_) => is_null_or(heap, of, value),
        Ty::Array(_) => is_null_or(heap, of, value),
    }
}

// Null, or an instance of a type.
fn is_null_or(heap: &Heap, of: &Ty, value: &Value) -> bool
    ensures { result ≡ (is_null value.now || relations.is_instance heap.now.objects value.now of.now) }
{
    match value {
        Value::Null => true,
        _ => is_instance(heap, value, of),
    }
}
