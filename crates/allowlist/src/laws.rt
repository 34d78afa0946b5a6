//! What holds of the catalogue and of every list.

ghost use Rattle.std.specs.Prelude.{◌≡◌, ℕ, List, Some, true, slice_get, length};
ghost use Rattle.pl_types.specs.Classes.{class_is_below, parents_of};
ghost use Rattle.allowlist.specs.declared.member.MemberKind.TheVariants.{Instance};
ghost use Rattle.allowlist.specs.declared.member.MemberType.{MemberType};
ghost use Rattle.allowlist.specs.Catalogue.{catalogue};
ghost use Rattle.allowlist.specs.Allow.{AllowList, own_member, member_of, members_in, or_else, first_along, flag, iface_method_of};

use pl_types::class_laws;

/// The laws of the catalogue, and of what a list gives.
pub fn catalogue_laws()
    // Two members of one class differ in their names or in their numbers of parameters.
    ensures apart { (i k : ℕ) (a b : MemberType) → slice_get catalogue i ≡ Some a → slice_get catalogue k ≡ Some b
        → a.owner ≡ b.owner → a.name ≡ b.name → length a.params ≡ length b.params → i ≡ k }
    // What is found is the class's own, else the first that a parent gives, in their order.
    ensures depth_first { (allow : AllowList) (class : ℕ) (name : List ℕ) (arity : ℕ) → member_of allow class name arity
        ≡ or_else (own_member allow class name arity) (first_along (λ parent. member_of allow parent name arity) (parents_of class)) }
    // What is found is in the list, and is called so.
    ensures allowed { (allow : AllowList) (class : ℕ) (name : List ℕ) (arity number : ℕ) → member_of allow class name arity ≡ Some number
        → (flag allow.members number ≡ true) × ((m : MemberType) × (slice_get (members_in allow) number ≡ Some m) × (m.name ≡ name) × (length m.params ≡ arity)) }
    // The owner of what is found is the class or stands above it.
    ensures above { (allow : AllowList) (class : ℕ) (name : List ℕ) (arity number : ℕ) → member_of allow class name arity ≡ Some number
        → (m : MemberType) × (slice_get (members_in allow) number ≡ Some m) × (class_is_below class m.owner ≡ true) }
    // The one method of a functional interface is an instance member of the interface or of what stands above it.
    ensures method { (class number : ℕ) → iface_method_of class ≡ Some number
        → (m : MemberType) × (slice_get catalogue number ≡ Some m) × (m.kind ≡ Instance) × (class_is_below class m.owner ≡ true) }
{
    class_laws();
}
