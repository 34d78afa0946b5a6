//! What keeps the types of values, and which types casts, texts and members give.
ghost use Rattle.value_typing.specs.Laws.{
  AllTypesStay,
  BoxedIsTyped,
  CastsGiveTypes,
  ClassesWiden,
  ComparisonsGiveFlags,
  ContainersGiveTypes,
  ElementsAreTyped,
  EqualityGivesTypes,
  HostKeepsTypes,
  KeptIsTyped,
  MembersKeepTypes,
  NullIsTyped,
  StoresBegin,
  StoresGoOn,
  TextsGiveTypes,
  TypedCallsPass,
  TypesStay,
};

/// Laws that callers may cite: values stay of their types as a run goes on, a value of a class is of each class above it, an element
/// of an array is of the element type, and what casts keep, put in a box or make, what concatenations and comparisons give, and what
/// the language itself makes of containers and reads of arrays, is of its type.
pub fn values_keep_types()
    ensures begin { StoresBegin }
    ensures go_on { StoresGoOn }
    ensures stay { TypesStay }
    ensures all_stay { AllTypesStay }
    ensures widen { ClassesWiden }
    ensures null { NullIsTyped }
    ensures elements { ElementsAreTyped }
    ensures kept { KeptIsTyped }
    ensures boxed { BoxedIsTyped }
    ensures casts { CastsGiveTypes }
    ensures texts { TextsGiveTypes }
    ensures comparisons { ComparisonsGiveFlags }
    ensures equality { EqualityGivesTypes }
    ensures containers { ContainersGiveTypes }
{}

/// Laws that callers may cite: in a store that fits, a member that is built and is called with values of its types gives a value of its
/// result type in the store that it leaves, a function of the host gives a long, and what either throws is an exception. The test that
/// such a call makes of the classes of its values passes.
pub fn members_keep_types()
    ensures members { MembersKeepTypes }
    ensures tested { TypedCallsPass }
    ensures host { HostKeepsTypes }
{}
