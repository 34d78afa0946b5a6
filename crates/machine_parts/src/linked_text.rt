//! The code of a text, ready to run.
ghost use Rattle.std.specs.Prelude.{◌≡◌, ◌≤◌, ◌<◌, ℕ, length, slice_get, option_map, IfOk};
ghost use Rattle.std.specs.Option.{option_copied};
ghost use Rattle.allowlist.specs.Index.{member_in};
ghost use Rattle.code_meaning.specs.Members.{count_of};
ghost use Rattle.def_access.specs.Coming.{NameListed};
ghost use Rattle.def_resolve.specs.Accesses as access;
ghost use Rattle.machine_parts.specs.Handlers.{linked_traps};
ghost use Rattle.machine_parts.specs.Links.{lines_in, link_of, links_of, links_in, member_link, method_link, text_link, type_link};
ghost use Rattle.pl_types.specs.Texts.{type_of_full};

use crate::handlers::Handlers;
use crate::index_table::IndexTable;
use crate::linked_code::LinkedCode;
use crate::method_table::MethodTable;
use allowlist::{Allow, MemberKind, MemberType};
use def_resolve::{IndexAccess, NameAccess, Purpose};
use instruction_types::{constructor_of, field_of, method_of};
use object_heap::Heap;
use object_values::Value;
use pl_code::{Code, FunCode, Instruction, TypeName, Word};
use pl_types::Ty;
use pl_units::UText;
use plain_data::{Items, Text};
use std::alloc::{AllocError, Global};
use std::marker::Model;

/// The number of a member of a list.
#[derive(Drop)]
pub struct MemberNumber {
    number: u32,
}

impl Model for MemberNumber {
    ghost use Rattle.std.specs.Prelude.{ℕ};

    ghost Value = { ℕ };

    ghost view = { λ m. m.number };
}

impl MemberNumber {
    /// A number below that of the catalogue's members.
    pub fn new(number: u32) -> MemberNumber
        ensures { result ≡ number }
    {
        MemberNumber { number }
    }

    /// The number.
    pub fn number(&self) -> u32
        ensures { result ≡ self.now }
    {
        self.number
    }
}

/// What an instruction names, or its text.
pub enum Link {
    /// Nothing, or nothing that is there.
    Nothing,
    Member(MemberNumber),
    Type(Ty),
    /// A text constant, or a name.
    Text(UText),
    /// What a call of a method means on a value of each class.
    Methods(MethodTable),
}

impl Drop for Link {
    fn drop(self) {
        match self {
            Link::Nothing => {}
            Link::Member(_number) => {}
            Link::Type(_of) => {}
            Link::Text(_text) => {}
            Link::Methods(_methods) => {}
        }
    }
}

/// The code of a text with the list of the members that it may call. What its instructions name is found once, when it is made.
#[derive(Drop)]
pub struct LinkedText {
    code: LinkedCode,
    allow: Allow,
    /// What each line of each function names.
    links: Items<Items<Link>>,
    /// By which members an index reads and writes.
    indexes: IndexTable,
    /// What the member that takes most is called with.
    arguments: usize,
}

impl Model for LinkedText {
    ghost use Rattle.std.specs.Prelude.{ℕ, ◌≡◌, ◌≤◌, ◌<◌, length};
    ghost use Rattle.allowlist.specs.Index.{member_in};
    ghost use Rattle.code_meaning.specs.Members.{count_of};
    ghost use Rattle.machine_parts.specs.Code.{TextCode};
    ghost use Rattle.machine_parts.specs.Indexes.{index_rows};
    ghost use Rattle.machine_parts.specs.Links.{links_in};
    ghost use Rattle.std.specs.Coded.{codes};
    ghost use Rattle.pl_types.specs.contracts.ty.Ty as ty;
    ghost use Rattle.pl_types.specs.declared.classes.TheConstants.{CLASS_COUNT};

    ghost Value = { TextCode };

    ghost coded = { Prim.hlevel (codes, ty.the_row.coded) };

    ghost view = { λ t. record { code = t.code; allow = t.allow } };

    ghost invariant = { λ t. (t.links ≡ links_in t.allow t.code.functions) × (t.indexes ≡ index_rows t.allow CLASS_COUNT) × ((number : ℕ) → number < length t.allow.members → count_of (member_in t.allow number) ≤ t.arguments) };
}

impl LinkedText {
    /// The code of a text that may call the members of this list.
    ///
    /// # Errors
    ///
    /// Want of memory.
    pub fn new(alloc: Global, code: Code, allow: Allow) -> Result<LinkedText, AllocError>
        ensures { IfOk result (λ text. text ≡ record { code = code; allow = allow }) }
    {
        let links = links_in(alloc, &allow, code.functions.as_slice())?;
        let indexes = IndexTable::new(alloc, &allow)?;
        let arguments = most_arguments(&allow);
        Ok(LinkedText {
            code: LinkedCode::new(alloc, code)?,
            allow,
            links,
            indexes,
            arguments,
        })
    }

    /// The code.
    pub fn code(&self) -> &Code
        ensures { result.now ≡ self.now.code }
    {
        self.code.code()
    }

    /// The members that it may call.
    pub fn allow(&self) -> &Allow
        ensures { result.now ≡ self.now.allow }
    {
        &self.allow
    }

    /// How many members the list has.
    pub fn members(&self) -> usize
        ensures { result ≡ length self.now.allow.members }
    {
        self.allow.member_count() as usize
    }

    /// A member of the list.
    pub fn member(&self, number: u32) -> &MemberType
        requires { number < length self.now.allow.members }
        ensures { result.now ≡ member_in self.now.allow number }
    {
        self.allow.member_type(number)
    }

    /// What the member that takes most is called with.
    pub fn arguments(&self) -> usize
        ensures { (number : ℕ) → number < length self.now.allow.members → count_of (member_in self.now.allow number) ≤ result }
    {
        self.arguments
    }

    /// The function of a number.
    #[inline(always)]
    pub fn function(&self, number: u32) -> Option<&FunCode>
        ensures { option_copied result ≡ slice_get self.now.code.functions number }
    {
        self.code.function(number)
    }

    /// The handlers of the function of a number.
    pub fn handlers(&self, number: u32) -> Option<&Handlers>
        ensures { option_copied result ≡ option_map linked_traps (slice_get self.now.code.functions number) }
    {
        self.code.handlers(number)
    }

    /// What the instruction at a line of a function names.
    #[inline(always)]
    pub fn link(&self, function: u32, line: usize) -> Option<&Link>
        ensures { option_copied result ≡ option_map (link_of self.now.allow) (slice_get (lines_in (slice_get self.now.code.functions function)) line) }
    {
        self.links.get(function as usize)?.get(line)
    }

    /// What an index in brackets of a value means, to read or to write it.
    #[inline(always)]
    pub fn index_access(
        &self,
        heap: &Heap,
        receiver: &Value,
        purpose: Purpose,
    ) -> Option<IndexAccess>
        ensures { result ≡ access.index_access purpose self.now.allow heap.now.objects receiver.now }
    {
        self.indexes.access(&self.allow, heap, receiver, purpose)
    }

    /// What a name behind a dot of a value means, to read or to write it.
    pub fn name_access(
        &self,
        heap: &Heap,
        receiver: &Value,
        name: &str,
        purpose: Purpose,
    ) -> Option<NameAccess>
        ensures exact { result ≡ access.name_access purpose self.now.allow heap.now.objects receiver.now name.now }
        ensures listed { NameListed self.now.allow result }
    {
        self.indexes
            .name_access(&self.allow, heap, receiver, name, purpose)
    }
}

/// How many words a call takes.
pub fn count_of(called: &MemberType) -> usize
    ensures { result ≡ count_of called.now }
{
    let params = called.params.as_slice().len();
    match called.kind {
        MemberKind::Instance => params + 1,
        MemberKind::Static => params,
        MemberKind::Constructor => params,
        MemberKind::Field => 0,
    }
}

// What the member that takes most is called with.
#[tactic(auto, using(crate::proofs::Most::one_more))]
fn most_arguments(allow: &Allow) -> usize
    ensures { (number : ℕ) → number < length allow.now.members → count_of (member_in allow.now number) ≤ result }
{
    let mut most = 0;
    for number in 0..allow.member_count() {
        most = count_of(allow.member_type(number)).max(most);
    }
    most
}

fn links_in(
    alloc: Global,
    allow: &Allow,
    functions: &[FunCode],
) -> Result<Items<Items<Link>>, AllocError>
    ensures { IfOk result (λ links. links ≡ links_in allow.now functions.now) }
{
    let mut links = Items::new(alloc);
    for function in functions {
        links.push(links_of(alloc, allow, function)?)?;
    }
    Ok(links)
}

fn links_of(alloc: Global, allow: &Allow, function: &FunCode) -> Result<Items<Link>, AllocError>
    ensures { IfOk result (λ links. links ≡ links_of allow.now function.now) }
{
    let mut links = Items::new(alloc);
    for line in function.lines.as_slice() {
        links.push(link_of(alloc, allow, line)?)?;
    }
    Ok(links)
}

#[tactic(auto, unfolding(crate::specs::Links::link_of))]
fn link_of(alloc: Global, allow: &Allow, line: &Instruction) -> Result<Link, AllocError>
    ensures { IfOk result (λ link. link ≡ link_of allow.now line.now) }
{
    match line {
        Instruction::Typed(_, of) => type_link(alloc, of),
        Instruction::Sized(_, of, _) => type_link(alloc, of),
        Instruction::Cast(to, _) => type_link(alloc, to),
        Instruction::Invoke(method) => Ok(member_link(method_of(allow, method))),
        Instruction::New(constructor) => Ok(member_link(constructor_of(allow, constructor))),
        Instruction::Field(field) => Ok(member_link(field_of(allow, field))),
        Instruction::Quoted(_, text) => text_link(alloc, text),
        Instruction::DefCall(name, count) => method_link(alloc, allow, name, *count),
        _ => Ok(Link::Nothing),
    }
}

fn type_link(alloc: Global, of: &TypeName) -> Result<Link, AllocError>
    ensures { IfOk result (λ link. link ≡ type_link (type_of_full of.now)) }
{
    match Ty::of_full_text(alloc, of.as_str().as_bytes())? {
        Some(of) => Ok(Link::Type(of)),
        None => Ok(Link::Nothing),
    }
}

// A text is converted from its bytes here, once for all its loads, and a name once for all maps of which it is a key.
fn text_link(alloc: Global, text: &Text) -> Result<Link, AllocError>
    ensures { IfOk result (λ link. link ≡ text_link text.now) }
{
    Ok(Link::Text(UText::from_utf8(alloc, text.as_str())?))
}

// The member that a name means is found here, once for all calls at this place.
fn method_link(alloc: Global, allow: &Allow, name: &Word, count: u32) -> Result<Link, AllocError>
    ensures { IfOk result (λ link. link ≡ method_link allow.now name.now count) }
{
    Ok(Link::Methods(MethodTable::new(alloc, allow, name.as_str(), count)?))
}

fn member_link(number: Option<u32>) -> Link
    ensures { result ≡ member_link number }
{
    match number {
        Some(number) => Link::Member(MemberNumber::new(number)),
        None => Link::Nothing,
    }
}
