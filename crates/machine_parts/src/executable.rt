//! Code that is ready to run: the script's, and the prelude's.
ghost use Rattle.std.specs.Prelude.{◌≡◌, ◌≤◌, ◌<◌, ◌^◌, suc, length, slice_get, option_map, IfOk, IfSome, OnSome};
ghost use Rattle.std.specs.Option.{option_copied};
ghost use Rattle.allowlist.specs.Index.{member_in};
ghost use Rattle.def_access.specs.Coming.{NameListed};
ghost use Rattle.def_resolve.specs.Accesses as access;
ghost use Rattle.code_meaning.specs.Machine.{code_in, function_of};
ghost use Rattle.machine_parts.specs.Code.{codes_in, text_of};
ghost use Rattle.machine_parts.specs.Handlers.{linked_traps};
ghost use Rattle.machine_parts.specs.Links.{instruction_at, link_at, linked_member, methods_in};
ghost use Rattle.machine_parts.specs.Rooms.{ArgumentsWithin, MembersWithin};

use crate::frames::Frames;
use crate::handlers::Handlers;
use crate::linked_text::{Link, LinkedText};
use crate::method_table::MethodTable;
use allowlist::{Allow, MemberType};
use def_resolve::{IndexAccess, NameAccess, Purpose};
use object_heap::Heap;
use object_values::{Owner, Value};
use pl_code::{Code, FunCode, Instruction};
use std::alloc::{AllocError, Global};
use std::marker::Model;
use std::rc::Rc;

/// The code of the script's text and that of the prelude's, which many scripts share.
#[derive(Drop)]
pub struct Executable {
    script: LinkedText,
    prelude: Rc<LinkedText>,
    /// For how many words there is memory in each frame of a run.
    frame: usize,
}

impl Model for Executable {
    ghost use Rattle.machine_parts.specs.Code.{Executable};
    ghost use Rattle.std.specs.Coded.{codes};
    ghost use Rattle.pl_types.specs.contracts.ty.Ty as ty;

    ghost Value = { Executable };

    ghost coded = { Prim.hlevel (codes, ty.the_row.coded) };

    ghost view = { λ e. record { script = e.script; prelude = e.prelude.value; frame = e.frame } };
}

impl Executable {
    /// The code of a script that may call the members of this list, beside the prelude's. A run takes memory at its start for so many
    /// words in each frame, locals and operands, up to a bound. Of verified code the verifier tells this number; what a run needs beyond
    /// it is taken as it comes.
    ///
    /// # Errors
    ///
    /// Want of memory.
    pub fn new(
        alloc: Global,
        code: Code,
        allow: Allow,
        prelude: Rc<LinkedText>,
        frame: usize,
    ) -> Result<Executable, AllocError>
        ensures { IfOk result (λ e. e ≡ record { script = record { code = code; allow = allow }; prelude = prelude.value; frame = frame }) }
    {
        Ok(Executable {
            script: LinkedText::new(alloc, code, allow)?,
            prelude,
            frame,
        })
    }

    /// The script's text.
    #[inline(always)]
    pub fn script(&self) -> &LinkedText
        ensures { result.now ≡ self.now.script }
    {
        &self.script
    }

    /// The prelude's text.
    #[inline(always)]
    pub fn prelude(&self) -> &LinkedText
        ensures { result.now ≡ self.now.prelude }
    {
        self.prelude.as_ref()
    }

    /// The text in which the function of the newest frame stands.
    #[inline(always)]
    pub fn text_at(&self, frames: &Frames) -> &LinkedText
        ensures { result.now ≡ text_of self.now frames.now.top.text }
    {
        match frames.text() {
            Owner::Script => self.script(),
            Owner::Prelude => self.prelude(),
        }
    }

    /// For how many words there is memory in each frame.
    pub fn frame(&self) -> usize
        ensures { result ≡ self.now.frame }
    {
        self.frame
    }

    /// How many members the longer of the lists has that the texts may call.
    pub fn members(&self) -> usize
        ensures { MembersWithin self.now result }
    {
        let one = self.script().members();
        let other = self.prelude().members();
        larger(one, other)
    }

    /// What the member that takes most is called with.
    pub fn arguments(&self) -> usize
        ensures { ArgumentsWithin self.now result }
    {
        let one = self.script().arguments();
        let other = self.prelude().arguments();
        larger(one, other)
    }

    /// The members that the newest frame's text may call.
    pub fn allow(&self, frames: &Frames) -> &Allow
        ensures { result.now ≡ (text_of self.now frames.now.top.text).allow }
    {
        self.text_at(frames).allow()
    }

    /// A member of that list.
    pub fn member(&self, frames: &Frames, number: u32) -> &MemberType
        requires { number < length (text_of self.now frames.now.top.text).allow.members }
        ensures { result.now ≡ member_in (text_of self.now frames.now.top.text).allow number }
    {
        self.text_at(frames).member(number)
    }

    /// What an index in brackets of a value means there, to read or to write it.
    #[inline(always)]
    pub fn index_access(
        &self,
        frames: &Frames,
        heap: &Heap,
        receiver: &Value,
        purpose: Purpose,
    ) -> Option<IndexAccess>
        ensures { result ≡ access.index_access purpose (text_of self.now frames.now.top.text).allow heap.now.objects receiver.now }
    {
        self.text_at(frames).index_access(heap, receiver, purpose)
    }

    /// What a name behind a dot of a value means there, to read or to write it.
    pub fn name_access(
        &self,
        frames: &Frames,
        heap: &Heap,
        receiver: &Value,
        name: &str,
        purpose: Purpose,
    ) -> Option<NameAccess>
        ensures exact { result ≡ access.name_access purpose (text_of self.now frames.now.top.text).allow heap.now.objects receiver.now name.now }
        ensures listed { NameListed (text_of self.now frames.now.top.text).allow result }
    {
        self.text_at(frames)
            .name_access(heap, receiver, name, purpose)
    }

    /// The function of this number, in the code of the newest frame's text.
    #[inline(always)]
    pub fn function_at(&self, frames: &Frames, number: u32) -> Option<&FunCode>
        ensures { option_copied result ≡ slice_get (code_in (codes_in self.now) frames.now.top.text) number }
    {
        match frames.text() {
            Owner::Script => self.script().function(number),
            Owner::Prelude => self.prelude().function(number),
        }
    }

    /// The handlers of the newest frame's function.
    pub fn handlers(&self, frames: &Frames) -> Option<&Handlers>
        ensures { option_copied result ≡ option_map linked_traps (function_of (codes_in self.now) frames.now.top) }
    {
        match frames.text() {
            Owner::Script => self.script().handlers(frames.fun()),
            Owner::Prelude => self.prelude().handlers(frames.fun()),
        }
    }

    /// The instruction at which the newest frame stands. Where there is one, there is a number for the next line.
    #[inline(always)]
    pub fn instruction(&self, frames: &Frames) -> Option<&Instruction>
        ensures instruction { option_copied result ≡ instruction_at self.now frames.now.top }
        ensures next { OnSome result (suc frames.now.top.line < 2 ^ 64) }
    {
        let found = self.function_at(frames, frames.fun())?;
        let line = frames.line();
        if line >= found.lines.len() {
            return None;
        }
        found.lines.get(line)
    }

    /// What the instruction at which the newest frame stands names. A member is one of the list of that frame's text.
    #[inline(always)]
    pub fn link(&self, frames: &Frames) -> Option<&Link>
        ensures link { option_copied result ≡ link_at self.now frames.now.top }
        ensures within { IfSome (linked_member (option_copied result)) (λ number. number < length (text_of self.now frames.now.top.text).allow.members) }
    {
        self.named_at(frames)
    }

    /// What a call of a method means there on a value of each class.
    pub fn methods(&self, frames: &Frames) -> Option<&MethodTable>
        ensures { option_copied result ≡ methods_in (link_at self.now frames.now.top) }
    {
        match self.named_at(frames) {
            Some(Link::Methods(methods)) => Some(methods),
            _ => None,
        }
    }

    #[inline(always)]
    fn named_at(&self, frames: &Frames) -> Option<&Link>
        ensures { option_copied result ≡ link_at self.now frames.now.top }
    {
        match frames.text() {
            Owner::Script => self.script().link(frames.fun(), frames.line()),
            Owner::Prelude => self.prelude().link(frames.fun(), frames.line()),
        }
    }
}

// The larger of two numbers.
fn larger(one: usize, other: usize) -> usize
    ensures one { one ≤ result }
    ensures other { other ≤ result }
{
    one.max(other)
}
