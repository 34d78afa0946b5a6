//! What a call of a method means on a value of each class, which is found once, before the code runs.
ghost use Rattle.std.specs.Prelude.{◌≡◌, IfOk, slice_get};
ghost use Rattle.def_resolve.specs.Resolution.{class_of};
ghost use Rattle.def_access.specs.Coming as coming;
ghost use Rattle.def_access.specs.Coming.{ComesOn};
ghost use Rattle.machine_parts.specs.Links.{methods_of, target_for_first, target_in};

use allowlist::Allow;
use def_access::{Accessed, call_found, method_called};
use def_resolve::{Callee, class_of, resolve};
use object_heap::Heap;
use object_values::Value;
use pl_types::classes::CLASS_COUNT;
use std::alloc::{AllocError, Global};
use std::marker::Model;

/// What a call of a name with a number of arguments means on a value of each class.
#[derive(Drop)]
pub struct MethodTable {
    /// By the numbers of the classes.
    targets: Vec<Option<Callee>>,
}

impl Model for MethodTable {
    ghost use Rattle.std.specs.Prelude.{List, Option};
    ghost use Rattle.std.specs.Coded.{coded_list, coded_option};
    ghost use Rattle.def_resolve.specs.declared.callee.Callee.{Callee};
    ghost use Rattle.def_resolve.specs.contracts.callee.Callee as callee;

    ghost Value = { List (Option Callee) };

    ghost coded = { coded_list (coded_option callee.the_row.coded) };

    ghost view = { λ t. t.targets.items };
}

impl MethodTable {
    /// The table of a name and a number of arguments, with the members of a list.
    #[tactic(auto, unfolding(crate::specs::Links::methods_of))]
    pub fn new(
        alloc: Global,
        allow: &Allow,
        name: &str,
        arity: u32,
    ) -> Result<MethodTable, AllocError>
        ensures { IfOk result (λ table. table ≡ methods_of allow.now name.now arity) }
    {
        let mut targets = Vec::with_capacity(alloc, CLASS_COUNT as usize)?;
        for class in 0..CLASS_COUNT {
            targets.push(resolve(allow, class, name, arity))?;
        }
        Ok(MethodTable { targets })
    }

    /// What is found for a class; `None` for what is no class of the catalogue.
    #[inline(always)]
    pub fn target(&self, class: u32) -> Option<Option<Callee>>
        ensures { result ≡ slice_get self.now class }
    {
        self.targets.get(class as usize).copied()
    }
}

// What a call on a value means, where the table tells it.
#[inline(always)]
fn target_on(heap: &Heap, methods: &MethodTable, receiver: &Value) -> Option<Option<Callee>>
    ensures { result ≡ target_in methods.now (class_of heap.now.objects receiver.now) }
{
    methods.target(class_of(heap, receiver)?)
}

// What a call on the first of these values means, where the table of the name and so many arguments tells it.
#[inline(always)]
fn found_on(
    heap: &Heap,
    methods: &MethodTable,
    count: u32,
    values: &[Value],
) -> Option<Option<Callee>>
    ensures { result ≡ target_for_first methods.now count heap.now.objects values.now }
{
    match values {
        [receiver, arguments @ ..] => {
            if arguments.len() == count as usize {
                target_on(heap, methods, receiver)
            } else {
                None
            }
        }
        [] => None,
    }
}

/// What a call comes to, `x.f(a)`, as [`def_access::method_called`] says it. What the name means on a value of the receiver's class is
/// taken from the table, in which nothing is looked up; a value that has no class is seen to by name.
pub fn method_by_class(
    allow: &Allow,
    heap: &mut Heap,
    methods: &MethodTable,
    name: &str,
    count: u32,
    values: &mut [Value],
) -> Accessed
    requires { methods.now ≡ methods_of allow.now name.now count }
    ensures { ComesOn (coming.method_called_on allow.now heap.old name.now values.old) heap.old heap.new values.new result }
{
    match found_on(heap, methods, count, values) {
        Some(found) => call_found(allow, heap, name, values, found),
        None => method_called(allow, heap, name, values),
    }
}
