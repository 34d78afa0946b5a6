//! Types as they are written.

ghost use Rattle.std.specs.Prelude.{◌≡◌, IfOk};
ghost use Rattle.typing_rules.specs.Outcomes.{Keeps};
ghost use Rattle.typing_rules.specs.Rules.Types as spec;

use crate::refuse::refuse;
use pl_tree::{TypeBase, TypeName};
use pl_types::{Fail, Ty, classes, rules};
use plain_data::Boxed;
use std::alloc::{AllocError, Global};

/// Whether a class is built: those from Object to Collections, the boxes and the containers among them, those of exceptions, and
/// ScriptDocValues.
pub(crate) fn is_built_class(class: u32) -> bool
    ensures { result ≡ spec.is_built_class class }
{
    class <= classes::COLLECTIONS
        || (classes::EXCEPTION <= class && class <= classes::SCRIPT_DOC_VALUES)
}

/// Whether variables of a type are built.
pub(crate) fn is_built(of: &Ty) -> bool
    ensures { result ≡ spec.is_built of.now }
{
    match of {
        Ty::Prim(_) => true,
        Ty::Def => true,
        Ty::Class(class) => is_built_class(*class),
        Ty::Array(element) => is_built(element.get()),
        _ => false,
    }
}

fn base_of(at: u32, base: &TypeBase) -> Result<Ty, Fail>
    ensures { Keeps (spec.base_of at base.now) result }
{
    match base {
        TypeBase::Def => Ok(Ty::Def),
        TypeBase::Primitive(primitive) => Ok(Ty::Prim(*primitive)),
        TypeBase::Class(class) if is_built_class(*class) => Ok(Ty::Class(*class)),
        TypeBase::Class(_) => Err(refuse(rules::OUT_OF_PROFILE, at)),
        TypeBase::Name(_) => Err(refuse(rules::UNKNOWN_TYPE, at)),
    }
}

/// Arrays of a type, of so many dimensions.
pub(crate) fn arrays(alloc: Global, dimensions: usize, of: Ty) -> Result<Ty, AllocError>
    ensures { IfOk result (λ arrays. arrays ≡ spec.arrays dimensions of) }
{
    let mut arrays = of;
    let mut made = 0;
    while made < dimensions {
        arrays = Ty::Array(Boxed::new(alloc, arrays)?);
        made += 1;
    }
    Ok(arrays)
}

/// The type that is written. Built are the primitive types, def, some classes, and arrays of these.
///
/// UnknownType (6): a name that means no class. OutOfProfile (19): any other type.
pub fn type_of(alloc: Global, of: &TypeName) -> Result<Ty, Fail>
    ensures { Keeps (spec.type_of of.now) result }
{
    let base = base_of(of.at, &of.base)?;
    match arrays(alloc, of.brackets.len(), base) {
        Ok(of) => Ok(of),
        Err(_) => Err(Fail::NoMemory),
    }
}

fn is_void_name(of: &TypeName) -> bool
    ensures { result ≡ spec.names_void of.now }
{
    match &of.base {
        TypeBase::Name(name) => name.as_str() == "void" && of.brackets.is_empty(),
        _ => false,
    }
}

/// The type of a function's result, which may be the name `void`. The refusals are those of [`type_of`].
pub fn result_of(alloc: Global, of: &TypeName) -> Result<Ty, Fail>
    ensures { Keeps (spec.result_of of.now) result }
{
    if is_void_name(of) {
        return Ok(Ty::Void);
    }
    type_of(alloc, of)
}

fn caught_base(at: u32, base: &TypeBase) -> Result<u32, Fail>
    ensures { Keeps (spec.caught_base at base.now) result }
{
    match base {
        TypeBase::Def => Err(refuse(rules::BAD_CAST, at)),
        TypeBase::Primitive(_) => Err(refuse(rules::BAD_CAST, at)),
        TypeBase::Class(class) if *class < classes::PRELUDE => Ok(*class),
        TypeBase::Class(_) => Err(refuse(rules::OUT_OF_PROFILE, at)),
        TypeBase::Name(_) => Err(refuse(rules::UNKNOWN_TYPE, at)),
    }
}

/// The class whose instances a catch takes: any that scripts may name, also one that no exception is of.
///
/// UnknownType (6): a name that means no class. BadCast (9): def, a primitive type or an array. OutOfProfile (19): a class that no
/// script may name.
pub fn caught_class(of: &TypeName) -> Result<u32, Fail>
    ensures { Keeps (spec.caught_class of.now) result }
{
    let class = caught_base(of.at, &of.base)?;
    if !of.brackets.is_empty() {
        return Err(refuse(rules::BAD_CAST, of.at));
    }
    Ok(class)
}
