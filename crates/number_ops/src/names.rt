//! The names of values' classes and of operators, as messages have them.
ghost use Rattle.std.specs.Prelude.{◌≡◌, ◌++◌, OnOk};
ghost use Rattle.std.specs.String.{string_bytes};
ghost use Rattle.pl_types.specs.Classes.{short_name};
ghost use Rattle.object_heap.specs.Fits.{class_of_view};
ghost use Rattle.number_ops.specs.Names as spec;
ghost use Rattle.number_ops.specs.Names.{name_of, sign_of, name_of_object, name_of_class};

use arithmetic::Op;
use object_heap::Heap;
use object_values::{Object, Part, Value};
use pl_types::classes::{
    BOOLEAN, BYTE, CHARACTER, COLLECTION, ENTRY, INTEGER, ITERATOR, LONG, SET, SHORT, STRING,
    STRING_BUILDER,
};
use pl_types::{ClassNames, Ty, push_type};
use std::alloc::AllocError;

fn push_class(text: &mut String, class: u32) -> Result<(), AllocError>
    ensures { OnOk result (string_bytes text.new ≡ string_bytes text.old ++ short_name class) }
{
    push_type(text, &Ty::Class(class), ClassNames::Short)
}

/// Writes the short name of a value's class; of an array its type, and of a function value without an interface `lambda`.
pub fn push_name(text: &mut String, heap: &Heap, value: &Value) -> Result<(), AllocError>
    ensures { OnOk result (string_bytes text.new ≡ string_bytes text.old ++ name_of heap.now.objects value.now) }
{
    match value {
        Value::Null => text.push_str("null"),
        Value::Bool(_) => push_class(text, BOOLEAN),
        Value::Byte(_) => push_class(text, BYTE),
        Value::Short(_) => push_class(text, SHORT),
        Value::Char(_) => push_class(text, CHARACTER),
        Value::Int(_) => push_class(text, INTEGER),
        Value::Long(_) => push_class(text, LONG),
        Value::Str(_) => push_class(text, STRING),
        Value::Ref(id) => match heap.get(*id) {
            Some(object) => push_object_name(text, object),
            None => Ok(()),
        },
    }
}

fn push_object_name(text: &mut String, object: &Object) -> Result<(), AllocError>
    ensures { OnOk result (string_bytes text.new ≡ string_bytes text.old ++ name_of_object object.now) }
{
    match object {
        Object::List { class, .. } => push_class(text, *class),
        Object::Map { class, .. } => push_class(text, *class),
        Object::Set { class, .. } => push_class(text, *class),
        Object::Array { elem, .. } => push_array(text, elem),
        Object::View { part, .. } => push_class(text, class_of_view(*part)),
        Object::Entry { .. } => push_class(text, ENTRY),
        Object::Iter { .. } => push_class(text, ITERATOR),
        Object::Builder { .. } => push_class(text, STRING_BUILDER),
        Object::Fun { iface, .. } => push_interface(text, *iface),
        Object::Exc { class, .. } => push_class(text, *class),
    }
}

fn push_interface(text: &mut String, class: Option<u32>) -> Result<(), AllocError>
    ensures { OnOk result (string_bytes text.new ≡ string_bytes text.old ++ name_of_class class) }
{
    match class {
        Some(class) => push_class(text, class),
        None => text.push_str("lambda"),
    }
}

fn push_array(text: &mut String, elem: &Ty) -> Result<(), AllocError>
    ensures { OnOk result (string_bytes text.new ≡ string_bytes text.old ++ spec.array_name elem.now) }
{
    push_type(text, elem, ClassNames::Short)?;
    text.push_str("[]")
}

/// The class of a view.
pub fn class_of_view(part: Part) -> u32
    ensures { result ≡ class_of_view part }
{
    match part {
        Part::Keys => SET,
        Part::Values => COLLECTION,
        Part::Entries => SET,
    }
}

/// The sign of an operator.
pub fn sign_of(op: Op) -> &'static str
    ensures { result.now ≡ sign_of op }
{
    match op {
        Op::Add => "+",
        Op::Sub => "-",
        Op::Mul => "*",
        Op::Div => "/",
        Op::Rem => "%",
        Op::And => "&",
        Op::Or => "|",
        Op::Xor => "^",
        Op::Shl => "<<",
        Op::Shr => ">>",
        Op::Ushr => ">>>",
        Op::Neg => "-",
        Op::Not => "~",
        Op::Pos => "+",
        Op::Lt => "<",
        Op::Le => "<=",
        Op::Gt => ">",
        Op::Ge => ">=",
        Op::Eq => "==",
        Op::Ne => "!=",
    }
}
