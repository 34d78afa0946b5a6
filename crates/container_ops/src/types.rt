//! What is asked of types and values where an array is made, read or written, and what elements begin with.
ghost use Rattle.std.specs.Prelude.{◌≡◌, []};
ghost use Rattle.object_heap.specs.Fits.{has_type, is_primitive, is_type, kinds, layer_is_type};
ghost use Rattle.container_ops.specs.Making.{takes_sizes};
ghost use Rattle.container_ops.specs.Types as spec;

use number_ops::is_instance;
use object_heap::Heap;
use object_values::Value;
use pl_types::classes::PRELUDE;
use pl_types::{Primitive, Ty};

/// Whether a value is a primitive's.
fn is_primitive(primitive: Primitive, value: &Value) -> bool
    ensures { result ≡ is_primitive primitive value.now }
{
    match primitive {
        Primitive::Boolean => matches!(value, Value::Bool(_)),
        Primitive::Byte => matches!(value, Value::Byte(_)),
        Primitive::Short => matches!(value, Value::Short(_)),
        Primitive::Char => matches!(value, Value::Char(_)),
        Primitive::Int => matches!(value, Value::Int(_)),
        Primitive::Long => matches!(value, Value::Long(_)),
    }
}

/// Whether what is read or written as of a type goes with an array's elements.
pub fn goes_with(of: &Ty, elem: &Ty) -> bool
    ensures { result ≡ spec.goes_with of.now elem.now }
{
    if is_primitive_type(of) || is_primitive_type(elem) {
        elem.is(of)
    } else {
        true
    }
}

fn is_primitive_type(of: &Ty) -> bool
    ensures { result ≡ spec.is_primitive_type of.now }
{
    match of {
        Ty::Prim(_) => true,
        _ => false,
    }
}

/// Whether a value that is read as of a type may be: as of a primitive type one of it.
pub fn is_read_as(of: &Ty, value: &Value) -> bool
    ensures { result ≡ spec.is_read_as of.now value.now }
{
    match of {
        Ty::Prim(primitive) => is_primitive(*primitive, value),
        _ => true,
    }
}

fn takes_null(of: &Ty) -> bool
    ensures { result ≡ has_type [] of.now Value.Null }
{
    match of {
        Ty::Void => false,
        Ty::Null => false,
        Ty::Def => true,
        Ty::Prim(_) => false,
        Ty::Class(_) => true,
        Ty::Array(_) => true,
    }
}

/// Whether a value has a type.
#[tactic(auto, unfolding(number_ops::specs::Relations::is_instance))]
pub fn has_type(heap: &Heap, of: &Ty, value: &Value) -> bool
    ensures { result ≡ has_type (kinds heap.now.objects) of.now value.now }
{
    match value {
        Value::Null => takes_null(of),
        _ => is_instance(heap, value, of),
    }
}

/// Whether all values are of a type.
pub fn are_of_type(heap: &Heap, of: &Ty, values: &[Value]) -> bool
    ensures { result ≡ spec.are_of_type (kinds heap.now.objects) of.now values.now }
{
    let mut left = values;
    'values: while let [value, others @ ..] = left {
        if !has_type(heap, of, value) {
            return false;
        }
        left = others;
    }
    true
}

fn base_is_type(of: &Ty) -> bool
    ensures { result ≡ spec.base_is_type of.now }
{
    match of {
        Ty::Void => false,
        Ty::Null => false,
        Ty::Def => true,
        Ty::Prim(_) => true,
        Ty::Class(class) => *class < PRELUDE,
        Ty::Array(_) => false,
    }
}

/// Whether values have a type: def, a primitive, a class of the catalogue, or an array of these.
pub fn is_type(of: &Ty) -> bool
    ensures { result ≡ is_type of.now }
{
    let mut inner = of;
    'levels: while let Ty::Array(elem) = inner {
        inner = elem.get();
    }
    base_is_type(inner)
}

/// The type of the elements of an array type, and of every other type itself.
pub fn element_of(of: &Ty) -> &Ty
    ensures { result.now ≡ spec.element_of of.now }
{
    match of {
        Ty::Array(elem) => elem.get(),
        _ => of,
    }
}

/// Whether a type has so many `[]` at least, and one is wanted at least.
pub fn takes_sizes(of: &Ty, count: usize) -> bool
    ensures { result ≡ takes_sizes of.now count }
{
    let mut inner = of;
    'levels: for level in 0..count {
        match inner {
            Ty::Array(elem) => inner = elem.get(),
            _ => return false,
        }
    }
    0 < count
}

/// What an element of a type begins with: false, 0 or null.
pub fn default_of(of: &Ty) -> Value
    ensures { result ≡ spec.default_of of.now }
{
    match of {
        Ty::Prim(primitive) => default_of_primitive(*primitive),
        _ => Value::Null,
    }
}

fn default_of_primitive(primitive: Primitive) -> Value
    ensures { result ≡ spec.default_of_primitive primitive }
{
    match primitive {
        Primitive::Boolean => Value::Bool(false),
        Primitive::Byte => Value::Byte(0),
        Primitive::Short => Value::Short(0),
        Primitive::Char => Value::Char(0),
        Primitive::Int => Value::Int(0),
        Primitive::Long => Value::Long(0),
    }
}
