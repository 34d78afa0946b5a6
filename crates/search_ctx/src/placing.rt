//! The doc values of a document in a heap.

ghost use Rattle.std.specs.Prelude.{◌≡◌, [], IfOk, OnOk};
ghost use Rattle.search_ctx.specs.Placing.{doc_placed, lists_under, values_placed, with_list};

use crate::doc::FieldDoc;
use crate::fields::Fields;
use crate::values::FieldValues;
use object_heap::Heap;
use object_values::{Guard, Object, Pairs, Value};
use pl_types::classes::{HASH_MAP, SCRIPT_DOC_VALUES};
use pl_units::UText;
use std::alloc::AllocError;

/// Places the list of a field's values.
fn place_values(heap: &mut Heap, values: &FieldValues) -> Result<Value, AllocError>
    ensures value { IfOk result (λ value. value ≡ (values_placed heap.old.objects values.now).value) }
    ensures store { OnOk result (heap.new ≡ record heap.old { objects = (values_placed heap.old.objects values.now).objects }) }
{
    let items = values.to_values(heap.alloc())?;
    let list = Object::List {
        class: SCRIPT_DOC_VALUES,
        items,
        guard: Guard::Frozen,
        changes: 0,
    };
    Ok(Value::Ref(heap.place(list)?))
}

/// Places the list of a field's values, and puts it under the name of the field, which it shares.
fn place_field(
    heap: &mut Heap,
    pairs: &mut Pairs,
    name: &UText,
    values: &FieldValues,
) -> Result<(), AllocError>
    ensures pairs { OnOk result (pairs.new ≡ (with_list (record { pairs = pairs.old; objects = heap.old.objects }) name.now (values_placed heap.old.objects values.now)).pairs) }
    ensures store { OnOk result (heap.new ≡ record heap.old { objects = (values_placed heap.old.objects values.now).objects }) }
{
    let value = place_values(heap, values)?;
    let key = Value::Str(name.share()?);
    pairs.put(key, value)?;
    Ok(())
}

/// Places the list of each field's values, and gives the lists under these names.
pub(crate) fn place_lists(
    heap: &mut Heap,
    names: &[UText],
    doc: &[FieldValues],
) -> Result<Pairs, AllocError>
    ensures pairs { IfOk result (λ pairs. pairs ≡ (lists_under (record { pairs = []; objects = heap.old.objects }) doc.now names.now).pairs) }
    ensures store { OnOk result (heap.new ≡ record heap.old { objects = (lists_under (record { pairs = []; objects = heap.old.objects }) doc.now names.now).objects }) }
{
    let mut pairs = Pairs::new(heap.alloc(), heap.seed());
    let mut rest = doc;
    for name in names {
        let Some((values, behind)) = rest.split_first() else {
            return Ok(pairs);
        };
        place_field(heap, &mut pairs, name, values)?;
        rest = behind;
    }
    Ok(pairs)
}

/// Places the doc values of a document in a heap, as the map `doc`: under the name of each field a list of class
/// ScriptDocValues. Nothing may change the map or a list, and the map may be asked for the names of fields alone. What is
/// placed takes nothing from the room.
pub fn place_doc(heap: &mut Heap, fields: &Fields, doc: &FieldDoc) -> Result<Value, AllocError>
    ensures value { IfOk result (λ value. value ≡ (doc_placed heap.old.objects fields.now doc.now).value) }
    ensures store { OnOk result (heap.new ≡ record heap.old { objects = (doc_placed heap.old.objects fields.now doc.now).objects }) }
{
    let pairs = fields.place(heap, doc.as_slice())?;
    let map = Object::Map {
        class: HASH_MAP,
        pairs,
        guard: Guard::Mapped,
        changes: 0,
    };
    Ok(Value::Ref(heap.place(map)?))
}
