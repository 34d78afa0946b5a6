//! The parts of a list, made anew.

ghost use Rattle.std.specs.Prelude.{◌≡◌, map, true, false, IfOk};
ghost use Rattle.allowlist.specs.Catalogue.{catalogue};
ghost use Rattle.allowlist.specs.Allow.{flags};
ghost use Rattle.allowlist.specs.Rows.{seen_row, seen_type, seen_element, seen_kind, seen_origin};

use crate::member::{MemberKind, MemberType, Origin};
use crate::table::{Element, How, Row, TypeRow, rows};
use pl_types::Ty;
use plain_data::{Boxed, Items, Text};
use std::alloc::{AllocError, Global};

/// So many flags that are set, and then so many that are not.
pub(crate) fn flags(alloc: Global, on: usize, off: usize) -> Result<Vec<bool>, AllocError>
    ensures { IfOk result (λ v. v.items ≡ flags on off) }
{
    let mut made = vec![in alloc; true; on]?;
    let others = vec![in alloc; false; off]?;
    made.extend_from_slice(&others)?;
    Ok(made)
}

/// The members of the catalogue.
pub(crate) fn types(alloc: Global) -> Result<Vec<MemberType>, AllocError>
    ensures { IfOk result (λ v. v.items ≡ catalogue) }
{
    members_of(alloc, rows())
}

fn members_of(alloc: Global, rows: &[Row]) -> Result<Vec<MemberType>, AllocError>
    ensures { IfOk result (λ v. v.items ≡ map seen_row rows.now) }
{
    let mut made = Vec::new(alloc);
    for row in rows {
        made.push(member_of(alloc, row)?)?;
    }
    Ok(made)
}

fn member_of(alloc: Global, row: &Row) -> Result<MemberType, AllocError>
    ensures { IfOk result (λ m. m ≡ seen_row row.now) }
{
    let name = Text::new(alloc, row.3)?;
    let params = types_of(alloc, row.0, row.4)?;
    let gives = type_of(alloc, row.0, row.2)?;
    Ok(MemberType {
        owner: row.0,
        name,
        kind: kind_of(row.1),
        origin: origin_of(row.1),
        params: Items::from_vec(params),
        result: gives,
    })
}

fn kind_of(how: How) -> MemberKind
    ensures { result ≡ seen_kind how }
{
    match how {
        How::Makes => MemberKind::Constructor,
        How::Field => MemberKind::Field,
        How::Static | How::StaticPrelude => MemberKind::Static,
        How::Instance | How::Added | How::Prelude | How::AddedPrelude => MemberKind::Instance,
    }
}

fn origin_of(how: How) -> Origin
    ensures { result ≡ seen_origin how }
{
    match how {
        How::Makes | How::Field | How::Static | How::Instance => Origin::Java,
        How::Added => Origin::Augmented,
        How::Prelude | How::StaticPrelude => Origin::Prelude,
        How::AddedPrelude => Origin::AugmentedPrelude,
    }
}

fn types_of(alloc: Global, owner: u32, rows: &[TypeRow]) -> Result<Vec<Ty>, AllocError>
    ensures { IfOk result (λ v. v.items ≡ map (seen_type owner) rows.now) }
{
    let mut made = Vec::new(alloc);
    for row in rows {
        made.push(type_of(alloc, owner, *row)?)?;
    }
    Ok(made)
}

/// A type in the row of a class.
fn type_of(alloc: Global, owner: u32, row: TypeRow) -> Result<Ty, AllocError>
    ensures { IfOk result (λ t. t ≡ seen_type owner row) }
{
    match row {
        TypeRow::Void => Ok(Ty::Void),
        TypeRow::One(element) => Ok(element_type(element)),
        TypeRow::Array(element) => Ok(Ty::Array(Boxed::new(alloc, element_type(element))?)),
        TypeRow::Owner => Ok(Ty::Class(owner)),
    }
}

fn element_type(element: Element) -> Ty
    ensures { result ≡ seen_element element }
{
    match element {
        Element::Def => Ty::Def,
        Element::Prim(primitive) => Ty::Prim(primitive),
        Element::Class(class) => Ty::Class(class),
    }
}
