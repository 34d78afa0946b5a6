//! The index of the members of a list, and what is found by it.

ghost use Rattle.std.specs.Prelude.{◌≡◌, ◌<◌, IfOk};
ghost use Rattle.allowlist.specs.Accessors.{seen_name};
ghost use Rattle.allowlist.specs.Catalogue.{catalogue};
ghost use Rattle.allowlist.specs.Index.{IsIndex, IsMemberCalled, order_of};

use crate::member::MemberType;
use crate::name::{Name, compare};
use crate::table::start_of_class;
use pl_types::classes::CLASS_COUNT;
use std::alloc::{AllocError, Global};
use std::cmp::Ordering;

/// The members' numbers class by class, and in each class by name and by number of parameters.
static NUMBERS: [u32; 228] = [
    0, 1, 2, 3, 4, 5, 7, 8, 6, 9, 10, 11, 12, 13, 14, 15, 16, 17, 18, 19, 20, 21, 22, 23, 24, 25,
    26, 27, 28, 29, 30, 31, 32, 33, 34, 35, 36, 37, 38, 39, 40, 41, 42, 43, 44, 45, 46, 47, 48, 49,
    50, 51, 52, 53, 54, 55, 56, 57, 60, 61, 62, 63, 64, 65, 66, 58, 67, 68, 69, 70, 71, 72, 73, 74,
    75, 76, 77, 78, 59, 79, 80, 81, 82, 83, 84, 85, 88, 89, 90, 91, 92, 93, 94, 87, 95, 86, 96, 97,
    98, 99, 109, 100, 101, 110, 111, 102, 103, 104, 108, 105, 106, 112, 107, 113, 114, 115, 116,
    117, 118, 119, 120, 121, 122, 123, 124, 125, 126, 127, 128, 129, 151, 145, 146, 147, 130, 131,
    152, 153, 132, 154, 155, 156, 157, 148, 133, 134, 158, 135, 136, 149, 137, 138, 139, 140, 141,
    142, 150, 143, 144, 159, 160, 161, 162, 163, 164, 165, 166, 167, 168, 169, 170, 171, 172, 173,
    174, 175, 176, 177, 178, 181, 182, 183, 179, 180, 184, 185, 186, 187, 188, 189, 190, 191, 192,
    193, 194, 195, 196, 197, 198, 199, 200, 201, 202, 203, 204, 205, 206, 207, 208, 209, 210, 211,
    212, 213, 214, 215, 216, 217, 218, 219, 220, 221, 222, 223, 224, 225, 226, 227,
];

fn numbers() -> &'static [u32]
    ensures { IsIndex result.now }
{
    &NUMBERS
}

/// The index of a list.
pub(crate) fn index(alloc: Global) -> Result<Vec<u32>, AllocError>
    ensures { IfOk result (λ v. IsIndex v.items) }
{
    Vec::from_slice(alloc, numbers())
}

/// How a member stands to a name and a number of parameters.
fn order(member: &MemberType, name: &Name<'_>, arity: u32) -> Ordering
    ensures { result ≡ order_of (seen_name name.now) arity member.now }
{
    let names = compare(member.name.as_str().as_bytes(), name);
    let counts = member.params.len().cmp(&(arity as usize));
    names.then(counts)
}

/// The member of a class with a name and a number of parameters, whether or not a list allows it. It halves the
/// class's part of the index, so of thirty members, which is what the largest class has, it compares at most five.
pub(crate) fn member_called(
    types: &[MemberType],
    index: &[u32],
    class: u32,
    name: &Name<'_>,
    arity: u32,
) -> Option<u32>
    requires types { types.now ≡ catalogue }
    requires index { IsIndex index.now }
    requires class { class < CLASS_COUNT }
    ensures { IsMemberCalled class (seen_name name.now) arity result }
{
    let mut low = start_of_class(class);
    let mut high = start_of_class(class + 1);
    while low < high {
        let middle = low + (high - low) / 2;
        let number = index[middle as usize];
        match order(&types[number as usize], name, arity) {
            Ordering::Less => low = middle + 1,
            Ordering::Greater => high = middle,
            Ordering::Equal => return Some(number),
        }
    }
    None
}
