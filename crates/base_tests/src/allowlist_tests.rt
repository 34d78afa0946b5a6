//! Allowlist files and what they allow, and members of the catalogue by their names.

use allowlist::{
    Accessor, Allow, AllowErr, Catalogue, MEMBER_COUNT, MemberKind, MemberType, Origin,
    catalogue_laws,
};
use pl_types::classes::{
    ARRAY_LIST, CLASS_COUNT, COLLECTIONS, COMPARATOR, ENTRY, EXCEPTION, HASH_MAP, INTEGER,
    ITERABLE, LINKED_HASH_SET, LIST, MATH, OBJECT, PRELUDE, SCRIPT_DOC_VALUES, STRING_BUILDER,
    UNARY_OPERATOR,
};
use pl_types::{ClassNames, Lineage, TypeNames, push_type};
use std::alloc::{AllocError, Global};
use std::test::Fail;

/// What reading a file answers: the number of the refusal, or 0, and the line, or 0.
const READ: (u8, u32) = (0, 0);

const fn syntax(line: u32) -> (u8, u32) {
    (23, line)
}

const fn unknown(line: u32) -> (u8, u32) {
    (24, line)
}

fn answers(alloc: Global, file: &[u8], wanted: (u8, u32)) -> bool {
    match Allow::read(alloc, file) {
        Ok(_) => wanted == READ,
        Err(AllowErr::Syntax(line)) => wanted == syntax(line),
        Err(AllowErr::Unknown(line)) => wanted == unknown(line),
        Err(AllowErr::NoMemory) => false,
    }
}

/// Files, and what reading them answers: the number of the refusal, or 0, and the line.
const FILES: [(&[u8], (u8, u32)); 73] = [
    (b"", READ),
    (b"\n\n", READ),
    (b"# only a comment", READ),
    (b"class java.util.List {\n  def get(int)\n}\n", READ),
    (b"class java.util.List{\n}", READ),
    (b"\t class  java.util.List\t{  # opens\n }\n", READ),
    (
        b"class java.util.ArrayList {\n()\n( Collection )\n}\n",
        READ,
    ),
    (
        b"class java.lang.Iterable {\nboolean org.elasticsearch.painless.api.Augmentation any(Predicate)\n}\n",
        READ,
    ),
    (b"class java.lang.Integer {\nint MAX_VALUE\n}\n", READ),
    (
        b"class java.lang.String {\nString [ ]org.elasticsearch.painless.api.Augmentation splitOnToken ( String , int )\n}\n",
        READ,
    ),
    (
        b"class java.util.Map {\njava.util.Set entrySet()\n}\nclass java.util.Map$Entry {\ndef getKey()\n}\n",
        READ,
    ),
    (
        b"class java.util.Collections {\njava.util.List singletonList(def)\nvoid swap(List,int,int)\n}\n# \xc3\xa9\n",
        READ,
    ),
    (b"class java.util.Lisst {\n def get(int)\n}\n", (24, 1)),
    (b"class java.util.List\n", (23, 1)),
    (b"class java.util.Lisst {", (24, 1)),
    (b"\nclass java.util.Lisst {\n def get(int)\n", (24, 2)),
    (
        b"class java.util.List {\n}\nclass java.util.List {",
        (23, 3),
    ),
    (b"class java.util.List {\nclass java.util.Lisst {", (23, 2)),
    (b"def get(int)\n", (23, 1)),
    (b"\n}\n", (23, 2)),
    (
        b"class java.util.List {\nclass java.util.Set {\n}\n}\n",
        (23, 2),
    ),
    (b"class java.util.List {\n def get(int)\n", (23, 2)),
    (b"class java.util.List {\n def get(int)", (23, 2)),
    (b"class java.util.List {\n\n\n", (23, 3)),
    (b"class java.util.List {\n nothing here\n", (23, 2)),
    (
        b"class java.util.List {\n def get(int)\n def get(int)\n}\n",
        (24, 3),
    ),
    (
        b"class java.util.List {\n}\nclass java.util.List {\n}\n",
        (24, 3),
    ),
    (b"class List {\n}\n", (24, 1)),
    (b"class java.util.Map.Entry {\n}\n", (24, 1)),
    (b"class Prelude {\n}\n", (24, 1)),
    (b"class java.util.List {\n def get(long)\n}\n", (24, 2)),
    (b"class java.util.List {\n int get(int)\n}\n", (24, 2)),
    (b"class java.util.List {\n def get(Intt)\n}\n", (24, 2)),
    (b"class java.util.List {\n def[] get(int)\n}\n", (24, 2)),
    (b"class java.util.List {\n nothing here\n}\n", (24, 2)),
    (b"class java.util.ArrayList {\n(List)\n}\n", (24, 2)),
    (
        b"class java.lang.Iterable {\n boolean any(Predicate)\n}\n",
        (24, 2),
    ),
    (
        b"class java.util.List {\n def org.elasticsearch.painless.api.Augmentation get(int)\n}\n",
        (24, 2),
    ),
    (
        b"class java.util.List {\n def some.other.Word get(int)\n}\n",
        (23, 2),
    ),
    (b"static_import {\n}\n", (24, 1)),
    (b"class java.util.List {\nstatic_import {\n}\n", (23, 2)),
    (b"class java.util.List {\nstatic_import { x\n}\n", (23, 2)),
    (b"class java.util.List {\nstatic_import x\n}\n", (24, 2)),
    (
        b"class java.util.List {\nstatic_import[] x(int)\n}\n",
        (24, 2),
    ),
    (b"class java.util.List {\nstatic_import 9x\n}\n", (23, 2)),
    (b"static_import x\n", (23, 1)),
    (b"class java.util.List {\r\n}\n", (23, 1)),
    (b"class java.util.List {\n def get(int,)\n}\n", (23, 2)),
    (b"class java.util.List {\n def get int\n}\n", (23, 2)),
    (b"class java.util.List {\n def[ get(int)\n}\n", (23, 2)),
    (b"class java.util.List {\n def get(int) more\n}\n", (23, 2)),
    (b"class java.util.List {\n }}\n", (23, 2)),
    (b"\xff\n", (23, 1)),
    (b"class java.util.List {\n# \xc3\n}\n", (23, 2)),
    (b"class java.util.Lisst {\n def get(int,)\n}\n", (24, 1)),
    (b"class 9 {\n}\n", (23, 1)),
    (b"class java..List {\n}\n", (23, 1)),
    (b"class .List {\n}\n", (23, 1)),
    (b"class java.util.List. {\n}\n", (23, 1)),
    (b"class java.util.9List {\n}\n", (23, 1)),
    (b"class java.util.Map$9 {\n}\n", (23, 1)),
    (b"class a$b._9 {\n}\n", (24, 1)),
    (b"class java.util.List {\n def 9get(int)\n}\n", (23, 2)),
    (b"class java.util.List {\n def a.b(int)\n}\n", (23, 2)),
    (b"class java.util.List {\n def a$b(int)\n}\n", (23, 2)),
    (b"class java.util.List {\n int a.b\n}\n", (23, 2)),
    (
        b"class java.util.List {\n def org.elasticsearch.painless.api.Augmentation 9(int)\n}\n",
        (23, 2),
    ),
    (b"class java.util.List {\n 9 get(int)\n}\n", (23, 2)),
    (b"class java.util.List {\n def get(9)\n}\n", (23, 2)),
    (b"class java.util.List {\n (.)\n}\n", (23, 2)),
    (b"class java.util.List {\n (a.)\n}\n", (23, 2)),
    (b"class java.util.List {\n (a.b$c)\n}\n", (24, 2)),
    (b"class java.util.List {\n def get_9(int)\n}\n", (24, 2)),
];

#[test]
fn files_and_their_lines(rt: HostRuntime) {
    for (file, wanted) in &FILES {
        let as_wanted = answers(rt.alloc(), *file, *wanted);
        assert!(rt; as_wanted, "{file:?}");
    }
}

/// The example of docs/ALLOWLIST.md, and the same without its second member line.
const EXAMPLE: &[u8] =
    b"# What a scoring script needs.\nclass java.util.List {\n  def get(int)\n  int size()                # refused: size() is a member of java.util.Collection\n}\n";

const EXAMPLE_WITHOUT: &[u8] =
    b"# What a scoring script needs.\nclass java.util.List {\n  def get(int)\n}\n";

#[test]
fn the_example_of_the_document(rt: HostRuntime) -> Result<(), Fail> {
    let refused = answers(rt.alloc(), EXAMPLE, (24, 4));
    assert!(rt; refused);
    let Ok(read) = Allow::read(rt.alloc(), EXAMPLE_WITHOUT) else {
        return Err("no list")?;
    };
    assert!(rt; read.member(LIST, "get", 1) == Some(115));
    assert!(rt; read.member(LIST, "size", 0).is_none());
    catalogue_laws();
    Ok(())
}

const SMALL: &[u8] =
    b"class java.util.Collection {\n int size()\n boolean add(def)\n}\nclass java.util.List {\n def get(int)\n}\nclass java.lang.Object {\n String toString()\n}\n";

/// A class, a name, a number of arguments, the member under the small list, and the one under the full catalogue.
const CALLS: [(u32, &str, u32, Option<u32>, Option<u32>); 14] = [
    (ARRAY_LIST, "size", 0, Some(106), Some(106)),
    (ARRAY_LIST, "get", 1, Some(115), Some(115)),
    (ARRAY_LIST, "get", 2, None, None),
    (ARRAY_LIST, "remove", 1, None, Some(119)),
    (ARRAY_LIST, "none", 0, None, None),
    (ARRAY_LIST, "indexOf", 1, None, Some(117)),
    (ARRAY_LIST, "toString", 0, Some(1), Some(1)),
    (ARRAY_LIST, "", 1, None, Some(124)),
    (HASH_MAP, "size", 0, None, Some(143)),
    (INTEGER, "toString", 0, Some(1), Some(1)),
    (INTEGER, "toString", 1, None, Some(24)),
    (UNARY_OPERATOR, "apply", 1, None, Some(184)),
    (MATH, "abs", 1, None, Some(52)),
    (PRELUDE, "compare", 2, None, None),
];

fn finds(list: &Allow, class: u32, name: &str, arity: u32, wanted: Option<u32>) -> bool {
    list.member(class, name, arity) == wanted
}

#[test]
fn members_by_class_name_and_arity(rt: HostRuntime) -> Result<(), Fail> {
    let full = Catalogue::full(rt.alloc())?;
    let Ok(small) = Allow::read(rt.alloc(), SMALL) else {
        return Err("no list")?;
    };
    let shared = small.share(rt.alloc())?;
    for (class, name, arity, some, all) in &CALLS {
        let in_small = finds(&small, *class, *name, *arity, *some);
        let in_shared = finds(&shared, *class, *name, *arity, *some);
        let in_full = finds(&full, *class, *name, *arity, *all);
        assert!(rt; in_small && in_shared && in_full, "{class} {name}");
    }
    Ok(())
}

/// A class, an accessor, a property, and the member under the full catalogue.
const ACCESSORS: [(u32, Accessor, &str, Option<u32>); 9] = [
    (ENTRY, Accessor::Get, "key", Some(163)),
    (ENTRY, Accessor::Get, "Key", Some(163)),
    (ENTRY, Accessor::Set, "value", Some(165)),
    (ENTRY, Accessor::Get, "kez", None),
    (ENTRY, Accessor::Is, "key", None),
    (ARRAY_LIST, Accessor::Is, "empty", Some(102)),
    (SCRIPT_DOC_VALUES, Accessor::Get, "value", Some(225)),
    (EXCEPTION, Accessor::Get, "message", Some(196)),
    (STRING_BUILDER, Accessor::Set, "length", Some(85)),
];

#[test]
fn accessors(rt: HostRuntime) -> Result<(), Fail> {
    let full = Catalogue::full(rt.alloc())?;
    for (class, accessor, property, wanted) in &ACCESSORS {
        let found = full.accessor(*class, *accessor, *property);
        assert!(rt; found == *wanted, "{class} {property}");
    }
    Ok(())
}

/// Names of classes in scripts.
const NAMED: [(&str, Option<u32>); 4] = [
    ("Map.Entry", Some(ENTRY)),
    ("java.util.Map.Entry", Some(ENTRY)),
    ("Map$Entry", None),
    ("Prelude", None),
];

#[test]
fn classes_and_interfaces(rt: HostRuntime) -> Result<(), Fail> {
    let full = Catalogue::full(rt.alloc())?;
    let prelude = Catalogue::with_prelude(rt.alloc())?;
    for (name, class) in &NAMED {
        assert!(rt; full.class_named(*name) == *class, "{name}");
    }
    assert!(rt; prelude.class_named("Prelude") == Some(PRELUDE));
    assert!(rt; prelude.member(PRELUDE, "compare", 2) == Some(226));
    for (class, method) in [
        (COMPARATOR, Some(178)),
        (UNARY_OPERATOR, Some(184)),
        (OBJECT, None),
    ] {
        assert!(rt; full.iface_method(class) == method, "{class}");
    }
    assert!(rt; full.is_sub(LINKED_HASH_SET, ITERABLE) && !full.is_sub(COLLECTIONS, LIST));
    assert!(rt; full.class_name(ENTRY) == "java.util.Map$Entry");
    Ok(())
}

fn write_params(out: &mut String, member: &MemberType) -> Result<(), AllocError> {
    out.push_str("(")?;
    for (at, ty) in member.params.as_slice().iter().enumerate() {
        if at > 0 {
            out.push_str(", ")?;
        }
        push_type(out, ty, ClassNames::Full)?;
    }
    out.push_str(")")
}

fn write_member(out: &mut String, member: &MemberType) -> Result<(), AllocError> {
    if matches!(member.kind, MemberKind::Constructor) {
        write_params(out, member)?;
        return out.push_str("\n");
    }
    push_type(out, &member.result, ClassNames::Full)?;
    out.push_str(" ")?;
    if matches!(member.origin, Origin::Augmented | Origin::AugmentedPrelude) {
        out.push_str("org.elasticsearch.painless.api.Augmentation ")?;
    }
    out.push_str(member.name.as_str())?;
    if !matches!(member.kind, MemberKind::Field) {
        write_params(out, member)?;
    }
    out.push_str("\n")
}

fn write_class(out: &mut String, full: &Allow, class: u32) -> Result<(), AllocError> {
    if class >= CLASS_COUNT {
        return Ok(());
    }
    out.push_str("class ")?;
    out.push_str(full.class_name(class))?;
    out.push_str(" {\n")?;
    for number in 0..full.member_count() {
        let member = full.member_type(number);
        if member.owner == class {
            write_member(out, member)?;
        }
    }
    out.push_str("}\n")
}

#[test]
fn the_catalogue_written_out_is_the_catalogue(rt: HostRuntime) -> Result<(), Fail> {
    let full = Catalogue::full(rt.alloc())?;
    let mut file = String::new(rt.alloc());
    for class in 0..PRELUDE {
        write_class(&mut file, &full, class)?;
    }
    let Ok(read) = Allow::read(rt.alloc(), file.as_bytes()) else {
        return Err("no list")?;
    };
    for class in 0..CLASS_COUNT {
        assert!(rt; read.has_class(class) == full.has_class(class), "{class}");
    }
    let count = full.member_count();
    assert!(rt; count == MEMBER_COUNT && read.member_count() == MEMBER_COUNT);
    for number in 0..count.min(read.member_count()) {
        assert!(rt; read.allows(number) == full.allows(number), "{number}");
    }
    Ok(())
}
