// Small tables of classes, built by hand.

ghost use Rattle.std.specs.Prelude.{◌≡◌, ◌≤◌, ◌+◌, length, IfOk};
ghost use Rattle.ss_core.specs.View.{classes};
ghost use Rattle.ss_core.specs.Chain.{most_classes};

use ss_core::{Class, ClassId, Classes, Field, FieldId, Mark, Ty};
use std::alloc::{AllocError, Global};
use std::test::Fail;

const OBJECT: ClassId = ClassId(0);

const INT_ARRAY: ClassId = ClassId(1);

const OBJECT_ARRAY: ClassId = ClassId(3);

const A: ClassId = ClassId(4);

const A_ARRAY: ClassId = ClassId(5);

const B: ClassId = ClassId(6);

const B_ARRAY: ClassId = ClassId(7);

const C: ClassId = ClassId(8);

const D: ClassId = ClassId(10);

const NONE: ClassId = ClassId(12);

// A class with fields of these names.
fn class(
    alloc: Global,
    name: &str,
    above: ClassId,
    also: &[ClassId],
    names: &[&str],
) -> Result<Class, AllocError> {
    let mut beside = Vec::new(alloc);
    for t in also {
        beside.push(*t)?;
    }
    let mut fields = Vec::new(alloc);
    for field in names {
        fields.push(Field {
            name: String::from_str(alloc, field)?,
            ty: Ty::Int,
            mark: Mark::Plain,
        })?;
    }
    Ok(Class {
        name: String::from_str(alloc, name)?,
        above,
        also: beside,
        fields,
        invariants: Vec::new(alloc),
        table: Vec::new(alloc),
    })
}

// C is below B, which is below A; D is beside them, and A counts as D where it is asked for.
fn table(alloc: Global, also: &[ClassId]) -> Result<Classes, AllocError>
    ensures { IfOk result (λ t. length t.list.items ≡ 4) }
{
    let a = class(alloc, "A", OBJECT, also, &["x", "y"])?;
    let b = class(alloc, "B", A, &[], &[])?;
    let c = class(alloc, "C", B, &[], &["z"])?;
    let d = class(alloc, "D", OBJECT, &[], &["w"])?;
    Ok(Classes {
        list: vec![in alloc; a, b, c, d]?,
    })
}

// The first of these of which it isn't so that one class counts as the other, or that it doesn't.
fn first_not_below(table: &Classes, rows: &[(ClassId, ClassId, bool)]) -> Option<usize> {
    for (number, (c, t, below)) in rows.iter().enumerate() {
        if table.is_subclass(*c, *t) != *below {
            return Some(number);
        }
    }
    None
}

fn first_not_above(table: &Classes, rows: &[(ClassId, Option<ClassId>)]) -> Option<usize> {
    for (number, (t, above)) in rows.iter().enumerate() {
        if table.level_above(*t) != *above {
            return Some(number);
        }
    }
    None
}

fn is_declared_as(table: &Classes, t: ClassId, name: &str) -> bool {
    match table.declared(t) {
        Some(class) => class.name.as_str() == name,
        None => name.is_empty(),
    }
}

// A class of no name isn't declared.
fn first_not_declared(table: &Classes, rows: &[(ClassId, &str)]) -> Option<usize> {
    for (number, (t, name)) in rows.iter().enumerate() {
        if !is_declared_as(table, *t, *name) {
            return Some(number);
        }
    }
    None
}

fn is_field_of(table: &Classes, f: u32, c: ClassId, name: &str) -> bool
    requires { length (classes table.now) ≤ most_classes }
{
    match table.field(FieldId(f)) {
        Some((class, field)) => class == c && field.name.as_str() == name,
        None => name.is_empty(),
    }
}

// A field of no name isn't there.
fn first_not_a_field(table: &Classes, rows: &[(u32, ClassId, &str)]) -> Option<usize>
    requires { length (classes table.now) ≤ most_classes }
{
    for (number, (f, c, name)) in rows.iter().enumerate() {
        if !is_field_of(table, *f, *c, *name) {
            return Some(number);
        }
    }
    None
}

#[test]
fn a_small_chain(rt: HostRuntime) -> Result<(), Fail> {
    let table = table(rt.alloc(), &[])?;
    let below = first_not_below(
        &table,
        &[
            (OBJECT, OBJECT, true),
            (A, A, true),
            (C, C, true),
            (A, OBJECT, true),
            (B, A, true),
            (C, B, true),
            (C, A, true),
            (C, OBJECT, true),
            (OBJECT, A, false),
            (A, B, false),
            (A, C, false),
            (C, D, false),
            (D, A, false),
        ],
    );
    // An array is below `object` alone.
    let arrays = first_not_below(
        &table,
        &[
            (INT_ARRAY, INT_ARRAY, true),
            (B_ARRAY, B_ARRAY, true),
            (INT_ARRAY, OBJECT, true),
            (B_ARRAY, OBJECT, true),
            (B_ARRAY, A_ARRAY, false),
            (B_ARRAY, B, false),
            (B, B_ARRAY, false),
            (A_ARRAY, OBJECT_ARRAY, false),
        ],
    );
    assert_eq!(rt; [below, arrays], [None, None]);
    Ok(())
}

#[test]
fn a_small_table(rt: HostRuntime) -> Result<(), Fail> {
    let table = table(rt.alloc(), &[])?;
    let declared = first_not_declared(
        &table,
        &[
            (A, "A"),
            (D, "D"),
            (OBJECT, ""),
            (INT_ARRAY, ""),
            (A_ARRAY, ""),
            (NONE, ""),
        ],
    );
    let fields = first_not_a_field(
        &table,
        &[
            (0, A, "x"),
            (1, A, "y"),
            (2, C, "z"),
            (3, D, "w"),
            (4, NONE, ""),
        ],
    );
    assert_eq!(rt; [declared, fields], [None, None]);
    Ok(())
}

// What stands beside a class counts as above it.
fn first_not_beside(alloc: Global) -> Result<Option<usize>, AllocError> {
    let table = table(alloc, &[D, INT_ARRAY])?;
    Ok(first_not_below(
        &table,
        &[
            (A, D, true),
            (C, D, true),
            (C, INT_ARRAY, true),
            (C, A, true),
            (D, A, false),
            (A_ARRAY, D, false),
            (OBJECT, D, false),
        ],
    ))
}

// `object` alone has no class above.
fn first_level(alloc: Global) -> Result<Option<usize>, AllocError> {
    let table = table(alloc, &[D])?;
    Ok(first_not_above(
        &table,
        &[
            (OBJECT, None),
            (A, Some(OBJECT)),
            (B, Some(A)),
            (C, Some(B)),
            (INT_ARRAY, Some(OBJECT)),
            (B_ARRAY, Some(OBJECT)),
        ],
    ))
}

#[test]
fn classes_beside_and_above(rt: HostRuntime) -> Result<(), Fail> {
    let beside = first_not_beside(rt.alloc())?;
    let above = first_level(rt.alloc())?;
    assert_eq!(rt; [beside, above], [None, None]);
    Ok(())
}

// The longest chain has 63 classes below `object`.
fn longest_chain(alloc: Global) -> Result<Vec<Class>, AllocError> {
    let mut list = Vec::new(alloc);
    list.push(class(alloc, "C", OBJECT, &[], &[])?)?;
    for above in 0..62u16 {
        list.push(class(alloc, "C", ClassId(4 + 2 * above), &[], &[])?)?;
    }
    Ok(list)
}

#[test]
fn the_longest_chain_ends_in_object(rt: HostRuntime) -> Result<(), Fail> {
    let table = Classes {
        list: longest_chain(rt.alloc())?,
    };
    let last = ClassId(4 + 2 * 62);
    let below = table.is_subclass(last, OBJECT) && table.is_subclass(last, A);
    let is_level = table.level_above(last) == Some(ClassId(4 + 2 * 61));
    assert!(rt; below && is_level && !table.is_subclass(A, last));
    Ok(())
}
