// The classes that declare the fields of a program.

ghost use Rattle.std.specs.Prelude.{◌≡◌, ◌≤◌, ◌++◌, length, map, IfOk, OnOk};
ghost use Rattle.ss_core.specs.Chain.{most_classes, fields_of_class};
ghost use Rattle.ss_core.specs.View as view;
ghost use Rattle.ss_store_rules.specs.Changes.{field_class};
ghost use Rattle.ss_frames.specs.Calls.{declaring_class, declaring_classes};

use ss_core::{Class, ClassId, Classes};
use std::alloc::{AllocError, Global};

// The number of the class, once for each field that it declares, after the others.
fn add_class(made: &mut Vec<u16>, number: u16, class: &Class) -> Result<(), AllocError>
    ensures { OnOk result (made.new.items ≡ made.old.items ++ map declaring_class (fields_of_class number (view.class_of class.now).fields)) }
{
    for _field in &class.fields {
        made.push(number)?;
    }
    Ok(())
}

// The numbers of the classes that declare the fields, in the order of the fields' numbers.
pub(crate) fn declaring_classes(alloc: Global, classes: &Classes) -> Result<Vec<u16>, AllocError>
    requires { length (view.classes classes.now) ≤ most_classes }
    ensures { IfOk result (λ v. v.items ≡ declaring_classes (view.classes classes.now)) }
{
    let mut made = Vec::new(alloc);
    let mut number = 4u16;
    for class in &classes.list {
        add_class(&mut made, number, class)?;
        number += 2;
    }
    Ok(made)
}

// The class that declares the field.
pub(crate) fn class_of_field(declaring: &[u16], classes: &Classes, f: u32) -> ClassId
    requires { declaring.now ≡ declaring_classes (view.classes classes.now) }
    ensures { result.0 ≡ field_class (view.classes classes.now) f }
{
    let _ = classes;
    match declaring.get(f as usize) {
        Some(number) => ClassId(*number),
        None => ClassId(0),
    }
}
