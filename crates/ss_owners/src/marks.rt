// The marks of fields, by number.

ghost use Rattle.std.specs.Prelude.{◌≡◌, ◌++◌, IfOk, OnOk, map};
ghost use Rattle.ss_core.specs.View.{class_of, classes, field_of};
ghost use Rattle.ss_owners_rules.specs.Admissible.{field_mark, field_marks};
ghost use Rattle.ss_core.specs.Marks.{is_rep, is_rep_or_peer};
ghost use Rattle.ss_owners.specs.Marked.{marks_of, marks_in};

use ss_core::{Class, Classes, Field, FieldId, Mark};
use std::alloc::{AllocError, Global};

fn add_fields(fields: &[Field], marks: &mut Vec<Mark>) -> Result<(), AllocError>
    ensures { OnOk result (marks.new.items ≡ marks.old.items ++ marks_of (map field_of fields.now)) }
{
    for field in fields {
        marks.push(field.mark)?;
    }
    Ok(())
}

fn add_classes(list: &[Class], marks: &mut Vec<Mark>) -> Result<(), AllocError>
    ensures { OnOk result (marks.new.items ≡ marks.old.items ++ marks_in (map class_of list.now)) }
{
    for class in list {
        add_fields(&class.fields, marks)?;
    }
    Ok(())
}

/// The marks of all fields.
pub fn field_marks(alloc: Global, table: &Classes) -> Result<Vec<Mark>, AllocError>
    ensures { IfOk result (λ v. v.items ≡ field_marks (classes table.now)) }
{
    let mut marks = Vec::new(alloc);
    add_classes(&table.list, &mut marks)?;
    Ok(marks)
}

fn field_mark(marks: &[Mark], field: FieldId) -> Mark
    ensures { result ≡ field_mark marks.now field.0 }
{
    match marks.get(field.0 as usize) {
        Some(mark) => *mark,
        None => Mark::Plain,
    }
}

fn is_rep(mark: Mark) -> bool
    ensures { result ≡ is_rep mark }
{
    match mark {
        Mark::Rep => true,
        Mark::Plain | Mark::Peer => false,
    }
}

fn is_rep_or_peer(mark: Mark) -> bool
    ensures { result ≡ is_rep_or_peer mark }
{
    match mark {
        Mark::Rep | Mark::Peer => true,
        Mark::Plain => false,
    }
}

/// Whether the field is `[Rep]`.
pub fn is_rep_field(marks: &[Mark], field: FieldId) -> bool
    ensures { result ≡ is_rep (field_mark marks.now field.0) }
{
    is_rep(field_mark(marks, field))
}

/// Whether it is `[Rep]` or `[Peer]`.
pub fn is_owned_field(marks: &[Mark], field: FieldId) -> bool
    ensures { result ≡ is_rep_or_peer (field_mark marks.now field.0) }
{
    is_rep_or_peer(field_mark(marks, field))
}
