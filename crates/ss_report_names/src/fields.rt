// The names of fields, in a table that is made once.

ghost use Rattle.std.specs.Prelude.{◌≡◌, ◌++◌, IfOk, OnOk, map};
ghost use Rattle.ss_core.specs.View as view;
ghost use Rattle.ss_report_names.specs.Names as names;
ghost use Rattle.ss_report_names.specs.Tables as tables;
ghost use Rattle.ss_report_names.specs.Contexts.{classes_of};

use crate::context::Program;
use crate::names::name_at;
use ss_core::{Classes, Field, FieldId};
use std::alloc::{AllocError, Global};

fn push_names<'a>(names: &mut Vec<&'a str>, fields: &'a [Field]) -> Result<(), AllocError>
    ensures { OnOk result (tables.texts names.new.items ≡ tables.texts names.old.items ++ map (λ f. f.name) (map view.field_of fields.now)) }
{
    for field in fields {
        names.push(field.name.as_str())?;
    }
    Ok(())
}

/// The names of all fields, by their numbers.
pub(crate) fn field_names(alloc: Global, classes: &Classes) -> Result<Vec<&str>, AllocError>
    ensures { IfOk result (λ ns. tables.texts ns.items ≡ tables.field_names (view.classes classes.now)) }
{
    let mut names = Vec::new(alloc);
    for class in &classes.list {
        push_names(&mut names, &class.fields)?;
    }
    Ok(names)
}

/// The name of a field.
#[tactic(auto, using(crate::proofs::FieldNames::field_named))]
pub fn field_name<'a>(program: &Program<'a>, f: FieldId) -> &'a [u8]
    ensures { result.now ≡ names.field_name (classes_of program.now) f.0 }
{
    name_at(&program.fields, f.0 as usize)
}
