// Where each name of a list stands first.

ghost use Rattle.std.specs.Prelude.{◌≡◌, IfOk, map};
ghost use Rattle.ss_ast.specs.Programs.{class_tree};
ghost use Rattle.ss_tables_lookup.specs.Places.{places_of};
ghost use Rattle.ss_tables_lookup.specs.Shelves.{class_names, field_names, method_names};
ghost use Rattle.ss_tables_lookup.specs.Views.{field_tree, method_tree};

use crate::members::{FieldRef, MethodRef};
use crate::named::NameMap;
use ss_ast::ClassDecl;
use std::alloc::{AllocError, Global};

/// The first place of the name of each class.
pub fn class_places(alloc: Global, classes: &[ClassDecl]) -> Result<NameMap<usize>, AllocError>
    ensures { IfOk result (λ p. p ≡ places_of (class_names (map class_tree classes.now))) }
{
    let mut places = NameMap::new(alloc);
    for (place, class) in classes.iter().enumerate() {
        places.note(alloc, class.name.text.as_str(), place)?;
    }
    Ok(places)
}

/// The first place of the name of each field.
pub fn field_places(alloc: Global, fields: &[FieldRef<'_>]) -> Result<NameMap<usize>, AllocError>
    ensures { IfOk result (λ p. p ≡ places_of (field_names (map field_tree fields.now))) }
{
    let mut places = NameMap::new(alloc);
    for (place, field) in fields.iter().enumerate() {
        places.note(alloc, field.declarator.name.text.as_str(), place)?;
    }
    Ok(places)
}

/// The first place of the name of each method.
pub fn method_places(alloc: Global, methods: &[MethodRef<'_>]) -> Result<NameMap<usize>, AllocError>
    ensures { IfOk result (λ p. p ≡ places_of (method_names (map method_tree methods.now))) }
{
    let mut places = NameMap::new(alloc);
    for (place, method) in methods.iter().enumerate() {
        places.note(alloc, method.method.name.text.as_str(), place)?;
    }
    Ok(places)
}
