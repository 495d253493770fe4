// Attributes.

ghost use Rattle.std.specs.Prelude.{◌≡◌, ◌++◌, ◌∷◌, [], IfOk, OnOk, map};
ghost use Rattle.ss_ast.specs.Expressions.{name_tree};

use ss_ast::Name;
use std::alloc::{AllocError, Global};

fn copy_name(alloc: Global, name: &Name) -> Result<Name, AllocError>
    ensures { IfOk result (λ n. name_tree n ≡ name_tree name.now) }
{
    let text = String::from_str(alloc, name.text.as_str())?;
    Ok(Name {
        text,
        place: name.place,
    })
}

// One more name.
fn add_copy(alloc: Global, list: &mut Vec<Name>, name: &Name) -> Result<(), AllocError>
    ensures { OnOk result (map name_tree list.new.items ≡ map name_tree list.old.items ++ name_tree name.now ∷ []) }
{
    let copy = copy_name(alloc, name)?;
    list.push(copy)?;
    Ok(())
}

/// The same names.
pub(crate) fn copy_names(alloc: Global, names: &[Name]) -> Result<Vec<Name>, AllocError>
    ensures { IfOk result (λ v. map name_tree v.items ≡ map name_tree names.now) }
{
    let mut list = Vec::new(alloc);
    for name in names {
        add_copy(alloc, &mut list, name)?;
    }
    Ok(list)
}
