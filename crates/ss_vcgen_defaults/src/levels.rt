// The levels of a class.

ghost use Rattle.std.specs.Prelude.{◌≡◌, IfOk, map};
ghost use Rattle.ss_core.specs.Chain.{levels};
ghost use Rattle.ss_core.specs.View as view;
ghost use Rattle.ss_vcgen_defaults.specs.Defaults.{number_of};

use ss_core::{ClassId, Classes, MOST_LEVELS};
use std::alloc::{AllocError, Global};

// The class, the one above it, and so on to `object`.
pub(crate) fn all_levels(
    alloc: Global,
    classes: &Classes,
    class: ClassId,
) -> Result<Vec<ClassId>, AllocError>
    ensures { IfOk result (λ v. map number_of v.items ≡ levels (view.classes classes.now) class.0) }
{
    let mut list = Vec::new(alloc);
    let mut level = class;
    for _i in 0..MOST_LEVELS {
        list.push(level)?;
        match classes.level_above(level) {
            Some(above) => level = above,
            None => return Ok(list),
        }
    }
    Ok(list)
}
