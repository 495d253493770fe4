// Texts after one another.

ghost use Rattle.std.specs.Prelude.{◌≡◌, ◌++◌, OnOk};
ghost use Rattle.ss_core.specs.View as view;
ghost use Rattle.ss_report_names.specs.Names as names;

use crate::names::push_class;
use ss_core::{ClassId, Classes};
use std::alloc::AllocError;

/// Two texts.
pub fn push_both(out: &mut Vec<u8>, first: &[u8], second: &[u8]) -> Result<(), AllocError>
    ensures { OnOk result (out.new.items ≡ out.old.items ++ (first.now ++ second.now)) }
{
    out.extend_from_slice(first)?;
    out.extend_from_slice(second)
}

/// The name of a class between two texts.
pub fn push_class_between(
    out: &mut Vec<u8>,
    classes: &Classes,
    before: &[u8],
    t: ClassId,
    behind: &[u8],
) -> Result<(), AllocError>
    ensures { OnOk result (out.new.items ≡ out.old.items ++ (before.now ++ names.class_name (view.classes classes.now) t.0 ++ behind.now)) }
{
    out.extend_from_slice(before)?;
    push_class(out, classes, t)?;
    out.extend_from_slice(behind)
}
