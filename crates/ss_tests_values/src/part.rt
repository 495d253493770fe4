// `class Part { int v; }`, the program of the tests.

ghost use Rattle.std.specs.Prelude.{◌≡◌, IfOk};
ghost use Rattle.ss_core.specs.View.{classes};
ghost use Rattle.ss_core.specs.Chain.{IsWithinLimits};

use ss_core::{BodyId, Class, ClassId, Classes, Core, Field, FieldId, Mark, Ty};
use std::alloc::{AllocError, Global};

pub const PART: ClassId = ClassId(4);

pub const INT_ARRAY: ClassId = ClassId(1);

pub const V: FieldId = FieldId(0);

pub fn program(alloc: Global) -> Result<Core, AllocError>
    ensures { IfOk result (λ c. IsWithinLimits (classes c.classes)) }
{
    let v = Field {
        name: String::from_str(alloc, "v")?,
        ty: Ty::Int,
        mark: Mark::Plain,
    };
    let part = Class {
        name: String::from_str(alloc, "Part")?,
        above: ClassId(0),
        also: Vec::new(alloc),
        fields: vec![in alloc; v]?,
        invariants: Vec::new(alloc),
        table: Vec::new(alloc),
    };
    Ok(Core {
        classes: Classes {
            list: vec![in alloc; part]?,
        },
        bodies: Vec::new(alloc),
        main: BodyId(0),
    })
}
