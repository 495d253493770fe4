// A small program, built by hand.

ghost use Rattle.std.specs.Prelude.{IfOk};
ghost use Rattle.ss_core.specs.View.{classes};
ghost use Rattle.ss_core.specs.Chain.{IsWithinLimits};

use ss_core::{
    BodyId, Class, ClassId, Classes, Core, Expr, Field, FieldId, Link, Mark, Operator, Place, Step,
    Ty,
};
use std::alloc::{AllocError, Global};

pub const PART: ClassId = ClassId(4);

pub const V: FieldId = FieldId(0);

/// `class Part { int v; }`
pub fn program(alloc: Global) -> Result<Core, AllocError>
    ensures { IfOk result (λ c. IsWithinLimits (classes c.classes)) }
{
    let v = Field {
        name: String::from_str(alloc, "v")?,
        ty: Ty::Int,
        mark: Mark::Plain,
    };
    let part = Class {
        name: String::from_str(alloc, "Part")?,
        above: ClassId(0),
        also: Vec::new(alloc),
        fields: vec![in alloc; v]?,
        invariants: Vec::new(alloc),
        table: Vec::new(alloc),
    };
    Ok(Core {
        classes: Classes {
            list: vec![in alloc; part]?,
        },
        bodies: Vec::new(alloc),
        main: BodyId(0),
    })
}

const HERE: Place = Place { line: 1, column: 1 };

pub fn local(x: usize) -> Expr {
    Expr::Local(HERE, x)
}

fn number(n: i32) -> Expr {
    Expr::Int(HERE, n)
}

fn operation(
    alloc: Global,
    left: Expr,
    operator: Operator,
    right: Expr,
) -> Result<Expr, AllocError> {
    let links = vec![in alloc; Link::Operation(operator, right)]?;
    Ok(Expr::Chain(HERE, Box::new(alloc, left)?, links))
}

/// `0 <= x && this.v + 1 <= x + 1`, where `x` is the local after `this`.
pub fn condition(alloc: Global) -> Result<Expr, AllocError> {
    let steps = vec![in alloc; Step::Field(V)]?;
    let field = Expr::Path(HERE, Box::new(alloc, local(0))?, steps);
    let next_field = operation(alloc, field, Operator::Add, number(1))?;
    let next = operation(alloc, local(1), Operator::Add, number(1))?;
    let first = operation(alloc, number(0), Operator::LessEqual, local(1))?;
    let second = operation(alloc, next_field, Operator::LessEqual, next)?;
    operation(alloc, first, Operator::And, second)
}
