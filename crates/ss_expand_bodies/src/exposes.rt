// The exposes around a statement.

ghost use Rattle.std.specs.Prelude.{◌≡◌, ◌++◌, IfOk, OnOk, map, reverse};
ghost use Rattle.ss_core.specs.View as core;
ghost use Rattle.ss_typed.specs.View as typed;
ghost use Rattle.ss_expand_rules.specs.Lifting as lifting;
ghost use Rattle.ss_expand_rules.specs.Statements as statements;
ghost use Rattle.ss_expand_expressions.specs.Sources.{stmts_of};
ghost use Rattle.ss_expand_bodies.specs.Exposes.{opened_of};

use ss_core::{ClassId, Exposed, Place, Stmt};
use ss_expand_expressions::add_stmt;
use ss_typed::TypedBody;
use std::alloc::{AllocError, Global};

/// An `expose` around a statement: its place, the temporary with the object, and the class.
#[derive(Clone, Copy)]
pub struct Opened {
    pub place: Place,
    pub local: usize,
    pub class: ClassId,
}

/// The pack at its end.
pub fn pack_of(opened: Opened) -> Stmt
    ensures { core.stmt_of result ≡ statements.pack_of (opened_of opened) }
{
    Stmt::Pack(opened.place, opened.local, opened.class)
}

fn exposed(opened: Opened) -> Exposed
    ensures { core.exposed_tree result ≡ statements.exposed (opened_of opened) }
{
    Exposed {
        local: opened.local,
        class: opened.class,
    }
}

/// The exposes around a loop, from the outermost inwards.
pub fn list_exposed(alloc: Global, exposes: &[Opened]) -> Result<Vec<Exposed>, AllocError>
    ensures { IfOk result (λ es. map core.exposed_tree es.items ≡ map statements.exposed (map opened_of exposes.now)) }
{
    let mut list = Vec::new(alloc);
    for opened in exposes {
        list.push(exposed(*opened))?;
    }
    Ok(list)
}

/// Adds the pack of `this` before a return at this place, which a constructor has.
pub fn add_pack_this(code: &mut Vec<Stmt>, body: &TypedBody, place: Place) -> Result<(), AllocError>
    ensures { (s : lifting.ElaborationContext) → s.body ≡ typed.body body.now
        → OnOk result (stmts_of code.new ≡ stmts_of code.old ++ statements.pack_this s place) }
{
    if body.flags.ctor {
        add_stmt(code, Stmt::Pack(place, 0, body.class))?;
    }
    Ok(())
}

/// Adds the packs of these exposes, from the innermost outwards.
pub fn add_packs(code: &mut Vec<Stmt>, exposes: &[Opened]) -> Result<(), AllocError>
    ensures { OnOk result (stmts_of code.new ≡ stmts_of code.old ++ map statements.pack_of (reverse (map opened_of exposes.now))) }
{
    let mut rest = exposes;
    while let Some((last, before)) = rest.split_last() {
        add_stmt(code, pack_of(*last))?;
        rest = before;
    }
    Ok(())
}
