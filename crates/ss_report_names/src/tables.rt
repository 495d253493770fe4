// The tables of a program and of a body.

ghost use Rattle.std.specs.Prelude.{◌≡◌, ℕ, List, [], ◌∷◌, ◌++◌, OnOk, IfOk, codes, if◌then◌else◌};
ghost use Rattle.ss_core.specs.View as view;
ghost use Rattle.ss_core.specs.declared.names.Ty.{Ty};
ghost use Rattle.ss_report_names.specs.Names as names;
ghost use Rattle.ss_report_names.specs.Tables.{IsTable};
ghost use Rattle.ss_report_names.specs.Contexts.{core_of};

use crate::context::{Locals, Program};
use crate::fields::field_names;
use crate::locals::Table;
use ss_core::{Body, Core, Ty};
use std::alloc::{AllocError, Global};

impl<'a> Program<'a> {
    /// The tables of this program. The error is want of memory.
    pub fn new(alloc: Global, whole: &'a Core) -> Result<Program<'a>, AllocError>
        ensures { IfOk result (λ p. core_of p ≡ view.core whole.now) }
    {
        let fields = field_names(alloc, &whole.classes)?;
        Ok(Program { whole, fields })
    }
}

fn add_this(table: &mut Table<'_>, alloc: Global, is_static: bool) -> Result<(), AllocError>
    ensures { (earlier : List (List ℕ)) → IsTable earlier table.old → OnOk result (IsTable (earlier ++ (if is_static then [] else codes "this" ∷ [])) table.new) }
{
    if is_static {
        return Ok(());
    }
    table.add(alloc, "this")
}

fn add_result(table: &mut Table<'_>, alloc: Global, result_ty: Option<Ty>) -> Result<(), AllocError>
    ensures { (earlier : List (List ℕ)) → IsTable earlier table.old → OnOk result (IsTable (earlier ++ names.result_names result_ty) table.new) }
{
    match result_ty {
        None => Ok(()),
        Some(_) => table.add(alloc, "result"),
    }
}

fn body_table(alloc: Global, body: &Body) -> Result<Table<'_>, AllocError>
    ensures { IfOk result (IsTable (names.local_names (view.body body.now))) }
{
    let mut table = Table::new(alloc);
    add_this(&mut table, alloc, body.flags.is_static)?;
    table.add_all(alloc, &body.params)?;
    table.add_all(alloc, &body.locals)?;
    add_result(&mut table, alloc, body.result)?;
    Ok(table)
}

impl<'a> Locals<'a> {
    /// The table of the locals of this body. The error is want of memory.
    pub fn new(alloc: Global, body: &'a Body) -> Result<Locals<'a>, AllocError>
        ensures { IfOk result (λ l. view.body l.body.now ≡ view.body body.now) }
    {
        let table = body_table(alloc, body)?;
        Ok(Locals { body, table })
    }
}
