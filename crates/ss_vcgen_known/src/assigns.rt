// The locals that a statement assigns.

ghost use Rattle.std.specs.Prelude.{◌≡◌, IfOk};
ghost use Rattle.ss_bit_set.specs.Marked.{marked};
ghost use Rattle.ss_core.specs.View.{stmt_of, block};
ghost use Rattle.ss_store_rules.specs.Locals.{is_kept_in, assigns};
ghost use Rattle.ss_store_rules.specs.NonNull.{both};
ghost use Rattle.ss_vcgen_known.specs.Assigns.{assigns_in, loop_of};

use ss_bit_set::BitSet;
use ss_core::{Loop, Stmt};
use std::alloc::{AllocError, Global};

fn put_kept(set: &mut BitSet, local: Option<usize>) -> Result<(), AllocError>
    ensures { IfOk result (λ u. marked set.new ≡ both (marked set.old) (is_kept_in local)) }
{
    match local {
        Some(local) => set.put(local, true),
        None => Ok(()),
    }
}

// Puts the locals that the statement assigns into the set.
#[cycle(assigns)]
fn put_assigned(set: &mut BitSet, stmt: &Stmt) -> Result<(), AllocError>
    ensures { IfOk result (λ u. marked set.new ≡ both (marked set.old) (assigns (stmt_of stmt.now))) }
{
    match stmt {
        Stmt::Assign(_, x, _) => put_kept(set, Some(*x)),
        Stmt::New(_, x, _, _) => put_kept(set, *x),
        Stmt::NewArray(_, x, _, _) => put_kept(set, *x),
        Stmt::Call(_, x, _, _) => put_kept(set, *x),
        Stmt::If(_, _, first, second) => {
            put_all(set, first)?;
            put_all(set, second)
        }
        Stmt::Loop(l) => put_loop(set, l),
        Stmt::Write { .. }
        | Stmt::WriteElement(..)
        | Stmt::Ready(_)
        | Stmt::Unpack(..)
        | Stmt::Pack(..)
        | Stmt::Assert(..)
        | Stmt::Assume(..)
        | Stmt::Print(..)
        | Stmt::PrintText(..)
        | Stmt::Return(..) => Ok(()),
    }
}

#[cycle(assigns)]
fn put_loop(set: &mut BitSet, l: &Loop) -> Result<(), AllocError>
    ensures { IfOk result (λ u. marked set.new ≡ both (marked set.old) (assigns (loop_of l.now))) }
{
    put_all(set, &l.prelude)?;
    put_all(set, &l.body)?;
    Ok(())
}

#[cycle(assigns)]
fn put_all(set: &mut BitSet, code: &[Stmt]) -> Result<(), AllocError>
    ensures { IfOk result (λ u. marked set.new ≡ both (marked set.old) (assigns_in (block code.now))) }
{
    for stmt in code {
        put_assigned(set, stmt)?;
    }
    Ok(())
}

/// The locals that the statement or one inside it assigns.
pub fn assigned(alloc: Global, stmt: &Stmt) -> Result<BitSet, AllocError>
    ensures { IfOk result (λ m. marked m ≡ assigns (stmt_of stmt.now)) }
{
    let mut set = BitSet::new(alloc);
    put_assigned(&mut set, stmt)?;
    Ok(set)
}
