// The assignments with which a block begins.

ghost use Rattle.std.specs.Prelude.{◌≡◌, ◌≤◌, IfOk, length, take, drop, map, true};
ghost use Rattle.ss_typed.specs.Tree.{StmtTree, Before, stmt_trees};
ghost use Rattle.ss_typed.specs.View as typed;
ghost use Rattle.ss_expand_rules.specs.Constructors as constructors;
ghost use Rattle.ss_expand_rules.specs.Ends as ends;
ghost use Rattle.ss_expand_programs.specs.Constructing as constructing;

use ss_paths_assigned::{Fields, count_first};
use ss_typed::{Typed, TypedBody, TypedStmt};
use std::alloc::{AllocError, Global};

/// How many statements of a constructor's block stand before `base()`, where nothing writes it: in one that isn't delayed the
/// assignments with which the block begins.
pub fn front_length(
    alloc: Global,
    program: &Typed,
    body: &TypedBody,
    stmts: &[TypedStmt],
) -> Result<usize, AllocError>
    ensures within { IfOk result (λ n. n ≤ length stmts.now) }
    ensures split { IfOk result (λ n. (s : StmtTree) → constructing.with_implied (typed.typed program.now) (typed.body body.now) s (stmt_trees (map typed.stmt_of stmts.now))
        ≡ constructors.before_all (stmt_trees (map typed.stmt_of (take n stmts.now))) (Before s (stmt_trees (map typed.stmt_of (drop n stmts.now))))) }
    ensures ends { IfOk result (λ n. ends.all_can_end (stmt_trees (map typed.stmt_of (take n stmts.now))) ≡ true) }
{
    if body.flags.delayed {
        return Ok(0);
    }
    let fields = Fields::new(alloc, program)?;
    let count = count_first(&fields, body.class, stmts);
    Ok(count)
}
