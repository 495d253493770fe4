// The statements of constructors.

ghost use Rattle.std.specs.Prelude.{◌≡◌, IfOk, OnOk, true, map, option_map};
ghost use Rattle.ss_typed.specs.Tree.{Before, stmt_trees};
ghost use Rattle.ss_typed.specs.View as typed;
ghost use Rattle.ss_expand_rules.specs.Code.{after};
ghost use Rattle.ss_expand_rules.specs.Constructors as constructors;
ghost use Rattle.ss_expand_rules.specs.Ends as ends;
ghost use Rattle.ss_expand_rules.specs.Statements as statements;
ghost use Rattle.ss_expand_expressions.specs.Sources.{stmts_of};
ghost use Rattle.ss_expand_lifting.specs.Made.{coded_by};
ghost use Rattle.ss_expand_lifting.specs.Contexts.{context_of};
ghost use Rattle.ss_expand_programs.specs.Constructing.{constructed, with_implied};

use crate::initial::front_length;
use crate::initializers::add_initializers;
use crate::statements::add_stmts;
use ss_core::Ty;
use ss_expand_lifting::{Code, ElaborationContext, base_call};
use ss_typed::{TypedBase, TypedStmt, has_base};
use std::alloc::AllocError;

// Adds `base()`, at the constructor's name, between these statements.
fn add_base_between(
    context: &ElaborationContext<'_>,
    front: &[TypedStmt],
    others: &[TypedStmt],
    code: &mut Code,
    made: &mut Vec<Ty>,
) -> Result<bool, AllocError>
    requires { ends.all_can_end (stmt_trees (map typed.stmt_of front.now)) ≡ true }
    ensures coded { OnOk result (coded_by code.new made.new
        ≡ after (stmts_of code.old.statements) (statements.stmts (context_of context.now) (constructors.before_all (stmt_trees (map typed.stmt_of front.now)) (Before (constructors.base_alone (typed.body context.now.body.now)) (stmt_trees (map typed.stmt_of others.now)))) made.old.items)) }
    ensures ends { IfOk result (λ reached. reached ≡ ends.all_can_end (stmt_trees (map typed.stmt_of others.now))) }
{
    add_stmts(context, front, code, made)?;
    base_call(context, context.body.place, &[], code, made)?;
    let reached = add_stmts(context, others, code, made)?;
    Ok(reached)
}

// Adds the statements of the block, with `base()` where it is put.
fn add_with_implied(
    context: &ElaborationContext<'_>,
    stmts: &[TypedStmt],
    code: &mut Code,
    made: &mut Vec<Ty>,
) -> Result<bool, AllocError>
    ensures coded { OnOk result (coded_by code.new made.new
        ≡ after (stmts_of code.old.statements) (statements.stmts (context_of context.now) (with_implied (typed.typed context.now.program.now) (typed.body context.now.body.now) (constructors.base_alone (typed.body context.now.body.now)) (stmt_trees (map typed.stmt_of stmts.now))) made.old.items)) }
    ensures ends { IfOk result (λ reached. reached ≡ ends.all_can_end (with_implied (typed.typed context.now.program.now) (typed.body context.now.body.now) (constructors.base_alone (typed.body context.now.body.now)) (stmt_trees (map typed.stmt_of stmts.now)))) }
{
    let length = front_length(context.alloc, context.program, context.body, stmts)?;
    let front = &stmts[..length];
    let others = &stmts[length..];
    let reached = add_base_between(context, front, others, code, made)?;
    Ok(reached)
}

// Adds the statements of the block, after the call of the constructor above that the heading writes.
fn add_after_base(
    context: &ElaborationContext<'_>,
    base: &TypedBase,
    stmts: &[TypedStmt],
    code: &mut Code,
    made: &mut Vec<Ty>,
) -> Result<bool, AllocError>
    ensures coded { OnOk result (coded_by code.new made.new
        ≡ after (stmts_of code.old.statements) (statements.stmts (context_of context.now) (Before (constructors.base_above (typed.base base.now)) (stmt_trees (map typed.stmt_of stmts.now))) made.old.items)) }
    ensures ends { IfOk result (λ reached. reached ≡ ends.all_can_end (stmt_trees (map typed.stmt_of stmts.now))) }
{
    base_call(context, base.place, &base.arguments, code, made)?;
    let reached = add_stmts(context, stmts, code, made)?;
    Ok(reached)
}

// Adds the statements of the block, with a call of the constructor above.
fn add_with_base(
    context: &ElaborationContext<'_>,
    base: &Option<TypedBase>,
    stmts: &[TypedStmt],
    code: &mut Code,
    made: &mut Vec<Ty>,
) -> Result<bool, AllocError>
    ensures coded { OnOk result (coded_by code.new made.new
        ≡ after (stmts_of code.old.statements) (statements.stmts (context_of context.now) (constructors.with_base (typed.typed context.now.program.now) (typed.body context.now.body.now) (option_map typed.base base.now) (stmt_trees (map typed.stmt_of stmts.now))) made.old.items)) }
    ensures ends { IfOk result (λ reached. reached ≡ ends.all_can_end (constructors.with_base (typed.typed context.now.program.now) (typed.body context.now.body.now) (option_map typed.base base.now) (stmt_trees (map typed.stmt_of stmts.now)))) }
{
    match base {
        Some(base) => add_after_base(context, base, stmts, code, made),
        None => {
            if has_base(stmts) {
                add_stmts(context, stmts, code, made)
            } else {
                add_with_implied(context, stmts, code, made)
            }
        }
    }
}

/// Adds the statements of the constructor, whose block has these. The result says whether their end can be reached.
pub fn add_constructor(
    context: &ElaborationContext<'_>,
    stmts: &[TypedStmt],
    code: &mut Code,
    made: &mut Vec<Ty>,
) -> Result<bool, AllocError>
    ensures coded { OnOk result (coded_by code.new made.new
        ≡ after (stmts_of code.old.statements) (statements.stmts (context_of context.now) (constructed (typed.typed context.now.program.now) (typed.body context.now.body.now) (stmt_trees (map typed.stmt_of stmts.now))) made.old.items)) }
    ensures ends { IfOk result (λ reached. reached ≡ ends.all_can_end (constructed (typed.typed context.now.program.now) (typed.body context.now.body.now) (stmt_trees (map typed.stmt_of stmts.now)))) }
{
    add_initializers(context, code, made)?;
    let reached = add_with_base(context, &context.body.base, stmts, code, made)?;
    Ok(reached)
}
