// The context at a position.

ghost use Rattle.std.specs.Prelude.{◌≡◌, map, IfOk};
ghost use Rattle.ss_vcgen_heaps.specs.Positions as positions;
ghost use Rattle.ss_vcgen_builder.specs.Builder.{position_at, walk_at, IsFine, IsWalk, Becomes};
ghost use Rattle.ss_vcgen_statements.specs.Contexts.{or_else};
ghost use Rattle.ss_vcgen_express.specs.Contexts.{IsContext};

use ss_terms::{Symbol, TermId};
use ss_vcgen_builder::{Builder, Walk};
use ss_vcgen_walk::Context;
use std::alloc::{AllocError, Global};

// The terms of locals, and this one for each that has none.
fn local_terms(
    alloc: Global,
    null: TermId,
    locals: &[Option<TermId>],
) -> Result<Vec<TermId>, AllocError>
    ensures { IfOk result (λ v. v.items ≡ map (or_else null) locals.now) }
{
    let mut terms = Vec::new(alloc);
    for local in locals {
        let term = match local {
            Some(t) => *t,
            None => null,
        };
        terms.push(term)?;
    }
    Ok(terms)
}

/// Where an expression of code stands, at the position of the builder.
pub fn context<'p>(builder: &mut Builder, walk: &Walk<'p>) -> Result<Context<'p>, AllocError>
    requires fine { IsFine builder.old }
    requires walk { IsWalk builder.old.bank walk.now }
    ensures at { IfOk result (λ c. IsContext builder.new.bank c (λ b. positions.context_at (walk_at b walk.now) (position_at b builder.old))) }
    ensures stays { IfOk result (λ c. Becomes builder.old builder.new (λ b. position_at b builder.old)) }
{
    let null = builder.bank.apply(Symbol::Null, &[])?;
    let types = Vec::from_slice(builder.alloc, walk.types)?;
    let locals = local_terms(builder.alloc, null, &builder.locals)?;
    Ok(Context {
        classes: &walk.core.classes,
        now: builder.store,
        entry: walk.entry,
        inside_old: false,
        types,
        locals,
        bound: 0,
    })
}
