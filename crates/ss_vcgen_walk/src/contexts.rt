// Contexts inside `old` and inside a quantifier.

ghost use Rattle.std.specs.Prelude.{◌≡◌, ◌+◌, IfOk};
ghost use Rattle.ss_logic.specs.Express as spec;
ghost use Rattle.ss_terms.specs.Forms.{Forms, IsGrown};
ghost use Rattle.ss_vcgen_express.specs.Contexts.{context_at, HasContext, IsContext};
ghost use Rattle.ss_vcgen_walk.specs.Reading.{IsWithName};

use ss_core::Ty;
use ss_terms::{Bank, Term, TermId};
use ss_vcgen_express::Context;
use std::alloc::{AllocError, Global};

/// The context inside `old`.
pub(crate) fn at_entry<'p>(alloc: Global, context: &Context<'p>) -> Result<Context<'p>, AllocError>
    ensures same { IfOk result (λ c. (b : Forms) → context_at b c ≡ spec.at_entry (context_at b context.entry.now)) }
    ensures has { IfOk result (λ c. (b : Forms) → HasContext b context.entry.now → HasContext b c) }
{
    let types = Vec::from_slice(alloc, &context.types)?;
    let locals = Vec::from_slice(alloc, &context.locals)?;
    Ok(Context {
        classes: context.classes,
        now: context.now,
        entry: context.entry,
        inside_old: true,
        types,
        locals,
        bound: context.bound,
    })
}

// The context with one more local, which is this bound name.
fn with_name<'p>(
    alloc: Global,
    context: &Context<'p>,
    name: TermId,
    bound: usize,
) -> Result<Context<'p>, AllocError>
    requires { bound ≡ context.now.bound + 1 }
    ensures { IfOk result (λ c. IsWithName context.entry.now name c) }
{
    let mut types = Vec::from_slice(alloc, &context.types)?;
    types.push(Ty::Int)?;
    let mut locals = Vec::from_slice(alloc, &context.locals)?;
    locals.push(name)?;
    Ok(Context {
        classes: context.classes,
        now: context.now,
        entry: context.entry,
        inside_old: context.inside_old,
        types,
        locals,
        bound,
    })
}

/// The context inside a quantifier.
pub(crate) fn with_bound<'p>(
    alloc: Global,
    bank: &mut Bank,
    context: &Context<'p>,
) -> Result<Context<'p>, AllocError>
    requires { HasContext bank.old context.now }
    ensures at { IfOk result (λ c. IsContext bank.new c (λ b. spec.with_bound (context_at b context.entry.now))) }
    ensures grown { IsGrown bank.old bank.new }
{
    let name = bank.term(Term::Bound(context.bound))?;
    match context.bound.checked_add(1) {
        Some(bound) => with_name(alloc, context, name, bound),
        None => Err(AllocError),
    }
}
