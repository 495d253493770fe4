// The context of an expression.

ghost use Rattle.std.specs.Prelude.{◌≡◌, IfOk};
ghost use Rattle.ss_logic.specs.Express as spec;
ghost use Rattle.ss_terms.specs.Forms.{IsGrown};
ghost use Rattle.ss_vcgen_express.specs.declared.meant.Meant.TheVariants as meant;
ghost use Rattle.ss_vcgen_express.specs.Numbers.{IsMeant};
ghost use Rattle.ss_vcgen_express.specs.Contexts.{context_at, state_of, HasContext};

use ss_core::{Classes, Ty};
use ss_terms::{Bank, TermId};
use std::alloc::AllocError;

/// The context of an expression: the classes, the stores now and at the entry of the body, and whether it stands inside `old`.
/// Also the types and terms of the locals, past which stand those of the bound names, and how many of these there are.
#[derive(Drop)]
pub struct Context<'p> {
    pub classes: &'p Classes,
    pub now: TermId,
    pub entry: TermId,
    pub inside_old: bool,
    pub types: Vec<Ty>,
    pub locals: Vec<TermId>,
    pub bound: usize,
}

impl Context<'_> {
    /// The store that is spoken of.
    pub fn state(&self) -> TermId
        ensures { result ≡ state_of self.entry.now }
    {
        if self.inside_old {
            self.entry
        } else {
            self.now
        }
    }
}

/// The term of a local; past the end it is null.
pub fn local_term(bank: &mut Bank, context: &Context<'_>, x: usize) -> Result<TermId, AllocError>
    requires { HasContext bank.old context.now }
    ensures at { IfOk result (λ t. IsMeant bank.new (meant.One t) (λ b. spec.local_meant (context_at b context.entry.now) x)) }
    ensures grown { IsGrown bank.old bank.new }
{
    match context.locals.get(x) {
        Some(t) => Ok(*t),
        None => bank.null(),
    }
}
