// What a guarded formula says, where its guard is known.

ghost use Rattle.std.specs.Prelude.{◌≡◌, ◌++◌, ◌∷◌, [], List, Some, slice_get, IfOk, OnOk};
ghost use Rattle.ss_core.specs.Tree.{ClassTree};
ghost use Rattle.ss_logic.specs.Formulas.{Formula};
ghost use Rattle.ss_terms.specs.Forms.{formula_at, terms_at, HasTerms};
ghost use Rattle.ss_deriv.specs.Lines.{line_of};
ghost use Rattle.ss_rules_opened.specs.Views.{origin_with, origin_at};
ghost use Rattle.ss_search_path.specs.Paths.{known_on, GoesOn};
ghost use Rattle.ss_search_path.specs.Standing as spec;
ghost use Rattle.ss_search_path.specs.Standing.{IsGiven, IsGuardedAt};

use crate::Path;
use crate::standing::Given;
use ss_deriv::Line;
use ss_rules_asked::Rule;
use ss_rules_opened::{Origin, Source};
use ss_terms::{Bank, FormulaId, TermId};
use std::alloc::{AllocError, Global};

// The line of a source and these terms, where what guards it is known at the place.
fn line_with(bank: &Bank, source: Source, terms: Vec<TermId>, place: usize) -> Line
    requires { HasTerms bank.now terms.items }
    ensures { line_of bank.now result ≡ spec.line_from (origin_with bank.now source (terms_at bank.now terms.items)) place }
{
    let _ = bank;
    match source {
        Source::Premise(number) => Line::Premise { number },
        Source::Denied => Line::Denied,
        Source::Rule(Rule::True(name)) => Line::Rule {
            name,
            arguments: terms,
        },
        Source::Rule(Rule::Good(name, _store)) => Line::Good {
            name,
            store: place,
            arguments: terms,
        },
        Source::Rule(Rule::Invariants(_store)) => Line::Invariants {
            store: place,
            arguments: terms,
        },
        Source::Forall(_whole) => Line::Inst { of: place, terms },
    }
}

/// The line that makes known what an origin says, where what guards it is known at the place. An error is want of memory.
pub fn line_from(
    alloc: Global,
    bank: &Bank,
    origin: &Origin,
    place: usize,
) -> Result<Line, AllocError>
    requires { HasTerms bank.now origin.now.terms.items }
    ensures { IfOk result (λ line. line_of bank.now line ≡ spec.line_from (origin_at bank.now origin.now) place) }
{
    let terms = Vec::from_slice(alloc, &origin.terms)?;
    Ok(line_with(bank, origin.source, terms, place))
}

impl Given<'_> {
    /// The body of a guarded formula is known, where its guard is the fact at a place.
    pub fn body(
        &self,
        path: &mut Path,
        origin: usize,
        place: usize,
        body: FormulaId,
    ) -> Result<(), AllocError>
        requires { IsGiven self.now }
        ensures known { OnOk result (path.new.known.items ≡ path.old.known.items ++ body ∷ []) }
        ensures goes_on { OnOk result ((cs : List ClassTree) (premises : List Formula) (goal : Formula) (f : Formula) (is : IsGuardedAt cs self.now origin f) → slice_get (known_on self.now.bank.now path.old) place ≡ Some is.guarded.guard → formula_at self.now.bank.now body ≡ is.guarded.body → GoesOn cs premises goal self.now.bank.now path.old path.new) }
    {
        if origin >= self.origins.len() {
            return path.fact(self.bank, Line::Denied, body);
        }
        let line = line_from(self.alloc, self.bank, &self.origins[origin], place)?;
        path.fact(self.bank, line, body)
    }
}
