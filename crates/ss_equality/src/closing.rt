// Joins classes until any two terms that are one function at equal arguments are in one class.

ghost use Rattle.std.specs.Prelude.{◌≡◌, ℕ, ◌∷◌, ◌++◌, List, [], Some, length, map, slice_get, IfOk, OnOk, IsSome, MatchOption};
ghost use Rattle.ss_terms.specs.declared.forms.TermId.{TermId};
ghost use Rattle.ss_terms.specs.declared.forms.Symbol.{Symbol};
ghost use Rattle.ss_terms.specs.Forms.{AppShape, TermShape, term_shape};
ghost use Rattle.ss_equality_rules.specs.Equal.{AreFormsOf};
ghost use Rattle.ss_equality_rules.specs.declared.Merge.{Merge};
ghost use Rattle.ss_equality_rules.specs.Names.{name, named};
ghost use Rattle.ss_equality_rules.specs.Classes.{Classed};
ghost use Rattle.ss_equality_rules.specs.Whole.{Begins, IsKeyOf, Goes, IsWhole};

use crate::classes::Classes;
use crate::signatures::Signatures;
use ss_equality_rules::Pending;
use ss_terms::{Arguments, Bank, Term, TermId};
use std::alloc::{AllocError, Global};

// The names of the classes of these terms.
fn names(alloc: Global, classes: &Classes, terms: &[TermId]) -> Result<Arguments, AllocError>
    ensures { IfOk result (λ v. v.items ≡ map (named classes.now.log) terms.now) }
{
    let mut names = Arguments::new(alloc);
    for term in terms {
        names.push(TermId(classes.name(term.0)))?;
    }
    Ok(names)
}

// The signature of a term; none where it is no function.
fn key(alloc: Global, classes: &Classes, term: usize) -> Result<Option<Term>, AllocError>
    ensures { IfOk result (λ o. IsKeyOf classes.now term o) }
{
    match classes.form(term) {
        Some(Term::App(symbol, arguments)) => {
            let names = names(alloc, classes, arguments)?;
            Ok(Some(Term::App(*symbol, names)))
        }
        Some(Term::Bound(_)) => Ok(None),
        None => Ok(None),
    }
}

// A term gets its signature, or waits to be joined with the one that has it.
fn sign(
    alloc: Global,
    classes: &Classes,
    signatures: &mut Signatures,
    pending: &mut Vec<Pending>,
    term: usize,
) -> Result<(), AllocError>
    ensures begins { Begins signatures.old signatures.new }
    ensures goes { OnOk result ((ws : List ℕ) → Goes classes.now classes.now signatures.old signatures.new pending.old.items pending.new.items (term ∷ ws) ws) }
{
    let _joins = classes.join_count();
    let Some(key) = key(alloc, classes, term)? else {
        return Ok(());
    };
    match signatures.find(&key) {
        Some(other) => {
            pending.push(Pending {
                left: term,
                right: other,
                why: None,
            })?;
            Ok(())
        }
        None => signatures.add(key, term),
    }
}

// Each of these terms gets its signature.
fn sign_all(
    alloc: Global,
    classes: &Classes,
    signatures: &mut Signatures,
    pending: &mut Vec<Pending>,
    terms: &[usize],
) -> Result<(), AllocError>
    ensures begins { Begins signatures.old signatures.new }
    ensures goes { OnOk result (Goes classes.now classes.now signatures.old signatures.new pending.old.items pending.new.items terms.now []) }
{
    for term in terms {
        sign(alloc, classes, signatures, pending, *term)?;
    }
    Ok(())
}

/// The terms of a bank.
pub(crate) fn enter_all(alloc: Global, bank: &Bank, classes: &mut Classes) -> Result<(), AllocError>
    requires { classes.old ≡ record { forms = []; users = []; log = [] } }
    ensures forms { OnOk result (AreFormsOf bank.now classes.new.forms) }
    ensures log { classes.new.log ≡ [] }
{
    for number in 0..bank.term_count() {
        let form = copied(alloc, bank.term_node(TermId(number)))?;
        classes.enter(alloc, form)?;
    }
    Ok(())
}

// The same form.
fn copied(alloc: Global, form: &Term) -> Result<Term, AllocError>
    ensures { IfOk result (λ n. term_shape n ≡ term_shape form.now) }
{
    match form {
        Term::Bound(k) => Ok(Term::Bound(*k)),
        Term::App(symbol, arguments) => {
            let arguments = Arguments::from_slice(alloc, arguments)?;
            Ok(Term::App(*symbol, arguments))
        }
    }
}

/// Each term gets its signature, and what follows by congruence is joined.
pub(crate) fn sign_first(
    alloc: Global,
    classes: &mut Classes,
    signatures: &mut Signatures,
) -> Result<(), AllocError>
    requires log { classes.old.log ≡ [] }
    requires signatures { signatures.old ≡ [] }
    ensures forms { classes.new.forms ≡ classes.old.forms }
    ensures whole { OnOk result (IsWhole classes.old.forms [] classes.new.log signatures.new) }
{
    let mut pending = Vec::new(alloc);
    for term in 0..classes.term_count() {
        sign(alloc, classes, signatures, &mut pending, term)?;
    }
    settle(alloc, classes, signatures, &mut pending)
}

// Joins the classes of two terms, and gives the users of the one that got another name their new signatures.
fn settle_one(
    alloc: Global,
    classes: &mut Classes,
    signatures: &mut Signatures,
    pending: &mut Vec<Pending>,
    pair: Pending,
) -> Result<(), AllocError>
    ensures forms { classes.new.forms ≡ classes.old.forms }
    ensures log { Begins classes.old.log classes.new.log }
    ensures begins { Begins signatures.old signatures.new }
    ensures goes { OnOk result (Goes classes.old classes.new signatures.old signatures.new (pending.old.items ++ pair ∷ []) pending.new.items [] []) }
{
    match classes.join(alloc, pair.left, pair.right, pair.why)? {
        Some(class) => sign_all(alloc, classes, signatures, pending, classes.users(class)),
        None => Ok(()),
    }
}

/// Joins what waits, and what follows by congruence, until nothing waits. An error is want of memory: joins and signatures
/// may be added then.
pub(crate) fn settle(
    alloc: Global,
    classes: &mut Classes,
    signatures: &mut Signatures,
    pending: &mut Vec<Pending>,
) -> Result<(), AllocError>
    ensures forms { classes.new.forms ≡ classes.old.forms }
    ensures log { Begins classes.old.log classes.new.log }
    ensures begins { Begins signatures.old signatures.new }
    ensures goes { OnOk result (Goes classes.old classes.new signatures.old signatures.new pending.old.items [] [] []) }
{
    for _ in 0..usize::MAX {
        let Some(pair) = pending.pop() else {
            return Ok(());
        };
        settle_one(alloc, classes, signatures, pending, pair)?;
    }
    Err(AllocError)
}
