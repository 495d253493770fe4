// Calls: the conditions at entry, and what is known after.

ghost use Rattle.std.specs.Prelude.{◌≡◌, [], ◌∷◌, ◌++◌, option_map, IfOk, OnOk};
ghost use Rattle.ss_core.specs.View.{classes, expr, exprs, callee_tree};
ghost use Rattle.ss_store_rules.specs.Locals.{receiver};
ghost use Rattle.ss_core.specs.Tree as tree;
ghost use Rattle.ss_logic.specs.declared.Sort.TheVariants as sort;
ghost use Rattle.ss_logic.specs.Terms.{sort_of_type};
ghost use Rattle.ss_logic.specs.Express.{One};
ghost use Rattle.ss_logic.specs.Frames.{kept, grown};
ghost use Rattle.ss_terms.specs.Forms.{term_at, terms_at, HasTerm, HasTerms};
ghost use Rattle.ss_vcgen_heaps.specs.Positions as position;
ghost use Rattle.ss_vcgen_heaps.specs.Contracts as contract;
ghost use Rattle.ss_vcgen_heaps.specs.Obligations as spec;
ghost use Rattle.ss_vcgen_express.specs.Numbers.{IsFormula, AreFormulas};
ghost use Rattle.ss_vcgen_builder.specs.Builder.{position_at, walk_at, IsFine, IsWalk, Becomes};
ghost use Rattle.ss_vcgen_contracts.specs.Views.{contract_of, ones_at, AreOnes};
ghost use Rattle.ss_vcgen_statements.specs.Words.{Stays, AreTerms};
ghost use Rattle.ss_vcgen_bodies.specs.CallWords.{result_said, changes_assumed, promises_assumed};

use crate::arguments::{behind, element_sort, settle_call};
use ss_core::{Callee, Expr, Kind, Place, Ty};
use ss_logic::Sort;
use ss_terms::{FormulaId, TermId};
use ss_vcgen_builder::{Builder, Walk};
use ss_vcgen_contracts::{
    Contract, Run, called, entry_conditions, exit_conditions, frame, grown, is_of_type,
};
use ss_vcgen_statements::{check_not_null, good};
use std::alloc::AllocError;

/// The conditions at entry.
pub fn entry_said(
    builder: &mut Builder,
    walk: &Walk<'_>,
    callee: Contract<'_>,
    arguments: &[TermId],
) -> Result<Vec<FormulaId>, AllocError>
    requires fine { IsFine builder.old }
    requires walk { IsWalk builder.old.bank walk.now }
    requires arguments { HasTerms builder.old.bank arguments.now }
    ensures at { IfOk result (λ v. AreFormulas builder.new.bank v.items (λ b. contract.conditions (contract_of callee.entry).entry (contract.contract_context (classes walk.now.core.now.classes) (contract_of callee.entry) (term_at b builder.old.store) (term_at b builder.old.store) (ones_at b arguments.now) (contract.no_result (contract_of callee.entry))))) }
    ensures stays { IfOk result (λ v. Stays builder.old builder.new) }
{
    entry_conditions(
        builder.alloc,
        &mut builder.bank,
        &walk.core.classes,
        callee,
        builder.store,
        arguments,
    )
}

/// The conditions at entry are checked.
pub fn check_entry(
    builder: &mut Builder,
    walk: &Walk<'_>,
    at: Place,
    callee: Contract<'_>,
    arguments: &[TermId],
) -> Result<(), AllocError>
    requires fine { IsFine builder.old }
    requires walk { IsWalk builder.old.bank walk.now }
    requires arguments { HasTerms builder.old.bank arguments.now }
    ensures { OnOk result (Becomes builder.old builder.new (λ b. spec.check_entry (walk_at b walk.now) at (contract_of callee.entry) (ones_at b arguments.now) (position_at b builder.old))) }
{
    let said = entry_said(builder, walk, callee, arguments)?;
    builder.check_all(walk, Kind::Precondition, at, &said)?;
    Ok(())
}

// No terms.
fn no_terms(builder: &mut Builder) -> Result<Vec<TermId>, AllocError>
    requires { IsFine builder.old }
    ensures at { IfOk result (λ v. AreTerms builder.new.bank v.items (λ b. [])) }
    ensures stays { IfOk result (λ v. Stays builder.old builder.new) }
{
    Ok(Vec::new(builder.alloc))
}

// A new constant of a type, alone.
fn new_result(builder: &mut Builder, ty: Ty) -> Result<Vec<TermId>, AllocError>
    requires { IsFine builder.old }
    ensures at { IfOk result (λ v. AreTerms builder.new.bank v.items (λ b. position.new_term (sort_of_type ty) (position_at b builder.old) ∷ [])) }
    ensures becomes { IfOk result (λ v. Becomes builder.old builder.new (λ b. position.with_new (sort_of_type ty) (position_at b builder.old))) }
{
    let t = builder.new_term(element_sort(Some(ty)))?;
    let results = Vec::from_slice(builder.alloc, &[t])?;
    Ok(results)
}

// A new constant for the result, where there is one.
fn new_results(builder: &mut Builder, ty: Option<Ty>) -> Result<Vec<TermId>, AllocError>
    requires { IsFine builder.old }
    ensures at { IfOk result (λ v. AreTerms builder.new.bank v.items (λ b. spec.result_term ty (position_at b builder.old))) }
    ensures becomes { IfOk result (λ v. Becomes builder.old builder.new (λ b. spec.with_result ty (position_at b builder.old))) }
{
    match ty {
        None => no_terms(builder),
        Some(ty) => new_result(builder, ty),
    }
}

/// No more has changed since the other store than the callee may change.
pub fn frame_said(
    builder: &mut Builder,
    walk: &Walk<'_>,
    callee: Contract<'_>,
    before: TermId,
    arguments: &[TermId],
    outside: &[TermId],
) -> Result<FormulaId, AllocError>
    requires fine { IsFine builder.old }
    requires walk { IsWalk builder.old.bank walk.now }
    requires before { HasTerm builder.old.bank before }
    requires arguments { HasTerms builder.old.bank arguments.now }
    requires outside { HasTerms builder.old.bank outside.now }
    ensures at { IfOk result (λ f. IsFormula builder.new.bank f (λ b. kept (classes walk.now.core.now.classes) (contract.frame_terms (classes walk.now.core.now.classes) (contract_of callee.entry) (term_at b before) (term_at b builder.old.store) (ones_at b arguments.now) (terms_at b outside.now)))) }
    ensures stays { IfOk result (λ f. Stays builder.old builder.new) }
{
    let run = Run {
        before,
        after: builder.store,
        arguments,
    };
    frame(
        builder.alloc,
        &mut builder.bank,
        walk.core,
        callee,
        run,
        outside,
    )
}

/// The store has grown out of the other one.
pub fn grown_said(
    builder: &mut Builder,
    before: TermId,
    after: TermId,
) -> Result<FormulaId, AllocError>
    requires fine { IsFine builder.old }
    requires before { HasTerm builder.old.bank before }
    requires after { HasTerm builder.old.bank after }
    ensures at { IfOk result (λ f. IsFormula builder.new.bank f (λ b. grown (term_at b before) (term_at b after))) }
    ensures stays { IfOk result (λ f. Stays builder.old builder.new) }
{
    grown(builder.alloc, &mut builder.bank, before, after)
}

// What has changed since the other store is known.
fn assume_changes(
    builder: &mut Builder,
    walk: &Walk<'_>,
    callee: Contract<'_>,
    before: TermId,
    arguments: &[TermId],
) -> Result<(), AllocError>
    requires fine { IsFine builder.old }
    requires walk { IsWalk builder.old.bank walk.now }
    requires before { HasTerm builder.old.bank before }
    requires arguments { HasTerms builder.old.bank arguments.now }
    ensures { OnOk result (Becomes builder.old builder.new (λ b. changes_assumed (classes walk.now.core.now.classes) (contract_of callee.entry) (term_at b before) (ones_at b arguments.now) (position_at b builder.old))) }
{
    let store = builder.store;
    let kept = frame_said(builder, walk, callee, before, arguments, &[])?;
    let larger = grown_said(builder, before, store)?;
    builder.assume_all(&[kept, larger])?;
    Ok(())
}

/// The conditions at exit.
pub fn exit_said(
    builder: &mut Builder,
    walk: &Walk<'_>,
    callee: Contract<'_>,
    run: Run<'_>,
    results: &[TermId],
) -> Result<Vec<FormulaId>, AllocError>
    requires fine { IsFine builder.old }
    requires walk { IsWalk builder.old.bank walk.now }
    requires before { HasTerm builder.old.bank run.before }
    requires after { HasTerm builder.old.bank run.after }
    requires arguments { HasTerms builder.old.bank run.arguments.now }
    requires results { HasTerms builder.old.bank results.now }
    ensures at { IfOk result (λ v. AreFormulas builder.new.bank v.items (λ b. contract.conditions (contract_of callee.entry).exit (contract.contract_context (classes walk.now.core.now.classes) (contract_of callee.entry) (term_at b run.entry.after) (term_at b run.entry.before) (ones_at b run.entry.arguments.now) (ones_at b results.now)))) }
    ensures stays { IfOk result (λ v. Stays builder.old builder.new) }
{
    exit_conditions(
        builder.alloc,
        &mut builder.bank,
        &walk.core.classes,
        callee,
        run,
        results,
    )
}

/// That the value is of the type.
pub fn type_said(
    builder: &mut Builder,
    store: TermId,
    asks_ready: bool,
    ty: Ty,
    x: TermId,
) -> Result<Vec<FormulaId>, AllocError>
    requires fine { IsFine builder.old }
    requires store { HasTerm builder.old.bank store }
    requires value { HasTerm builder.old.bank x }
    ensures at { IfOk result (λ v. AreFormulas builder.new.bank v.items (λ b. contract.is_of_type asks_ready (term_at b store) ty (term_at b x))) }
    ensures stays { IfOk result (λ v. Stays builder.old builder.new) }
{
    is_of_type(builder.alloc, &mut builder.bank, asks_ready, store, ty, x)
}

// No formulas.
fn no_formulas(builder: &mut Builder) -> Result<Vec<FormulaId>, AllocError>
    requires { IsFine builder.old }
    ensures at { IfOk result (λ v. AreFormulas builder.new.bank v.items (λ b. [])) }
    ensures stays { IfOk result (λ v. Stays builder.old builder.new) }
{
    Ok(Vec::new(builder.alloc))
}

// That the first of these is of the type.
fn first_said(
    builder: &mut Builder,
    store: TermId,
    ty: Ty,
    results: &[TermId],
) -> Result<Vec<FormulaId>, AllocError>
    requires fine { IsFine builder.old }
    requires store { HasTerm builder.old.bank store }
    requires results { HasTerms builder.old.bank results.now }
    ensures at { IfOk result (λ v. AreFormulas builder.new.bank v.items (λ b. result_said (Some ty) (term_at b store) (terms_at b results.now))) }
    ensures stays { IfOk result (λ v. Stays builder.old builder.new) }
{
    match results {
        [x, ..] => type_said(builder, store, true, ty, *x),
        [] => no_formulas(builder),
    }
}

// That the result is of its type, where there is one.
fn result_said(
    builder: &mut Builder,
    store: TermId,
    ty: Option<Ty>,
    results: &[TermId],
) -> Result<Vec<FormulaId>, AllocError>
    requires fine { IsFine builder.old }
    requires store { HasTerm builder.old.bank store }
    requires results { HasTerms builder.old.bank results.now }
    ensures at { IfOk result (λ v. AreFormulas builder.new.bank v.items (λ b. result_said ty (term_at b store) (terms_at b results.now))) }
    ensures stays { IfOk result (λ v. Stays builder.old builder.new) }
{
    match ty {
        Some(ty) => first_said(builder, store, ty, results),
        None => no_formulas(builder),
    }
}

// The store is good, what the callee promises holds, and its result is of its type.
fn assume_promises(
    builder: &mut Builder,
    walk: &Walk<'_>,
    callee: Contract<'_>,
    before: TermId,
    arguments: &[TermId],
    results: &[TermId],
) -> Result<(), AllocError>
    requires fine { IsFine builder.old }
    requires walk { IsWalk builder.old.bank walk.now }
    requires before { HasTerm builder.old.bank before }
    requires arguments { HasTerms builder.old.bank arguments.now }
    requires results { HasTerms builder.old.bank results.now }
    ensures { OnOk result (Becomes builder.old builder.new (λ b. promises_assumed (classes walk.now.core.now.classes) (contract_of callee.entry) callee.entry.body.now.result (term_at b before) (ones_at b arguments.now) (terms_at b results.now) (position_at b builder.old))) }
{
    let store = builder.store;
    let is_good = good(builder, store)?;
    let run = Run {
        before,
        after: store,
        arguments,
    };
    let said = exit_said(builder, walk, callee, run, results)?;
    let typed = result_said(builder, store, callee.body.result, results)?;
    builder.assume(is_good)?;
    builder.assume_all(&said)?;
    builder.assume_all(&typed)?;
    Ok(())
}

/// After a call: a new store, and a new constant for the result.
pub fn returned(
    builder: &mut Builder,
    walk: &Walk<'_>,
    callee: Contract<'_>,
    arguments: &[TermId],
) -> Result<Vec<TermId>, AllocError>
    requires fine { IsFine builder.old }
    requires walk { IsWalk builder.old.bank walk.now }
    requires arguments { HasTerms builder.old.bank arguments.now }
    ensures at { IfOk result (λ v. AreTerms builder.new.bank v.items (λ b. spec.result_term (contract_of callee.entry).result (position.with_new sort.Store (position_at b builder.old)))) }
    ensures becomes { IfOk result (λ v. Becomes builder.old builder.new (λ b. spec.returned (walk_at b walk.now) (contract_of callee.entry) (ones_at b arguments.now) (position_at b builder.old))) }
{
    let before = builder.store;
    let store = builder.new_term(Sort::Store)?;
    let results = new_results(builder, callee.body.result)?;
    builder.set_store(store);
    assume_changes(builder, walk, callee, before, arguments)?;
    assume_promises(builder, walk, callee, before, arguments, &results)?;
    Ok(results)
}

/// A local keeps the result, where there are both.
pub fn keep(builder: &mut Builder, x: Option<usize>, results: &[TermId])
    requires fine { IsFine builder.old }
    requires results { HasTerms builder.old.bank results.now }
    ensures { Becomes builder.old builder.new (λ b. spec.keep x (terms_at b results.now) (position_at b builder.old)) }
{
    match x {
        Some(x) => keep_in(builder, x, results),
        None => {}
    }
}

// The local keeps the first of these, where there is one.
fn keep_in(builder: &mut Builder, x: usize, results: &[TermId])
    requires fine { IsFine builder.old }
    requires results { HasTerms builder.old.bank results.now }
    ensures { Becomes builder.old builder.new (λ b. spec.keep (Some x) (terms_at b results.now) (position_at b builder.old)) }
{
    match results {
        [t, ..] => builder.set_local(x, *t),
        [] => {}
    }
}

// A call of a body that is there.
fn call_there(
    builder: &mut Builder,
    walk: &Walk<'_>,
    at: Place,
    x: Option<usize>,
    callee: Contract<'_>,
    arguments: &[TermId],
) -> Result<(), AllocError>
    requires fine { IsFine builder.old }
    requires walk { IsWalk builder.old.bank walk.now }
    requires arguments { HasTerms builder.old.bank arguments.now }
    ensures { OnOk result (Becomes builder.old builder.new (λ b. spec.call (walk_at b walk.now) at x (Some (contract_of callee.entry)) (ones_at b arguments.now) (position_at b builder.old))) }
{
    check_entry(builder, walk, at, callee, arguments)?;
    let results = returned(builder, walk, callee, arguments)?;
    keep(builder, x, &results);
    Ok(())
}

// A call, of which nothing is known where its body isn't there.
fn call(
    builder: &mut Builder,
    walk: &Walk<'_>,
    at: Place,
    x: Option<usize>,
    callee: Option<Contract<'_>>,
    arguments: &[TermId],
) -> Result<(), AllocError>
    requires fine { IsFine builder.old }
    requires walk { IsWalk builder.old.bank walk.now }
    requires arguments { HasTerms builder.old.bank arguments.now }
    ensures { OnOk result (Becomes builder.old builder.new (λ b. spec.call (walk_at b walk.now) at x (option_map contract_of callee.entry) (ones_at b arguments.now) (position_at b builder.old))) }
{
    match callee {
        Some(callee) => call_there(builder, walk, at, x, callee, arguments),
        None => Ok(()),
    }
}

// The receiver isn't null, or the check is listed.
fn check_first(
    builder: &mut Builder,
    walk: &Walk<'_>,
    at: Place,
    e: &Expr,
    arguments: &[TermId],
) -> Result<(), AllocError>
    requires fine { IsFine builder.old }
    requires walk { IsWalk builder.old.bank walk.now }
    requires arguments { HasTerms builder.old.bank arguments.now }
    ensures { OnOk result (Becomes builder.old builder.new (λ b. spec.check_receiver (walk_at b walk.now) at (tree.Dispatched (expr e.now) 0 0) (ones_at b arguments.now) (position_at b builder.old))) }
{
    match arguments {
        [o, ..] => check_not_null(builder, walk, at, e, *o),
        [] => Ok(()),
    }
}

// The receiver of a dispatched call isn't null, or the check is listed.
fn check_receiver(
    builder: &mut Builder,
    walk: &Walk<'_>,
    at: Place,
    callee: &Callee,
    arguments: &[TermId],
) -> Result<(), AllocError>
    requires fine { IsFine builder.old }
    requires walk { IsWalk builder.old.bank walk.now }
    requires arguments { HasTerms builder.old.bank arguments.now }
    ensures { OnOk result (Becomes builder.old builder.new (λ b. spec.check_receiver (walk_at b walk.now) at (callee_tree callee.now) (ones_at b arguments.now) (position_at b builder.old))) }
{
    match callee {
        Callee::Dispatched(e, _, _) => check_first(builder, walk, at, e, arguments),
        Callee::Static(_) => Ok(()),
        Callee::Base(_) => Ok(()),
        Callee::Constructor(_) => Ok(()),
    }
}

// These, copied.
fn copied(builder: &mut Builder, arguments: &[TermId]) -> Result<Vec<TermId>, AllocError>
    requires fine { IsFine builder.old }
    requires arguments { HasTerms builder.old.bank arguments.now }
    ensures at { IfOk result (λ v. AreOnes builder.new.bank v.items (λ b. ones_at b arguments.now)) }
    ensures stays { IfOk result (λ v. Stays builder.old builder.new) }
{
    let all = Vec::from_slice(builder.alloc, arguments)?;
    Ok(all)
}

// The term of `this` and then these.
fn after_this(builder: &mut Builder, arguments: &[TermId]) -> Result<Vec<TermId>, AllocError>
    requires fine { IsFine builder.old }
    requires arguments { HasTerms builder.old.bank arguments.now }
    ensures at { IfOk result (λ v. AreOnes builder.new.bank v.items (λ b. One (position.local_term 0 (position_at b builder.old)) ∷ ones_at b arguments.now)) }
    ensures stays { IfOk result (λ v. Stays builder.old builder.new) }
{
    let this = builder.local_term(0)?;
    let all = behind(builder.alloc, this, arguments)?;
    Ok(all)
}

// The arguments of a callee, its `this` included.
fn with_this(
    builder: &mut Builder,
    walk: &Walk<'_>,
    callee: &Callee,
    arguments: &[TermId],
) -> Result<Vec<TermId>, AllocError>
    requires fine { IsFine builder.old }
    requires arguments { HasTerms builder.old.bank arguments.now }
    ensures at { IfOk result (λ v. AreOnes builder.new.bank v.items (λ b. spec.with_this (walk_at b walk.now) (callee_tree callee.now) (ones_at b arguments.now) (position_at b builder.old))) }
    ensures stays { IfOk result (λ v. Stays builder.old builder.new) }
{
    let _walk = walk;
    match callee {
        Callee::Dispatched(_, _, _) => copied(builder, arguments),
        Callee::Static(_) => copied(builder, arguments),
        Callee::Base(_) => after_this(builder, arguments),
        Callee::Constructor(_) => after_this(builder, arguments),
    }
}

/// A call.
pub fn call_with(
    builder: &mut Builder,
    walk: &Walk<'_>,
    at: Place,
    x: Option<usize>,
    callee: &Callee,
    es: &[Expr],
) -> Result<(), AllocError>
    requires fine { IsFine builder.old }
    requires walk { IsWalk builder.old.bank walk.now }
    ensures { OnOk result (Becomes builder.old builder.new (λ b. spec.call_with (walk_at b walk.now) at x (callee_tree callee.now) (receiver (callee_tree callee.now) ++ exprs es.now) (position_at b builder.old))) }
{
    let terms = settle_call(builder, walk, callee, es)?;
    let arguments = with_this(builder, walk, callee, &terms)?;
    check_receiver(builder, walk, at, callee, &terms)?;
    let contract = called(walk.core, walk.body, callee);
    call(builder, walk, at, x, contract, &arguments)?;
    Ok(())
}
