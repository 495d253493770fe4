// The levels of what is exposed around a loop.

ghost use Rattle.std.specs.Prelude.{map, IfOk};
ghost use Rattle.ss_core.specs.View.{classes, exposed_tree};
ghost use Rattle.ss_logic.specs.Shapes.{equal};
ghost use Rattle.ss_logic.specs.Express.{and_of};
ghost use Rattle.ss_terms.specs.Forms.{term_at, terms_at, HasTerm, HasTerms};
ghost use Rattle.ss_vcgen_heaps.specs.Obligations as spec;
ghost use Rattle.ss_vcgen_express.specs.Numbers.{IsFormula, AreFormulas};
ghost use Rattle.ss_vcgen_builder.specs.Builder.{position_at, IsFine};
ghost use Rattle.ss_vcgen_statements.specs.Words.{Stays, AreTerms};
ghost use Rattle.ss_vcgen_bodies.specs.Words.{exposed_formula, exposed_here};

use crate::lists::{behind, between};
use ss_core::{ClassId, Exposed};
use ss_terms::{FormulaId, TermId};
use ss_vcgen_builder::{Builder, Walk};
use ss_vcgen_express::{Relation, Saying};
use ss_vcgen_statements::{each_of, is_null, one_of, say};
use std::alloc::AllocError;

// The terms of the locals that are exposed.
pub(crate) fn exposed_terms(
    builder: &mut Builder,
    exposes: &[Exposed],
) -> Result<Vec<TermId>, AllocError>
    requires { IsFine builder.old }
    ensures at { IfOk result (λ v. AreTerms builder.new.bank v.items (λ b. spec.exposed_terms (map exposed_tree exposes.now) (position_at b builder.old))) }
    ensures stays { IfOk result (λ v. Stays builder.old builder.new) }
{
    let mut terms = Vec::new(builder.alloc);
    for exposed in exposes {
        let t = builder.local_term(exposed.local)?;
        terms.push(t)?;
    }
    Ok(terms)
}

// That each of these is the object.
fn equal_each(
    builder: &mut Builder,
    others: &[TermId],
    o: TermId,
) -> Result<Vec<FormulaId>, AllocError>
    requires fine { IsFine builder.old }
    requires others { HasTerms builder.old.bank others.now }
    requires object { HasTerm builder.old.bank o }
    ensures at { IfOk result (λ v. AreFormulas builder.new.bank v.items (λ b. map (λ x. equal x (term_at b o)) (terms_at b others.now))) }
    ensures stays { IfOk result (λ v. Stays builder.old builder.new) }
{
    let mut made = Vec::new(builder.alloc);
    for other in others {
        let f = say(builder, Saying::Behind(Relation::Equal, *other), o)?;
        made.push(f)?;
    }
    Ok(made)
}

// The object is null, exposed further in, or stands at this level.
fn exposed_formula(
    builder: &mut Builder,
    store: TermId,
    level: ClassId,
    o: TermId,
    inner: &[TermId],
) -> Result<FormulaId, AllocError>
    requires fine { IsFine builder.old }
    requires store { HasTerm builder.old.bank store }
    requires object { HasTerm builder.old.bank o }
    requires inner { HasTerms builder.old.bank inner.now }
    ensures at { IfOk result (λ f. IsFormula builder.new.bank f (λ b. exposed_formula (term_at b store) level.0 (term_at b o) (terms_at b inner.now))) }
    ensures stays { IfOk result (λ f. Stays builder.old builder.new) }
{
    let null = is_null(builder, o)?;
    let same = equal_each(builder, inner, o)?;
    let at_level = say(builder, Saying::AtLevel(store, level.0), o)?;
    let parts = between(builder.alloc, null, &same, at_level)?;
    let f = one_of(builder, &parts)?;
    Ok(f)
}

// The same of one that is exposed, where these are further in.
fn exposed_here(
    builder: &mut Builder,
    walk: &Walk<'_>,
    exposed: Exposed,
    inner: &[Exposed],
) -> Result<FormulaId, AllocError>
    requires { IsFine builder.old }
    ensures at { IfOk result (λ f. IsFormula builder.new.bank f (λ b. exposed_here (classes walk.now.core.now.classes) (exposed_tree exposed) (map exposed_tree inner.now) (position_at b builder.old))) }
    ensures stays { IfOk result (λ f. Stays builder.old builder.new) }
{
    let store = builder.store;
    let level = walk.core.classes.above(exposed.class);
    let o = builder.local_term(exposed.local)?;
    let others = exposed_terms(builder, inner)?;
    let f = exposed_formula(builder, store, level, o, &others)?;
    Ok(f)
}

// The same of each that is exposed.
fn exposed_formulas(
    builder: &mut Builder,
    walk: &Walk<'_>,
    exposes: &[Exposed],
) -> Result<Vec<FormulaId>, AllocError>
    requires { IsFine builder.old }
    ensures at { IfOk result (λ v. AreFormulas builder.new.bank v.items (λ b. spec.exposed_formulas (classes walk.now.core.now.classes) (map exposed_tree exposes.now) (position_at b builder.old))) }
    ensures stays { IfOk result (λ v. Stays builder.old builder.new) }
{
    let mut made = Vec::new(builder.alloc);
    for i in 0..exposes.len() {
        let exposed = exposes[i];
        let inner = behind(exposes, i);
        let f = exposed_here(builder, walk, exposed, inner)?;
        made.push(f)?;
    }
    Ok(made)
}

// The levels of what is exposed around a loop.
pub(crate) fn levels_at_head(
    builder: &mut Builder,
    walk: &Walk<'_>,
    exposes: &[Exposed],
) -> Result<FormulaId, AllocError>
    requires { IsFine builder.old }
    ensures at { IfOk result (λ f. IsFormula builder.new.bank f (λ b. and_of (spec.exposed_formulas (classes walk.now.core.now.classes) (map exposed_tree exposes.now) (position_at b builder.old)))) }
    ensures stays { IfOk result (λ f. Stays builder.old builder.new) }
{
    let parts = exposed_formulas(builder, walk, exposes)?;
    let f = each_of(builder, &parts)?;
    Ok(f)
}
