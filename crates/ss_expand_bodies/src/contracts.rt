// Contracts: the default contract first, and then what is written and inherited.

ghost use Rattle.std.specs.Prelude.{◌≡◌, ◌++◌, ◌∷◌, [], map, option_map, IfOk, OnOk};
ghost use Rattle.ss_core.specs.View as core;
ghost use Rattle.ss_typed.specs.View as typed;
ghost use Rattle.ss_expand_rules.specs.Numbers as elab;
ghost use Rattle.ss_expand_rules.specs.Contracts as contracts;
ghost use Rattle.ss_expand_expressions.specs.Views.{numbers_of};

use ss_core::{ClassId, Expr, Modifies, Place};
use ss_expand_expressions::{Numbers, plain};
use ss_typed::{TypedBody, TypedExpr, TypedModifies, is_this};
use std::alloc::{AllocError, Global};

/// Adds these expressions without calls.
pub fn add_plain(
    alloc: Global,
    exprs: &mut Vec<Expr>,
    numbers: &Numbers,
    es: &[TypedExpr],
) -> Result<(), AllocError>
    ensures { OnOk result (core.exprs exprs.new.items ≡ core.exprs exprs.old.items ++ elab.all_plain (numbers_of numbers.now) (typed.exprs es.now)) }
{
    for e in es {
        exprs.push(plain(alloc, numbers, e)?)?;
    }
    Ok(())
}

// A term of a `modifies` clause as a body of the class knows it.
fn named(
    alloc: Global,
    numbers: &Numbers,
    class: ClassId,
    term: &TypedModifies,
) -> Result<Modifies, AllocError>
    ensures { IfOk result (λ m. core.named_of m ≡ contracts.named (numbers_of numbers.now) class.0 (typed.modified term.now)) }
{
    match term {
        TypedModifies::Field(e, field) => Ok(Modifies::Field(plain(alloc, numbers, e)?, *field)),
        TypedModifies::All(e) => {
            if is_this(e) {
                return Ok(Modifies::Upto(plain(alloc, numbers, e)?, class));
            }
            Ok(Modifies::All(plain(alloc, numbers, e)?))
        }
        TypedModifies::Elements(e) => Ok(Modifies::Elements(plain(alloc, numbers, e)?)),
    }
}

// Adds these terms.
fn add_named(
    alloc: Global,
    terms: &mut Vec<Modifies>,
    numbers: &Numbers,
    class: ClassId,
    written: &[TypedModifies],
) -> Result<(), AllocError>
    ensures { OnOk result (map core.named_of terms.new.items ≡ map core.named_of terms.old.items ++ map (contracts.named (numbers_of numbers.now) class.0) (map typed.modified written.now)) }
{
    for term in written {
        terms.push(named(alloc, numbers, class, term)?)?;
    }
    Ok(())
}

// `this.*` as a body of the class knows it.
fn this_upto(place: Place, class: ClassId) -> Modifies
    ensures { core.named_of result ∷ [] ≡ contracts.this_upto place class.0 }
{
    Modifies::Upto(Expr::Local(place, 0), class)
}

// Adds the terms that are written.
fn add_written(
    alloc: Global,
    terms: &mut Vec<Modifies>,
    numbers: &Numbers,
    class: ClassId,
    written: &Option<Vec<TypedModifies>>,
) -> Result<(), AllocError>
    ensures { OnOk result (map core.named_of terms.new.items ≡ map core.named_of terms.old.items ++ contracts.written_terms (numbers_of numbers.now) class.0 (option_map (λ w. map typed.modified w.items) written.now)) }
{
    match written {
        Some(written) => add_named(alloc, terms, numbers, class, written),
        None => Ok(()),
    }
}

/// The clause of the first declaration of a method, where it has one, and the class whose body is under it.
#[derive(Clone, Copy)]
struct Clause<'a> {
    class: ClassId,
    written: &'a Option<Vec<TypedModifies>>,
}

// Adds the terms of a method that isn't pure.
fn add_of_method(
    alloc: Global,
    terms: &mut Vec<Modifies>,
    numbers: &Numbers,
    place: Place,
    body: &TypedBody,
    clause: &Clause<'_>,
) -> Result<(), AllocError>
    ensures { OnOk result (map core.named_of terms.new.items ≡ map core.named_of terms.old.items ++ contracts.terms_of_method (numbers_of numbers.now) place (typed.body body.now) clause.now.class.0 (option_map (λ w. map typed.modified w.items) clause.now.written.now)) }
{
    let class = clause.class;
    match clause.written {
        Some(written) => add_named(alloc, terms, numbers, class, written),
        None => {
            if body.flags.is_static {
                return Ok(());
            }
            terms.push(this_upto(place, class))?;
            Ok(())
        }
    }
}

/// What a body of the class that stands for this one may change, where the first declaration of its method has this clause.
pub fn list_terms(
    alloc: Global,
    numbers: &Numbers,
    place: Place,
    body: &TypedBody,
    class: ClassId,
    written: &Option<Vec<TypedModifies>>,
) -> Result<Vec<Modifies>, AllocError>
    ensures { IfOk result (λ ms. map core.named_of ms.items ≡ contracts.terms (numbers_of numbers.now) place (typed.body body.now) class.0 (option_map (λ w. map typed.modified w.items) written.now)) }
{
    let mut terms = Vec::new(alloc);
    if body.flags.pure {
        return Ok(terms);
    }
    if body.flags.ctor {
        terms.push(this_upto(place, class))?;
        add_written(alloc, &mut terms, numbers, class, written)?;
        return Ok(terms);
    }
    let clause = Clause { class, written };
    add_of_method(alloc, &mut terms, numbers, place, body, &clause)?;
    Ok(terms)
}
