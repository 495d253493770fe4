// What is said of values at a position, and terms for stores.

ghost use Rattle.std.specs.Prelude.{◌≡◌, [], ◌∷◌, IfOk, OnOk};
ghost use Rattle.ss_logic.specs.Terms.{app};
ghost use Rattle.ss_logic.specs.Formulas.{neg};
ghost use Rattle.ss_logic.specs.Shapes.{null_term, equal};
ghost use Rattle.ss_logic.specs.Express.{and_of, or_of};
ghost use Rattle.ss_terms.specs.Forms.{term_at, terms_at, formula_at, formulas_at, symbol_of, HasTerm, HasTerms, HasFormulas};
ghost use Rattle.ss_vcgen_heaps.specs.Positions.{good, local_term, with_store};
ghost use Rattle.ss_vcgen_express.specs.Numbers.{IsTerm, IsFormula};
ghost use Rattle.ss_vcgen_express.specs.Sayings.{said_so, HasSaying};
ghost use Rattle.ss_vcgen_builder.specs.Builder.{position_at, IsFine, Becomes};
ghost use Rattle.ss_vcgen_statements.specs.Words.{Stays};

use ss_terms::{FormulaId, Predicate, Symbol, TermId};
use ss_vcgen_builder::Builder;
use ss_vcgen_express::{Meant, Saying, all, any, over};
use std::alloc::AllocError;

/// What is said of a value.
pub fn say(builder: &mut Builder, saying: Saying, x: TermId) -> Result<FormulaId, AllocError>
    requires fine { IsFine builder.old }
    requires saying { HasSaying builder.old.bank saying }
    requires value { HasTerm builder.old.bank x }
    ensures at { IfOk result (λ f. IsFormula builder.new.bank f (λ b. said_so (term_at b) saying (term_at b x))) }
    ensures stays { IfOk result (λ f. Stays builder.old builder.new) }
{
    over(builder.alloc, &mut builder.bank, &Meant::One(x), saying)
}

/// The negation of what is said of a value.
pub fn deny(builder: &mut Builder, saying: Saying, x: TermId) -> Result<FormulaId, AllocError>
    requires fine { IsFine builder.old }
    requires saying { HasSaying builder.old.bank saying }
    requires value { HasTerm builder.old.bank x }
    ensures at { IfOk result (λ f. IsFormula builder.new.bank f (λ b. neg (said_so (term_at b) saying (term_at b x)))) }
    ensures stays { IfOk result (λ f. Stays builder.old builder.new) }
{
    let f = say(builder, saying, x)?;
    Ok(builder.bank.negation(f))
}

/// One of these.
pub fn one_of(builder: &mut Builder, fs: &[FormulaId]) -> Result<FormulaId, AllocError>
    requires fine { IsFine builder.old }
    requires formulas { HasFormulas builder.old.bank fs.now }
    ensures at { IfOk result (λ f. IsFormula builder.new.bank f (λ b. or_of (formulas_at b fs.now))) }
    ensures stays { IfOk result (λ f. Stays builder.old builder.new) }
{
    any(&mut builder.bank, fs)
}

/// Each of these.
pub fn each_of(builder: &mut Builder, fs: &[FormulaId]) -> Result<FormulaId, AllocError>
    requires fine { IsFine builder.old }
    requires formulas { HasFormulas builder.old.bank fs.now }
    ensures at { IfOk result (λ f. IsFormula builder.new.bank f (λ b. and_of (formulas_at b fs.now))) }
    ensures stays { IfOk result (λ f. Stays builder.old builder.new) }
{
    all(&mut builder.bank, fs)
}

/// That the value is null.
pub fn is_null(builder: &mut Builder, v: TermId) -> Result<FormulaId, AllocError>
    requires fine { IsFine builder.old }
    requires value { HasTerm builder.old.bank v }
    ensures at { IfOk result (λ f. IsFormula builder.new.bank f (λ b. equal (term_at b v) null_term)) }
    ensures stays { IfOk result (λ f. Stays builder.old builder.new) }
{
    deny(builder, Saying::NotNull, v)
}

/// The store is good.
pub fn good(builder: &mut Builder, store: TermId) -> Result<FormulaId, AllocError>
    requires fine { IsFine builder.old }
    requires store { HasTerm builder.old.bank store }
    ensures at { IfOk result (λ f. IsFormula builder.new.bank f (λ b. good (term_at b store))) }
    ensures stays { IfOk result (λ f. Stays builder.old builder.new) }
{
    builder.bank.atom(true, Predicate::Good, &[store])
}

/// The function at these arguments.
pub fn applied(
    builder: &mut Builder,
    symbol: Symbol,
    arguments: &[TermId],
) -> Result<TermId, AllocError>
    requires fine { IsFine builder.old }
    requires arguments { HasTerms builder.old.bank arguments.now }
    ensures at { IfOk result (λ t. IsTerm builder.new.bank t (λ b. app (symbol_of symbol) (terms_at b arguments.now))) }
    ensures stays { IfOk result (λ t. Stays builder.old builder.new) }
{
    builder.bank.apply(symbol, arguments)
}

/// The store is this function of these.
pub fn change_store(
    builder: &mut Builder,
    symbol: Symbol,
    arguments: &[TermId],
) -> Result<(), AllocError>
    requires fine { IsFine builder.old }
    requires arguments { HasTerms builder.old.bank arguments.now }
    ensures { OnOk result (Becomes builder.old builder.new (λ b. with_store (app (symbol_of symbol) (terms_at b arguments.now)) (position_at b builder.old))) }
{
    let store = applied(builder, symbol, arguments)?;
    builder.with_store(store)?;
    Ok(())
}

/// What is said of a local.
pub fn say_local(builder: &mut Builder, saying: Saying, x: usize) -> Result<FormulaId, AllocError>
    requires fine { IsFine builder.old }
    requires saying { HasSaying builder.old.bank saying }
    ensures at { IfOk result (λ f. IsFormula builder.new.bank f (λ b. said_so (term_at b) saying (local_term x (position_at b builder.old)))) }
    ensures stays { IfOk result (λ f. Stays builder.old builder.new) }
{
    let o = builder.local_term(x)?;
    let f = say(builder, saying, o)?;
    Ok(f)
}

/// The negation of what is said of a local.
pub fn deny_local(builder: &mut Builder, saying: Saying, x: usize) -> Result<FormulaId, AllocError>
    requires fine { IsFine builder.old }
    requires saying { HasSaying builder.old.bank saying }
    ensures at { IfOk result (λ f. IsFormula builder.new.bank f (λ b. neg (said_so (term_at b) saying (local_term x (position_at b builder.old))))) }
    ensures stays { IfOk result (λ f. Stays builder.old builder.new) }
{
    let f = say_local(builder, saying, x)?;
    Ok(builder.bank.negation(f))
}

/// The function of the store and a local.
pub fn applied_local(builder: &mut Builder, symbol: Symbol, x: usize) -> Result<TermId, AllocError>
    requires { IsFine builder.old }
    ensures at { IfOk result (λ t. IsTerm builder.new.bank t (λ b. app (symbol_of symbol) (term_at b builder.old.store ∷ local_term x (position_at b builder.old) ∷ []))) }
    ensures stays { IfOk result (λ t. Stays builder.old builder.new) }
{
    let store = builder.store;
    let o = builder.local_term(x)?;
    let t = applied(builder, symbol, &[store, o])?;
    Ok(t)
}
