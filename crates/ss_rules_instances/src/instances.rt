// The instances of the rule on invariants.

ghost use Rattle.std.specs.Prelude.{◌≡◌, ◌≤◌, [], ◌∷◌, map, length, IfOk};
ghost use Rattle.ss_core.specs.Chain.{IsWithinLimits, most_classes};
ghost use Rattle.ss_core.specs.View as view;
ghost use Rattle.ss_store_rules.specs.Admissible as admissible;
ghost use Rattle.ss_logic.specs.Formulas.{neg};
ghost use Rattle.ss_logic.specs.Shapes.{class_term, level_of, sub_atom, allocated, given};
ghost use Rattle.ss_logic.specs.Express.{holds_formula};
ghost use Rattle.ss_logic.specs.Invariants as rule;
ghost use Rattle.ss_logic.specs.Invariants.{invariant_context, invariants_said, packed_invariants, invariants_at};
ghost use Rattle.ss_terms.specs.Forms.{Forms, term_at, terms_at, formula_at, HasTerm, HasTerms, HasFormula, IsFormulaNumber, IsGrown, IsBankOf};
ghost use Rattle.ss_vcgen_express.specs.Numbers.{IsFormula, AreFormulas};
ghost use Rattle.ss_vcgen_express.specs.Sayings.{said_so, HasSaying};
ghost use Rattle.ss_vcgen_express.specs.Contexts.{context_at, HasContext};

use ss_core::{ClassId, Classes, Expr, Ty};
use ss_logic::Sort;
use ss_rules_basic::class_name;
use ss_terms::{Bank, FormulaId, TermId};
use ss_vcgen_express::{Context, Meant, Saying, all, any, over};
use ss_vcgen_walk::conditions;
use std::alloc::{AllocError, Global};

// Where an invariant of the class stands: the one local is its object, and it reads one store.
fn context_of<'p>(
    alloc: Global,
    classes: &'p Classes,
    store: TermId,
    object: TermId,
    class: u16,
) -> Result<Context<'p>, AllocError>
    requires classes { length (view.classes classes.now) ≤ most_classes }
    ensures has { IfOk result (λ c. (b : Forms) → HasTerm b store → HasTerm b object → HasContext b c) }
    ensures says { IfOk result (λ c. (b : Forms) → context_at b c ≡ invariant_context (view.classes classes.now) (term_at b store) (term_at b object) class) }
{
    let this = Ty::Ref {
        class: ClassId(class),
        non_null: true,
    };
    let types = vec![in alloc; this]?;
    let locals = vec![in alloc; object]?;
    Ok(Context {
        classes,
        now: store,
        entry: store,
        inside_old: false,
        types,
        locals,
        bound: 0,
    })
}

// The invariants of the class, of which one that isn't declared has none.
fn invariants_of(classes: &Classes, class: u16) -> &[Expr]
    ensures { view.exprs result.now ≡ admissible.invariants (view.classes classes.now) class }
{
    match classes.declared(ClassId(class)) {
        Some(declared) => &declared.invariants,
        None => &[],
    }
}

// What each invariant of the class says of the object.
fn each_said(
    alloc: Global,
    bank: &mut Bank,
    classes: &Classes,
    store: TermId,
    object: TermId,
    class: u16,
) -> Result<Vec<FormulaId>, AllocError>
    requires classes { length (view.classes classes.now) ≤ most_classes }
    requires store { HasTerm bank.old store }
    requires object { HasTerm bank.old object }
    ensures at { IfOk result (λ v. AreFormulas bank.new v.items (λ b. map (λ e. holds_formula e (invariant_context (view.classes classes.now) (term_at b store) (term_at b object) class)) (admissible.invariants (view.classes classes.now) class))) }
    ensures grown { IsGrown bank.old bank.new }
{
    let context = context_of(alloc, classes, store, object, class)?;
    conditions(alloc, bank, &context, invariants_of(classes, class))
}

// All that they say.
fn all_said(
    alloc: Global,
    bank: &mut Bank,
    classes: &Classes,
    store: TermId,
    object: TermId,
    class: u16,
) -> Result<FormulaId, AllocError>
    requires classes { length (view.classes classes.now) ≤ most_classes }
    requires store { HasTerm bank.old store }
    requires object { HasTerm bank.old object }
    ensures at { IfOk result (λ f. IsFormula bank.new f (λ b. invariants_said (view.classes classes.now) (term_at b store) (term_at b object) class)) }
    ensures grown { IsGrown bank.old bank.new }
{
    let parts = each_said(alloc, bank, classes, store, object, class)?;
    all(bank, &parts)
}

// That something isn't so of the object.
fn denied(
    alloc: Global,
    bank: &mut Bank,
    saying: Saying,
    object: TermId,
) -> Result<FormulaId, AllocError>
    requires saying { HasSaying bank.old saying }
    requires object { HasTerm bank.old object }
    ensures at { IfOk result (λ f. IsFormula bank.new f (λ b. neg (said_so (term_at b) saying (term_at b object)))) }
    ensures grown { IsGrown bank.old bank.new }
{
    let f = over(alloc, bank, &Meant::One(object), saying)?;
    Ok(bank.negation(f))
}

// The formula, where the object is packed at the class.
fn where_packed(
    alloc: Global,
    bank: &mut Bank,
    store: TermId,
    object: TermId,
    class: u16,
    f: FormulaId,
) -> Result<FormulaId, AllocError>
    requires store { HasTerm bank.old store }
    requires object { HasTerm bank.old object }
    requires formula { HasFormula bank.old f }
    ensures at { IfOk result (λ g. IsFormula bank.new g (λ b. given (allocated (term_at b store) (term_at b object) ∷ sub_atom (level_of (term_at b store) (term_at b object)) (class_term class) ∷ []) (formula_at b f))) }
    ensures grown { IsGrown bank.old bank.new }
{
    let absent = denied(alloc, bank, Saying::Allocated(store), object)?;
    let unpacked = denied(alloc, bank, Saying::Packed(store, class), object)?;
    any(bank, &[absent, unpacked, f])
}

// What the rule says of the object and the class.
fn packed(
    alloc: Global,
    bank: &mut Bank,
    classes: &Classes,
    store: TermId,
    object: TermId,
    class: u16,
) -> Result<FormulaId, AllocError>
    requires classes { length (view.classes classes.now) ≤ most_classes }
    requires store { HasTerm bank.old store }
    requires object { HasTerm bank.old object }
    ensures at { IfOk result (λ f. IsFormula bank.new f (λ b. packed_invariants (view.classes classes.now) (term_at b store) (term_at b object) class)) }
    ensures grown { IsGrown bank.old bank.new }
{
    let said = all_said(alloc, bank, classes, store, object, class)?;
    where_packed(alloc, bank, store, object, class, said)
}

// The same, where there is a class.
fn at_class(
    alloc: Global,
    bank: &mut Bank,
    classes: &Classes,
    store: TermId,
    object: TermId,
    class: Option<u16>,
) -> Result<Option<FormulaId>, AllocError>
    requires classes { length (view.classes classes.now) ≤ most_classes }
    requires store { HasTerm bank.old store }
    requires object { HasTerm bank.old object }
    ensures at { IfOk result (λ o. IsFormulaNumber bank.new (invariants_at (view.classes classes.now) (term_at bank.old store) (term_at bank.old object) class) o) }
    ensures grown { IsGrown bank.old bank.new }
{
    let Some(class) = class else {
        return Ok(None);
    };
    let f = packed(alloc, bank, classes, store, object, class)?;
    Ok(Some(f))
}

// The same, of two terms that may be an object and the name of a class.
fn at_terms(
    alloc: Global,
    bank: &mut Bank,
    classes: &Classes,
    store: TermId,
    object: TermId,
    class: TermId,
) -> Result<Option<FormulaId>, AllocError>
    requires bank { IsBankOf (view.classes classes.now) bank.old }
    requires classes { length (view.classes classes.now) ≤ most_classes }
    requires store { HasTerm bank.old store }
    requires object { HasTerm bank.old object }
    requires class { HasTerm bank.old class }
    ensures at { IfOk result (λ o. IsFormulaNumber bank.new (rule.invariants_of (view.classes classes.now) (term_at bank.old store) (term_at bank.old object ∷ term_at bank.old class ∷ [])) o) }
    ensures grown { IsGrown bank.old bank.new }
{
    if !bank.have_sorts(&[Sort::Store, Sort::Rest], &[store, object]) {
        return Ok(None);
    }
    let class = class_name(bank, class);
    at_class(alloc, bank, classes, store, object, class)
}

/// Where the object is packed at the class, each invariant of the class is defined and true of it: what the rule says of a good store and
/// these arguments, an object and the name of a class. An error is want of memory; what the bank had before stays.
pub fn invariants(
    alloc: Global,
    bank: &mut Bank,
    classes: &Classes,
    store: TermId,
    arguments: &[TermId],
) -> Result<Option<FormulaId>, AllocError>
    requires bank { IsBankOf (view.classes classes.now) bank.old }
    requires limits { IsWithinLimits (view.classes classes.now) }
    requires store { HasTerm bank.old store }
    requires arguments { HasTerms bank.old arguments.now }
    ensures at { IfOk result (λ o. IsFormulaNumber bank.new (rule.invariants_of (view.classes classes.now) (term_at bank.old store) (terms_at bank.old arguments.now)) o) }
    ensures grown { IsGrown bank.old bank.new }
{
    match arguments {
        [object, class] => at_terms(alloc, bank, classes, store, *object, *class),
        _ => Ok(None),
    }
}
