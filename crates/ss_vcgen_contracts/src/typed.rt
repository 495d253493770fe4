// That a value is of a type.

ghost use Rattle.std.specs.Prelude.{[], ◌∷◌, if◌then◌else◌, option_to_list, IfOk};
ghost use Rattle.ss_logic.specs.Express.{and_of, or_of, fits_int};
ghost use Rattle.ss_logic.specs.Shapes.{null_term, equal, differ};
ghost use Rattle.ss_terms.specs.Forms.{term_at, HasTerm, IsGrown};
ghost use Rattle.ss_vcgen_express.specs.Numbers.{IsFormula, AreFormulas};
ghost use Rattle.ss_vcgen_heaps.specs.Contracts as heaps;

use ss_core::{ClassId, Ty};
use ss_rules_basic::{Claim, Clause, Plan, Slot, fill};
use ss_terms::{Bank, FormulaId, Predicate, Symbol, TermId};
use std::alloc::{AllocError, Global};

// A value in a store, and whether it has to be ready there.
#[derive(Clone, Copy)]
struct StoredValue {
    store: TermId,
    value: TermId,
    asks_ready: bool,
}

// A whole number of 32 bits.
fn fits_int(alloc: Global, bank: &mut Bank, x: TermId) -> Result<FormulaId, AllocError>
    requires { HasTerm bank.old x }
    ensures at { IfOk result (λ f. IsFormula bank.new f (λ b. fits_int (term_at b x))) }
    ensures grown { IsGrown bank.old bank.new }
{
    let plans = [
        Plan::Leaf(Symbol::Number(-2147483648)),
        Plan::Leaf(Symbol::Number(2147483647)),
    ];
    let x = Slot::Known(x);
    let clauses = [
        Clause::Fact(Claim::Is(Predicate::AtMost, Slot::Made(0), x)),
        Clause::Fact(Claim::Is(Predicate::AtMost, x, Slot::Made(1))),
    ];
    fill(alloc, bank, &plans, &clauses)
}

// An object of the class, which is there, and ready where that is asked.
fn is_object(
    alloc: Global,
    bank: &mut Bank,
    x: StoredValue,
    class: u16,
) -> Result<FormulaId, AllocError>
    requires store { HasTerm bank.old x.store }
    requires value { HasTerm bank.old x.value }
    ensures at { IfOk result (λ f. IsFormula bank.new f (λ b. and_of (heaps.is_object x.asks_ready (term_at b x.store) class (term_at b x.value)))) }
    ensures grown { IsGrown bank.old bank.new }
{
    let (s, object) = (Slot::Known(x.store), Slot::Known(x.value));
    let plans = [
        Plan::One(Symbol::TypeOf, object),
        Plan::Leaf(Symbol::ClassName(class)),
    ];
    let of_class = Clause::Fact(Claim::Is(Predicate::Sub, Slot::Made(0), Slot::Made(1)));
    let is_there = Clause::Fact(Claim::Is(Predicate::Allocated, s, object));
    if x.asks_ready {
        let is_ready = Clause::Fact(Claim::Is(Predicate::Ready, s, object));
        fill(alloc, bank, &plans, &[of_class, is_there, is_ready])
    } else {
        fill(alloc, bank, &plans, &[of_class, is_there])
    }
}

// The same, and it isn't null.
fn is_some_object(
    alloc: Global,
    bank: &mut Bank,
    x: StoredValue,
    class: u16,
) -> Result<FormulaId, AllocError>
    requires store { HasTerm bank.old x.store }
    requires value { HasTerm bank.old x.value }
    ensures at { IfOk result (λ f. IsFormula bank.new f (λ b. and_of (differ (term_at b x.value) null_term ∷ heaps.is_object x.asks_ready (term_at b x.store) class (term_at b x.value)))) }
    ensures grown { IsGrown bank.old bank.new }
{
    let (s, object) = (Slot::Known(x.store), Slot::Known(x.value));
    let plans = [
        Plan::One(Symbol::TypeOf, object),
        Plan::Leaf(Symbol::ClassName(class)),
        Plan::Leaf(Symbol::Null),
    ];
    let not_null = Clause::Fact(Claim::Not(Predicate::Equal, object, Slot::Made(2)));
    let of_class = Clause::Fact(Claim::Is(Predicate::Sub, Slot::Made(0), Slot::Made(1)));
    let is_there = Clause::Fact(Claim::Is(Predicate::Allocated, s, object));
    if x.asks_ready {
        let is_ready = Clause::Fact(Claim::Is(Predicate::Ready, s, object));
        fill(
            alloc,
            bank,
            &plans,
            &[not_null, of_class, is_there, is_ready],
        )
    } else {
        fill(alloc, bank, &plans, &[not_null, of_class, is_there])
    }
}

// It is null.
fn is_null(bank: &mut Bank, x: TermId) -> Result<FormulaId, AllocError>
    requires { HasTerm bank.old x }
    ensures at { IfOk result (λ f. IsFormula bank.new f (λ b. equal (term_at b x) null_term)) }
    ensures grown { IsGrown bank.old bank.new }
{
    let null = bank.null()?;
    bank.equality(x, null)
}

// Null, or an object of the class.
fn is_reference(
    alloc: Global,
    bank: &mut Bank,
    x: StoredValue,
    class: u16,
) -> Result<FormulaId, AllocError>
    requires store { HasTerm bank.old x.store }
    requires value { HasTerm bank.old x.value }
    ensures at { IfOk result (λ f. IsFormula bank.new f (λ b. or_of (equal (term_at b x.value) null_term ∷ and_of (heaps.is_object x.asks_ready (term_at b x.store) class (term_at b x.value)) ∷ []))) }
    ensures grown { IsGrown bank.old bank.new }
{
    let null = is_null(bank, x.value)?;
    let object = is_object(alloc, bank, x, class)?;
    bank.or(&[null, object])
}

// A reference of the type.
fn is_typed(
    alloc: Global,
    bank: &mut Bank,
    x: StoredValue,
    class: ClassId,
    non_null: bool,
) -> Result<FormulaId, AllocError>
    requires store { HasTerm bank.old x.store }
    requires value { HasTerm bank.old x.value }
    ensures at { IfOk result (λ f. IsFormula bank.new f (λ b.
        if non_null then and_of (differ (term_at b x.value) null_term ∷ heaps.is_object x.asks_ready (term_at b x.store) class.0 (term_at b x.value))
        else or_of (equal (term_at b x.value) null_term ∷ and_of (heaps.is_object x.asks_ready (term_at b x.store) class.0 (term_at b x.value)) ∷ []))) }
    ensures grown { IsGrown bank.old bank.new }
{
    if non_null {
        is_some_object(alloc, bank, x, class.0)
    } else {
        is_reference(alloc, bank, x, class.0)
    }
}

// What the type asks, where it asks something.
fn asked(
    alloc: Global,
    bank: &mut Bank,
    x: StoredValue,
    ty: Ty,
) -> Result<Option<FormulaId>, AllocError>
    requires store { HasTerm bank.old x.store }
    requires value { HasTerm bank.old x.value }
    ensures at { IfOk result (λ o. AreFormulas bank.new (option_to_list o) (λ b. heaps.is_of_type x.asks_ready (term_at b x.store) ty (term_at b x.value))) }
    ensures grown { IsGrown bank.old bank.new }
{
    match ty {
        Ty::Int => {
            let f = fits_int(alloc, bank, x.value)?;
            Ok(Some(f))
        }
        Ty::Bool => Ok(None),
        Ty::Null => {
            let f = is_null(bank, x.value)?;
            Ok(Some(f))
        }
        Ty::Ref { class, non_null } => {
            let f = is_typed(alloc, bank, x, class, non_null)?;
            Ok(Some(f))
        }
    }
}

/// The value is of the type, in the store; an object is ready, where that is asked.
pub fn is_of_type(
    alloc: Global,
    bank: &mut Bank,
    asks_ready: bool,
    store: TermId,
    ty: Ty,
    value: TermId,
) -> Result<Vec<FormulaId>, AllocError>
    requires store { HasTerm bank.old store }
    requires value { HasTerm bank.old value }
    ensures at { IfOk result (λ v. AreFormulas bank.new v.items (λ b. heaps.is_of_type asks_ready (term_at b store) ty (term_at b value))) }
    ensures grown { IsGrown bank.old bank.new }
{
    let x = StoredValue {
        store,
        value,
        asks_ready,
    };
    let mut list = Vec::new(alloc);
    if let Some(f) = asked(alloc, bank, x, ty)? {
        list.push(f)?;
    }
    Ok(list)
}
