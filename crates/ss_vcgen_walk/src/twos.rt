// Forms of expressions with two operands.

ghost use Rattle.std.specs.Prelude.{true, [], ◌∷◌, ◌++◌, IfOk, OnOk};
ghost use Rattle.ss_core.specs.View.{owners_tree};
ghost use Rattle.ss_core.specs.declared.names.Kind.TheVariants as kind;
ghost use Rattle.ss_logic.specs.Formulas.{neg};
ghost use Rattle.ss_logic.specs.Terms.{app};
ghost use Rattle.ss_logic.specs.Terms as term;
ghost use Rattle.ss_logic.specs.Express as spec;
ghost use Rattle.ss_terms.specs.Forms.{symbol_of, IsGrown};
ghost use Rattle.ss_vcgen_express.specs.Marked.{marked_part, marked_result, marked_operation};
ghost use Rattle.ss_vcgen_express.specs.Numbers.{meant_at, HasMeant, IsMeant};
ghost use Rattle.ss_vcgen_express.specs.Contexts.{context_at, HasContext};
ghost use Rattle.ss_vcgen_walk.specs.Asked.{asked_readable};
ghost use Rattle.ss_vcgen_walk.specs.Forms.{two_meant, second_asks, asks_after, two_asks};
ghost use Rattle.ss_vcgen_walk.specs.Parts.{parts_at, HasParts, AreParts};
ghost use Rattle.ss_vcgen_walk.specs.Reading.{Expressed};

use crate::asks::{Check, Operands, Subject, ask, ask_readable, ask_two};
use crate::guards::{add_all, add_right, add_where};
use crate::parts::{Part, ReadExpression};
use crate::reading_context::ReadingContext;
use ss_core::{Kind, Operator, OwnerTest, Place};
use ss_logic::Sort;
use ss_terms::{Bank, Symbol};
use ss_vcgen_express::{
    Function, Meant, Relation, Saying, implies, operated, owners_said, paired, said, same_truths,
};
use std::alloc::{AllocError, Global};

/// A form with two operands.
#[derive(Clone, Copy)]
pub(crate) enum Two {
    /// The operator, and whether the operands are truth values.
    Operation(Place, Operator, bool),
    /// The sort of the elements, and whether it is checked that the array isn't null.
    Element(Place, Sort, bool),
    Implies,
    Iff,
    /// Whether it is checked of the first object that it isn't null, and of the second.
    Owners(Place, OwnerTest, bool, bool),
}

// An element of an array.
fn element(
    bank: &mut Bank,
    context: &ReadingContext<'_>,
    sort: Sort,
    x: &Meant,
    y: &Meant,
) -> Result<Meant, AllocError>
    requires context { HasContext bank.old context.now.expression.now }
    requires first { HasMeant bank.old x.now }
    requires second { HasMeant bank.old y.now }
    ensures at { IfOk result (λ r. IsMeant bank.new r (λ b. spec.paired (λ u v. app (term.Element sort) (spec.state (context_at b context.now.expression.now) ∷ u ∷ v ∷ [])) (meant_at b x.now) (meant_at b y.now))) }
    ensures grown { IsGrown bank.old bank.new }
{
    let function = Function {
        symbol: Symbol::Element(sort),
        first: Some(context.expression.state()),
    };
    paired(context.alloc, bank, function, x, y)
}

// The second, where the first is so.
fn implied(alloc: Global, bank: &mut Bank, x: &Meant, y: &Meant) -> Result<Meant, AllocError>
    requires first { HasMeant bank.old x.now }
    requires second { HasMeant bank.old y.now }
    ensures at { IfOk result (λ r. IsMeant bank.new r (λ b. spec.Says (spec.or_of (neg (spec.said (meant_at b x.now)) ∷ spec.said (meant_at b y.now) ∷ [])))) }
    ensures grown { IsGrown bank.old bank.new }
{
    let f = said(alloc, bank, x)?;
    let g = said(alloc, bank, y)?;
    let h = implies(bank, f, g)?;
    Ok(Meant::Says(h))
}

// That the two are one truth value.
fn as_one(alloc: Global, bank: &mut Bank, x: &Meant, y: &Meant) -> Result<Meant, AllocError>
    requires first { HasMeant bank.old x.now }
    requires second { HasMeant bank.old y.now }
    ensures at { IfOk result (λ r. IsMeant bank.new r (λ b. spec.Says (spec.same_truths (meant_at b x.now) (meant_at b y.now)))) }
    ensures grown { IsGrown bank.old bank.new }
{
    let f = same_truths(alloc, bank, x, y)?;
    Ok(Meant::Says(f))
}

// The answer to a question about the owners of two objects.
fn owners_answered(
    bank: &mut Bank,
    context: &ReadingContext<'_>,
    test: OwnerTest,
    x: &Meant,
    y: &Meant,
) -> Result<Meant, AllocError>
    requires context { HasContext bank.old context.now.expression.now }
    requires first { HasMeant bank.old x.now }
    requires second { HasMeant bank.old y.now }
    ensures at { IfOk result (λ r. IsMeant bank.new r (λ b. spec.Says (spec.over_two (meant_at b x.now) (meant_at b y.now) (spec.owners_said (context_at b context.now.expression.now) (owners_tree test))))) }
    ensures grown { IsGrown bank.old bank.new }
{
    let f = owners_said(context.alloc, bank, context.expression, test, x, y)?;
    Ok(Meant::Says(f))
}

// What the form means.
fn two_meant(
    bank: &mut Bank,
    context: &ReadingContext<'_>,
    form: Two,
    x: Meant,
    y: &Meant,
) -> Result<Meant, AllocError>
    requires context { HasContext bank.old context.now.expression.now }
    requires first { HasMeant bank.old x }
    requires second { HasMeant bank.old y.now }
    ensures at { IfOk result (λ r. IsMeant bank.new r (λ b. two_meant form (context_at b context.now.expression.now) (meant_at b x) (meant_at b y.now))) }
    ensures grown { IsGrown bank.old bank.new }
{
    match form {
        Two::Operation(_, operator, bools) => operated(context.alloc, bank, operator, bools, x, y),
        Two::Element(_, sort, _) => element(bank, context, sort, &x, y),
        Two::Implies => implied(context.alloc, bank, &x, y),
        Two::Iff => as_one(context.alloc, bank, &x, y),
        Two::Owners(_, test, _, _) => owners_answered(bank, context, test, &x, y),
    }
}

// The result has 32 bits.
fn ask_result(
    alloc: Global,
    bank: &mut Bank,
    parts: &mut Vec<Part>,
    place: Place,
    symbol: Symbol,
    operands: Operands<'_>,
) -> Result<(), AllocError>
    requires first { HasMeant bank.old operands.first.now }
    requires second { HasMeant bank.old operands.second.now }
    requires parts { HasParts bank.old parts.old.items }
    ensures asked { OnOk result (AreParts bank.new parts.new.items (λ b. parts_at b parts.old.items ++ marked_result (symbol_of symbol) (meant_at b operands.entry.first.now) (meant_at b operands.entry.second.now) place)) }
    ensures grown { IsGrown bank.old bank.new }
{
    let check = Check {
        kind: Kind::Overflow,
        place,
        checked: true,
    };
    ask_two(alloc, bank, parts, check, operands, Relation::Fits(symbol))
}

// The divisor isn't 0, and the quotient has 32 bits.
fn ask_quotient(
    alloc: Global,
    bank: &mut Bank,
    parts: &mut Vec<Part>,
    place: Place,
    operands: Operands<'_>,
) -> Result<(), AllocError>
    requires first { HasMeant bank.old operands.first.now }
    requires second { HasMeant bank.old operands.second.now }
    requires parts { HasParts bank.old parts.old.items }
    ensures asked { OnOk result (AreParts bank.new parts.new.items (λ b. parts_at b parts.old.items ++ (marked_part kind.ZeroDivisor place true (spec.not_zero (meant_at b operands.entry.second.now)) ++ marked_result term.Quotient (meant_at b operands.entry.first.now) (meant_at b operands.entry.second.now) place))) }
    ensures grown { IsGrown bank.old bank.new }
{
    let check = Check {
        kind: Kind::ZeroDivisor,
        place,
        checked: true,
    };
    ask(alloc, bank, parts, check, operands.second, Saying::NotZero)?;
    ask_result(alloc, bank, parts, place, Symbol::Quotient, operands)
}

// What an operation asks beside what its operands ask.
fn ask_operation(
    alloc: Global,
    bank: &mut Bank,
    parts: &mut Vec<Part>,
    place: Place,
    operator: Operator,
    operands: Operands<'_>,
) -> Result<(), AllocError>
    requires first { HasMeant bank.old operands.first.now }
    requires second { HasMeant bank.old operands.second.now }
    requires parts { HasParts bank.old parts.old.items }
    ensures asked { OnOk result (AreParts bank.new parts.new.items (λ b. parts_at b parts.old.items ++ marked_operation operator (meant_at b operands.entry.first.now) (meant_at b operands.entry.second.now) place)) }
    ensures grown { IsGrown bank.old bank.new }
{
    match operator {
        Operator::Add => ask_result(alloc, bank, parts, place, Symbol::Add, operands),
        Operator::Subtract => ask_result(alloc, bank, parts, place, Symbol::Subtract, operands),
        Operator::Multiply => ask_result(alloc, bank, parts, place, Symbol::Multiply, operands),
        Operator::Divide | Operator::Remainder => ask_quotient(alloc, bank, parts, place, operands),
        Operator::Or
        | Operator::And
        | Operator::Equal
        | Operator::NotEqual
        | Operator::Less
        | Operator::LessEqual
        | Operator::Greater
        | Operator::GreaterEqual => Ok(()),
    }
}

// What an element and its index ask.
fn ask_element(
    bank: &mut Bank,
    context: &ReadingContext<'_>,
    parts: &mut Vec<Part>,
    place: Place,
    checked: bool,
    operands: Operands<'_>,
) -> Result<(), AllocError>
    requires context { HasContext bank.old context.now.expression.now }
    requires first { HasMeant bank.old operands.first.now }
    requires second { HasMeant bank.old operands.second.now }
    requires parts { HasParts bank.old parts.old.items }
    ensures asked { OnOk result (AreParts bank.new parts.new.items (λ b. parts_at b parts.old.items ++ asked_readable checked (context_at b context.now.expression.now) (meant_at b operands.entry.first.now) place ++ marked_part kind.Index place true (spec.index_fits (meant_at b operands.entry.first.now) (meant_at b operands.entry.second.now)))) }
    ensures grown { IsGrown bank.old bank.new }
{
    let array = Subject {
        meant: operands.first,
        checked,
    };
    ask_readable(bank, context, parts, place, array)?;
    let check = Check {
        kind: Kind::Index,
        place,
        checked: true,
    };
    ask_two(
        context.alloc,
        bank,
        parts,
        check,
        operands,
        Relation::HasElement,
    )
}

// The states of two objects may be read.
fn ask_owners(
    bank: &mut Bank,
    context: &ReadingContext<'_>,
    parts: &mut Vec<Part>,
    place: Place,
    first: Subject<'_>,
    second: Subject<'_>,
) -> Result<(), AllocError>
    requires context { HasContext bank.old context.now.expression.now }
    requires first { HasMeant bank.old first.meant.now }
    requires second { HasMeant bank.old second.meant.now }
    requires parts { HasParts bank.old parts.old.items }
    ensures asked { OnOk result (AreParts bank.new parts.new.items (λ b. parts_at b parts.old.items ++ asked_readable first.entry.checked (context_at b context.now.expression.now) (meant_at b first.entry.meant.now) place ++ asked_readable second.entry.checked (context_at b context.now.expression.now) (meant_at b second.entry.meant.now) place)) }
    ensures grown { IsGrown bank.old bank.new }
{
    ask_readable(bank, context, parts, place, first)?;
    ask_readable(bank, context, parts, place, second)
}

// What the form asks after the parts of its second operand.
fn ask_after(
    bank: &mut Bank,
    context: &ReadingContext<'_>,
    parts: &mut Vec<Part>,
    form: Two,
    operands: Operands<'_>,
) -> Result<(), AllocError>
    requires context { HasContext bank.old context.now.expression.now }
    requires first { HasMeant bank.old operands.first.now }
    requires second { HasMeant bank.old operands.second.now }
    requires parts { HasParts bank.old parts.old.items }
    ensures asked { OnOk result (AreParts bank.new parts.new.items (λ b. asks_after form (parts_at b parts.old.items) (context_at b context.now.expression.now) (meant_at b operands.entry.first.now) (meant_at b operands.entry.second.now))) }
    ensures grown { IsGrown bank.old bank.new }
{
    match form {
        Two::Operation(place, operator, _) => {
            ask_operation(context.alloc, bank, parts, place, operator, operands)
        }
        Two::Element(place, _, checked) => {
            ask_element(bank, context, parts, place, checked, operands)
        }
        Two::Implies | Two::Iff => Ok(()),
        Two::Owners(place, _, asks_first, asks_second) => {
            let first = Subject {
                meant: operands.first,
                checked: asks_first,
            };
            let second = Subject {
                meant: operands.second,
                checked: asks_second,
            };
            ask_owners(bank, context, parts, place, first, second)
        }
    }
}

// The parts of the second operand, as the form has them.
fn add_second(
    alloc: Global,
    bank: &mut Bank,
    parts: &mut Vec<Part>,
    list: &[Part],
    form: Two,
    x: &Meant,
) -> Result<(), AllocError>
    requires first { HasMeant bank.old x.now }
    requires parts { HasParts bank.old parts.old.items }
    requires list { HasParts bank.old list.now }
    ensures asked { OnOk result (AreParts bank.new parts.new.items (λ b. parts_at b parts.old.items ++ second_asks form (meant_at b x.now) (parts_at b list.now))) }
    ensures grown { IsGrown bank.old bank.new }
{
    match form {
        Two::Operation(_, operator, _) => add_right(alloc, bank, parts, list, operator, x),
        Two::Implies => add_where(alloc, bank, parts, list, x),
        Two::Element(..) | Two::Iff | Two::Owners(..) => add_all(bank, parts, list),
    }
}

// What the form and its second operand ask.
fn ask_two_after(
    bank: &mut Bank,
    context: &ReadingContext<'_>,
    parts: &mut Vec<Part>,
    form: Two,
    x: &Meant,
    second: ReadExpression<'_>,
) -> Result<(), AllocError>
    requires context { HasContext bank.old context.now.expression.now }
    requires first { HasMeant bank.old x.now }
    requires second { HasMeant bank.old second.meant.now }
    requires parts { HasParts bank.old parts.old.items }
    requires list { HasParts bank.old second.parts.now }
    ensures asked { OnOk result (AreParts bank.new parts.new.items (λ b. two_asks form (parts_at b parts.old.items) (parts_at b second.entry.parts.now) (context_at b context.now.expression.now) (meant_at b x.now) (meant_at b second.entry.meant.now))) }
    ensures grown { IsGrown bank.old bank.new }
{
    add_second(context.alloc, bank, parts, second.parts, form, x)?;
    let operands = Operands {
        first: x,
        second: second.meant,
    };
    ask_after(bank, context, parts, form, operands)
}

// The form of an operand that means this and a second one, as it was read.
pub(crate) fn of_two(
    bank: &mut Bank,
    context: &ReadingContext<'_>,
    parts: &mut Vec<Part>,
    form: Two,
    x: Meant,
    second: ReadExpression<'_>,
) -> Result<Meant, AllocError>
    requires context { HasContext bank.old context.now.expression.now }
    requires first { HasMeant bank.old x }
    requires second { HasMeant bank.old second.meant.now }
    requires parts { HasParts bank.old parts.old.items }
    requires list { HasParts bank.old second.parts.now }
    ensures expressed { IfOk result (λ r. Expressed bank.new r parts.new.items (λ b. two_meant form (context_at b context.now.expression.now) (meant_at b x) (meant_at b second.entry.meant.now)) (λ b. two_asks form (parts_at b parts.old.items) (parts_at b second.entry.parts.now) (context_at b context.now.expression.now) (meant_at b x) (meant_at b second.entry.meant.now))) }
    ensures grown { IsGrown bank.old bank.new }
{
    ask_two_after(bank, context, parts, form, &x, second)?;
    two_meant(bank, context, form, x, second.meant)
}
