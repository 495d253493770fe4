// The walk over expressions.

ghost use Rattle.std.specs.Prelude.{◌≡◌, ◌≤◌, [], ◌∷◌, ◌++◌, List, length, not, IfOk, OnOk, if◌then◌else◌, map};
ghost use Rattle.ss_core.specs.declared.names.Place.{Place as PlaceValue};
ghost use Rattle.ss_core.specs.declared.names.Kind.TheVariants as kind;
ghost use Rattle.ss_core.specs.Chain.{most_classes};
ghost use Rattle.ss_core.specs.Tree.{ExprTree, CastExpr, OldExpr, StateExpr};
ghost use Rattle.ss_core.specs.View.{expr, default_tree, classes, word_tree};
ghost use Rattle.ss_core.specs.Parts.{link_after, step_after, chain_front, path_front};
ghost use Rattle.ss_logic.specs.Shapes.{number, null_term};
ghost use Rattle.ss_logic.specs.Express as spec;
ghost use Rattle.ss_store_rules.specs.NonNull as rules;
ghost use Rattle.ss_store_rules.specs.Types as types;
ghost use Rattle.ss_terms.specs.Forms.{formulas_at, HasFormulas, IsGrown};
ghost use Rattle.ss_vcgen_express.specs.Marked.{marked, marked_part, with_marked, in_range};
ghost use Rattle.ss_vcgen_express.specs.Numbers.{meant_at, HasMeant, IsMeant};
ghost use Rattle.ss_vcgen_express.specs.Contexts as contexts;
ghost use Rattle.ss_vcgen_express.specs.Contexts.{context_at, HasContext};
ghost use Rattle.ss_vcgen_heaps.specs.Parts.{is_upwards, fits_class};
ghost use Rattle.ss_vcgen_known.specs.TellsFront.{TellsFront};
ghost use Rattle.ss_vcgen_walk.specs.declared.parts.Part.{Part as PartValue};
ghost use Rattle.ss_vcgen_walk.specs.declared.singles.Single.TheVariants as single;
ghost use Rattle.ss_vcgen_walk.specs.declared.twos.Two.TheVariants as two;
ghost use Rattle.ss_vcgen_walk.specs.Asked.{asked_null};
ghost use Rattle.ss_vcgen_walk.specs.Forms.{single_meant, single_asks, two_meant, two_asks, cast_asks};
ghost use Rattle.ss_vcgen_walk.specs.Parts.{parts_at, HasParts, AreParts};
ghost use Rattle.ss_vcgen_walk.specs.Reading.{Expressed};
ghost use Rattle.ss_vcgen_walk.specs.NullContexts.{type_context_at, known_at, IsNullContext, Reads};

use crate::asks::{Check, Subject, ask, ask_not_null};
use crate::contexts::{at_entry, with_bound};
use crate::guards::add_for_each;
use crate::null_context::NullContext;
use crate::parts::{Part, ReadExpression};
use crate::reading_context::ReadingContext;
use crate::singles::{Single, of_single};
use crate::twos::{Two, of_two};
use ss_core::{
    ClassId, DefaultCondition, Expr, Kind, Link, Operator, OwnerTest, Place, Quantifier, StateWord,
    Step, Ty,
};
use ss_logic::Sort;
use ss_terms::{Bank, FormulaId, Symbol};
use ss_vcgen_defaults::default_said;
use ss_vcgen_express::{Context, Meant, Saying, local_term, out_of_range, quantified, said};
use ss_vcgen_known::{FrontTold, is_never_null, path_never_null};
use ss_vcgen_types::{TypeContext, element_of, is_bool, link_type, step_type, type_of};
use std::alloc::{AllocError, Global};

// ---- without operands

fn whole(bank: &mut Bank, n: i32) -> Result<Meant, AllocError>
    ensures at { IfOk result (λ r. IsMeant bank.new r (λ b. spec.One (number n))) }
    ensures grown { IsGrown bank.old bank.new }
{
    let t = bank.number(n as i128)?;
    Ok(Meant::One(t))
}

fn truth(bank: &mut Bank, holds: bool) -> Result<Meant, AllocError>
    ensures at { IfOk result (λ r. IsMeant bank.new r (λ b. spec.One (spec.truth_term holds))) }
    ensures grown { IsGrown bank.old bank.new }
{
    let t = bank.apply(Symbol::Fixed(holds), &[])?;
    Ok(Meant::One(t))
}

fn null(bank: &mut Bank) -> Result<Meant, AllocError>
    ensures at { IfOk result (λ r. IsMeant bank.new r (λ b. spec.One null_term)) }
    ensures grown { IsGrown bank.old bank.new }
{
    let t = bank.null()?;
    Ok(Meant::One(t))
}

fn local(bank: &mut Bank, context: &Context<'_>, x: usize) -> Result<Meant, AllocError>
    requires { HasContext bank.old context.now }
    ensures at { IfOk result (λ r. IsMeant bank.new r (λ b. spec.local_meant (context_at b context.entry.now) x)) }
    ensures grown { IsGrown bank.old bank.new }
{
    let t = local_term(bank, context, x)?;
    Ok(Meant::One(t))
}

fn default_met(
    bank: &mut Bank,
    context: &ReadingContext<'_>,
    condition: DefaultCondition,
) -> Result<Meant, AllocError>
    requires { HasContext bank.old context.now.expression.now }
    ensures at { IfOk result (λ r. IsMeant bank.new r (λ b. spec.Says (spec.default_said (context_at b context.now.expression.now) (default_tree condition)))) }
    ensures grown { IsGrown bank.old bank.new }
{
    let f = default_said(context.alloc, bank, context.expression, condition)?;
    Ok(Meant::Says(f))
}

// ---- what is checked

// It has to be checked that the value isn't null.
fn may_be_null(context: &ReadingContext<'_>, e: &Expr) -> bool
    requires { IsNullContext context.now.nulls.now }
    ensures { result ≡ not (rules.is_never_null (type_context_at context.now.nulls.now) (known_at context.now.nulls.now) context.now.expression.now.inside_old (expr e.now)) }
{
    !is_never_null(
        context.nulls.typing,
        context.nulls.known,
        context.nulls.tests,
        context.expression.inside_old,
        e,
    )
}

// The same of the front of a path.
fn front_may_be_null(context: &ReadingContext<'_>, first: &Expr, steps: &[Step]) -> bool
    requires { IsNullContext context.now.nulls.now }
    ensures { (p : PlaceValue) → result ≡ not (rules.is_never_null (type_context_at context.now.nulls.now) (known_at context.now.nulls.now) context.now.expression.now.inside_old (path_front p (expr first.now) steps.now)) }
{
    !path_never_null(
        context.nulls.typing,
        context.nulls.known,
        context.nulls.tests,
        context.expression.inside_old,
        first,
        steps,
    )
}

// A value of the type is one of the class without a check.
fn goes_upwards(context: &Context<'_>, ty: Option<Ty>, class: ClassId) -> bool
    ensures { result ≡ is_upwards (classes context.entry.now.classes.now) ty class.0 }
{
    match ty {
        Some(Ty::Ref { class: other, .. }) => context.classes.is_subclass(other, class),
        Some(Ty::Null) => true,
        Some(Ty::Int) | Some(Ty::Bool) | None => false,
    }
}

// It has to be checked that the value is of the class.
fn may_be_other(context: &Context<'_>, e: &Expr, class: ClassId) -> bool
    requires { length (classes context.now.classes.now) ≤ most_classes }
    ensures { result ≡ not (is_upwards (classes context.entry.now.classes.now) (types.type_of (classes context.entry.now.classes.now) context.entry.now.types.items (expr e.now)) class.0) }
{
    !goes_upwards(context, type_of(context.classes, &context.types, e), class)
}

// The sort of the elements of an array of this type.
fn element_sort(context: &Context<'_>, array: Option<Ty>) -> Sort
    requires { length (classes context.now.classes.now) ≤ most_classes }
    ensures { result ≡ spec.element_sort (types.element_of (classes context.entry.now.classes.now) array) }
{
    match element_of(context.classes, array) {
        Some(Ty::Int) => Sort::Whole,
        Some(Ty::Bool) => Sort::Truth,
        Some(Ty::Null) | Some(Ty::Ref { .. }) | None => Sort::Rest,
    }
}

fn state_form(context: &ReadingContext<'_>, place: Place, word: StateWord, e: &Expr) -> Single
    requires { IsNullContext context.now.nulls.now }
    ensures { result ≡ single.State place word (not (rules.is_never_null (type_context_at context.now.nulls.now) (known_at context.now.nulls.now) context.now.expression.now.inside_old (expr e.now))) }
{
    Single::State(place, word, may_be_null(context, e))
}

fn owners_form(
    context: &ReadingContext<'_>,
    place: Place,
    test: OwnerTest,
    a: &Expr,
    b: &Expr,
) -> Two
    requires { IsNullContext context.now.nulls.now }
    ensures { result ≡ two.Owners place test (not (rules.is_never_null (type_context_at context.now.nulls.now) (known_at context.now.nulls.now) context.now.expression.now.inside_old (expr a.now))) (not (rules.is_never_null (type_context_at context.now.nulls.now) (known_at context.now.nulls.now) context.now.expression.now.inside_old (expr b.now))) }
{
    Two::Owners(
        place,
        test,
        may_be_null(context, a),
        may_be_null(context, b),
    )
}

// ---- casts

// The object isn't null, where null doesn't pass.
fn ask_passing(
    alloc: Global,
    bank: &mut Bank,
    parts: &mut Vec<Part>,
    place: Place,
    non_null: bool,
    subject: Subject<'_>,
) -> Result<(), AllocError>
    requires meant { HasMeant bank.old subject.meant.now }
    requires parts { HasParts bank.old parts.old.items }
    ensures asked { OnOk result (AreParts bank.new parts.new.items (λ b. parts_at b parts.old.items ++ (if non_null then asked_null subject.entry.checked (meant_at b subject.entry.meant.now) place else []))) }
    ensures grown { IsGrown bank.old bank.new }
{
    if non_null {
        return ask_not_null(alloc, bank, parts, place, subject);
    }
    Ok(())
}

// The object is null or of the class.
fn ask_fitting(
    alloc: Global,
    bank: &mut Bank,
    parts: &mut Vec<Part>,
    place: Place,
    class: ClassId,
    subject: Subject<'_>,
) -> Result<(), AllocError>
    requires meant { HasMeant bank.old subject.meant.now }
    requires parts { HasParts bank.old parts.old.items }
    ensures asked { OnOk result (AreParts bank.new parts.new.items (λ b. parts_at b parts.old.items ++ marked_part kind.Cast place subject.entry.checked (fits_class class.0 (meant_at b subject.entry.meant.now)))) }
    ensures grown { IsGrown bank.old bank.new }
{
    let check = Check {
        kind: Kind::Cast,
        place,
        checked: subject.checked,
    };
    ask(
        alloc,
        bank,
        parts,
        check,
        subject.meant,
        Saying::FitsClass(class.0),
    )
}

// What a cast is to: the place of the cast, the class, and whether null is refused.
#[derive(Clone, Copy)]
struct CastTo<'e> {
    at: &'e Place,
    class: &'e ClassId,
    mark: &'e bool,
}

// What a cast asks.
fn ask_cast(
    bank: &mut Bank,
    context: &ReadingContext<'_>,
    parts: &mut Vec<Part>,
    target: CastTo<'_>,
    e: &Expr,
    m: &Meant,
) -> Result<(), AllocError>
    requires nulls { IsNullContext context.now.nulls.now }
    requires context { HasContext bank.old context.now.expression.now }
    requires meant { HasMeant bank.old m.now }
    requires parts { HasParts bank.old parts.old.items }
    ensures asked { OnOk result (AreParts bank.new parts.new.items (λ b. cast_asks (type_context_at context.now.nulls.now) (known_at context.now.nulls.now) (context_at b context.now.expression.now) target.entry.at.now target.entry.class.now.0 target.entry.mark.now (expr e.now) (parts_at b parts.old.items) (meant_at b m.now))) }
    ensures grown { IsGrown bank.old bank.new }
{
    let may_be_null = may_be_null(context, e);
    let passing = Subject {
        meant: m,
        checked: may_be_null,
    };
    ask_passing(
        context.alloc,
        bank,
        parts,
        *target.at,
        *target.mark,
        passing,
    )?;
    let checked = may_be_other(context.expression, e, *target.class);
    let fitting = Subject { meant: m, checked };
    ask_fitting(
        context.alloc,
        bank,
        parts,
        *target.at,
        *target.class,
        fitting,
    )
}

// ---- quantifiers

// The member for the values of the bound name, of which none of these is so.
fn quantify(
    alloc: Global,
    bank: &mut Bank,
    quantifier: Quantifier,
    out: &[FormulaId],
    m: &Meant,
) -> Result<Meant, AllocError>
    requires range { HasFormulas bank.old out.now }
    requires meant { HasMeant bank.old m.now }
    ensures at { IfOk result (λ r. IsMeant bank.new r (λ b. spec.Says (contexts.quantified_over quantifier (formulas_at b out.now) (spec.said (meant_at b m.now))))) }
    ensures grown { IsGrown bank.old bank.new }
{
    let f = said(alloc, bank, m)?;
    let g = quantified(alloc, bank, quantifier, out, f)?;
    Ok(Meant::Says(g))
}

// The same, with its parts.
fn of_member(
    alloc: Global,
    bank: &mut Bank,
    parts: &mut Vec<Part>,
    member: ReadExpression<'_>,
    quantifier: Quantifier,
    out: &[FormulaId],
) -> Result<Meant, AllocError>
    requires range { HasFormulas bank.old out.now }
    requires meant { HasMeant bank.old member.meant.now }
    requires parts { HasParts bank.old parts.old.items }
    requires list { HasParts bank.old member.parts.now }
    ensures expressed { IfOk result (λ r. Expressed bank.new r parts.new.items
        (λ b. spec.Says (contexts.quantified_over quantifier (formulas_at b out.now) (spec.said (meant_at b member.entry.meant.now))))
        (λ b. parts_at b parts.old.items ++ map (with_marked (contexts.for_each (formulas_at b out.now))) (parts_at b member.entry.parts.now))) }
    ensures grown { IsGrown bank.old bank.new }
{
    add_for_each(alloc, bank, parts, member.parts, out)?;
    quantify(alloc, bank, quantifier, out, member.meant)
}

// ---- the walk

/// What an expression means; what has to be so for it to have a value is put after `parts`.
#[cycle(express)]
pub fn express(
    bank: &mut Bank,
    context: &ReadingContext<'_>,
    parts: &mut Vec<Part>,
    e: &Expr,
) -> Result<Meant, AllocError>
    requires nulls { IsNullContext context.now.nulls.now }
    requires context { HasContext bank.old context.now.expression.now }
    requires parts { HasParts bank.old parts.old.items }
    ensures expressed { IfOk result (λ m. Reads bank.new m parts.new.items parts.old.items (expr e.now) context.now.nulls.now context.now.expression.now) }
    ensures grown { IsGrown bank.old bank.new }
{
    match e {
        Expr::Int(_, n) => whole(bank, *n),
        Expr::Bool(_, holds) => truth(bank, *holds),
        Expr::Null(_) => null(bank),
        Expr::Local(_, x) => local(bank, context.expression, *x),
        Expr::Iff(_, a, b) => {
            let m = express(bank, context, parts, a)?;
            behind(bank, context, parts, b, Two::Iff, m)
        }
        Expr::Implies(_, a, b) => {
            let m = express(bank, context, parts, a)?;
            behind(bank, context, parts, b, Two::Implies, m)
        }
        Expr::Chain(place, first, links) => {
            let m = express(bank, context, parts, first)?;
            chain(bank, context, parts, links, Start { at: *place, first }, m)
        }
        Expr::Negate(at, a) => one(bank, context, parts, a, Single::Negate(*at)),
        Expr::Not(_, a) => one(bank, context, parts, a, Single::Not),
        Expr::Cast(at, class, mark, a) => cast(bank, context, parts, a, CastTo { at, class, mark }),
        Expr::Path(place, first, steps) => {
            let m = express(bank, context, parts, first)?;
            path(bank, context, parts, steps, Start { at: *place, first }, m)
        }
        Expr::Old(_, a) => old(bank, context, parts, a),
        Expr::Quantified(_, quantifier, _, low, high, a) => {
            let x = express(bank, context, parts, low)?;
            let y = express(bank, context, parts, high)?;
            let bounds = Bounds { low: &x, high: &y };
            quantifier_of(bank, context, parts, a, *quantifier, bounds)
        }
        Expr::State(place, word, a) => state(bank, context, parts, a, *place, *word),
        Expr::Owners(place, test, a, b) => {
            let form = owners_form(context, *place, *test, a, b);
            let m = express(bank, context, parts, a)?;
            behind(bank, context, parts, b, form, m)
        }
        Expr::Default(_, condition) => default_met(bank, context, *condition),
    }
}

// A form with one operand.
#[cycle(express)]
fn one(
    bank: &mut Bank,
    context: &ReadingContext<'_>,
    parts: &mut Vec<Part>,
    e: &Expr,
    form: Single,
) -> Result<Meant, AllocError>
    requires nulls { IsNullContext context.now.nulls.now }
    requires context { HasContext bank.old context.now.expression.now }
    requires parts { HasParts bank.old parts.old.items }
    ensures expressed { IfOk result (λ r. Expressed bank.new r parts.new.items
        (λ b. single_meant form (context_at b context.now.expression.now) (spec.meant (expr e.now) (context_at b context.now.expression.now)))
        (λ b. parts_at b parts.old.items ++ single_asks form (marked (expr e.now) (type_context_at context.now.nulls.now) (known_at context.now.nulls.now) (context_at b context.now.expression.now)) (context_at b context.now.expression.now) (spec.meant (expr e.now) (context_at b context.now.expression.now)))) }
    ensures grown { IsGrown bank.old bank.new }
{
    let m = express(bank, context, parts, e)?;
    of_single(bank, context, parts, form, &m)
}

// A form of an operand that means this and a second operand.
#[cycle(express)]
fn behind(
    bank: &mut Bank,
    context: &ReadingContext<'_>,
    parts: &mut Vec<Part>,
    e: &Expr,
    form: Two,
    m: Meant,
) -> Result<Meant, AllocError>
    requires nulls { IsNullContext context.now.nulls.now }
    requires context { HasContext bank.old context.now.expression.now }
    requires parts { HasParts bank.old parts.old.items }
    requires meant { HasMeant bank.old m }
    ensures expressed { IfOk result (λ r. Expressed bank.new r parts.new.items
        (λ b. two_meant form (context_at b context.now.expression.now) (meant_at b m) (spec.meant (expr e.now) (context_at b context.now.expression.now)))
        (λ b. two_asks form (parts_at b parts.old.items) (marked (expr e.now) (type_context_at context.now.nulls.now) (known_at context.now.nulls.now) (context_at b context.now.expression.now)) (context_at b context.now.expression.now) (meant_at b m) (spec.meant (expr e.now) (context_at b context.now.expression.now)))) }
    ensures grown { IsGrown bank.old bank.new }
{
    let mut list = Vec::new(context.alloc);
    let n = express(bank, context, &mut list, e)?;
    let second = ReadExpression {
        parts: &list,
        meant: &n,
    };
    of_two(bank, context, parts, form, m, second)
}

// A question about the state of an object.
#[cycle(express)]
fn state(
    bank: &mut Bank,
    context: &ReadingContext<'_>,
    parts: &mut Vec<Part>,
    e: &Expr,
    place: Place,
    word: StateWord,
) -> Result<Meant, AllocError>
    requires nulls { IsNullContext context.now.nulls.now }
    requires context { HasContext bank.old context.now.expression.now }
    requires parts { HasParts bank.old parts.old.items }
    ensures expressed { IfOk result (λ r. Reads bank.new r parts.new.items parts.old.items (StateExpr place (word_tree word) (expr e.now)) context.now.nulls.now context.now.expression.now) }
    ensures grown { IsGrown bank.old bank.new }
{
    let form = state_form(context, place, word, e);
    one(bank, context, parts, e, form)
}

// The front of a chain: the place of each link, its type, and what it tells.
#[derive(Clone, Copy)]
struct ChainFront<'a> {
    place: Place,
    ty: Option<Ty>,
    told: &'a FrontTold,
}

// An operator after the front of a chain: its place, whether it is on truths, and what the front tells.
#[derive(Clone, Copy)]
struct PlacedOperator<'a> {
    place: Place,
    operator: Operator,
    bools: bool,
    told: &'a FrontTold,
}

// An operation after the front of a chain, which means this.
#[cycle(express)]
fn operation(
    bank: &mut Bank,
    context: &ReadingContext<'_>,
    parts: &mut Vec<Part>,
    e: &Expr,
    placed: PlacedOperator<'_>,
    m: Meant,
) -> Result<Meant, AllocError>
    requires nulls { IsNullContext context.now.nulls.now }
    requires context { HasContext bank.old context.now.expression.now }
    requires parts { HasParts bank.old parts.old.items }
    requires meant { HasMeant bank.old m }
    ensures expressed { (t : ExprTree) → TellsFront placed.entry.told.now t → IfOk result (λ r. Expressed bank.new r parts.new.items
        (λ b. spec.operated placed.entry.operator placed.entry.bools (meant_at b m) (spec.meant (expr e.now) (context_at b context.now.expression.now)))
        (λ b. two_asks (two.Operation placed.entry.place placed.entry.operator placed.entry.bools) (parts_at b parts.old.items) (marked (expr e.now) (type_context_at context.now.nulls.now) (rules.known_right placed.entry.operator t (known_at context.now.nulls.now)) (context_at b context.now.expression.now)) (context_at b context.now.expression.now) (meant_at b m) (spec.meant (expr e.now) (context_at b context.now.expression.now)))) }
    ensures grown { IsGrown bank.old bank.new }
{
    let nulls = &*context.nulls;
    let tests = (&*placed.told).on_right(placed.operator, &*nulls.tests);
    let typing = TypeContext {
        classes: &*nulls.typing.classes,
        types: &*nulls.typing.types,
        constructs: nulls.typing.constructs,
    };
    let inner = NullContext {
        typing,
        known: &*nulls.known,
        tests: &tests,
    };
    let learnt = ReadingContext {
        alloc: context.alloc,
        nulls: &inner,
        expression: &*context.expression,
    };
    let form = Two::Operation(placed.place, placed.operator, placed.bools);
    behind(bank, &learnt, parts, e, form, m)
}

// A link after the front of a chain, which means this.
#[cycle(express)]
fn linked(
    bank: &mut Bank,
    context: &ReadingContext<'_>,
    parts: &mut Vec<Part>,
    link: &Link,
    front: ChainFront<'_>,
    m: Meant,
) -> Result<Meant, AllocError>
    requires nulls { IsNullContext context.now.nulls.now }
    requires context { HasContext bank.old context.now.expression.now }
    requires front { (q : List PartValue) × (t : ExprTree) × Reads bank.old m parts.old.items q t context.now.nulls.now context.now.expression.now }
    ensures expressed { (q : List PartValue) (t : ExprTree) → Reads bank.old m parts.old.items q t context.now.nulls.now context.now.expression.now
        → TellsFront front.entry.told.now t
        → front.entry.ty ≡ types.type_of (classes context.now.expression.now.classes.now) context.now.expression.now.types.items t
        → IfOk result (λ r. Reads bank.new r parts.new.items q (link_after link.now front.entry.place t) context.now.nulls.now context.now.expression.now) }
    ensures grown { IsGrown bank.old bank.new }
{
    match link {
        Link::Operation(operator, e) => {
            let placed = PlacedOperator {
                place: front.place,
                operator: *operator,
                bools: is_bool(front.ty),
                told: front.told,
            };
            operation(bank, context, parts, e, placed, m)
        }
        Link::Is(class) => of_single(bank, context, parts, Single::Is(*class), &m),
        Link::As(class) => of_single(bank, context, parts, Single::As(*class), &m),
    }
}

// What a chain or a path begins with, and the place of each part after it.
#[derive(Clone, Copy)]
struct Start<'a> {
    at: Place,
    first: &'a Expr,
}

// A chain, whose first operand means this.
#[cycle(express)]
fn chain(
    bank: &mut Bank,
    context: &ReadingContext<'_>,
    parts: &mut Vec<Part>,
    links: &[Link],
    start: Start<'_>,
    m: Meant,
) -> Result<Meant, AllocError>
    requires nulls { IsNullContext context.now.nulls.now }
    requires context { HasContext bank.old context.now.expression.now }
    requires front { (q : List PartValue) × Reads bank.old m parts.old.items q (expr start.first.now) context.now.nulls.now context.now.expression.now }
    ensures expressed { (q : List PartValue) → Reads bank.old m parts.old.items q (expr start.entry.first.now) context.now.nulls.now context.now.expression.now
        → IfOk result (λ r. Reads bank.new r parts.new.items q (chain_front start.entry.at (expr start.entry.first.now) links.now) context.now.nulls.now context.now.expression.now) }
    ensures grown { IsGrown bank.old bank.new }
{
    let mut front = m;
    let mut ty = type_of(
        context.expression.classes,
        &context.expression.types,
        start.first,
    );
    let mut told = FrontTold::new(context.alloc, start.first)?;
    for link in links {
        let before = ChainFront {
            place: start.at,
            ty,
            told: &told,
        };
        front = linked(bank, context, parts, link, before, front)?;
        ty = link_type(
            context.expression.classes,
            &context.expression.types,
            ty,
            link,
        );
        told.add(link)?;
    }
    Ok(front)
}

// The front of a path: the place of each step, its type, and whether it is checked that it isn't null.
#[derive(Clone, Copy)]
struct PathFront {
    place: Place,
    ty: Option<Ty>,
    checked: bool,
}

// A step after the front of a path, which means this.
#[cycle(express)]
fn stepped(
    bank: &mut Bank,
    context: &ReadingContext<'_>,
    parts: &mut Vec<Part>,
    step: &Step,
    front: PathFront,
    m: Meant,
) -> Result<Meant, AllocError>
    requires nulls { IsNullContext context.now.nulls.now }
    requires context { HasContext bank.old context.now.expression.now }
    requires front { (q : List PartValue) × (t : ExprTree) × Reads bank.old m parts.old.items q t context.now.nulls.now context.now.expression.now }
    ensures expressed { (q : List PartValue) (t : ExprTree) → Reads bank.old m parts.old.items q t context.now.nulls.now context.now.expression.now
        → front.checked ≡ not (rules.is_never_null (type_context_at context.now.nulls.now) (known_at context.now.nulls.now) context.now.expression.now.inside_old t)
        → front.ty ≡ types.type_of (classes context.now.expression.now.classes.now) context.now.expression.now.types.items t
        → IfOk result (λ r. Reads bank.new r parts.new.items q (step_after step.now front.place t) context.now.nulls.now context.now.expression.now) }
    ensures grown { IsGrown bank.old bank.new }
{
    match step {
        Step::Field(field) => {
            let form = Single::Field(front.place, *field, front.checked);
            of_single(bank, context, parts, form, &m)
        }
        Step::Element(e) => {
            let sort = element_sort(context.expression, front.ty);
            let form = Two::Element(front.place, sort, front.checked);
            behind(bank, context, parts, e, form, m)
        }
        Step::Length => {
            let form = Single::Length(front.place, front.checked);
            of_single(bank, context, parts, form, &m)
        }
    }
}

// A path, whose beginning means this.
#[cycle(express)]
fn path(
    bank: &mut Bank,
    context: &ReadingContext<'_>,
    parts: &mut Vec<Part>,
    steps: &[Step],
    start: Start<'_>,
    m: Meant,
) -> Result<Meant, AllocError>
    requires nulls { IsNullContext context.now.nulls.now }
    requires context { HasContext bank.old context.now.expression.now }
    requires front { (q : List PartValue) × Reads bank.old m parts.old.items q (expr start.first.now) context.now.nulls.now context.now.expression.now }
    ensures expressed { (q : List PartValue) → Reads bank.old m parts.old.items q (expr start.entry.first.now) context.now.nulls.now context.now.expression.now
        → IfOk result (λ r. Reads bank.new r parts.new.items q (path_front start.entry.at (expr start.entry.first.now) steps.now) context.now.nulls.now context.now.expression.now) }
    ensures grown { IsGrown bank.old bank.new }
{
    let mut front = m;
    let mut ty = type_of(
        context.expression.classes,
        &context.expression.types,
        start.first,
    );
    for (i, step) in steps.iter().enumerate() {
        let checked = front_may_be_null(context, start.first, &steps[..i]);
        let before = PathFront {
            place: start.at,
            ty,
            checked,
        };
        front = stepped(bank, context, parts, step, before, front)?;
        ty = step_type(
            context.expression.classes,
            &context.expression.types,
            ty,
            step,
        );
    }
    Ok(front)
}

// A cast.
#[cycle(express)]
fn cast(
    bank: &mut Bank,
    context: &ReadingContext<'_>,
    parts: &mut Vec<Part>,
    e: &Expr,
    target: CastTo<'_>,
) -> Result<Meant, AllocError>
    requires nulls { IsNullContext context.now.nulls.now }
    requires context { HasContext bank.old context.now.expression.now }
    requires parts { HasParts bank.old parts.old.items }
    ensures expressed { IfOk result (λ r. Reads bank.new r parts.new.items parts.old.items (CastExpr target.entry.at.now target.entry.class.now.0 target.entry.mark.now (expr e.now)) context.now.nulls.now context.now.expression.now) }
    ensures grown { IsGrown bank.old bank.new }
{
    let m = express(bank, context, parts, e)?;
    ask_cast(bank, context, parts, target, e, &m)?;
    Ok(m)
}

// What it was at the entry.
#[cycle(express)]
fn old(
    bank: &mut Bank,
    context: &ReadingContext<'_>,
    parts: &mut Vec<Part>,
    e: &Expr,
) -> Result<Meant, AllocError>
    requires nulls { IsNullContext context.now.nulls.now }
    requires context { HasContext bank.old context.now.expression.now }
    requires parts { HasParts bank.old parts.old.items }
    ensures expressed { (p : PlaceValue) → IfOk result (λ r. Reads bank.new r parts.new.items parts.old.items (OldExpr p (expr e.now)) context.now.nulls.now context.now.expression.now) }
    ensures grown { IsGrown bank.old bank.new }
{
    let inner = at_entry(context.alloc, context.expression)?;
    let before = ReadingContext {
        alloc: context.alloc,
        nulls: &*context.nulls,
        expression: &inner,
    };
    express(bank, &before, parts, e)
}

// The member of a quantifier.
#[cycle(express)]
fn member(
    bank: &mut Bank,
    context: &ReadingContext<'_>,
    parts: &mut Vec<Part>,
    e: &Expr,
) -> Result<Meant, AllocError>
    requires nulls { IsNullContext context.now.nulls.now }
    requires context { HasContext bank.old context.now.expression.now }
    requires parts { HasParts bank.old parts.old.items }
    ensures expressed { IfOk result (λ r. Expressed bank.new r parts.new.items
        (λ b. spec.meant (expr e.now) (spec.with_bound (context_at b context.now.expression.now)))
        (λ b. parts_at b parts.old.items ++ marked (expr e.now) (type_context_at context.now.nulls.now) (known_at context.now.nulls.now) (spec.with_bound (context_at b context.now.expression.now)))) }
    ensures grown { IsGrown bank.old bank.new }
{
    let inner = with_bound(context.alloc, bank, context.expression)?;
    let bound = ReadingContext {
        alloc: context.alloc,
        nulls: &*context.nulls,
        expression: &inner,
    };
    express(bank, &bound, parts, e)
}

// What the bounds of a quantifier mean.
#[derive(Clone, Copy)]
struct Bounds<'a> {
    low: &'a Meant,
    high: &'a Meant,
}

// A quantifier, whose bounds mean this.
#[cycle(express)]
fn quantifier_of(
    bank: &mut Bank,
    context: &ReadingContext<'_>,
    parts: &mut Vec<Part>,
    e: &Expr,
    quantifier: Quantifier,
    bounds: Bounds<'_>,
) -> Result<Meant, AllocError>
    requires nulls { IsNullContext context.now.nulls.now }
    requires context { HasContext bank.old context.now.expression.now }
    requires parts { HasParts bank.old parts.old.items }
    requires low { HasMeant bank.old bounds.low.now }
    requires high { HasMeant bank.old bounds.high.now }
    ensures expressed { IfOk result (λ r. Expressed bank.new r parts.new.items
        (λ b. spec.Says (spec.quantified_said (context_at b context.now.expression.now) quantifier (meant_at b bounds.entry.low.now) (meant_at b bounds.entry.high.now) (spec.said (spec.meant (expr e.now) (spec.with_bound (context_at b context.now.expression.now))))))
        (λ b. parts_at b parts.old.items ++ map (with_marked (in_range (context_at b context.now.expression.now) (meant_at b bounds.entry.low.now) (meant_at b bounds.entry.high.now))) (marked (expr e.now) (type_context_at context.now.nulls.now) (known_at context.now.nulls.now) (spec.with_bound (context_at b context.now.expression.now))))) }
    ensures grown { IsGrown bank.old bank.new }
{
    let out = out_of_range(
        context.alloc,
        bank,
        context.expression,
        bounds.low,
        bounds.high,
    )?;
    let mut list = Vec::new(context.alloc);
    let m = member(bank, context, &mut list, e)?;
    let read = ReadExpression {
        parts: &list,
        meant: &m,
    };
    of_member(context.alloc, bank, parts, read, quantifier, &out)
}
