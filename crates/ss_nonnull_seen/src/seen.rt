// What the walk over an expression says of it.

ghost use Rattle.std.specs.Prelude.{◌≡◌, ◌++◌, if◌then◌else◌, Some, IfOk, OnOk, List, option_map};
ghost use Rattle.ss_typed.specs.Assigned.{listed};
ghost use Rattle.ss_paths.specs.Sets.{none, only, either, among};
ghost use Rattle.ss_nonnull_rules.specs.Facts.{the_one};
ghost use Rattle.ss_nonnull_seen.specs.Paths.{told};
ghost use Rattle.ss_nonnull_seen.specs.Codes.{path_of, context_of, seen_of};
ghost use Rattle.ss_nonnull_seen.specs.Seen.{plain, literal, null_literal, this_object, local_read, negated, aged, telling, class_tested, compared_by, operated, is_set, field_read, element_read, called, fault_where, lacks, lacking, learnt_at, side_of};

use crate::context::NullContext;
use crate::known::{Known, has_its_field, knows, learned};
use ss_core::{ClassId, FieldId, Operator, Place, Rule, Ty, is_non_null, is_non_null_type};
use ss_faults::Fault;
use ss_typed::{class_type, element_of};
use std::alloc::{AllocError, Global};

/// All that is asked of an expression from outside.
#[derive(Drop)]
pub struct Seen {
    pub place: Place,
    pub ty: Option<Ty>,
    pub is_this: bool,
    /// It is the literal `null`.
    pub is_null: bool,
    /// It is the literal `true`.
    pub is_true: bool,
    /// Its value isn't null where it stands.
    pub never_null: bool,
    /// The local that it is, if it is one.
    pub local: Option<usize>,
    /// The locals that aren't null where it is true.
    pub holds: Vec<usize>,
    /// The locals that aren't null where it is false.
    pub fails: Vec<usize>,
}

// ---- by the form of the expression

/// What is no local, neither `this` nor a literal, and says nothing.
pub fn plain(alloc: Global, place: Place, ty: Option<Ty>, never_null: bool) -> Seen
    ensures { seen_of result ≡ plain place ty never_null }
{
    Seen {
        place,
        ty,
        is_this: false,
        is_null: false,
        is_true: false,
        never_null,
        local: None,
        holds: Vec::new(alloc),
        fails: Vec::new(alloc),
    }
}

/// `true` or `false`
pub fn literal(alloc: Global, place: Place, value: bool) -> Seen
    ensures { seen_of result ≡ literal place value }
{
    Seen {
        place,
        ty: Some(Ty::Bool),
        is_this: false,
        is_null: false,
        is_true: value,
        never_null: false,
        local: None,
        holds: Vec::new(alloc),
        fails: Vec::new(alloc),
    }
}

/// `null`
pub fn null_literal(alloc: Global, place: Place) -> Seen
    ensures { seen_of result ≡ null_literal place }
{
    Seen {
        place,
        ty: Some(Ty::Null),
        is_this: false,
        is_null: true,
        is_true: false,
        never_null: false,
        local: None,
        holds: Vec::new(alloc),
        fails: Vec::new(alloc),
    }
}

/// `this`
pub fn this_object(alloc: Global, place: Place, class: ClassId) -> Seen
    ensures { seen_of result ≡ this_object place class.0 }
{
    Seen {
        place,
        ty: Some(class_type(class, true)),
        is_this: true,
        is_null: false,
        is_true: false,
        never_null: true,
        local: None,
        holds: Vec::new(alloc),
        fails: Vec::new(alloc),
    }
}

/// A local.
pub fn local_read(alloc: Global, known: &Option<Known>, place: Place, local: usize, ty: Ty) -> Seen
    ensures { seen_of result ≡ local_read (path_of known.now) place local ty }
{
    Seen {
        place,
        ty: Some(ty),
        is_this: false,
        is_null: false,
        is_true: false,
        never_null: is_non_null(ty) || knows(known, local),
        local: Some(local),
        holds: Vec::new(alloc),
        fails: Vec::new(alloc),
    }
}

// A test that says this where it is true, and where it is false.
fn telling(place: Place, holds: Vec<usize>, fails: Vec<usize>) -> Seen
    ensures { seen_of result ≡ telling place (among holds.items) (among fails.items) }
{
    Seen {
        place,
        ty: Some(Ty::Bool),
        is_this: false,
        is_null: false,
        is_true: false,
        never_null: false,
        local: None,
        holds,
        fails,
    }
}

/// `!e`
pub fn negated(place: Place, seen: Seen) -> Seen
    ensures { seen_of result ≡ negated place (seen_of seen) }
{
    telling(place, seen.fails, seen.holds)
}

/// `old(e)`
pub fn aged(alloc: Global, place: Place, seen: &Seen) -> Seen
    ensures { seen_of result ≡ aged place (seen_of seen.now) }
{
    plain(alloc, place, seen.ty, seen.never_null)
}

/// What a call gives.
pub fn called(alloc: Global, place: Place, ty: Option<Ty>) -> Seen
    ensures { seen_of result ≡ called place ty }
{
    plain(alloc, place, ty, is_non_null_type(ty))
}

// The local, as a list.
#[tactic(auto, using(crate::proofs::Seeing::one_among))]
fn one(alloc: Global, local: Option<usize>) -> Result<Vec<usize>, AllocError>
    ensures { IfOk result (λ v. among v.items ≡ the_one local) }
{
    let mut list = Vec::new(alloc);
    note(&mut list, local)?;
    Ok(list)
}

fn note(list: &mut Vec<usize>, local: Option<usize>) -> Result<(), AllocError>
    ensures { OnOk result (list.new.items ≡ list.old.items ++ listed local) }
{
    if let Some(local) = local {
        list.push(local)?;
    }
    Ok(())
}

/// `e is T`
pub fn class_tested(alloc: Global, place: Place, seen: &Seen) -> Result<Seen, AllocError>
    ensures { IfOk result (λ v. seen_of v ≡ class_tested place (seen_of seen.now)) }
{
    let holds = one(alloc, seen.local)?;
    Ok(telling(place, holds, Vec::new(alloc)))
}

// The left side of a comparison, where the right one is `null`.
fn compared(alloc: Global, left: &Seen, right: &Seen) -> Result<Vec<usize>, AllocError>
    ensures { IfOk result (λ v. among v.items ≡ compared_by (seen_of left.now) (seen_of right.now)) }
{
    if right.is_null {
        let list = one(alloc, left.local)?;
        Ok(list)
    } else {
        Ok(Vec::new(alloc))
    }
}

// Whether the local stands in the list.
fn is_listed(list: &[usize], local: usize) -> bool
    ensures { result ≡ among list.now local }
{
    for other in list {
        if *other == local {
            return true;
        }
    }
    false
}

// One more local, which stands in the list once.
#[tactic(auto, using(crate::proofs::Listing::known_already, crate::proofs::Listing::one_more))]
fn list_once(list: &mut Vec<usize>, local: usize) -> Result<(), AllocError>
    ensures { OnOk result (among list.new.items ≡ either (among list.old.items) (only local)) }
{
    if !is_listed(list, local) {
        list.push(local)?;
    }
    Ok(())
}

// The locals of both lists. A local is told once, so that a long chain of tests of one local stays short.
fn joined(one: Vec<usize>, other: &[usize]) -> Result<Vec<usize>, AllocError>
    ensures { IfOk result (λ v. among v.items ≡ either (among one.items) (among other.now)) }
{
    let mut all = one;
    for local in other {
        list_once(&mut all, *local)?;
    }
    Ok(all)
}

/// An operation of two operands.
pub fn operated(
    alloc: Global,
    place: Place,
    operator: Operator,
    left: Seen,
    right: Seen,
) -> Result<Seen, AllocError>
    ensures { IfOk result (λ v. seen_of v ≡ operated place operator (seen_of left) (seen_of right)) }
{
    match operator {
        Operator::And => {
            let holds = joined(left.holds, &right.holds)?;
            Ok(telling(place, holds, Vec::new(alloc)))
        }
        Operator::Or => {
            let fails = joined(left.fails, &right.fails)?;
            Ok(telling(place, Vec::new(alloc), fails))
        }
        Operator::NotEqual => {
            let holds = compared(alloc, &left, &right)?;
            Ok(telling(place, holds, Vec::new(alloc)))
        }
        Operator::Equal => {
            let otherwise = compared(alloc, &left, &right)?;
            Ok(telling(place, Vec::new(alloc), otherwise))
        }
        Operator::Less | Operator::LessEqual | Operator::Greater | Operator::GreaterEqual => {
            Ok(plain(alloc, place, Some(Ty::Bool), false))
        }
        Operator::Add
        | Operator::Subtract
        | Operator::Multiply
        | Operator::Divide
        | Operator::Remainder => Ok(plain(alloc, place, Some(Ty::Int), false)),
    }
}

// Whether a field has its type.
fn is_set(context: &NullContext<'_>, known: &Option<Known>, is_this: bool, field: FieldId) -> bool
    ensures { result ≡ is_set (context_of context.now) (path_of known.now) is_this field.0 }
{
    !context.constructs || !context.in_old && (!is_this || has_its_field(context, known, field))
}

/// `e.f`
pub fn field_read(
    context: &NullContext<'_>,
    known: &Option<Known>,
    place: Place,
    field: FieldId,
    ty: Ty,
    seen: &Seen,
) -> Seen
    ensures { seen_of result ≡ field_read (context_of context.now) (path_of known.now) place field.0 ty (seen_of seen.now) }
{
    let never_null = is_non_null(ty) && is_set(context, known, seen.is_this, field);
    plain(context.alloc, place, Some(ty), never_null)
}

/// `e[i]`
pub fn element_read(alloc: Global, place: Place, seen: &Seen) -> Seen
    ensures { seen_of result ≡ element_read place (seen_of seen.now) }
{
    plain(alloc, place, element_of(seen.ty), false)
}

// ---- what is asked of it

fn is_lacking(ty: Ty, seen: &Seen) -> bool
    ensures { result ≡ lacks ty (seen_of seen.now) }
{
    is_non_null(ty) && seen.ty.is_some() && !seen.never_null
}

/// Notes a value that may be null.
pub fn note_null(found: &mut Vec<Fault>, is_fault: bool, place: Place) -> Result<(), AllocError>
    ensures { OnOk result (found.new.items ≡ found.old.items ++ fault_where is_fault place) }
{
    if !is_fault {
        return Ok(());
    }
    found.push(Fault {
        rule: Rule::MayBeNull.number(),
        place,
    })?;
    Ok(())
}

/// Notes that it may be null, where a value of this type is wanted.
pub fn note_lacking(
    found: &mut Vec<Fault>,
    wanted: Option<Ty>,
    seen: &Seen,
) -> Result<(), AllocError>
    ensures { OnOk result (found.new.items ≡ found.old.items ++ lacking wanted (seen_of seen.now)) }
{
    match wanted {
        Some(ty) => note_null(found, is_lacking(ty, seen), seen.place),
        None => Ok(()),
    }
}

/// The truth value of the left operand at which the right one is read, where that says something.
pub fn learnt_at(operator: Operator) -> Option<bool>
    ensures { result ≡ learnt_at operator }
{
    match operator {
        Operator::And => Some(true),
        Operator::Or => Some(false),
        Operator::Equal
        | Operator::NotEqual
        | Operator::Less
        | Operator::LessEqual
        | Operator::Greater
        | Operator::GreaterEqual
        | Operator::Add
        | Operator::Subtract
        | Operator::Multiply
        | Operator::Divide
        | Operator::Remainder => None,
    }
}

/// What is known where the expression has this truth value.
pub fn learn_side(
    known: &Option<Known>,
    seen: &Seen,
    truth: bool,
) -> Result<Option<Known>, AllocError>
    ensures { IfOk result (λ k. path_of k ≡ option_map (told (side_of truth (seen_of seen.now))) (path_of known.now)) }
{
    if truth {
        let more = learned(known, &seen.holds)?;
        Ok(more)
    } else {
        let more = learned(known, &seen.fails)?;
        Ok(more)
    }
}
