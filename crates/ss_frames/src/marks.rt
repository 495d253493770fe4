// Named terms, each with the formula that an object is the one that it names.

ghost use Rattle.std.specs.Prelude.{◌≡◌, ◌++◌, [], ◌∷◌, if◌then◌else◌, IfOk, OnOk};
ghost use Rattle.ss_core.specs.View as view;
ghost use Rattle.ss_logic.specs.Frames.{the_object};
ghost use Rattle.ss_terms.specs.Forms.{IsGrown, IsBankOf};
ghost use Rattle.ss_frames.specs.Calls.{guard_of, object_of, HasNamed, HasCall, IsTerm, IsMade, is_named_at, AreNamed, names_part, picked};

use crate::calls::{CallTerms, NamedTerm};
use ss_core::{ClassId, Classes};
use ss_terms::{Bank, FormulaId, TermId};
use ss_terms_puts::lift;
use std::alloc::{AllocError, Global};

/// A named term, and the formula that the object is the one that it names.
#[derive(Clone, Copy)]
pub(crate) struct Mark {
    pub(crate) term: NamedTerm,
    pub(crate) formula: FormulaId,
}

/// A part of an object that may be named.
#[derive(Clone, Copy)]
pub(crate) enum Part {
    /// A field, and the class that declares it.
    Field(u32, ClassId),
    /// The level.
    Level,
    /// The elements.
    Elements,
}

impl NamedTerm {
    // Where it may change.
    fn guard(self) -> FormulaId
        ensures { result ≡ guard_of self }
    {
        match self {
            NamedTerm::At(guard, _, _) => guard,
            NamedTerm::All(guard, _) => guard,
            NamedTerm::Upto(guard, _, _) => guard,
            NamedTerm::Elements(guard, _) => guard,
        }
    }

    // Of which object.
    fn object(self) -> TermId
        ensures { result ≡ object_of self }
    {
        match self {
            NamedTerm::At(_, object, _) => object,
            NamedTerm::All(_, object) => object,
            NamedTerm::Upto(_, object, _) => object,
            NamedTerm::Elements(_, object) => object,
        }
    }

    // Whether it names the part.
    fn names(self, classes: &Classes, part: Part) -> bool
        ensures { result ≡ names_part (view.classes classes.now) part self }
    {
        match part {
            Part::Field(f, class) => match self {
                NamedTerm::At(_, _, field) => field.0 == f,
                NamedTerm::All(_, _) => true,
                NamedTerm::Upto(_, _, t) => classes.is_subclass(t, class),
                NamedTerm::Elements(_, _) => false,
            },
            Part::Level => match self {
                NamedTerm::At(_, _, _) => false,
                NamedTerm::All(_, _) => true,
                NamedTerm::Upto(_, _, _) => true,
                NamedTerm::Elements(_, _) => false,
            },
            Part::Elements => match self {
                NamedTerm::At(_, _, _) => false,
                NamedTerm::All(_, _) => false,
                NamedTerm::Upto(_, _, _) => false,
                NamedTerm::Elements(_, _) => true,
            },
        }
    }
}

// The object is the one that is named, where n names are bound.
fn named(
    alloc: Global,
    b: &mut Bank,
    classes: &Classes,
    n: usize,
    object: TermId,
    term: NamedTerm,
) -> Result<FormulaId, AllocError>
    requires bank { IsBankOf (view.classes classes.now) b.old }
    requires object { IsTerm b.old object the_object }
    requires term { HasNamed b.old term }
    ensures at { IfOk result (λ f. IsMade b.new f (is_named_at b.old n term)) }
    ensures grown { IsGrown b.old b.new }
{
    let guard = lift(alloc, b, classes, n, term.guard())?;
    let same = b.equality(object, term.object())?;
    b.and(&[guard, same])
}

// The marks of the named terms, where n names are bound.
pub(crate) fn marks(
    alloc: Global,
    b: &mut Bank,
    classes: &Classes,
    n: usize,
    object: TermId,
    m: &CallTerms,
) -> Result<Vec<Mark>, AllocError>
    requires bank { IsBankOf (view.classes classes.now) b.old }
    requires object { IsTerm b.old object the_object }
    requires call { HasCall b.old m.now }
    ensures at { IfOk result (λ v. AreNamed b.new n m.now v.items) }
    ensures grown { IsGrown b.old b.new }
{
    let mut made = Vec::new(alloc);
    for term in &m.named {
        let term = *term;
        let formula = named(alloc, b, classes, n, object, term)?;
        made.push(Mark { term, formula })?;
    }
    Ok(made)
}

// The formulas of the marks that name the part.
pub(crate) fn pick(
    alloc: Global,
    classes: &Classes,
    part: Part,
    marks: &[Mark],
) -> Result<Vec<FormulaId>, AllocError>
    ensures { IfOk result (λ v. v.items ≡ picked (view.classes classes.now) part marks.now) }
{
    let mut made = Vec::new(alloc);
    for mark in marks {
        let wanted = mark.term.names(classes, part);
        add(&mut made, wanted, mark.formula)?;
    }
    Ok(made)
}

// The formula joins the others where it is wanted.
fn add(made: &mut Vec<FormulaId>, wanted: bool, f: FormulaId) -> Result<(), AllocError>
    ensures { OnOk result (made.new.items ≡ (if wanted then made.old.items ++ f ∷ [] else made.old.items)) }
{
    if !wanted {
        return Ok(());
    }
    made.push(f)?;
    Ok(())
}
