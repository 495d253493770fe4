// The classes of the tests.

ghost use Rattle.std.specs.Prelude.{◌≡◌, ◌==◌, length, nat_le, IsTrue};
ghost use Rattle.std.specs.List.{list_all};
ghost use Rattle.ss_core.specs.View as view;
ghost use Rattle.ss_core.specs.Chain.{IsWithinLimits};
ghost use Rattle.ss_logic_means.specs.Scenes.{AreInvariants};

use ss_core::{
    BodyId, Class, ClassId, Classes, Core, Expr, Field, FieldId, Kind, Link, Mark, Operator, Place,
    Step, Ty,
};
use ss_terms::{FormulaId, Obligation};
use std::alloc::{AllocError, Global};

fn reference(class: u16, non_null: bool) -> Ty {
    Ty::Ref {
        class: ClassId(class),
        non_null,
    }
}

// One more class, with fields of these types and marks.
fn add(
    alloc: Global,
    list: &mut Vec<Class>,
    above: u16,
    also: &[ClassId],
    fields: &[(Ty, Mark)],
    invariants: Vec<Expr>,
) -> Result<(), AllocError> {
    let mut declared = Vec::new(alloc);
    for (ty, mark) in fields {
        declared.push(Field {
            name: String::new(alloc),
            ty: *ty,
            mark: *mark,
        })?;
    }
    let also = Vec::from_slice(alloc, also)?;
    list.push(Class {
        name: String::new(alloc),
        above: ClassId(above),
        also,
        fields: declared,
        invariants,
        table: Vec::new(alloc),
    })?;
    Ok(())
}

// `0 <= this.f`, of field 0
fn not_negative(alloc: Global) -> Result<Expr, AllocError> {
    let place = Place { line: 1, column: 1 };
    let zero = Box::new(alloc, Expr::Int(place, 0))?;
    let this = Box::new(alloc, Expr::Local(place, 0))?;
    let steps = vec![in alloc; Step::Field(FieldId(0))]?;
    let field = Expr::Path(place, this, steps);
    let links = vec![in alloc; Link::Operation(Operator::LessEqual, field)]?;
    Ok(Expr::Chain(place, zero, links))
}

// Class 4 is a node, with these invariants. Its fields are 0 `int`, 1 `bool`, 2 `[Rep]` a node, 3 `[Peer]` a node that isn't null, 4 a leaf.
// Class 6, a leaf, below it: 5 `[Rep] object[]`, which isn't null. Class 8 has no field. An object of class 10 counts as 8 too.
fn fill(alloc: Global, list: &mut Vec<Class>, invariants: Vec<Expr>) -> Result<(), AllocError> {
    let node = [
        (Ty::Int, Mark::Plain),
        (Ty::Bool, Mark::Plain),
        (reference(4, false), Mark::Rep),
        (reference(4, true), Mark::Peer),
        (reference(6, false), Mark::Plain),
    ];
    add(alloc, list, 0, &[], &node, invariants)?;
    let array = [(reference(3, true), Mark::Rep)];
    add(alloc, list, 4, &[], &array, Vec::new(alloc))?;
    add(alloc, list, 0, &[], &[], Vec::new(alloc))?;
    add(alloc, list, 0, &[ClassId(8)], &[], Vec::new(alloc))
}

// The classes, in a program without bodies.
fn program_with(alloc: Global, invariants: Vec<Expr>) -> Result<Core, AllocError> {
    let mut list = Vec::new(alloc);
    fill(alloc, &mut list, invariants)?;
    Ok(Core {
        classes: Classes { list },
        bodies: Vec::new(alloc),
        main: BodyId(0),
    })
}

/// The classes, where the number of a node isn't negative.
pub fn program(alloc: Global) -> Result<Core, AllocError> {
    let lowest = not_negative(alloc)?;
    let invariants = vec![in alloc; lowest]?;
    program_with(alloc, invariants)
}

/// The same classes without an invariant.
pub fn plain_program(alloc: Global) -> Result<Core, AllocError> {
    program_with(alloc, Vec::new(alloc))
}

/// The goal, where the premises are true. What the check is about doesn't matter.
pub fn obligation<'o>(premises: &'o [FormulaId], goal: FormulaId) -> Obligation<'o>
    ensures premises { result.premises.now ≡ premises.now }
    ensures goal { result.goal ≡ goal }
{
    Obligation {
        premises,
        goal,
        kind: Kind::Assert,
        place: Place { line: 1, column: 1 },
        body: BodyId(0),
    }
}

fn has_few_fields(class: &Class) -> bool
    ensures { result ≡ nat_le (length (view.class_of class.now).fields) 16 }
{
    class.fields.len() <= 16
}

fn have_few_fields(classes: &Classes) -> bool
    ensures { result ≡ list_all (λ c. nat_le (length c.fields) 16) (view.classes classes.now) }
{
    for class in &classes.list {
        if !has_few_fields(class) {
            return false;
        }
    }
    true
}

/// Whether there are few classes, each with few fields.
pub fn are_few(classes: &Classes) -> bool
    ensures { IsTrue result → IsWithinLimits (view.classes classes.now) }
{
    classes.list.len() <= 4096 && have_few_fields(classes)
}

fn has_no_invariant(class: &Class) -> bool
    ensures { result ≡ (length (view.class_of class.now).invariants == 0) }
{
    class.invariants.len() == 0
}

fn have_no_invariants(classes: &Classes) -> bool
    ensures { result ≡ list_all (λ c. length c.invariants == 0) (view.classes classes.now) }
{
    for class in &classes.list {
        if !has_no_invariant(class) {
            return false;
        }
    }
    true
}

/// Whether no class has an invariant.
pub fn are_plain(classes: &Classes) -> bool
    ensures { IsTrue result → AreInvariants (view.classes classes.now) }
{
    have_no_invariants(classes)
}
