// The faults of ownership of a whole program, and the first of them.

ghost use Rattle.std.specs.Prelude.{◌≡◌, ◌++◌, OnOk, IfOk, map, option_map, true, false};
ghost use Rattle.ss_faults.specs.First.{first_fault, Answers};
ghost use Rattle.ss_ast.specs.Expressions.{name_tree};
ghost use Rattle.ss_core.specs.View.{class_of, field_of};
ghost use Rattle.ss_core.specs.Chain.{fields_of};
ghost use Rattle.ss_typed.specs.View.{base, block, body, expr, exprs, field, invariant_of, members, modified, param, typed};
ghost use Rattle.ss_owners_rules.specs.Words.{NoWord, Questions, EveryWord, misplaced, misplaced_if, misplaced_in, misplaced_in_all};
ghost use Rattle.ss_owners_rules.specs.Admissible.{field_marks, inadmissible};
ghost use Rattle.ss_owners_rules.specs.Attributes.{on_body, bad_attributes};
ghost use Rattle.ss_owners_rules.specs.Program.{of_attributes, of_words, of_reads, invariant_faults, invariants_faults, field_faults, fields_faults, class_faults, classes_faults, param_faults, params_faults, misplaced_term, misplaced_terms, misplaced_modified, misplaced_base, misplaced_body, body_faults, bodies_faults, ownership_faults};
ghost use Rattle.ss_owners.specs.Parts.{allowed_of};
ghost use Rattle.ss_owners.specs.Bearers.{names_of};

use crate::attributes::{Bearer, find_bad};
use crate::marks::field_marks;
use crate::noting::{note_bad, note_reads, note_words};
use crate::reads::find_reads;
use crate::statements::{find_if, find_in, find_in_all};
use crate::words::{Allowed, find_in_each, find_words};
use ss_ast::Name;
use ss_core::{Class, Field, FrontStop, Mark, Place};
use ss_faults::{Fault, answer, first_fault};
use ss_typed::{
    Typed, TypedBase, TypedBody, TypedClass, TypedExpr, TypedField, TypedInvariant, TypedModifies,
    TypedParam, class_at,
};
use std::alloc::{AllocError, Global};

// ---- parts of members

fn check_attributes(
    alloc: Global,
    on: Bearer,
    attributes: &[Name],
    found: &mut Vec<Fault>,
) -> Result<(), AllocError>
    ensures { OnOk result (found.new.items ≡ found.old.items ++ of_attributes (bad_attributes (names_of on) (map name_tree attributes.now))) }
{
    let mut places = Vec::new(alloc);
    find_bad(on, attributes, &mut places)?;
    note_bad(&places, found)
}

fn check_words(
    alloc: Global,
    allowed: Allowed,
    e: &TypedExpr,
    found: &mut Vec<Fault>,
) -> Result<(), AllocError>
    ensures { OnOk result (found.new.items ≡ found.old.items ++ of_words (misplaced (allowed_of allowed) (expr e.now))) }
{
    let mut places = Vec::new(alloc);
    find_words(allowed, e, &mut places)?;
    note_words(&places, found)
}

fn check_initial(
    alloc: Global,
    initial: &Option<TypedExpr>,
    found: &mut Vec<Fault>,
) -> Result<(), AllocError>
    ensures { OnOk result (found.new.items ≡ found.old.items ++ of_words (misplaced_if NoWord (option_map expr initial.now))) }
{
    let mut places = Vec::new(alloc);
    find_if(Allowed::NoWord, initial, &mut places)?;
    note_words(&places, found)
}

fn check_reads(
    alloc: Global,
    marks: &[Mark],
    e: &TypedExpr,
    found: &mut Vec<Fault>,
) -> Result<(), AllocError>
    ensures { OnOk result (found.new.items ≡ found.old.items ++ of_reads (inadmissible marks.now (expr e.now))) }
{
    let mut places = Vec::new(alloc);
    find_reads(marks, e, &mut places)?;
    note_reads(&places, found)
}

// ---- invariants and fields

fn check_invariant(
    alloc: Global,
    marks: &[Mark],
    invariant: &TypedInvariant,
    found: &mut Vec<Fault>,
) -> Result<(), AllocError>
    ensures { OnOk result (found.new.items ≡ found.old.items ++ invariant_faults marks.now (invariant_of invariant.now)) }
{
    check_attributes(alloc, Bearer::Invariant, &invariant.attributes, found)?;
    check_words(alloc, Allowed::NoWord, &invariant.condition, found)?;
    check_reads(alloc, marks, &invariant.condition, found)
}

fn check_invariants(
    alloc: Global,
    marks: &[Mark],
    list: &[TypedInvariant],
    found: &mut Vec<Fault>,
) -> Result<(), AllocError>
    ensures { OnOk result (found.new.items ≡ found.old.items ++ invariants_faults marks.now (map invariant_of list.now)) }
{
    for invariant in list {
        check_invariant(alloc, marks, invariant, found)?;
    }
    Ok(())
}

// A field with its entry in the table of classes.
fn check_field(
    alloc: Global,
    declared: &TypedField,
    entry: &Field,
    found: &mut Vec<Fault>,
) -> Result<(), AllocError>
    ensures { OnOk result (found.new.items ≡ found.old.items ++ field_faults (field declared.now) (field_of entry.now)) }
{
    check_attributes(alloc, Bearer::Field(entry.ty), &declared.attributes, found)?;
    check_initial(alloc, &declared.initial, found)
}

fn check_fields(
    alloc: Global,
    fields: &[TypedField],
    entries: &[Field],
    found: &mut Vec<Fault>,
) -> Result<(), AllocError>
    ensures { OnOk result (found.new.items ≡ found.old.items ++ fields_faults (map field fields.now) (map field_of entries.now)) }
{
    for (place, declared) in fields.iter().enumerate() {
        if place >= entries.len() {
            return Ok(());
        }
        check_field(alloc, declared, &entries[place], found)?;
    }
    Ok(())
}

// ---- classes

fn check_fields_of(
    alloc: Global,
    fields: &[TypedField],
    class: Option<&Class>,
    found: &mut Vec<Fault>,
) -> Result<(), AllocError>
    ensures { OnOk result (found.new.items ≡ found.old.items ++ fields_faults (map field fields.now) (fields_of (option_map (λ c. class_of c.now) class.entry))) }
{
    match class {
        Some(class) => check_fields(alloc, fields, &class.fields, found),
        None => Ok(()),
    }
}

fn check_class(
    alloc: Global,
    program: &Typed,
    marks: &[Mark],
    place: usize,
    class: &TypedClass,
    found: &mut Vec<Fault>,
) -> Result<(), AllocError>
    requires { marks.now ≡ field_marks (typed program.now).classes }
    ensures { OnOk result (found.new.items ≡ found.old.items ++ class_faults (typed program.now) place (members class.now)) }
{
    check_fields_of(alloc, &class.fields, class_at(program, place), found)?;
    check_invariants(alloc, marks, &class.invariants, found)
}

fn check_classes(
    alloc: Global,
    program: &Typed,
    marks: &[Mark],
    list: &[TypedClass],
    found: &mut Vec<Fault>,
) -> Result<(), AllocError>
    requires { marks.now ≡ field_marks (typed program.now).classes }
    ensures { OnOk result (found.new.items ≡ found.old.items ++ classes_faults (typed program.now) 0 (map members list.now)) }
{
    for (place, class) in list.iter().enumerate() {
        check_class(alloc, program, marks, place, class, found)?;
    }
    Ok(())
}

// ---- bodies

fn check_param(
    alloc: Global,
    declared: &TypedParam,
    found: &mut Vec<Fault>,
) -> Result<(), AllocError>
    ensures { OnOk result (found.new.items ≡ found.old.items ++ param_faults (param declared.now)) }
{
    check_attributes(
        alloc,
        Bearer::Param(declared.ty),
        &declared.attributes,
        found,
    )
}

fn check_params(
    alloc: Global,
    list: &[TypedParam],
    found: &mut Vec<Fault>,
) -> Result<(), AllocError>
    ensures { OnOk result (found.new.items ≡ found.old.items ++ params_faults (map param list.now)) }
{
    for declared in list {
        check_param(alloc, declared, found)?;
    }
    Ok(())
}

fn find_in_term(term: &TypedModifies, found: &mut Vec<Place>) -> Result<(), AllocError>
    ensures { OnOk result (found.new.items ≡ found.old.items ++ misplaced_term (modified term.now)) }
{
    match term {
        TypedModifies::Field(e, _) => find_words(Allowed::NoWord, e, found),
        TypedModifies::All(e) => find_words(Allowed::NoWord, e, found),
        TypedModifies::Elements(e) => find_words(Allowed::NoWord, e, found),
    }
}

fn find_in_terms(list: &[TypedModifies], found: &mut Vec<Place>) -> Result<(), AllocError>
    ensures { OnOk result (found.new.items ≡ found.old.items ++ misplaced_terms (map modified list.now)) }
{
    for term in list {
        find_in_term(term, found)?;
    }
    Ok(())
}

fn find_in_modifies(
    terms: &Option<Vec<TypedModifies>>,
    found: &mut Vec<Place>,
) -> Result<(), AllocError>
    ensures { OnOk result (found.new.items ≡ found.old.items ++ misplaced_modified (option_map (λ ms. map modified ms.items) terms.now)) }
{
    match terms {
        Some(list) => find_in_terms(list, found),
        None => Ok(()),
    }
}

fn find_in_base(call: &Option<TypedBase>, found: &mut Vec<Place>) -> Result<(), AllocError>
    ensures { OnOk result (found.new.items ≡ found.old.items ++ misplaced_base (option_map base call.now)) }
{
    match call {
        Some(call) => find_in_each(Allowed::NoWord, &call.arguments, found),
        None => Ok(()),
    }
}

fn find_in_clauses(written: &TypedBody, found: &mut Vec<Place>) -> Result<(), AllocError>
    ensures { OnOk result (found.new.items ≡ found.old.items
        ++ (misplaced_in_all Questions (body written.now).entry ++ misplaced_in_all EveryWord (body written.now).exit ++ misplaced_modified (body written.now).modifies)) }
{
    find_in_all(Allowed::Questions, &written.entry, found)?;
    find_in_all(Allowed::EveryWord, &written.exit, found)?;
    find_in_modifies(&written.modifies, found)
}

fn find_in_body(written: &TypedBody, found: &mut Vec<Place>) -> Result<(), AllocError>
    ensures { OnOk result (found.new.items ≡ found.old.items ++ misplaced_body (body written.now)) }
{
    find_in_clauses(written, found)?;
    find_in_base(&written.base, found)?;
    find_in(&written.block, found)
}

fn check_body_words(
    alloc: Global,
    written: &TypedBody,
    found: &mut Vec<Fault>,
) -> Result<(), AllocError>
    ensures { OnOk result (found.new.items ≡ found.old.items ++ of_words (misplaced_body (body written.now))) }
{
    let mut places = Vec::new(alloc);
    find_in_body(written, &mut places)?;
    note_words(&places, found)
}

fn bearer_of(is_constructor: bool) -> Bearer
    ensures { names_of result ≡ on_body is_constructor }
{
    if is_constructor {
        Bearer::Constructor
    } else {
        Bearer::Method
    }
}

fn check_body(alloc: Global, written: &TypedBody, found: &mut Vec<Fault>) -> Result<(), AllocError>
    ensures { OnOk result (found.new.items ≡ found.old.items ++ body_faults (body written.now)) }
{
    let on = bearer_of(written.flags.ctor);
    check_attributes(alloc, on, &written.attributes, found)?;
    check_params(alloc, &written.params, found)?;
    check_body_words(alloc, written, found)
}

fn check_bodies(alloc: Global, list: &[TypedBody], found: &mut Vec<Fault>) -> Result<(), AllocError>
    ensures { OnOk result (found.new.items ≡ found.old.items ++ bodies_faults (map body list.now)) }
{
    for written in list {
        check_body(alloc, written, found)?;
    }
    Ok(())
}

// ---- the program

// Every fault of ownership in a program.
#[tactic(auto, unfolding(ss_owners_rules::specs::Program::ownership_faults))]
fn find_faults(alloc: Global, program: &Typed) -> Result<Vec<Fault>, AllocError>
    ensures { IfOk result (λ v. v.items ≡ ownership_faults (typed program.now)) }
{
    let marks = field_marks(alloc, &program.classes)?;
    let mut found = Vec::new(alloc);
    check_classes(alloc, program, &marks, &program.members, &mut found)?;
    check_bodies(alloc, &program.bodies, &mut found)?;
    Ok(found)
}

// The first fault of ownership in a program, where it has one.
fn first_ownership_fault(alloc: Global, program: &Typed) -> Result<Option<Fault>, AllocError>
    ensures { IfOk result (λ f. f ≡ first_fault (ownership_faults (typed program.now))) }
{
    let faults = find_faults(alloc, program)?;
    Ok(first_fault(&faults))
}

/// Refuses a program that has faults of ownership, by the first: the one at the earliest place, and of two there the one of the
/// lower rule.
pub fn check_ownership(alloc: Global, program: &Typed) -> Result<(), FrontStop>
    ensures { Answers (first_fault (ownership_faults (typed program.now))) result }
{
    answer(first_ownership_fault(alloc, program))
}
