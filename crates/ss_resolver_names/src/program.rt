// The faults of names in a program, and the first of them.

ghost use Rattle.std.specs.Prelude.{◌≡◌, ◌++◌, [], ◌<◌, Some, length, map, drop, count_by, slice_get, OnOk, IfOk, if◌then◌else◌};
ghost use Rattle.ss_ast.specs.Programs.{class_tree, program_tree};
ghost use Rattle.ss_tables.specs.Members.{methods_in};
ghost use Rattle.ss_tables.specs.Classes.{members_at};
ghost use Rattle.ss_tables_lookup.specs.Shelves.{shelf};
ghost use Rattle.ss_tables_lookup.specs.Shelved.{shelf_of};
ghost use Rattle.ss_tables_lookup.specs.Views.{method_tree};
ghost use Rattle.ss_tables_lookup.specs.Classes.{trees};
ghost use Rattle.ss_resolver_names_rules.specs.Faults.{twice_among};
ghost use Rattle.ss_resolver_names_rules.specs.Members.{faults_at};
ghost use Rattle.ss_resolver_names_rules.specs.Headings.{heading_faults};
ghost use Rattle.ss_resolver_names_rules.specs.Programs.{most_classes, class_faults_of, classes_faults, is_main, mains_in, class_names, program_faults, first_name_fault};

use crate::classes::{
    check_above, check_constructors, check_depth, check_fields, check_member_names, check_methods,
    check_twice,
};
use crate::counts::check_bodies;
use crate::overrides::check_overrides;
use indexmap::IndexSet;
use ss_ast::{ClassDecl, Program};
use ss_core::{MOST_CLASSES, Rule};
use ss_faults::{Fault, first_fault};
use ss_resolver_names_members::{add, add_unless, check_members};
use ss_resolver_scoping::{is_main, plus};
use ss_tables_lookup::{MethodRef, Shelf, Tables};
use std::alloc::{AllocError, Global};

// The faults of a class beside those of its members.
fn check_heading(
    alloc: Global,
    tables: &Tables<'_>,
    class: usize,
    faults: &mut Vec<Fault>,
    declaration: &ClassDecl,
    kept: &Shelf<'_>,
) -> Result<(), AllocError>
    requires { shelf_of kept.now ≡ shelf (trees tables.now) (class_tree declaration.now) }
    ensures { OnOk result (faults.new.items ≡ faults.old.items ++ heading_faults (trees tables.now) class (class_tree declaration.now)) }
{
    check_depth(tables, class, faults, declaration)?;
    check_above(tables, class, faults, &declaration.above)?;
    check_member_names(alloc, faults, &declaration.members)?;
    check_constructors(faults, &kept.constructors)?;
    check_fields(tables, class, faults, &kept.fields)?;
    check_methods(faults, &kept.methods)?;
    check_overrides(tables, class, faults, &kept.methods)
}

// A class.
fn check_shelf(
    alloc: Global,
    tables: &Tables<'_>,
    class: usize,
    faults: &mut Vec<Fault>,
    declaration: &ClassDecl,
    kept: &Shelf<'_>,
) -> Result<(), AllocError>
    requires within { class < length (trees tables.now) }
    requires shelved { shelf_of kept.now ≡ shelf (trees tables.now) (class_tree declaration.now) }
    ensures { OnOk result (faults.new.items ≡ faults.old.items ++ class_faults_of (trees tables.now) class (class_tree declaration.now)) }
{
    check_heading(alloc, tables, class, faults, declaration, kept)?;
    check_members(alloc, tables, class, faults, &declaration.members)?;
    check_bodies(alloc, tables, class, faults, kept)
}

// The class at a place.
fn check_class(
    alloc: Global,
    tables: &Tables<'_>,
    class: usize,
    faults: &mut Vec<Fault>,
    declaration: &ClassDecl,
) -> Result<(), AllocError>
    requires { slice_get (trees tables.now) class ≡ Some (class_tree declaration.now) }
    ensures { OnOk result (faults.new.items ≡ faults.old.items ++ class_faults_of (trees tables.now) class (class_tree declaration.now)) }
{
    match tables.shelf(class) {
        Some(shelf) => check_shelf(alloc, tables, class, faults, declaration, shelf),
        None => unreachable!(),
    }
}

fn check_classes(
    alloc: Global,
    tables: &Tables<'_>,
    faults: &mut Vec<Fault>,
    classes: &[ClassDecl],
) -> Result<(), AllocError>
    requires { tables.now ≡ classes.now }
    ensures { OnOk result (faults.new.items ≡ faults.old.items ++ classes_faults (trees tables.now) 0 (map class_tree classes.now)) }
{
    for (class, declaration) in classes.iter().enumerate() {
        check_class(alloc, tables, class, faults, declaration)?;
    }
    Ok(())
}

// Names of classes that are declared twice.
fn check_class_names(
    alloc: Global,
    faults: &mut Vec<Fault>,
    classes: &[ClassDecl],
) -> Result<(), AllocError>
    ensures { OnOk result (faults.new.items ≡ faults.old.items ++ twice_among [] (class_names (map class_tree classes.now))) }
{
    let mut names = IndexSet::new(alloc);
    for class in classes {
        check_twice(alloc, &mut names, faults, &class.name)?;
    }
    Ok(())
}

// A fault at each of these classes.
fn add_classes(faults: &mut Vec<Fault>, classes: &[ClassDecl]) -> Result<(), AllocError>
    ensures { OnOk result (faults.new.items ≡ faults.old.items ++ faults_at Rule.Limit (class_names (map class_tree classes.now))) }
{
    for class in classes {
        add(faults, Rule::Limit, class.name.place)?;
    }
    Ok(())
}

// The classes past the limit.
fn past_limit(classes: &[ClassDecl]) -> &[ClassDecl]
    ensures { result.now ≡ drop most_classes classes.now }
{
    let first = MOST_CLASSES.min(classes.len());
    &classes[first..]
}

// A fault at each class past the limit.
fn check_class_limit(faults: &mut Vec<Fault>, classes: &[ClassDecl]) -> Result<(), AllocError>
    ensures { OnOk result (faults.new.items ≡ faults.old.items ++ faults_at Rule.Limit (drop most_classes (class_names (map class_tree classes.now)))) }
{
    add_classes(faults, past_limit(classes))
}

// Counts a method that is `Main`.
fn count_main(method: MethodRef<'_>) -> usize
    ensures { result ≡ (if is_main (method_tree method.entry) then 1 else 0) }
{
    if is_main(method) { 1 } else { 0 }
}

// How many of these methods are `Main`.
fn count_mains_in(methods: &[MethodRef<'_>]) -> Result<usize, AllocError>
    ensures { IfOk result (λ n. n ≡ count_by is_main (map method_tree methods.now)) }
{
    let mut count = 0;
    for method in methods {
        count = plus(count, count_main(*method))?;
    }
    Ok(count)
}

// How many methods of a class are `Main`.
fn count_mains_of(tables: &Tables<'_>, class: usize) -> Result<usize, AllocError>
    ensures { IfOk result (λ n. n ≡ count_by is_main (methods_in (members_at (trees tables.now) class))) }
{
    match tables.shelf(class) {
        Some(shelf) => count_mains_in(&shelf.methods),
        None => Ok(0),
    }
}

// How many methods are `Main`.
fn count_mains(tables: &Tables<'_>) -> Result<usize, AllocError>
    ensures { IfOk result (λ n. n ≡ mains_in (trees tables.now)) }
{
    let mut count = 0;
    for class in 0..tables.len() {
        count = plus(count, count_mains_of(tables, class)?)?;
    }
    Ok(count)
}

// Every fault of names in a program.
fn program_faults(
    alloc: Global,
    tables: &Tables<'_>,
    program: &Program,
) -> Result<Vec<Fault>, AllocError>
    requires { tables.now ≡ program.now.classes.items }
    ensures { IfOk result (λ v. v.items ≡ program_faults (program_tree program.now)) }
{
    let mut faults = Vec::new(alloc);
    check_class_names(alloc, &mut faults, &program.classes)?;
    check_class_limit(&mut faults, &program.classes)?;
    check_classes(alloc, tables, &mut faults, &program.classes)?;
    let has_one = count_mains(tables)? == 1;
    add_unless(&mut faults, has_one, Rule::NoMain, program.last)?;
    Ok(faults)
}

/// The first fault of names in a program: the one at the earliest place, and of two there the one of the lower rule; None where
/// there is none. The tables are those of its classes. The error is want of memory.
pub fn check_names(
    alloc: Global,
    tables: &Tables<'_>,
    program: &Program,
) -> Result<Option<Fault>, AllocError>
    requires { tables.now ≡ program.now.classes.items }
    ensures { IfOk result (λ f. f ≡ first_name_fault (program_tree program.now)) }
{
    let faults = program_faults(alloc, tables, program)?;
    Ok(first_fault(&faults))
}
