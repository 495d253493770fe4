// Bodies with too many locals, temporaries left out.

ghost use Rattle.std.specs.Prelude.{◌≡◌, ◌++◌, ◌<◌, [], length, map, IfOk, OnOk};
ghost use Rattle.ss_ast.specs.Expressions.{name_tree};
ghost use Rattle.ss_ast.specs.Statements.{block_tree};
ghost use Rattle.ss_tables_lookup.specs.Classes.{trees};
ghost use Rattle.ss_tables_lookup.specs.Shelved.{shelf_of};
ghost use Rattle.ss_tables_lookup.specs.Views.{method_tree, constructor_tree};
ghost use Rattle.ss_tables_scopes.specs.Views.{scope_of};
ghost use Rattle.ss_resolver_names_rules.specs.Locals.{block_params, locals_in};
ghost use Rattle.ss_resolver_names_rules.specs.Programs.{method_locals, constructor_locals, locals_fault, methods_locals_faults, constructors_locals_faults};

use crate::assigned::note_block;
use crate::declared::block_locals;
use indexmap::IndexSet;
use ss_ast::{Block, Name};
use ss_core::Rule;
use ss_faults::Fault;
use ss_resolver_names_members::add;
use ss_resolver_names_rules::MOST_LOCALS;
use ss_resolver_scoping::plus;
use ss_tables_lookup::{ConstructorRef, MethodRef, Shelf, Tables};
use ss_tables_scopes::{ClassContext, NameScopes, Scopes, declare_params};
use std::alloc::{AllocError, Global};

// How many parameters a block assigns.
fn assigned_params(
    context: ClassContext<'_, '_>,
    locals: &mut Scopes,
    body: &Block,
) -> Result<usize, AllocError>
    ensures { IfOk result (λ n. n ≡ length (block_params (scope_of context.entry locals.old) [] (block_tree body.now))) }
{
    let mut names = IndexSet::new(context.alloc);
    note_block(context, locals, &mut names, body)?;
    Ok(names.len())
}

// The locals of a block in the scope of its parameters.
fn locals_in(
    context: ClassContext<'_, '_>,
    locals: &mut Scopes,
    body: &Block,
) -> Result<usize, AllocError>
    ensures { IfOk result (λ n. n ≡ locals_in (scope_of context.entry locals.old) (block_tree body.now)) }
{
    let declared = block_locals(body)?;
    let assigned = assigned_params(context, locals, body)?;
    plus(declared, assigned)
}

fn method_locals(
    alloc: Global,
    tables: &Tables<'_>,
    class: usize,
    method: MethodRef<'_>,
) -> Result<usize, AllocError>
    requires { class < length (trees tables.now) }
    ensures { IfOk result (λ n. n ≡ method_locals (trees tables.now) class (method_tree method.entry)) }
{
    let context = ClassContext {
        alloc,
        tables,
        class,
        refuses_members: false,
        refuses_this: false,
        outcome: None,
    };
    let mut locals = NameScopes::new(alloc);
    declare_params(context, &mut locals, &method.method.params)?;
    locals_in(context, &mut locals, &method.method.body)
}

fn constructor_locals(
    alloc: Global,
    tables: &Tables<'_>,
    class: usize,
    constructor: ConstructorRef<'_>,
) -> Result<usize, AllocError>
    requires { class < length (trees tables.now) }
    ensures { IfOk result (λ n. n ≡ constructor_locals (trees tables.now) class (constructor_tree constructor.entry)) }
{
    let context = ClassContext {
        alloc,
        tables,
        class,
        refuses_members: false,
        refuses_this: false,
        outcome: None,
    };
    let mut locals = NameScopes::new(alloc);
    declare_params(context, &mut locals, &constructor.constructor.params)?;
    locals_in(context, &mut locals, &constructor.constructor.body)
}

// A body with so many locals, at its name.
#[tactic(auto, unfolding(ss_resolver_names_rules::specs::Programs::most_locals))]
fn check_count(faults: &mut Vec<Fault>, count: usize, name: &Name) -> Result<(), AllocError>
    ensures { OnOk result (faults.new.items ≡ faults.old.items ++ locals_fault count (name_tree name.now)) }
{
    if count <= MOST_LOCALS {
        return Ok(());
    }
    add(faults, Rule::Limit, name.place)
}

fn check_method_locals(
    alloc: Global,
    tables: &Tables<'_>,
    class: usize,
    faults: &mut Vec<Fault>,
    methods: &[MethodRef<'_>],
) -> Result<(), AllocError>
    requires { class < length (trees tables.now) }
    ensures { OnOk result (faults.new.items ≡ faults.old.items ++ methods_locals_faults (trees tables.now) class (map method_tree methods.now)) }
{
    for method in methods {
        let count = method_locals(alloc, tables, class, *method)?;
        check_count(faults, count, &method.method.name)?;
    }
    Ok(())
}

fn check_constructor_locals(
    alloc: Global,
    tables: &Tables<'_>,
    class: usize,
    faults: &mut Vec<Fault>,
    constructors: &[ConstructorRef<'_>],
) -> Result<(), AllocError>
    requires { class < length (trees tables.now) }
    ensures { OnOk result (faults.new.items ≡ faults.old.items ++ constructors_locals_faults (trees tables.now) class (map constructor_tree constructors.now)) }
{
    for constructor in constructors {
        let count = constructor_locals(alloc, tables, class, *constructor)?;
        check_count(faults, count, &constructor.constructor.name)?;
    }
    Ok(())
}

/// Bodies with too many locals.
pub fn check_bodies(
    alloc: Global,
    tables: &Tables<'_>,
    class: usize,
    faults: &mut Vec<Fault>,
    shelf: &Shelf<'_>,
) -> Result<(), AllocError>
    requires { class < length (trees tables.now) }
    ensures { OnOk result (faults.new.items ≡ faults.old.items
        ++ (constructors_locals_faults (trees tables.now) class (shelf_of shelf.now).constructors
        ++ methods_locals_faults (trees tables.now) class (shelf_of shelf.now).methods)) }
{
    check_constructor_locals(alloc, tables, class, faults, &shelf.constructors)?;
    check_method_locals(alloc, tables, class, faults, &shelf.methods)
}
