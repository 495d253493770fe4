// What the clauses of a body say.

ghost use Rattle.std.specs.Prelude.{◌≡◌, ◌++◌, ◌∷◌, [], IfOk, OnOk, map, option_map, unwrap_or};
ghost use Rattle.ss_ast.specs.Expressions.{expr_tree};
ghost use Rattle.ss_ast.specs.Programs.{modified_tree, clause_tree, base_call_tree};
ghost use Rattle.ss_typed.specs.Tree.{AllOf, ElementsOf};
ghost use Rattle.ss_typed.specs.View as view;
ghost use Rattle.ss_resolver_rules.specs.Programs.{modified, entry_in, exit_in, modifies_in, base_of};
ghost use Rattle.ss_resolver_expressions.specs.Environments.{env_of};
ghost use Rattle.ss_resolver_programs.specs.Terms.{terms_of, joined};

use crate::fields::one_of;
use ss_ast::{BaseCall, Clause, Modified};
use ss_resolver_expressions::{LocalNames, ResolutionContext, resolve_boxed, resolve_values};
use ss_typed::{TypedBase, TypedExpr, TypedModifies};
use std::alloc::{AllocError, Global};

// One more expression of a list.
fn add_value(list: &mut Vec<TypedExpr>, value: Box<TypedExpr>) -> Result<(), AllocError>
    ensures { OnOk result (view.exprs list.new.items ≡ view.exprs list.old.items ++ view.expr value.value ∷ []) }
{
    list.push(Box::into_inner(value))?;
    Ok(())
}

// What this clause says of the entry.
fn add_entry<'p>(
    context: &ResolutionContext<'_, 'p>,
    names: &mut LocalNames,
    list: &mut Vec<TypedExpr>,
    clause: &'p Clause,
) -> Result<(), AllocError>
    ensures trees { OnOk result (view.exprs list.new.items ≡ view.exprs list.old.items ++ entry_in (env_of context.now names.old) (clause_tree clause.now ∷ [])) }
    ensures kept { OnOk result (names.new ≡ names.old) }
{
    match clause {
        Clause::Requires(condition) => {
            let condition = resolve_boxed(context, names, condition)?;
            add_value(list, condition)?;
            Ok(())
        }
        Clause::Ensures(_) | Clause::Modifies(_) => Ok(()),
    }
}

/// What the `requires` clauses say.
pub(crate) fn resolve_entry<'p>(
    context: &ResolutionContext<'_, 'p>,
    names: &mut LocalNames,
    clauses: &'p [Clause],
) -> Result<Vec<TypedExpr>, AllocError>
    ensures trees { IfOk result (λ v. view.exprs v.items ≡ entry_in (env_of context.now names.old) (map clause_tree clauses.now)) }
    ensures kept { OnOk result (names.new ≡ names.old) }
{
    let mut list = Vec::new(context.within.alloc);
    for clause in clauses {
        add_entry(context, names, &mut list, clause)?;
    }
    Ok(list)
}

// What this clause says of the exit.
fn add_exit<'p>(
    context: &ResolutionContext<'_, 'p>,
    names: &mut LocalNames,
    list: &mut Vec<TypedExpr>,
    clause: &'p Clause,
) -> Result<(), AllocError>
    ensures trees { OnOk result (view.exprs list.new.items ≡ view.exprs list.old.items ++ exit_in (env_of context.now names.old) (clause_tree clause.now ∷ [])) }
    ensures kept { OnOk result (names.new ≡ names.old) }
{
    match clause {
        Clause::Ensures(condition) => {
            let condition = resolve_boxed(context, names, condition)?;
            add_value(list, condition)?;
            Ok(())
        }
        Clause::Requires(_) | Clause::Modifies(_) => Ok(()),
    }
}

/// What the `ensures` clauses say.
pub(crate) fn resolve_exit<'p>(
    context: &ResolutionContext<'_, 'p>,
    names: &mut LocalNames,
    clauses: &'p [Clause],
) -> Result<Vec<TypedExpr>, AllocError>
    ensures trees { IfOk result (λ v. view.exprs v.items ≡ exit_in (env_of context.now names.old) (map clause_tree clauses.now)) }
    ensures kept { OnOk result (names.new ≡ names.old) }
{
    let mut list = Vec::new(context.within.alloc);
    for clause in clauses {
        add_exit(context, names, &mut list, clause)?;
    }
    Ok(list)
}

// `o.*`
fn all_of(object: Box<TypedExpr>) -> TypedModifies
    ensures { view.modified result ≡ AllOf (view.expr object.value) }
{
    TypedModifies::All(Box::into_inner(object))
}

// `a[*]`
fn elements_of(array: Box<TypedExpr>) -> TypedModifies
    ensures { view.modified result ≡ ElementsOf (view.expr array.value) }
{
    TypedModifies::Elements(Box::into_inner(array))
}

fn resolve_modified<'p>(
    context: &ResolutionContext<'_, 'p>,
    names: &mut LocalNames,
    term: &'p Modified,
) -> Result<TypedModifies, AllocError>
    ensures tree { IfOk result (λ m. view.modified m ≡ modified (env_of context.now names.old) (modified_tree term.now)) }
    ensures kept { OnOk result (names.new ≡ names.old) }
{
    match term {
        Modified::All(object) => {
            let object = resolve_boxed(context, names, object)?;
            Ok(all_of(object))
        }
        Modified::Elements(array) => {
            let array = resolve_boxed(context, names, array)?;
            Ok(elements_of(array))
        }
        Modified::One(field) => {
            let field = resolve_boxed(context, names, field)?;
            Ok(one_of(Box::into_inner(field)))
        }
    }
}

// One more term.
fn add_term<'p>(
    context: &ResolutionContext<'_, 'p>,
    names: &mut LocalNames,
    list: &mut Vec<TypedModifies>,
    term: &'p Modified,
) -> Result<(), AllocError>
    ensures trees { OnOk result (map view.modified list.new.items ≡ map view.modified list.old.items ++ modified (env_of context.now names.old) (modified_tree term.now) ∷ []) }
    ensures kept { OnOk result (names.new ≡ names.old) }
{
    let term = resolve_modified(context, names, term)?;
    list.push(term)?;
    Ok(())
}

// The terms of a clause after others.
fn resolve_terms<'p>(
    context: &ResolutionContext<'_, 'p>,
    names: &mut LocalNames,
    before: Vec<TypedModifies>,
    terms: &'p [Modified],
) -> Result<Vec<TypedModifies>, AllocError>
    ensures trees { IfOk result (λ v. map view.modified v.items ≡ map view.modified before.items ++ map (modified (env_of context.now names.old)) (map modified_tree terms.now)) }
    ensures kept { OnOk result (names.new ≡ names.old) }
{
    let mut list = before;
    for term in terms {
        add_term(context, names, &mut list, term)?;
    }
    Ok(list)
}

fn or_none(alloc: Global, terms: Option<Vec<TypedModifies>>) -> Vec<TypedModifies>
    ensures { map view.modified result.items ≡ unwrap_or (terms_of terms) [] }
{
    match terms {
        Some(terms) => terms,
        None => Vec::new(alloc),
    }
}

// One more clause after those with these terms.
fn with_clause<'p>(
    context: &ResolutionContext<'_, 'p>,
    names: &mut LocalNames,
    terms: Option<Vec<TypedModifies>>,
    clause: &'p Clause,
) -> Result<Option<Vec<TypedModifies>>, AllocError>
    ensures trees { IfOk result (λ o. terms_of o ≡ joined (terms_of terms) (modifies_in (env_of context.now names.old) (clause_tree clause.now ∷ []))) }
    ensures kept { OnOk result (names.new ≡ names.old) }
{
    match clause {
        Clause::Modifies(more) => {
            let before = or_none(context.within.alloc, terms);
            let list = resolve_terms(context, names, before, more)?;
            Ok(Some(list))
        }
        Clause::Requires(_) | Clause::Ensures(_) => Ok(terms),
    }
}

/// The terms of all `modifies` clauses, where there is one.
pub(crate) fn resolve_modifies<'p>(
    context: &ResolutionContext<'_, 'p>,
    names: &mut LocalNames,
    clauses: &'p [Clause],
) -> Result<Option<Vec<TypedModifies>>, AllocError>
    ensures trees { IfOk result (λ o. terms_of o ≡ modifies_in (env_of context.now names.old) (map clause_tree clauses.now)) }
    ensures kept { OnOk result (names.new ≡ names.old) }
{
    let mut terms = None;
    for clause in clauses {
        terms = with_clause(context, names, terms, clause)?;
    }
    Ok(terms)
}

/// `: base(..)` where it is written.
pub(crate) fn resolve_base<'p>(
    context: &ResolutionContext<'_, 'p>,
    names: &mut LocalNames,
    base: &'p Option<BaseCall>,
) -> Result<Option<TypedBase>, AllocError>
    ensures tree { IfOk result (λ o. option_map view.base o ≡ option_map (base_of (env_of context.now names.old)) (option_map base_call_tree base.now)) }
    ensures kept { OnOk result (names.new ≡ names.old) }
{
    match base {
        Some(base) => {
            let arguments = resolve_values(context, names, &base.arguments)?;
            Ok(Some(TypedBase {
                place: base.place,
                arguments,
            }))
        }
        None => Ok(None),
    }
}
