// `this`, own fields, and calls of `base(..)`, by the forms of expressions.

ghost use Rattle.std.specs.Prelude.{◌≡◌, ◌<◌, ◌&&◌, length, map, option_map, is_none};
ghost use Rattle.ss_core.specs.declared.names.Place.{Place};
ghost use Rattle.ss_ast.specs.Expressions.{CallOf, grouped, expr_tree, arguments};
ghost use Rattle.ss_ast.specs.Statements.{stmt_tree, stmt_trees};
ghost use Rattle.ss_tables.specs.Scopes.{local_named};
ghost use Rattle.ss_tables_lookup.specs.Classes.{trees};
ghost use Rattle.ss_tables_scopes.specs.Names.{Names};
ghost use Rattle.ss_tables_scopes.specs.Views.{scope_of};
ghost use Rattle.ss_ast.specs.Parts.{postfix_after};
ghost use Rattle.ss_resolver_types_expressions.specs.Members.{base_call, is_this, has_field, is_own_field, is_first_assignment, calls_base};
ghost use Rattle.ss_resolver_types.specs.Bodies.{is_base, base_arguments};

use ss_ast::{Expr, Postfix, Simple, Stmt};
use ss_core::Place;
use ss_tables_lookup::Tables;
use ss_tables_scopes::{ClassContext, Scopes};

/// Whether it is `this`, in parentheses or not.
fn is_this(e: &Expr) -> bool
    ensures { result ≡ is_this (expr_tree e.now) }
{
    match e {
        Expr::This(..) => true,
        Expr::Paren(_, inner) => is_this(inner),
        Expr::Chain(_, first, links) => {
            if links.is_empty() {
                is_this(first)
            } else {
                false
            }
        }
        Expr::Path(_, first, postfixes) => {
            if postfixes.is_empty() {
                is_this(first)
            } else {
                false
            }
        }
        Expr::Iff(..)
        | Expr::Implies(..)
        | Expr::Negate(..)
        | Expr::Not(..)
        | Expr::Cast(..)
        | Expr::Number(..)
        | Expr::Text(..)
        | Expr::Truth(..)
        | Expr::Null(..)
        | Expr::Base(..)
        | Expr::Result(..)
        | Expr::Name(..)
        | Expr::Old(..)
        | Expr::New(..)
        | Expr::NewArray(..)
        | Expr::Quantified(..) => false,
    }
}

// Whether it is the word `base`.
fn is_base(e: &Expr) -> bool
    ensures { result ≡ is_base (expr_tree e.now) }
{
    match e {
        Expr::Base(..) => true,
        Expr::Chain(_, first, links) => {
            if links.is_empty() {
                is_base(first)
            } else {
                false
            }
        }
        Expr::Path(_, first, postfixes) => {
            if postfixes.is_empty() {
                is_base(first)
            } else {
                false
            }
        }
        Expr::Iff(..)
        | Expr::Implies(..)
        | Expr::Negate(..)
        | Expr::Not(..)
        | Expr::Cast(..)
        | Expr::Number(..)
        | Expr::Text(..)
        | Expr::Truth(..)
        | Expr::Null(..)
        | Expr::This(..)
        | Expr::Result(..)
        | Expr::Name(..)
        | Expr::Paren(..)
        | Expr::Old(..)
        | Expr::New(..)
        | Expr::NewArray(..)
        | Expr::Quantified(..) => false,
    }
}

fn has_field(tables: &Tables<'_>, class: usize, name: &str) -> bool
    ensures { result ≡ has_field (trees tables.now) class name.now }
{
    tables.own_field(class, name).is_some()
}

// Whether a name means a field that the class itself declares.
fn names_own_field(context: ClassContext<'_, '_>, locals: &Scopes, name: &str) -> bool
    ensures { result ≡ (is_none (local_named (scope_of context.entry locals.now) name.now) && has_field (trees context.entry.tables.now) context.entry.class name.now) }
{
    locals.find(name).is_none() && has_field(context.tables, context.class, name)
}

// Whether a name after this means such a field.
fn is_field_of(context: ClassContext<'_, '_>, first: &Expr, name: &str) -> bool
    ensures { result ≡ (is_this (expr_tree first.now) && has_field (trees context.entry.tables.now) context.entry.class name.now) }
{
    is_this(first) && has_field(context.tables, context.class, name)
}

// Whether one postfix makes such a field of this.
fn is_own_member(context: ClassContext<'_, '_>, first: &Expr, postfix: &Postfix) -> bool
    ensures { (locals : Names) (at : Place) → result ≡ is_own_field context.entry.class (scope_of context.entry locals) (postfix_after postfix.now at (expr_tree first.now)) }
{
    match postfix {
        Postfix::Member(name) => is_field_of(context, first, name.text.as_str()),
        Postfix::Element(_) | Postfix::Call(_) => false,
    }
}

// Whether postfixes make such a field of this.
#[tactic(auto, using(crate::proofs::Paths::own_one, crate::proofs::Paths::own_long))]
fn is_own_path(context: ClassContext<'_, '_>, first: &Expr, postfixes: &[Postfix]) -> bool
    ensures { (locals : Names) (at : Place) → 0 < length postfixes.now
        → result ≡ is_own_field context.entry.class (scope_of context.entry locals) (grouped at (expr_tree first.now) (map postfix_after postfixes.now)) }
{
    match postfixes {
        [postfix] => is_own_member(context, first, postfix),
        [] | [_, _, ..] => false,
    }
}

// Whether it is a field that the class itself declares, as `f` or `this.f`.
fn is_own_field(context: ClassContext<'_, '_>, locals: &Scopes, e: &Expr) -> bool
    ensures { result ≡ is_own_field context.entry.class (scope_of context.entry locals.now) (expr_tree e.now) }
{
    match e {
        Expr::Name(_, name) => names_own_field(context, locals, name.as_str()),
        Expr::Chain(_, first, links) => {
            if links.is_empty() {
                is_own_field(context, locals, first)
            } else {
                false
            }
        }
        Expr::Path(_, first, postfixes) => {
            if postfixes.is_empty() {
                is_own_field(context, locals, first)
            } else {
                is_own_path(context, first, postfixes.as_slice())
            }
        }
        Expr::Iff(..)
        | Expr::Implies(..)
        | Expr::Negate(..)
        | Expr::Not(..)
        | Expr::Cast(..)
        | Expr::Number(..)
        | Expr::Text(..)
        | Expr::Truth(..)
        | Expr::Null(..)
        | Expr::This(..)
        | Expr::Base(..)
        | Expr::Result(..)
        | Expr::Paren(..)
        | Expr::Old(..)
        | Expr::New(..)
        | Expr::NewArray(..)
        | Expr::Quantified(..) => false,
    }
}

/// Whether it is an assignment to a field that the class itself declares.
pub fn is_first_assignment(context: ClassContext<'_, '_>, locals: &Scopes, stmt: &Stmt) -> bool
    ensures { result ≡ is_first_assignment context.entry.class (scope_of context.entry locals.now) (stmt_tree stmt.now) }
{
    match stmt {
        Stmt::Simple(Simple::Assign(target, _, _)) => is_own_field(context, locals, target),
        Stmt::Simple(Simple::Step(target, _)) => is_own_field(context, locals, target),
        Stmt::Simple(Simple::Alone(_))
        | Stmt::Block(..)
        | Stmt::Declare(..)
        | Stmt::If(..)
        | Stmt::While(..)
        | Stmt::For { .. }
        | Stmt::Return(..)
        | Stmt::Assert(..)
        | Stmt::Assume(..)
        | Stmt::Expose(..)
        | Stmt::Empty(..) => false,
    }
}

// The arguments of a call of this, where it is the word `base`.
#[tactic(auto, using(crate::proofs::Paths::is_call, crate::proofs::Paths::no_call))]
fn called_arguments<'e>(place: Place, first: &Expr, list: &'e [Expr]) -> Option<(Place, &'e [Expr])>
    ensures { option_map (λ r. (r.0, arguments (map expr_tree r.1.now))) result ≡ base_arguments (CallOf place (expr_tree first.now) (arguments (map expr_tree list.now))) }
{
    if is_base(first) {
        Some((place, list))
    } else {
        None
    }
}

// The arguments of `base(..)`, where one postfix makes it of this.
fn postfix_arguments<'e>(
    place: Place,
    first: &Expr,
    postfix: &'e Postfix,
) -> Option<(Place, &'e [Expr])>
    ensures { option_map (λ r. (r.0, arguments (map expr_tree r.1.now))) result ≡ base_arguments (postfix_after postfix.now place (expr_tree first.now)) }
{
    match postfix {
        Postfix::Call(list) => called_arguments(place, first, list.as_slice()),
        Postfix::Member(_) | Postfix::Element(_) => None,
    }
}

// The arguments of `base(..)`, where postfixes make it of this.
#[tactic(auto, using(crate::proofs::Paths::arguments_one, crate::proofs::Paths::arguments_long))]
fn path_arguments<'e>(
    place: Place,
    first: &Expr,
    postfixes: &'e [Postfix],
) -> Option<(Place, &'e [Expr])>
    ensures { 0 < length postfixes.now
        → option_map (λ r. (r.0, arguments (map expr_tree r.1.now))) result ≡ base_arguments (grouped place (expr_tree first.now) (map postfix_after postfixes.now)) }
{
    match postfixes {
        [postfix] => postfix_arguments(place, first, postfix),
        [] | [_, _, ..] => None,
    }
}

// The arguments of `base(..)`, with its place.
fn base_arguments(e: &Expr) -> Option<(Place, &[Expr])>
    ensures { option_map (λ r. (r.0, arguments (map expr_tree r.1.now))) result ≡ base_arguments (expr_tree e.now) }
{
    match e {
        Expr::Chain(_, first, links) => {
            if links.is_empty() {
                base_arguments(first)
            } else {
                None
            }
        }
        Expr::Path(place, first, postfixes) => {
            if postfixes.is_empty() {
                base_arguments(first)
            } else {
                path_arguments(*place, first, postfixes.as_slice())
            }
        }
        Expr::Iff(..)
        | Expr::Implies(..)
        | Expr::Negate(..)
        | Expr::Not(..)
        | Expr::Cast(..)
        | Expr::Number(..)
        | Expr::Text(..)
        | Expr::Truth(..)
        | Expr::Null(..)
        | Expr::This(..)
        | Expr::Base(..)
        | Expr::Result(..)
        | Expr::Name(..)
        | Expr::Paren(..)
        | Expr::Old(..)
        | Expr::New(..)
        | Expr::NewArray(..)
        | Expr::Quantified(..) => None,
    }
}

/// The arguments of a statement `base(..)`, with its place.
pub fn base_call(stmt: &Stmt) -> Option<(Place, &[Expr])>
    ensures { option_map (λ r. (r.0, arguments (map expr_tree r.1.now))) result ≡ base_call (stmt_tree stmt.now) }
{
    match stmt {
        Stmt::Simple(Simple::Alone(e)) => base_arguments(e),
        Stmt::Simple(Simple::Assign(..) | Simple::Step(..))
        | Stmt::Block(..)
        | Stmt::Declare(..)
        | Stmt::If(..)
        | Stmt::While(..)
        | Stmt::For { .. }
        | Stmt::Return(..)
        | Stmt::Assert(..)
        | Stmt::Assume(..)
        | Stmt::Expose(..)
        | Stmt::Empty(..) => None,
    }
}

/// Whether one of these statements is `base(..)`.
pub fn calls_base(stmts: &[Stmt]) -> bool
    ensures { result ≡ calls_base (stmt_trees (map stmt_tree stmts.now)) }
{
    for stmt in stmts {
        if base_call(stmt).is_some() {
            return true;
        }
    }
    false
}
