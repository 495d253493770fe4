// Statements that may also stand in the heading of a `for`.

ghost use Rattle.std.specs.Prelude.{◌≡◌, IfOk, OnOk, map, option_map};
ghost use Rattle.ss_ast.specs.Expressions.{expr_tree, grouped, arguments};
ghost use Rattle.ss_ast.specs.Statements.{AssignOf, StepOf, simple_tree, for_init_tree};
ghost use Rattle.ss_tables_scopes.specs.Views.{receiver_of};
ghost use Rattle.ss_typed.specs.Tree.{BaseCallOf};
ghost use Rattle.ss_typed.specs.View as view;
ghost use Rattle.ss_resolver_rules.specs.Expressions.{args};
ghost use Rattle.ss_resolver_rules.specs.Statements.{is_line, printed, print, alone, behind_first};
ghost use Rattle.ss_resolver_rules.specs.Statements as resolved;
ghost use Rattle.ss_ast.specs.Parts.{postfix_after};
ghost use Rattle.ss_resolver_expressions.specs.Environments.{env_of, part, part_view, part_called};
ghost use Rattle.ss_resolver_statements.specs.Alone.{kind_after, kind_of, part_alone};
ghost use Rattle.ss_resolver_statements.specs.Boxes as boxes;

use crate::built_simples::{
    alone_of, assign_of, base_call_of, declare_first, print_of, print_text_of, simple_first,
    step_of,
};
use crate::decls::resolve_declaration;
use crate::forms::{call_in, text_in};
use ss_ast::{AssignOperator, Expr, ForInit, Postfix, Simple, StepOperator};
use ss_core::Place;
use ss_resolver_expressions::{
    LocalNames, Part, ResolutionContext, asked_of, called, resolve_boxed, resolve_given,
    resolve_values, walk, walk_postfixes,
};
use ss_tables_scopes::Receiver;
use ss_typed::{TypedExpr, TypedInit, TypedSimple};
use std::alloc::AllocError;

/// What a call alone is.
#[derive(Clone, Copy)]
pub enum Alone {
    /// `Console.Write` or `Console.WriteLine`, and whether it ends the line.
    Print(bool),
    /// `base(..)`
    Base,
    /// Any other call.
    Call,
}

fn kind_after(receiver: Receiver, name: &str) -> Alone
    ensures { result ≡ kind_after (receiver_of receiver) (is_line name.now) }
{
    match receiver {
        Receiver::Console => Alone::Print(name == "WriteLine"),
        Receiver::Owner | Receiver::Base | Receiver::Class(_) | Receiver::Value(_) => Alone::Call,
    }
}

// What a call of this alone is.
fn kind_of(part: &Part<'_>) -> Alone
    ensures { result ≡ kind_of (part_view part.now) }
{
    match part {
        Part::Base(_) => Alone::Base,
        Part::Member { receiver, name, .. } => kind_after(*receiver, name),
        Part::Name(..) | Part::Other(..) => Alone::Call,
    }
}

// What is printed: a string by its bytes, else a value.
fn resolve_printed<'p>(
    context: &ResolutionContext<'_, 'p>,
    names: &mut LocalNames,
    place: Place,
    line: bool,
    e: &'p Expr,
) -> Result<Box<TypedSimple>, AllocError>
    ensures tree { IfOk result (λ s. view.simple_of s.value ≡ printed (env_of context.now names.old) place line (expr_tree e.now)) }
    ensures kept { OnOk result (names.new ≡ names.old) }
{
    match text_in(e) {
        Some(text) => {
            let whole = print_text_of(context.within.alloc, place, text, line)?;
            Ok(whole)
        }
        None => {
            let value = resolve_boxed(context, names, e)?;
            let whole = print_of(context.within.alloc, place, Some(value), line)?;
            Ok(whole)
        }
    }
}

fn resolve_print<'p>(
    context: &ResolutionContext<'_, 'p>,
    names: &mut LocalNames,
    place: Place,
    line: bool,
    written: &'p [Expr],
) -> Result<Box<TypedSimple>, AllocError>
    ensures tree { IfOk result (λ s. view.simple_of s.value ≡ print (env_of context.now names.old) place line (arguments (map expr_tree written.now))) }
    ensures kept { OnOk result (names.new ≡ names.old) }
{
    match written {
        [] => print_of(context.within.alloc, place, None, line),
        [first, ..] => resolve_printed(context, names, place, line, first),
    }
}

// A call of what stands before its arguments.
fn resolve_call<'p>(
    context: &ResolutionContext<'_, 'p>,
    names: &mut LocalNames,
    place: Place,
    before: Part<'p>,
    written: &'p [Expr],
) -> Result<Box<TypedExpr>, AllocError>
    ensures tree { IfOk result (λ r. view.expr r.value ≡ part_called (env_of context.now names.old) place (arguments (map expr_tree written.now)) (args (env_of context.now names.old) (arguments (map expr_tree written.now))) (part_view before.entry)) }
    ensures kept { OnOk result (names.new ≡ names.old) }
{
    let given = resolve_given(context, names, written)?;
    let asked = asked_of(&given.classes);
    let whole = called(context, names, place, before, asked, given.values)?;
    Ok(whole)
}

// `base(..)`
fn resolve_base_call<'p>(
    context: &ResolutionContext<'_, 'p>,
    names: &mut LocalNames,
    place: Place,
    written: &'p [Expr],
) -> Result<Box<TypedSimple>, AllocError>
    ensures tree { IfOk result (λ s. view.simple_of s.value ≡ BaseCallOf place (args (env_of context.now names.old) (arguments (map expr_tree written.now)))) }
    ensures kept { OnOk result (names.new ≡ names.old) }
{
    let values = resolve_values(context, names, written)?;
    let whole = base_call_of(context.within.alloc, place, values)?;
    Ok(whole)
}

// A call alone, of what stands before its arguments.
fn resolve_alone_call<'p>(
    context: &ResolutionContext<'_, 'p>,
    names: &mut LocalNames,
    place: Place,
    before: Part<'p>,
    written: &'p [Expr],
) -> Result<Box<TypedSimple>, AllocError>
    ensures tree { IfOk result (λ s. view.simple_of s.value ≡ part_alone (env_of context.now names.old) place (arguments (map expr_tree written.now)) (part_view before.entry)) }
    ensures kept { OnOk result (names.new ≡ names.old) }
{
    match kind_of(&before) {
        Alone::Print(line) => resolve_print(context, names, place, line, written),
        Alone::Base => resolve_base_call(context, names, place, written),
        Alone::Call => {
            let whole = resolve_call(context, names, place, before, written)?;
            let simple = alone_of(context.within.alloc, whole)?;
            Ok(simple)
        }
    }
}

// A call alone, by the beginning of its path and what stands between that and its arguments.
fn resolve_path_call<'p>(
    context: &ResolutionContext<'_, 'p>,
    names: &mut LocalNames,
    place: Place,
    first: &'p Expr,
    front: &'p [Postfix],
    written: &'p [Expr],
) -> Result<Box<TypedSimple>, AllocError>
    ensures tree { IfOk result (λ s. view.simple_of s.value ≡ part_alone (env_of context.now names.old) place (arguments (map expr_tree written.now))
        (part (env_of context.now names.old) (grouped place (expr_tree first.now) (map postfix_after front.now)))) }
    ensures kept { OnOk result (names.new ≡ names.old) }
{
    let first = walk(context, names, first)?;
    let before = walk_postfixes(context, names, place, first, front)?;
    let whole = resolve_alone_call(context, names, place, before, written)?;
    Ok(whole)
}

// A call or a `new` alone.
fn resolve_alone<'p>(
    context: &ResolutionContext<'_, 'p>,
    names: &mut LocalNames,
    e: &'p Expr,
) -> Result<Box<TypedSimple>, AllocError>
    ensures tree { IfOk result (λ s. view.simple_of s.value ≡ alone (env_of context.now names.old) (expr_tree e.now)) }
    ensures kept { OnOk result (names.new ≡ names.old) }
{
    match call_in(e) {
        Some(call) => {
            let whole = resolve_path_call(
                context,
                names,
                call.place,
                call.first,
                call.front,
                call.written,
            )?;
            Ok(whole)
        }
        None => {
            let whole = resolve_boxed(context, names, e)?;
            let simple = alone_of(context.within.alloc, whole)?;
            Ok(simple)
        }
    }
}

fn resolve_assign<'p>(
    context: &ResolutionContext<'_, 'p>,
    names: &mut LocalNames,
    target: &'p Expr,
    operator: AssignOperator,
    value: &'p Expr,
) -> Result<Box<TypedSimple>, AllocError>
    ensures tree { IfOk result (λ s. view.simple_of s.value ≡ resolved.simple (env_of context.now names.old) (AssignOf (expr_tree target.now) operator (expr_tree value.now))) }
    ensures kept { OnOk result (names.new ≡ names.old) }
{
    let target = resolve_boxed(context, names, target)?;
    let value = resolve_boxed(context, names, value)?;
    let whole = assign_of(context.within.alloc, target, operator, value)?;
    Ok(whole)
}

fn resolve_stepped<'p>(
    context: &ResolutionContext<'_, 'p>,
    names: &mut LocalNames,
    target: &'p Expr,
    operator: StepOperator,
) -> Result<Box<TypedSimple>, AllocError>
    ensures tree { IfOk result (λ s. view.simple_of s.value ≡ resolved.simple (env_of context.now names.old) (StepOf (expr_tree target.now) operator)) }
    ensures kept { OnOk result (names.new ≡ names.old) }
{
    let target = resolve_boxed(context, names, target)?;
    let whole = step_of(context.within.alloc, target, operator)?;
    Ok(whole)
}

/// A simple statement.
pub(crate) fn resolve_simple<'p>(
    context: &ResolutionContext<'_, 'p>,
    names: &mut LocalNames,
    simple: &'p Simple,
) -> Result<Box<TypedSimple>, AllocError>
    ensures tree { IfOk result (λ s. view.simple_of s.value ≡ resolved.simple (env_of context.now names.old) (simple_tree simple.now)) }
    ensures kept { OnOk result (names.new ≡ names.old) }
{
    match simple {
        Simple::Assign(target, operator, value) => {
            resolve_assign(context, names, target, *operator, value)
        }
        Simple::Step(target, operator) => { resolve_stepped(context, names, target, *operator) }
        Simple::Alone(e) => resolve_alone(context, names, e),
    }
}

/// A simple statement where there is one.
pub(crate) fn resolve_step<'p>(
    context: &ResolutionContext<'_, 'p>,
    names: &mut LocalNames,
    step: &'p Option<Simple>,
) -> Result<Option<Box<TypedSimple>>, AllocError>
    ensures tree { IfOk result (λ r. boxes.step_of r ≡ option_map (resolved.simple (env_of context.now names.old)) (option_map simple_tree step.now)) }
    ensures kept { OnOk result (names.new ≡ names.old) }
{
    match step {
        Some(step) => {
            let step = resolve_simple(context, names, step)?;
            Ok(Some(step))
        }
        None => Ok(None),
    }
}

/// What a `for` begins with; a declaration leaves its names in scope.
pub(crate) fn resolve_first<'p>(
    context: &ResolutionContext<'_, 'p>,
    names: &mut LocalNames,
    first: &'p Option<ForInit>,
) -> Result<Option<Box<TypedInit>>, AllocError>
    ensures tree { IfOk result (λ r. boxes.init_of r ≡ resolved.first (env_of context.now names.old) (option_map for_init_tree first.now)) }
    ensures behind { OnOk result (env_of context.now names.new ≡ behind_first (env_of context.now names.old) (option_map for_init_tree first.now)) }
{
    match first {
        None => Ok(None),
        Some(ForInit::Declare(declaration)) => {
            let list = resolve_declaration(context, names, declaration)?;
            let first = declare_first(context.within.alloc, list)?;
            Ok(Some(first))
        }
        Some(ForInit::Simple(simple)) => {
            let simple = resolve_simple(context, names, simple)?;
            let first = simple_first(context.within.alloc, simple)?;
            Ok(Some(first))
        }
    }
}
