// The texts of statements.

ghost use Rattle.std.specs.Prelude.{◌≡◌, [], ◌∷◌, ◌++◌, IfOk, OnOk, codes, map, option_map};
ghost use Rattle.std.specs.List.{flat_map};
ghost use Rattle.ss_core.specs.View as view;
ghost use Rattle.ss_report_core.specs.Exprs.{expr_text};
ghost use Rattle.ss_report_names.specs.Names as names;
ghost use Rattle.ss_report_core.specs.Stmts as texts;
ghost use Rattle.ss_report_names.specs.Contexts.{core_of, classes_of, names_in};
ghost use Rattle.ss_report_core.specs.Afters.{loop_of};

use crate::exprs::{push_between, push_expr};
use crate::words::{print_word, push_literal};
use ss_core::{Callee, ClassId, Expr, FieldId, Loop, Stmt};
use ss_report_names::{
    Context, body_name, field_name, method_name, push_both, push_class, push_class_between,
    push_element, push_local, push_title_of,
};
use std::alloc::{AllocError, Global};

// A line of a fixed text.
fn push_fixed(out: &mut Vec<u8>, indent: &[u8], text: &[u8]) -> Result<(), AllocError>
    ensures { OnOk result (out.new.items ≡ out.old.items ++ texts.line indent.now text.now) }
{
    push_both(out, indent, text)?;
    out.extend_from_slice(b"\n")
}

// A line of a word and an expression.
fn push_worded(
    out: &mut Vec<u8>,
    context: &Context<'_>,
    indent: &[u8],
    word: &[u8],
    e: &Expr,
) -> Result<(), AllocError>
    ensures { OnOk result (out.new.items ≡ out.old.items ++ texts.line indent.now (word.now ++ expr_text (classes_of context.now.program.now) (names_in context.now) (view.expr e.now))) }
{
    out.extend_from_slice(indent)?;
    push_between(out, context, word, e, b"\n")
}

// An expression after a blank, where there is one.
fn push_after_blank(
    out: &mut Vec<u8>,
    context: &Context<'_>,
    e: &Option<Expr>,
) -> Result<(), AllocError>
    ensures { OnOk result (out.new.items ≡ out.old.items ++ texts.after_blank (core_of context.now.program.now) (names_in context.now) (option_map view.expr e.now)) }
{
    match e {
        None => Ok(()),
        Some(e) => {
            out.extend_from_slice(b" ")?;
            push_expr(out, context, e)
        }
    }
}

// Expressions, each after a comma.
fn push_more_args(out: &mut Vec<u8>, context: &Context<'_>, args: &[Expr]) -> Result<(), AllocError>
    ensures { OnOk result (out.new.items ≡ out.old.items ++ flat_map (texts.after_comma (core_of context.now.program.now) (names_in context.now)) (map view.expr args.now)) }
{
    for arg in args {
        out.extend_from_slice(b", ")?;
        push_expr(out, context, arg)?;
    }
    Ok(())
}

fn push_args(out: &mut Vec<u8>, context: &Context<'_>, args: &[Expr]) -> Result<(), AllocError>
    ensures { OnOk result (out.new.items ≡ out.old.items ++ texts.args_text (core_of context.now.program.now) (names_in context.now) (map view.expr args.now)) }
{
    match args {
        [] => Ok(()),
        [first, others @ ..] => {
            push_expr(out, context, first)?;
            push_more_args(out, context, others)
        }
    }
}

// The arguments in parentheses, and the end of the line.
fn push_arguments(out: &mut Vec<u8>, context: &Context<'_>, args: &[Expr]) -> Result<(), AllocError>
    ensures { OnOk result (out.new.items ≡ out.old.items ++ (codes "(" ++ texts.args_text (core_of context.now.program.now) (names_in context.now) (map view.expr args.now) ++ codes ")\n")) }
{
    out.extend_from_slice(b"(")?;
    push_args(out, context, args)?;
    out.extend_from_slice(b")\n")
}

// The local that keeps a result.
fn push_kept(
    out: &mut Vec<u8>,
    context: &Context<'_>,
    kept: Option<usize>,
) -> Result<(), AllocError>
    ensures { OnOk result (out.new.items ≡ out.old.items ++ texts.kept_text (names_in context.now) kept) }
{
    match kept {
        None => Ok(()),
        Some(x) => {
            push_local(out, context, x)?;
            out.extend_from_slice(b" = ")
        }
    }
}

// The indentation, and the local that keeps a result.
fn push_start(
    out: &mut Vec<u8>,
    context: &Context<'_>,
    indent: &[u8],
    kept: Option<usize>,
) -> Result<(), AllocError>
    ensures { OnOk result (out.new.items ≡ out.old.items ++ (indent.now ++ texts.kept_text (names_in context.now) kept)) }
{
    out.extend_from_slice(indent)?;
    push_kept(out, context, kept)
}

// What a call enters.
fn push_callee(out: &mut Vec<u8>, context: &Context<'_>, callee: &Callee) -> Result<(), AllocError>
    ensures { OnOk result (out.new.items ≡ out.old.items ++ texts.callee_text (core_of context.now.program.now) (names_in context.now) (view.callee_tree callee.now)) }
{
    let whole = context.program.whole;
    match callee {
        Callee::Dispatched(e, t, m) => {
            push_between(out, context, b"", e, b".")?;
            out.extend_from_slice(method_name(&whole.classes, *t, *m))
        }
        Callee::Static(n) => push_title_of(out, &whole.classes, &whole.bodies, *n),
        Callee::Base(n) => push_both(out, b"base.", body_name(&whole.bodies, *n)),
        Callee::Constructor(_) => out.extend_from_slice(b"base"),
    }
}

// One level deeper.
fn deeper(alloc: Global, indent: &[u8]) -> Result<Vec<u8>, AllocError>
    ensures { IfOk result (λ blanks. blanks.items ≡ texts.deeper indent.now) }
{
    let mut blanks = Vec::from_slice(alloc, indent)?;
    blanks.extend_from_slice(b"  ")?;
    Ok(blanks)
}

fn push_assign(
    out: &mut Vec<u8>,
    context: &Context<'_>,
    indent: &[u8],
    x: usize,
    e: &Expr,
) -> Result<(), AllocError>
    ensures { OnOk result (out.new.items ≡ out.old.items ++ texts.line indent.now (names.local_text (names_in context.now) x ++ codes " = " ++ expr_text (classes_of context.now.program.now) (names_in context.now) (view.expr e.now))) }
{
    out.extend_from_slice(indent)?;
    push_local(out, context, x)?;
    push_between(out, context, b" = ", e, b"\n")
}

fn push_write(
    out: &mut Vec<u8>,
    context: &Context<'_>,
    indent: &[u8],
    object: &Expr,
    field: FieldId,
    value: &Expr,
) -> Result<(), AllocError>
    ensures { OnOk result (out.new.items ≡ out.old.items ++ texts.line indent.now (expr_text (classes_of context.now.program.now) (names_in context.now) (view.expr object.now) ++ codes "." ++ names.field_name (classes_of context.now.program.now) field.0 ++ codes " = " ++ expr_text (classes_of context.now.program.now) (names_in context.now) (view.expr value.now))) }
{
    push_between(out, context, indent, object, b".")?;
    out.extend_from_slice(field_name(context.program, field))?;
    push_between(out, context, b" = ", value, b"\n")
}

fn push_write_element(
    out: &mut Vec<u8>,
    context: &Context<'_>,
    indent: &[u8],
    array: &Expr,
    index: &Expr,
    value: &Expr,
) -> Result<(), AllocError>
    ensures { OnOk result (out.new.items ≡ out.old.items ++ texts.line indent.now (expr_text (classes_of context.now.program.now) (names_in context.now) (view.expr array.now) ++ codes "[" ++ expr_text (classes_of context.now.program.now) (names_in context.now) (view.expr index.now) ++ codes "] = " ++ expr_text (classes_of context.now.program.now) (names_in context.now) (view.expr value.now))) }
{
    push_between(out, context, indent, array, b"[")?;
    push_expr(out, context, index)?;
    push_between(out, context, b"] = ", value, b"\n")
}

fn push_new(
    out: &mut Vec<u8>,
    context: &Context<'_>,
    indent: &[u8],
    kept: Option<usize>,
    t: ClassId,
    args: &[Expr],
) -> Result<(), AllocError>
    ensures { OnOk result (out.new.items ≡ out.old.items ++ texts.line indent.now (texts.kept_text (names_in context.now) kept ++ codes "new " ++ names.class_name (classes_of context.now.program.now) t.0 ++ codes "(" ++ texts.args_text (core_of context.now.program.now) (names_in context.now) (map view.expr args.now) ++ codes ")")) }
{
    push_start(out, context, indent, kept)?;
    out.extend_from_slice(b"new ")?;
    push_class(out, &context.program.whole.classes, t)?;
    push_arguments(out, context, args)
}

fn push_new_array(
    out: &mut Vec<u8>,
    context: &Context<'_>,
    indent: &[u8],
    kept: Option<usize>,
    t: ClassId,
    count: &Expr,
) -> Result<(), AllocError>
    ensures { OnOk result (out.new.items ≡ out.old.items ++ texts.line indent.now (texts.kept_text (names_in context.now) kept ++ codes "new " ++ names.element_name (classes_of context.now.program.now) t.0 ++ codes "[" ++ expr_text (classes_of context.now.program.now) (names_in context.now) (view.expr count.now) ++ codes "]")) }
{
    push_start(out, context, indent, kept)?;
    out.extend_from_slice(b"new ")?;
    push_element(out, &context.program.whole.classes, t)?;
    push_between(out, context, b"[", count, b"]\n")
}

fn push_call(
    out: &mut Vec<u8>,
    context: &Context<'_>,
    indent: &[u8],
    kept: Option<usize>,
    callee: &Callee,
    args: &[Expr],
) -> Result<(), AllocError>
    ensures { OnOk result (out.new.items ≡ out.old.items ++ texts.line indent.now (texts.kept_text (names_in context.now) kept ++ texts.callee_text (core_of context.now.program.now) (names_in context.now) (view.callee_tree callee.now) ++ codes "(" ++ texts.args_text (core_of context.now.program.now) (names_in context.now) (map view.expr args.now) ++ codes ")")) }
{
    push_start(out, context, indent, kept)?;
    push_callee(out, context, callee)?;
    push_arguments(out, context, args)
}

fn push_unpack(
    out: &mut Vec<u8>,
    context: &Context<'_>,
    indent: &[u8],
    x: usize,
    t: ClassId,
) -> Result<(), AllocError>
    ensures { OnOk result (out.new.items ≡ out.old.items ++ texts.line indent.now (codes "unpack " ++ names.local_text (names_in context.now) x ++ codes " from " ++ names.class_name (classes_of context.now.program.now) t.0)) }
{
    push_both(out, indent, b"unpack ")?;
    push_local(out, context, x)?;
    push_class_between(out, &context.program.whole.classes, b" from ", t, b"\n")
}

fn push_pack(
    out: &mut Vec<u8>,
    context: &Context<'_>,
    indent: &[u8],
    x: usize,
    t: ClassId,
) -> Result<(), AllocError>
    ensures { OnOk result (out.new.items ≡ out.old.items ++ texts.line indent.now (codes "pack " ++ names.local_text (names_in context.now) x ++ codes " as " ++ names.class_name (classes_of context.now.program.now) t.0)) }
{
    push_both(out, indent, b"pack ")?;
    push_local(out, context, x)?;
    push_class_between(out, &context.program.whole.classes, b" as ", t, b"\n")
}

// A line of a word and, where there is one, an expression.
fn push_optional(
    out: &mut Vec<u8>,
    context: &Context<'_>,
    indent: &[u8],
    word: &[u8],
    e: &Option<Expr>,
) -> Result<(), AllocError>
    ensures { OnOk result (out.new.items ≡ out.old.items ++ texts.line indent.now (word.now ++ texts.after_blank (core_of context.now.program.now) (names_in context.now) (option_map view.expr e.now))) }
{
    push_both(out, indent, word)?;
    push_after_blank(out, context, e)?;
    out.extend_from_slice(b"\n")
}

fn push_print_text(
    out: &mut Vec<u8>,
    indent: &[u8],
    text: &[u8],
    newline: bool,
) -> Result<(), AllocError>
    ensures { OnOk result (out.new.items ≡ out.old.items ++ texts.line indent.now (texts.print_word newline ++ codes " " ++ texts.literal text.now)) }
{
    push_both(out, indent, print_word(newline))?;
    out.extend_from_slice(b" ")?;
    push_literal(out, text)?;
    out.extend_from_slice(b"\n")
}

fn push_invariants(
    out: &mut Vec<u8>,
    context: &Context<'_>,
    indent: &[u8],
    invariants: &[Expr],
) -> Result<(), AllocError>
    ensures { OnOk result (out.new.items ≡ out.old.items ++ flat_map (texts.invariant_text (core_of context.now.program.now) (names_in context.now) indent.now) (map view.expr invariants.now)) }
{
    for e in invariants {
        push_worded(out, context, indent, b"invariant ", e)?;
    }
    Ok(())
}

/// The text of a statement with this indentation.
#[cycle(stmt)]
fn push_stmt(
    out: &mut Vec<u8>,
    context: &Context<'_>,
    indent: &[u8],
    stmt: &Stmt,
) -> Result<(), AllocError>
    ensures { OnOk result (out.new.items ≡ out.old.items ++ texts.stmt_text (core_of context.now.program.now) (names_in context.now) indent.now (view.stmt_of stmt.now)) }
{
    match stmt {
        Stmt::Assign(_, x, e) => push_assign(out, context, indent, *x, e),
        Stmt::Write {
            object,
            field,
            value,
            ..
        } => push_write(out, context, indent, object, *field, value),
        Stmt::WriteElement(_, a, i, e) => push_write_element(out, context, indent, a, i, e),
        Stmt::New(_, kept, t, args) => push_new(out, context, indent, *kept, *t, args),
        Stmt::NewArray(_, kept, t, e) => push_new_array(out, context, indent, *kept, *t, e),
        Stmt::Call(_, kept, callee, args) => {
            push_call(out, context, indent, *kept, callee, args)
        }
        Stmt::Ready(_) => push_fixed(out, indent, b"ready this"),
        Stmt::If(_, e, a, b) => {
            push_worded(out, context, indent, b"if ", e)?;
            push_branch(out, context, indent, b"then", a)?;
            push_else(out, context, indent, b)
        }
        Stmt::Loop(l) => push_loop(out, context, indent, l),
        Stmt::Unpack(_, x, t) => push_unpack(out, context, indent, *x, *t),
        Stmt::Pack(_, x, t) => push_pack(out, context, indent, *x, *t),
        Stmt::Assert(_, e) => push_worded(out, context, indent, b"assert ", e),
        Stmt::Assume(_, e) => push_worded(out, context, indent, b"assume ", e),
        Stmt::Print(_, e, newline) => {
            push_optional(out, context, indent, print_word(*newline), e)
        }
        Stmt::PrintText(_, text, newline) => push_print_text(out, indent, text, *newline),
        Stmt::Return(_, e) => push_optional(out, context, indent, b"return", e),
    }
}

// Statements one level deeper.
#[cycle(stmt)]
fn push_deeper(
    out: &mut Vec<u8>,
    context: &Context<'_>,
    indent: &[u8],
    code: &[Stmt],
) -> Result<(), AllocError>
    ensures { OnOk result (out.new.items ≡ out.old.items ++ texts.code_text (core_of context.now.program.now) (names_in context.now) (texts.deeper indent.now) (view.block code.now)) }
{
    let inner = deeper(context.alloc, indent)?;
    push_code(out, context, &inner, code)
}

// A line of a word, and the statements of a branch.
#[cycle(stmt)]
fn push_branch(
    out: &mut Vec<u8>,
    context: &Context<'_>,
    indent: &[u8],
    word: &[u8],
    code: &[Stmt],
) -> Result<(), AllocError>
    ensures { OnOk result (out.new.items ≡ out.old.items ++ texts.line indent.now word.now ++ texts.code_text (core_of context.now.program.now) (names_in context.now) (texts.deeper indent.now) (view.block code.now)) }
{
    push_fixed(out, indent, word)?;
    push_deeper(out, context, indent, code)
}

// The second branch of an `if`, and its end.
#[cycle(stmt)]
fn push_else(
    out: &mut Vec<u8>,
    context: &Context<'_>,
    indent: &[u8],
    code: &[Stmt],
) -> Result<(), AllocError>
    ensures { OnOk result (out.new.items ≡ out.old.items ++ (texts.line indent.now (codes "else") ++ texts.code_text (core_of context.now.program.now) (names_in context.now) (texts.deeper indent.now) (view.block code.now) ++ texts.line indent.now (codes "done"))) }
{
    push_branch(out, context, indent, b"else", code)?;
    push_fixed(out, indent, b"done")
}

// The head of a loop: its line and its invariants.
fn push_loop_head(
    out: &mut Vec<u8>,
    context: &Context<'_>,
    indent: &[u8],
    invariants: &[Expr],
) -> Result<(), AllocError>
    ensures { OnOk result (out.new.items ≡ out.old.items ++ texts.line indent.now (codes "loop") ++ flat_map (texts.invariant_text (core_of context.now.program.now) (names_in context.now) indent.now) (map view.expr invariants.now)) }
{
    push_fixed(out, indent, b"loop")?;
    push_invariants(out, context, indent, invariants)
}

#[cycle(stmt)]
fn push_loop(
    out: &mut Vec<u8>,
    context: &Context<'_>,
    indent: &[u8],
    l: &Loop,
) -> Result<(), AllocError>
    ensures { OnOk result (out.new.items ≡ out.old.items ++ texts.stmt_text (core_of context.now.program.now) (names_in context.now) indent.now (loop_of l.now)) }
{
    push_loop_head(out, context, indent, &l.invariants)?;
    push_deeper(out, context, indent, &l.prelude)?;
    push_worded(out, context, indent, b"test ", &l.test)?;
    push_deeper(out, context, indent, &l.body)?;
    push_fixed(out, indent, b"done")
}

/// The texts of statements with this indentation, one after the other.
#[cycle(stmt)]
pub(crate) fn push_code(
    out: &mut Vec<u8>,
    context: &Context<'_>,
    indent: &[u8],
    code: &[Stmt],
) -> Result<(), AllocError>
    ensures { OnOk result (out.new.items ≡ out.old.items ++ texts.code_text (core_of context.now.program.now) (names_in context.now) indent.now (view.block code.now)) }
{
    for stmt in code {
        push_stmt(out, context, indent, stmt)?;
    }
    Ok(())
}
