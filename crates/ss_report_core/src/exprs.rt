// The texts of expressions.

ghost use Rattle.std.specs.Prelude.{◌≡◌, ℕ, List, [], ◌∷◌, ◌++◌, IfOk, OnOk, codes, map, length, replicate, string_bytes};
ghost use Rattle.ss_core.specs.View as view;
ghost use Rattle.ss_report_core.specs.Exprs as texts;
ghost use Rattle.ss_report_names.specs.Names.{class_name};
ghost use Rattle.ss_report_names.specs.Tables as tables;
ghost use Rattle.ss_report_names.specs.Contexts.{classes_of, names_in};
ghost use Rattle.ss_report_core.specs.Afters.{link_after, step_after, link_text, step_text, links_text, steps_text};
ghost use Rattle.ss_report_core.specs.Afters as afters;

use crate::words::{bool_text, null_mark, operator_text, push_int, quantifier_text};
use ss_core::{ClassId, Classes, Expr, Link, OwnerTest, Quantifier, StateWord, Step};
use ss_report_names::{Context, field_name, push_both, push_bound, push_class_between, push_local};
use std::alloc::{AllocError, Global};

/// The text of an expression.
#[cycle(expr)]
pub(crate) fn push_expr(
    out: &mut Vec<u8>,
    context: &Context<'_>,
    e: &Expr,
) -> Result<(), AllocError>
    ensures { OnOk result (out.new.items ≡ out.old.items ++ texts.expr_text (classes_of context.now.program.now) (names_in context.now) (view.expr e.now)) }
{
    match e {
        Expr::Int(_, n) => push_int(context.alloc, out, *n),
        Expr::Bool(_, b) => out.extend_from_slice(bool_text(*b)),
        Expr::Null(_) => out.extend_from_slice(b"null"),
        Expr::Local(_, x) => push_local(out, context, *x),
        Expr::Iff(_, a, b) => {
            push_between(out, context, b"(", a, b" <==> ")?;
            push_between(out, context, b"", b, b")")
        }
        Expr::Implies(_, a, b) => {
            push_between(out, context, b"(", a, b" ==> ")?;
            push_between(out, context, b"", b, b")")
        }
        Expr::Chain(_, first, links) => {
            push_opened(out, context, links.len(), first)?;
            push_links(out, context, links)
        }
        Expr::Negate(_, a) => push_between(out, context, b"(- ", a, b")"),
        Expr::Not(_, a) => push_between(out, context, b"(! ", a, b")"),
        Expr::Cast(_, t, non_null, a) => push_cast(out, context, *t, *non_null, a),
        Expr::Path(_, first, steps) => {
            push_expr(out, context, first)?;
            push_steps(out, context, steps)
        }
        Expr::Old(_, a) => push_between(out, context, b"old(", a, b")"),
        Expr::Quantified(_, quantifier, name, low, high, member) => {
            push_low(out, context, *quantifier, name, low)?;
            push_expr(out, context, high)?;
            push_member(out, context, name, member)
        }
        Expr::State(_, word, a) => push_state(out, context, *word, a),
        Expr::Owners(_, test, a, b) => {
            push_between(out, context, owners_before(*test), a, b", ")?;
            push_owned(out, context, *test, b)
        }
        Expr::Default(_, _) => Ok(()),
    }
}

/// An expression between two texts.
#[cycle(expr)]
pub(crate) fn push_between(
    out: &mut Vec<u8>,
    context: &Context<'_>,
    before: &[u8],
    e: &Expr,
    behind: &[u8],
) -> Result<(), AllocError>
    ensures { OnOk result (out.new.items ≡ out.old.items ++ (before.now ++ texts.expr_text (classes_of context.now.program.now) (names_in context.now) (view.expr e.now) ++ behind.now)) }
{
    out.extend_from_slice(before)?;
    push_expr(out, context, e)?;
    out.extend_from_slice(behind)
}

#[cycle(expr)]
fn push_cast(
    out: &mut Vec<u8>,
    context: &Context<'_>,
    t: ClassId,
    non_null: bool,
    e: &Expr,
) -> Result<(), AllocError>
    ensures { OnOk result (out.new.items ≡ out.old.items ++ (codes "((" ++ class_name (classes_of context.now.program.now) t.0 ++ texts.null_mark non_null ++ codes ") " ++ texts.expr_text (classes_of context.now.program.now) (names_in context.now) (view.expr e.now) ++ codes ")")) }
{
    let classes = &context.program.whole.classes;
    push_class_between(out, classes, b"((", t, null_mark(non_null))?;
    push_between(out, context, b") ", e, b")")
}

// This many open parentheses.
fn push_opens(out: &mut Vec<u8>, count: usize) -> Result<(), AllocError>
    ensures { OnOk result (out.new.items ≡ out.old.items ++ replicate count 40) }
{
    for _i in 0..count {
        out.extend_from_slice(b"(")?;
    }
    Ok(())
}

// This many open parentheses, and an expression.
#[cycle(expr)]
fn push_opened(
    out: &mut Vec<u8>,
    context: &Context<'_>,
    count: usize,
    e: &Expr,
) -> Result<(), AllocError>
    ensures { OnOk result (out.new.items ≡ out.old.items ++ (replicate count 40 ++ texts.expr_text (classes_of context.now.program.now) (names_in context.now) (view.expr e.now))) }
{
    push_opens(out, count)?;
    push_expr(out, context, e)
}

#[cycle(expr)]
fn push_links(out: &mut Vec<u8>, context: &Context<'_>, links: &[Link]) -> Result<(), AllocError>
    ensures { OnOk result (out.new.items ≡ out.old.items ++ links_text (classes_of context.now.program.now) (names_in context.now) (map link_after links.now)) }
{
    for link in links {
        push_link(out, context, link)?;
    }
    Ok(())
}

// What a link writes after an operand.
#[cycle(expr)]
fn push_link(out: &mut Vec<u8>, context: &Context<'_>, link: &Link) -> Result<(), AllocError>
    ensures { OnOk result (out.new.items ≡ out.old.items ++ link_text (classes_of context.now.program.now) (names_in context.now) (link_after link.now)) }
{
    let classes = &context.program.whole.classes;
    match link {
        Link::Operation(operator, e) => {
            push_between(out, context, operator_text(*operator), e, b")")
        }
        Link::Is(t) => push_class_between(out, classes, b" is ", *t, b")"),
        Link::As(t) => push_class_between(out, classes, b" as ", *t, b")"),
    }
}

#[cycle(expr)]
fn push_steps(out: &mut Vec<u8>, context: &Context<'_>, steps: &[Step]) -> Result<(), AllocError>
    ensures { OnOk result (out.new.items ≡ out.old.items ++ steps_text (classes_of context.now.program.now) (names_in context.now) (map step_after steps.now)) }
{
    for step in steps {
        push_step(out, context, step)?;
    }
    Ok(())
}

#[cycle(expr)]
fn push_step(out: &mut Vec<u8>, context: &Context<'_>, step: &Step) -> Result<(), AllocError>
    ensures { OnOk result (out.new.items ≡ out.old.items ++ step_text (classes_of context.now.program.now) (names_in context.now) (step_after step.now)) }
{
    match step {
        Step::Field(f) => push_both(out, b".", field_name(context.program, *f)),
        Step::Element(e) => push_between(out, context, b"[", e, b"]"),
        Step::Length => out.extend_from_slice(b".Length"),
    }
}

// A quantifier up to its bounds.
fn push_head(
    out: &mut Vec<u8>,
    context: &Context<'_>,
    quantifier: Quantifier,
    name: &str,
) -> Result<(), AllocError>
    ensures { OnOk result (out.new.items ≡ out.old.items ++ texts.head_text (names_in context.now) quantifier name.now) }
{
    out.extend_from_slice(quantifier_text(quantifier))?;
    out.extend_from_slice(b"{int ")?;
    push_bound(out, context, name)?;
    out.extend_from_slice(b" in (")
}

// A quantifier up to its second bound.
#[cycle(expr)]
fn push_low(
    out: &mut Vec<u8>,
    context: &Context<'_>,
    quantifier: Quantifier,
    name: &str,
    low: &Expr,
) -> Result<(), AllocError>
    ensures { OnOk result (out.new.items ≡ out.old.items ++ (texts.head_text (names_in context.now) quantifier name.now ++ texts.expr_text (classes_of context.now.program.now) (names_in context.now) (view.expr low.now) ++ codes ": ")) }
{
    push_head(out, context, quantifier, name)?;
    push_between(out, context, b"", low, b": ")
}

// These names, and after them one more.
fn with_name<'a>(
    alloc: Global,
    bound: &[&'a str],
    name: &'a str,
) -> Result<Vec<&'a str>, AllocError>
    ensures { IfOk result (λ ns. tables.texts ns.items ≡ tables.texts bound.now ++ name.now ∷ []) }
{
    let mut names = Vec::from_slice(alloc, bound)?;
    names.push(name)?;
    Ok(names)
}

// The member of a quantifier, in which the name is bound, with what stands before and after it.
#[cycle(expr)]
fn push_member(
    out: &mut Vec<u8>,
    context: &Context<'_>,
    name: &str,
    member: &Expr,
) -> Result<(), AllocError>
    ensures { OnOk result (out.new.items ≡ out.old.items ++ (codes "); " ++ texts.expr_text (classes_of context.now.program.now) (names_in context.now ++ name.now ∷ []) (view.expr member.now) ++ codes "}")) }
{
    let bound = with_name(context.alloc, context.bound, name)?;
    let inner = Context {
        alloc: context.alloc,
        program: context.program,
        locals: context.locals,
        bound: &bound,
    };
    push_between(out, &inner, b"); ", member, b"}")
}

// A question about the state of the object that an expression gives.
#[cycle(expr)]
fn push_state(
    out: &mut Vec<u8>,
    context: &Context<'_>,
    word: StateWord,
    e: &Expr,
) -> Result<(), AllocError>
    ensures { OnOk result (out.new.items ≡ out.old.items ++ (afters.word_before (view.word_tree word) ++ texts.expr_text (classes_of context.now.program.now) (names_in context.now) (view.expr e.now) ++ afters.word_after (classes_of context.now.program.now) (view.word_tree word))) }
{
    out.extend_from_slice(word_before(word))?;
    push_expr(out, context, e)?;
    push_word(out, &context.program.whole.classes, word)
}

// The second of two objects whose owners are compared, and what stands after it.
#[cycle(expr)]
fn push_owned(
    out: &mut Vec<u8>,
    context: &Context<'_>,
    test: OwnerTest,
    e: &Expr,
) -> Result<(), AllocError>
    ensures { OnOk result (out.new.items ≡ out.old.items ++ (texts.expr_text (classes_of context.now.program.now) (names_in context.now) (view.expr e.now) ++ afters.owners_after (classes_of context.now.program.now) (view.owners_tree test))) }
{
    push_expr(out, context, e)?;
    push_owners(out, &context.program.whole.classes, test)
}

// What stands before the text of the object that is asked.
fn word_before(word: StateWord) -> &'static [u8]
    ensures { result.now ≡ afters.word_before (view.word_tree word) }
{
    match word {
        StateWord::Consistent => b"",
        StateWord::Committed => b"",
        StateWord::New => b"",
        StateWord::Level(_) => b"",
        StateWord::Packed(_) => b"",
        StateWord::Unowned => b"Owner.None(",
    }
}

// What stands after it.
fn push_word(out: &mut Vec<u8>, classes: &Classes, word: StateWord) -> Result<(), AllocError>
    ensures { OnOk result (out.new.items ≡ out.old.items ++ afters.word_after (view.classes classes.now) (view.word_tree word)) }
{
    match word {
        StateWord::Consistent => out.extend_from_slice(b".IsConsistent"),
        StateWord::Committed => out.extend_from_slice(b".IsCommitted"),
        StateWord::New => out.extend_from_slice(b".IsNew"),
        StateWord::Level(t) => push_class_between(out, classes, b".IsLevel(", t, b")"),
        StateWord::Packed(t) => push_class_between(out, classes, b".IsPacked(", t, b")"),
        StateWord::Unowned => out.extend_from_slice(b")"),
    }
}

fn owners_before(test: OwnerTest) -> &'static [u8]
    ensures { result.now ≡ afters.owners_before (view.owners_tree test) }
{
    match test {
        OwnerTest::Same => b"Owner.Same(",
        OwnerTest::Is(_) => b"Owner.Is(",
    }
}

// What stands after two objects whose owners are compared.
fn push_owners(out: &mut Vec<u8>, classes: &Classes, test: OwnerTest) -> Result<(), AllocError>
    ensures { OnOk result (out.new.items ≡ out.old.items ++ afters.owners_after (view.classes classes.now) (view.owners_tree test)) }
{
    match test {
        OwnerTest::Same => out.extend_from_slice(b")"),
        OwnerTest::Is(t) => push_class_between(out, classes, b", ", t, b")"),
    }
}
