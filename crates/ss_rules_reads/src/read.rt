// The rule on reads.

ghost use Rattle.std.specs.Prelude.{◌≡◌, ◌≤◌, ◌^◌, List, [], ◌∷◌, length, option_map, option_and_then, IfOk};
ghost use Rattle.ss_core.specs.Chain.{most_classes, all_fields};
ghost use Rattle.ss_core.specs.View as view;
ghost use Rattle.ss_logic.specs.Terms as tree;
ghost use Rattle.ss_logic.specs.Shapes.{all_of};
ghost use Rattle.ss_logic.specs.Reads.{look_from, read_over, read_moved, read_instance, is_constant_store, reads_a_store, without_last, last_of};
ghost use Rattle.ss_terms.specs.Forms.{symbol_of, term_at, terms_at, HasTerm, HasTerms, IsGrown, IsBankOf};
ghost use Rattle.ss_terms.specs.Numbered.{IsNumberOf};
ghost use Rattle.ss_rules_basic.specs.Looks.{look_in, HasLook};
ghost use Rattle.ss_rules_reads.specs.Changes.{over_changed};

use crate::changes::{
    ElementWrite, FieldWrite, Stores, packed_read, put_read, ready_read, set_read, unpacked_read,
};
use crate::context::ReadContext;
use crate::new::new_read;
use crate::owners::{captured_read, joined_read};
use crate::same::{equal_read, same_read};
use ss_core::Classes;
use ss_logic::Sort;
use ss_rules_basic::{Look, read_named};
use ss_terms::{Bank, FormulaId, Symbol, Term, TermId};
use std::alloc::{AllocError, Global};

// A read over a store with a new object.
fn over_one(
    context: &ReadContext<'_>,
    b: &mut Bank,
    stores: Stores,
    symbol: Symbol,
) -> Result<Option<FormulaId>, AllocError>
    requires bank { IsBankOf (view.classes context.now.classes.now) b.old }
    requires after { HasTerm b.old stores.after }
    requires before { HasTerm b.old stores.before }
    requires look { HasLook b.old context.now.look }
    ensures at { IfOk result (λ o. IsNumberOf b.new o (option_map all_of (over_changed (view.classes context.now.classes.now) (term_at b.old stores.after) (look_in b.old context.now.look) (symbol_of symbol) (term_at b.old stores.before ∷ [])))) }
    ensures grown { IsGrown b.old b.new }
{
    match symbol {
        Symbol::New(_) => {
            let f = new_read(
                context.alloc,
                b,
                context.classes,
                stores,
                (0, false),
                context.look,
            )?;
            Ok(Some(f))
        }
        _ => Ok(None),
    }
}

// A read over a store with a change at an object, or with a new array.
fn over_two(
    context: &ReadContext<'_>,
    b: &mut Bank,
    stores: Stores,
    symbol: Symbol,
    o: TermId,
) -> Result<Option<FormulaId>, AllocError>
    requires bank { IsBankOf (view.classes context.now.classes.now) b.old }
    requires classes { length (view.classes context.now.classes.now) ≤ most_classes }
    requires after { HasTerm b.old stores.after }
    requires before { HasTerm b.old stores.before }
    requires object { HasTerm b.old o }
    requires look { HasLook b.old context.now.look }
    ensures at { IfOk result (λ r. IsNumberOf b.new r (option_map all_of (over_changed (view.classes context.now.classes.now) (term_at b.old stores.after) (look_in b.old context.now.look) (symbol_of symbol) (term_at b.old stores.before ∷ term_at b.old o ∷ [])))) }
    ensures grown { IsGrown b.old b.new }
{
    match symbol {
        Symbol::Unpack(t) => {
            let f = unpacked_read(context, b, stores, t, o)?;
            Ok(Some(f))
        }
        Symbol::Pack(t) => {
            let f = packed_read(context.alloc, b, stores, t, o, context.look)?;
            Ok(Some(f))
        }
        Symbol::NewArray(t) => {
            let f = new_read(
                context.alloc,
                b,
                context.classes,
                stores,
                (t, true),
                context.look,
            )?;
            Ok(Some(f))
        }
        Symbol::MakeReady => {
            let f = ready_read(context.alloc, b, stores, o, context.look)?;
            Ok(Some(f))
        }
        _ => Ok(None),
    }
}

// A read over a store with a field set, or with other owners.
fn over_three(
    context: &ReadContext<'_>,
    b: &mut Bank,
    stores: Stores,
    symbol: Symbol,
    objects: (TermId, TermId),
) -> Result<Option<FormulaId>, AllocError>
    requires after { HasTerm b.old stores.after }
    requires before { HasTerm b.old stores.before }
    requires first { HasTerm b.old objects.0 }
    requires second { HasTerm b.old objects.1 }
    requires look { HasLook b.old context.now.look }
    ensures at { IfOk result (λ r. IsNumberOf b.new r (option_map all_of (over_changed (view.classes context.now.classes.now) (term_at b.old stores.after) (look_in b.old context.now.look) (symbol_of symbol) (term_at b.old stores.before ∷ term_at b.old objects.0 ∷ term_at b.old objects.1 ∷ [])))) }
    ensures grown { IsGrown b.old b.new }
{
    match symbol {
        Symbol::Set(f) => {
            let written = FieldWrite {
                field: f,
                object: objects.0,
                value: objects.1,
            };
            let r = set_read(context.alloc, b, stores, written, context.look)?;
            Ok(Some(r))
        }
        Symbol::Capture(t) => {
            let r = captured_read(context.alloc, b, stores, t, objects, context.look)?;
            Ok(Some(r))
        }
        Symbol::Join => {
            let r = joined_read(context.alloc, b, stores, objects, context.look)?;
            Ok(Some(r))
        }
        _ => Ok(None),
    }
}

// A read over a store with an element put into an array.
fn over_four(
    context: &ReadContext<'_>,
    b: &mut Bank,
    stores: Stores,
    symbol: Symbol,
    written: ElementWrite,
) -> Result<Option<FormulaId>, AllocError>
    requires bank { IsBankOf (view.classes context.now.classes.now) b.old }
    requires after { HasTerm b.old stores.after }
    requires before { HasTerm b.old stores.before }
    requires array { HasTerm b.old written.array }
    requires index { HasTerm b.old written.index }
    requires value { HasTerm b.old written.value }
    requires look { HasLook b.old context.now.look }
    ensures at { IfOk result (λ r. IsNumberOf b.new r (option_map all_of (over_changed (view.classes context.now.classes.now) (term_at b.old stores.after) (look_in b.old context.now.look) (symbol_of symbol) (term_at b.old stores.before ∷ term_at b.old written.array ∷ term_at b.old written.index ∷ term_at b.old written.value ∷ [])))) }
    ensures grown { IsGrown b.old b.new }
{
    match symbol {
        Symbol::Put => {
            let r = put_read(context.alloc, b, stores, written, context.look)?;
            Ok(Some(r))
        }
        _ => Ok(None),
    }
}

// A read over the store that the function makes of these arguments.
fn over_form(
    context: &ReadContext<'_>,
    b: &mut Bank,
    after: TermId,
    symbol: Symbol,
    arguments: &[TermId],
) -> Result<Option<FormulaId>, AllocError>
    requires bank { IsBankOf (view.classes context.now.classes.now) b.old }
    requires classes { length (view.classes context.now.classes.now) ≤ most_classes }
    requires after { HasTerm b.old after }
    requires arguments { HasTerms b.old arguments.now }
    requires look { HasLook b.old context.now.look }
    ensures at { IfOk result (λ r. IsNumberOf b.new r (option_map all_of (over_changed (view.classes context.now.classes.now) (term_at b.old after) (look_in b.old context.now.look) (symbol_of symbol) (terms_at b.old arguments.now)))) }
    ensures grown { IsGrown b.old b.new }
{
    match arguments {
        [s] => over_one(context, b, Stores { after, before: *s }, symbol),
        [s, o] => {
            let stores = Stores { after, before: *s };
            over_two(context, b, stores, symbol, *o)
        }
        [s, o, e] => {
            let stores = Stores { after, before: *s };
            over_three(context, b, stores, symbol, (*o, *e))
        }
        [s, a, i, v] => {
            let stores = Stores { after, before: *s };
            let written = ElementWrite {
                array: *a,
                index: *i,
                value: *v,
            };
            over_four(context, b, stores, symbol, written)
        }
        _ => Ok(None),
    }
}

// A read over a store that is no constant.
fn over_store(
    alloc: Global,
    b: &mut Bank,
    classes: &Classes,
    s: TermId,
    look: Look,
) -> Result<Option<FormulaId>, AllocError>
    requires bank { IsBankOf (view.classes classes.now) b.old }
    requires classes { length (view.classes classes.now) ≤ most_classes }
    requires store { HasTerm b.old s }
    requires look { HasLook b.old look }
    requires fits { is_look (view.classes classes.now) (look_in b.old look) ≡ true }
    ensures at { IfOk result (λ r. IsNumberOf b.new r (read_over (view.classes classes.now) (term_at b.old s) (Some (look_in b.old look)))) }
    ensures grown { IsGrown b.old b.new }
{
    if !looks_at_store(look) {
        return Ok(None);
    }
    if !b.is_well_sorted(s) {
        return Ok(None);
    }
    match b.term_node(s) {
        Term::App(symbol, arguments) => {
            let symbol = *symbol;
            let arguments = Vec::from_slice(alloc, arguments)?;
            let context = ReadContext {
                alloc,
                classes,
                look,
            };
            over_form(&context, b, s, symbol, &arguments)
        }
        Term::Bound(_) => Ok(None),
    }
}

ghost use Rattle.std.specs.Prelude.{Some, true};
ghost use Rattle.ss_logic.specs.Reads.{is_look};

// Whether the read is one of a store.
fn looks_at_store(look: Look) -> bool
    ensures { (b : Forms) → result ≡ reads_a_store (look_in b look) }
{
    match look {
        Look::Length(_) => false,
        _ => true,
    }
}

ghost use Rattle.ss_terms.specs.Forms.{Forms};

// Whether the term is a constant store.
fn is_constant(b: &Bank, t: TermId) -> bool
    requires { HasTerm b.now t }
    ensures { result ≡ is_constant_store (term_at b.now t) }
{
    match b.term_node(t) {
        Term::App(Symbol::Constant(Sort::Store, k), arguments) => is_bare(b, *k, arguments),
        _ => false,
    }
}

// Whether there are no arguments.
fn is_bare(b: &Bank, k: usize, ts: &[TermId]) -> bool
    ensures { result ≡ is_constant_store (tree.App (tree.Constant sort.Store k) (tree.terms_from (terms_at b.now ts.now))) }
{
    let _ = b;
    let _ = k;
    match ts {
        [] => true,
        _ => false,
    }
}

ghost use Rattle.ss_logic.specs.declared.Sort.TheVariants as sort;

// A read over a constant store and one that equals it.
fn moved_read(
    alloc: Global,
    b: &mut Bank,
    classes: &Classes,
    s: TermId,
    t: TermId,
    look: Look,
) -> Result<Option<FormulaId>, AllocError>
    requires bank { IsBankOf (view.classes classes.now) b.old }
    requires store { HasTerm b.old s }
    requires other { HasTerm b.old t }
    requires look { HasLook b.old look }
    requires fits { is_look (view.classes classes.now) (look_in b.old look) ≡ true }
    ensures at { IfOk result (λ r. IsNumberOf b.new r (read_moved (view.classes classes.now) (term_at b.old s) (term_at b.old t) (Some (look_in b.old look)))) }
    ensures grown { IsGrown b.old b.new }
{
    let _ = classes;
    if !looks_at_store(look) || !b.have_sorts(&[Sort::Store, Sort::Store], &[s, t]) {
        return Ok(None);
    }
    if b.is_same_term(s, t) {
        let f = same_read(alloc, b, look, (s, t))?;
        return Ok(Some(f));
    }
    let f = equal_read(alloc, b, look, (s, t))?;
    Ok(Some(f))
}

// The rule over a constant store: the last argument is the one that equals it.
fn moved_rule(
    alloc: Global,
    b: &mut Bank,
    classes: &Classes,
    kind: TermId,
    s: TermId,
    arguments: &[TermId],
) -> Result<Option<FormulaId>, AllocError>
    requires bank { IsBankOf (view.classes classes.now) b.old }
    requires classes { length (view.classes classes.now) ≤ most_classes }
    requires fields { length (all_fields (view.classes classes.now)) ≤ 2 ^ 32 }
    requires kind { HasTerm b.old kind }
    requires store { HasTerm b.old s }
    requires arguments { HasTerms b.old arguments.now }
    ensures at { IfOk result (λ r. IsNumberOf b.new r (option_and_then (λ t. read_moved (view.classes classes.now) (term_at b.old s) t (look_from (term_at b.old kind) (without_last (terms_at b.old arguments.now)))) (last_of (terms_at b.old arguments.now)))) }
    ensures grown { IsGrown b.old b.new }
{
    match split_last(arguments) {
        Some((t, front)) => match read_named(b, classes, kind, front) {
            Some(look) => moved_read(alloc, b, classes, s, t, look),
            None => Ok(None),
        },
        None => Ok(None),
    }
}

// The last term, and those before it.
fn split_last(ts: &[TermId]) -> Option<(TermId, &[TermId])>
    ensures some { IfSome result (λ x. ts.now ≡ x.1.now ++ x.0 ∷ []) }
    ensures none { IfNone result (ts.now ≡ []) }
{
    match ts {
        [front @ .., last] => Some((*last, front)),
        [] => None,
    }
}

ghost use Rattle.std.specs.Prelude.{◌++◌, IfSome, IfNone};

// The rule over a store that is no constant.
fn changed_rule(
    alloc: Global,
    b: &mut Bank,
    classes: &Classes,
    kind: TermId,
    s: TermId,
    arguments: &[TermId],
) -> Result<Option<FormulaId>, AllocError>
    requires bank { IsBankOf (view.classes classes.now) b.old }
    requires classes { length (view.classes classes.now) ≤ most_classes }
    requires fields { length (all_fields (view.classes classes.now)) ≤ 2 ^ 32 }
    requires kind { HasTerm b.old kind }
    requires store { HasTerm b.old s }
    requires arguments { HasTerms b.old arguments.now }
    ensures at { IfOk result (λ r. IsNumberOf b.new r (read_over (view.classes classes.now) (term_at b.old s) (look_from (term_at b.old kind) (terms_at b.old arguments.now)))) }
    ensures grown { IsGrown b.old b.new }
{
    match read_named(b, classes, kind, arguments) {
        Some(look) => over_store(alloc, b, classes, s, look),
        None => Ok(None),
    }
}

/// What a read gives over a changed store, or over a constant and the store that equals it. An error is want of memory.
pub fn read_rule(
    alloc: Global,
    b: &mut Bank,
    classes: &Classes,
    arguments: &[TermId],
) -> Result<Option<FormulaId>, AllocError>
    requires bank { IsBankOf (view.classes classes.now) b.old }
    requires classes { length (view.classes classes.now) ≤ most_classes }
    requires fields { length (all_fields (view.classes classes.now)) ≤ 2 ^ 32 }
    requires arguments { HasTerms b.old arguments.now }
    ensures at { IfOk result (λ r. IsNumberOf b.new r (read_instance (view.classes classes.now) (terms_at b.old arguments.now))) }
    ensures grown { IsGrown b.old b.new }
{
    let [kind, s, rest @ ..] = arguments else {
        return Ok(None);
    };
    if is_constant(b, *s) {
        return moved_rule(alloc, b, classes, *kind, *s, rest);
    }
    changed_rule(alloc, b, classes, *kind, *s, rest)
}
