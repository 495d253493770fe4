// Which sorts functions and predicates take, and what they give.

ghost use Rattle.std.specs.Prelude.{◌≡◌, List, [], ◌∷◌, ◌++◌, ◌||◌, IfOk, OnOk};
ghost use Rattle.ss_logic.specs.declared.Sort.TheVariants as sort;
ghost use Rattle.ss_core.specs.Tree.{ClassTree};
ghost use Rattle.ss_core.specs.View as view;
ghost use Rattle.ss_logic.specs.Terms as tree;
ghost use Rattle.ss_logic.specs.Formulas as logic;
ghost use Rattle.ss_terms.specs.Forms.{field_sorts as sorts_of_fields, class_sorts, symbol_of, predicate_of};

use crate::forms::{Predicate, Symbol};
use ss_core::{Class, Classes, Ty};
use ss_logic::Sort;
use std::alloc::{AllocError, Global};

/// The sorts of the program's fields, in the order of their numbers. An error is want of memory.
pub fn field_sorts(alloc: Global, classes: &Classes) -> Result<Vec<Sort>, AllocError>
    ensures { IfOk result (λ v. v.items ≡ sorts_of_fields (view.classes classes.now)) }
{
    let mut sorts = Vec::new(alloc);
    for class in &classes.list {
        add_fields(&mut sorts, class)?;
    }
    Ok(sorts)
}

// The sorts of the class's fields, after the others.
fn add_fields(sorts: &mut Vec<Sort>, class: &Class) -> Result<(), AllocError>
    ensures { OnOk result (sorts.new.items ≡ sorts.old.items ++ class_sorts (view.class_of class.now)) }
{
    for field in &class.fields {
        sorts.push(sort_of_type(field.ty))?;
    }
    Ok(())
}

/// The sort of the values of a type.
pub fn sort_of_type(ty: Ty) -> Sort
    ensures { result ≡ tree.sort_of_type ty }
{
    match ty {
        Ty::Int => Sort::Whole,
        Ty::Bool => Sort::Truth,
        Ty::Null => Sort::Rest,
        Ty::Ref { .. } => Sort::Rest,
    }
}

/// Whether two sorts are the same.
pub fn same_sort(x: Sort, y: Sort) -> bool
    ensures { result ≡ tree.same_sort x y }
{
    x == y
}

fn same_sorts(sorts: &[Sort], expected: &[Sort]) -> bool
    ensures { result ≡ tree.same_sorts sorts.now expected.now }
{
    sorts == expected
}

/// Whether a quantifier binds names of the sort: an object or a whole number.
pub fn is_bound_sort(sort: Sort) -> bool
    ensures { result ≡ logic.is_bound_sort sort }
{
    same_sort(sort, Sort::Rest) || same_sort(sort, Sort::Whole)
}

// Sorts of bound names.
pub(crate) fn are_bound_sorts(sorts: &[Sort]) -> bool
    ensures { result ≡ logic.are_bound_sorts sorts.now }
{
    for sort in sorts {
        if !is_bound_sort(*sort) {
            return false;
        }
    }
    true
}

// Whether the program has the field.
pub(crate) fn has_field(fields: &[Sort], f: u32) -> bool
    ensures { (cs : List ClassTree) → fields.now ≡ sorts_of_fields cs → result ≡ tree.has_field cs f }
{
    (f as usize) < fields.len()
}

pub(crate) fn field_sort(fields: &[Sort], f: u32) -> Sort
    ensures { (cs : List ClassTree) → fields.now ≡ sorts_of_fields cs → result ≡ tree.field_sort cs f }
{
    match fields.get(f as usize) {
        Some(sort) => *sort,
        None => Sort::Whole,
    }
}

// A store and an object.
fn is_object(sorts: &[Sort]) -> bool
    ensures { result ≡ tree.same_sorts sorts.now (sort.Store ∷ sort.Rest ∷ []) }
{
    same_sorts(sorts, &[Sort::Store, Sort::Rest])
}

// A store, an object, and one more of this sort.
fn is_object_with(sorts: &[Sort], value: Sort) -> bool
    ensures { result ≡ tree.same_sorts sorts.now (sort.Store ∷ sort.Rest ∷ value ∷ []) }
{
    same_sorts(sorts, &[Sort::Store, Sort::Rest, value])
}

// A store, an array, an index and a value of this sort.
fn is_put(sorts: &[Sort], value: Sort) -> bool
    ensures { result ≡ tree.same_sorts sorts.now (sort.Store ∷ sort.Rest ∷ sort.Whole ∷ value ∷ []) }
{
    same_sorts(sorts, &[Sort::Store, Sort::Rest, Sort::Whole, value])
}

fn are_numbers(sorts: &[Sort]) -> bool
    ensures { result ≡ tree.same_sorts sorts.now (sort.Whole ∷ sort.Whole ∷ []) }
{
    same_sorts(sorts, &[Sort::Whole, Sort::Whole])
}

// Whether the function takes arguments of these sorts, in the program with these fields.
pub(crate) fn takes(fields: &[Sort], symbol: Symbol, sorts: &[Sort]) -> bool
    ensures { (cs : List ClassTree) → fields.now ≡ sorts_of_fields cs → result ≡ tree.takes cs (symbol_of symbol) sorts.now }
{
    match symbol {
        Symbol::Number(_) => same_sorts(sorts, &[]),
        Symbol::Fixed(_) => same_sorts(sorts, &[]),
        Symbol::Null => same_sorts(sorts, &[]),
        Symbol::ClassName(_) => same_sorts(sorts, &[]),
        Symbol::Constant(_, _) => same_sorts(sorts, &[]),
        Symbol::Add => are_numbers(sorts),
        Symbol::Subtract => are_numbers(sorts),
        Symbol::Multiply => are_numbers(sorts),
        Symbol::Quotient => are_numbers(sorts),
        Symbol::Remainder => are_numbers(sorts),
        Symbol::Field(f) => has_field(fields, f) && is_object(sorts),
        Symbol::Element(sort) => is_object_with(sorts, Sort::Whole)
            && !same_sort(sort, Sort::Store),
        Symbol::Length => same_sorts(sorts, &[Sort::Rest]),
        Symbol::TypeOf => same_sorts(sorts, &[Sort::Rest]),
        Symbol::Level => is_object(sorts),
        Symbol::Owner => is_object(sorts),
        Symbol::Pair => same_sorts(sorts, &[Sort::Rest, Sort::Rest]),
        Symbol::Next => same_sorts(sorts, &[Sort::Store]),
        Symbol::Set(f) => has_field(fields, f) && is_object_with(sorts, field_sort(fields, f)),
        Symbol::Put => is_any_put(sorts),
        Symbol::Unpack(_) => is_object(sorts),
        Symbol::Pack(_) => is_object(sorts),
        Symbol::Capture(_) => is_object_with(sorts, Sort::Rest),
        Symbol::Join => is_object_with(sorts, Sort::Rest),
        Symbol::New(_) => same_sorts(sorts, &[Sort::Store]),
        Symbol::NewArray(_) => same_sorts(sorts, &[Sort::Store, Sort::Whole]),
        Symbol::MakeReady => is_object(sorts),
    }
}

// A store, an array, an index and a value of each sort but that of stores.
fn is_any_put(sorts: &[Sort]) -> bool
    ensures { result ≡ (tree.same_sorts sorts.now (sort.Store ∷ sort.Rest ∷ sort.Whole ∷ sort.Whole ∷ []) || tree.same_sorts sorts.now (sort.Store ∷ sort.Rest ∷ sort.Whole ∷ sort.Truth ∷ []) || tree.same_sorts sorts.now (sort.Store ∷ sort.Rest ∷ sort.Whole ∷ sort.Rest ∷ [])) }
{
    is_put(sorts, Sort::Whole) || is_put(sorts, Sort::Truth) || is_put(sorts, Sort::Rest)
}

// What the function gives.
pub(crate) fn result_sort(fields: &[Sort], symbol: Symbol) -> Sort
    ensures { (cs : List ClassTree) → fields.now ≡ sorts_of_fields cs → result ≡ tree.result_sort cs (symbol_of symbol) }
{
    match symbol {
        Symbol::Number(_) => Sort::Whole,
        Symbol::Fixed(_) => Sort::Truth,
        Symbol::Null => Sort::Rest,
        Symbol::ClassName(_) => Sort::Rest,
        Symbol::Constant(sort, _) => sort,
        Symbol::Add => Sort::Whole,
        Symbol::Subtract => Sort::Whole,
        Symbol::Multiply => Sort::Whole,
        Symbol::Quotient => Sort::Whole,
        Symbol::Remainder => Sort::Whole,
        Symbol::Field(f) => field_sort(fields, f),
        Symbol::Element(sort) => sort,
        Symbol::Length => Sort::Whole,
        Symbol::TypeOf => Sort::Rest,
        Symbol::Level => Sort::Rest,
        Symbol::Owner => Sort::Rest,
        Symbol::Pair => Sort::Rest,
        Symbol::Next => Sort::Rest,
        Symbol::Set(_) => Sort::Store,
        Symbol::Put => Sort::Store,
        Symbol::Unpack(_) => Sort::Store,
        Symbol::Pack(_) => Sort::Store,
        Symbol::Capture(_) => Sort::Store,
        Symbol::Join => Sort::Store,
        Symbol::New(_) => Sort::Store,
        Symbol::NewArray(_) => Sort::Store,
        Symbol::MakeReady => Sort::Store,
    }
}

// Whether an atom of this kind takes terms of these sorts.
pub(crate) fn takes_sorts(predicate: Predicate, sorts: &[Sort]) -> bool
    ensures { result ≡ logic.takes_sorts (predicate_of predicate) sorts.now }
{
    match predicate {
        Predicate::Equal => are_alike(sorts),
        Predicate::AtMost => are_numbers(sorts),
        Predicate::Sub => same_sorts(sorts, &[Sort::Rest, Sort::Rest]),
        Predicate::Allocated => is_object(sorts),
        Predicate::Committed => is_object(sorts),
        Predicate::Ready => is_object(sorts),
        Predicate::IsGroup => same_sorts(sorts, &[Sort::Rest]),
        Predicate::Good => same_sorts(sorts, &[Sort::Store]),
    }
}

// Two equal sorts.
fn are_alike(sorts: &[Sort]) -> bool
    ensures { result ≡ logic.takes_sorts logic.Equal sorts.now }
{
    sorts.len() == 2 && same_sort(sorts[0], sorts[1])
}
