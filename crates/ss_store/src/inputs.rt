// The first state of a run, and the inputs that a program admits.
ghost use Rattle.std.specs.Prelude.{◌≡◌, ◌<◌, ◌≤◌, ◌^◌, ◌++◌, Some, length, map, option_to_list, IfOk};
ghost use Rattle.ss_store_rules.specs.Store.{default_value};
ghost use Rattle.ss_core.specs.View.{classes, core, body, local_of};
ghost use Rattle.ss_core.specs.Chain.{most_classes};
ghost use Rattle.ss_store_rules.specs.Admitted.{first_store, main_arguments, first_locals, takes_input, admits, admitted};

use crate::defaults::default_value;
use crate::object::Object;
use crate::store::Store;
use ss_core::{Body, ClassId, Core, Local, Ty};
use ss_store_lists::Lists;
use ss_store_rules::{Owner, Value};
use std::alloc::{AllocError, Global};

/// The class `int[]`.
const INT_ARRAY: ClassId = ClassId(1);

fn input_elements(alloc: Global, input: &[i32]) -> Result<Vec<Value>, AllocError>
    ensures { IfOk result (λ v. v.items ≡ map Value.Int input.now) }
{
    let mut elements = Vec::with_capacity(alloc, input.len())?;
    for n in input {
        elements.push(Value::Int(*n))?;
    }
    Ok(elements)
}

/// The store with the input alone, as an array at position 0. An error is want of memory.
pub fn first_store(alloc: Global, input: &[i32]) -> Result<Store, AllocError>
    requires { length input.now < 2 ^ 31 }
    ensures { IfOk result (λ s. s.objects ≡ first_store input.now) }
{
    let elements = input_elements(alloc, input)?;
    let array = Object {
        class: INT_ARRAY,
        fields: Vec::new(alloc),
        elements,
        level: INT_ARRAY,
        committed: false,
        owner: Owner::Group(0),
        ready: true,
    };
    let mut lists = Lists::new(alloc);
    lists.add_holder();
    Ok(Store {
        objects: vec![in alloc; array]?,
        spare: Vec::new(alloc),
        lists,
    })
}

/// Main's parameter, where it has one, is the array.
fn arguments(alloc: Global, params: &[Local]) -> Result<Vec<Value>, AllocError>
    ensures { IfOk result (λ v. v.items ≡ main_arguments (map local_of params.now)) }
{
    let mut arguments = Vec::new(alloc);
    if !params.is_empty() {
        arguments.push(Value::Obj(0))?;
    }
    Ok(arguments)
}

/// The result, where there is one, has its default.
fn with_result(locals: Vec<Value>, ty: Option<Ty>) -> Result<Vec<Value>, AllocError>
    ensures { IfOk result (λ v. v.items ≡ locals.items ++ map default_value (option_to_list ty)) }
{
    let mut locals = locals;
    if let Some(ty) = ty {
        locals.push(default_value(ty))?;
    }
    Ok(locals)
}

/// Main's other locals and its result have their defaults.
fn first_locals(alloc: Global, main: &Body) -> Result<Vec<Value>, AllocError>
    ensures { IfOk result (λ v. v.items ≡ first_locals (body main.now)) }
{
    let mut locals = arguments(alloc, &main.params)?;
    for local in &main.locals {
        locals.push(default_value(local.ty))?;
    }
    with_result(locals, main.result)
}

/// A Main without a parameter takes the empty input alone.
fn takes_input(params: &[Local], input: &[i32]) -> bool
    ensures { result ≡ takes_input (map local_of params.now) input.now }
{
    !params.is_empty() || input.is_empty()
}

/// Whether the conditions at the entry of this Main hold at the input.
fn admits(alloc: Global, c: &Core, main: &Body, input: &[i32]) -> Result<bool, AllocError>
    requires few { length (classes c.now.classes) ≤ most_classes }
    requires short { length input.now < 2 ^ 31 }
    ensures { IfOk result (λ a. a ≡ admits (core c.now) input.now (Some (body main.now))) }
{
    if !takes_input(&main.params, input) {
        return Ok(false);
    }
    let store = first_store(alloc, input)?;
    let locals = first_locals(alloc, main)?;
    Ok(store.all_hold(c, &store, &main.entry, &locals))
}

/// Whether the program admits the input: the conditions at Main's entry hold where the input is the only object, an `int[]`. That is the
/// value of Main's parameter, if it has one; without a parameter it admits the empty input alone. A program whose Main is no body admits
/// none. An error is want of memory.
pub fn admitted(alloc: Global, c: &Core, input: &[i32]) -> Result<bool, AllocError>
    requires few { length (classes c.now.classes) ≤ most_classes }
    requires short { length input.now < 2 ^ 31 }
    ensures { IfOk result (λ a. a ≡ admitted (core c.now) input.now) }
{
    match c.bodies.get(c.main.0 as usize) {
        Some(main) => admits(alloc, c, main, input),
        None => Ok(false),
    }
}
