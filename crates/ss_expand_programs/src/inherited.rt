// Bodies that a class has of its own for methods that it inherits.

ghost use Rattle.std.specs.Prelude.{◌≡◌, ℕ, IfOk, length, map};
ghost use Rattle.ss_core.specs.View as core;
ghost use Rattle.ss_typed.specs.View as typed;
ghost use Rattle.ss_expand_rules.specs.Bodies as bodies;
ghost use Rattle.ss_expand_rules.specs.Program as elab_program;
ghost use Rattle.ss_expand_expressions.specs.Sources.{stmts_of};
ghost use Rattle.ss_expand_expressions.specs.Views.{numbers_of};
ghost use Rattle.ss_expand_bodies.specs.Origins.{origin_of};
ghost use Rattle.ss_expand_programs.specs.Inherited.{inherited_code};

use crate::heads::{contract_of, params_of};
use ss_core::{Body, ClassId, Local, Place, Stmt, Ty};
use ss_expand_bodies::{
    Origin, Wrapped, above_of, add_temporaries, number_in_table, numbers_from, own_params,
    wrapper_code, wrapper_flags, wrapper_types,
};
use ss_expand_expressions::Numbers;
use ss_typed::{Typed, TypedBody};
use std::alloc::{AllocError, Global};

// The number of the first temporary.
fn first_of_wrapper(body: &TypedBody) -> Result<usize, AllocError>
    ensures { IfOk result (λ n. n ≡ bodies.first_of_wrapper (typed.body body.now)) }
{
    body.params.len().checked_add(1).ok_or(AllocError)
}

// The numbers in its contract, where it has so many temporaries.
fn wrapper_numbers(
    alloc: Global,
    body: &TypedBody,
    temporaries: usize,
) -> Result<Numbers, AllocError>
    ensures { IfOk result (λ ns. (t : ℕ) → length (bodies.wrapper_types t body.now.result) ≡ temporaries → numbers_of ns ≡ bodies.wrapper_numbers (typed.body body.now) t) }
{
    let first = first_of_wrapper(body)?;
    numbers_from(Vec::new(alloc), first, temporaries, body.result)
}

// The local that gets the result, where there is one.
fn wrapper_result(outcome: Option<Ty>, x: usize) -> Option<usize>
    ensures { result ≡ bodies.wrapper_result outcome x }
{
    match outcome {
        Some(_) => Some(x),
        None => None,
    }
}

/// A method that a class inherits: its place in the table of the class, and the body in a class above.
#[derive(Clone, Copy)]
pub struct InheritedMethod<'p> {
    pub class: ClassId,
    pub method: usize,
    pub body: &'p TypedBody,
}

// Its code.
fn code_of(
    alloc: Global,
    program: &Typed,
    origins: &[Origin],
    place: Place,
    inherited: InheritedMethod<'_>,
) -> Result<Vec<Stmt>, AllocError>
    requires listed { map origin_of origins.now ≡ elab_program.bodies (typed.typed program.now) }
    ensures { IfOk result (λ code. stmts_of code ≡ inherited_code (typed.typed program.now) place inherited.entry.class.0 inherited.entry.method (typed.body inherited.entry.body.now)) }
{
    let InheritedMethod {
        class,
        method,
        body,
    } = inherited;
    let number = number_in_table(program, origins, above_of(program, class), method)?;
    let first = first_of_wrapper(body)?;
    let second = first.checked_add(1).ok_or(AllocError)?;
    let arguments = own_params(alloc, place, 1, &body.params)?;
    let outcome = wrapper_result(body.result, second);
    let wrapped = Wrapped {
        place,
        class,
        body: number,
    };
    wrapper_code(alloc, wrapped, first, arguments, outcome)
}

// Temporaries of these types.
fn temporaries_of(alloc: Global, types: &[Ty]) -> Result<Vec<Local>, AllocError>
    ensures { IfOk result (λ ls. map core.local_of ls.items ≡ bodies.temporaries_from 0 types.now) }
{
    let mut locals = Vec::new(alloc);
    add_temporaries(alloc, &mut locals, 0, types)?;
    Ok(locals)
}

/// The body of the class, whose name stands at this place, for a method that it inherits, with these declarations in the classes
/// above.
pub fn wrapper_body(
    alloc: Global,
    program: &Typed,
    origins: &[Origin],
    place: Place,
    inherited: InheritedMethod<'_>,
    declared: &[&TypedBody],
) -> Result<Body, AllocError>
    requires listed { map origin_of origins.now ≡ elab_program.bodies (typed.typed program.now) }
    ensures { IfOk result (λ b. core.body b ≡ bodies.wrapper_body (typed.typed program.now) place inherited.entry.class.0 inherited.entry.method (typed.body inherited.entry.body.now) (map (λ b. typed.body b.now) declared.now)) }
{
    let InheritedMethod { class, body, .. } = inherited;
    let types = wrapper_types(alloc, class, body.result)?;
    let code = code_of(alloc, program, origins, place, inherited)?;
    let numbers = wrapper_numbers(alloc, body, types.len())?;
    let contract = contract_of(alloc, &numbers, place, body, class, declared)?;
    Ok(Body {
        class,
        name: body.name.clone()?,
        params: params_of(alloc, &body.params)?,
        locals: temporaries_of(alloc, &types)?,
        result: body.result,
        entry: contract.entry,
        exit: contract.exit,
        named: contract.named,
        flags: wrapper_flags(),
        code,
        place,
    })
}
