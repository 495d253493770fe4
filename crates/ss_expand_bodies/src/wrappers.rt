// Bodies that a class has of its own for methods that it inherits.

ghost use Rattle.std.specs.Prelude.{◌≡◌, ◌++◌, ◌∷◌, [], map, option_map, IfOk, OnOk};
ghost use Rattle.ss_core.specs.Tree.{LocalExpr, Base, AssignStmt, UnpackStmt, CallStmt, PackStmt, ReturnStmt};
ghost use Rattle.ss_core.specs.View as core;
ghost use Rattle.ss_typed.specs.View as typed;
ghost use Rattle.ss_expand_rules.specs.Bodies as bodies;
ghost use Rattle.ss_expand_expressions.specs.Sources.{stmts_of};

use ss_core::{BodyFlags, BodyId, Callee, ClassId, Expr, Place, Stmt, Ty};
use ss_expand_expressions::add_stmt;
use ss_typed::{TypedFlags, TypedParam, class_type};
use std::alloc::{AllocError, Global};

/// What kind of body a written one is in the core program.
pub fn core_flags(flags: TypedFlags) -> BodyFlags
    ensures { result ≡ bodies.core_flags flags }
{
    BodyFlags {
        is_static: flags.is_static,
        pure: flags.pure,
        ctor: flags.ctor,
        delayed: flags.delayed,
        wrapper: false,
    }
}

/// What kind of body one is that was made for an inherited method.
pub fn wrapper_flags() -> BodyFlags
    ensures { result ≡ bodies.wrapper_flags }
{
    BodyFlags {
        is_static: false,
        pure: false,
        ctor: false,
        delayed: false,
        wrapper: true,
    }
}

/// The parameters as arguments at this place, of which the first has this number.
pub fn own_params(
    alloc: Global,
    place: Place,
    first: usize,
    params: &[TypedParam],
) -> Result<Vec<Expr>, AllocError>
    ensures { IfOk result (λ es. core.exprs es.items ≡ bodies.own_params place first (map typed.param params.now)) }
{
    let mut exprs = Vec::new(alloc);
    let mut x = first;
    for _param in params {
        exprs.push(Expr::Local(place, x))?;
        x = x.checked_add(1).ok_or(AllocError)?;
    }
    Ok(exprs)
}

/// The types of the temporaries: of the object, and of the result where there is one.
pub fn wrapper_types(
    alloc: Global,
    class: ClassId,
    outcome: Option<Ty>,
) -> Result<Vec<Ty>, AllocError>
    ensures { IfOk result (λ ts. ts.items ≡ bodies.wrapper_types class.0 outcome) }
{
    let mut types = Vec::new(alloc);
    types.push(class_type(class, false))?;
    if let Some(ty) = outcome {
        types.push(ty)?;
    }
    Ok(types)
}

// What is returned of a local.
fn returned(place: Place, outcome: Option<usize>) -> Option<Expr>
    ensures { option_map core.expr result ≡ bodies.returned place outcome }
{
    match outcome {
        Some(x) => Some(Expr::Local(place, x)),
        None => None,
    }
}

// Adds the assignment of `this` to the local.
fn add_this(code: &mut Vec<Stmt>, place: Place, x: usize) -> Result<(), AllocError>
    ensures { OnOk result (stmts_of code.new ≡ stmts_of code.old ++ AssignStmt place x (LocalExpr place 0) ∷ []) }
{
    add_stmt(code, Stmt::Assign(place, x, Expr::Local(place, 0)))
}

// Adds the unpack of the local at the class.
fn add_unpack(
    code: &mut Vec<Stmt>,
    place: Place,
    class: ClassId,
    x: usize,
) -> Result<(), AllocError>
    ensures { OnOk result (stmts_of code.new ≡ stmts_of code.old ++ UnpackStmt place x class.0 ∷ []) }
{
    add_stmt(code, Stmt::Unpack(place, x, class))
}

// Adds the beginning of an `expose` of `this` at the class, in the local.
fn add_opening(
    code: &mut Vec<Stmt>,
    place: Place,
    class: ClassId,
    x: usize,
) -> Result<(), AllocError>
    ensures { OnOk result (stmts_of code.new ≡ stmts_of code.old ++ AssignStmt place x (LocalExpr place 0) ∷ UnpackStmt place x class.0 ∷ []) }
{
    add_this(code, place, x)?;
    add_unpack(code, place, class, x)?;
    Ok(())
}

// Adds the call of the body of the class above.
fn add_call(
    code: &mut Vec<Stmt>,
    place: Place,
    body: BodyId,
    arguments: Vec<Expr>,
    outcome: Option<usize>,
) -> Result<(), AllocError>
    ensures { OnOk result (stmts_of code.new ≡ stmts_of code.old ++ CallStmt place outcome (Base body.0) (core.exprs arguments.items) ∷ []) }
{
    add_stmt(
        code,
        Stmt::Call(place, outcome, Callee::Base(body), arguments),
    )
}

// Adds the pack of the local at the class.
fn add_pack(code: &mut Vec<Stmt>, place: Place, class: ClassId, x: usize) -> Result<(), AllocError>
    ensures { OnOk result (stmts_of code.new ≡ stmts_of code.old ++ PackStmt place x class.0 ∷ []) }
{
    add_stmt(code, Stmt::Pack(place, x, class))
}

// Adds the return of the local, where there is one.
fn add_return(code: &mut Vec<Stmt>, place: Place, outcome: Option<usize>) -> Result<(), AllocError>
    ensures { OnOk result (stmts_of code.new ≡ stmts_of code.old ++ ReturnStmt place (bodies.returned place outcome) ∷ []) }
{
    add_stmt(code, Stmt::Return(place, returned(place, outcome)))
}

// Adds its end, and the return of the local, where there is one.
fn add_closing(
    code: &mut Vec<Stmt>,
    place: Place,
    class: ClassId,
    x: usize,
    outcome: Option<usize>,
) -> Result<(), AllocError>
    ensures { OnOk result (stmts_of code.new ≡ stmts_of code.old ++ PackStmt place x class.0 ∷ ReturnStmt place (bodies.returned place outcome) ∷ []) }
{
    add_pack(code, place, class, x)?;
    add_return(code, place, outcome)?;
    Ok(())
}

/// What a wrapper is for: the place of its class, the class, and the body that it calls.
#[derive(Clone, Copy)]
pub struct Wrapped {
    pub place: Place,
    pub class: ClassId,
    pub body: BodyId,
}

/// The code: it exposes `this` at the class in the first temporary, and calls the body with these arguments; the result goes into
/// the local, where there is one.
pub fn wrapper_code(
    alloc: Global,
    wrapped: Wrapped,
    x: usize,
    arguments: Vec<Expr>,
    outcome: Option<usize>,
) -> Result<Vec<Stmt>, AllocError>
    ensures { IfOk result (λ ss. stmts_of ss ≡ bodies.wrapper_code wrapped.place wrapped.class.0 wrapped.body.0 x (core.exprs arguments.items) outcome) }
{
    let Wrapped { place, class, body } = wrapped;
    let mut code = Vec::new(alloc);
    add_opening(&mut code, place, class, x)?;
    add_call(&mut code, place, body, arguments, outcome)?;
    add_closing(&mut code, place, class, x, outcome)?;
    Ok(code)
}
