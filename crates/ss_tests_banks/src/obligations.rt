// The obligations of small programs, built by hand.

ghost use Rattle.std.specs.Prelude.{◌≡◌, IfOk};
ghost use Rattle.ss_core.specs.View.{classes};
ghost use Rattle.ss_core.specs.Chain.{IsWithinLimits};

use crate::part;
use ss_core::{
    Body, BodyFlags, BodyId, Callee, Core, Expr, Kind, Link, Local, Operator, Place, Stmt, Ty,
};
use ss_terms::FormulaId;
use ss_vcgen::{Listed, obligations};
use std::alloc::{AllocError, Global};
use std::test::Fail;

fn at(line: u32) -> Place {
    Place { line, column: 5 }
}

fn local_of(alloc: Global, name: &str, ty: Ty) -> Result<Local, AllocError> {
    Ok(Local {
        name: String::from_str(alloc, name)?,
        ty,
        captured: false,
    })
}

// A static method without parameters and conditions.
fn body(alloc: Global, name: String, code: Vec<Stmt>) -> Body {
    Body {
        class: part::PART,
        name,
        params: Vec::new(alloc),
        locals: Vec::new(alloc),
        result: None,
        entry: Vec::new(alloc),
        exit: Vec::new(alloc),
        named: Vec::new(alloc),
        flags: BodyFlags {
            is_static: true,
            pure: false,
            ctor: false,
            delayed: false,
            wrapper: false,
        },
        code,
        place: at(1),
    }
}

fn add(code: &mut Vec<Stmt>, statement: Stmt) -> Result<(), AllocError> {
    code.push(statement)?;
    Ok(())
}

// `int x` and `bool b`
fn two_locals(alloc: Global) -> Result<Vec<Local>, AllocError> {
    let mut locals = Vec::new(alloc);
    locals.push(local_of(alloc, "x", Ty::Int)?)?;
    locals.push(local_of(alloc, "b", Ty::Bool)?)?;
    Ok(locals)
}

// A Main with the locals `int x` and `bool b`, and this code.
fn main_of(alloc: Global, code: Vec<Stmt>) -> Result<Body, AllocError> {
    let name = String::from_str(alloc, "Main")?;
    let locals = two_locals(alloc)?;
    let mut main = body(alloc, name, code);
    main.locals = locals;
    Ok(main)
}

// A program of these bodies.
fn of_bodies(alloc: Global, bodies: Vec<Body>, main: BodyId) -> Result<Core, AllocError>
    ensures { IfOk result (λ c. IsWithinLimits (classes c.classes)) }
{
    let Core { classes, .. } = part::program(alloc)?;
    Ok(Core {
        classes,
        bodies,
        main,
    })
}

fn program(alloc: Global, code: Vec<Stmt>) -> Result<Core, AllocError>
    ensures { IfOk result (λ c. IsWithinLimits (classes c.classes)) }
{
    let main = main_of(alloc, code)?;
    of_bodies(alloc, vec![in alloc; main]?, BodyId(0))
}

// Two expressions with this operator between them.
fn chain(
    alloc: Global,
    line: u32,
    operator: Operator,
    left: Expr,
    right: Expr,
) -> Result<Expr, AllocError> {
    let first = Box::new(alloc, left)?;
    let links = vec![in alloc; Link::Operation(operator, right)]?;
    Ok(Expr::Chain(at(line), first, links))
}

// `x == number`
fn x_is(alloc: Global, number: i32) -> Result<Expr, AllocError> {
    let x = Expr::Local(at(1), 0);
    chain(alloc, 1, Operator::Equal, x, Expr::Int(at(1), number))
}

// `b && !(x == 4)`
fn true_and_not_four(alloc: Global) -> Result<Expr, AllocError> {
    let four = Box::new(alloc, x_is(alloc, 4)?)?;
    let b = Expr::Local(at(4), 1);
    chain(alloc, 4, Operator::And, b, Expr::Not(at(4), four))
}

// `int x = 3; bool b = x == 3; assert b && !(x == 4); assert x == 4;`
fn two_asserts(alloc: Global) -> Result<Core, AllocError>
    ensures { IfOk result (λ c. IsWithinLimits (classes c.classes)) }
{
    let mut code = Vec::new(alloc);
    add(&mut code, Stmt::Assign(at(2), 0, Expr::Int(at(2), 3)))?;
    add(&mut code, Stmt::Assign(at(3), 1, x_is(alloc, 3)?))?;
    add(&mut code, Stmt::Assert(at(4), true_and_not_four(alloc)?))?;
    add(&mut code, Stmt::Assert(at(5), x_is(alloc, 4)?))?;
    add(&mut code, Stmt::Return(at(6), None))?;
    program(alloc, code)
}

// Whether the obligations are of these kinds, at these lines and in these bodies.
fn are(list: &[Listed], expected: &[(Kind, u32, u32)]) -> bool {
    for (i, (kind, line, body)) in expected.iter().enumerate() {
        let Some(o) = list.get(i) else {
            return false;
        };
        if o.kind != *kind || o.place != at(*line) || o.body != BodyId(*body) {
            return false;
        }
    }
    list.len() == expected.len()
}

// Whether the second obligation has one premise more, which is the goal of the first. The premises begin with the trail.
fn follow(list: &[Listed], trail: &[FormulaId]) -> bool {
    let [first, second, ..] = list else {
        return false;
    };
    first.first == 0
        && second.first == 0
        && second.end.checked_sub(1) == Some(first.end)
        && trail.get(first.end).copied() == Some(first.goal)
}

fn asserts_are_obligations(alloc: Global) -> Result<bool, AllocError> {
    let core = two_asserts(alloc)?;
    let built = obligations(alloc, &core)?;
    let expected = [
        (Kind::Assert, 4, 0),
        (Kind::Assert, 5, 0),
        (Kind::Frame, 6, 0),
    ];
    Ok(are(&built.list, &expected) && follow(&built.list, &built.trail))
}

// An assert of 100,000 operands.
fn long_chain(alloc: Global) -> Result<Core, AllocError>
    ensures { IfOk result (λ c. IsWithinLimits (classes c.classes)) }
{
    let mut others = Vec::new(alloc);
    for _ in 0..99_999 {
        others.push(Link::Operation(Operator::And, x_is(alloc, 0)?))?;
    }
    let chain = Expr::Chain(at(2), Box::new(alloc, Expr::Local(at(2), 1))?, others);
    let code = vec![in alloc; Stmt::Assert(at(2), chain), Stmt::Return(at(3), None)]?;
    program(alloc, code)
}

fn long_chains_are_flat(alloc: Global) -> Result<bool, AllocError> {
    let core = long_chain(alloc)?;
    let built = obligations(alloc, &core)?;
    Ok(are(&built.list, &[(Kind::Assert, 2, 0), (Kind::Frame, 3, 0)]))
}

fn parameter() -> Expr {
    Expr::Local(at(1), 0)
}

// `if (p) { return true; } return false;`
fn code_of_same(alloc: Global) -> Result<Vec<Stmt>, AllocError> {
    let yes = vec![in alloc; Stmt::Return(at(2), Some(Expr::Bool(at(2), true)))]?;
    let mut code = Vec::new(alloc);
    add(
        &mut code,
        Stmt::If(at(2), parameter(), yes, Vec::new(alloc)),
    )?;
    add(
        &mut code,
        Stmt::Return(at(3), Some(Expr::Bool(at(3), false))),
    )?;
    Ok(code)
}

// `result == p`
fn is_same(alloc: Global) -> Result<Expr, AllocError> {
    let given = Expr::Local(at(1), 1);
    chain(alloc, 1, Operator::Equal, given, parameter())
}

// `static bool Same(bool p) requires p; ensures result == p; { if (p) { return true; } return false; }`
fn same(alloc: Global) -> Result<Body, AllocError> {
    let code = code_of_same(alloc)?;
    let condition = is_same(alloc)?;
    let exit = vec![in alloc; condition]?;
    let entry = vec![in alloc; parameter()]?;
    let p = local_of(alloc, "p", Ty::Bool)?;
    let params = vec![in alloc; p]?;
    let name = String::from_str(alloc, "Same")?;
    let mut same = body(alloc, name, code);
    same.params = params;
    same.result = Some(Ty::Bool);
    same.entry = entry;
    same.exit = exit;
    Ok(same)
}

// `bool b = Same(true); assert b;`
fn code_of_call(alloc: Global) -> Result<Vec<Stmt>, AllocError> {
    let args = vec![in alloc; Expr::Bool(at(7), true)]?;
    let mut code = Vec::new(alloc);
    let same = Callee::Static(BodyId(0));
    add(&mut code, Stmt::Call(at(7), Some(1), same, args))?;
    add(&mut code, Stmt::Assert(at(8), Expr::Local(at(8), 1)))?;
    add(&mut code, Stmt::Return(at(9), None))?;
    Ok(code)
}

fn call(alloc: Global) -> Result<Core, AllocError>
    ensures { IfOk result (λ c. IsWithinLimits (classes c.classes)) }
{
    let mut bodies = Vec::new(alloc);
    bodies.push(same(alloc)?)?;
    bodies.push(main_of(alloc, code_of_call(alloc)?)?)?;
    of_bodies(alloc, bodies, BodyId(1))
}

// Whether the fifth obligation, which is another body's, has other premises than the fourth.
fn begin_anew(list: &[Listed]) -> bool {
    match (list.get(3), list.get(4)) {
        (Some(last), Some(next)) => last.first == 0 && last.end < next.first,
        _ => false,
    }
}

fn calls_and_returns_have_obligations(alloc: Global) -> Result<bool, AllocError> {
    let core = call(alloc)?;
    let built = obligations(alloc, &core)?;
    let expected = [
        (Kind::Postcondition, 2, 0),
        (Kind::Frame, 2, 0),
        (Kind::Postcondition, 3, 0),
        (Kind::Frame, 3, 0),
        (Kind::Precondition, 7, 1),
        (Kind::Assert, 8, 1),
        (Kind::Frame, 9, 1),
    ];
    Ok(are(&built.list, &expected) && begin_anew(&built.list))
}

fn no_body_has_no_obligation(alloc: Global) -> Result<bool, AllocError> {
    let core = of_bodies(alloc, Vec::new(alloc), BodyId(0))?;
    let built = obligations(alloc, &core)?;
    Ok(built.list.is_empty())
}

#[test]
fn obligations_are_listed(rt: HostRuntime) -> Result<(), Fail> {
    let asserts = asserts_are_obligations(rt.alloc())?;
    let chains = long_chains_are_flat(rt.alloc())?;
    let calls = calls_and_returns_have_obligations(rt.alloc())?;
    let none = no_body_has_no_obligation(rt.alloc())?;
    assert_eq!(rt; [asserts, chains, calls, none], [true, true, true, true]);
    Ok(())
}
