// Trees from their parts.

ghost use Rattle.std.specs.Prelude.{◌≡◌, true, false, map, IfOk, option_map};
ghost use Rattle.ss_ast.specs.Expressions.{expr_tree, type_tree, name_tree};
ghost use Rattle.ss_ast.specs.Statements.{declarator_tree, for_init_tree, simple_tree, stmt_tree, block_tree, BlockOf, InBlock, IfOf, IfElseOf, WhileOf, ForOf, ExposeOf, ReturnOf, AssertOf, AssumeOf, EmptyOf, AssignOf, StepOf, AloneOf};
ghost use Rattle.ss_grammar_expressions.specs.Grammar.{type_of, head_of};
ghost use Rattle.ss_grammar_statements.specs.Grammar.{declared, declares, statement_of};
ghost use Rattle.ss_grammar_statements.specs.Parser.{initial, invariants, other, heading, block};
ghost use Rattle.ss_parser_statement_trees.specs.View.{value_of, init_of, step_of, listed_of, heading_of};

use ss_ast::{
    AssignOperator, Block, Declaration, Declarator, Expr, ForInit, Name, Simple, StepOperator,
    Stmt, TypeName, TypeRef,
};
use ss_core::Place;
use std::alloc::{AllocError, Global};

/// The statements of a block, and the place of its `}`.
#[derive(Drop)]
pub struct StmtList {
    pub statements: Vec<Stmt>,
    pub end: Place,
}

/// What stands in the heading of a `for`.
#[derive(Drop)]
pub struct Heading {
    pub first: Option<Box<ForInit>>,
    pub test: Option<Box<Expr>>,
    pub step: Option<Box<Simple>>,
}

/// The invariants and the body of a loop.
#[derive(Drop)]
pub struct Guarded {
    pub invariants: Vec<Expr>,
    pub body: Box<Stmt>,
}

/// The statement in a box.
pub fn boxed(alloc: Global, stmt: Stmt) -> Result<Box<Stmt>, AllocError>
    ensures { IfOk result (λ s. s.value ≡ stmt) }
{
    Ok(Box::new(alloc, stmt)?)
}

// The expression out of its box, where there is one.
fn value_in(value: Option<Box<Expr>>) -> Option<Expr>
    ensures { option_map expr_tree result ≡ value_of value }
{
    match value {
        Some(value) => Some(Box::into_inner(value)),
        None => None,
    }
}

// The beginning of a `for` out of its box, where there is one.
fn init_in(init: Option<Box<ForInit>>) -> Option<ForInit>
    ensures { option_map for_init_tree result ≡ init_of init }
{
    match init {
        Some(init) => Some(Box::into_inner(init)),
        None => None,
    }
}

// The step of a `for` out of its box, where there is one.
fn step_in(step: Option<Box<Simple>>) -> Option<Simple>
    ensures { option_map simple_tree result ≡ step_of step }
{
    match step {
        Some(step) => Some(Box::into_inner(step)),
        None => None,
    }
}

/// `x = e`, or `x` alone.
pub fn declarator(name: Name, initial: Option<Box<Expr>>) -> Declarator
    ensures { declarator_tree result ≡ declared (name_tree name) (value_of initial) }
{
    declarator_of(name, value_in(initial))
}

// `x = e`, or `x` alone, from an expression out of its box.
fn declarator_of(name: Name, initial: Option<Expr>) -> Declarator
    ensures { declarator_tree result ≡ declared (name_tree name) (option_map expr_tree initial) }
{
    Declarator { name, initial }
}

/// `a = e`, `a += e` and their kind.
pub fn assign(path: Box<Expr>, operator: AssignOperator, value: Box<Expr>) -> Simple
    ensures { simple_tree result ≡ AssignOf (expr_tree path.value) operator (expr_tree value.value) }
{
    assign_of(Box::into_inner(path), operator, Box::into_inner(value))
}

// `a = e`, from expressions out of their boxes.
fn assign_of(path: Expr, operator: AssignOperator, value: Expr) -> Simple
    ensures { simple_tree result ≡ AssignOf (expr_tree path) operator (expr_tree value) }
{
    Simple::Assign(path, operator, value)
}

/// `a++` and `a--`
pub fn step(path: Box<Expr>, operator: StepOperator) -> Simple
    ensures { simple_tree result ≡ StepOf (expr_tree path.value) operator }
{
    step_of_path(Box::into_inner(path), operator)
}

// `a++` and `a--`, from an expression out of its box.
fn step_of_path(path: Expr, operator: StepOperator) -> Simple
    ensures { simple_tree result ≡ StepOf (expr_tree path) operator }
{
    Simple::Step(path, operator)
}

/// A path alone.
pub fn alone(path: Box<Expr>) -> Simple
    ensures { simple_tree result ≡ AloneOf (expr_tree path.value) }
{
    alone_of(Box::into_inner(path))
}

// A path alone, from an expression out of its box.
fn alone_of(path: Expr) -> Simple
    ensures { simple_tree result ≡ AloneOf (expr_tree path) }
{
    Simple::Alone(path)
}

/// `T x = e, y`
pub fn declaration(ty: TypeRef, declarators: Vec<Declarator>) -> ForInit
    ensures { for_init_tree result ≡ declares (type_tree ty) (map declarator_tree declarators.items) }
{
    ForInit::Declare(Declaration { ty, declarators })
}

/// The type of this name, which no `[]` follows.
pub fn plain_class(name: Name, non_null: bool) -> TypeRef
    ensures { type_tree result ≡ type_of (head_of (name_tree name)) false non_null }
{
    TypeRef {
        place: name.place,
        name: TypeName::Class(name.text),
        is_array: false,
        non_null,
    }
}

/// The type of an array of this name.
pub fn array_class(name: Name, non_null: bool) -> TypeRef
    ensures { type_tree result ≡ type_of (head_of (name_tree name)) true non_null }
{
    TypeRef {
        place: name.place,
        name: TypeName::Class(name.text),
        is_array: true,
        non_null,
    }
}

/// A declaration or a simple statement as a statement.
pub fn statement(first: ForInit) -> Stmt
    ensures { stmt_tree result ≡ statement_of (for_init_tree first) }
{
    match first {
        ForInit::Declare(declaration) => Stmt::Declare(declaration),
        ForInit::Simple(simple) => Stmt::Simple(simple),
    }
}

/// `{ .. }`
pub fn block(place: Place, list: StmtList) -> Block
    ensures { block_tree result ≡ (let l = listed_of list in BlockOf place l.statements l.end) }
{
    Block {
        place,
        statements: list.statements,
        end: list.end,
    }
}

/// A block as a statement.
pub fn in_block(block: Block) -> Stmt
    ensures { stmt_tree result ≡ InBlock (block_tree block) }
{
    Stmt::Block(block)
}

// `if (e) a`.
fn if_boxed(place: Place, test: Expr, side: Box<Stmt>) -> Stmt
    ensures { stmt_tree result ≡ IfOf place (expr_tree test) (stmt_tree side.value) }
{
    Stmt::If(place, test, side, None)
}

/// `if (e) a`
pub fn if_alone(
    alloc: Global,
    place: Place,
    test: Box<Expr>,
    side: Box<Stmt>,
) -> Result<Box<Stmt>, AllocError>
    ensures { IfOk result (λ s. stmt_tree s.value ≡ IfOf place (expr_tree test.value) (stmt_tree side.value)) }
{
    boxed(alloc, if_boxed(place, Box::into_inner(test), side))
}

// `if (e) a else b`.
fn if_else_boxed(place: Place, test: Expr, side: Box<Stmt>, other: Box<Stmt>) -> Stmt
    ensures { stmt_tree result ≡ IfElseOf place (expr_tree test) (stmt_tree side.value) (stmt_tree other.value) }
{
    Stmt::If(place, test, side, Some(other))
}

/// `if (e) a else b`
pub fn if_else(
    alloc: Global,
    place: Place,
    test: Box<Expr>,
    side: Box<Stmt>,
    other: Box<Stmt>,
) -> Result<Box<Stmt>, AllocError>
    ensures { IfOk result (λ s. stmt_tree s.value ≡ IfElseOf place (expr_tree test.value) (stmt_tree side.value) (stmt_tree other.value)) }
{
    boxed(
        alloc,
        if_else_boxed(place, Box::into_inner(test), side, other),
    )
}

// `while (e) invariant .. a`.
fn while_boxed(place: Place, test: Expr, invariants: Vec<Expr>, body: Box<Stmt>) -> Stmt
    ensures { stmt_tree result ≡ WhileOf place (expr_tree test) (map expr_tree invariants.items) (stmt_tree body.value) }
{
    Stmt::While(place, test, invariants, body)
}

/// `while (e) invariant .. a`
pub fn while_loop(
    alloc: Global,
    place: Place,
    test: Box<Expr>,
    guarded: Guarded,
) -> Result<Box<Stmt>, AllocError>
    ensures { IfOk result (λ s. stmt_tree s.value ≡ WhileOf place (expr_tree test.value) (map expr_tree guarded.invariants.items) (stmt_tree guarded.body.value)) }
{
    let Guarded { invariants, body } = guarded;
    boxed(
        alloc,
        while_boxed(place, Box::into_inner(test), invariants, body),
    )
}

// `for (a; e; b) invariant .. c`, from parts out of their boxes.
fn for_parts(
    place: Place,
    first: Option<ForInit>,
    test: Option<Expr>,
    step: Option<Simple>,
    guarded: Guarded,
) -> Stmt
    ensures { stmt_tree result ≡ ForOf place (option_map for_init_tree first) (option_map expr_tree test) (option_map simple_tree step) (map expr_tree guarded.invariants.items) (stmt_tree guarded.body.value) }
{
    let Guarded { invariants, body } = guarded;
    Stmt::For {
        place,
        first,
        test,
        step,
        invariants,
        body,
    }
}

// `for (a; e; b) invariant .. c`.
fn for_stmt(place: Place, heading: Heading, guarded: Guarded) -> Stmt
    ensures { stmt_tree result ≡ (let h = heading_of heading in ForOf place h.first h.test h.step (map expr_tree guarded.invariants.items) (stmt_tree guarded.body.value)) }
{
    let Heading { first, test, step } = heading;
    for_parts(
        place,
        init_in(first),
        value_in(test),
        step_in(step),
        guarded,
    )
}

/// `for (a; e; b) invariant .. c`
pub fn for_loop(
    alloc: Global,
    place: Place,
    heading: Heading,
    guarded: Guarded,
) -> Result<Box<Stmt>, AllocError>
    ensures { IfOk result (λ s. stmt_tree s.value ≡ (let h = heading_of heading in ForOf place h.first h.test h.step (map expr_tree guarded.invariants.items) (stmt_tree guarded.body.value))) }
{
    boxed(alloc, for_stmt(place, heading, guarded))
}

/// `expose (e at T) { .. }`
pub fn expose(
    alloc: Global,
    place: Place,
    object: Box<Expr>,
    level: Option<Name>,
    body: Block,
) -> Result<Box<Stmt>, AllocError>
    ensures { IfOk result (λ s. stmt_tree s.value ≡ ExposeOf place (expr_tree object.value) (option_map name_tree level) (block_tree body)) }
{
    boxed(
        alloc,
        expose_of(place, Box::into_inner(object), level, body),
    )
}

// `expose (e at T) { .. }`, from an expression out of its box.
fn expose_of(place: Place, object: Expr, level: Option<Name>, body: Block) -> Stmt
    ensures { stmt_tree result ≡ ExposeOf place (expr_tree object) (option_map name_tree level) (block_tree body) }
{
    Stmt::Expose(place, object, level, body)
}

/// `return e;`
pub fn returns(
    alloc: Global,
    place: Place,
    value: Option<Box<Expr>>,
) -> Result<Box<Stmt>, AllocError>
    ensures { IfOk result (λ s. stmt_tree s.value ≡ ReturnOf place (value_of value)) }
{
    boxed(alloc, returns_of(place, value_in(value)))
}

// `return e;`, from an expression out of its box.
fn returns_of(place: Place, value: Option<Expr>) -> Stmt
    ensures { stmt_tree result ≡ ReturnOf place (option_map expr_tree value) }
{
    Stmt::Return(place, value)
}

/// `assert e;`
pub fn asserts(alloc: Global, place: Place, condition: Box<Expr>) -> Result<Box<Stmt>, AllocError>
    ensures { IfOk result (λ s. stmt_tree s.value ≡ AssertOf place (expr_tree condition.value)) }
{
    boxed(alloc, asserts_of(place, Box::into_inner(condition)))
}

// `assert e;`, from an expression out of its box.
fn asserts_of(place: Place, condition: Expr) -> Stmt
    ensures { stmt_tree result ≡ AssertOf place (expr_tree condition) }
{
    Stmt::Assert(place, condition)
}

/// `assume e;`
pub fn assumes(alloc: Global, place: Place, condition: Box<Expr>) -> Result<Box<Stmt>, AllocError>
    ensures { IfOk result (λ s. stmt_tree s.value ≡ AssumeOf place (expr_tree condition.value)) }
{
    boxed(alloc, assumes_of(place, Box::into_inner(condition)))
}

// `assume e;`, from an expression out of its box.
fn assumes_of(place: Place, condition: Expr) -> Stmt
    ensures { stmt_tree result ≡ AssumeOf place (expr_tree condition) }
{
    Stmt::Assume(place, condition)
}

/// `;`
pub fn empty(place: Place) -> Stmt
    ensures { stmt_tree result ≡ EmptyOf place }
{
    Stmt::Empty(place)
}
