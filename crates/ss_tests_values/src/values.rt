// Each kind of check of an expression, with its place.

ghost use Rattle.ss_core.specs.View.{classes};
ghost use Rattle.ss_core.specs.Chain.{IsWithinLimits};

use crate::part::{INT_ARRAY, PART, V, program};
use ss_core::{
    ClassId, Core, Expr, FieldId, Kind, Link, Operator, OwnerTest, Place, Quantifier, StateWord,
    Step,
};
use ss_store::Store;
use ss_store_rules::{Undefined, Value};
use std::alloc::{AllocError, Global};
use std::test::Fail;

fn at(column: u32) -> Place {
    Place { line: 1, column }
}

// At entry there is an object whose field is 5.
fn store_at_entry(alloc: Global, c: &Core) -> Result<Store, AllocError>
    requires { IsWithinLimits (classes c.now.classes) }
{
    let mut s = Store::new(alloc);
    s.new_object(&c.classes, PART)?;
    if s.write(c, Value::Obj(0), V, Value::Int(5)).is_ok() {
        Ok(s)
    } else {
        Err(AllocError)
    }
}

// Now its field is 6, and there are another object of its group and the array of 7 and 8.
fn store_now(alloc: Global, c: &Core) -> Result<Store, AllocError>
    requires { IsWithinLimits (classes c.now.classes) }
{
    let mut s = Store::new(alloc);
    s.new_object(&c.classes, PART)?;
    s.new_object(&c.classes, PART)?;
    let is_made = s.new_array(INT_ARRAY, 2).is_ok();
    let part = Value::Obj(0);
    let array = Value::Obj(2);
    let is_changed = s.write(c, part, V, Value::Int(6)).is_ok()
        && s.write_element(array, 0, Value::Int(7)).is_ok()
        && s.write_element(array, 1, Value::Int(8)).is_ok()
        && s.join_peer(1, 0).is_ok()
        && s.pack(c, part, PART).is_ok();
    if is_made && is_changed {
        Ok(s)
    } else {
        Err(AllocError)
    }
}

fn stores(alloc: Global, c: &Core) -> Result<(Store, Store), AllocError>
    requires { IsWithinLimits (classes c.now.classes) }
{
    let entry = store_at_entry(alloc, c)?;
    let now = store_now(alloc, c)?;
    Ok((entry, now))
}

// The value where the locals are the object, the array, the new object, null, and the least number.
fn value(alloc: Global, e: &Expr) -> Result<Result<Value, Undefined>, AllocError> {
    let c = program(alloc)?;
    let (entry, now) = stores(alloc, &c)?;
    let locals = [
        Value::Obj(0),
        Value::Obj(2),
        Value::Obj(1),
        Value::Null,
        Value::Int(i32::MIN),
    ];
    Ok(now.eval(&c, &entry, e, &locals))
}

fn local(x: usize) -> Expr {
    Expr::Local(at(1), x)
}

fn number(n: i32) -> Expr {
    Expr::Int(at(2), n)
}

fn operation(
    alloc: Global,
    column: u32,
    operator: Operator,
    left: Expr,
    right: Expr,
) -> Result<Expr, AllocError> {
    let first = Box::new(alloc, left)?;
    let links = vec![in alloc; Link::Operation(operator, right)]?;
    Ok(Expr::Chain(at(column), first, links))
}

fn path(alloc: Global, column: u32, first: Expr, step: Step) -> Result<Expr, AllocError> {
    let first = Box::new(alloc, first)?;
    let steps = vec![in alloc; step]?;
    Ok(Expr::Path(at(column), first, steps))
}

fn undefined(kind: Kind, column: u32) -> Result<Value, Undefined> {
    Err(Undefined {
        kind,
        place: at(column),
    })
}

// What is asked of a local.
#[derive(Clone, Copy)]
enum Question {
    Field,
    Element(i32),
    Length,
    // As an object of another class, which may have to be non-null.
    Cast(bool),
    Word(StateWord),
}

fn asked(alloc: Global, column: u32, question: Question, x: usize) -> Result<Expr, AllocError> {
    match question {
        Question::Field => path(alloc, column, local(x), Step::Field(FieldId(0))),
        Question::Element(i) => path(alloc, column, local(x), Step::Element(number(i))),
        Question::Length => path(alloc, column, local(x), Step::Length),
        Question::Cast(non_null) => {
            let of = Box::new(alloc, local(x))?;
            Ok(Expr::Cast(at(column), ClassId(6), non_null, of))
        }
        Question::Word(word) => {
            let of = Box::new(alloc, local(x))?;
            Ok(Expr::State(at(column), word, of))
        }
    }
}

// The value at entry.
fn old_value(alloc: Global, e: Expr) -> Result<Result<Value, Undefined>, AllocError> {
    let at_entry = Expr::Old(at(3), Box::new(alloc, e)?);
    value(alloc, &at_entry)
}

// The value now, or at entry.
fn answer(
    alloc: Global,
    is_old: bool,
    column: u32,
    question: Question,
    x: usize,
) -> Result<Result<Value, Undefined>, AllocError> {
    let e = asked(alloc, column, question, x)?;
    if is_old {
        old_value(alloc, e)
    } else {
        value(alloc, &e)
    }
}

#[test]
fn reads_and_lengths(rt: HostRuntime) -> Result<(), Fail> {
    for (is_old, column, question, x, wanted) in [
        (false, 10, Question::Field, 0, Ok(Value::Int(6))),
        (true, 10, Question::Field, 0, Ok(Value::Int(5))),
        (false, 11, Question::Field, 3, undefined(Kind::Null, 11)),
        (true, 12, Question::Field, 2, undefined(Kind::Null, 12)),
        (false, 13, Question::Element(1), 1, Ok(Value::Int(8))),
        (
            false,
            14,
            Question::Element(2),
            1,
            undefined(Kind::Index, 14),
        ),
        (
            false,
            15,
            Question::Element(-1),
            1,
            undefined(Kind::Index, 15),
        ),
        (
            false,
            17,
            Question::Element(0),
            3,
            undefined(Kind::Null, 17),
        ),
        (false, 16, Question::Length, 3, undefined(Kind::Null, 16)),
    ] {
        let found = answer(rt.alloc(), is_old, column, question, x)?;
        assert_eq!(rt; found, wanted);
    }
    Ok(())
}

#[test]
fn casts_and_words(rt: HostRuntime) -> Result<(), Fail> {
    for (is_old, column, question, x, wanted) in [
        (
            false,
            20,
            Question::Cast(false),
            0,
            undefined(Kind::Cast, 20),
        ),
        (false, 21, Question::Cast(false), 3, Ok(Value::Null)),
        (
            false,
            22,
            Question::Cast(true),
            3,
            undefined(Kind::Null, 22),
        ),
        (
            false,
            23,
            Question::Word(StateWord::Consistent),
            0,
            Ok(Value::Bool(true)),
        ),
        (
            false,
            24,
            Question::Word(StateWord::Committed),
            3,
            undefined(Kind::Null, 24),
        ),
        (
            true,
            25,
            Question::Word(StateWord::New),
            2,
            Ok(Value::Bool(true)),
        ),
        (
            true,
            26,
            Question::Word(StateWord::Level(ClassId(4))),
            2,
            undefined(Kind::Null, 26),
        ),
    ] {
        let found = answer(rt.alloc(), is_old, column, question, x)?;
        assert_eq!(rt; found, wanted);
    }
    Ok(())
}

// The value of an operation on two numbers, at column 10.
fn operated(
    alloc: Global,
    operator: Operator,
    left: i32,
    right: i32,
) -> Result<Result<Value, Undefined>, AllocError> {
    let e = operation(alloc, 10, operator, number(left), number(right))?;
    value(alloc, &e)
}

#[test]
fn arithmetic(rt: HostRuntime) -> Result<(), Fail> {
    for (operator, left, right, wanted) in [
        (Operator::Add, i32::MAX, 1, undefined(Kind::Overflow, 10)),
        (
            Operator::Subtract,
            i32::MIN,
            1,
            undefined(Kind::Overflow, 10),
        ),
        (
            Operator::Multiply,
            65536,
            32768,
            undefined(Kind::Overflow, 10),
        ),
        (
            Operator::Divide,
            i32::MIN,
            -1,
            undefined(Kind::Overflow, 10),
        ),
        (
            Operator::Remainder,
            i32::MIN,
            -1,
            undefined(Kind::Overflow, 10),
        ),
        (Operator::Divide, 1, 0, undefined(Kind::ZeroDivisor, 10)),
        (Operator::Remainder, 1, 0, undefined(Kind::ZeroDivisor, 10)),
        (Operator::Divide, -7, 2, Ok(Value::Int(-3))),
        (Operator::Remainder, -7, 2, Ok(Value::Int(-1))),
    ] {
        let found = operated(rt.alloc(), operator, left, right)?;
        assert_eq!(rt; found, wanted);
    }
    Ok(())
}

// The value of an owner word about two locals.
fn owner_word(
    alloc: Global,
    column: u32,
    test: OwnerTest,
    left: usize,
    right: usize,
) -> Result<Result<Value, Undefined>, AllocError> {
    let first = Box::new(alloc, local(left))?;
    let second = Box::new(alloc, local(right))?;
    value(alloc, &Expr::Owners(at(column), test, first, second))
}

#[test]
fn owners(rt: HostRuntime) -> Result<(), Fail> {
    for (column, test, left, right, wanted) in [
        (10, OwnerTest::Same, 0, 1, Ok(Value::Bool(false))),
        (11, OwnerTest::Same, 0, 2, Ok(Value::Bool(true))),
        (12, OwnerTest::Same, 3, 0, undefined(Kind::Null, 12)),
        (13, OwnerTest::Same, 0, 3, undefined(Kind::Null, 13)),
        (
            14,
            OwnerTest::Is(ClassId(4)),
            0,
            3,
            undefined(Kind::Null, 14),
        ),
    ] {
        let found = owner_word(rt.alloc(), column, test, left, right)?;
        assert_eq!(rt; found, wanted);
    }
    Ok(())
}

// `false && null.Length`
fn stopped(alloc: Global) -> Result<Expr, AllocError> {
    let failing = path(alloc, 10, local(3), Step::Length)?;
    operation(alloc, 11, Operator::And, Expr::Bool(at(1), false), failing)
}

// `1 < 1 / (1 - i)`, which has no value at 1.
fn member(alloc: Global) -> Result<Expr, AllocError> {
    let difference = operation(alloc, 12, Operator::Subtract, number(1), local(5))?;
    let quotient = operation(alloc, 13, Operator::Divide, number(1), difference)?;
    operation(alloc, 14, Operator::Less, number(1), quotient)
}

// `forall{int i in (0: 2); 1 < 1 / (1 - i)}`
fn quantified(alloc: Global) -> Result<Expr, AllocError> {
    let all = Box::new(alloc, member(alloc)?)?;
    let name = String::from_str(alloc, "i")?;
    let low = Box::new(alloc, number(0))?;
    let high = Box::new(alloc, number(2))?;
    Ok(Expr::Quantified(at(15), Quantifier::Forall, name, low, high, all))
}

// The values of these two, and of the least number with its sign turned.
fn three(alloc: Global) -> Result<[Result<Value, Undefined>; 3], AllocError> {
    let stopped = value(alloc, &stopped(alloc)?)?;
    let all = value(alloc, &quantified(alloc)?)?;
    let least = Box::new(alloc, local(4))?;
    let negated = value(alloc, &Expr::Negate(at(11), least))?;
    Ok([stopped, all, negated])
}

#[test]
fn stops_quantifiers_and_signs(rt: HostRuntime) -> Result<(), Fail> {
    let found = three(rt.alloc())?;
    let wanted = [
        Ok(Value::Bool(false)),
        undefined(Kind::ZeroDivisor, 13),
        undefined(Kind::Overflow, 11),
    ];
    assert_eq!(rt; found, wanted);
    Ok(())
}
