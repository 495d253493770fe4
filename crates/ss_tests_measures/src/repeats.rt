// Repeats changes of a store and evaluations, for `bench/run`: `writes` writes a field, and `evaluations` evaluates a condition. Where many objects
// live, `calls` enters and leaves bodies that write a field, `turns` goes round a loop over an array, and `frames` enters bodies one from the other.

ghost use Rattle.ss_core.specs.View.{classes};
ghost use Rattle.ss_core.specs.Chain.{IsWithinLimits};

use crate::calls::{call_all, enter_all, turn_all};
use crate::part::{PART, V, condition, program};
use ss_core::{Core, Expr};
use ss_store::Store;
use ss_store_rules::Value;
use std::alloc::{AllocError, Global};
use std::io;

/// Writes the numbers below `count` to the field of the object at 0, one after the other.
fn write_all(c: &Core, s: &mut Store, count: i32) -> usize
    requires { IsWithinLimits (classes c.now.classes) }
{
    let mut done = 0usize;
    for n in 0..count {
        if s.write(c, Value::Obj(0), V, Value::Int(n)).is_ok() {
            done = done.saturating_add(1);
        }
    }
    done
}

/// Evaluates the condition for each number below `count`.
fn evaluate_all(c: &Core, s: &Store, e: &Expr, count: i32) -> usize
    requires { IsWithinLimits (classes c.now.classes) }
{
    let mut done = 0usize;
    for n in 0..count {
        if s.eval(c, s, e, &[Value::Obj(0), Value::Int(n)]) == Ok(Value::Bool(true)) {
            done = done.saturating_add(1);
        }
    }
    done
}

// A store with one object.
fn with_part(alloc: Global, c: &Core) -> Result<Store, AllocError>
    requires { IsWithinLimits (classes c.now.classes) }
{
    let mut s = Store::new(alloc);
    s.new_object(&c.classes, PART)?;
    Ok(s)
}

fn writes(alloc: Global, c: &Core, count: i32) -> Result<usize, AllocError>
    requires { IsWithinLimits (classes c.now.classes) }
{
    let mut s = with_part(alloc, c)?;
    Ok(write_all(c, &mut s, count))
}

fn evaluations(alloc: Global, c: &Core, count: i32) -> Result<usize, AllocError>
    requires { IsWithinLimits (classes c.now.classes) }
{
    let e = condition(alloc)?;
    let s = with_part(alloc, c)?;
    Ok(evaluate_all(c, &s, &e, count))
}

// How often it was done.
fn done(alloc: Global, name: &str, live: i32, count: i32) -> Result<usize, AllocError> {
    let c = program(alloc)?;
    match name {
        "writes" => writes(alloc, &c, count),
        "evaluations" => evaluations(alloc, &c, count),
        "calls" => call_all(alloc, &c, live, count),
        "turns" => turn_all(alloc, &c, live, count),
        "frames" => enter_all(alloc, &c, count),
        _ => Ok(0),
    }
}

/// Repeats what the word names so often, where so many objects live, and prints how often it was done.
pub fn repeat<R: Print + AllocGlobal>(rt: &R, name: &str, live: i32, count: i32) -> io::Result<()> {
    let done = done(rt.alloc(), name, live, count)?;
    println!(rt; "{done} {name}")
}
