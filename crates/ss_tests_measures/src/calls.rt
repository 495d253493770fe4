// Calls, turns of loops and frames over the stores of a run.

ghost use Rattle.ss_core.specs.View.{classes};
ghost use Rattle.ss_core.specs.Chain.{IsWithinLimits};

use crate::part::{PART, V, local};
use ss_core::{Body, BodyFlags, ClassId, Core, Modifies, Place};
use ss_machine_stores::Stores;
use ss_store_rules::Value;
use std::alloc::{AllocError, Global};

/// A static method that changes what the term names.
fn body(alloc: Global, term: Modifies) -> Result<Body, AllocError> {
    Ok(Body {
        class: PART,
        name: String::from_str(alloc, "Change")?,
        params: Vec::new(alloc),
        locals: Vec::new(alloc),
        result: None,
        entry: Vec::new(alloc),
        exit: Vec::new(alloc),
        named: vec![in alloc; term]?,
        flags: BodyFlags {
            is_static: true,
            pure: false,
            ctor: false,
            delayed: false,
            wrapper: false,
        },
        code: Vec::new(alloc),
        place: Place { line: 1, column: 1 },
    })
}

/// A run with so many arrays of one element.
fn with_arrays(alloc: Global, live: i32) -> Result<Stores, AllocError> {
    let mut s = Stores::start(alloc, &[])?;
    for _i in 0..live {
        if s.new_array(ClassId(1), 1).is_err() {
            return Err(AllocError);
        }
    }
    Ok(s)
}

/// Whether a body is entered, writes the field, and is left with its frame condition kept.
fn call(c: &Core, s: &mut Stores, b: &Body, part: u32, n: i32) -> bool
    requires { IsWithinLimits (classes c.now.classes) }
{
    let entered = s.enter().is_ok();
    let written = s.write(c, Value::Obj(part), V, Value::Int(n)).is_ok();
    let kept = s.is_kept(c, b, &[Value::Obj(part)], &[]) == Ok(true);
    s.leave();
    entered && written && kept
}

/// Whether the element is written, and the frame condition of the running body holds after it.
fn turn(c: &Core, s: &mut Stores, b: &Body, array: u32, n: i32) -> bool
    requires { IsWithinLimits (classes c.now.classes) }
{
    let written = s.write_element(Value::Obj(array), n, Value::Int(n)).is_ok();
    written && s.is_kept(c, b, &[Value::Obj(array)], &[]) == Ok(true)
}

// The same with an object, and its number.
fn with_part(alloc: Global, c: &Core, live: i32) -> Result<(Stores, u32), AllocError>
    requires { IsWithinLimits (classes c.now.classes) }
{
    let mut s = with_arrays(alloc, live)?;
    let part = s.new_object(c, PART)?;
    Ok((s, part))
}

/// Calls that each write a field of one object, where so many others live.
pub fn call_all(alloc: Global, c: &Core, live: i32, count: i32) -> Result<usize, AllocError>
    requires { IsWithinLimits (classes c.now.classes) }
{
    let b = body(alloc, Modifies::All(local(0)))?;
    let (mut s, part) = with_part(alloc, c, live)?;
    let mut done = 0usize;
    for n in 0..count {
        if call(c, &mut s, &b, part, n) {
            done = done.saturating_add(1);
        }
    }
    Ok(done)
}

/// Turns of a loop in one body, each of which writes an element of an array of 1,000, where so many others live.
pub fn turn_all(alloc: Global, c: &Core, live: i32, count: i32) -> Result<usize, AllocError>
    requires { IsWithinLimits (classes c.now.classes) }
{
    let b = body(alloc, Modifies::Elements(local(0)))?;
    let mut s = with_arrays(alloc, live)?;
    let Ok(array) = s.new_array(ClassId(1), 1000) else {
        return Err(AllocError);
    };
    s.enter()?;
    let mut done = 0usize;
    for n in 0..count {
        if turn(c, &mut s, &b, array, n % 1000) {
            done = done.saturating_add(1);
        }
    }
    Ok(done)
}

/// Frames one above the other, each of which writes the field of one object.
pub fn enter_all(alloc: Global, c: &Core, count: i32) -> Result<usize, AllocError>
    requires { IsWithinLimits (classes c.now.classes) }
{
    let mut s = Stores::start(alloc, &[])?;
    let part = s.new_object(c, PART)?;
    let mut done = 0usize;
    for n in 0..count {
        s.enter()?;
        if s.write(c, Value::Obj(part), V, Value::Int(n)).is_ok() {
            done = done.saturating_add(1);
        }
    }
    Ok(done)
}
