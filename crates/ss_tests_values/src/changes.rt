// Changes of a store of a program with one class, which has a field.

ghost use Rattle.ss_core.specs.View.{classes};
ghost use Rattle.ss_core.specs.Chain.{IsWithinLimits};

use crate::part::{INT_ARRAY, PART, V, program};
use ss_core::{Core, Kind};
use ss_store::{Before, NewStop, Store};
use ss_store_rules::{Refused, Value};
use std::alloc::{AllocError, Global};
use std::test::Fail;

fn refused(kind: Kind) -> Result<(), Refused> {
    Err(Refused { kind })
}

/// A change of the store, with what it is made of.
#[derive(Clone, Copy, Debug)]
enum Step {
    Pack(Value),
    Unpack(Value),
    Write(Value, i32),
    WriteElement(Value, i32),
    Capture(u32, u32),
    Join(u32, u32),
}

fn take(s: &mut Store, c: &Core, step: Step) -> Result<(), Refused>
    requires { IsWithinLimits (classes c.now.classes) }
{
    match step {
        Step::Pack(o) => s.pack(c, o, PART),
        Step::Unpack(o) => s.unpack(c, o, PART),
        Step::Write(o, n) => s.write(c, o, V, Value::Int(n)),
        Step::WriteElement(a, i) => s.write_element(a, i, Value::Int(7)),
        Step::Capture(o, e) => s.capture(o, PART, e),
        Step::Join(o, e) => s.join_peer(o, e),
    }
}

/// A store with room for `n` objects, and then with three of them.
fn three(alloc: Global, c: &Core, n: usize) -> Result<Store, AllocError>
    requires { IsWithinLimits (classes c.now.classes) }
{
    let mut s = Store::new(alloc);
    s.reserve(n)?;
    s.new_object(&c.classes, PART)?;
    s.new_object(&c.classes, PART)?;
    s.new_object(&c.classes, PART)?;
    Ok(s)
}

// The first of the steps that is answered otherwise.
fn first_other(s: &mut Store, c: &Core, rows: &[(Step, Result<(), Refused>)]) -> Option<usize>
    requires { IsWithinLimits (classes c.now.classes) }
{
    for (number, (step, want)) in rows.iter().enumerate() {
        if take(s, c, *step) != *want {
            return Some(number);
        }
    }
    None
}

// A store with one object, whose number is 0.
fn one(alloc: Global, c: &Core) -> Result<Store, AllocError>
    requires { IsWithinLimits (classes c.now.classes) }
{
    let mut s = Store::new(alloc);
    if s.new_object(&c.classes, PART)? == 0 {
        Ok(s)
    } else {
        Err(AllocError)
    }
}

fn levels_follow_packs_and_unpacks(alloc: Global, c: &Core) -> Result<bool, AllocError>
    requires { IsWithinLimits (classes c.now.classes) }
{
    let mut s = one(alloc, c)?;
    let part = Value::Obj(0);
    let other = first_other(
        &mut s,
        c,
        &[
            (Step::Pack(part), Ok(())),
            (Step::Pack(part), refused(Kind::PackLevel)),
            (Step::Write(part, 3), refused(Kind::WriteLevel)),
            (Step::Unpack(part), Ok(())),
            (Step::Unpack(part), refused(Kind::UnpackLevel)),
            (Step::Unpack(Value::Null), refused(Kind::Null)),
        ],
    );
    Ok(other.is_none())
}

fn a_field_is_0_until_it_is_written(alloc: Global, c: &Core) -> Result<bool, AllocError>
    requires { IsWithinLimits (classes c.now.classes) }
{
    let mut s = three(alloc, c, 0)?;
    let is_written = take(&mut s, c, Step::Write(Value::Obj(1), 5)).is_ok();
    Ok(
        is_written
            && s.field(0, V) == Value::Int(0)
            && s.field(1, V) == Value::Int(5)
            && s.field(2, V) == Value::Int(0),
    )
}

fn there_is_room_for_what_is_reserved(alloc: Global, c: &Core) -> Result<bool, AllocError>
    requires { IsWithinLimits (classes c.now.classes) }
{
    let mut s = Store::new(alloc);
    s.reserve(3)?;
    let first = s.new_object(&c.classes, PART)?;
    let second = s.new_object(&c.classes, PART)?;
    let third = s.new_object(&c.classes, PART)?;
    Ok(first == 0 && second == 1 && third == 2)
}

fn groups_get_owners(alloc: Global, c: &Core) -> Result<bool, AllocError>
    requires { IsWithinLimits (classes c.now.classes) }
{
    let mut s = three(alloc, c, 0)?;
    let other = first_other(
        &mut s,
        c,
        &[
            (Step::Join(1, 2), Ok(())),
            (Step::Capture(0, 1), Ok(())),
            (Step::Capture(0, 1), Ok(())),
            (Step::Capture(2, 1), refused(Kind::RepOwner)),
            (Step::Join(0, 1), Ok(())),
            (Step::Pack(Value::Obj(0)), refused(Kind::PackOwned)),
        ],
    );
    Ok(other.is_none() && s.owner(0) == (0, 4) && s.owner(1) == (0, 4) && s.owner(2) == (0, 4))
}

// A store with an array of two numbers, which is asked for twice: first with a length below 0.
fn array(alloc: Global) -> Result<Store, AllocError> {
    let mut s = Store::new(alloc);
    let Err(NewStop::NegativeLength) = s.new_array(INT_ARRAY, -1) else {
        return Err(AllocError);
    };
    if s.new_array(INT_ARRAY, 2) != Ok(0) {
        return Err(AllocError);
    }
    Ok(s)
}

fn arrays_have_their_defaults(alloc: Global, c: &Core) -> Result<bool, AllocError>
    requires { IsWithinLimits (classes c.now.classes) }
{
    let mut s = array(alloc)?;
    let a = Value::Obj(0);
    let other = first_other(
        &mut s,
        c,
        &[
            (Step::WriteElement(a, 1), Ok(())),
            (Step::WriteElement(a, 2), refused(Kind::Index)),
            (Step::WriteElement(a, -1), refused(Kind::Index)),
        ],
    );
    Ok(other.is_none() && s.element(0, 0) == Value::Int(0) && s.element(0, 1) == Value::Int(7))
}

fn a_copy_has_the_same_objects(alloc: Global, c: &Core) -> Result<bool, AllocError>
    requires { IsWithinLimits (classes c.now.classes) }
{
    let mut s = three(alloc, c, 2)?;
    s.set_ready(c, 1);
    let copy = s.copy()?;
    Ok(copy.class_of(2) == PART && !copy.allocated(3))
}

fn held(alloc: Global, c: &Core) -> Result<[bool; 6], AllocError>
    requires { IsWithinLimits (classes c.now.classes) }
{
    let levels = levels_follow_packs_and_unpacks(alloc, c)?;
    let fields = a_field_is_0_until_it_is_written(alloc, c)?;
    let room = there_is_room_for_what_is_reserved(alloc, c)?;
    let groups = groups_get_owners(alloc, c)?;
    let arrays = arrays_have_their_defaults(alloc, c)?;
    let copies = a_copy_has_the_same_objects(alloc, c)?;
    Ok([levels, fields, room, groups, arrays, copies])
}

#[test]
fn changes_are_as_they_should(rt: HostRuntime) -> Result<(), Fail> {
    let c = program(rt.alloc())?;
    let held = held(rt.alloc(), &c)?;
    assert_eq!(rt; held, [true, true, true, true, true, true]);
    Ok(())
}
