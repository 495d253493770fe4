// The way between two terms of one class.

ghost use Rattle.std.specs.Prelude.{◌≡◌, ◌≢◌, ◌+◌, ◌<◌, ◌∷◌, ◌++◌, [], Some, slice_get, IfOk, OnOk};
ghost use Rattle.ss_equality_rules.specs.Names as names;
ghost use Rattle.ss_equality_rules.specs.Names.{name};
ghost use Rattle.ss_equality_rules.specs.Reasons.{IsJoinedAt};
ghost use Rattle.ss_search_clashes.specs.Ways.{way, AreEnds};
ghost use Rattle.ss_search_clashes.specs.Legs.{leg_way, legs_way, leg_weight, weight, IsLeg, AreLegs};

use crate::ends::{first_end, join_at};
use ss_equality_rules::Join;
use std::alloc::{AllocError, Global};

/// What is still to be gone of a way: from a term to another, or over a join.
#[derive(Clone, Copy, Drop)]
pub(crate) enum Leg {
    Between(usize, usize),
    By(usize),
}

fn renamed(join: Join, class: usize) -> usize
    ensures { result ≡ names.renamed join class }
{
    if class == join.from { join.to } else { class }
}

// The join at which the classes of two different terms became one, and whether the first was in the class that was renamed.
fn joining(joins: &[Join], ends: &[Option<usize>], x: usize, y: usize) -> (usize, bool)
    requires ends { AreEnds joins.now ends.now }
    requires apart { x ≢ y }
    requires same { name joins.now x ≡ name joins.now y }
    ensures { IsJoinedAt joins.now x y result.0 result.1 }
{
    let mut left = x;
    let mut right = y;
    let mut seen = 0;
    while let Some(end) = first_end(joins, ends, left, right) {
        let join = join_at(joins, end);
        let is_left = left == join.from;
        left = renamed(join, left);
        right = renamed(join, right);
        if left == right {
            return (end, is_left);
        }
        seen = end + 1;
    }
    unreachable!()
}

// The way from one term to a join, over it, and to the other term.
fn open_parts(rest: &mut Vec<Leg>, near: Leg, number: usize, far: Leg) -> Result<(), AllocError>
    ensures { OnOk result (rest.new.items ≡ ((rest.old.items ++ far ∷ []) ++ Leg.By number ∷ []) ++ near ∷ []) }
{
    rest.push(far)?;
    rest.push(Leg::By(number))?;
    rest.push(near)?;
    Ok(())
}

// The legs of the way between two terms.
fn part(
    joins: &[Join],
    ends: &[Option<usize>],
    rest: &mut Vec<Leg>,
    x: usize,
    y: usize,
) -> Result<(), AllocError>
    requires ends { AreEnds joins.now ends.now }
    requires same { name joins.now x ≡ name joins.now y }
    requires legs { AreLegs joins.now rest.old.items }
    ensures legs { OnOk result (AreLegs joins.now rest.new.items) }
    ensures way { OnOk result (legs_way joins.now rest.new.items ≡ way joins.now x y ++ legs_way joins.now rest.old.items) }
    ensures less { OnOk result (weight joins.now rest.new.items < weight joins.now rest.old.items + leg_weight joins.now (Leg.Between x y)) }
{
    if x == y {
        return Ok(());
    }
    let (number, is_left) = joining(joins, ends, x, y);
    let join = join_at(joins, number);
    if is_left {
        open_parts(
            rest,
            Leg::Between(x, join.left),
            number,
            Leg::Between(join.right, y),
        )
    } else {
        open_parts(
            rest,
            Leg::Between(x, join.right),
            number,
            Leg::Between(join.left, y),
        )
    }
}

// Goes a leg, or parts it.
fn go(
    joins: &[Join],
    ends: &[Option<usize>],
    rest: &mut Vec<Leg>,
    gone: &mut Vec<usize>,
    leg: Leg,
) -> Result<(), AllocError>
    requires ends { AreEnds joins.now ends.now }
    requires leg { IsLeg joins.now leg }
    requires legs { AreLegs joins.now rest.old.items }
    ensures legs { OnOk result (AreLegs joins.now rest.new.items) }
    ensures way { OnOk result (gone.new.items ++ legs_way joins.now rest.new.items ≡ gone.old.items ++ (leg_way joins.now leg ++ legs_way joins.now rest.old.items)) }
    ensures less { OnOk result (weight joins.now rest.new.items < weight joins.now rest.old.items + leg_weight joins.now leg) }
{
    match leg {
        Leg::Between(x, y) => part(joins, ends, rest, x, y),
        Leg::By(number) => {
            gone.push(number)?;
            Ok(())
        }
    }
}

/// The way between two terms of one class.
pub(crate) fn way(
    alloc: Global,
    joins: &[Join],
    ends: &[Option<usize>],
    x: usize,
    y: usize,
) -> Result<Vec<usize>, AllocError>
    requires ends { AreEnds joins.now ends.now }
    requires same { name joins.now x ≡ name joins.now y }
    ensures { IfOk result (λ v. v.items ≡ way joins.now x y) }
{
    let mut gone = Vec::new(alloc);
    let mut rest = Vec::new(alloc);
    rest.push(Leg::Between(x, y))?;
    while let Some(leg) = rest.pop() {
        go(joins, ends, &mut rest, &mut gone, leg)?;
    }
    Ok(gone)
}
