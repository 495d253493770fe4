// The bodies of each declared class, in a table that is made once.

ghost use Rattle.std.specs.Prelude.{◌≡◌, ℕ, List, [], ◌∷◌, ◌++◌, ◌≢◌, ◌+◌, ◌*◌, map, IfOk, OnOk};
ghost use Rattle.ss_core.specs.View as view;
ghost use Rattle.ss_core.specs.Tree.{BodyTree};
ghost use Rattle.ss_report_core.specs.Groups as grouped;

use ss_core::{Body, ClassId};
use std::alloc::{AllocError, Global};

#[tactic(auto, using(crate::proofs::BodyGroups::no_groups, crate::proofs::BodyGroups::one_more_group))]
fn no_bodies<'a>(alloc: Global, count: usize) -> Result<Vec<Vec<&'a Body>>, AllocError>
    ensures { IfOk result (λ groups. grouped.AreGroups count [] groups.items) }
{
    let mut groups = Vec::new(alloc);
    for _i in 0..count {
        groups.push(Vec::new(alloc))?;
    }
    Ok(groups)
}

// The place of a declared class, of which the number is 4 and twice its place.
fn place_of(t: ClassId) -> Option<usize>
    ensures declared { (k : ℕ) → result ≡ Some k → t.0 ≡ 4 + 2 * k }
    ensures undeclared { result ≡ None → (k : ℕ) → t.0 ≢ 4 + 2 * k }
{
    t.place()
}

// One more body; one of no declared class is left out.
fn add_body<'a>(groups: &mut Vec<Vec<&'a Body>>, body: &'a Body) -> Result<(), AllocError>
    ensures { (count : ℕ) (bs : List BodyTree) → grouped.AreGroups count bs groups.old.items → OnOk result (grouped.AreGroups count (bs ++ view.body body.now ∷ []) groups.new.items) }
{
    let Some(k) = place_of(body.class) else {
        return Ok(());
    };
    if k >= groups.len() {
        return Ok(());
    }
    groups[k].push(body)?;
    Ok(())
}

/// The bodies of each of the declared classes, of which there are so many, in the order of the list.
pub(crate) fn bodies_by_class(
    alloc: Global,
    count: usize,
    bodies: &[Body],
) -> Result<Vec<Vec<&Body>>, AllocError>
    ensures { IfOk result (λ groups. grouped.AreGroups count (map view.body bodies.now) groups.items) }
{
    let mut groups = no_bodies(alloc, count)?;
    for body in bodies {
        add_body(&mut groups, body)?;
    }
    Ok(groups)
}
