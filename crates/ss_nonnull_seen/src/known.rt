// What is known along the paths of a body.

ghost use Rattle.std.specs.Prelude.{◌≡◌, Some, IfOk, option_map};
ghost use Rattle.ss_typed.specs.View.{simple_of};
ghost use Rattle.ss_paths_assigned.specs.Codes.{numbers_of};
ghost use Rattle.ss_paths.specs.Sets.{among};
ghost use Rattle.ss_nonnull_rules.specs.NonNull.{knows, has_its_field, known_met};
ghost use Rattle.ss_nonnull_seen.specs.Codes.{known_of, path_of, context_of};
ghost use Rattle.ss_nonnull_seen.specs.Paths.{told, untold, with_fact, with_left, assigned_known, fields_known, with_begun, met_paths, left_by};

use crate::context::NullContext;
use ss_ast::AssignOperator;
use ss_bit_set::BitSet;
use ss_core::FieldId;
use ss_paths_assigned::{Assigned, Numbers};
use ss_typed::TypedSimple;
use std::alloc::AllocError;

/// What is known at a point: which locals aren't null, and which fields of the `this` of a constructor are assigned.
#[derive(Drop)]
pub struct Known {
    pub facts: BitSet,
    pub fields: Assigned,
}

impl Known {
    fn copy(&self) -> Result<Known, AllocError>
        ensures { IfOk result (λ k. known_of k ≡ known_of self.now) }
    {
        let facts = self.facts.copy()?;
        let fields = self.fields.copy()?;
        Ok(Known { facts, fields })
    }

    // These locals aren't null.
    #[tactic(auto, using(ss_bit_set::proofs::All::all_in))]
    fn learn(&mut self, locals: &[usize]) -> Result<(), AllocError>
        ensures { IfOk result (λ u. known_of self.new ≡ told (among locals.now) (known_of self.old)) }
    {
        self.facts.put_all(locals, true)?;
        Ok(())
    }

    // These locals may be null.
    #[tactic(auto, using(ss_bit_set::proofs::All::all_out))]
    fn forget(&mut self, locals: &[usize]) -> Result<(), AllocError>
        ensures { IfOk result (λ u. known_of self.new ≡ untold (among locals.now) (known_of self.old)) }
    {
        self.facts.put_all(locals, false)?;
        Ok(())
    }

    // The local holds a value that isn't null, or one that may be.
    fn put(&mut self, local: usize, non_null: bool) -> Result<(), AllocError>
        ensures { IfOk result (λ u. known_of self.new ≡ with_fact local non_null (known_of self.old)) }
    {
        self.facts.put(local, non_null)?;
        Ok(())
    }

    // The same of what is assigned, where that is a local.
    fn put_left(&mut self, local: Option<usize>, non_null: bool) -> Result<(), AllocError>
        ensures { IfOk result (λ u. known_of self.new ≡ with_left local non_null (known_of self.old)) }
    {
        match local {
            Some(local) => {
                self.put(local, non_null)?;
                Ok(())
            }
            None => Ok(()),
        }
    }

    // After a simple statement, what it does to locals aside.
    fn assign(&mut self, numbers: Numbers, stmt: &TypedSimple) -> Result<(), AllocError>
        ensures { IfOk result (λ u. known_of self.new ≡ fields_known (numbers_of numbers) (simple_of stmt.now) (known_of self.old)) }
    {
        self.fields.assign(numbers, stmt)?;
        Ok(())
    }

    // What the assignment by this operator does to the local.
    fn set_left(
        &mut self,
        operator: AssignOperator,
        local: Option<usize>,
        non_null: bool,
    ) -> Result<(), AllocError>
        ensures { IfOk result (λ u. known_of self.new ≡ assigned_known operator local non_null (known_of self.old)) }
    {
        match operator {
            AssignOperator::Set => {
                self.put_left(local, non_null)?;
                Ok(())
            }
            AssignOperator::Add | AssignOperator::Subtract | AssignOperator::Multiply => Ok(()),
        }
    }

    // After the initializer of the field at this place of the class, where there is one.
    fn begin(&mut self, place: usize, is_begun: bool) -> Result<(), AllocError>
        ensures { IfOk result (λ u. known_of self.new ≡ with_begun place is_begun (known_of self.old)) }
    {
        if is_begun {
            self.fields.own.put(place, true)?;
        }
        Ok(())
    }

    // Where two paths meet.
    fn meet(&mut self, other: &Known)
        ensures { known_of self.new ≡ known_met (known_of self.old) (known_of other.now) }
    {
        self.facts.meet(&other.facts);
        self.fields.meet(&other.fields);
    }
}

/// Whether the local is known not to be null.
pub fn knows(known: &Option<Known>, local: usize) -> bool
    ensures { result ≡ knows (path_of known.now) local }
{
    match known {
        Some(known) => known.facts.has(local),
        None => false,
    }
}

/// Whether the field of `this` has its value.
pub fn has_its_field(context: &NullContext<'_>, known: &Option<Known>, field: FieldId) -> bool
    ensures { result ≡ has_its_field (context_of context.now) (path_of known.now) field.0 }
{
    match known {
        Some(known) => known.fields.has_field(context.numbers, field),
        None => true,
    }
}

fn copy(known: &Option<Known>) -> Result<Option<Known>, AllocError>
    ensures { IfOk result (λ k. path_of k ≡ path_of known.now) }
{
    match known {
        Some(known) => {
            let same = known.copy()?;
            Ok(Some(same))
        }
        None => Ok(None),
    }
}

/// The same, and these locals aren't null.
pub fn learn(known: Option<Known>, locals: &[usize]) -> Result<Option<Known>, AllocError>
    ensures { IfOk result (λ k. path_of k ≡ option_map (told (among locals.now)) (path_of known)) }
{
    match known {
        Some(mut known) => {
            known.learn(locals)?;
            Ok(Some(known))
        }
        None => Ok(None),
    }
}

/// A copy with which these locals aren't null.
pub fn learned(known: &Option<Known>, locals: &[usize]) -> Result<Option<Known>, AllocError>
    ensures { IfOk result (λ k. path_of k ≡ option_map (told (among locals.now)) (path_of known.now)) }
{
    let same = copy(known)?;
    let more = learn(same, locals)?;
    Ok(more)
}

/// The same, and nothing of these locals.
pub fn forget(known: Option<Known>, locals: &[usize]) -> Result<Option<Known>, AllocError>
    ensures { IfOk result (λ k. path_of k ≡ option_map (untold (among locals.now)) (path_of known)) }
{
    match known {
        Some(mut known) => {
            known.forget(locals)?;
            Ok(Some(known))
        }
        None => Ok(None),
    }
}

/// After a declared local that starts with a value that isn't null, or with one that may be.
pub fn declare(
    known: Option<Known>,
    local: usize,
    non_null: bool,
) -> Result<Option<Known>, AllocError>
    ensures { IfOk result (λ k. path_of k ≡ option_map (with_fact local non_null) (path_of known)) }
{
    match known {
        Some(mut known) => {
            known.put(local, non_null)?;
            Ok(Some(known))
        }
        None => Ok(None),
    }
}

/// What an assignment does to a local on its left.
pub fn set_left(
    known: Option<Known>,
    operator: AssignOperator,
    local: Option<usize>,
    non_null: bool,
) -> Result<Option<Known>, AllocError>
    ensures { IfOk result (λ k. path_of k ≡ option_map (assigned_known operator local non_null) (path_of known)) }
{
    match known {
        Some(mut known) => {
            known.set_left(operator, local, non_null)?;
            Ok(Some(known))
        }
        None => Ok(None),
    }
}

/// After a simple statement, what it does to locals aside.
pub fn assign(
    known: Option<Known>,
    numbers: Numbers,
    stmt: &TypedSimple,
) -> Result<Option<Known>, AllocError>
    ensures { IfOk result (λ k. path_of k ≡ option_map (fields_known (numbers_of numbers) (simple_of stmt.now)) (path_of known)) }
{
    match known {
        Some(mut known) => {
            known.assign(numbers, stmt)?;
            Ok(Some(known))
        }
        None => Ok(None),
    }
}

/// After the initializer of the field at this place of the class, where there is one.
pub fn begin(
    known: Option<Known>,
    place: usize,
    is_begun: bool,
) -> Result<Option<Known>, AllocError>
    ensures { IfOk result (λ k. path_of k ≡ option_map (with_begun place is_begun) (path_of known)) }
{
    match known {
        Some(mut known) => {
            known.begin(place, is_begun)?;
            Ok(Some(known))
        }
        None => Ok(None),
    }
}

// Where a path meets this one, if that leads there.
fn meet_with(known: Known, other: &Option<Known>) -> Known
    ensures { Some (known_of result) ≡ met_paths (Some (known_of known)) (path_of other.now) }
{
    match other {
        Some(other) => {
            let mut met = known;
            met.meet(other);
            met
        }
        None => known,
    }
}

/// Where two paths meet; one that leads nowhere doesn't count.
pub fn meet(one: Option<Known>, other: Option<Known>) -> Option<Known>
    ensures { path_of result ≡ met_paths (path_of one) (path_of other) }
{
    match one {
        Some(known) => Some(meet_with(known, &other)),
        None => other,
    }
}

/// After a loop, on whose test these locals aren't null where it is false: one on the literal `true` is left by a return alone.
pub fn leave(
    head: Option<Known>,
    is_true: bool,
    locals: &[usize],
) -> Result<Option<Known>, AllocError>
    ensures { IfOk result (λ k. path_of k ≡ left_by is_true (among locals.now) (path_of head)) }
{
    if is_true {
        return Ok(None);
    }
    let behind = learn(head, locals)?;
    Ok(behind)
}
