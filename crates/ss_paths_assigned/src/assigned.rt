// The fields of the `this` of a constructor that are assigned.

ghost use Rattle.std.specs.Prelude.{◌≡◌, IfOk, Option, Some, None};
ghost use Rattle.ss_typed.specs.Tree.{ExprTree, AssignOf};
ghost use Rattle.ss_typed.specs.View.{expr, simple_of};
ghost use Rattle.ss_paths.specs.Assigned.{has_field, own_assigned, assigned_by, both_assigned};

use crate::fields::Numbers;
use ss_ast::AssignOperator;
use ss_bit_set::BitSet;
use ss_core::FieldId;
use ss_typed::{TypedExpr, TypedSimple, own_field};
use std::alloc::AllocError;

/// The fields that have their values on every path to a point.
#[derive(Drop)]
pub struct Assigned {
    /// Those of the constructor's class, by their place in the class.
    pub own: BitSet,
    /// Whether `base(..)` has given the fields of the classes above their values.
    pub above: bool,
}

impl Assigned {
    ghost use Rattle.ss_bit_set.specs.Marked.{marked};
    ghost use Rattle.ss_paths_assigned.specs.Codes.{numbers_of, assigned_of};

    /// Whether the field has its value. The class declares the fields of these numbers.
    pub fn has_field(&self, numbers: Numbers, field: FieldId) -> bool
        ensures { result ≡ has_field (numbers_of numbers) (assigned_of self.now) field.0 }
    {
        if numbers.is_among(field) {
            self.own.has(field.0 as usize - numbers.first)
        } else {
            self.above
        }
    }

    /// The same fields.
    pub fn copy(&self) -> Result<Assigned, AllocError>
        ensures { IfOk result (λ a. assigned_of a ≡ assigned_of self.now) }
    {
        let own = self.own.copy()?;
        Ok(Assigned {
            own,
            above: self.above,
        })
    }

    // The field of `this` on the left is assigned.
    fn assign_left(&mut self, numbers: Numbers, left: &TypedExpr) -> Result<(), AllocError>
        ensures own { IfOk result (λ u. marked self.new.own ≡ own_assigned (numbers_of numbers) (expr left.now) (marked self.old.own)) }
        ensures above { IfOk result (λ u. self.new.above ≡ self.old.above) }
    {
        if let Some(field) = own_field(left) {
            if numbers.is_among(field) {
                self.own.put(field.0 as usize - numbers.first, true)?;
            }
        }
        Ok(())
    }

    // After an assignment with this operator.
    fn assign_by(
        &mut self,
        numbers: Numbers,
        left: &TypedExpr,
        operator: AssignOperator,
    ) -> Result<(), AllocError>
        ensures { IfOk result (λ u. (e : ExprTree) → assigned_of self.new ≡ assigned_by (numbers_of numbers) (AssignOf (expr left.now) operator e) (assigned_of self.old)) }
    {
        match operator {
            AssignOperator::Set => {
                self.assign_left(numbers, left)?;
                Ok(())
            }
            AssignOperator::Add | AssignOperator::Subtract | AssignOperator::Multiply => Ok(()),
        }
    }

    /// After a simple statement.
    pub fn assign(&mut self, numbers: Numbers, done: &TypedSimple) -> Result<(), AllocError>
        ensures { IfOk result (λ u. assigned_of self.new ≡ assigned_by (numbers_of numbers) (simple_of done.now) (assigned_of self.old)) }
    {
        match done {
            TypedSimple::Assign(left, operator, _) => {
                self.assign_by(numbers, left, *operator)?;
                Ok(())
            }
            TypedSimple::Base(..) => {
                self.above = true;
                Ok(())
            }
            TypedSimple::Step(..)
            | TypedSimple::Alone(_)
            | TypedSimple::Print(..)
            | TypedSimple::PrintText(..) => Ok(()),
        }
    }

    /// Where two paths meet: those that are assigned on both.
    pub fn meet(&mut self, other: &Assigned)
        ensures { assigned_of self.new ≡ both_assigned (assigned_of self.old) (assigned_of other.now) }
    {
        self.own.meet(&other.own);
        self.above = self.above && other.above;
    }
}
