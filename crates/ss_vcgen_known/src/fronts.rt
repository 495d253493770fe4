// What the front of a chain tells, link by link.

ghost use Rattle.std.specs.Prelude.{◌≡◌, IfOk, OnOk};
ghost use Rattle.ss_core.specs.declared.names.Place.{Place as PlaceValue};
ghost use Rattle.ss_core.specs.Tree.{ExprTree};
ghost use Rattle.ss_core.specs.View.{expr};
ghost use Rattle.ss_core.specs.Parts.{link_after};
ghost use Rattle.ss_store_rules.specs.NonNull as spec;
ghost use Rattle.ss_vcgen_known.specs.TellsFront.{TellsFront};
ghost use Rattle.ss_vcgen_known.specs.Views.{tested};

use crate::tests::Tests;
use ss_core::{Expr, Link, Operator};
use ss_vcgen_types::{Told, local_of, tell_link, told_by};
use std::alloc::{AllocError, Global};

/// What the front of a chain tells where it is true, and where it is false.
#[derive(Drop)]
pub struct FrontTold {
    holds: Vec<Told>,
    fails: Vec<Told>,
    /// The local that the front is, if it is one.
    local: Option<usize>,
}

impl FrontTold {
    /// What the first operand tells. An error is want of memory.
    pub fn new(alloc: Global, first: &Expr) -> Result<FrontTold, AllocError>
        ensures { IfOk result (λ t. TellsFront t (expr first.now)) }
    {
        let holds = told_by(alloc, first, true)?;
        let fails = told_by(alloc, first, false)?;
        let local = local_of(first);
        Ok(FrontTold {
            holds,
            fails,
            local,
        })
    }

    /// The same with one link more. An error is want of memory.
    pub fn add(&mut self, link: &Link) -> Result<(), AllocError>
        ensures { OnOk result ((p : PlaceValue) (e : ExprTree) → TellsFront self.old e → TellsFront self.new (link_after link.now p e)) }
    {
        tell_link(link, true, 0, self.local, &mut self.holds)?;
        tell_link(link, false, 0, self.local, &mut self.fails)?;
        self.local = None;
        Ok(())
    }

    /// The tests that have come out where the right operand of an operation after the front is read.
    pub fn on_right<'t>(&'t self, operator: Operator, tests: &'t Tests<'t>) -> Tests<'t>
        ensures { (e : ExprTree) (k : spec.Known) → TellsFront self.now e → tested result k ≡ spec.known_right operator e (tested tests.now k) }
    {
        match operator {
            Operator::And => Tests::Told(tests, &self.holds),
            Operator::Or => Tests::Told(tests, &self.fails),
            Operator::Equal
            | Operator::NotEqual
            | Operator::Less
            | Operator::LessEqual
            | Operator::Greater
            | Operator::GreaterEqual
            | Operator::Add
            | Operator::Subtract
            | Operator::Multiply
            | Operator::Divide
            | Operator::Remainder => *tests,
        }
    }
}
