// Instances that aren't made again.

ghost use Rattle.std.specs.Prelude.{IfOk, IfSome, OnOk, List};
ghost use Rattle.ss_core.specs.Chain.{IsWithinLimits};
ghost use Rattle.ss_core.specs.View as view;
ghost use Rattle.ss_core.specs.Tree.{ClassTree};
ghost use Rattle.ss_logic.specs.Asked.{said, all_said};
ghost use Rattle.ss_logic.specs.Occurring.{with_formulas};
ghost use Rattle.ss_terms.specs.Forms.{Forms, IsFormulaNumber, IsGrown, IsBankOf};
ghost use Rattle.ss_rules_asked.specs.Numbers.{asked_at, asked_in, HasAsked, HasRule, HasArguments};
ghost use Rattle.ss_rules_occurring.specs.Found.{formulas_of, HasFound, Holds};
ghost use Rattle.ss_rules_opened.specs.Views.{StillCome};
ghost use Rattle.ss_rules.specs.AreMade.{AreMade, AreNumbers};
ghost use Rattle.ss_rules.specs.Said.{with_said};

use crate::context::SayingContext;
use crate::saying::{add_found, say};
use ss_core::Classes;
use ss_rules_asked::Asked;
use ss_rules_opened::OriginList;
use ss_terms::{Bank, FormulaId};
use std::alloc::{AllocError, Global};

/// Instances that were made, in the order in which they were asked for. Each has what was asked for, and the formula that it says, where its
/// arguments fit the rule.
#[derive(Drop)]
pub struct Made {
    pub(crate) asked: Vec<Asked>,
    pub(crate) found: Vec<Option<FormulaId>>,
}

impl Made {
    /// No instances.
    pub fn new(alloc: Global) -> Made
        ensures { (cs : List ClassTree) (b : Forms) → AreMade cs b result }
    {
        Made {
            asked: Vec::new(alloc),
            found: Vec::new(alloc),
        }
    }

    // What the instance at a place says, where it is this one.
    fn at(&self, place: usize, asked: &Asked) -> Option<Option<FormulaId>>
        ensures { (cs : List ClassTree) (b : Forms) → AreMade cs b self.now → IfSome result (λ o. IsFormulaNumber b (said cs (asked_at b asked.now)) o) }
    {
        let one = self.asked.get(place)?;
        if *one == *asked {
            let found = self.found.get(place)?;
            Some(*found)
        } else {
            None
        }
    }

    // What an instance says, where its arguments fit the rule. It is made where it isn't the one at this place, after which the place goes.
    fn say(
        &self,
        context: &SayingContext<'_>,
        bank: &mut Bank,
        place: &mut usize,
        asked: &Asked,
    ) -> Result<Option<FormulaId>, AllocError>
        requires bank { IsBankOf (view.classes context.now.classes.now) bank.old }
        requires limits { IsWithinLimits (view.classes context.now.classes.now) }
        requires made { AreMade (view.classes context.now.classes.now) bank.old self.now }
        requires rule { HasRule bank.old asked.now.rule }
        requires arguments { HasArguments bank.old asked.now.arguments.items }
        ensures at { IfOk result (λ o. IsFormulaNumber bank.new (said (view.classes context.now.classes.now) (asked_at bank.old asked.now)) o) }
        ensures grown { IsGrown bank.old bank.new }
    {
        match self.at(*place, asked) {
            Some(found) => {
                *place = place.saturating_add(1);
                Ok(found)
            }
            None => say(context.alloc, bank, context.classes, asked),
        }
    }

    /// Adds what each of the instances says to the list, where it isn't there yet, and then notes where it comes from. Those that stand
    /// here in the same order aren't made again. An error is want of memory.
    pub fn add_said(
        &mut self,
        alloc: Global,
        bank: &mut Bank,
        classes: &Classes,
        listed: &mut OriginList,
        asked: Vec<Asked>,
    ) -> Result<(), AllocError>
        requires bank { IsBankOf (view.classes classes.now) bank.old }
        requires limits { IsWithinLimits (view.classes classes.now) }
        requires made { AreMade (view.classes classes.now) bank.old self.old }
        requires list { HasFound bank.old listed.old.list }
        requires asked { HasAsked bank.old asked.items }
        ensures added { OnOk result (Holds bank.new listed.new.list (with_formulas (formulas_of bank.old listed.old.list) (all_said (view.classes classes.now) (asked_in bank.old asked.items)))) }
        ensures noted { OnOk result (StillCome (view.classes classes.now) bank.old (formulas_of bank.old listed.old.list) listed.old.origins.items bank.new (formulas_of bank.new listed.new.list) listed.new.origins.items) }
        ensures made { OnOk result (AreMade (view.classes classes.now) bank.new self.new) }
        ensures grown { IsGrown bank.old bank.new }
    {
        let context = SayingContext { alloc, classes };
        let found = self.add_each(&context, bank, listed, &asked)?;
        self.asked = asked;
        self.found = found;
        Ok(())
    }

    // Adds what an instance says to the list, where it isn't there yet. Gives what it says.
    fn add_one(
        &self,
        context: &SayingContext<'_>,
        bank: &mut Bank,
        listed: &mut OriginList,
        place: &mut usize,
        asked: &Asked,
    ) -> Result<Option<FormulaId>, AllocError>
        requires bank { IsBankOf (view.classes context.now.classes.now) bank.old }
        requires limits { IsWithinLimits (view.classes context.now.classes.now) }
        requires made { AreMade (view.classes context.now.classes.now) bank.old self.now }
        requires list { HasFound bank.old listed.old.list }
        requires rule { HasRule bank.old asked.now.rule }
        requires arguments { HasArguments bank.old asked.now.arguments.items }
        ensures added { OnOk result (Holds bank.new listed.new.list (with_said (formulas_of bank.old listed.old.list) (said (view.classes context.now.classes.now) (asked_at bank.old asked.now)))) }
        ensures noted { OnOk result (StillCome (view.classes context.now.classes.now) bank.old (formulas_of bank.old listed.old.list) listed.old.origins.items bank.new (formulas_of bank.new listed.new.list) listed.new.origins.items) }
        ensures at { IfOk result (λ o. IsFormulaNumber bank.new (said (view.classes context.now.classes.now) (asked_at bank.old asked.now)) o) }
        ensures grown { IsGrown bank.old bank.new }
    {
        let found = self.say(context, bank, place, asked)?;
        add_found(context.alloc, bank, listed, asked, found)?;
        Ok(found)
    }

    // Adds what each of the instances says. Gives what each says.
    fn add_each(
        &self,
        context: &SayingContext<'_>,
        bank: &mut Bank,
        listed: &mut OriginList,
        asked: &[Asked],
    ) -> Result<Vec<Option<FormulaId>>, AllocError>
        requires bank { IsBankOf (view.classes context.now.classes.now) bank.old }
        requires limits { IsWithinLimits (view.classes context.now.classes.now) }
        requires made { AreMade (view.classes context.now.classes.now) bank.old self.now }
        requires list { HasFound bank.old listed.old.list }
        requires asked { HasAsked bank.old asked.now }
        ensures added { OnOk result (Holds bank.new listed.new.list (with_formulas (formulas_of bank.old listed.old.list) (all_said (view.classes context.now.classes.now) (asked_in bank.old asked.now)))) }
        ensures noted { OnOk result (StillCome (view.classes context.now.classes.now) bank.old (formulas_of bank.old listed.old.list) listed.old.origins.items bank.new (formulas_of bank.new listed.new.list) listed.new.origins.items) }
        ensures numbers { IfOk result (λ fs. AreNumbers (view.classes context.now.classes.now) bank.new asked.now fs.items) }
        ensures grown { IsGrown bank.old bank.new }
    {
        let mut all = Vec::new(context.alloc);
        let mut place = 0;
        for one in asked {
            let found = self.add_one(context, bank, listed, &mut place, one)?;
            all.push(found)?;
        }
        Ok(all)
    }
}
