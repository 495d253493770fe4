// The stack of frames over the stores, and what expressions are read in.
ghost use Rattle.std.specs.Prelude.{◌≡◌, ◌≤◌, ◌++◌, Ok, Err, length, IfOk, OnOk, OnErr};
ghost use Rattle.ss_core.specs.View as view;
ghost use Rattle.ss_core.specs.Chain.{most_classes};
ghost use Rattle.ss_store_rules.specs.Values as values;
ghost use Rattle.ss_machine_rules.specs.Frame as frame;
ghost use Rattle.ss_machine_rules.specs.States.{dues, span};
ghost use Rattle.ss_machine_rules.specs.Steps as steps;
ghost use Rattle.ss_machine.specs.Frames.{dues_after, running, waiting};
ghost use Rattle.ss_machine.specs.Moves.{here, IsValue, AreValues, ArePushed, FailsAs, IsInto};

use crate::frame::{Behind, Frame};
use crate::halt::Halt;
use ss_core::{Core, Expr, Place, Stmt};
use ss_machine_stores::{ChangeStop, Stores};
use ss_store::as_bool;
use ss_store_rules::{Undefined, Value};
use std::alloc::Global;

// The running frame, those that wait, the oldest first, and the store with those at the entries of the frames.
#[derive(Drop)]
pub struct Machine<'a> {
    pub top: Frame<'a>,
    pub below: Vec<Frame<'a>>,
    pub stores: Stores,
}

// An expression of code without a value fails with its own kind, at its own place.
pub fn value_or_halt(found: Result<Value, Undefined>) -> Result<Value, Halt>
    ensures { IsValue result found }
{
    match found {
        Ok(value) => Ok(value),
        Err(cause) => Err(Halt::Fails(cause.kind, cause.place)),
    }
}

// A refused change is a check that fails; want of memory halts the run.
pub fn or_fails(changed: Result<(), ChangeStop>, place: Place) -> Result<(), Halt>
    ensures { FailsAs result changed place }
{
    match changed {
        Ok(()) => Ok(()),
        Err(ChangeStop::Refused(refused)) => Err(Halt::Fails(refused.kind, place)),
        Err(ChangeStop::Memory) => Err(Halt::Memory),
    }
}

impl<'a> Machine<'a> {
    // The value of an expression of code.
    pub fn eval(&self, core: &Core, e: &Expr) -> Result<Value, Halt>
        requires { length (view.classes core.now.classes) ≤ most_classes }
        ensures { IsValue result (values.value_of (view.expr e.now) (here core.now self.now)) }
    {
        value_or_halt(self.stores.eval(core, e, &self.top.locals))
    }

    // The values of expressions of code, from the left.
    pub fn eval_all(&self, alloc: Global, core: &Core, es: &[Expr]) -> Result<Vec<Value>, Halt>
        requires { length (view.classes core.now.classes) ≤ most_classes }
        ensures { AreValues result (steps.values_of (view.exprs es.now) (here core.now self.now)) }
    {
        let mut all = Vec::new(alloc);
        self.push_all(core, es, &mut all)?;
        Ok(all)
    }

    // Adds the values of expressions, from the left.
    pub fn push_all(&self, core: &Core, es: &[Expr], all: &mut Vec<Value>) -> Result<(), Halt>
        requires { length (view.classes core.now.classes) ≤ most_classes }
        ensures { ArePushed result all.old.items all.new.items (steps.values_of (view.exprs es.now) (here core.now self.now)) }
    {
        for e in es {
            let value = self.eval(core, e)?;
            all.push(value)?;
        }
        Ok(())
    }

    // Whether each condition holds in the running body.
    pub fn all_hold(&self, core: &Core, es: &[Expr]) -> bool
        requires { length (view.classes core.now.classes) ≤ most_classes }
        ensures { result ≡ steps.all_hold (view.exprs es.now) (here core.now self.now) }
    {
        self.stores.all_hold(core, es, &self.top.locals)
    }

    // Whether the condition holds in the running body.
    pub fn holds(&self, core: &Core, e: &Expr) -> bool
        requires { length (view.classes core.now.classes) ≤ most_classes }
        ensures { result ≡ values.holds (view.expr e.now) (here core.now self.now) }
    {
        match self.stores.eval(core, e, &self.top.locals) {
            Ok(value) => as_bool(value),
            Err(_) => false,
        }
    }

    // Whether the frame condition of the running body holds, but for these objects.
    pub fn is_kept(&self, core: &Core, outside: &[Value]) -> Result<bool, Halt>
        requires { length (view.classes core.now.classes) ≤ most_classes }
        ensures kept { IfOk result (λ b. b ≡ frame.is_kept (span (view.core core.now) (running self.now) self.now.stores.now outside.now)) }
        ensures memory { OnErr result (result ≡ Err Halt.Memory) }
    {
        let kept = self
            .stores
            .is_kept(core, self.top.body, &self.top.locals, outside)?;
        Ok(kept)
    }

    // Goes into a block; what is left waits after it.
    pub fn go_into(&mut self, block: &'a [Stmt]) -> Result<(), Halt>
        ensures { IsInto result (dues (view.block block.now)) self.old self.new }
    {
        self.top.wait_after()?;
        self.top.code = block;
        Ok(())
    }

    // Goes into a block, after which this is due, and then what is left.
    pub fn go_to(&mut self, behind: Behind<'a>, block: &'a [Stmt]) -> Result<(), Halt>
        ensures { IsInto result (dues (view.block block.now) ++ dues_after behind.entry) self.old self.new }
    {
        self.top.wait_after()?;
        self.top.wait(behind)?;
        self.top.code = block;
        Ok(())
    }

    // The object to which a value refers is ready.
    pub fn set_ready(&mut self, core: &Core, object: Value) -> Result<(), Halt>
        ensures ready { OnOk result (self.new.stores.now ≡ steps.with_ready self.old.stores.now object) }
        ensures memory { OnErr result (result ≡ Err Halt.Memory) }
        ensures frames { (running self.new ≡ running self.old) × (waiting self.new ≡ waiting self.old) }
    {
        match object {
            Value::Obj(o) => Ok(self.stores.set_ready(core, o)?),
            _ => Ok(()),
        }
    }
}
