// `if` and loops.
ghost use Rattle.std.specs.Prelude.{◌≡◌, ◌≤◌, Err, length, map, IfOk, OnErr};
ghost use Rattle.std.specs.List.{list_any};
ghost use Rattle.ss_core.specs.Tree as tree;
ghost use Rattle.ss_store_rules.specs.Reads.{same_value};
ghost use Rattle.ss_core.specs.View as view;
ghost use Rattle.ss_core.specs.Chain.{most_classes};
ghost use Rattle.ss_machine_rules.specs.Steps as steps;
ghost use Rattle.ss_machine.specs.Frames.{loop_of, running, waiting};
ghost use Rattle.ss_machine.specs.Moves.{Does, doing};

use crate::frame::Behind;
use crate::halt::{Halt, ensure};
use crate::machine::Machine;
use crate::values::local;
use ss_core::{ClassId, Core, Exposed, Expr, Kind, Loop, Place, Stmt};
use ss_store::{as_bool, same_value};
use ss_store_rules::Value;
use std::alloc::Global;

impl<'a> Machine<'a> {
    // Goes into one of two blocks.
    pub fn branch(
        &mut self,
        core: &Core,
        place: Place,
        test: &Expr,
        one: &'a [Stmt],
        other: &'a [Stmt],
    ) -> Result<(), Halt>
        requires { length (view.classes core.now.classes) ≤ most_classes }
        ensures { Does result
            (doing (view.core core.now) (tree.IfStmt place (view.expr test.now) (view.block one.now) (view.block other.now)) self.old)
            self.new }
    {
        let holds = as_bool(self.eval(core, test)?);
        let _ = place;
        self.go_into(if holds { one } else { other })
    }

    // The objects of the exposes around a loop.
    fn exposed(&self, alloc: Global, exposes: &[Exposed]) -> Result<Vec<Value>, Halt>
        ensures objects { IfOk result (λ v. v.items ≡ map (steps.held_by (running self.now)) (map view.exposed_tree exposes.now)) }
        ensures memory { OnErr result (result ≡ Err Halt.Memory) }
    {
        let mut objects = Vec::new(alloc);
        for x in exposes {
            objects.push(local(&self.top.locals, x.local))?;
        }
        Ok(objects)
    }

    // Whether one of the exposes has this object.
    fn is_exposed_by(&self, exposes: &[Exposed], object: Value) -> bool
        ensures { result ≡ list_any (λ y. same_value (steps.held_by (running self.now) y) object) (map view.exposed_tree exposes.now) }
    {
        for x in exposes {
            if same_value(local(&self.top.locals, x.local), object) {
                return true;
            }
        }
        false
    }

    // Whether the object stands at the level above this class.
    fn stands_above(&self, core: &Core, class: ClassId, object: Value) -> bool
        ensures { result ≡ steps.stands_above (view.classes core.now.classes) self.now.stores.now class.0 object }
    {
        match object {
            Value::Obj(o) => self.stores.level_of(o) == core.classes.above(class),
            _ => true,
        }
    }

    // Whether each object stands at the level above the class at which the innermost of these exposes has it.
    fn are_exposed(&self, core: &Core, exposes: &[Exposed]) -> bool
        ensures { result ≡ steps.are_exposed (view.classes core.now.classes) self.now.stores.now (running self.now) (map view.exposed_tree exposes.now) }
    {
        let mut rest = exposes;
        while let [x, others @ ..] = rest {
            let object = local(&self.top.locals, x.local);
            if !self.is_exposed_by(others, object) && !self.stands_above(core, x.class, object) {
                return false;
            }
            rest = others;
        }
        true
    }

    // At the head of a loop: its checks, and then its prelude and its test are due.
    pub fn enter_loop(&mut self, alloc: Global, core: &Core, l: &'a Loop) -> Result<(), Halt>
        requires { length (view.classes core.now.classes) ≤ most_classes }
        ensures { Does result (doing (view.core core.now) (loop_of l.now) self.old) self.new }
    {
        ensure(
            self.all_hold(core, &l.invariants),
            Kind::LoopInvariant,
            l.place,
        )?;
        let objects = self.exposed(alloc, &l.exposes)?;
        ensure(self.is_kept(core, &objects)?, Kind::LoopFrame, l.place)?;
        ensure(self.are_exposed(core, &l.exposes), Kind::LoopLevel, l.place)?;
        self.go_to(Behind::Test(l), &l.prelude)
    }

    // At the test of a loop: its body and then the loop again are due, or what is left after it.
    pub fn test_loop(&mut self, core: &Core, l: &'a Loop) -> Result<(), Halt>
        requires { length (view.classes core.now.classes) ≤ most_classes }
        ensures { Does result
            (steps.test (view.core core.now) (view.expr l.now.test) (view.block l.now.body.items) (loop_of l.now) (running self.old) (waiting self.old) self.old.stores.now)
            self.new }
    {
        if as_bool(self.eval(core, &l.test)?) {
            self.go_to(Behind::Head(l), &l.body)
        } else {
            Ok(())
        }
    }
}
