// Calls, `new`, and returns.
ghost use Rattle.std.specs.Prelude.{◌≡◌, ◌≤◌, length, option_map};
ghost use Rattle.ss_core.specs.Tree as tree;
ghost use Rattle.ss_core.specs.View as view;
ghost use Rattle.ss_core.specs.Chain.{most_classes, IsWithinLimits};
ghost use Rattle.ss_store_rules.specs.Typed as typed;
ghost use Rattle.ss_machine_rules.specs.Steps as steps;
ghost use Rattle.ss_machine.specs.Frames.{running, waiting, target_of};
ghost use Rattle.ss_machine.specs.Moves.{Does, doing, here, AreAfter, Enters, IsPopped};

use crate::frame::{Frame, Target, locals_at_entry};
use crate::halt::{Halt, ensure};
use crate::machine::Machine;
use crate::values::{put, set_local, this};
use ss_core::{Body, BodyId, Callee, ClassId, Core, Expr, Kind, Place};
use ss_core_bodies::{body_at, constructor_of, method_at};
use ss_store_rules::Value;
use std::alloc::Global;

// Where a call stands, and the local that gets what it gives.
#[derive(Clone, Copy, Debug, PartialEq, Eq)]
pub struct Site {
    pub place: Place,
    pub into: Option<usize>,
}

impl Site {
    pub fn new(place: Place, into: Option<usize>) -> Site
        ensures place { result.place ≡ place }
        ensures into { result.into ≡ into }
    {
        Site { place, into }
    }
}

// Where a body is entered from, and where it returns to.
#[derive(Clone, Copy)]
struct Entrance {
    place: Place,
    into: Target,
}

// The number of the result among the locals of a body, where it has one.
fn result_local(body: &Body) -> Option<usize>
    ensures { result ≡ steps.result_local (view.body body.now) }
{
    body.result?;
    let of_this = if body.flags.is_static { 0 } else { 1usize };
    let arguments = of_this.checked_add(body.params.len())?;
    arguments.checked_add(body.locals.len())
}

impl<'a> Machine<'a> {
    // This value, and after it the values of the arguments, from the left.
    fn with_arguments(
        &self,
        alloc: Global,
        core: &Core,
        first: Value,
        es: &[Expr],
    ) -> Result<Vec<Value>, Halt>
        requires { length (view.classes core.now.classes) ≤ most_classes }
        ensures { AreAfter first result (steps.values_of (view.exprs es.now) (here core.now self.now)) }
    {
        let mut values = Vec::new(alloc);
        values.push(first)?;
        self.push_all(core, es, &mut values)?;
        Ok(values)
    }

    // Puts a frame onto the stack; the running one waits.
    fn push(&mut self, frame: Frame<'a>) -> Result<(), Halt>
        ensures { Enters result frame.entry self.old self.new }
    {
        self.stores.enter()?;
        let waiting = std::mem::replace(&mut self.top, frame);
        self.below.push(waiting)?;
        Ok(())
    }

    // A body is entered where its conditions at entry hold; one that isn't there is passed over.
    #[tactic(auto, using(crate::proofs::Entering::entered))]
    fn enter(
        &mut self,
        alloc: Global,
        core: &Core,
        body: Option<&'a Body>,
        entrance: Entrance,
        arguments: Vec<Value>,
    ) -> Result<(), Halt>
        requires { length (view.classes core.now.classes) ≤ most_classes }
        ensures { Does result
            (steps.enter (view.core core.now) (option_map (λ b. view.body b.now) body.entry) entrance.place (target_of entrance.into) arguments.items (running self.old) (waiting self.old) self.old.stores.now)
            self.new }
    {
        let Some(body) = body else {
            return Ok(());
        };
        let locals = locals_at_entry(body, arguments)?;
        let holds = self.stores.all_hold_at_entry(core, &body.entry, &locals);
        ensure(holds, Kind::Precondition, entrance.place)?;
        self.push(Frame::at_entry(alloc, body, locals, entrance.into))
    }

    // `x = e.M(..)`
    fn call_method(
        &mut self,
        alloc: Global,
        core: &'a Core,
        site: Site,
        receiver: (&Expr, ClassId, usize),
        es: &[Expr],
    ) -> Result<(), Halt>
        requires { length (view.classes core.now.classes) ≤ most_classes }
        ensures { Does result
            (doing (view.core core.now) (tree.CallStmt site.place site.into (tree.Dispatched (view.expr receiver.entry.0.now) receiver.entry.1.0 receiver.entry.2) (view.exprs es.now)) self.old)
            self.new }
    {
        let object = self.eval(core, receiver.0)?;
        let arguments = self.with_arguments(alloc, core, object, es)?;
        let Value::Obj(o) = object else {
            return Err(Halt::Fails(Kind::Null, site.place));
        };
        let body = method_at(core, self.stores.class_of(o), receiver.2);
        let entrance = Entrance {
            place: site.place,
            into: Target::Call(site.into),
        };
        self.enter(alloc, core, body, entrance, arguments)
    }

    // `x = C.M(..)`
    fn call_static(
        &mut self,
        alloc: Global,
        core: &'a Core,
        site: Site,
        number: BodyId,
        es: &[Expr],
    ) -> Result<(), Halt>
        requires { length (view.classes core.now.classes) ≤ most_classes }
        ensures { Does result
            (doing (view.core core.now) (tree.CallStmt site.place site.into (tree.Static number.0) (view.exprs es.now)) self.old)
            self.new }
    {
        let arguments = self.eval_all(alloc, core, es)?;
        let entrance = Entrance {
            place: site.place,
            into: Target::Call(site.into),
        };
        self.enter(alloc, core, body_at(core, number), entrance, arguments)
    }

    // A call of this body on `this`.
    fn call_on_this(
        &mut self,
        alloc: Global,
        core: &'a Core,
        site: Site,
        number: BodyId,
        es: &[Expr],
    ) -> Result<(), Halt>
        requires { length (view.classes core.now.classes) ≤ most_classes }
        ensures method { Does result
            (doing (view.core core.now) (tree.CallStmt site.place site.into (tree.Base number.0) (view.exprs es.now)) self.old)
            self.new }
        ensures constructor { Does result
            (doing (view.core core.now) (tree.CallStmt site.place site.into (tree.BaseConstructor number.0) (view.exprs es.now)) self.old)
            self.new }
    {
        let arguments = self.with_arguments(alloc, core, this(&self.top.locals), es)?;
        let entrance = Entrance {
            place: site.place,
            into: Target::Call(site.into),
        };
        self.enter(alloc, core, body_at(core, number), entrance, arguments)
    }

    // A call, by what it enters.
    pub fn call(
        &mut self,
        alloc: Global,
        core: &'a Core,
        site: Site,
        callee: &Callee,
        es: &[Expr],
    ) -> Result<(), Halt>
        requires { length (view.classes core.now.classes) ≤ most_classes }
        ensures { Does result
            (doing (view.core core.now) (tree.CallStmt site.place site.into (view.callee_tree callee.now) (view.exprs es.now)) self.old)
            self.new }
    {
        match callee {
            Callee::Dispatched(e, t, m) => self.call_method(alloc, core, site, (e, *t, *m), es),
            Callee::Static(n) => self.call_static(alloc, core, site, *n, es),
            Callee::Base(n) => self.call_on_this(alloc, core, site, *n, es),
            Callee::Constructor(n) => self.call_on_this(alloc, core, site, *n, es),
        }
    }

    // `x = new C(..)`
    pub fn construct(
        &mut self,
        alloc: Global,
        core: &'a Core,
        site: Site,
        class: ClassId,
        es: &[Expr],
    ) -> Result<(), Halt>
        requires { IsWithinLimits (view.classes core.now.classes) }
        ensures { Does result
            (doing (view.core core.now) (tree.NewStmt site.place site.into class.0 (view.exprs es.now)) self.old)
            self.new }
    {
        let mut arguments = self.with_arguments(alloc, core, Value::Null, es)?;
        let o = self.stores.new_object(core, class)?;
        set_local(&mut arguments, 0, Value::Obj(o));
        let body = constructor_of(core, class);
        let entrance = Entrance {
            place: site.place,
            into: Target::New(site.into),
        };
        self.enter(alloc, core, body, entrance, arguments)
    }

    // The caller goes on with the result, and after a `new` with the object, which is ready from then on.
    fn leave(&mut self, core: &Core, value: Value) -> Result<(), Halt>
        ensures { Does result (steps.leave value (running self.old) (waiting self.old) self.old.stores.now) self.new }
    {
        let object = this(&self.top.locals);
        let target = self.top.into;
        if !self.pop() {
            return Err(Halt::Over);
        }
        match target {
            Target::Call(x) => {
                put(x, value, &mut self.top.locals);
                Ok(())
            }
            Target::New(x) => {
                put(x, object, &mut self.top.locals);
                self.set_ready(core, object)
            }
        }
    }

    // The frame that waits next runs, where one waits.
    fn pop(&mut self) -> bool
        ensures { IsPopped result self.old self.new }
    {
        let Some(caller) = self.below.pop() else {
            return false;
        };
        self.top = caller;
        self.stores.leave();
        true
    }

    // The body is left where its conditions at exit hold, and then its frame condition.
    pub fn exit(
        &mut self,
        alloc: Global,
        core: &Core,
        place: Place,
        value: Value,
    ) -> Result<(), Halt>
        requires { length (view.classes core.now.classes) ≤ most_classes }
        ensures { Does result (steps.exit (view.core core.now) place value (running self.old) (waiting self.old) self.old.stores.now) self.new }
    {
        let body = self.top.body;
        put(result_local(body), value, &mut self.top.locals);
        ensure(self.all_hold(core, &body.exit), Kind::Postcondition, place)?;
        ensure(self.is_kept(core, &[])?, Kind::Frame, place)?;
        self.leave(core, value)
    }
}
