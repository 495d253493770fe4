// One step of the machine.
ghost use Rattle.std.specs.Prelude.{◌≡◌, ◌∷◌, Some, true, option_map};
ghost use Rattle.ss_core.specs.Tree as tree;
ghost use Rattle.ss_core.specs.View as view;
ghost use Rattle.ss_core.specs.Chain.{IsWithinLimits};
ghost use Rattle.ss_store_rules.specs.Values as values;
ghost use Rattle.ss_machine_rules.specs.Steps as steps;
ghost use Rattle.ss_machine_rules.specs.Steps.{next};
ghost use Rattle.ss_machine.specs.Frames.{running, waiting};
ghost use Rattle.ss_machine.specs.Moves.{Does, StepIs, HasCause, IsValue, doing, going, here, is_quiet};
ghost use Rattle.ss_machine.specs.Pieces.{PieceIs};

use crate::calls::Site;
use crate::frame::Due;
use crate::halt::{Halt, ensure};
use crate::machine::Machine;
use crate::printing;
use ss_core::{Core, Expr, Kind, Place, Stmt};
use ss_io::Sink;
use ss_store_rules::Value;
use std::alloc::Global;

impl<'a> Machine<'a> {
    // Prints the value of an expression, and a line end, where one is asked for.
    #[tactic(auto, using(crate::proofs::Quiet::value_stops, crate::proofs::Written::stopped_piece))]
    fn print_value<S: Sink>(
        &self,
        alloc: Global,
        core: &Core,
        e: &Expr,
        newline: bool,
        out: &mut S,
    ) -> Result<(), Halt>
        requires { IsWithinLimits (view.classes core.now.classes) }
        ensures step { StepIs result (steps.print (Some (view.expr e.now)) newline (view.core core.now) (running self.now) (waiting self.now) self.now.stores.now) self.now
            (S.taken out.old) (S.taken out.new) }
        ensures pieces { PieceIs result (steps.print (Some (view.expr e.now)) newline (view.core core.now) (running self.now) (waiting self.now) self.now.stores.now)
            (S.pieces out.old) (S.pieces out.new) }
        ensures cause { HasCause result (S.faults out.old) (S.faults out.new) }
    {
        let value = self.eval(core, e)?;
        let piece = printing::line_of(alloc, value, newline)?;
        printing::write(&piece, out)
    }

    // Prints the value, where there is one, and a line end, where one is asked for.
    fn print<S: Sink>(
        &self,
        alloc: Global,
        core: &Core,
        e: &Option<Expr>,
        newline: bool,
        out: &mut S,
    ) -> Result<(), Halt>
        requires { IsWithinLimits (view.classes core.now.classes) }
        ensures step { StepIs result (steps.print (option_map view.expr e.now) newline (view.core core.now) (running self.now) (waiting self.now) self.now.stores.now) self.now
            (S.taken out.old) (S.taken out.new) }
        ensures pieces { PieceIs result (steps.print (option_map view.expr e.now) newline (view.core core.now) (running self.now) (waiting self.now) self.now.stores.now)
            (S.pieces out.old) (S.pieces out.new) }
        ensures cause { HasCause result (S.faults out.old) (S.faults out.new) }
    {
        match e {
            Some(e) => self.print_value(alloc, core, e, newline, out),
            None => self.print_text(alloc, &[], newline, out),
        }
    }

    // Prints these bytes, and a line end, where one is asked for.
    fn print_text<S: Sink>(
        &self,
        alloc: Global,
        text: &[u8],
        newline: bool,
        out: &mut S,
    ) -> Result<(), Halt>
        ensures step { StepIs result (going self.now (steps.line text.now newline)) self.now (S.taken out.old) (S.taken out.new) }
        ensures pieces { PieceIs result (going self.now (steps.line text.now newline)) (S.pieces out.old) (S.pieces out.new) }
        ensures cause { HasCause result (S.faults out.old) (S.faults out.new) }
    {
        let piece = printing::line(alloc, text, newline)?;
        printing::write(&piece, out)
    }

    // An assumption that is false stops the run.
    fn assume(&self, core: &Core, place: Place, e: &Expr) -> Result<(), Halt>
        requires { IsWithinLimits (view.classes core.now.classes) }
        ensures { Does result (doing (view.core core.now) (tree.AssumeStmt place (view.expr e.now)) self.now) self.now }
    {
        if self.holds(core, e) {
            Ok(())
        } else {
            Err(Halt::Stops(place))
        }
    }

    // The value of a result; where there is none, it doesn't matter.
    fn result_value(&self, core: &Core, e: &Option<Expr>) -> Result<Value, Halt>
        requires { IsWithinLimits (view.classes core.now.classes) }
        ensures { IsValue result (steps.result_value (option_map view.expr e.now) (here core.now self.now)) }
    {
        match e {
            Some(e) => self.eval(core, e),
            None => Ok(Value::Null),
        }
    }

    // `return e`
    fn give_back(
        &mut self,
        alloc: Global,
        core: &Core,
        place: Place,
        e: &Option<Expr>,
    ) -> Result<(), Halt>
        requires { IsWithinLimits (view.classes core.now.classes) }
        ensures { Does result (doing (view.core core.now) (tree.ReturnStmt place (option_map view.expr e.now)) self.old) self.new }
    {
        let value = self.result_value(core, e)?;
        self.exit(alloc, core, place, value)
    }

    // A statement that prints nothing.
    fn act_quietly(&mut self, alloc: Global, core: &'a Core, stmt: &'a Stmt) -> Result<(), Halt>
        requires limits { IsWithinLimits (view.classes core.now.classes) }
        requires quiet { is_quiet (view.stmt_of stmt.now) ≡ true }
        ensures { Does result (doing (view.core core.now) (view.stmt_of stmt.now) self.old) self.new }
    {
        match stmt {
            Stmt::Assign(place, x, e) => self.assign(core, *place, *x, e),
            Stmt::Write {
                place,
                object,
                field,
                mark,
                class,
                value,
            } => { self.write(core, *place, object, (*field, *mark, *class), value) }
            Stmt::WriteElement(place, a, i, e) => self.write_element(core, *place, a, i, e),
            Stmt::New(place, into, class, es) => {
                let site = Site::new(*place, *into);
                self.construct(alloc, core, site, *class, es)
            }
            Stmt::NewArray(place, x, class, e) => self.make_array(core, *place, *x, *class, e),
            Stmt::Call(place, into, callee, es) => {
                let site = Site::new(*place, *into);
                self.call(alloc, core, site, callee, es)
            }
            Stmt::Ready(place) => self.make_ready(core, *place),
            Stmt::If(place, e, one, other) => self.branch(core, *place, e, one, other),
            Stmt::Loop(l) => self.enter_loop(alloc, core, l),
            Stmt::Unpack(place, x, class) => self.unpack(core, *place, *x, *class),
            Stmt::Pack(place, x, class) => self.pack(core, *place, *x, *class),
            Stmt::Assert(place, e) => ensure(self.holds(core, e), Kind::Assert, *place),
            Stmt::Assume(place, e) => self.assume(core, *place, e),
            Stmt::Return(place, e) => self.give_back(alloc, core, *place, e),
            Stmt::Print(_, _, _) | Stmt::PrintText(_, _, _) => unreachable!(),
        }
    }

    // One statement, which the running frame no longer has.
    #[tactic(auto, using(crate::proofs::Quiet::quiet_step, crate::proofs::Written::quiet_piece))]
    fn act<S: Sink>(
        &mut self,
        alloc: Global,
        core: &'a Core,
        stmt: &'a Stmt,
        out: &mut S,
    ) -> Result<(), Halt>
        requires { IsWithinLimits (view.classes core.now.classes) }
        ensures step { StepIs result (doing (view.core core.now) (view.stmt_of stmt.now) self.old) self.new (S.taken out.old) (S.taken out.new) }
        ensures pieces { PieceIs result (doing (view.core core.now) (view.stmt_of stmt.now) self.old) (S.pieces out.old) (S.pieces out.new) }
        ensures cause { HasCause result (S.faults out.old) (S.faults out.new) }
    {
        match stmt {
            Stmt::Print(_, e, newline) => self.print(alloc, core, e, *newline, out),
            Stmt::PrintText(_, text, newline) => self.print_text(alloc, text, *newline, out),
            quiet => self.act_quietly(alloc, core, quiet),
        }
    }

    // One step.
    #[tactic(auto, using(crate::proofs::Quiet::quiet_step, crate::proofs::Written::quiet_piece))]
    pub fn step<S: Sink>(&mut self, alloc: Global, core: &'a Core, out: &mut S) -> Result<(), Halt>
        requires { IsWithinLimits (view.classes core.now.classes) }
        ensures step { StepIs result (next (view.core core.now) (running self.old ∷ waiting self.old) self.old.stores.now) self.new (S.taken out.old) (S.taken out.new) }
        ensures pieces { PieceIs result (next (view.core core.now) (running self.old ∷ waiting self.old) self.old.stores.now) (S.pieces out.old) (S.pieces out.new) }
        ensures cause { HasCause result (S.faults out.old) (S.faults out.new) }
    {
        match self.top.fetch() {
            None => self.exit(alloc, core, self.top.body.place, Value::Null),
            Some(Due::Statement(stmt)) => self.act(alloc, core, stmt, out),
            Some(Due::Head(l)) => self.enter_loop(alloc, core, l),
            Some(Due::Test(l)) => self.test_loop(core, l),
        }
    }
}
