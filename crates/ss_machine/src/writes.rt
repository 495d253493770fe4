// Assignments and changes of the store.
ghost use Rattle.std.specs.Prelude.{◌≡◌, ◌≤◌, length};
ghost use Rattle.ss_core.specs.Tree as tree;
ghost use Rattle.ss_core.specs.View as view;
ghost use Rattle.ss_core.specs.Chain.{most_classes};
ghost use Rattle.ss_machine.specs.Moves.{Does, doing};

use crate::halt::Halt;
use crate::machine::{Machine, or_fails};
use crate::values::{local, put, set_local, this};
use ss_core::{ClassId, Core, Expr, FieldId, Kind, Mark, Place};
use ss_store::{NewStop, as_int};
use ss_store_rules::Value;

impl<'a> Machine<'a> {
    // `x = e`
    pub fn assign(&mut self, core: &Core, place: Place, x: usize, e: &Expr) -> Result<(), Halt>
        requires { length (view.classes core.now.classes) ≤ most_classes }
        ensures { Does result (doing (view.core core.now) (tree.AssignStmt place x (view.expr e.now)) self.old) self.new }
    {
        let value = self.eval(core, e)?;
        set_local(&mut self.top.locals, x, value);
        Ok(())
    }

    // `o.f = e`
    pub fn write(
        &mut self,
        core: &Core,
        place: Place,
        object: &Expr,
        field: (FieldId, Mark, ClassId),
        e: &Expr,
    ) -> Result<(), Halt>
        requires { length (view.classes core.now.classes) ≤ most_classes }
        ensures { Does result (doing (view.core core.now) (tree.WriteStmt place (view.expr object.now) field.0.0 field.1 field.2.0 (view.expr e.now)) self.old) self.new }
    {
        let object = self.eval(core, object)?;
        let value = self.eval(core, e)?;
        or_fails(self.stores.write(core, object, field.0, value), place)
    }

    // `a[i] = e`
    pub fn write_element(
        &mut self,
        core: &Core,
        place: Place,
        array: &Expr,
        index: &Expr,
        e: &Expr,
    ) -> Result<(), Halt>
        requires { length (view.classes core.now.classes) ≤ most_classes }
        ensures { Does result (doing (view.core core.now) (tree.WriteElementStmt place (view.expr array.now) (view.expr index.now) (view.expr e.now)) self.old) self.new }
    {
        let array = self.eval(core, array)?;
        let index = as_int(self.eval(core, index)?);
        let value = self.eval(core, e)?;
        or_fails(self.stores.write_element(array, index, value), place)
    }

    // `x = new E[n]`
    pub fn make_array(
        &mut self,
        core: &Core,
        place: Place,
        x: Option<usize>,
        class: ClassId,
        count: &Expr,
    ) -> Result<(), Halt>
        requires { length (view.classes core.now.classes) ≤ most_classes }
        ensures { Does result (doing (view.core core.now) (tree.NewArrayStmt place x class.0 (view.expr count.now)) self.old) self.new }
    {
        let count = as_int(self.eval(core, count)?);
        match self.stores.new_array(class, count) {
            Ok(a) => {
                put(x, Value::Obj(a), &mut self.top.locals);
                Ok(())
            }
            Err(NewStop::NegativeLength) => Err(Halt::Fails(Kind::NegativeLength, place)),
            Err(NewStop::Memory) => Err(Halt::Memory),
        }
    }

    // `ready this`
    pub fn make_ready(&mut self, core: &Core, place: Place) -> Result<(), Halt>
        ensures { Does result (doing (view.core core.now) (tree.ReadyStmt place) self.old) self.new }
    {
        let _ = place;
        let object = this(&self.top.locals);
        self.set_ready(core, object)
    }

    // `unpack x from T`
    pub fn unpack(
        &mut self,
        core: &Core,
        place: Place,
        x: usize,
        class: ClassId,
    ) -> Result<(), Halt>
        ensures { Does result (doing (view.core core.now) (tree.UnpackStmt place x class.0) self.old) self.new }
    {
        let object = local(&self.top.locals, x);
        or_fails(self.stores.unpack(core, object, class), place)
    }

    // `pack x as T`
    pub fn pack(&mut self, core: &Core, place: Place, x: usize, class: ClassId) -> Result<(), Halt>
        requires { length (view.classes core.now.classes) ≤ most_classes }
        ensures { Does result (doing (view.core core.now) (tree.PackStmt place x class.0) self.old) self.new }
    {
        let object = local(&self.top.locals, x);
        or_fails(self.stores.pack(core, object, class), place)
    }
}
