// Conditions that hold, and the invariants of an object.
ghost use Rattle.std.specs.Prelude.{◌≡◌, ◌≤◌, length};
ghost use Rattle.std.specs.List.{list_all};
ghost use Rattle.ss_core.specs.View.{classes, expr};
ghost use Rattle.ss_core.specs.Chain.{most_classes};
ghost use Rattle.ss_store_rules.specs.Reads.{is_null_or};
ghost use Rattle.ss_store_rules.specs.Values.{setting, holds};
ghost use Rattle.ss_store_rules.specs.Admissible.{invariants_hold};

use crate::arithmetic::as_bool;
use crate::before::Before;
use crate::store::Store;
use ss_core::{ClassId, Core, Expr};
use ss_store_rules::Value;

impl Store {
    /// Whether the expression is true with these values of the locals.
    fn holds<B: Before>(&self, c: &Core, before: &B, e: &Expr, locals: &[Value]) -> bool
        requires { length (classes c.now.classes) ≤ most_classes }
        ensures { result ≡ holds (expr e.now) (setting (classes c.now.classes) self.now.objects (B.told before.now) locals.now) }
    {
        match self.eval(c, before, e, locals) {
            Ok(value) => as_bool(value),
            Err(_) => false,
        }
    }

    /// Whether each expression is true with these values of the locals; `before` tells what `old` and `IsNew` speak of.
    pub fn all_hold<B: Before>(&self, c: &Core, before: &B, es: &[Expr], locals: &[Value]) -> bool
        requires { length (classes c.now.classes) ≤ most_classes }
        ensures { result ≡ list_all (λ e. holds (expr e) (setting (classes c.now.classes) self.now.objects (B.told before.now) locals.now)) es.now }
    {
        es.iter().all(|e| self.holds(c, before, e, locals))
    }

    /// Whether each invariant of the class holds of the object.
    pub(crate) fn invariants_hold(&self, c: &Core, o: Value, t: ClassId) -> bool
        requires { length (classes c.now.classes) ≤ most_classes }
        ensures { result ≡ is_null_or o (λ p. invariants_hold (classes c.now.classes) self.now.objects p t.0) }
    {
        let Value::Obj(o) = o else {
            return true;
        };
        match c.classes.declared(t) {
            Some(class) => self.all_hold(c, self, &class.invariants, &[Value::Obj(o)]),
            None => true,
        }
    }
}
