// Laws over values and stores.

ghost use Rattle.std.specs.Prelude.{◌≡◌, ℕ, ℤ, List, ◌++◌, map, true, false, Bool, ◌&&◌, Ok, Some, slice_get, slice_set, option_to_list};
ghost use Rattle.ss_core.specs.declared.names.Ty.{Ty};
ghost use Rattle.ss_core.specs.Tree.{ClassTree, ExprTree, BodyTree};
ghost use Rattle.ss_core.specs.Chain.{IsChain};
ghost use Rattle.ss_store_rules.specs.declared.Value.{Value};
ghost use Rattle.ss_store_rules.specs.Store.{Object, default_value};
ghost use Rattle.ss_store_rules.specs.Values.{Setting, value_of};
ghost use Rattle.ss_store_rules.specs.Locals.{types_of, local_types};
ghost use Rattle.ss_store_rules.specs.Types.{type_of};
ghost use Rattle.ss_store_rules.specs.NonNull.{is_this_object};
ghost use Rattle.ss_store_rules.specs.Good.{Invariants, has_type, IsReady, IsGood};
ghost use Rattle.ss_store_rules.specs.Admissible.{invariants_hold};
ghost use Rattle.ss_store_rules.specs.States.{AreGoodLocals};
ghost use Rattle.ss_store_rules.specs.Admitted.{first_store, first_locals};
ghost use Rattle.ss_store_rules.specs.Formed.{IsMain};
ghost use Rattle.ss_machine_typed.specs.Older.{IsOlder};
ghost use Rattle.ss_machine_typed.specs.Changes.{IsChanged};
ghost use Rattle.ss_machine_typed.specs.Settings.{IsGoodSetting, AreGoodArguments};
ghost use Rattle.ss_machine_typed.specs.Inputs.{IsInput};

/// The value of an expression is of its static type.
pub fn values_have_their_types()
    ensures { (e : ExprTree) (c : Setting) (tys : List Ty) (k : Bool) → IsGoodSetting c tys k → (t : Ty) (v : Value) → type_of c.classes tys e ≡ Some t → value_of e c ≡ Ok v → has_type c.classes c.store t v ≡ true }
{}

/// What it refers to is ready, but for the `this` of a constructor.
pub fn values_are_ready()
    ensures { (e : ExprTree) (c : Setting) (tys : List Ty) (k : Bool) → IsGoodSetting c tys k → (t : Ty) (v : Value) → (k && is_this_object e) ≡ false → type_of c.classes tys e ≡ Some t → value_of e c ≡ Ok v → IsReady c.store v }
{}

/// A store is older than itself.
pub fn older_begins()
    ensures { (s : List Object) → IsOlder s s }
{}

/// What is older than an older store is so too.
pub fn older_goes_on()
    ensures { (r s t : List Object) → IsOlder r s → IsOlder s t → IsOlder r t }
{}

/// Each change of a store leaves it older.
pub fn changes_leave_older()
    ensures { (cs : List ClassTree) (holds : Invariants) (s s' : List Object) → IsChanged cs holds s s' → IsOlder s s' }
{}

/// Good locals stay so in each later store.
pub fn locals_stay_good()
    ensures { (cs : List ClassTree) (s s' : List Object) → IsOlder s s' → (b : BodyTree) (locals : List Value) → AreGoodLocals cs s b locals → AreGoodLocals cs s' b locals }
{}

/// They stay so where one is assigned a ready value of its type.
pub fn put_keeps_good_locals()
    ensures { (cs : List ClassTree) (s : List Object) (b : BodyTree) (locals : List Value) (x : ℕ) (t : Ty) (v : Value) → AreGoodLocals cs s b locals → slice_get (local_types b) x ≡ Some t → has_type cs s t v ≡ true → IsReady s v → AreGoodLocals cs s b (slice_set locals x v) }
{}

/// The locals of a body at its entry are good where its arguments are.
pub fn locals_are_good_at_entry()
    ensures { (cs : List ClassTree) (s : List Object) (b : BodyTree) (arguments : List Value) → AreGoodArguments cs s b arguments → AreGoodLocals cs s b (arguments ++ map default_value (types_of b.locals ++ option_to_list b.result)) }
{}

/// The first store is good.
pub fn first_store_is_good()
    ensures { (cs : List ClassTree) → IsChain cs → (input : List ℤ) → IsInput input → IsGood cs (invariants_hold cs) (first_store input) }
{}

/// So are the locals of Main at its entry.
pub fn locals_are_good_at_start()
    ensures { (cs : List ClassTree) (input : List ℤ) (b : BodyTree) → IsMain b → AreGoodLocals cs (first_store input) b (first_locals b) }
{}
