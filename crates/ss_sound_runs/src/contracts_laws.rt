// Laws over contracts at the two ends of a call.

ghost use Rattle.std.specs.Prelude.{◌≡◌, ℕ, List, length, true, Option, Some};
ghost use Rattle.ss_core.specs.Tree.{BodyTree, CoreTree};
ghost use Rattle.ss_core.specs.Chain.{below, NoAlso};
ghost use Rattle.ss_store_rules.specs.declared.Value.{Value};
ghost use Rattle.ss_store_rules.specs.Store.{Object};
ghost use Rattle.ss_store_rules.specs.Values.{setting};
ghost use Rattle.ss_store_rules.specs.Locals.{argument_count, is_variable, is_kept_among};
ghost use Rattle.ss_store_rules.specs.Typed.{is_instance_method, method_at};
ghost use Rattle.ss_store_rules.specs.Formed.{IsFormedBody, IsFormed};
ghost use Rattle.ss_machine_rules.specs.Frame.{is_kept};
ghost use Rattle.ss_machine_rules.specs.States.{ToCall, locals_at_entry, put};
ghost use Rattle.ss_machine_rules.specs.Steps.{all_hold, result_local};
ghost use Rattle.ss_vcgen_heaps.specs.Contracts.{seen};
ghost use Rattle.ss_sound_outcomes.specs.Points.{Activation, ArePassed};
ghost use Rattle.ss_sound_outcomes.specs.Outcomes.{locals_at_exit, IsReturn, Enters};
ghost use Rattle.ss_sound_runs.specs.Served.{Serves, IsCalledOn, HasArguments};

/// The class of an object that is of the class t has a method that serves each call of a method of t.
pub fn dispatch_serves()
    ensures { (c : CoreTree) → IsFormed c → (t m : ℕ) (from : BodyTree) → method_at c t m ≡ Some from → is_instance_method from ≡ true → (d : ℕ) → below c.classes d t ≡ true → (to : BodyTree) × (method_at c d m ≡ Some to) × Serves c d from to }
{}

/// The arguments of a call are of the types of the method that serves it.
pub fn dispatched_arguments_are_passed()
    ensures { (c : CoreTree) → NoAlso c.classes → (d : ℕ) (from to : BodyTree) → Serves c d from to → (s : List Object) (arguments : List Value) → IsCalledOn s d arguments → ArePassed c from s arguments → ArePassed c to s arguments }
{}

/// They are those of the method as its callers see it.
pub fn seen_arguments_are_passed()
    ensures { (c : CoreTree) (b : BodyTree) (s : List Object) (arguments : List Value) → ArePassed c b s arguments → ArePassed c (seen b) s arguments }
{}

/// Where the conditions at entry hold that a caller sees, those of the method that serves the call do.
pub fn dispatched_bodies_are_entered()
    ensures { (a : Activation) (d : ℕ) (from to : BodyTree) → Serves a.program d from to → (s : List Object) (arguments : List Value) → IsCalledOn s d arguments → length arguments ≡ argument_count from → Enters a (seen from) arguments s → Enters a to arguments s }
{}

/// What the contract of the method that serves a call allows, that which the caller sees allows too.
pub fn dispatched_returns_are_seen()
    ensures { (a : Activation) (d : ℕ) (from to : BodyTree) → Serves a.program d from to → (x : Option ℕ) (s z : List Object) (arguments : List Value) (v : Value) → IsCalledOn s d arguments → length arguments ≡ argument_count from → IsReturn a to (ToCall x) arguments s z v → IsReturn a (seen from) (ToCall x) arguments s z v }
{}

/// The conditions at exit read no locals but the arguments and the result.
pub fn exits_read_arguments()
    ensures { (c : CoreTree) (b : BodyTree) → IsFormedBody c b → (s z : List Object) (arguments locals : List Value) (v : Value) → HasArguments b arguments locals → all_hold b.exit (setting c.classes z s (put (result_local b) v locals)) ≡ all_hold b.exit (setting c.classes z s (locals_at_exit b arguments v)) }
{}

/// The frame condition reads no locals but the arguments.
pub fn frames_read_arguments()
    ensures { (c : CoreTree) (b : BodyTree) → IsFormedBody c b → (s z : List Object) (outside : List Value) (arguments locals : List Value) (v : Value) → HasArguments b arguments locals →
        is_kept (record { classes = c.classes; body = b; locals = put (result_local b) v locals; entry = s; now = z; outside = outside }) ≡ is_kept (record { classes = c.classes; body = b; locals = locals_at_entry b arguments; entry = s; now = z; outside = outside }) }
{}

/// At the entry of a body its first locals are its arguments.
pub fn entries_have_arguments()
    ensures { (b : BodyTree) (arguments : List Value) → length arguments ≡ argument_count b → HasArguments b arguments (locals_at_entry b arguments) }
{}

/// They stay so where another local is assigned.
pub fn assignments_keep_arguments()
    ensures { (b : BodyTree) (arguments locals : List Value) (x : Option ℕ) (v : Value) → is_kept_among (is_variable b) x ≡ true → HasArguments b arguments locals → HasArguments b arguments (put x v locals) }
{}
