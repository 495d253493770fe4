// Laws over what is known of the `this` of constructors.

ghost use Rattle.std.specs.Prelude.{◌≡◌, Bool, true, false, Some};
ghost use Rattle.ss_core.specs.Tree.{BodyTree, CoreTree};
ghost use Rattle.ss_store_rules.specs.Paths.{Check, holds_along};
ghost use Rattle.ss_store_rules.specs.NonNull.{known_at_entry, known_flow};
ghost use Rattle.ss_store_rules.specs.Formed.{IsFormed, IsFormedBody};
ghost use Rattle.ss_machine_good.specs.Flows.{GoesAlong};
ghost use Rattle.ss_machine_good.specs.Checks.{fields_check, ready_flow, ready_check, IsThisReady};

/// Whether `this` is ready goes along the paths of each body, whatever is checked.
pub fn ready_goes_along()
    ensures { (c : CoreTree) (k : Check Bool) (constructs : Bool) → GoesAlong (ready_flow c) k (IsThisReady constructs) }
{}

/// In a formed body the fields of `this` have their values where a constructor says so: at each return, before `base(..)` and before `ready this`.
pub fn fields_hold_along()
    ensures { (c : CoreTree) → IsFormed c → (b : BodyTree) → IsFormedBody c b → holds_along (known_flow c b) (fields_check c b) b.code (Some (known_at_entry b)) ≡ true }
{}

/// A formed constructor passes its `this` on only where that is ready.
pub fn this_is_kept_along()
    ensures { (c : CoreTree) → IsFormed c → (b : BodyTree) → IsFormedBody c b → holds_along (ready_flow c) (ready_check b) b.code (Some false) ≡ true }
{}
