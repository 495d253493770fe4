// The formulas of the frame condition, and of the conditions of contracts, say what is so of the objects of two heaps.

ghost use Rattle.std.specs.Prelude.{◌≡◌, List, [], ◌∷◌, ◌++◌, map, true, Some, None};
ghost use Rattle.ss_core.specs.declared.names.Ty.{Ty};
ghost use Rattle.ss_core.specs.Tree.{ClassTree, ExprTree, BodyTree, CoreTree};
ghost use Rattle.ss_store_rules.specs.declared.Value.{Value as ObjectValue};
ghost use Rattle.ss_store_rules.specs.Values.{holds};
ghost use Rattle.ss_store_rules.specs.Locals.{types_of, argument_types, local_types};
ghost use Rattle.ss_store_rules.specs.Formed.{IsFormedBody};
ghost use Rattle.ss_store_rules.specs.Good.{IsGood};
ghost use Rattle.ss_store_rules.specs.Admissible.{invariants_hold};
ghost use Rattle.ss_machine_rules.specs.Frame.{is_kept};
ghost use Rattle.ss_machine_rules.specs.States.{locals_at_entry};
ghost use Rattle.ss_logic.specs.Values.{Heap, Structure};
ghost use Rattle.ss_logic.specs.Terms.{Term, sort_of_type, have_sorts};
ghost use Rattle.ss_logic.specs.Formulas.{is_well_formed, True};
ghost use Rattle.ss_logic.specs.Objects.{objects_of};
ghost use Rattle.ss_logic.specs.Frames.{kept, grown};
ghost use Rattle.ss_logic.specs.Sorted.{AreSorted};
ghost use Rattle.ss_logic.specs.Express.{Meant, One, holds_formula};
ghost use Rattle.ss_logic_means.specs.Means.{Means};
ghost use Rattle.ss_logic_means.specs.Scenes.{HaveValues, IsStoreTerm, is_stated};
ghost use Rattle.ss_vcgen_heaps.specs.Contracts.{defaults_meant, no_result, seen};
ghost use Rattle.ss_logic_tables.specs.Elsewhere.{SameElsewhere};
ghost use Rattle.ss_sound_outcomes.specs.Points.{HasGrown};
ghost use Rattle.ss_sound_outcomes.specs.Outcomes.{locals_at_exit};
ghost use Rattle.ss_logic_tables.specs.Spans.{IsArgument, AreArguments, IsTypedBody, SpanTerms, SpanValues, IsSpan, span_of, terms_of};
ghost use Rattle.ss_logic_tables.specs.Conditions.{ContractTerms, ContractValues, contract_of, contract_setting_of, IsContract};

/// The terms of a frame condition are well sorted.
pub fn frame_terms_are_sorted()
    ensures { (cs : List ClassTree) (m : Structure) (b : BodyTree) (t : SpanTerms) (v : SpanValues) → IsSpan cs m b t v → AreSorted cs (terms_of cs b t) }
{}

/// Where the formula of a frame condition is true, the objects of the two heaps keep to it.
pub fn true_formulas_are_kept()
    ensures { (cs : List ClassTree) (m : Structure) (b : BodyTree) (t : SpanTerms) (v : SpanValues) → IsSpan cs m b t v → True cs m [] (kept cs (terms_of cs b t)) → is_kept (span_of cs m b v) ≡ true }
{}

/// And it is true wherever they do, if what no object tells is the same in both heaps.
pub fn kept_formulas_are_true()
    ensures { (cs : List ClassTree) (m : Structure) (b : BodyTree) (t : SpanTerms) (v : SpanValues) → IsSpan cs m b t v → SameElsewhere cs m.table v.before v.after → is_kept (span_of cs m b v) ≡ true → True cs m [] (kept cs (terms_of cs b t)) }
{}

/// Where the formula of growth is true, the objects of the later heap have grown out of those of the earlier one.
pub fn true_growth_is_growth()
    ensures { (cs : List ClassTree) (m : Structure) (s r : Term) (h z : Heap) → IsStoreTerm cs m s h → IsStoreTerm cs m r z → IsGood cs (invariants_hold cs) (objects_of cs m.table z) → True cs m [] (grown s r) → HasGrown (objects_of cs m.table h) (objects_of cs m.table z) }
{}

/// And it is true wherever they have.
pub fn growth_is_true()
    ensures { (cs : List ClassTree) (m : Structure) (s r : Term) (h z : Heap) → IsStoreTerm cs m s h → IsStoreTerm cs m r z → IsGood cs (invariants_hold cs) (objects_of cs m.table h) → IsGood cs (invariants_hold cs) (objects_of cs m.table z) → HasGrown (objects_of cs m.table h) (objects_of cs m.table z) → True cs m [] (grown s r) }
{}

/// A formed body is typed as a frame condition asks.
pub fn formed_bodies_are_typed()
    ensures { (c : CoreTree) (b : BodyTree) → IsFormedBody c b → IsTypedBody c.classes b }
{}

/// So is what its callers see of it.
pub fn seen_bodies_are_typed()
    ensures { (cs : List ClassTree) (b : BodyTree) → IsTypedBody cs b → IsTypedBody cs (seen b) }
{}

/// Terms without bound names, of the sorts of the types, are arguments.
pub fn terms_are_arguments()
    ensures { (cs : List ClassTree) (m : Structure) (ts : List Ty) (us : List Term) (vs : List ObjectValue) → have_sorts cs (map sort_of_type ts) us ≡ true → HaveValues cs m us vs → AreArguments cs m ts (map One us) vs }
{}

/// The locals of a contract at an entry stand for those of the body there.
pub fn entries_have_their_locals()
    ensures { (cs : List ClassTree) (m : Structure) (b : BodyTree) (xs : List Meant) (vs : List ObjectValue) → AreArguments cs m (argument_types b) xs vs → AreArguments cs m (local_types b) (xs ++ defaults_meant (types_of b.locals) ++ no_result b) (locals_at_entry b vs) }
{}

/// And those of a contract where a body with a result is left.
pub fn exits_have_their_locals()
    ensures { (cs : List ClassTree) (m : Structure) (b : BodyTree) (xs : List Meant) (vs : List ObjectValue) → AreArguments cs m (argument_types b) xs vs → (t : Ty) → b.result ≡ Some t → (x : Meant) (v : ObjectValue) → IsArgument cs m t x v → AreArguments cs m (local_types b) (xs ++ defaults_meant (types_of b.locals) ++ x ∷ []) (locals_at_exit b vs v) }
{}

/// And where one without a result is.
pub fn plain_exits_have_their_locals()
    ensures { (cs : List ClassTree) (m : Structure) (b : BodyTree) (xs : List Meant) (vs : List ObjectValue) → AreArguments cs m (argument_types b) xs vs → b.result ≡ None → (v : ObjectValue) → AreArguments cs m (local_types b) (xs ++ defaults_meant (types_of b.locals) ++ []) (locals_at_exit b vs v) }
{}

/// The formula of a condition of a contract is true exactly where the condition holds.
pub fn contracts_are_true_where_they_hold()
    ensures { (cs : List ClassTree) (m : Structure) (b : BodyTree) (t : ContractTerms) (v : ContractValues) → IsContract cs m b t v → (x : ExprTree) → is_stated cs (local_types b) x ≡ true → Means cs m [] (holds_formula x (contract_of cs b t)) (holds x (contract_setting_of cs m v)) }
{}

/// And it is well formed.
pub fn contracts_are_well_formed()
    ensures { (cs : List ClassTree) (m : Structure) (b : BodyTree) (t : ContractTerms) (v : ContractValues) → IsContract cs m b t v → (x : ExprTree) → is_stated cs (local_types b) x ≡ true → is_well_formed cs [] (holds_formula x (contract_of cs b t)) ≡ true }
{}
