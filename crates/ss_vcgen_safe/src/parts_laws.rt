// Laws over the parts of expressions of code.

ghost use Rattle.std.specs.Prelude.{◌≡◌, ℕ, List, [], ◌∷◌, length, map, Bool, true, ◌||◌, Ok, is_some};
ghost use Rattle.std.specs.List.{list_all};
ghost use Rattle.ss_core.specs.Tree.{BodyTree, ExprTree};
ghost use Rattle.ss_store_rules.specs.declared.Value.{Value as ObjectValue};
ghost use Rattle.ss_store_rules.specs.Assigned.{reads_assigned};
ghost use Rattle.ss_store_rules.specs.Locals.{local_types, is_bound, reads_only};
ghost use Rattle.ss_store_rules.specs.NonNull.{Known, Site};
ghost use Rattle.ss_store_rules.specs.Types.{type_of, Words, is_condition};
ghost use Rattle.ss_store_rules.specs.Values as run;
ghost use Rattle.ss_machine_rules.specs.Steps.{values_of};
ghost use Rattle.ss_machine_typed.specs.Settings.{IsGoodSetting};
ghost use Rattle.ss_machine_good.specs.Known.{IsTrueOf, AreAssigned, WasReady};
ghost use Rattle.ss_logic.specs.declared.Sort.{Sort};
ghost use Rattle.ss_logic.specs.declared.Sort.TheVariants as sort;
ghost use Rattle.ss_logic.specs.Values.{Heap, Value, store, Structure};
ghost use Rattle.ss_logic.specs.Terms.{value_of};
ghost use Rattle.ss_logic.specs.Formulas.{is_well_formed, AllTrue, formulas_from};
ghost use Rattle.ss_logic.specs.Express.{Context, meant, defined, holds_formula};
ghost use Rattle.ss_logic_means.specs.Means.{standing, Means, Denotes};
ghost use Rattle.ss_logic_means.specs.Scenes.{setting_of, StandsAmong, has_no_default};
ghost use Rattle.ss_logic_means.specs.Sorts.{HasSort, AreWellFormed, IsSortedAmong};
ghost use Rattle.ss_vcgen_heaps.specs.Parts.{parts};
ghost use Rattle.ss_vcgen_heaps.specs.Positions.{Position, Walk, context_at};
ghost use Rattle.ss_vcgen_safe.specs.Placed.{HaveValues, HaveSorts};
ghost use Rattle.ss_vcgen_safe.specs.Reading.{formulas_of, HasTrueParts, IsRead, AllDenote, AllHaveTrueParts};

/// Where the parts of a typed expression that are checked are true, it has a value, and what it means has that value.
pub fn true_parts_are_enough()
    ensures { (b : BodyTree) (assigned : ℕ → Bool) (k : Known) (m : Structure) (c : Context) (now entry : Heap) (locals : List ObjectValue) (e : List Value) → IsRead b assigned k m c now entry locals e → (x : ExprTree) → reads_assigned b assigned x ≡ true → has_no_default x ≡ true → is_some (type_of c.classes c.types x) ≡ true → HasTrueParts b k m e c x → (v : ObjectValue) × (run.value_of x (setting_of m c now entry locals) ≡ Ok v) × Denotes c.classes m e (meant x c) (standing v) }
{}

/// Where the parts of a typed expression that are checked are true, so are the others. Those follow from its types, and from what is known of null.
pub fn unchecked_parts_are_true()
    ensures { (b : BodyTree) (assigned : ℕ → Bool) (k : Known) (m : Structure) (c : Context) (now entry : Heap) (locals : List ObjectValue) (e : List Value) → IsRead b assigned k m c now entry locals e → (x : ExprTree) → reads_assigned b assigned x ≡ true → has_no_default x ≡ true → is_some (type_of c.classes c.types x) ≡ true → HasTrueParts b k m e c x → AllTrue c.classes m e (formulas_from (defined x c)) }
{}

/// Where a typed expression has a value, its parts are true, whatever is known of null.
pub fn parts_of_values_are_true()
    ensures { (among : ℕ → Bool) (m : Structure) (now entry : Heap) (x : ExprTree) (c : Context) (locals : List ObjectValue) (constructs : Bool) → IsGoodSetting (setting_of m c now entry locals) c.types constructs → (e : List Value) → StandsAmong among m c now entry locals e → length e ≡ c.bound → reads_only among x ≡ true → has_no_default x ≡ true → is_some (type_of c.classes c.types x) ≡ true → (s : Site) (k : Known) (v : ObjectValue) → run.value_of x (setting_of m c now entry locals) ≡ Ok v → AllTrue c.classes m e (formulas_from (formulas_of (parts x s k c))) }
{}

/// The parts of a typed expression are well formed formulas.
pub fn parts_are_well_formed()
    ensures { (among : ℕ → Bool) (x : ExprTree) (c : Context) (bound : List Sort) → IsSortedAmong among c bound → length bound ≡ c.bound → reads_only among x ≡ true → has_no_default x ≡ true → is_some (type_of c.classes c.types x) ≡ true → (s : Site) (k : Known) → AreWellFormed c.classes bound (formulas_of (parts x s k c)) }
{}

/// Where the parts of each of these expressions are true, they have values, which are what they mean.
pub fn true_parts_are_enough_for_all()
    ensures { (b : BodyTree) (assigned : ℕ → Bool) (k : Known) (m : Structure) (c : Context) (now entry : Heap) (locals : List ObjectValue) (e : List Value) → IsRead b assigned k m c now entry locals e → (xs : List ExprTree) → list_all (reads_assigned b assigned) xs ≡ true → list_all has_no_default xs ≡ true → list_all (λ x. is_some (type_of c.classes c.types x)) xs ≡ true → AllHaveTrueParts b k m e c xs → (vs : List ObjectValue) × (values_of xs (setting_of m c now entry locals) ≡ Ok vs) × AllDenote c.classes m e (map (λ x. meant x c) xs) vs }
{}

/// Where each of these expressions has a value, their parts are true, and what they mean are the values.
pub fn parts_of_all_values_are_true()
    ensures { (b : BodyTree) (assigned : ℕ → Bool) (k : Known) (m : Structure) (c : Context) (now entry : Heap) (locals : List ObjectValue) (e : List Value) → IsRead b assigned k m c now entry locals e → (xs : List ExprTree) → list_all (reads_assigned b assigned) xs ≡ true → list_all has_no_default xs ≡ true → list_all (λ x. is_some (type_of c.classes c.types x)) xs ≡ true → (vs : List ObjectValue) → values_of xs (setting_of m c now entry locals) ≡ Ok vs → AllHaveTrueParts b k m e c xs × AllDenote c.classes m e (map (λ x. meant x c) xs) vs }
{}

/// The formula of a condition of code is true exactly where the condition holds.
pub fn conditions_of_code_are_true_where_they_hold()
    ensures { (b : BodyTree) (assigned : ℕ → Bool) (k : Known) (m : Structure) (c : Context) (now entry : Heap) (locals : List ObjectValue) (e : List Value) → IsRead b assigned k m c now entry locals e → (w : Words) (x : ExprTree) → is_condition c.classes b w x ≡ true → reads_assigned b assigned x ≡ true → Means c.classes m e (holds_formula x c) (run.holds x (setting_of m c now entry locals)) }
{}

/// The formula of a condition of code is well formed where what the assigned locals mean has the sorts of their types.
pub fn conditions_of_code_are_well_formed()
    ensures { (b : BodyTree) (assigned : ℕ → Bool) (c : Context) (bound : List Sort) → c.types ≡ local_types b → IsSortedAmong (λ x. assigned x || is_bound b x) c bound → length bound ≡ c.bound → (w : Words) (x : ExprTree) → is_condition c.classes b w x ≡ true → reads_assigned b assigned x ≡ true → is_well_formed c.classes bound (holds_formula x c) ≡ true }
{}

/// The context of a position stands for the stores of its terms, and for the values of the locals that have terms.
pub fn contexts_of_positions_stand()
    ensures { (w : Walk) (k : Position) (among : ℕ → Bool) (m : Structure) (now entry : Heap) (values : List ObjectValue) → ((e : List Value) → value_of w.program.classes m e k.store ≡ store now) → ((e : List Value) → value_of w.program.classes m e w.entry ≡ store entry) → length k.locals ≡ length values → HaveValues w.program.classes m among k.locals values → StandsAmong among m (context_at w k) now entry values [] }
{}

/// The context of a position is sorted on the locals that have terms of the sorts of their types.
pub fn contexts_of_positions_are_sorted()
    ensures { (w : Walk) (k : Position) (among : ℕ → Bool) → HasSort w.program.classes [] sort.Store k.store → HasSort w.program.classes [] sort.Store w.entry → length k.locals ≡ length (local_types w.body) → HaveSorts w.program.classes among k.locals (local_types w.body) → IsSortedAmong among (context_at w k) [] }
{}

/// At a position the expressions are read that read assigned locals alone, where these have terms with their values.
pub fn positions_are_read()
    ensures { (w : Walk) (k : Position) (assigned : ℕ → Bool) → length k.locals ≡ length (local_types w.body) → (m : Structure) (now entry : Heap) (values : List ObjectValue) → IsGoodSetting (setting_of m (context_at w k) now entry values) (local_types w.body) w.body.flags.ctor → WasReady w.body.flags.ctor (setting_of m (context_at w k) now entry values) → AreAssigned w.body assigned (setting_of m (context_at w k) now entry values) → IsTrueOf w.body.flags.ctor k.known (setting_of m (context_at w k) now entry values) → ((e : List Value) → value_of w.program.classes m e k.store ≡ store now) → ((e : List Value) → value_of w.program.classes m e w.entry ≡ store entry) → HaveValues w.program.classes m assigned k.locals values → IsRead w.body assigned k.known m (context_at w k) now entry values [] }
{}

/// The context of a position is sorted as the laws on expressions ask that read assigned locals alone, where these have terms.
pub fn contexts_are_sorted_where_locals_are_assigned()
    ensures { (w : Walk) (k : Position) (assigned : ℕ → Bool) → length k.locals ≡ length (local_types w.body) → HasSort w.program.classes [] sort.Store k.store → HasSort w.program.classes [] sort.Store w.entry → HaveSorts w.program.classes assigned k.locals (local_types w.body) → IsSortedAmong (λ x. assigned x || is_bound w.body x) (context_at w k) [] }
{}
