// What expressions mean, as formulas and terms over stores.

ghost use Rattle.std.specs.Prelude.{◌≡◌, ℕ, List, [], ◌∷◌, ◌++◌, length, map, Bool, true, Some, is_some};
ghost use Rattle.ss_core.specs.declared.names.Ty.{Ty};
ghost use Rattle.ss_core.specs.Tree.{ClassTree, BodyTree, DefaultTree, ExprTree};
ghost use Rattle.ss_core.specs.Chain.{IsChain, NoAlso};
ghost use Rattle.ss_store_rules.specs.declared.Value.{Value as ObjectValue};
ghost use Rattle.ss_store_rules.specs.Types.{type_of, Words, typed, is_condition};
ghost use Rattle.ss_store_rules.specs.Locals.{local_types, is_argument, reads_only};
ghost use Rattle.ss_store_rules.specs.Typed.{is_contract};
ghost use Rattle.ss_store_rules.specs.Values.{Setting, subject};
ghost use Rattle.ss_store_rules.specs.Values as run;
ghost use Rattle.ss_logic.specs.Values.{Heap, Table, IsNumbered, Value, Structure};
ghost use Rattle.ss_logic.specs.Terms.{Term, sort_of_type, have_sorts};
ghost use Rattle.ss_logic.specs.Formulas.{Good, Formula, is_well_formed, AreOf, True, IsValid, atom};
ghost use Rattle.ss_logic.specs.Express.{One, Context, choices, local_meant, element_sort, meant, defined, default_said, holds_formula};
ghost use Rattle.ss_logic.specs.Invariants.{packed_invariants, invariants_of};
ghost use Rattle.ss_machine_typed.specs.Settings.{IsGoodSetting};
ghost use Rattle.ss_logic_means.specs.Means.{standing, Means, Reads};
ghost use Rattle.ss_logic_means.specs.Scenes.{setting_of, Stands, StandsAmong, HaveValues, IsStoreTerm, Stay, has_subject, has_no_default, speaks_only, is_stated, Settled, AreInvariants};
ghost use Rattle.ss_logic.specs.declared.Sort.{Sort};
ghost use Rattle.ss_logic.specs.declared.Sort.TheVariants as sort;
ghost use Rattle.ss_logic_means.specs.Bodies.{body_context, GivesFrom};
ghost use Rattle.ss_logic_means.specs.Sorts.{IsWellExpressed, IsSorted, IsSortedAmong};
ghost use Rattle.ss_logic_means.specs.Sentences.{IsOfGood, AllFollowFromGood};

/// The translation law: the parts of a typed expression are true exactly where it has a value, and what it means then has that value.
pub fn expressions_mean_their_values()
    ensures { (m : Structure) (now entry : Heap) (x : ExprTree) (c : Context) (locals : List ObjectValue) (k : Bool) → IsGoodSetting (setting_of m c now entry locals) c.types k → (e : List Value) → Stands m c now entry locals e → length e ≡ c.bound → has_no_default x ≡ true → is_some (type_of c.classes c.types x) ≡ true → Reads c.classes m e (defined x c) (meant x c) (run.value_of x (setting_of m c now entry locals)) }
{}

/// A context of terms without bound names stands for the stores and values that these have.
pub fn closed_terms_stand()
    ensures { (m : Structure) (c : Context) (now entry : Heap) (terms : List Term) (locals : List ObjectValue) → IsStoreTerm c.classes m c.now now → IsStoreTerm c.classes m c.entry entry → c.locals ≡ map One terms → HaveValues c.classes m terms locals → Stands m c now entry locals [] }
{}

/// The terms of a context without bound names stay what they are after more bound names.
pub fn closed_terms_stay()
    ensures { (m : Structure) (c : Context) (terms : List Term) (locals : List ObjectValue) → c.locals ≡ map One terms → HaveValues c.classes m terms locals → (x : ℕ) → Stay c.classes m [] (choices (local_meant c x)) }
{}

/// The formula of a condition of a contract is true exactly where the condition holds.
pub fn conditions_are_true_where_they_hold()
    ensures { (m : Structure) (now entry : Heap) (x : ExprTree) (c : Context) (locals : List ObjectValue) (k : Bool) → IsGoodSetting (setting_of m c now entry locals) c.types k → (e : List Value) → Stands m c now entry locals e → length e ≡ c.bound → is_stated c.classes c.types x ≡ true → Settled m e c x → Means c.classes m e (holds_formula x c) (run.holds x (setting_of m c now entry locals)) }
{}

/// Each condition of a contract is a default condition of a local that fits it, or a truth value without one.
pub fn contracts_are_stated()
    ensures { (cs : List ClassTree) (b : BodyTree) (w : Words) (among : ℕ → Bool) (x : ExprTree) → is_contract cs b w among x ≡ true → is_stated cs (local_types b) x ≡ true }
{}

/// Each condition of the code of a body is a truth value without a default condition.
pub fn conditions_of_code_are_stated()
    ensures { (cs : List ClassTree) (b : BodyTree) (w : Words) (x : ExprTree) → is_condition cs b w x ≡ true → is_stated cs (local_types b) x ≡ true }
{}

/// No typed expression of a body has a default condition as a part.
pub fn typed_expressions_have_no_default()
    ensures { (cs : List ClassTree) (b : BodyTree) (w : Words) (x : ExprTree) → is_some (typed cs b w x) ≡ true → (has_no_default x ≡ true) × (is_some (type_of cs (local_types b) x) ≡ true) }
{}

/// The formula of a default condition is true exactly where it holds, if the terms of its local don't rest on names bound after.
pub fn default_conditions_are_true_where_they_hold()
    ensures { (m : Structure) (now entry : Heap) (d : DefaultTree) (c : Context) (locals : List ObjectValue) (k : Bool) → IsGoodSetting (setting_of m c now entry locals) c.types k → (e : List Value) → Stands m c now entry locals e → length e ≡ c.bound → has_subject c.classes c.types d ≡ true → Stay c.classes m e (choices (local_meant c (subject d))) → Means c.classes m e (default_said c d) (run.default_holds (setting_of m c now entry locals) d) }
{}

/// Each instance of the rule on invariants is true wherever its store is good.
pub fn a_good_store_meets_its_invariants()
    ensures { (cs : List ClassTree) → IsChain cs → NoAlso cs → AreInvariants cs → (m : Structure) (s : Term) (ts : List Term) (f : Formula) → invariants_of cs s ts ≡ Some f → True cs m [] (atom Good (s ∷ [])) → True cs m [] f }
{}

/// Whatever a rule on good stores says of a store, that on invariants among them, is true where the store is good.
pub fn a_good_store_meets_every_sentence()
    ensures { (cs : List ClassTree) → IsChain cs → NoAlso cs → AreInvariants cs → (m : Structure) (s : Term) (f : Formula) → IsOfGood cs s f → True cs m [] (atom Good (s ∷ [])) → True cs m [] f }
{}

/// An obligation is valid where it is with more premises: sentences on stores that its own premises say are good.
pub fn sentences_on_good_stores_may_be_premises()
    ensures { (cs : List ClassTree) → IsChain cs → NoAlso cs → AreInvariants cs → (premises sentences : List Formula) (goal : Formula) → AllFollowFromGood cs premises sentences → IsValid cs (premises ++ sentences) goal → IsValid cs premises goal }
{}

/// The formulas of a typed expression are well formed: each of its parts, and what it means, which has the sort of its type.
pub fn expressions_are_well_formed()
    ensures { (x : ExprTree) (c : Context) (bound : List Sort) → IsSorted c bound → length bound ≡ c.bound → has_no_default x ≡ true → is_some (type_of c.classes c.types x) ≡ true → IsWellExpressed c.classes bound (element_sort (type_of c.classes c.types x)) (defined x c) (meant x c) }
{}

/// The formula of a default condition is well formed, if it speaks of a local that fits it.
pub fn default_conditions_are_well_formed()
    ensures { (d : DefaultTree) (c : Context) (bound : List Sort) → IsSorted c bound → length bound ≡ c.bound → has_subject c.classes c.types d ≡ true → is_well_formed c.classes bound (default_said c d) ≡ true }
{}

/// The formulas of each stated expression are well formed, default conditions among them: its parts, and what it means, which is a truth value.
pub fn stated_expressions_are_well_formed()
    ensures { (x : ExprTree) (c : Context) (bound : List Sort) → IsSorted c bound → length bound ≡ c.bound → is_stated c.classes c.types x ≡ true → IsWellExpressed c.classes bound sort.Truth (defined x c) (meant x c) }
{}

/// The formula that a stated expression is defined and holds is well formed.
pub fn conditions_are_well_formed()
    ensures { (x : ExprTree) (c : Context) (bound : List Sort) → IsSorted c bound → length bound ≡ c.bound → is_stated c.classes c.types x ≡ true → is_well_formed c.classes bound (holds_formula x c) ≡ true }
{}

/// A context of two stores, and for each local a term of the sort of its type, none with bound names, is sorted.
pub fn closed_terms_are_sorted()
    ensures { (c : Context) (terms : List Term) → have_sorts c.classes (sort.Store ∷ sort.Store ∷ []) (c.now ∷ c.entry ∷ []) ≡ true → c.locals ≡ map One terms → have_sorts c.classes (map sort_of_type c.types) terms ≡ true → IsSorted c [] }
{}

/// The formula that an object has its invariants where it is packed is well formed, of a store and an object without bound names.
pub fn packed_invariants_are_well_formed()
    ensures { (cs : List ClassTree) → AreInvariants cs → (s o : Term) → have_sorts cs (sort.Store ∷ sort.Rest ∷ []) (s ∷ o ∷ []) ≡ true → (t : ℕ) → is_well_formed cs [] (packed_invariants cs s o t) ≡ true }
{}

/// Each instance of the rule on invariants is a well formed formula.
pub fn instances_on_invariants_are_well_formed()
    ensures { (cs : List ClassTree) → AreInvariants cs → (s : Term) (ts : List Term) (f : Formula) → invariants_of cs s ts ≡ Some f → is_well_formed cs [] f ≡ true }
{}

/// The context of a body whose locals are constants meets what the laws on well formed formulas ask, between stores without bound names.
pub fn contexts_of_bodies_are_sorted()
    ensures { (cs : List ClassTree) (b : BodyTree) (now entry : Term) → have_sorts cs (sort.Store ∷ sort.Store ∷ []) (now ∷ entry ∷ []) ≡ true → IsSorted (body_context cs b now entry) [] }
{}

/// The context of a body stands for its two stores, and for the values that a structure gives the constants of its locals.
pub fn contexts_of_bodies_stand()
    ensures { (m : Structure) (cs : List ClassTree) (b : BodyTree) (now entry : Term) (current former : Heap) (locals : List ObjectValue) → IsStoreTerm cs m now current → IsStoreTerm cs m entry former → GivesFrom m 0 (local_types b) locals → Stands m (body_context cs b now entry) current former locals [] }
{}

/// The constants of the context of a body stay what they are after more bound names.
pub fn contexts_of_bodies_stay()
    ensures { (m : Structure) (cs : List ClassTree) (b : BodyTree) (now entry : Term) (locals : List ObjectValue) → GivesFrom m 0 (local_types b) locals → (x : ℕ) → Stay cs m [] (choices (local_meant (body_context cs b now entry) x)) }
{}

/// For two stores whose groups are numbered, and values of the sorts of these types, some structure has the stores as its first two constants, and gives the constants of the types these values.
pub fn some_structure_gives_the_values()
    ensures { (table : Table) (now entry : Heap) → IsNumbered now → IsNumbered entry → (locals : List ObjectValue) (types : List Ty) → AreOf (map sort_of_type types) (map standing locals) → (m : Structure) × (m.table ≡ table) × (m.stores 0 ≡ now) × (m.stores 1 ≡ entry) × GivesFrom m 0 types locals }
{}

/// Locals of a good setting have values of the sorts of their types.
pub fn locals_have_the_sorts_of_their_types()
    ensures { (s : Setting) (types : List Ty) (k : Bool) → IsGoodSetting s types k → AreOf (map sort_of_type types) (map standing s.locals) }
{}

/// Each condition of a contract of a body, or of its code, is a well formed formula in the context of the body.
pub fn conditions_of_bodies_are_well_formed()
    ensures { (cs : List ClassTree) (b : BodyTree) (x : ExprTree) → is_stated cs (local_types b) x ≡ true → (now entry : Term) → have_sorts cs (sort.Store ∷ sort.Store ∷ []) (now ∷ entry ∷ []) ≡ true → is_well_formed cs [] (holds_formula x (body_context cs b now entry)) ≡ true }
{}

/// The formula of a condition of a body is true exactly where it holds, for the values of the constants of its locals.
pub fn conditions_of_bodies_are_true_where_they_hold()
    ensures { (cs : List ClassTree) (b : BodyTree) (x : ExprTree) → is_stated cs (local_types b) x ≡ true → (m : Structure) (now entry : Term) (current former : Heap) (locals : List ObjectValue) (k : Bool) → IsGoodSetting (setting_of m (body_context cs b now entry) current former locals) (local_types b) k → IsStoreTerm cs m now current → IsStoreTerm cs m entry former → GivesFrom m 0 (local_types b) locals → Means cs m [] (holds_formula x (body_context cs b now entry)) (run.holds x (setting_of m (body_context cs b now entry) current former locals)) }
{}

/// An expression means its value where the locals that it reads have theirs. Its parts are true exactly where it has a value.
pub fn expressions_mean_their_values_where_read()
    ensures { (among : ℕ → Bool) (m : Structure) (now entry : Heap) (x : ExprTree) (c : Context) (locals : List ObjectValue) (k : Bool) → IsGoodSetting (setting_of m c now entry locals) c.types k → (e : List Value) → StandsAmong among m c now entry locals e → length e ≡ c.bound → reads_only among x ≡ true → has_no_default x ≡ true → is_some (type_of c.classes c.types x) ≡ true → Reads c.classes m e (defined x c) (meant x c) (run.value_of x (setting_of m c now entry locals)) }
{}

/// The formulas of a typed expression are well formed where what the locals mean that it reads has the sorts of their types.
pub fn expressions_are_well_formed_where_read()
    ensures { (among : ℕ → Bool) (x : ExprTree) (c : Context) (bound : List Sort) → IsSortedAmong among c bound → length bound ≡ c.bound → reads_only among x ≡ true → has_no_default x ≡ true → is_some (type_of c.classes c.types x) ≡ true → IsWellExpressed c.classes bound (element_sort (type_of c.classes c.types x)) (defined x c) (meant x c) }
{}

/// The formula of a condition is true exactly where it holds, if the locals of which it speaks have their values.
pub fn conditions_are_true_where_they_hold_where_read()
    ensures { (among : ℕ → Bool) (m : Structure) (now entry : Heap) (x : ExprTree) (c : Context) (locals : List ObjectValue) (k : Bool) → IsGoodSetting (setting_of m c now entry locals) c.types k → (e : List Value) → StandsAmong among m c now entry locals e → length e ≡ c.bound → speaks_only among x ≡ true → is_stated c.classes c.types x ≡ true → Settled m e c x → Means c.classes m e (holds_formula x c) (run.holds x (setting_of m c now entry locals)) }
{}

/// The formula of a condition is well formed where what the locals mean of which it speaks has the sorts of their types.
pub fn conditions_are_well_formed_where_read()
    ensures { (among : ℕ → Bool) (x : ExprTree) (c : Context) (bound : List Sort) → IsSortedAmong among c bound → length bound ≡ c.bound → speaks_only among x ≡ true → is_stated c.classes c.types x ≡ true → is_well_formed c.classes bound (holds_formula x c) ≡ true }
{}

/// A condition of a contract speaks of no other locals than those that it may read, if the arguments are among these.
pub fn contracts_speak_of_their_locals()
    ensures { (cs : List ClassTree) (b : BodyTree) (w : Words) (among : ℕ → Bool) (x : ExprTree) → is_contract cs b w among x ≡ true → ((y : ℕ) → is_argument b y ≡ true → among y ≡ true) → speaks_only among x ≡ true }
{}
