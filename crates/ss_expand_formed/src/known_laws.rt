// What the check of null knows along code: more before it is more after it, and what isn't assigned stays known.

ghost use Rattle.std.specs.Prelude.{◌≡◌, ℕ, true, not, Option};
ghost use Rattle.ss_core.specs.Tree.{CodeTree, BodyTree, CoreTree};
ghost use Rattle.ss_store_rules.specs.Locals.{each, is_target};
ghost use Rattle.ss_store_rules.specs.Paths.{at_end, holds_along, where_reached};
ghost use Rattle.ss_store_rules.specs.NonNull.{Known, known_flow, null_check};
ghost use Rattle.ss_expand_formed.specs.Order.{AtLeastWhere};

/// Where more is known before code, more is known after it.
pub fn keeps_the_order()
    ensures { (c : CoreTree) (b : BodyTree) (code : CodeTree) (k l : Option Known) → AtLeastWhere k l → AtLeastWhere (at_end (known_flow c b) code k) (at_end (known_flow c b) code l) }
{}

/// Code that keeps nulls out does so where more is known before it.
pub fn holds_with_more()
    ensures { (c : CoreTree) (b : BodyTree) (code : CodeTree) (k l : Option Known) → AtLeastWhere k l → holds_along (known_flow c b) (null_check c b) code k ≡ true → holds_along (known_flow c b) (null_check c b) code l ≡ true }
{}

/// A local that code doesn't assign stays known after it.
pub fn keeps_facts()
    ensures { (c : CoreTree) (b : BodyTree) (x : ℕ) (code : CodeTree) (k : Option Known) → each (λ s. not (is_target s x)) code ≡ true → where_reached (λ (z : Known). z.facts x) k ≡ true → where_reached (λ (z : Known). z.facts x) (at_end (known_flow c b) code k) ≡ true }
{}

/// A field of `this` that has its value has it after any code.
pub fn keeps_fields()
    ensures { (c : CoreTree) (b : BodyTree) (f : ℕ) (code : CodeTree) (k : Option Known) → where_reached (λ (z : Known). z.fields f) k ≡ true → where_reached (λ (z : Known). z.fields f) (at_end (known_flow c b) code k) ≡ true }
{}
