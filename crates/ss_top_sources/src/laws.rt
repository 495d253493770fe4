// What holds of every source. No step of the program calls these.

ghost use Rattle.std.specs.Prelude.{◌≡◌, ℕ, List};
ghost use Rattle.ss_core.specs.declared.names.Place.{Place};
ghost use Rattle.ss_ast.specs.Tokens.{Tok};
ghost use Rattle.ss_typed.specs.Tree.{TypedTree};
ghost use Rattle.ss_top_sources.specs.Sources.{IsAccepted, IsRefused};

/// A source means one resolved program at most.
pub fn one_meaning()
    ensures { (source : List ℕ) (ts us : List Tok) (p q : TypedTree) → IsAccepted source ts p → IsAccepted source us q → (ts ≡ us) × (p ≡ q) }
{}

/// A source that is accepted has no fault.
pub fn no_fault()
    ensures { (source : List ℕ) (ts : List Tok) (p : TypedTree) (rule : ℕ) (place : Place) → IsAccepted source ts p → IsRefused source rule place → ⊥ }
{}

/// A source has one first fault at most.
pub fn one_fault()
    ensures { (source : List ℕ) (r s : ℕ) (a b : Place) → IsRefused source r a → IsRefused source s b → (r ≡ s) × (a ≡ b) }
{}
