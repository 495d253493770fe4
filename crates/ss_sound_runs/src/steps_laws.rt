// Laws over single steps of good frames.

ghost use Rattle.std.specs.Prelude.{◌≡◌, ◌^◌, ℕ, List, ◌∷◌, length, nat_lt, true, Option, Some, Ok, slice_get};
ghost use Rattle.ss_core.specs.declared.names.Place.{Place};
ghost use Rattle.ss_core.specs.Tree.{ClassTree, ExprTree, CalleeTree, Dispatched, Static, Base, BaseConstructor, StmtTree, NewStmt, CallStmt, ReturnStmt, BodyTree, CoreTree};
ghost use Rattle.ss_store_rules.specs.declared.Value.{Value};
ghost use Rattle.ss_store_rules.specs.declared.Value.TheVariants as value;
ghost use Rattle.ss_store_rules.specs.Store.{Object};
ghost use Rattle.ss_store_rules.specs.Values.{value_of};
ghost use Rattle.ss_store_rules.specs.Changes.{new_object_of};
ghost use Rattle.ss_store_rules.specs.Good.{Invariants};
ghost use Rattle.ss_store_rules.specs.Typed.{body_at, constructor_of};
ghost use Rattle.ss_store_rules.specs.Formed.{IsFormed};
ghost use Rattle.ss_machine_rules.specs.Frame.{this_of};
ghost use Rattle.ss_machine_rules.specs.States.{Due, Statement, Frame, ToCall, Goes, scene};
ghost use Rattle.ss_machine_rules.specs.Steps.{values_of, with_ready, result_value, next};
ghost use Rattle.ss_machine_rules.specs.Good.{IsGoodStore};
ghost use Rattle.ss_machine_typed.specs.Changes.{IsChanged};
ghost use Rattle.ss_machine_good.specs.Flows.{is_simple};
ghost use Rattle.ss_machine_good.specs.Later.{IsLater};
ghost use Rattle.ss_machine_good.specs.LaterFrames.{IsGoodFrame, IsAnswer, entry_size, constructed};
ghost use Rattle.ss_machine_good.specs.Stacks.{IsGoodStack};
ghost use Rattle.ss_logic.specs.Values.{Table};
ghost use Rattle.ss_vcgen_heaps.specs.Contracts.{called};
ghost use Rattle.ss_sound_outcomes.specs.Points.{Activation, Point, HasGrown, Fits, IsSound, IsReached, IsAfter, ArePassed};
ghost use Rattle.ss_sound_outcomes.specs.Outcomes.{with_local, with_store};
ghost use Rattle.ss_sound_runs.specs.Frames.{activation_of, point_of, AreLater};
ghost use Rattle.ss_sound_runs.specs.Passed.{IsPassed, IsDispatched};

// ---- stores that grow, and tables that fit them

/// A store has grown from itself.
pub fn grown_begins()
    ensures { (s : List Object) → HasGrown s s }
{}

/// What has grown from a grown store has grown too.
pub fn grown_goes_on()
    ensures { (r s t : List Object) → HasGrown r s → HasGrown s t → HasGrown r t }
{}

/// Each change of a store lets it grow: no owner that is a pair changes.
pub fn changes_grow()
    ensures { (cs : List ClassTree) (holds : Invariants) (s s' : List Object) → IsChanged cs holds s s' → HasGrown s s' }
{}

/// So does each step of the machine.
pub fn steps_grow()
    ensures { (c : CoreTree) (fs : List Frame) (s : List Object) (gs : List Frame) (z : List Object) (piece : List ℕ) → next c fs s ≡ Goes gs z piece → HasGrown s z }
{}

/// A table that fits a store fits each one before it.
pub fn tables_fit_before()
    ensures { (cs : List ClassTree) (table : Table) (s z : List Object) → HasGrown s z → Fits cs table z → Fits cs table s }
{}

/// A table fits a store whose arrays are short.
pub fn short_stores_have_tables()
    ensures { (cs : List ClassTree) (s : List Object) → ((o : ℕ) (x : Object) → slice_get s o ≡ Some x → nat_lt (length x.elements) (2 ^ 31) ≡ true) → (table : Table) × Fits cs table s }
{}

/// A good store is such a one.
pub fn good_stores_have_tables()
    ensures { (c : CoreTree) (s : List Object) → IsGoodStore c s → (table : Table) × Fits c.classes table s }
{}

// ---- points

/// A good frame is at a sound point.
pub fn frames_are_sound()
    ensures { (c : CoreTree) (f : Frame) (s : List Object) (table : Table) → IsGoodFrame c f s → HasGrown f.entry s → Fits c.classes table s → IsSound (activation_of c f table) (point_of f s) }
{}

// ---- later stores

/// A step leads to a store that is later for each frame, the one that runs and those that wait.
pub fn steps_lead_later()
    ensures { (c : CoreTree) → IsFormed c → (fs : List Frame) (s : List Object) → IsGoodStack c fs s → (gs : List Frame) (z : List Object) (piece : List ℕ) → next c fs s ≡ Goes gs z piece → AreLater c.classes s z fs }
{}

// ---- points after statements

/// A point is reached from itself.
pub fn reached_begins()
    ensures { (a : Activation) (p : Point) → IsReached a p p }
{}

/// What is reached from a reached point is reached too.
pub fn reached_goes_on()
    ensures { (a : Activation) (p q r : Point) → IsReached a p q → IsReached a q r → IsReached a p r }
{}

/// A statement of a good frame that goes on in the frame leads to a point after it.
pub fn statements_lead_after()
    ensures { (c : CoreTree) → IsFormed c → (f : Frame) (s : List Object) (ds : List Due) → IsGoodFrame c f s → (st : StmtTree) → is_simple st ≡ true → f.left ≡ Statement st ∷ ds →
        (fs : List Frame) (g : Frame) (z : List Object) (piece : List ℕ) → next c (f ∷ fs) s ≡ Goes (g ∷ fs) z piece → (table : Table) → IsAfter (activation_of c f table) st (point_of f s) (point_of g z) }
{}

/// So does a call, with an answer of the body that its text names, in a later store.
pub fn calls_lead_after()
    ensures { (c : CoreTree) (f : Frame) (s : List Object) (ds : List Due) → IsGoodFrame c f s → (p : Place) (x : Option ℕ) (callee : CalleeTree) (es : List ExprTree) → f.left ≡ Statement (CallStmt p x callee es) ∷ ds →
        (b : BodyTree) → called c f.body callee ≡ Some b → (this v : Value) (z : List Object) → IsLater c.classes (entry_size f) s z → IsAnswer c b (ToCall x) this z v →
        (table : Table) → IsAfter (activation_of c f table) (CallStmt p x callee es) (point_of f s) (with_local x v (with_store z (point_of f s))) }
{}

/// And a `new`, whose object is made ready in a store that is later than the one with the new object.
pub fn news_lead_after()
    ensures { (c : CoreTree) (f : Frame) (s : List Object) (ds : List Due) → IsGoodFrame c f s → (p : Place) (x : Option ℕ) (t : ℕ) (es : List ExprTree) → f.left ≡ Statement (NewStmt p x t es) ∷ ds →
        (z : List Object) → IsLater c.classes (entry_size f) (new_object_of c.classes s t) z →
        (table : Table) → IsAfter (activation_of c f table) (NewStmt p x t es) (point_of f s) (with_local x (value.Obj (length s)) (with_store (with_ready z (value.Obj (length s))) (point_of f s))) }
{}

// ---- arguments and answers

/// The arguments of a call of a static method are passed to it; the text of each call names a body.
pub fn static_calls_pass()
    ensures { (c : CoreTree) → IsFormed c → (f : Frame) (s : List Object) (ds : List Due) → IsGoodFrame c f s → (p : Place) (x : Option ℕ) (n : ℕ) (es : List ExprTree) (vs : List Value) → f.left ≡ Statement (CallStmt p x (Static n) es) ∷ ds →
        values_of es (scene c f s) ≡ Ok vs → IsPassed c f s (Static n) (body_at c n) vs }
{}

/// Those of a dispatched one to the method that is named and to the one that is entered.
pub fn dispatched_calls_pass()
    ensures { (c : CoreTree) → IsFormed c → (f : Frame) (s : List Object) (ds : List Due) → IsGoodFrame c f s → (p : Place) (x : Option ℕ) (e : ExprTree) (t m : ℕ) (es : List ExprTree) (o : ℕ) (vs : List Value) → f.left ≡ Statement (CallStmt p x (Dispatched e t m) es) ∷ ds →
        value_of e (scene c f s) ≡ Ok (value.Obj o) → values_of es (scene c f s) ≡ Ok vs → IsDispatched c f s e t m o vs }
{}

/// Those of a method of the class above.
pub fn base_calls_pass()
    ensures { (c : CoreTree) → IsFormed c → (f : Frame) (s : List Object) (ds : List Due) → IsGoodFrame c f s → (p : Place) (x : Option ℕ) (n : ℕ) (es : List ExprTree) (vs : List Value) → f.left ≡ Statement (CallStmt p x (Base n) es) ∷ ds →
        values_of es (scene c f s) ≡ Ok vs → IsPassed c f s (Base n) (body_at c n) (this_of f.locals ∷ vs) }
{}

/// Those of the constructor of the class above.
pub fn constructor_calls_pass()
    ensures { (c : CoreTree) → IsFormed c → (f : Frame) (s : List Object) (ds : List Due) → IsGoodFrame c f s → (p : Place) (x : Option ℕ) (n : ℕ) (es : List ExprTree) (vs : List Value) → f.left ≡ Statement (CallStmt p x (BaseConstructor n) es) ∷ ds →
        values_of es (scene c f s) ≡ Ok vs → IsPassed c f s (BaseConstructor n) (body_at c n) (this_of f.locals ∷ vs) }
{}

/// Those of a `new`, with the new object, to its constructor.
pub fn news_pass()
    ensures { (c : CoreTree) → IsFormed c → (f : Frame) (s : List Object) (ds : List Due) → IsGoodFrame c f s → (p : Place) (x : Option ℕ) (t : ℕ) (es : List ExprTree) (vs : List Value) → f.left ≡ Statement (NewStmt p x t es) ∷ ds →
        values_of es (scene c f s) ≡ Ok vs → (b : BodyTree) × (constructor_of c t ≡ Some b) × ((n : ℕ) × (body_at c n ≡ Some b)) × ArePassed c b (new_object_of c.classes s t) (value.Obj (length s) ∷ vs) }
{}

/// A body that returns answers, whether to a call or, as a constructor before its object is made ready, to a `new`.
pub fn returns_answer()
    ensures { (c : CoreTree) → IsFormed c → (f : Frame) (s : List Object) (ds : List Due) → IsGoodFrame c f s → (p : Place) (e : Option ExprTree) → f.left ≡ Statement (ReturnStmt p e) ∷ ds → (v : Value) → result_value e (scene c f s) ≡ Ok v →
        (x : Option ℕ) → IsAnswer c f.body (ToCall x) (constructed f) s v }
{}
