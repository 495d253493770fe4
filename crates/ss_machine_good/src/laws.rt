// Laws over what is known along paths, and over what statements do to a good store.

ghost use Rattle.std.specs.Prelude.{◌≡◌, ◌≢◌, ◌<◌, ℕ, ℤ, List, [], ◌∷◌, ◌++◌, length, Bool, if◌then◌else◌, true, false, not, ◌==◌, ◌&&◌, ◌||◌, Ok, Some, None, slice_get};
ghost use Rattle.std.specs.List.{list_all};
ghost use Rattle.ss_core.specs.declared.names.Mark.{Mark};
ghost use Rattle.ss_core.specs.declared.names.Ty.{Ty};
ghost use Rattle.ss_core.specs.declared.names.Ty.TheVariants as ty;
ghost use Rattle.ss_core.specs.Tree.{ExprTree, StmtTree, AssignStmt, IfStmt, CodeTree, BodyTree, CoreTree};
ghost use Rattle.ss_core.specs.Chain.{is_declared, below, all_fields, IsChain, NoAlso};
ghost use Rattle.ss_store_rules.specs.declared.Value.{Value};
ghost use Rattle.ss_store_rules.specs.declared.Value.TheVariants as value;
ghost use Rattle.ss_store_rules.specs.Store.{Object};
ghost use Rattle.ss_store_rules.specs.Reads.{as_int, as_bool};
ghost use Rattle.ss_store_rules.specs.Values.{Setting, setting, local_value, value_of};
ghost use Rattle.ss_store_rules.specs.Changes.{is_array, field_type, unpack_of, pack_of, write_of, write_element_of, new_object_of, new_array_of};
ghost use Rattle.ss_store_rules.specs.Locals.{types_of, is_argument, local_types};
ghost use Rattle.ss_store_rules.specs.Types.{is_int, element_of, type_of, code_type};
ghost use Rattle.ss_store_rules.specs.Typed.{body_at, method_at, has_type_in, have_types_in, is_write_of, is_element_write, is_exposable};
ghost use Rattle.ss_store_rules.specs.Paths.{Check};
ghost use Rattle.ss_store_rules.specs.Assigned.{assigned_flow, reads_assigned};
ghost use Rattle.ss_store_rules.specs.NonNull.{Facts, Known, is_this_object, known_tested, known_flow, is_never_null, is_non_null_type, with_local};
ghost use Rattle.ss_store_rules.specs.Good.{has_type, is_non_null, IsReady, IsGood};
ghost use Rattle.ss_store_rules.specs.Admissible.{AreAdmissible, invariants_hold};
ghost use Rattle.ss_store_rules.specs.Tables.{AreTables};
ghost use Rattle.ss_machine_rules.specs.Steps as steps;
ghost use Rattle.ss_machine_rules.specs.Steps.{values_of, go_into};
ghost use Rattle.ss_machine_rules.specs.States.{Due, Statement, Test, dues, Target, ToCall, Frame, frame_at_entry, scene};
ghost use Rattle.ss_machine_rules.specs.Good.{IsGoodStore, IsGoodState};
ghost use Rattle.ss_store_rules.specs.Formed.{IsFormedBody, IsMain, IsFormed};
ghost use Rattle.ss_store_rules.specs.States.{AreGoodLocals};
ghost use Rattle.ss_machine_good.specs.Frames.{IsSoundFrame};
ghost use Rattle.ss_core.specs.declared.names.Place.{Place};
ghost use Rattle.ss_machine_typed.specs.Older.{IsOlder};
ghost use Rattle.ss_machine_typed.specs.Inputs.{IsInput};
ghost use Rattle.ss_store_rules.specs.Admitted.{first_store, first_locals};
ghost use Rattle.ss_machine_typed.specs.Settings.{IsGoodSetting, AreGoodArguments};
ghost use Rattle.ss_machine_rules.specs.Runs.{start, run};
ghost use Rattle.ss_machine_good.specs.Dispatch.{IsFound};
ghost use Rattle.ss_machine_good.specs.Entries.{HasOlderEntries};
ghost use Rattle.ss_machine_good.specs.Flows.{Loop, stmt_of, GoesAlong};
ghost use Rattle.ss_machine_good.specs.Known.{IsNotNull, AreNotNull, IsTrueOf, AreAssigned, WasReady, with_value};

/// What is known of null goes along the paths of each body, whatever is checked.
pub fn known_goes_along()
    ensures { (c : CoreTree) (b : BodyTree) (k : Check Known) (constructs : Bool) → GoesAlong (known_flow c b) k (IsTrueOf constructs) }
{}

/// So does what is known of assigned locals.
pub fn assigned_goes_along()
    ensures { (b : BodyTree) (c : Check (ℕ → Bool)) → GoesAlong assigned_flow c (AreAssigned b) }
{}

/// What a test says of locals is so where it has come out that way.
pub fn tests_say_so()
    ensures { (c : Setting) (tys : List Ty) (constructs : Bool) → IsGoodSetting c tys constructs → (k : Known) → IsTrueOf constructs k c → (e : ExprTree) (w : Value) → type_of c.classes tys e ≡ Some ty.Bool → value_of e c ≡ Ok w → IsTrueOf constructs (known_tested e (as_bool w) k) c }
{}

/// What is known after an assignment is so.
pub fn assignment_keeps_known()
    ensures { (c : Setting) (x : ℕ) (v : Value) → x < length c.locals → (constructs : Bool) (non_null : Bool) (says : Bool → Facts) (k : Known) → IsTrueOf constructs k c → (constructs ≡ true → x ≢ 0) → (non_null ≡ true → IsNotNull v) → ((u : Bool) → v ≡ value.Bool u → AreNotNull (says u) c) →
        IsTrueOf constructs (with_local x non_null says k) (with_value c x v) }
{}

/// And so is what is assigned.
pub fn assignment_keeps_assigned()
    ensures { (c : Setting) (x : ℕ) (v : Value) → x < length c.locals → (b : BodyTree) (xs : ℕ → Bool) → AreAssigned b xs c → (is_non_null_type (slice_get (local_types b) x) ≡ true → IsNotNull v) → AreAssigned b (λ y. x == y || xs y) (with_value c x v) }
{}

/// An expression of non-null static type has no value, or one that isn't null.
pub fn non_null_is_never_null()
    ensures { (b : BodyTree) (xs : ℕ → Bool) (k : Known) (e : ExprTree) (c : Setting) → IsGoodSetting c (local_types b) b.flags.ctor → WasReady b.flags.ctor c → AreAssigned b xs c → IsTrueOf b.flags.ctor k c → (old : Bool) → c.inside_old ≡ old → reads_assigned b xs e ≡ true →
        (t : Ty) → type_of c.classes (local_types b) e ≡ Some t → is_never_null (record { classes = c.classes; locals = local_types b; constructs = b.flags.ctor }) k old e ≡ true → (v : Value) → value_of e c ≡ Ok v → IsNotNull v }
{}

/// The value of an expression that may stand where one of a type is wanted is of it.
pub fn wanted_values_fit()
    ensures { (x : Setting) (b : BodyTree) (constructs : Bool) → IsGoodSetting x (local_types b) constructs → (e : ExprTree) (t : Ty) (v : Value) → has_type_in x.classes b e t ≡ true → value_of e x ≡ Ok v → has_type x.classes x.store t v ≡ true }
{}

/// A typed write of a field keeps a good store good.
pub fn writes_keep_good()
    ensures { (x : Setting) (b : BodyTree) (constructs : Bool) → IsGoodSetting x (local_types b) constructs → AreAdmissible x.classes → (o e : ExprTree) (m : Mark) (t g : ℕ) (v w : Value) (s : List Object) → is_write_of x.classes b o m t e (slice_get (all_fields x.classes) g) ≡ true → value_of o x ≡ Ok v → value_of e x ≡ Ok w →
        IsReady x.store w → (w ≡ value.Null → is_non_null (field_type x.classes g) ≡ false) → write_of x.classes x.store v g w ≡ Ok s → IsGood x.classes (invariants_hold x.classes) s }
{}

/// So does one of an element.
pub fn element_writes_keep_good()
    ensures { (x : Setting) (b : BodyTree) (constructs : Bool) → IsGoodSetting x (local_types b) constructs → AreAdmissible x.classes → (a e : ExprTree) (v w : Value) (i : ℤ) (s : List Object) → is_element_write x.classes b e (element_of x.classes (code_type x.classes b a)) ≡ true → value_of a x ≡ Ok v → value_of e x ≡ Ok w →
        IsReady x.store w → write_element_of x.store v i w ≡ Ok s → IsGood x.classes (invariants_hold x.classes) s }
{}

/// So does an unpack of what may be exposed.
pub fn unpack_keeps_good()
    ensures { (x : Setting) (b : BodyTree) (constructs : Bool) → IsGoodSetting x (local_types b) constructs → AreAdmissible x.classes → (y t : ℕ) (s : List Object) → is_exposable x.classes b y t ≡ true → unpack_of x.classes x.store (local_value x y) t ≡ Ok s → IsGood x.classes (invariants_hold x.classes) s }
{}

/// So does a pack of it.
pub fn pack_keeps_good()
    ensures { (x : Setting) (b : BodyTree) (constructs : Bool) → IsGoodSetting x (local_types b) constructs → AreAdmissible x.classes → (y t : ℕ) (s : List Object) → is_exposable x.classes b y t ≡ true → pack_of x.classes (invariants_hold x.classes) x.store (local_value x y) t ≡ Ok s → IsGood x.classes (invariants_hold x.classes) s }
{}

/// So does a new object of a declared class.
pub fn objects_keep_good()
    ensures { (x : Setting) (b : BodyTree) (constructs : Bool) → IsGoodSetting x (local_types b) constructs → AreAdmissible x.classes → (t : ℕ) → is_declared x.classes t ≡ true → IsGood x.classes (invariants_hold x.classes) (new_object_of x.classes x.store t) }
{}

/// So does a new array.
pub fn arrays_keep_good()
    ensures { (x : Setting) (b : BodyTree) (constructs : Bool) → IsGoodSetting x (local_types b) constructs → AreAdmissible x.classes → (t : ℕ) (e : ExprTree) (n : Value) (s : List Object) → is_array x.classes t ≡ true → is_int (code_type x.classes b e) ≡ true → value_of e x ≡ Ok n → new_array_of x.store t (as_int n) ≡ Ok s →
        IsGood x.classes (invariants_hold x.classes) s }
{}

/// The class of an object has a method that is called like the one that a call names for a class above it.
pub fn dispatch_finds_method()
    ensures { (c : CoreTree) → IsChain c.classes → AreTables c → (t m : ℕ) (from : BodyTree) → method_at c t m ≡ Some from → (d : ℕ) → below c.classes d t ≡ true → IsFound c d m from }
{}

/// The values of arguments that fit the parameters are good arguments of a static body.
pub fn static_arguments_are_good()
    ensures { (x : Setting) (b : BodyTree) (constructs : Bool) → IsGoodSetting x (local_types b) constructs → (callee : BodyTree) → callee.flags.is_static ≡ true → (es : List ExprTree) (vs : List Value) → have_types_in x.classes b es (types_of callee.params) ≡ true → list_all (λ e. not (constructs && is_this_object e)) es ≡ true →
        values_of es x ≡ Ok vs → AreGoodArguments x.classes x.store callee vs }
{}

/// With an object of its class they are those of another body, in this store or a later one.
pub fn instance_arguments_are_good()
    ensures { (x : Setting) (b : BodyTree) (constructs : Bool) → IsGoodSetting x (local_types b) constructs → (callee : BodyTree) → callee.flags.is_static ≡ false → (s : List Object) → IsOlder x.store s → (o : ℕ) (y : Object) → slice_get s o ≡ Some y → below x.classes y.class callee.class ≡ true → (callee.flags.ctor ≡ false → y.ready ≡ true) →
        (es : List ExprTree) (vs : List Value) → have_types_in x.classes b es (types_of callee.params) ≡ true → list_all (λ e. not (constructs && is_this_object e)) es ≡ true → values_of es x ≡ Ok vs → AreGoodArguments x.classes s callee (value.Obj o ∷ vs) }
{}

/// In each state of each run the store at the entry of each frame is older.
pub fn entries_are_older()
    ensures { (c : CoreTree) (input : List ℤ) (n : ℕ) → HasOlderEntries (run c input n) }
{}

/// A formed body is entered with a sound frame.
pub fn entered_frames_are_sound()
    ensures { (c : CoreTree) (b : BodyTree) (locals : List Value) (s : List Object) (into : Target) → IsChain c.classes → NoAlso c.classes → IsFormedBody c b → IsGoodStore c s → AreGoodLocals c.classes s b locals → AreAssigned b (is_argument b) (setting c.classes s s locals) → IsSoundFrame c (frame_at_entry b locals s into) s }
{}

/// An assignment keeps it sound. In a constructor its `this` isn't assigned.
pub fn assignment_keeps_frame()
    ensures { (c : CoreTree) (f : Frame) (s : List Object) (ds : List Due) (p : Place) (x : ℕ) (e : ExprTree) (v : Value) → f.left ≡ Statement (AssignStmt p x e) ∷ ds → IsSoundFrame c f s → (f.body.flags.ctor && is_this_object e) ≡ false → value_of e (scene c f s) ≡ Ok v → IsSoundFrame c (steps.with_local (Some x) v (record f { left = ds })) s }
{}

/// So does an `if`.
pub fn if_keeps_frame()
    ensures { (c : CoreTree) (f : Frame) (s : List Object) → IsSoundFrame c f s → (p : Place) (e : ExprTree) (a b : CodeTree) (ds : List Due) (v : Value) → f.left ≡ Statement (IfStmt p e a b) ∷ ds → value_of e (scene c f s) ≡ Ok v → IsSoundFrame c (go_into (dues (if as_bool v then a else b)) (record f { left = ds })) s }
{}

/// So does the head of a loop.
pub fn loop_keeps_frame()
    ensures { (c : CoreTree) (f : Frame) (s : List Object) → IsSoundFrame c f s → (l : Loop) (ds : List Due) → f.left ≡ Statement (stmt_of l) ∷ ds → IsSoundFrame c (go_into (dues l.prelude ++ Test l.test l.body (stmt_of l) ∷ []) (record f { left = ds })) s }
{}

/// So does its test.
pub fn test_keeps_frame()
    ensures { (c : CoreTree) (f : Frame) (s : List Object) → IsSoundFrame c f s → (e : ExprTree) (code : CodeTree) (st : StmtTree) (ds : List Due) (v : Value) → f.left ≡ Test e code st ∷ ds → value_of e (scene c f s) ≡ Ok v →
        IsSoundFrame c (if as_bool v then go_into (dues code ++ Statement st ∷ []) (record f { left = ds }) else record f { left = ds }) s }
{}

/// State 0 of a formed program is good.
pub fn start_is_good()
    ensures { (c : CoreTree) (input : List ℤ) → IsFormed c → IsInput input → IsGoodState c (start c input) }
{}

/// The frame of Main is sound there.
pub fn start_is_sound()
    ensures { (c : CoreTree) (input : List ℤ) → IsFormed c → IsInput input → (b : BodyTree) → body_at c c.main ≡ Some b → IsMain b → IsSoundFrame c (frame_at_entry b (first_locals b) (first_store input) (ToCall None)) (first_store input) }
{}
