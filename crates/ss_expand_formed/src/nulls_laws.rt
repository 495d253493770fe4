// Elaborated code keeps nulls out where the phase of null finds no fault.

ghost use Rattle.std.specs.Prelude.{◌≡◌, ℕ, Bool, List, [], true, false, Some, slice_get};
ghost use Rattle.ss_core.specs.Tree.{CoreTree};
ghost use Rattle.ss_core.specs.declared.names.Ty.{Ty};
ghost use Rattle.ss_core.specs.View.{code_of};
ghost use Rattle.ss_typed.specs.Tree.{StmtTrees, BodyTree, TypedTree};
ghost use Rattle.ss_paths.specs.Paths.{faults_along};
ghost use Rattle.ss_nonnull_rules.specs.NonNull as source;
ghost use Rattle.ss_nonnull_rules.specs.Faults as faults;
ghost use Rattle.ss_nonnull_rules.specs.Program.{null_faults, null_context_of};
ghost use Rattle.ss_expand_rules.specs.Bodies.{statements, written_body, wrapper_body};
ghost use Rattle.ss_expand_rules.specs.Program.{above_of, number_in_table};
ghost use Rattle.ss_core.specs.declared.names.Place.{Place};
ghost use Rattle.ss_expand_rules.specs.Lifting.{Opened};
ghost use Rattle.ss_expand_rules.specs.Statements.{stmts};
ghost use Rattle.ss_store_rules.specs.Paths.{holds_along};
ghost use Rattle.ss_store_rules.specs.NonNull.{Known, known_flow, null_check, keeps_nulls_out};
ghost use Rattle.ss_expand_formed.specs.Fitting.{Frame, elaboration_context, block_fits, all_fitting, Agrees, Builds, Covers, HasMade};
ghost use Rattle.ss_expand_formed.specs.Bodies.{body_frame, method_frame, nothing_known, Wraps};

/// No value that may be null goes where none is wanted in the code of resolved statements without a fault of null, whose names mean in the
/// elaboration what they mean in them.
pub fn statements_keep_nulls_out()
    ensures { (z : Frame) → Agrees z → Builds z → (ss : StmtTrees) → all_fitting z ss ≡ true → (os : List Opened) (k : source.Known) (made : List Ty) → faults_along (source.known_flow z.context) (faults.null_check z.context) ss (Some k) ≡ [] → (l : Known) → Covers z k l → HasMade z (stmts (elaboration_context z os) ss made).made → holds_along (known_flow z.program z.body) (null_check z.program z.body) (code_of (stmts (elaboration_context z os) ss made).code) (Some l) ≡ true }
{}

/// So does the elaboration of each method of a program without a fault of null, whose names mean in it what they mean in the source.
pub fn methods_keep_nulls_out()
    ensures { (c : CoreTree) (p : TypedTree) (n : ℕ) (b : BodyTree) (bs : List BodyTree) → null_faults p ≡ [] → slice_get p.bodies n ≡ Some b → b.flags.ctor ≡ false → block_fits (method_frame c p b bs) b.block ≡ true → keeps_nulls_out c (written_body p b bs) ≡ true }
{}

/// So does a wrapper where the body that it calls takes and gives what the wrapped method does.
pub fn wrappers_keep_nulls_out()
    ensures { (c : CoreTree) (p : TypedTree) (q : Place) (t m : ℕ) (b : BodyTree) (bs : List BodyTree) → Wraps c (wrapper_body p q t m b bs) (number_in_table p (above_of p t) m) b → keeps_nulls_out c (wrapper_body p q t m b bs) ≡ true }
{}

/// So does a constructor that reads no field of its `this` but by name, where the phase, beginning with nothing known, finds no fault in its
/// statements, the initializers and `base(..)` among them.
pub fn constructors_keep_nulls_out()
    ensures { (c : CoreTree) (p : TypedTree) (b : BodyTree) (bs : List BodyTree) (fields : ℕ → Bool) → b.flags.is_static ≡ false → Builds (body_frame c p b bs fields false) → all_fitting (body_frame c p b bs fields false) (statements p b) ≡ true → faults_along (source.known_flow (null_context_of p b)) (faults.null_check (null_context_of p b)) (statements p b) (Some nothing_known) ≡ [] → keeps_nulls_out c (written_body p b bs) ≡ true }
{}
