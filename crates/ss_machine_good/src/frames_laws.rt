// Laws over later stores, and over frames whose statements enter no body.

ghost use Rattle.std.specs.Prelude.{◌≡◌, ◌≤◌, ◌++◌, ℕ, ℤ, List, [], ◌∷◌, length, true, if◌then◌else◌, Option, Some, Ok};
ghost use Rattle.ss_core.specs.declared.names.Mark.{Mark};
ghost use Rattle.ss_core.specs.declared.names.Place.{Place};
ghost use Rattle.ss_core.specs.Tree.{ClassTree, ExprTree, StmtTree, AssignStmt, WriteStmt, WriteElementStmt, NewArrayStmt, ReadyStmt, IfStmt, UnpackStmt, PackStmt, CodeTree, CoreTree};
ghost use Rattle.ss_store_rules.specs.declared.Value.{Value};
ghost use Rattle.ss_store_rules.specs.declared.Value.TheVariants as value;
ghost use Rattle.ss_store_rules.specs.Store.{Object};
ghost use Rattle.ss_store_rules.specs.Reads.{as_int, as_bool};
ghost use Rattle.ss_store_rules.specs.Values.{local_value, value_of};
ghost use Rattle.ss_store_rules.specs.Changes.{field_type, unpack_of, pack_of, write_of, write_element_of, new_array_of, ready_of};
ghost use Rattle.ss_store_rules.specs.Good.{is_non_null};
ghost use Rattle.ss_store_rules.specs.Admissible.{invariants_hold};
ghost use Rattle.ss_store_rules.specs.Formed.{IsFormed};
ghost use Rattle.ss_machine_rules.specs.Frame.{this_of};
ghost use Rattle.ss_machine_rules.specs.States.{Due, Statement, Test, dues, Frame, scene};
ghost use Rattle.ss_machine_rules.specs.Steps.{with_local, go_into};
ghost use Rattle.ss_machine_good.specs.Flows.{Loop, stmt_of};
ghost use Rattle.ss_machine_good.specs.Known.{IsNotNull};
ghost use Rattle.ss_machine_good.specs.Later.{IsLater};
ghost use Rattle.ss_machine_good.specs.LaterFrames.{IsGoodFrame};

/// What is later than a later store is so too.
pub fn later_goes_on()
    ensures { (cs : List ClassTree) (n : ℕ) (r s t : List Object) → IsLater cs n r s → IsLater cs n s t → IsLater cs n r t }
{}

/// A write leads to a later store where it puts no null into a non-null field.
pub fn writes_lead_later()
    ensures { (cs : List ClassTree) (n : ℕ) (s : List Object) (w : Value) (f : ℕ) (v : Value) (z : List Object) → (is_non_null (field_type cs f) ≡ true → IsNotNull v) → write_of cs s w f v ≡ Ok z → IsLater cs n s z }
{}

/// An object that stands at n or after it may become ready.
pub fn ready_leads_later()
    ensures { (cs : List ClassTree) (n : ℕ) (s : List Object) (o : ℕ) → n ≤ o → IsLater cs n s (ready_of s o) }
{}

/// A good frame stays so after an assignment of any value, in a constructor too.
pub fn assignments_keep_frames()
    ensures { (c : CoreTree) → IsFormed c → (f : Frame) (s : List Object) (ds : List Due) → IsGoodFrame c f s → (p : Place) (x : ℕ) (e : ExprTree) (v : Value) → f.left ≡ Statement (AssignStmt p x e) ∷ ds → value_of e (scene c f s) ≡ Ok v → IsGoodFrame c (with_local (Some x) v (record f { left = ds })) s }
{}

/// So it does after a write, where the store changes.
pub fn writes_keep_frames()
    ensures { (c : CoreTree) → IsFormed c → (f : Frame) (s : List Object) (ds : List Due) → IsGoodFrame c f s → (p : Place) (o : ExprTree) (g : ℕ) (m : Mark) (t : ℕ) (e : ExprTree) (v w : Value) (z : List Object) → f.left ≡ Statement (WriteStmt p o g m t e) ∷ ds →
        value_of o (scene c f s) ≡ Ok v → value_of e (scene c f s) ≡ Ok w → write_of c.classes s v g w ≡ Ok z → IsGoodFrame c (record f { left = ds }) z }
{}

/// After a write of an element.
pub fn element_writes_keep_frames()
    ensures { (c : CoreTree) → IsFormed c → (f : Frame) (s : List Object) (ds : List Due) → IsGoodFrame c f s → (p : Place) (a i e : ExprTree) (v w : Value) (n : ℤ) (z : List Object) → f.left ≡ Statement (WriteElementStmt p a i e) ∷ ds →
        value_of a (scene c f s) ≡ Ok v → value_of e (scene c f s) ≡ Ok w → write_element_of s v n w ≡ Ok z → IsGoodFrame c (record f { left = ds }) z }
{}

/// After an unpack.
pub fn unpacks_keep_frames()
    ensures { (c : CoreTree) → IsFormed c → (f : Frame) (s : List Object) (ds : List Due) → IsGoodFrame c f s → (p : Place) (x t : ℕ) (z : List Object) → f.left ≡ Statement (UnpackStmt p x t) ∷ ds → unpack_of c.classes s (local_value (scene c f s) x) t ≡ Ok z → IsGoodFrame c (record f { left = ds }) z }
{}

/// After a pack.
pub fn packs_keep_frames()
    ensures { (c : CoreTree) → IsFormed c → (f : Frame) (s : List Object) (ds : List Due) → IsGoodFrame c f s → (p : Place) (x t : ℕ) (z : List Object) → f.left ≡ Statement (PackStmt p x t) ∷ ds → pack_of c.classes (invariants_hold c.classes) s (local_value (scene c f s) x) t ≡ Ok z → IsGoodFrame c (record f { left = ds }) z }
{}

/// After a new array.
pub fn arrays_keep_frames()
    ensures { (c : CoreTree) → IsFormed c → (f : Frame) (s : List Object) (ds : List Due) → IsGoodFrame c f s → (p : Place) (x : Option ℕ) (t : ℕ) (e : ExprTree) (n : Value) (z : List Object) → f.left ≡ Statement (NewArrayStmt p x t e) ∷ ds → value_of e (scene c f s) ≡ Ok n →
        new_array_of s t (as_int n) ≡ Ok z → IsGoodFrame c (with_local x (value.Obj (length s)) (record f { left = ds })) z }
{}

/// After `ready this`, which makes the object ready.
pub fn ready_keeps_frames()
    ensures { (c : CoreTree) → IsFormed c → (f : Frame) (s : List Object) (ds : List Due) → IsGoodFrame c f s → (p : Place) (o : ℕ) → f.left ≡ Statement (ReadyStmt p) ∷ ds → this_of f.locals ≡ value.Obj o → IsGoodFrame c (record f { left = ds }) (ready_of s o) }
{}

/// After the test of an `if`.
pub fn ifs_keep_frames()
    ensures { (c : CoreTree) (f : Frame) (s : List Object) → IsGoodFrame c f s → (p : Place) (e : ExprTree) (a b : CodeTree) (ds : List Due) (v : Value) → f.left ≡ Statement (IfStmt p e a b) ∷ ds → value_of e (scene c f s) ≡ Ok v → IsGoodFrame c (go_into (dues (if as_bool v then a else b)) (record f { left = ds })) s }
{}

/// After the head of a loop.
pub fn loops_keep_frames()
    ensures { (c : CoreTree) (f : Frame) (s : List Object) → IsGoodFrame c f s → (l : Loop) (ds : List Due) → f.left ≡ Statement (stmt_of l) ∷ ds → IsGoodFrame c (go_into (dues l.prelude ++ Test l.test l.body (stmt_of l) ∷ []) (record f { left = ds })) s }
{}

/// After its test.
pub fn tests_keep_frames()
    ensures { (c : CoreTree) (f : Frame) (s : List Object) → IsGoodFrame c f s → (e : ExprTree) (code : CodeTree) (st : StmtTree) (ds : List Due) (v : Value) → f.left ≡ Test e code st ∷ ds → value_of e (scene c f s) ≡ Ok v →
        IsGoodFrame c (if as_bool v then go_into (dues code ++ Statement st ∷ []) (record f { left = ds }) else record f { left = ds }) s }
{}
