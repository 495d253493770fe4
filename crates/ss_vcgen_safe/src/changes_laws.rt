// Where the formulas that are checked of a change are true, the change is done, and its term stands for the store after.

ghost use Rattle.std.specs.Prelude.{◌≡◌, ℕ, ℤ, pos, List, [], ◌∷◌, length, true, Ok, Some, slice_get};
ghost use Rattle.ss_core.specs.declared.names.Mark.TheVariants as mark;
ghost use Rattle.ss_core.specs.declared.names.Ty.TheVariants as ty;
ghost use Rattle.ss_core.specs.Tree.{ClassTree};
ghost use Rattle.ss_core.specs.Chain.{above, NoAlso};
ghost use Rattle.ss_store_rules.specs.declared.Value.{Value as ObjectValue};
ghost use Rattle.ss_store_rules.specs.declared.Value.TheVariants as value;
ghost use Rattle.ss_store_rules.specs.Store.{Object};
ghost use Rattle.ss_store_rules.specs.Changes.{is_array, field_class, field_mark, field_type, unpack_of, pack_of, with_owners, write_of, write_element_of, new_object_of, new_array_of};
ghost use Rattle.ss_store_rules.specs.Good.{has_type, Invariants, IsGood};
ghost use Rattle.ss_store_rules.specs.Admissible.{invariants_hold};
ghost use Rattle.ss_machine_rules.specs.Steps.{with_ready};
ghost use Rattle.ss_logic.specs.Values.{Heap, whole, store, Structure};
ghost use Rattle.ss_logic.specs.Terms.{Set, Put, Unpack, Pack, New, NewArray, MakeReady, Term, app};
ghost use Rattle.ss_logic.specs.Formulas.{Good, True, atom, neg};
ghost use Rattle.ss_logic.specs.Objects.{objects_of, IsGoodStore};
ghost use Rattle.ss_logic.specs.Shapes.{number, class_term, level_of, next_of, equal, at_most, sub_atom, committed};
ghost use Rattle.ss_logic_means.specs.Means.{standing};
ghost use Rattle.ss_sound_outcomes.specs.Points.{Fits};
ghost use Rattle.ss_vcgen_heaps.specs.Obligations.{may_be_owned, may_be_joined, owned_store, is_index, owned_are_full};
ghost use Rattle.ss_vcgen_safe.specs.Done.{IsDone, StandsFor, HasStore};

/// A term for a good heap has its objects.
pub fn a_term_for_a_good_heap_has_its_objects()
    ensures { (cs : List ClassTree) (m : Structure) (t : Term) (h : Heap) (s : List Object) → StandsFor cs m t (store h) → IsGoodStore cs m.table h → objects_of cs m.table h ≡ s → HasStore cs m t s }
{}

/// What stands for a store of objects is good, as an atom says.
pub fn the_store_of_a_term_is_good()
    ensures { (cs : List ClassTree) (m : Structure) (t : Term) (s : List Object) → HasStore cs m t s → True cs m [] (atom Good (t ∷ [])) }
{}

/// An object at the level, which isn't committed, is unpacked.
pub fn a_checked_unpack_is_done()
    ensures { (cs : List ClassTree) (m : Structure) (s : Term) (l : List Object) → HasStore cs m s l → (o : Term) (q : ℕ) (x : Object) → slice_get l q ≡ Some x → StandsFor cs m o (standing (value.Obj q)) → (t : ℕ) → True cs m [] (equal (level_of s o) (class_term t)) → True cs m [] (neg (committed s o)) → IsDone (unpack_of cs l (value.Obj q) t) }
{}

/// An object at the level above is packed where its invariants hold and what it owns is full and not committed.
pub fn a_checked_pack_is_done()
    ensures { (cs : List ClassTree) (m : Structure) (s : Term) (l : List Object) → HasStore cs m s l → (o : Term) (q : ℕ) (x : Object) → slice_get l q ≡ Some x → StandsFor cs m o (standing (value.Obj q)) → (t : ℕ) → True cs m [] (equal (level_of s o) (class_term (above cs t))) → invariants_hold cs l q t ≡ true → True cs m [] (owned_are_full s o t) → IsDone (pack_of cs (invariants_hold cs) l (value.Obj q) t) }
{}

/// What may be owned is captured.
pub fn a_checked_capture_is_done()
    ensures { (cs : List ClassTree) (m : Structure) (s : Term) (l : List Object) → HasStore cs m s l → (o : Term) (q : ℕ) (x : Object) → slice_get l q ≡ Some x → StandsFor cs m o (standing (value.Obj q)) → (v : Term) (t : ℕ) (w : ObjectValue) → ((i : ℕ) → w ≡ value.Obj i → (y : Object) × (slice_get l i ≡ Some y)) → StandsFor cs m v (standing w) → True cs m [] (may_be_owned s o t v) → IsDone (with_owners mark.Rep l q t w) }
{}

/// What may be joined is.
pub fn a_checked_join_is_done()
    ensures { (cs : List ClassTree) (m : Structure) (s : Term) (l : List Object) → HasStore cs m s l → (o : Term) (q : ℕ) (x : Object) → slice_get l q ≡ Some x → StandsFor cs m o (standing (value.Obj q)) → (v : Term) (t : ℕ) (w : ObjectValue) → ((i : ℕ) → w ≡ value.Obj i → (y : Object) × (slice_get l i ≡ Some y)) → StandsFor cs m v (standing w) → True cs m [] (may_be_joined s o v) → IsDone (with_owners mark.Peer l q t w) }
{}

/// A field of an object that isn't packed there is written, where owners are given.
pub fn a_checked_write_is_done()
    ensures { (cs : List ClassTree) (m : Structure) (s : Term) (l : List Object) → HasStore cs m s l → (o : Term) (q : ℕ) (x : Object) → slice_get l q ≡ Some x → StandsFor cs m o (standing (value.Obj q)) → NoAlso cs → (f : ℕ) (w : ObjectValue) → True cs m [] (neg (sub_atom (level_of s o) (class_term (field_class cs f)))) → IsDone (with_owners (field_mark cs f) l q (field_class cs f) w) → IsDone (write_of cs l (value.Obj q) f w) }
{}

/// An element within an array that isn't committed is written.
pub fn a_checked_write_of_an_element_is_done()
    ensures { (cs : List ClassTree) (m : Structure) (s : Term) (l : List Object) → HasStore cs m s l → (a : Term) (q : ℕ) (x : Object) → slice_get l q ≡ Some x → StandsFor cs m a (standing (value.Obj q)) → (i : Term) (n : ℤ) (w : ObjectValue) → is_array cs x.class ≡ true → StandsFor cs m i (whole n) → True cs m [] (is_index a i) → True cs m [] (neg (committed s a)) → IsDone (write_element_of l (value.Obj q) n w) }
{}

/// An array of a length that isn't negative is made.
pub fn a_checked_array_is_done()
    ensures { (cs : List ClassTree) (m : Structure) (s : Term) (l : List Object) → HasStore cs m s l → (i : Term) (t : ℕ) (n : ℤ) → StandsFor cs m i (whole n) → True cs m [] (at_most (number (pos 0)) i) → IsDone (new_array_of l t n) }
{}

/// After a change that is done its term has the store that it gives, where that is good. So it is with each of the following.
pub fn the_term_is_made_ready()
    ensures { (cs : List ClassTree) (m : Structure) (s : Term) (l : List Object) → HasStore cs m s l → (o : Term) (v : ObjectValue) → StandsFor cs m o (standing v) → IsGood cs (invariants_hold cs) (with_ready l v) → HasStore cs m (app MakeReady (s ∷ o ∷ [])) (with_ready l v) }
{}

pub fn the_term_is_unpacked()
    ensures { (cs : List ClassTree) (m : Structure) (s : Term) (l : List Object) → HasStore cs m s l → (o : Term) (v : ObjectValue) (t : ℕ) (z : List Object) → StandsFor cs m o (standing v) → unpack_of cs l v t ≡ Ok z → IsGood cs (invariants_hold cs) z → HasStore cs m (app (Unpack t) (s ∷ o ∷ [])) z }
{}

pub fn the_term_is_packed()
    ensures { (cs : List ClassTree) (m : Structure) (s : Term) (l : List Object) → HasStore cs m s l → (holds : Invariants) (o : Term) (v : ObjectValue) (t : ℕ) (z : List Object) → StandsFor cs m o (standing v) → pack_of cs holds l v t ≡ Ok z → IsGood cs (invariants_hold cs) z → HasStore cs m (app (Pack t) (s ∷ o ∷ [])) z }
{}

pub fn the_term_has_a_field_written()
    ensures { (cs : List ClassTree) (m : Structure) (s : Term) (l : List Object) → HasStore cs m s l → (o u : Term) (v : ObjectValue) (f : ℕ) (w : ObjectValue) (z : List Object) → StandsFor cs m o (standing v) → StandsFor cs m u (standing w) → write_of cs l v f w ≡ Ok z → (field_type cs f ≡ ty.Null → ⊥) → has_type cs l (field_type cs f) w ≡ true → IsGood cs (invariants_hold cs) z → HasStore cs m (app (Set f) (owned_store (field_mark cs f) s o (field_class cs f) u ∷ o ∷ u ∷ [])) z }
{}

pub fn the_term_has_an_element_written()
    ensures { (cs : List ClassTree) (m : Structure) (s : Term) (l : List Object) → HasStore cs m s l → (a i u : Term) (v : ObjectValue) (n : ℤ) (w : ObjectValue) (z : List Object) → StandsFor cs m a (standing v) → StandsFor cs m i (whole n) → StandsFor cs m u (standing w) → write_element_of l v n w ≡ Ok z → IsGood cs (invariants_hold cs) z → HasStore cs m (app Put (s ∷ a ∷ i ∷ u ∷ [])) z }
{}

pub fn the_next_reference_is_the_new_object()
    ensures { (cs : List ClassTree) (m : Structure) (s : Term) (l : List Object) → HasStore cs m s l → StandsFor cs m (next_of s) (standing (value.Obj (length l))) }
{}

pub fn the_term_has_a_new_object()
    ensures { (cs : List ClassTree) (m : Structure) (s : Term) (l : List Object) → HasStore cs m s l → (t : ℕ) → Fits cs m.table (new_object_of cs l t) → IsGood cs (invariants_hold cs) (new_object_of cs l t) → HasStore cs m (app (New t) (s ∷ [])) (new_object_of cs l t) }
{}

pub fn the_term_has_a_new_array()
    ensures { (cs : List ClassTree) (m : Structure) (s : Term) (l : List Object) → HasStore cs m s l → (i : Term) (t : ℕ) (n : ℤ) (z : List Object) → StandsFor cs m i (whole n) → new_array_of l t n ≡ Ok z → Fits cs m.table z → IsGood cs (invariants_hold cs) z → HasStore cs m (app (NewArray t) (s ∷ i ∷ [])) z }
{}
