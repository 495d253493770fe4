// What holds of heaps and of the lists of objects that they have.

ghost use Rattle.std.specs.Prelude.{◌≡◌, ℕ, ℤ, List, length, true, Ok, Some, slice_get};
ghost use Rattle.ss_core.specs.declared.names.Mark.{Mark};
ghost use Rattle.ss_core.specs.declared.names.Ty.TheVariants as ty;
ghost use Rattle.ss_core.specs.Tree.{ClassTree};
ghost use Rattle.ss_core.specs.Chain.{IsChain};
ghost use Rattle.ss_store_rules.specs.declared.Value.{Value};
ghost use Rattle.ss_store_rules.specs.Store.{Object};
ghost use Rattle.ss_store_rules.specs.Changes.{field_class, field_mark, field_type, unpack_of, pack_of, with_owners, write_of, write_element_of, new_object_of, new_array_of};
ghost use Rattle.ss_store_rules.specs.Good.{has_type, Invariants, IsGood};
ghost use Rattle.ss_store_rules.specs.Admissible.{invariants_hold};
ghost use Rattle.ss_machine_rules.specs.Steps.{with_ready};
ghost use Rattle.ss_machine_typed.specs.Older.{IsOlder};
ghost use Rattle.ss_logic.specs.Values.{Heap, Table, no_heap, reference, as_thing};
ghost use Rattle.ss_logic.specs.Changes.{changed, field_set, element_put, unpacked, packed, with_new, new_object, new_array, made_ready};
ghost use Rattle.ss_logic.specs.Objects.{objects_of, IsGoodStore};
ghost use Rattle.ss_logic_means.specs.Means.{standing};
ghost use Rattle.ss_sound_outcomes.specs.Points.{Fits};
ghost use Rattle.ss_logic_tables.specs.Tabled.{IsStoreOf, tabled};
ghost use Rattle.ss_logic_tables.specs.Elsewhere.{SameElsewhere};
ghost use Rattle.ss_logic_tables.specs.Owned.{owned_heap};
ghost use Rattle.ss_logic_tables.specs.Read.{HasObject};

/// A good list of objects, which the table fits, has its heap over each good heap of an older list.
pub fn a_list_has_its_heap()
    ensures { (cs : List ClassTree) → IsChain cs → (table : Table) (h : Heap) (s : List Object) → IsGoodStore cs table h → IsOlder (objects_of cs table h) s → IsGood cs (invariants_hold cs) s → Fits cs table s → IsStoreOf cs table (tabled h s) s }
{}

/// And it has one over the heap without objects.
pub fn a_list_has_a_heap()
    ensures { (cs : List ClassTree) → IsChain cs → (table : Table) (s : List Object) → IsGood cs (invariants_hold cs) s → Fits cs table s → IsStoreOf cs table (tabled no_heap s) s }
{}

/// Where its objects have nothing, that heap is like the one of before.
pub fn a_new_heap_is_as_before()
    ensures { (cs : List ClassTree) → IsChain cs → (table : Table) (h : Heap) (s : List Object) → IsOlder (objects_of cs table h) s → IsGood cs (invariants_hold cs) s → Fits cs table s → SameElsewhere cs table h (tabled h s) }
{}

/// The table fits the objects of a heap.
pub fn a_table_fits_the_objects_of_a_heap()
    ensures { (cs : List ClassTree) (table : Table) (h : Heap) (s : List Object) → IsStoreOf cs table h s → Fits cs table s }
{}

/// A heap allocates next at the length of its list.
pub fn a_heap_goes_on_at_the_length_of_its_list()
    ensures { (cs : List ClassTree) (table : Table) (h : Heap) (s : List Object) → IsStoreOf cs table h s → h.next ≡ length s }
{}

/// What is read of a heap at an object is what the object has.
pub fn an_object_of_the_list_is_one_of_the_heap()
    ensures { (cs : List ClassTree) (table : Table) (h : Heap) (s : List Object) → IsStoreOf cs table h s → (o : ℕ) (x : Object) → slice_get s o ≡ Some x → HasObject cs table h o x }
{}

/// The heap in which an object is made ready has the list in which it is. So it is with the other changes below, where their checks hold.
pub fn the_heap_is_made_ready()
    ensures { (cs : List ClassTree) (table : Table) (h : Heap) (s : List Object) → IsStoreOf cs table h s → (v : Value) → IsGood cs (invariants_hold cs) (with_ready s v) → IsStoreOf cs table (changed (made_ready (as_thing (standing v))) h) (with_ready s v) }
{}

pub fn the_heap_is_unpacked()
    ensures { (cs : List ClassTree) (table : Table) (h : Heap) (s : List Object) → IsStoreOf cs table h s → (v : Value) (t : ℕ) (z : List Object) → unpack_of cs s v t ≡ Ok z → IsGood cs (invariants_hold cs) z → IsStoreOf cs table (changed (unpacked cs (as_thing (standing v)) t) h) z }
{}

pub fn the_heap_is_packed()
    ensures { (cs : List ClassTree) (table : Table) (h : Heap) (s : List Object) → IsStoreOf cs table h s → (holds : Invariants) (v : Value) (t : ℕ) (z : List Object) → pack_of cs holds s v t ≡ Ok z → IsGood cs (invariants_hold cs) z → IsStoreOf cs table (changed (packed (as_thing (standing v)) t) h) z }
{}

pub fn the_heap_has_a_new_object()
    ensures { (cs : List ClassTree) (table : Table) (h : Heap) (s : List Object) → IsStoreOf cs table h s → (t : ℕ) → Fits cs table (new_object_of cs s t) → IsGood cs (invariants_hold cs) (new_object_of cs s t) → IsStoreOf cs table (with_new (new_object h.next) h) (new_object_of cs s t) }
{}

pub fn the_heap_has_a_new_array()
    ensures { (cs : List ClassTree) (table : Table) (h : Heap) (s : List Object) → IsStoreOf cs table h s → (t : ℕ) (n : ℤ) (z : List Object) → new_array_of s t n ≡ Ok z → Fits cs table z → IsGood cs (invariants_hold cs) z → IsStoreOf cs table (with_new (new_array t h.next) h) z }
{}

/// A write gives owners first, as the mark of the field says.
pub fn the_heap_has_a_field_written()
    ensures { (cs : List ClassTree) (table : Table) (h : Heap) (s : List Object) → IsStoreOf cs table h s → (v : Value) (f : ℕ) (w : Value) (z : List Object) → write_of cs s v f w ≡ Ok z → (field_type cs f ≡ ty.Null → ⊥) → has_type cs s (field_type cs f) w ≡ true → IsGood cs (invariants_hold cs) z → IsStoreOf cs table (changed (field_set (as_thing (standing v)) f (standing w)) (owned_heap (field_mark cs f) h (as_thing (standing v)) (field_class cs f) (as_thing (standing w)))) z }
{}

pub fn the_heap_has_an_element_written()
    ensures { (cs : List ClassTree) (table : Table) (h : Heap) (s : List Object) → IsStoreOf cs table h s → (v : Value) (i : ℤ) (w : Value) (z : List Object) → write_element_of s v i w ≡ Ok z → IsGood cs (invariants_hold cs) z → IsStoreOf cs table (changed (element_put (as_thing (standing v)) i (standing w)) h) z }
{}

/// A capture or a join of the heap has the list that it gives.
pub fn the_heap_has_the_owners_of_a_write()
    ensures { (cs : List ClassTree) (table : Table) (h : Heap) (s : List Object) → IsStoreOf cs table h s → (m : Mark) (o t : ℕ) (w : Value) (z : List Object) → with_owners m s o t w ≡ Ok z → objects_of cs table (owned_heap m h (reference o) t (as_thing (standing w))) ≡ z }
{}
