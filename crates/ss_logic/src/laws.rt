// What holds of every structure.

ghost use Rattle.std.specs.Prelude.{◌≡◌, ℕ, pos, ◌<◌, List, [], true};
ghost use Rattle.ss_core.specs.declared.names.Ty.TheVariants as ty;
ghost use Rattle.ss_core.specs.Tree.{ClassTree};
ghost use Rattle.ss_store_rules.specs.Changes.{element_type, field_type};
ghost use Rattle.ss_logic.specs.declared.Sort.{Sort};
ghost use Rattle.ss_logic.specs.Values.{Thing, reference, group_number, Heap, Table, Value, sort_of_value, Structure};
ghost use Rattle.ss_logic.specs.Changes.{changed, element_put, field_set, unpacked, packed, regrouped, made_ready};
ghost use Rattle.ss_logic.specs.Objects.{object_value, owner_of_thing, objects_of};
ghost use Rattle.ss_store_rules.specs.Changes as store;
ghost use Rattle.ss_logic.specs.Terms.{Term, field_sort, have_sorts, sort_of_type};
ghost use Rattle.ss_logic.specs.Formulas.{Formula, Forall, True, neg, put};

/// A formula and its negation are never both true.
pub fn not_both_are_true()
    ensures { (cs : List ClassTree) (m : Structure) (e : List Value) (f : Formula) → True cs m e f → True cs m e (neg f) → ⊥ }
{}

/// Where a formula isn't true, its negation is.
pub fn one_of_them_is_true()
    ensures { (cs : List ClassTree) (m : Structure) (e : List Value) (f : Formula) → (True cs m e f → ⊥) → True cs m e (neg f) }
{}

/// What is true of all values is true of the values of terms of their sorts.
pub fn a_forall_is_true_at_terms()
    ensures { (cs : List ClassTree) (m : Structure) (ss : List Sort) (f : Formula) (ts : List Term) → have_sorts cs ss ts ≡ true → True cs m [] (Forall ss f) → True cs m [] (put ts f) }
{}

/// A store that is unpacked tables the objects of before, unpacked. So it is with the other changes below.
pub fn unpacking_is_unpacking()
    ensures { (cs : List ClassTree) (table : Table) (h : Heap) (o t : ℕ) → o < h.next → objects_of cs table (changed (unpacked cs (reference o) t) h) ≡ store.changed (store.unpacked cs o t) (objects_of cs table h) }
{}

pub fn packing_is_packing()
    ensures { (cs : List ClassTree) (table : Table) (h : Heap) (o t : ℕ) → o < h.next → objects_of cs table (changed (packed (reference o) t) h) ≡ store.changed (store.repacked o t) (objects_of cs table h) }
{}

pub fn a_new_owner_is_a_new_owner()
    ensures { (cs : List ClassTree) (table : Table) (h : Heap) (g : ℕ) (new : Thing) → objects_of cs table (changed (regrouped (group_number g) new) h) ≡ store.changed (store.regrouped g (owner_of_thing h.next new)) (objects_of cs table h) }
{}

pub fn being_made_ready_is_being_made_ready()
    ensures { (cs : List ClassTree) (table : Table) (h : Heap) (o : ℕ) → objects_of cs table (changed (made_ready (reference o)) h) ≡ store.changed (store.made_ready o) (objects_of cs table h) }
{}

pub fn a_write_is_a_write()
    ensures { (cs : List ClassTree) (table : Table) (h : Heap) (o f : ℕ) (v : Value) → (field_type cs f ≡ ty.Null → ⊥) → sort_of_value v ≡ field_sort cs f → objects_of cs table (changed (field_set (reference o) f v) h) ≡ store.changed (store.written o f (object_value v)) (objects_of cs table h) }
{}

pub fn a_write_of_an_element_is_a_write_of_it()
    ensures { (cs : List ClassTree) (table : Table) (h : Heap) (a i : ℕ) (v : Value) → sort_of_value v ≡ sort_of_type (element_type (table.class_of (reference a))) → objects_of cs table (changed (element_put (reference a) (pos i) v) h) ≡ store.changed (store.element_written a i (object_value v)) (objects_of cs table h) }
{}
