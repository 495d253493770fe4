// The store as it was before.
ghost use Rattle.std.specs.Prelude.{◌≡◌, List};
ghost use Rattle.ss_store_rules.specs.Store.{Object};
ghost use Rattle.ss_store_rules.specs.Reads.{object_at, is_allocated, field_read, element_read};
ghost use Rattle.ss_store.specs.Shapes.{owner_of_pair};

use ss_core::{ClassId, FieldId};
use ss_store_rules::Value;

/// Tells single places of the store as it was at the entry of a body. What isn't there reads as nothing.
pub trait Before {
    /// The store at entry.
    ghost told: { Self → List Object };

    fn field(&self, o: u32, f: FieldId) -> Value
        ensures { result ≡ field_read (object_at (told self.now) o) f.0 };

    fn element(&self, a: u32, i: u32) -> Value
        ensures { result ≡ element_read (object_at (told self.now) a) i };

    fn level(&self, o: u32) -> ClassId
        ensures { result.0 ≡ (object_at (told self.now) o).level };

    fn committed(&self, o: u32) -> bool
        ensures { result ≡ (object_at (told self.now) o).committed };

    /// The number of a group beside 65535, or an object and a class.
    fn owner(&self, o: u32) -> (u32, u16)
        ensures { owner_of_pair result ≡ (object_at (told self.now) o).owner };

    fn allocated(&self, o: u32) -> bool
        ensures { result ≡ is_allocated (told self.now) o };
}
