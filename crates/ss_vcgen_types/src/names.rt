// The types of locals and of bound names.

ghost use Rattle.std.specs.Prelude.{◌≡◌, slice_get};
ghost use Rattle.ss_vcgen_types.specs.Names.{types_of_names, look_up, or_bound};

use ss_core::Ty;

/// The types of the locals, and after them those of the bound names, which are numbers.
#[derive(Clone, Copy)]
pub(crate) enum Names<'t> {
    Locals(&'t [Ty]),
    Bound(&'t Names<'t>),
}

// The type of this number, or how far the number is past the last one.
#[tactic(auto, using(crate::proofs::Lookups::look_up_at, crate::proofs::Lookups::look_up_past))]
fn look_up_local(types: &[Ty], x: usize) -> Result<Ty, usize>
    ensures { result ≡ look_up types.now x }
{
    if x < types.len() {
        Ok(types[x])
    } else {
        Err(x - types.len())
    }
}

// A number just past those that were looked up is that of the next bound name.
fn or_bound(found: Result<Ty, usize>) -> Result<Ty, usize>
    ensures { result ≡ or_bound found }
{
    match found {
        Ok(ty) => Ok(ty),
        Err(0) => Ok(Ty::Int),
        Err(past) => Err(past - 1),
    }
}

impl<'t> Names<'t> {
    // The type of this number, or how far the number is past the last one.
    fn look_up(&self, x: usize) -> Result<Ty, usize>
        ensures { result ≡ look_up (types_of_names self.now) x }
    {
        match self {
            Names::Locals(types) => look_up_local(types, x),
            Names::Bound(outer) => or_bound(outer.look_up(x)),
        }
    }

    /// The type of this number, where there is one.
    #[tactic(auto, using(crate::proofs::Lookups::found_at, crate::proofs::Lookups::found_past))]
    pub(crate) fn type_at(&self, x: usize) -> Option<Ty>
        ensures { result ≡ slice_get (types_of_names self.now) x }
    {
        match self.look_up(x) {
            Ok(ty) => Some(ty),
            Err(_) => None,
        }
    }
}
