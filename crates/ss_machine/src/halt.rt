// Why a machine doesn't go on.
ghost use Rattle.std.specs.Prelude.{◌≡◌, Ok, Err, if◌then◌else◌};
ghost use Rattle.ss_machine.specs.declared.halt.Halt.TheVariants.{Memory};

use ss_core::{Kind, Place};
use std::alloc::{AllocError, AllocFailed};

// The run is over, a check fails, an assumption is false, or the step was not made.
#[derive(Clone, Copy, Debug, PartialEq, Eq)]
pub enum Halt {
    Over,
    Fails(Kind, Place),
    Stops(Place),
    WriteFault,
    Memory,
}

// Want of memory halts the run.
impl From<AllocError> for Halt {
    ghost from_gives = { λ _ h. h ≡ Memory };

    fn from(_error: AllocError) -> Halt {
        Halt::Memory
    }
}

impl<T: Drop> From<AllocFailed<T>> for Halt {
    ghost from_gives = { λ _ h. h ≡ Memory };

    fn from(_refused: AllocFailed<T>) -> Halt {
        Halt::Memory
    }
}

// Where the check fails, so does the run.
pub fn ensure(holds: bool, kind: Kind, place: Place) -> Result<(), Halt>
    ensures { result ≡ (if holds then Ok tt else Err (Halt.Fails kind place)) }
{
    if holds {
        Ok(())
    } else {
        Err(Halt::Fails(kind, place))
    }
}
