// Why a change isn't made.
ghost use Rattle.std.specs.Prelude.{◌≡◌};
ghost use Rattle.ss_machine_stores.specs.declared.stop.ChangeStop.TheVariants.{Memory};
ghost use Rattle.ss_machine_stores.specs.Stops.{answer_of};

use ss_store_rules::Refused;
use std::alloc::AllocError;

/// Why the store isn't changed.
#[derive(Clone, Copy, Debug, PartialEq, Eq)]
pub enum ChangeStop {
    /// A check fails.
    Refused(Refused),
    /// There is no memory to log what changes.
    Memory,
}

impl From<AllocError> for ChangeStop {
    ghost from_gives = { λ _ stop. stop ≡ Memory };

    fn from(_error: AllocError) -> ChangeStop {
        ChangeStop::Memory
    }
}

/// The answer to a change that the store made or refused.
pub(crate) fn answer_of(changed: Result<(), Refused>) -> Result<(), ChangeStop>
    ensures { result ≡ answer_of changed }
{
    match changed {
        Ok(()) => Ok(()),
        Err(refused) => Err(ChangeStop::Refused(refused)),
    }
}
