// Refusals.
ghost use Rattle.std.specs.Prelude.{◌≡◌};

use ss_core::Kind;
use ss_store_rules::Refused;

/// The check of this kind fails.
pub(crate) fn refuse(kind: Kind) -> Result<(), Refused>
    ensures { result ≡ Err (record { kind = kind }) }
{
    Err(Refused { kind })
}
