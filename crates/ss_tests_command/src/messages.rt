// Messages on standard error.

ghost use Rattle.std.specs.Prelude.{◌≡◌, IfOk, string_bytes};
ghost use Rattle.ss_main_messages.specs.Messages.{refused_message as refused_as};

use ss_core::Place;
use ss_main_messages::refused_message;
use std::alloc::{AllocError, Global};

/// The message of a source that a rule refuses at a place.
pub fn message_of_refusal(
    alloc: Global,
    file: &str,
    source: &[u8],
    place: Place,
    rule: u16,
) -> Result<String, AllocError>
    ensures { IfOk result (λ text. string_bytes text ≡ refused_as file.now source.now place rule) }
{
    refused_message(alloc, file, source, place, rule)
}
