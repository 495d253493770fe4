// Why tokens could not be read.

ghost use Rattle.std.specs.Prelude.{◌≡◌};
ghost use Rattle.ss_grammar.specs.declared.fault.Stop.TheVariants.{Memory};

use std::alloc::{AllocError, AllocFailed};

/// What is wrong at a token.
#[derive(Clone, Copy, Debug, PartialEq, Eq)]
pub enum Fault {
    /// Nothing that can be read goes on with it.
    Expected,
    /// It opens a level of nesting too many.
    TooDeep,
}

/// Why nothing is given.
#[derive(Drop)]
pub enum Stop {
    /// There was no memory.
    Memory,
    /// The fault, and how many tokens are left where it stands.
    Fault(Fault, usize),
}

impl From<AllocError> for Stop {
    ghost from_gives = { λ _ e. e ≡ Memory };

    fn from(_e: AllocError) -> Stop {
        Stop::Memory
    }
}

impl<T: Drop> From<AllocFailed<T>> for Stop {
    ghost from_gives = { λ _ e. e ≡ Memory };

    fn from(_e: AllocFailed<T>) -> Stop {
        Stop::Memory
    }
}
