// Places, numbers, marks, types and kinds, and why a source is refused.

ghost use Rattle.std.specs.Prelude.{◌≡◌};
ghost use Rattle.ss_core.specs.declared.names.FrontStop.TheVariants.{Memory};

use std::alloc::AllocError;

/// A place in a source: a line, from 1, and in it a byte, from 1.
#[derive(Clone, Copy, Debug, PartialEq, Eq)]
pub struct Place {
    pub line: u32,
    pub column: u32,
}

/// The number of a class: 0 is `object`, and 1 to 3 are the arrays `int[]`, `bool[]` and `object[]`. The declared class `k`,
/// counted from 0, has the number `4 + 2 k`, and its array `5 + 2 k`.
#[derive(Clone, Copy, Debug, PartialEq, Eq)]
pub struct ClassId(pub u16);

/// The number of a body, from 0.
#[derive(Clone, Copy, Debug, PartialEq, Eq)]
pub struct BodyId(pub u32);

/// The number of a field, from 0, in order of declaration over the whole program.
#[derive(Clone, Copy, Debug, PartialEq, Eq)]
pub struct FieldId(pub u32);

/// What a field says of the owner of the object that it points to (ECOOP 2004).
#[derive(Clone, Copy, Debug, PartialEq, Eq)]
pub enum Mark {
    /// Nothing.
    Plain,
    /// `[Rep]`: it is owned by the object with the field, at the class that declares the field.
    Rep,
    /// `[Peer]`: it has the owner that the object with the field has.
    Peer,
}

/// A type. `Null` is that of the literal `null`; no declaration has it.
#[derive(Clone, Copy, Debug, PartialEq, Eq)]
pub enum Ty {
    Int,
    Bool,
    Null,
    /// A class, `object` or an array class, with or without `null` (OOPSLA 2003).
    Ref { class: ClassId, non_null: bool },
}

/// What a check is about.
#[derive(Clone, Copy, Debug, PartialEq, Eq)]
pub enum Kind {
    Null,
    Index,
    Cast,
    Overflow,
    ZeroDivisor,
    NegativeLength,
    Assert,
    Precondition,
    Postcondition,
    Frame,
    LoopInvariant,
    LoopFrame,
    LoopLevel,
    UnpackLevel,
    UnpackCommitted,
    PackLevel,
    Invariant,
    PackOwned,
    WriteLevel,
    WriteCommitted,
    RepOwner,
    PeerOwner,
}

/// Why a source is refused: a rule's number and the place where it is broken; or there was no memory.
#[derive(Clone, Copy, Debug, PartialEq, Eq)]
pub enum FrontStop {
    Refused { rule: u16, place: Place },
    Memory,
}

impl From<AllocError> for FrontStop {
    ghost from_gives = { λ _ stop. stop ≡ Memory };

    fn from(_error: AllocError) -> FrontStop {
        FrontStop::Memory
    }
}
