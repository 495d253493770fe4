// An output that keeps what it was last given.

ghost use Rattle.std.specs.Prelude.{◌≡◌};

use ss_io::{Sink, WriteStop};
use std::alloc::Global;

/// An output that keeps a copy of the last piece that it was given, or a part of one where there was no memory.
#[derive(Drop)]
pub struct Heard<S: Sink + Drop> {
    sink: S,
    last: Vec<u8>,
}

impl<S: Sink + Drop> Heard<S> {
    /// Nothing was heard yet.
    pub fn new(alloc: Global, sink: S) -> Self {
        Heard {
            sink,
            last: Vec::new(alloc),
        }
    }

    /// The last piece.
    pub fn last(&self) -> &[u8]
        ensures { result.now ≡ self.now.last.items }
    {
        self.last.as_slice()
    }
}

impl<S: Sink + Drop> Sink for Heard<S> {
    ghost faults = { λ s. S.faults s.sink };

    ghost taken = { λ s. S.taken s.sink };

    ghost pieces = { λ s. S.pieces s.sink };

    fn write(&mut self, piece: &[u8]) -> Result<(), WriteStop> {
        self.last.clear();
        let _ = self.last.extend_from_slice(piece);
        self.sink.write(piece)
    }
}
