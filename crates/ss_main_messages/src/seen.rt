// Files that keep what was last read of them.

ghost use Rattle.std.specs.Prelude.{◌≡◌};

use ss_io::{Files, ReadStop};
use std::alloc::Global;

/// Files that keep a copy of what was last read of them, where there was memory for one.
#[derive(Drop)]
pub struct Seen<F: Files + Drop> {
    files: F,
    last: Option<Vec<u8>>,
}

impl<F: Files + Drop> Seen<F> {
    /// Nothing was read yet.
    pub fn new(files: F) -> Self {
        Seen { files, last: None }
    }

    /// What was last read.
    pub fn last(&self) -> Option<&[u8]> {
        match &self.last {
            Some(bytes) => Some(bytes.as_slice()),
            None => None,
        }
    }
}

impl<F: Files + Drop> Files for Seen<F> {
    ghost faults = { λ s. F.faults s.files };

    ghost told = { λ s. F.told s.files };

    fn read(&mut self, alloc: Global, name: &str, limit: usize) -> Result<Vec<u8>, ReadStop> {
        self.last = None;
        let bytes = self.files.read(alloc, name, limit)?;
        self.last = bytes.as_slice().to_vec(alloc).ok();
        Ok(bytes)
    }
}
