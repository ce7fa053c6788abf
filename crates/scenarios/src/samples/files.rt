//! The file of a session and its run log, in memory.

ghost use Rattle.std.specs.Prelude.{◌≡◌};

use rc_recovery::{FileFault, TwoFiles};
use std::alloc::Global;

/// Two files in memory. A byte that is appended, a replacement and an emptying each take one of
/// their steps; where no step is left, the call fails there, as if the program was killed.
#[derive(Drop)]
pub struct MemoryFiles {
    pub alloc: Global,
    pub file: Vec<u8>,
    pub log: Vec<u8>,
    pub steps: usize,
}

impl TwoFiles for MemoryFiles {
    ghost holds = { λ f. record { file = f.file.items; log = f.log.items } };

    ghost left = { λ f g. g ≡ record { file = f.file.items; log = f.log.items } };

    ghost failed = { λ f. Unit {0} };

    fn read_file(&self, alloc: Global) -> Result<Vec<u8>, FileFault> {
        match Vec::from_slice(alloc, &self.file) {
            Ok(bytes) => Ok(bytes),
            Err(_) => Err(FileFault::Memory),
        }
    }

    fn read_log(&self, alloc: Global) -> Result<Vec<u8>, FileFault> {
        match Vec::from_slice(alloc, &self.log) {
            Ok(bytes) => Ok(bytes),
            Err(_) => Err(FileFault::Memory),
        }
    }

    fn append_log(&mut self, bytes: &[u8]) -> Result<(), FileFault> {
        let whole = bytes.len() <= self.steps;
        let count = if whole { bytes.len() } else { self.steps };
        if self.log.extend_from_slice(&bytes[..count]).is_err() {
            return Err(FileFault::Memory);
        }
        self.steps -= count;
        if whole { Ok(()) } else { Err(FileFault::Io) }
    }

    fn replace_file(&mut self, text: &[u8]) -> Result<(), FileFault> {
        if self.steps == 0 {
            return Err(FileFault::Io);
        }
        let Ok(text) = Vec::from_slice(self.alloc, text) else {
            return Err(FileFault::Memory);
        };
        self.steps -= 1;
        self.file = text;
        Ok(())
    }

    fn empty_log(&mut self) -> Result<(), FileFault> {
        if self.steps == 0 {
            return Err(FileFault::Io);
        }
        self.steps -= 1;
        self.log.clear();
        Ok(())
    }
}
