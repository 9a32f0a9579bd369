ghost use Rattle.std.specs.Prelude.{◌≡◌};

use crate::{Failed, Source};
use std::io::Read;

/// A reader as a source. The source tells what the reader tells. Each error of the reader is a fault, also that of an interrupted call.
#[derive(Drop)]
pub struct ReadSource<R> {
    reader: R,
    faults: u64,
    ends: u64,
}

impl<R: Read> ReadSource<R> {
    pub fn new(reader: R) -> ReadSource<R>
        ensures left { ⟦<ReadSource<R> as Source>⟧.left result ≡ R.remaining reader }
        ensures faults { ⟦<ReadSource<R> as Source>⟧.faults result ≡ 0 }
        ensures ends { ⟦<ReadSource<R> as Source>⟧.ends result ≡ 0 }
    {
        ReadSource {
            reader,
            faults: 0,
            ends: 0,
        }
    }
}

impl<R: Read> Source for ReadSource<R> {
    ghost left = { λ s. R.remaining s.reader };

    ghost faults = { λ s. s.faults };

    ghost ends = { λ s. s.ends };

    fn read(&mut self, buf: &mut [u8]) -> Result<usize, Failed> {
        match self.reader.read(buf) {
            Ok(0) => {
                self.ends = self.ends.saturating_add(1);
                Ok(0)
            }
            Ok(count) => Ok(count),
            Err(_) => {
                self.faults = self.faults.saturating_add(1);
                self.ends = self.ends.saturating_add(1);
                Err(Failed)
            }
        }
    }
}
