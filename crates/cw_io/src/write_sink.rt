ghost use Rattle.std.specs.Prelude.{◌≡◌, ℕ, IsSome};
ghost use Rattle.cw_io.specs.WriteSink.{told_since};

use crate::{Failed, Sink};
use std::io::Write;
use std::snapshot::Snapshot;

/// A writer as a sink. Each of its errors is a fault, also that of an interrupted call. A write that takes nothing of a
/// piece that is not empty is a fault too. Each call flushes what it wrote, so that no fault comes to light after the
/// last call.
///
/// A flush may fail after bytes were taken. Nobody knows then how many of them came through. That call returns
/// `Failed`, and from then on the sink tells nothing.
#[derive(Drop)]
pub struct WriteSink<W: Write> {
    writer: W,
    // The writer at first, for clauses alone. A writer may begin to tell its bytes at any time, a sink may not.
    first: Snapshot<W>,
    is_told: bool,
    faults: u64,
    ghost tells_on: { IsSome (W.contents first.value) → IsSome (W.contents writer) },
}

impl<W: Write> WriteSink<W> {
    pub fn new(writer: W) -> WriteSink<W>
        ensures written { ⟦<WriteSink<W> as Sink>⟧.written result ≡ W.contents writer }
        ensures tells { (n : ℕ) → ⟦<WriteSink<W> as Sink>⟧.tells_for result n }
        ensures faults { ⟦<WriteSink<W> as Sink>⟧.faults result ≡ 0 }
    {
        let first = Snapshot::of(&writer);
        WriteSink {
            writer,
            first,
            is_told: true,
            faults: 0,
        }
    }
}

impl<W: Write> Sink for WriteSink<W> {
    ghost written = { λ s. told_since s.is_told (W.contents s.first.value) (W.contents s.writer) };

    // Only a failed flush makes the sink fall silent.
    ghost tells_for = { λ _ _. Unit {0} };

    ghost faults = { λ s. s.faults };

    fn write(&mut self, piece: &[u8]) -> Result<usize, Failed> {
        match self.writer.write(piece) {
            Ok(count) if count > 0 || piece.is_empty() => {
                if self.writer.flush().is_ok() {
                    return Ok(count);
                }
                self.is_told = false;
            }
            _ => {}
        }
        self.faults = self.faults.saturating_add(1);
        Err(Failed)
    }
}
