ghost use Rattle.std.specs.Prelude.{◌≡◌, ◌≤◌, ℕ, List, [], length, take, Option, IfOk, OnOk, OnErr, Ok};
ghost use Rattle.cw_io.specs.Outside.{CountsFaults, Appends, AppendsFront, KeepsTelling};

use crate::Failed;

/// Where bytes go.
pub trait Sink {
    /// The bytes that the sink took, if it tells them.
    ghost written: { Self → Option (List ℕ) };

    /// The sink goes on telling for the given number of bytes more.
    ghost tells_for: { Self → ℕ → Type 0 };

    /// A count that rises with each write that fails.
    ghost faults: { Self → ℕ };

    /// Takes a front of `piece` and returns how many bytes. It returns 0 only for an empty piece: otherwise the write
    /// failed. After `Failed` nothing was taken. A sink that told its bytes may fall silent at a failure, and after the
    /// bytes for which it goes on telling.
    fn write(&mut self, piece: &[u8]) -> Result<usize, Failed>
        ensures cause { CountsFaults (faults self.old) (faults self.new) result }
        ensures within { IfOk result (λ n. n ≤ length piece.now) }
        ensures taken { IfOk result (λ n. Appends (written self.old) (written self.new) (take n piece.now)) }
        ensures told { IfOk result (KeepsTelling (tells_for self.old) (tells_for self.new) (written self.old) (written self.new)) }
        ensures some { result ≡ Ok 0 → piece.now ≡ [] }
        ensures err { OnErr result (Appends (written self.old) (written self.new) []) };
}

/// Writes the whole `text`, in as many calls as the sink needs. It ends, since each call writes at least one byte. It
/// takes no memory. It stops at the first write that fails, and the sink then holds a front of the text.
pub fn write_all<K: Sink>(sink: &mut K, text: &[u8]) -> Result<(), Failed>
    ensures cause { CountsFaults (K.faults sink.old) (K.faults sink.new) result }
    ensures ok { OnOk result (Appends (K.written sink.old) (K.written sink.new) text.now) }
    ensures told { OnOk result (KeepsTelling (K.tells_for sink.old) (K.tells_for sink.new) (K.written sink.old) (K.written sink.new) (length text.now)) }
    ensures err { OnErr result (AppendsFront (K.written sink.old) (K.written sink.new) text.now) }
{
    let mut done = 0;
    while done < text.len() {
        done += sink.write(&text[done..])?;
    }
    Ok(())
}
