ghost use Rattle.std.specs.Prelude.{◌≡◌, ◌≢◌, ◌≤◌, ℕ, List, [], length, take, Option, IfOk, OnErr, Ok};
ghost use Rattle.cw_io.specs.Outside.{CountsEnds, CountsFaults, Takes, TakesNothing, IsDry};

/// A read or a write failed.
#[derive(Clone, Copy, PartialEq, Eq, Debug)]
pub struct Failed;

/// Where bytes come from.
pub trait Source {
    /// The bytes still to come, if the source tells them.
    ghost left: { Self → Option (List ℕ) };

    /// A count that rises with each read that fails.
    ghost faults: { Self → ℕ };

    /// How many reads gave no byte: at the end, into an empty buffer, or by a failure.
    ghost ends: { Self → ℕ };

    /// Puts the next bytes at the front of `buf` and returns how many. 0 for a buffer that is not empty means the
    /// end of the input. After `Failed`, all that was to come is still to come.
    fn read(&mut self, buf: &mut [u8]) -> Result<usize, Failed>
        ensures cause { CountsFaults (faults self.old) (faults self.new) result }
        ensures ends { CountsEnds (ends self.old) (ends self.new) result }
        ensures within { IfOk result (λ n. n ≤ length buf.old) }
        ensures given { IfOk result (λ n. Takes (left self.old) (left self.new) (take n buf.new)) }
        ensures end { result ≡ Ok 0 → buf.old ≢ [] → IsDry (left self.old) }
        ensures err { OnErr result (TakesNothing (left self.old) (left self.new)) };
}
