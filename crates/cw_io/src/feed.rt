ghost use Rattle.std.specs.Prelude.{◌≡◌, ◌≢◌, ◌≤◌, []};
ghost use Rattle.cw_io.specs.MemSource.{GivesNext};

use std::marker::Model;

/// Bytes in memory that are given in order, at most `most` in each call.
#[derive(Drop)]
pub struct Feed {
    bytes: Vec<u8>,
    given: usize,
    most: usize,
}

impl Model for Feed {
    ghost use Rattle.std.specs.Prelude.{◌≤◌, drop, vec_len};
    ghost use Rattle.cw_io.specs.MemSource.{Supply};

    ghost Value = { Supply };

    ghost view = { λ f. record { left = drop f.given f.bytes.items; most = f.most } };

    ghost invariant = { λ f. (f.given ≤ vec_len f.bytes) × (1 ≤ f.most) };
}

impl Feed {
    pub fn new(bytes: Vec<u8>, most: usize) -> Feed
        requires { 1 ≤ most }
        ensures { result ≡ record { left = bytes.items; most = most } }
    {
        Feed {
            bytes,
            given: 0,
            most,
        }
    }

    /// Puts the next bytes at the front of `buf` and returns how many.
    pub fn give(&mut self, buf: &mut [u8]) -> usize
        ensures next { GivesNext self.old self.new buf.old buf.new result }
        ensures end { result ≡ 0 → buf.old ≢ [] → self.old.left ≡ [] }
    {
        let left = &self.bytes[self.given..];
        let count = self.most.min(buf.len()).min(left.len());
        buf[..count].copy_from_slice(&left[..count]);
        self.given += count;
        count
    }
}
