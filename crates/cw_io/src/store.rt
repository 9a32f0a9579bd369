ghost use Rattle.std.specs.Prelude.{◌≡◌, IfOk};
ghost use Rattle.cw_io.specs.MemSink.{empty_stock, stock_after, told_bytes};

use cw_base::OutOfMemory;
use std::alloc::Global;
use std::marker::Model;

/// The bytes that a sink in memory took, as long as they fit into its room.
#[derive(Drop)]
pub struct Store {
    told: Option<Vec<u8>>,
    room: usize,
}

impl Model for Store {
    ghost use Rattle.std.specs.Prelude.{◌≤◌, vec_len, vec_capacity, IfSome};
    ghost use Rattle.std.specs.Option.{option_map};
    ghost use Rattle.cw_io.specs.MemSink.{Stock};

    ghost Value = { Stock };

    ghost view = { λ s. record { written = option_map (λ bytes. bytes.items) s.told; room = s.room } };

    ghost invariant = { λ s. IfSome s.told (λ bytes. (vec_len bytes ≤ s.room) × (s.room ≤ vec_capacity bytes)) };
}

impl Store {
    /// Allocates room for `room` bytes.
    pub fn with_room(alloc: Global, room: usize) -> Result<Store, OutOfMemory>
        ensures { IfOk result (λ s. s ≡ empty_stock room) }
    {
        Ok(Store {
            told: Some(Vec::with_capacity(alloc, room)?),
            room,
        })
    }

    /// Takes the whole piece. If it does not fit into the room, the store tells nothing from then on.
    pub fn take(&mut self, piece: &[u8])
        ensures { self.new ≡ stock_after self.old piece.now }
    {
        let Some(bytes) = &mut self.told else {
            return;
        };
        if piece.len() <= self.room - bytes.len() {
            bytes.extend_from_slice(piece).unwrap();
        } else {
            self.told = None;
        }
    }

    /// The bytes that the store tells.
    pub fn told(&self) -> &[u8]
        ensures { result.now ≡ told_bytes self.now }
    {
        match &self.told {
            Some(bytes) => bytes.as_slice(),
            None => &[],
        }
    }
}
