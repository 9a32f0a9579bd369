ghost use Rattle.std.specs.Prelude.{◌≡◌, ◌≤◌, [], length, take, Ok, IfOk, OnErr};
ghost use Rattle.cw_io.specs.FaultPlan.{fresh_plan, FailsAsListed};
ghost use Rattle.cw_io.specs.MemSink.{empty_stock, stock_after, told_bytes, HasRoomFor, TakesFront};
ghost use Rattle.cw_io.specs.Outside.{CountsFaults, Appends, KeepsTelling};

use crate::fault_plan::FaultPlan;
use crate::store::Store;
use crate::{Failed, Sink};
use cw_base::OutOfMemory;
use std::alloc::Global;
use std::marker::Model;

/// A sink in memory. The calls that its plan lists fail, and no others. It tells its bytes as long as they fit into its room.
#[derive(Drop)]
pub struct MemSink {
    store: Store,
    most: usize,
    plan: FaultPlan,
}

impl Model for MemSink {
    ghost use Rattle.std.specs.Prelude.{◌≤◌};
    ghost use Rattle.cw_io.specs.MemSink.{FaultyStock};

    ghost Value = { FaultyStock };

    ghost view = { λ s. record { stock = s.store; most = s.most; plan = s.plan } };

    ghost invariant = { λ s. 1 ≤ s.most };
}

impl MemSink {
    /// Returns a sink with room for `room` bytes in all, which takes at most `most` bytes a call. The calls whose
    /// numbers are in `failing` fail. They are counted from 1, failed ones included. All memory is taken here.
    pub fn with_room(
        alloc: Global,
        room: usize,
        most: usize,
        failing: Vec<u64>,
    ) -> Result<MemSink, OutOfMemory>
        requires { 1 ≤ most }
        ensures stock { IfOk result (λ s. s.stock ≡ empty_stock room) }
        ensures most { IfOk result (λ s. s.most ≡ most) }
        ensures plan { IfOk result (λ s. s.plan ≡ fresh_plan failing.items) }
    {
        Ok(MemSink {
            store: Store::with_room(alloc, room)?,
            most,
            plan: FaultPlan::new(failing),
        })
    }

    /// The bytes that the sink tells: none once it took more than it has room for.
    pub fn taken(&self) -> &[u8]
        ensures { result.now ≡ told_bytes self.now.stock }
    {
        self.store.told()
    }
}

impl Sink for MemSink {
    ghost written = { λ s. s.stock.written };

    ghost tells_for = { λ s. HasRoomFor s.stock };

    ghost faults = { λ s. s.plan.failed };

    fn write(&mut self, piece: &[u8]) -> Result<usize, Failed>
        ensures planned { FailsAsListed self.old.plan self.new.plan result }
        ensures front { IfOk result (TakesFront self.old.most self.old.stock self.new.stock piece.now) }
        ensures same_most { self.new.most ≡ self.old.most }
        ensures same { OnErr result (self.new.stock ≡ self.old.stock) }

        // As for every sink.
        ensures cause { CountsFaults self.old.plan.failed self.new.plan.failed result }
        ensures within { IfOk result (λ n. n ≤ length piece.now) }
        ensures taken { IfOk result (λ n. Appends self.old.stock.written self.new.stock.written (take n piece.now)) }
        ensures told { IfOk result (KeepsTelling (HasRoomFor self.old.stock) (HasRoomFor self.new.stock) self.old.stock.written self.new.stock.written) }
        ensures some { result ≡ Ok 0 → piece.now ≡ [] }
        ensures err { OnErr result (Appends self.old.stock.written self.new.stock.written []) }
    {
        self.plan.call()?;
        let count = piece.len().min(self.most);
        self.store.take(&piece[..count]);
        Ok(count)
    }
}

/// A sink in memory that takes every piece and never fails. It tells its bytes as long as they fit into its room.
#[derive(Drop)]
pub struct SureSink {
    store: Store,
}

impl Model for SureSink {
    ghost use Rattle.cw_io.specs.MemSink.{Stock};

    ghost Value = { Stock };

    ghost view = { λ s. s.store };
}

impl SureSink {
    /// Returns a sink with room for `room` bytes in all. All memory is taken here.
    pub fn with_room(alloc: Global, room: usize) -> Result<SureSink, OutOfMemory>
        ensures { IfOk result (λ s. s ≡ empty_stock room) }
    {
        Ok(SureSink {
            store: Store::with_room(alloc, room)?,
        })
    }

    /// The bytes that the sink tells: none once it took more than it has room for.
    pub fn taken(&self) -> &[u8]
        ensures { result.now ≡ told_bytes self.now }
    {
        self.store.told()
    }
}

impl Sink for SureSink {
    ghost written = { λ s. s.written };

    ghost tells_for = { HasRoomFor };

    ghost faults = { λ _. 0 };

    fn write(&mut self, piece: &[u8]) -> Result<usize, Failed>
        ensures whole { result ≡ Ok (length piece.now) }
        ensures stock { self.new ≡ stock_after self.old piece.now }

        // As for every sink.
        ensures cause { CountsFaults 0 0 result }
        ensures within { IfOk result (λ n. n ≤ length piece.now) }
        ensures taken { IfOk result (λ n. Appends self.old.written self.new.written (take n piece.now)) }
        ensures told { IfOk result (KeepsTelling (HasRoomFor self.old) (HasRoomFor self.new) self.old.written self.new.written) }
        ensures some { result ≡ Ok 0 → piece.now ≡ [] }
        ensures err { OnErr result (Appends self.old.written self.new.written []) }
    {
        self.store.take(piece);
        Ok(piece.len())
    }
}
