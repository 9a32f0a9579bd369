use super::{COUNTS, ask, status_at};
use cw_io::{Gate, MemSink, Point, SureSink, SureSource};
use std::sync::Wait;
use std::sync::atomic::{AtomicU64, Ordering};
use std::test::Fail;
use std::thread::Threads;

// Returns the status and the text over a sink that takes all it is given, and has room for `room` bytes.
fn by_all<R: AllocGlobal + Threads + Wait + Sync>(
    rt: &R,
    room: usize,
) -> Result<(u8, Vec<u8>), Fail> {
    let mut source = SureSource::new(COUNTS.to_vec(rt.alloc())?, 7);
    let mut sink = SureSink::with_room(rt.alloc(), room)?;
    let said = ask(rt, &["run"], &mut source, &mut sink)?;
    Ok((said.status, sink.taken().to_vec(rt.alloc())?))
}

// Returns the same over a sink that takes four bytes at a time.
fn by_fours<R: AllocGlobal + Threads + Wait + Sync>(
    rt: &R,
    room: usize,
) -> Result<(u8, Vec<u8>), Fail> {
    let mut source = SureSource::new(COUNTS.to_vec(rt.alloc())?, 7);
    let mut sink = MemSink::with_room(rt.alloc(), room, 4, Vec::new(rt.alloc()))?;
    let said = ask(rt, &["run"], &mut source, &mut sink)?;
    Ok((said.status, sink.taken().to_vec(rt.alloc())?))
}

// A text of 16 bytes. A sink takes it all, and tells it if it has the room.
#[test]
fn a_sink_without_room_takes_the_text(rt: HostRuntime) -> Result<(), Fail> {
    let text = b"out 1\nc = 1\nend\n".as_slice();
    for (room, wanted) in [(16, text), (15, b""), (3, b""), (0, b"")] {
        let (status, told) = by_all(&rt, room)?;
        assert_eq!(rt; status, 0, "room {room}");
        assert_eq!(rt; told.as_slice(), wanted, "room {room}");
        let (status, told) = by_fours(&rt, room)?;
        assert_eq!(rt; status, 0, "room {room}, by four");
        assert_eq!(rt; told.as_slice(), wanted, "room {room}, by four");
    }
    Ok(())
}

// A gate that counts its calls.
#[derive(Drop)]
pub(super) struct Counter {
    pub(super) calls: AtomicU64,
}

impl Gate for Counter {
    fn at<R: Threads + Wait + Sync>(&self, _rt: &R, _worker: u32, _point: Point) {
        self.calls.fetch_add(1, Ordering::SeqCst);
    }
}

// With one worker, or with virtual ones, nobody has to be held.
#[test]
fn no_worker_comes_to_the_gate(rt: HostRuntime) -> Result<(), Fail> {
    let spawning = b"cell c; fn main() { spawn { atomic { c = 1; } } atomic { c = 2; } }";
    for (command, option) in [("run", "--workers=1"), ("sim", "--workers=4")] {
        let gate = Counter {
            calls: AtomicU64::new(0),
        };
        let status = status_at(&rt, &[command, option], spawning, &gate)?;
        assert_eq!(rt; status, 0, "{command}");
        assert_eq!(rt; gate.calls.load(Ordering::SeqCst), 0, "{command}");
    }
    Ok(())
}
