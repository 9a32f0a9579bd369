use super::*;
use cw_base::Seq;
use std::alloc::Global;
use std::io;
use std::io::{BufWriter, ErrorKind, Read, Write};
use std::process::Abort;
use std::test::Fail;

/// Reads into a buffer of three bytes, once for each item of `wanted`: the bytes of that read, or `None` for a fault.
fn expect_reads<S: Source>(rt: &impl Abort, source: &mut S, wanted: &[Option<&[u8]>]) {
    for want in wanted {
        let mut buf = [0u8; 3];
        match (source.read(&mut buf), want) {
            (Ok(count), Some(bytes)) => assert!(rt; &buf[..count] == *bytes),
            (Err(Failed), None) => {}
            _ => assert!(rt; false),
        }
    }
}

#[test]
fn sources_in_memory_give_their_bytes(rt: HostRuntime) -> Result<(), Fail> {
    let bytes = b"abcde".to_vec(rt.alloc())?;
    let mut sure = SureSource::new(bytes, 4);
    expect_reads(
        &rt,
        &mut sure,
        &[Some(b"abc"), Some(b"de"), Some(b""), Some(b"")],
    );
    let bytes = b"abcde".to_vec(rt.alloc())?;
    let mut faulty = MemSource::new(bytes, 2, [2, 5].to_vec(rt.alloc())?);
    expect_reads(
        &rt,
        &mut faulty,
        &[Some(b"ab"), None, Some(b"cd"), Some(b"e"), None, Some(b"")],
    );
    Ok(())
}

/// What a sink that never fails tells after all of `texts` were written.
fn told_by_sure(alloc: Global, room: usize, texts: &[&[u8]]) -> Result<Vec<u8>, Fail> {
    let mut sink = SureSink::with_room(alloc, room)?;
    for text in texts {
        write_all(&mut sink, text)?;
    }
    Ok(sink.taken().to_vec(alloc)?)
}

/// Which of `texts` a sink takes whole, and what it then tells. It takes four bytes a call, and the calls in `failing` fail.
fn told_by_faulty(
    alloc: Global,
    room: usize,
    failing: &[u64],
    texts: &[&[u8]],
) -> Result<(Vec<bool>, Vec<u8>), Fail> {
    let mut sink = MemSink::with_room(alloc, room, 4, failing.to_vec(alloc)?)?;
    let mut whole = Vec::new(alloc);
    for text in texts {
        whole.push(write_all(&mut sink, text).is_ok())?;
    }
    let told = sink.taken().to_vec(alloc)?;
    Ok((whole, told))
}

#[test]
fn sinks_in_memory_hold_what_was_written(rt: HostRuntime) -> Result<(), Fail> {
    let table: [(&[u64], bool, &[u8]); 4] = [
        (&[], true, b"out 1\n"),
        (&[1], false, b""),
        (&[2], false, b"out "),
        (&[3], true, b"out 1\n"),
    ];
    for (failing, is_whole, held) in table {
        let (whole, told) = told_by_faulty(rt.alloc(), 6, failing, &[b"out 1\n"])?;
        assert!(rt; whole.as_slice() == [is_whole].as_slice());
        assert!(rt; told.as_slice() == held);
    }
    let told = told_by_sure(rt.alloc(), 9, &[b"c = 1\n", b"end"])?;
    assert!(rt; told.as_slice() == b"c = 1\nend".as_slice());
    Ok(())
}

#[test]
fn sinks_in_memory_tell_no_more_than_they_have_room_for(rt: HostRuntime) -> Result<(), Fail> {
    let texts: [&[u8]; 3] = [b"out 1\n", b"end\n", b"end\n"];
    let rows: [(usize, usize, &[u8]); 6] = [
        (6, 1, b"out 1\n"),
        (5, 1, b""),
        (0, 1, b""),
        (6, 3, b""),
        (5, 3, b""),
        (0, 3, b""),
    ];
    for (room, count, wanted) in rows {
        let texts = &texts[..count];
        let sure = told_by_sure(rt.alloc(), room, texts)?;
        let (whole, faulty) = told_by_faulty(rt.alloc(), room, &[3], texts)?;
        assert!(rt; sure.as_slice() == wanted);
        assert!(rt; faulty.as_slice() == wanted);
        assert!(rt; whole.as_slice() == &[true, false, true][..count]);
    }
    Ok(())
}

/// A reader that fails, gives a byte, gives none, and then gives another byte in each call.
#[derive(Drop)]
struct Ragged {
    calls: usize,
}

impl Read for Ragged {
    fn read(&mut self, buf: &mut [u8]) -> io::Result<usize> {
        let call = self.calls;
        self.calls = self.calls.saturating_add(1);
        if call == 0 {
            return Err(io::Error::from(ErrorKind::Other));
        }
        match buf.first_mut() {
            Some(first) if call != 2 => {
                *first = if call == 1 { b'a' } else { b'b' };
                Ok(1)
            }
            _ => Ok(0),
        }
    }
}

#[test]
fn readers_are_sources(rt: HostRuntime) {
    let mut whole = ReadSource::new(b"abcde".as_slice());
    expect_reads(&rt, &mut whole, &[Some(b"abc"), Some(b"de"), Some(b"")]);
    let mut ragged = ReadSource::new(Ragged { calls: 0 });
    expect_reads(&rt, &mut ragged, &[None, Some(b"a"), Some(b""), Some(b"b")]);
}

/// A writer that takes at most two bytes a call, and fails to flush if it took more than `room`.
#[derive(Drop)]
struct Pipe {
    taken: usize,
    room: usize,
}

impl Write for Pipe {
    fn write(&mut self, buf: &[u8]) -> io::Result<usize> {
        let count = buf.len().min(2);
        self.taken = self.taken.saturating_add(count);
        Ok(count)
    }

    fn flush(&mut self) -> io::Result<()> {
        if self.taken > self.room {
            return Err(io::Error::from(ErrorKind::BrokenPipe));
        }
        Ok(())
    }
}

/// A writer whose first call fails.
#[derive(Drop)]
struct Clogged {
    calls: usize,
}

impl Write for Clogged {
    fn write(&mut self, buf: &[u8]) -> io::Result<usize> {
        let is_first = self.calls == 0;
        self.calls = self.calls.saturating_add(1);
        if is_first {
            return Err(io::Error::from(ErrorKind::BrokenPipe));
        }
        Ok(buf.len())
    }

    fn flush(&mut self) -> io::Result<()> {
        Ok(())
    }
}

#[test]
fn writers_are_sinks(rt: HostRuntime) -> Result<(), Fail> {
    let mut held = Vec::new(rt.alloc());
    let mut sink = WriteSink::new(BufWriter::new(rt.alloc(), &mut held)?);
    write_all(&mut sink, b"out 1\n")?;
    write_all(&mut sink, b"end\n")?;
    drop(sink);
    assert!(rt; held.as_slice() == b"out 1\nend\n".as_slice());
    for (room, is_whole) in [(6, true), (5, false), (0, false)] {
        let mut sink = WriteSink::new(Pipe { taken: 0, room });
        assert!(rt; write_all(&mut sink, b"out 1\n").is_ok() == is_whole);
    }
    let mut clogged = WriteSink::new(Clogged { calls: 0 });
    assert!(rt; write_all(&mut clogged, b"out 1\n").is_err());
    Ok(())
}

/// A writer that holds at most two bytes, lets them through at a flush, and fails in its second write.
#[derive(Drop)]
struct Lock {
    calls: usize,
    held: usize,
    through: usize,
}

impl Write for Lock {
    fn write(&mut self, buf: &[u8]) -> io::Result<usize> {
        self.calls = self.calls.saturating_add(1);
        if self.calls == 2 {
            return Err(io::Error::from(ErrorKind::BrokenPipe));
        }
        self.held = buf.len().min(2);
        Ok(self.held)
    }

    fn flush(&mut self) -> io::Result<()> {
        self.through = self.through.saturating_add(self.held);
        self.held = 0;
        Ok(())
    }
}

#[test]
fn writers_let_through_all_that_is_told(rt: HostRuntime) {
    let mut lock = Lock {
        calls: 0,
        held: 0,
        through: 0,
    };
    let mut sink = WriteSink::new(&mut lock);
    assert!(rt; sink.write(b"out 1\n") == Ok(2));
    assert!(rt; sink.write(b"t 1\n") == Err(Failed));
    drop(sink);
    assert!(rt; lock.through == 2);
}

#[test]
fn generators_draw(rt: HostRuntime) {
    for (state, wanted) in [(0, 335_903_614), (1, 1_817_669_548)] {
        assert!(rt; Lcg::new(state).draw() == wanted);
    }
}

#[test]
fn schedules_are_printed(rt: HostRuntime) -> Result<(), Fail> {
    let listed = Schedule::List(Seq::from_vec([0, 1, 0].to_vec(rt.alloc())?));
    assert_eq!(rt;
        format!(in rt.alloc(); "{listed:?}")?.as_str(),
        "List([0, 1, 0])"
    );
    assert_eq!(rt;
        format!(in rt.alloc(); "{:?}", Schedule::Seeded(7))?.as_str(),
        "Seeded(7)"
    );
    Ok(())
}
