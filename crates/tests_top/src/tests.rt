ghost use Rattle.std.specs.Prelude.{◌≤◌};

use cw_io::{Gate, MemSink, MemSource, OpenGate, Sink, Source, SureSink, SureSource};
use cw_top::{Note, Reply, cwstm, note_text};
use std::alloc::Global;
use std::sync::Wait;
use std::test::Fail;
use std::thread::Threads;

mod checking;
mod loads;
mod outside;
mod racing;
mod simulating;
mod threads;

const COUNTS: &[u8] = b"cell c; fn main() { c = c + 1; out c; }";

// What tests look at in a reply, without the run itself.
#[derive(Drop)]
struct Said {
    status: u8,
    note: Note,
    is_kept: bool,
}

fn strings(alloc: Global, words: &[&str]) -> Result<Vec<String>, Fail> {
    let mut strings = Vec::new(alloc);
    for word in words {
        strings.push(String::from_str(alloc, word)?)?;
    }
    Ok(strings)
}

// Makes the top call; no other function here does.
fn answer_at<R: AllocGlobal + Threads + Wait + Sync, S: Source, K: Sink, G: Gate>(
    rt: &R,
    words: &[&str],
    source: &mut S,
    sink: &mut K,
    gate: &G,
) -> Result<Reply, Fail> {
    let words = strings(rt.alloc(), words)?;
    let words = words.as_slice();
    Ok(cwstm(rt, rt.alloc(), words, source, sink, gate))
}

fn answer<R: AllocGlobal + Threads + Wait + Sync, S: Source, K: Sink>(
    rt: &R,
    words: &[&str],
    source: &mut S,
    sink: &mut K,
) -> Result<Reply, Fail> {
    answer_at(rt, words, source, sink, &OpenGate)
}

fn ask<R: AllocGlobal + Threads + Wait + Sync, S: Source, K: Sink>(
    rt: &R,
    words: &[&str],
    source: &mut S,
    sink: &mut K,
) -> Result<Said, Fail> {
    let reply = answer(rt, words, source, sink)?;
    Ok(Said {
        status: reply.status,
        is_kept: reply.kept.is_some(),
        note: reply.note,
    })
}

// Returns the reply, and what was written to a sink that takes at most `most` bytes at a time and fails at `call`.
fn told<R: AllocGlobal + Threads + Wait + Sync>(
    rt: &R,
    most: usize,
    call: u64,
) -> Result<(Said, Vec<u8>), Fail>
    requires { 1 ≤ most }
{
    let mut source = SureSource::new(COUNTS.to_vec(rt.alloc())?, 7);
    let mut sink = MemSink::with_room(rt.alloc(), 100, most, [call].to_vec(rt.alloc())?)?;
    let said = ask(rt, &["run"], &mut source, &mut sink)?;
    Ok((said, sink.taken().to_vec(rt.alloc())?))
}

// Returns the status and the text of a run of this source.
fn ran<R: AllocGlobal + Threads + Wait + Sync>(
    rt: &R,
    words: &[&str],
    text: &[u8],
) -> Result<(u8, Vec<u8>), Fail> {
    let mut source = SureSource::new(text.to_vec(rt.alloc())?, 100);
    let mut sink = SureSink::with_room(rt.alloc(), 100)?;
    let said = ask(rt, words, &mut source, &mut sink)?;
    Ok((said.status, sink.taken().to_vec(rt.alloc())?))
}

// Returns the status of such a run at this gate.
fn status_at<R: AllocGlobal + Threads + Wait + Sync, G: Gate>(
    rt: &R,
    words: &[&str],
    text: &[u8],
    gate: &G,
) -> Result<u8, Fail> {
    let mut source = SureSource::new(text.to_vec(rt.alloc())?, 100);
    let mut sink = SureSink::with_room(rt.alloc(), 100)?;
    let reply = answer_at(rt, words, &mut source, &mut sink, gate)?;
    Ok(reply.status)
}

// Returns the reply, and what was written, for a source that gives one byte at a time and fails at `call`.
fn read_by_bytes<R: AllocGlobal + Threads + Wait + Sync>(
    rt: &R,
    call: u64,
) -> Result<(Said, Vec<u8>), Fail> {
    let bytes = COUNTS.to_vec(rt.alloc())?;
    let mut source = MemSource::new(bytes, 1, [call].to_vec(rt.alloc())?);
    let mut sink = SureSink::with_room(rt.alloc(), 100)?;
    let said = ask(rt, &["run"], &mut source, &mut sink)?;
    Ok((said, sink.taken().to_vec(rt.alloc())?))
}

// Returns the reply, what was written, and whether the source was read to its end.
fn read_to_end<R: AllocGlobal + Threads + Wait + Sync>(
    rt: &R,
    words: &[&str],
    text: &[u8],
) -> Result<(Said, Vec<u8>, bool), Fail> {
    let mut source = SureSource::new(text.to_vec(rt.alloc())?, 5);
    let mut sink = SureSink::with_room(rt.alloc(), 10)?;
    let said = ask(rt, words, &mut source, &mut sink)?;
    let is_read = source.read(&mut [0u8; 1]) == Ok(0);
    Ok((said, sink.taken().to_vec(rt.alloc())?, is_read))
}

// Makes a program followed by blanks, `length` bytes in all.
fn padded(alloc: Global, length: usize) -> Result<Vec<u8>, Fail> {
    let mut text = b"fn main() {}".to_vec(alloc)?;
    for _ in text.len()..length {
        text.push(b' ')?;
    }
    Ok(text)
}

// The example sources of `tests_top` are too short to show this.
#[test]
fn a_source_may_have_so_many_bytes(rt: HostRuntime) -> Result<(), Fail> {
    for (length, status) in [(1_048_576, 0), (1_048_577, 5), (1_100_000, 5)] {
        let text = padded(rt.alloc(), length)?;
        let (said, told) = ran(&rt, &["run"], text.as_slice())?;
        assert_eq!(rt; said, status, "{length} bytes");
        assert_eq!(rt; told.len(), if status == 0 { 4 } else { 0 });
    }
    Ok(())
}

#[test]
fn the_words_are_read_first(rt: HostRuntime) -> Result<(), Fail> {
    let table: [&[&str]; 8] = [
        &[],
        &["go"],
        &["run", "run"],
        &["run", "--workers"],
        &["run", "--workers=65"],
        &["run", "--moves=5"],
        &["run", "-5"],
        &[""],
    ];
    for words in table {
        let (status, told) = ran(&rt, words, COUNTS)?;
        assert_eq!(rt; status, 2);
        assert!(rt; told.is_empty());
    }
    Ok(())
}

// The source is read to its end before.
#[test]
fn the_number_of_words_comes_last(rt: HostRuntime) -> Result<(), Fail> {
    let table: [(&[u8], &[&str], u8, &[u8]); 4] = [
        (b"fn main() {}", &["run", "--"], 0, b"end\n"),
        (b"fn main() {}", &["run", "7"], 2, b""),
        (b"fn main() {}", &["run", "--", "-7"], 2, b""),
        (b"fn main() {", &["run", "7"], 5, b""),
    ];
    for (text, words, status, wanted) in table {
        let (said, told, is_read) = read_to_end(&rt, words, text)?;
        assert_eq!(rt; said.status, status);
        assert_eq!(rt; said.is_kept, status == 0);
        assert_eq!(rt; told.as_slice(), wanted);
        assert!(rt; is_read);
    }
    Ok(())
}

// A sink takes a byte at a time, and each call fails in turn. A front was written then, and the run is kept.
#[test]
fn a_write_that_fails_keeps_the_run(rt: HostRuntime) -> Result<(), Fail> {
    let text = b"out 1\nc = 1\nend\n";
    for call in 1..=17u64 {
        let (said, taken) = told(&rt, 1, call)?;
        assert_eq!(rt; said.status, if call == 17 { 0 } else { 4 });
        assert!(rt; said.is_kept);
        assert_eq!(rt; taken.as_slice(), &text[..(call - 1) as usize]);
    }
    Ok(())
}

#[test]
fn a_front_is_written_before_a_write_that_fails(rt: HostRuntime) -> Result<(), Fail> {
    let (said, taken) = told(&rt, 4, 2)?;
    assert_eq!(rt; (said.status, said.note), (4, Note::Write));
    assert_eq!(rt; taken.as_slice(), b"out ".as_slice());
    Ok(())
}

// A source gives a byte at a time, and each call fails in turn. Nothing was written then.
#[test]
fn a_read_that_fails_writes_nothing(rt: HostRuntime) -> Result<(), Fail> {
    for call in 1..=41u64 {
        let (said, told) = read_by_bytes(&rt, call)?;
        assert_eq!(rt; said.status, if call == 41 { 0 } else { 3 });
        assert_eq!(rt; said.is_kept, call == 41);
        assert_eq!(rt; told.is_empty(), call != 41);
    }
    Ok(())
}

#[test]
fn notes_are_lines(rt: HostRuntime) -> Result<(), Fail> {
    let table: [(Note, &[u8]); 4] = [
        (Note::Memory, b"cwstm: want of memory\n"),
        (Note::Read, b"cwstm: read fault\n"),
        (Note::Write, b"cwstm: write fault\n"),
        (Note::Usage, b"cwstm: usage\n"),
    ];
    for (note, wanted) in table {
        assert_eq!(rt; note_text(rt.alloc(), &note)?.as_slice(), wanted);
    }
    Ok(())
}
