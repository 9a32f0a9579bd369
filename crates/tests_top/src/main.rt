//! A table of example sources. Each source of standard input, with `#` between them, is run depth first by the top call in memory,
//! and the answer is printed: the status, the note and the text. The tests try what such sources cannot show.
#![tactic(auto)]

use cw_io::{OpenGate, SureSink, SureSource};
use cw_top::{cwstm, note_text};
use std::io;
use std::io::{Read, Write};
use std::sync::Wait;
use std::thread::Threads;

#[derive(Drop)]
struct Said {
    status: u8,
    is_kept: bool,
    note: Option<Vec<u8>>,
}

fn ask<R: AllocGlobal + Threads + Wait + Sync>(
    rt: &R,
    words: &[String],
    source: &mut SureSource,
    sink: &mut SureSink,
) -> Said {
    let reply = cwstm(rt, rt.alloc(), words, source, sink, &OpenGate);
    Said {
        status: reply.status,
        is_kept: reply.kept.is_some(),
        note: note_text(rt.alloc(), &reply.note).ok(),
    }
}

fn show<R: AllocGlobal + Print + Threads + Wait + Sync>(rt: &R, text: &[u8]) -> io::Result<()> {
    let mut words = Vec::new(rt.alloc());
    for word in ["run", "--workers", "1"] {
        words.push(String::from_str(rt.alloc(), word)?)?;
    }
    let mut source = SureSource::new(text.to_vec(rt.alloc())?, 4096);
    let Ok(mut sink) = SureSink::with_room(rt.alloc(), 4096) else {
        return println!(rt; "want of memory");
    };
    let said = ask(rt, words.as_slice(), &mut source, &mut sink);
    let status = said.status;
    let kept = if said.is_kept { "kept" } else { "not kept" };
    println!(rt; "status {status}, {kept}")?;
    if let Some(note) = said.note {
        io::writer(rt).write_all(note.as_slice())?;
    }
    io::writer(rt).write_all(sink.taken())
}

fn main(rt: HostRuntime) -> io::Result<()> {
    let mut table = Vec::new(rt.alloc());
    rt.stdin().read_to_end(&mut table)?;
    let mut sources = table.split(|byte| *byte == b'#');
    for source in &mut sources {
        let text = source.strip_prefix(b"\n").unwrap_or(source);
        show(&rt, text)?;
    }
    Ok(())
}

#[cfg(test)]
mod tests;
