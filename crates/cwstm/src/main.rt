//! The program `cwstm`. It passes the words of its command, standard input and standard output to the top call, says on standard
//! error why there was no run or no text, and exits with the status.
#![tactic(auto)]

use cw_io::{OpenGate, ReadSource, WriteSink};
use cw_top::{Note, cwstm, note_text};
use std::io::{ErrorKind, Write};
use std::process::ExitCode;
use std::{env, io};

// Returns the words of the command, without the program's name.
fn words_of(rt: &HostRuntime) -> io::Result<Vec<String>> {
    let mut words = Vec::new(rt.alloc());
    for word in env::args(rt)?.skip(1) {
        words.push(word)?;
    }
    Ok(words)
}

// Returns the answer to a word that is not UTF-8, which is no word of any command, or out of memory.
fn without_words(error: &io::Error) -> (u8, Note) {
    if error.kind() == ErrorKind::OutOfMemory {
        return (1, Note::Memory);
    }
    (2, Note::Usage)
}

// Writes the note to standard error. A write that fails there cannot be reported.
fn say(rt: &HostRuntime, note: &Note) {
    if let Ok(text) = note_text(rt.alloc(), note) {
        let _ = rt.stderr().write_all(text.as_slice());
    }
}

fn main(rt: HostRuntime) -> ExitCode {
    let words = match words_of(&rt) {
        Ok(words) => words,
        Err(error) => {
            let (status, note) = without_words(&error);
            say(&rt, &note);
            return ExitCode::from(status);
        }
    };
    let mut source = ReadSource::new(rt.stdin());
    let mut sink = WriteSink::new(rt.stdout());
    let reply = cwstm(
        &rt,
        rt.alloc(),
        words.as_slice(),
        &mut source,
        &mut sink,
        &OpenGate,
    );
    say(&rt, &reply.note);
    ExitCode::from(reply.status)
}
