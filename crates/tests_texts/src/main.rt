//! A table of tests: what the reader, the printer, the rules of code, the compiler, the program of a load and strands of code make of texts.
//! Standard input has the cases (the crate's `stdin`). A case is a line of `#` and a name, a line with the question (`asks.rt` lists the
//! questions), and the text that it is asked about (`texts.rt` says how it is written). The program prints each name, and the answer behind
//! it. The crate's `stdout` is what it has to print.
#![tactic(auto)]

mod asks;
mod kinds;
mod pieces;
mod shown;
mod sources;
mod strands;
mod texts;

use cw_base::OutOfMemory;
use std::alloc::Global;
use std::io;
use std::io::{Read, Write};

/// Shows what one case gives, behind its name.
fn show_case(alloc: Global, case: &str, shown: &mut Vec<u8>) -> Result<(), OutOfMemory> {
    let (name, rest) = case.split_once('\n').unwrap_or((case, ""));
    let (ask, written) = rest.split_once('\n').unwrap_or((rest, ""));
    shown::words(shown, "#")?;
    shown::line(shown, name)?;
    asks::answer(
        alloc,
        ask,
        written.strip_suffix('\n').unwrap_or(written),
        shown,
    )
}

/// Shows what all cases give, one behind the other.
fn show_cases(alloc: Global, table: &str, shown: &mut Vec<u8>) -> Result<(), OutOfMemory> {
    let mut cases = table.split('#');
    let _before_the_first = cases.next();
    for case in &mut cases {
        show_case(alloc, case, shown)?;
    }
    Ok(())
}

fn main(rt: HostRuntime) -> io::Result<()> {
    let mut table = String::new(rt.alloc());
    rt.stdin().read_to_string(&mut table)?;
    let mut shown = Vec::new(rt.alloc());
    if show_cases(rt.alloc(), table.as_str(), &mut shown).is_err() {
        return println!(rt; "out of memory");
    }
    io::writer(&rt).write_all(shown.as_slice())
}
