use super::{answer, ran};
use cw_base::Seq;
use cw_io::{SureSink, SureSource};
use cw_record::{Record, RecordEnd};
use cw_sheet::{Sheet, sheet_text};
use cw_text::read_program;
use std::alloc::Global;
use std::sync::Wait;
use std::test::Fail;
use std::thread::Threads;

// A block of the right strand, inside another one, meets what a block of the left strand wrote.
const REFUSED: &[u8] =
    b"cell c; fn main() { spawn { atomic { c = 1; } } atomic { atomic { c = 2; } } }";

// Simulates two workers, who move in these turns, with one more option.
fn simulated<R: AllocGlobal + Threads + Wait + Sync>(
    rt: &R,
    text: &[u8],
    turns: &str,
    option: &str,
) -> Result<(u8, Record), Fail> {
    let words = ["sim", "--workers", "2", "--schedule", turns, option];
    let mut source = SureSource::new(text.to_vec(rt.alloc())?, 100);
    let mut sink = SureSink::with_room(rt.alloc(), 100)?;
    let reply = answer(rt, &words, &mut source, &mut sink)?;
    Ok((reply.status, reply.kept.ok_or("no run is kept")?))
}

#[test]
fn a_refused_access_is_kept(rt: HostRuntime) -> Result<(), Fail> {
    for (option, status) in [("--aborts=1", 7), ("--aborts=2", 0)] {
        let (said, run) = simulated(&rt, REFUSED, "0,1,0,0,1,1,1", option)?;
        assert_eq!(rt; said, status);
        assert_eq!(rt; run.conflicts.len(), 1);
        let refused = run.conflicts.as_slice().first().ok_or("none is kept")?;
        assert_eq!(rt; (refused.last, refused.block), (3, 2));
        assert_eq!(rt; (refused.victim, refused.attempt), (4, 1));
    }
    Ok(())
}

// Returns the sheet of a run of `REFUSED`.
fn sheet_of(alloc: Global, run: Record) -> Result<Sheet, Fail> {
    let Ok(ast) = read_program(alloc, REFUSED) else {
        return Err("the source was not read".into());
    };
    let Record {
        words,
        limits,
        tree,
        conflicts,
        end,
        ..
    } = run;
    Ok(Sheet {
        ast,
        words,
        limits,
        tree,
        conflicts,
        end,
    })
}

// Returns the status and the answer of a check of this sheet.
fn judged<R: AllocGlobal + Threads + Wait + Sync>(
    rt: &R,
    sheet: &Sheet,
) -> Result<(u8, Vec<u8>), Fail> {
    let text = sheet_text(rt.alloc(), sheet)?;
    ran(rt, &["check"], text.as_slice())
}

#[test]
fn a_sheet_with_a_refused_access_is_judged(rt: HostRuntime) -> Result<(), Fail> {
    let (_, run) = simulated(&rt, REFUSED, "0,1,0,0,1,1,1", "--aborts=2")?;
    assert_eq!(rt; run.conflicts.len(), 1);
    let mut sheet = sheet_of(rt.alloc(), run)?;
    let (said, answer) = judged(&rt, &sheet)?;
    assert_eq!(rt; said, 0);
    assert_eq!(rt; answer.as_slice(), b"sound\n".as_slice());
    sheet.end = RecordEnd::Finished {
        memory: Seq::from_vec([3].to_vec(rt.alloc())?),
        outputs: Seq::new(rt.alloc()),
    };
    let (said, answer) = judged(&rt, &sheet)?;
    assert_eq!(rt; said, 11);
    assert_eq!(rt; answer.as_slice(), b"broken 6\n".as_slice());
    Ok(())
}

// A block that is given up: its writes go back, its outputs stay.
const GIVEN_UP: &[u8] =
    b"language 2; cell c = 5; fn main() { atomic { c = 9; out c; cancel; out 1; } out c; }";

#[test]
fn a_block_is_given_up_in_turns_and_on_threads(rt: HostRuntime) -> Result<(), Fail> {
    for command in ["sim", "run"] {
        let (said, told) = ran(&rt, &[command], GIVEN_UP)?;
        assert_eq!(rt; said, 0, "{command}");
        assert_eq!(rt;
            told.as_slice(),
            b"out 9\nout 5\nc = 5\nend\n".as_slice(),
            "{command}"
        );
    }
    Ok(())
}
