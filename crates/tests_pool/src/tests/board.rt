ghost use Rattle.std.specs.Prelude.{length, IfOk};
ghost use Rattle.cw_job.specs.Jobs.{TakesWords};

use super::{COUNTS, FAULTY, OUTER, WIDE, columns, program, up_to};
use cw_base::Seq;
use cw_code::Limits;
use cw_io::{Gate, OpenGate};
use cw_pool::run;
use cw_record::{Checked, Record, RecordEnd, check};
use std::alloc::Global;
use std::sync::Wait;
use std::test::Fail;
use std::thread::Threads;

// Returns how a run ended that one memory replays.
pub(super) fn replayed(alloc: Global, record: &Record) -> Result<String, Fail>
    requires { TakesWords record.now.program (length record.now.words) }
{
    match check(alloc, record)? {
        Checked::Agrees => shown(alloc, record),
        _ => Err("does not replay".into()),
    }
}

// Returns the record of a run on the board.
pub(super) fn recorded<G: Gate, R: Threads + Wait + Sync>(
    rt: &R,
    alloc: Global,
    text: &str,
    workers: u32,
    limits: Limits,
    gate: &G,
) -> Result<Record, Fail>
    ensures { IfOk result (λ r. TakesWords r.program (length r.words)) }
{
    if limits.strands == 0 {
        return Err("no strands".into());
    }
    let program = program(alloc, text)?;
    let words = Seq::new(alloc);
    Ok(run(rt, alloc, program, words, workers, limits, gate)?)
}

// Returns how a run ended whose record one memory replays.
fn ended<R: Threads + Wait + Sync>(
    rt: &R,
    alloc: Global,
    text: &str,
    workers: u32,
    limits: Limits,
) -> Result<String, Fail> {
    let record = recorded(rt, alloc, text, workers, limits, &OpenGate)?;
    let said = replayed(alloc, &record);
    drop(record);
    said
}

// Writes how a run ended, without the name of the strand.
fn shown(alloc: Global, record: &Record) -> Result<String, Fail> {
    Ok(match &record.end {
        RecordEnd::Finished { memory, outputs } => {
            let memory = memory.as_slice();
            let outputs = outputs.as_slice();
            format!(in alloc; "finished {memory:?} {outputs:?}")?
        }
        RecordEnd::Fault { kind, .. } => format!(in alloc; "fault {kind:?}")?,
        RecordEnd::Budget { .. } => format!(in alloc; "budget")?,
        RecordEnd::Moves => format!(in alloc; "moves")?,
    })
}

const MANY: &str =
    "cell c; fn main() { let i = 0; while i < 300 { spawn { atomic { c = c + 1; } } i = i + 1; } }";

const BOTH: &str =
    "cell c; fn main() { atomic { spawn { atomic { c = c + 1; } } atomic { c = c + 1; } } }";

const THREE: &str =
    "cell c; fn main() { spawn { atomic { c = c + 1; } } spawn { atomic { c = c + 1; } } spawn { atomic { c = c + 1; } } }";

const BESIDE: &str = "fn main() { let i = 0; while i < 5 { out i; i = i + 1; } }";

#[test]
fn records_of_the_board_replay(rt: HostRuntime) -> Result<(), Fail> {
    let table = [
        (MANY, WIDE, "finished [300] []"),
        (COUNTS, WIDE, "finished [40] []"),
        (BOTH, WIDE, "finished [2] []"),
        (THREE, columns(2), "finished [3] []"),
        (BESIDE, WIDE, "finished [] [0, 1, 2, 3, 4]"),
        (FAULTY, WIDE, "fault Zero"),
    ];
    for (text, limits, wanted) in table {
        for workers in [1, 2, 4, 64] {
            let said = ended(&rt, rt.alloc(), text, workers, limits)?;
            let is_wanted = said.as_str() == wanted;
            drop(said);
            assert!(rt; is_wanted);
        }
    }
    Ok(())
}

fn is_one_of(said: &str, wanted: &[&str]) -> bool {
    for one in wanted {
        if said == *one {
            return true;
        }
    }
    false
}

// The schedule decides whether an access is refused.
#[test]
fn one_attempt_may_be_spent(rt: HostRuntime) -> Result<(), Fail> {
    for _ in 0..20u32 {
        let said = ended(&rt, rt.alloc(), OUTER, 4, up_to(1))?;
        let is_wanted = is_one_of(
            said.as_str(),
            &["budget", "finished [2] []", "finished [1] []"],
        );
        drop(said);
        assert!(rt; is_wanted);
    }
    Ok(())
}
