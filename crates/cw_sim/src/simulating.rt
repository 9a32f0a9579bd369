ghost use Rattle.std.specs.Prelude.{◌≡◌, ◌<◌, ◌↔◌, false, IfOk, length};
ghost use Rattle.cw_strand.specs.Programs.{IsCompiled};
ghost use Rattle.cw_job.specs.Jobs.{TakesWords};
ghost use Rattle.cw_record.specs.Records.{HasEnded, HasItsOutputs, IsCoherentRun, IsDepthFirst, IsNumberedDepthFirst, IsReplayed, job_of_record};
ghost use Rattle.cw_sim.specs.Turns.{ListsWorkers};
ghost use Rattle.cw_record.specs.declared.record_end.RecordEnd.TheVariants.{Moves};
ghost use Rattle.cw_sim.specs.Moves.{is_run_over};
ghost use Rattle.cw_sim.specs.OneWorker.{IsUnrefused};
ghost use Rattle.cw_sim.specs.Runs.{IsRecordOf, simulation_of};

use crate::moves::run_moves;
use cw_base::{OutOfMemory, Seq};
use cw_code::{Limits, Program};
use cw_io::Schedule;
use cw_job::Task;
use cw_record::{Record, build};
use std::alloc::Global;

/// Runs a program with `workers` virtual workers over one core. Each makes a move when its turn comes, by a schedule. The run ends
/// by itself, at the first fault, when the last attempt of a block or an access is refused, or once its moves are used up. A single
/// worker is refused nothing. It goes depth first, as `depth_first` does, to its end or to the first fault, unless its moves are
/// used up before. The only error is out of memory.
pub fn simulate(
    alloc: Global,
    program: Program,
    words: Seq<i64>,
    workers: u32,
    schedule: &Schedule,
    limits: Limits,
) -> Result<Record, OutOfMemory>
    requires compiled { IsCompiled program }
    requires words { TakesWords program (length words) }
    requires workers { 0 < workers }
    requires listed { ListsWorkers schedule.now workers }
    requires strands { 0 < limits.strands }
    ensures program { IfOk result (λ r. r.program ≡ program) }
    ensures words { IfOk result (λ r. r.words ≡ words) }
    ensures limits { IfOk result (λ r. r.limits ≡ limits) }
    ensures moves { IfOk result (λ r. IsRecordOf (simulation_of (job_of_record r) workers schedule.now) r) }
    ensures spent { IfOk result (λ r. r.end ≡ Moves ↔ (is_run_over (simulation_of (job_of_record r) workers schedule.now) ≡ false)) }
    ensures one_worker { workers ≡ 1 → IfOk result (λ r. IsUnrefused r) }
    ensures depth_first { workers ≡ 1 → IfOk result (λ r. HasEnded r.end → IsDepthFirst r) }
    ensures coherent { IfOk result (λ r. IsCoherentRun r) }
    ensures outputs { IfOk result (λ r. HasItsOutputs r) }
    ensures replays { IfOk result (λ r. IsReplayed r) }
    ensures numbered { IfOk result (λ r. IsNumberedDepthFirst r.tree) }
{
    let task = Task {
        program: &program,
        words: words.as_slice(),
        limits,
    };
    let (closed, spent) = run_moves(alloc, task, workers, schedule)?;
    build(alloc, program, words, limits, closed, spent)
}
