use cw_base::Seq;
use cw_code::FaultKind;

/// How a run ended. A strand is named by its node in the run's tree.
#[derive(Drop)]
pub enum RecordEnd {
    Finished { memory: Seq<i64>, outputs: Seq<i64> },
    Fault { strand: u32, kind: FaultKind },
    Budget { strand: u32 },
    Moves,
}
