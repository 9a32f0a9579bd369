use cw_base::Seq;
use cw_code::FaultKind;

/// How the machine ended. In `Fault` and `At`, `name` is the last strand of the picks. In `Stuck`, `place` is the
/// position of the first pick that cannot be made, or the number of picks.
#[derive(Drop)]
pub enum SerialEnd {
    Finished { memory: Seq<i64>, outputs: Seq<i64> },
    Fault { name: u32, kind: FaultKind },
    At { name: u32 },
    Stuck { place: u32 },
}
