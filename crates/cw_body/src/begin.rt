use cw_job::Runner;
use cw_strand::Saved;
use std::snapshot::Snapshot;

/// The begin of a pending block: what was saved of it, and the number of forks of which its strand was the right one. Only
/// contracts see `at`, the strand at that begin, which is its want.
#[derive(Drop)]
pub(crate) struct Begin {
    pub(crate) saved: Saved,
    pub(crate) level: u64,
    pub(crate) at: Snapshot<Runner>,
}
