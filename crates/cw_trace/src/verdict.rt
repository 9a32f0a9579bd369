/// What a query returns for the last access of a cell and an asker. `Free`: no pending block is above the access. `Within`: the
/// nearest pending block above the access is above the asker too. `Against`: it is not; the stamp is the begin of a pending block
/// that is above the access and not above the asker.
#[derive(Clone, Copy, PartialEq, Eq, Debug)]
pub enum Verdict {
    Free,
    Within,
    Against(u64),
}
