//! What a token keeps of the forks in whose strands it stands.
ghost use Rattle.std.specs.Prelude.{◌≡◌, ◌<◌};

use cw_base::Stack;

/// Where the strand that forked stands.
#[derive(Clone, Copy, Drop)]
pub struct Spot {
    pub strand: u32,
    pub place: u32,
}

/// The blocks around a place, one copy for each time that the token comes back there.
#[derive(Drop)]
pub struct Twice {
    pub one: Stack<u64>,
    pub other: Stack<u64>,
    ghost same: { other ≡ one },
}

/// The number of a fork, which is not 0.
#[derive(Clone, Copy, Drop)]
pub struct Promise {
    pub fork: u32,
    ghost some: { 0 < fork },
}

#[derive(Drop)]
pub enum Kept {
    Beside {
        promise: Promise,
        at: Spot,
        around: Stack<u64>,
    },
    First {
        right: u32,
        at: Spot,
        twice: Twice,
    },
    Second {
        at: Spot,
        around: Stack<u64>,
    },
}
