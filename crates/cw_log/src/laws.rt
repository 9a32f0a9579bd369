//! Laws: what stays true of a strand that goes on.
ghost use Rattle.cw_log.specs.Going.{GoesOnAfterNodes, GoesOnInBlocks, GoesOnBehindBlocks, BothGoOn};

/// A strand that may go on still may after a node that it made, in a block that it began, behind a block that it ended, and on both
/// sides of a fork.
pub fn strands_go_on()
    ensures nodes { GoesOnAfterNodes }
    ensures blocks { GoesOnInBlocks }
    ensures behind { GoesOnBehindBlocks }
    ensures both { BothGoOn }
{}
