ghost use Rattle.cw_trace.specs.Verdicts.{Decides, DecidesByReading, DecidesInRuns, CoversBlocks, FindsVictims};

/// Laws: one stamp and at most two gap words tell, of each access, whether a pending block is above it and whether that block is
/// above the asker. The columns alone tell which pending blocks are above an access.
pub fn query_laws()
    ensures decides { Decides }
    ensures by_reading { DecidesByReading }
    ensures in_runs { DecidesInRuns }
    ensures covers { CoversBlocks }
    ensures victims { FindsVictims }
{}
