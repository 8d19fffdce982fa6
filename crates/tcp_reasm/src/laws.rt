//! Laws of runs and blocks, apart from the recursion that defines them (RFC 2018, 3 and 4). These functions do nothing
//! when they run: each carries the law that it ensures.
ghost use Rattle.tcp_reasm.specs.Laws.{RunsAreMaximal, RunsCover, RunsStandApart, RunsAreCounted, NewestComeFirst, RanksKeepBlocks};

/// Each run is a maximal interval of kept bytes, and its stamp is the greatest in it (RFC 2018, 3).
pub fn runs_are_maximal()
    ensures { RunsAreMaximal }
{}

/// Each byte that is kept out of order is in a run.
pub fn runs_cover()
    ensures { RunsCover }
{}

/// The runs are in order from the left, and no two touch.
pub fn runs_stand_apart()
    ensures { RunsStandApart }
{}

/// There are as many runs as kept bytes with none kept right before them.
pub fn runs_are_counted()
    ensures { RunsAreCounted }
{}

/// The runs in the order of blocks are the same runs, with stamps that fall (RFC 2018, 4).
pub fn newest_come_first()
    ensures { NewestComeFirst }
{}

/// Stamps that are renumbered in their order change no block.
pub fn ranks_keep_blocks()
    ensures { RanksKeepBlocks }
{}
