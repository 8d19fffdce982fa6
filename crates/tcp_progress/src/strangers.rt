//! The laws of every world among strangers (RFC 5961, 1), who aren't on the path between the two ends.
ghost use Rattle.tcp_progress.specs.Among.{BlindIsCalm, BurstsEndAmongStrangers, HalvesAmongStrangers, HalvesCanBeHadAmongStrangers, NeverGrowsAmongStrangers};
ghost use Rattle.tcp_progress.specs.Among.{NotStuckAmongStrangers, NothingIsTakenBeforeItIsSentAmongStrangers, OpensAmongStrangers, ServedAmongStrangers};
ghost use Rattle.tcp_progress.specs.Among.{ServedOpensAmongStrangers, SteadyAmongStrangers, TurnsCanBeHadAmongStrangers};
ghost use Rattle.tcp_progress.specs.Guarded.{GuardedGoesOn, GuardedIsSafe, WhatLivesPasses};
ghost use Rattle.tcp_progress.specs.WithRuns.{GoesOnAmongStrangersWithRuns, SteadyAmongStrangersWithRuns};

/// Every world is steady among strangers, too, and nothing is taken before it is sent: as `every_world_is_steady` and
/// `nothing_is_taken_before_it_is_sent` say, though who isn't on the path between the two ends has sent bytes to either,
/// from and to any address, any number of times. What it sent wasn't let in where it came, since it doesn't know the
/// numbers; and no end held a reset for it. Segments live for 2^21 positions or longer.
pub fn steady_among_strangers()
    ensures steady { SteadyAmongStrangers }
    ensures taken { NothingIsTakenBeforeItIsSentAmongStrangers }
    ensures with_runs { SteadyAmongStrangersWithRuns }
{}

/// In each of these worlds the two ends go on as in any other: no world is stuck, a handshake can be finished, who is
/// served gets through, and half turns do, from there on. There are such turns and half turns, each burst of emissions
/// ends, and what is left never grows over calm events.
pub fn goes_on_among_strangers()
    ensures not_stuck { NotStuckAmongStrangers }
    ensures opens { OpensAmongStrangers }
    ensures served { ServedAmongStrangers }
    ensures served_opens { ServedOpensAmongStrangers }
    ensures half_turns { HalvesAmongStrangers }
    ensures turns { TurnsCanBeHadAmongStrangers }
    ensures halves { HalvesCanBeHadAmongStrangers }
    ensures bursts { BurstsEndAmongStrangers }
    ensures left { NeverGrowsAmongStrangers }
    ensures with_runs { GoesOnAmongStrangersWithRuns }
{}

/// What a stranger sends to an end in ESTABLISHED, FIN-WAIT-1 or FIN-WAIT-2 and isn't let in leads to the same world as a
/// calm event or none does: nothing is different, or an acknowledgement is pending, as after the user's call
/// `Acknowledge`. So it may also come within the turns and half turns of the laws above.
pub fn a_blind_injection_is_calm()
    ensures { BlindIsCalm }
{}

/// A guard that reaches as far as segments live keeps out nothing that a world delivers (RFC 5961, 5.2): no segment that
/// the peer emitted, and whose lifetime isn't over, whatever strangers sent meanwhile that isn't let in. A segment with a
/// byte changed is found by its checksum before any guard looks at it. That the same holds where the ends have guards, and
/// strangers send more, is said of each event (`as_without` of `guarded_ends_are_safe_and_go_on`).
pub fn what_lives_passes_a_guard()
    ensures { WhatLivesPasses }
{}

/// Every world of two guarded ends is as safe as one without guards, however far these reach, though strangers send
/// whatever doesn't get past a guard. That is far more than isn't let in without one: `few_acks_pass` and
/// `few_numbers_pass_at_a_shut_window` of `tcp_strangers` count it. And where the guards reach as far as segments live,
/// for 2^21 positions or longer, each event is what it is without them, and the two go on as well.
pub fn guarded_ends_are_safe_and_go_on()
    ensures safe { GuardedIsSafe }
    ensures goes_on { GuardedGoesOn }
{}
