ghost use Rattle.tcp_replay.specs.Among.{EveryRunAmongStrangersIsSafe, EveryRunAmongStrangersIsSafeWithRuns};
ghost use Rattle.tcp_replay.specs.OneEnd.{OneEndIsTrue, OneEndIsTrueWithRuns};
ghost use Rattle.tcp_replay.specs.Safe.{EveryRunIsSafe, EveryRunIsSafeWithRuns};

/// The theorem of this crate, over every list of events (RFC 9293, 3.3.1 and 3.4). What is delivered to each user is a
/// prefix of the bytes accepted from the other one. The end of the stream comes only after all of them. An
/// acknowledgement releases only what the receiver has had in order. What selective acknowledgement reports is true. A
/// segment with one byte changed is refused at its checksum and changes neither end. It does nothing when it runs;
/// [`World::step`](crate::World::step) and [`World::run`](crate::World::run) are its subject.
pub fn every_run_is_safe()
    ensures usual { EveryRunIsSafe }
    // So it is with every number of runs that either end keeps.
    ensures with_runs { EveryRunIsSafeWithRuns }
{}

/// The same among strangers (RFC 5961, 1), over every list of what happens: the events of the two ends, and whatever
/// bytes who isn't on the path between them sends to either, from and to any address, at any time. What such a stranger
/// sends isn't let in where it comes, since it doesn't know the numbers; `tcp_strangers` counts how many numbers would
/// let it in. And an end in CLOSED or LISTEN, which answers whoever writes to it, holds no reset for a stranger.
pub fn every_run_among_strangers_is_safe()
    ensures usual { EveryRunAmongStrangersIsSafe }
    ensures with_runs { EveryRunAmongStrangersIsSafeWithRuns }
{}

/// The theorem of one end, over every list of events, whoever its peer is and whatever bytes arrive (RFC 9293, 3.4 and
/// 3.10.7). What it sends is its user's; what it delivers came, in a segment that was acceptable; and what it
/// acknowledges is in order. It does nothing when it runs; [`solo`](crate::solo) is its subject.
pub fn one_end_is_true()
    ensures usual { OneEndIsTrue }
    ensures with_runs { OneEndIsTrueWithRuns }
{}
