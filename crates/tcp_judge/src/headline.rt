ghost use Rattle.tcp_judge.specs.Law.{NoCorrectEndIsAccused, NoCorrectEndIsAccusedWithRuns, NoFormOrAcknowledgementIsAccused, NoFormOrAcknowledgementIsAccusedWithRuns, NoShortStreamIsAccused, NoShortStreamIsAccusedWithRuns};

/// The theorem of this crate, over every list of events, whoever the peer is and whatever bytes arrive. The log of an
/// end is clean where the limit of its Config is at most the default one: then any two positions are less than 2^31
/// apart. It does nothing when it runs; [`judge_log`](crate::judge_log) is its subject.
pub fn no_correct_end_is_accused()
    ensures usual { NoCorrectEndIsAccused }
    ensures with_runs { NoCorrectEndIsAccusedWithRuns }
{}

/// The log of an end is clean whatever the limit, where the user sent so few bytes that any two positions are less than
/// 2^31 apart. It does nothing when it runs.
pub fn no_short_stream_is_accused()
    ensures usual { NoShortStreamIsAccused }
    ensures with_runs { NoShortStreamIsAccusedWithRuns }
{}

/// No rule of form, of acknowledgements, of a SYN's answer or of blocks is broken, however long the two streams grow. It
/// does nothing when it runs.
pub fn no_acknowledgement_is_accused()
    ensures usual { NoFormOrAcknowledgementIsAccused }
    ensures with_runs { NoFormOrAcknowledgementIsAccusedWithRuns }
{}
