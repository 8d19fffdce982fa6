//! Laws of what a blind attacker can do to an end (RFC 5961, 1.1): one that isn't on the path between the two ends, so
//! that it may know addresses and ports, and send anything at any time, but knows no sequence number.
//!
//! - [`few_numbers_let_in`], [`one_number_resets`] and [`one_number_answers`] count the numbers that let a segment in.
//! - [`half_of_acks_let_in`], [`flight_is_released`] and [`any_number_at_a_shut_window`] count the acknowledgements that
//!   do, and those that release text. **At a shut window no sequence number is needed.**
//! - [`few_acks_pass`] and [`few_numbers_pass_at_a_shut_window`] count what a guard leaves of them.
//! - [`bursts_rarely_get_in`] adds them up over any number of segments, one after another.
//! - [`what_is_kept_out_changes_only_pending`]: what isn't let in changes nothing but what is pending.
//!
//! What holds of two ends meanwhile is in `tcp_replay` (`every_run_among_strangers_is_safe`) and in `tcp_progress`
//! (`goes_on_among_strangers`). These functions do nothing when they run: each carries the law that it
//! ensures.
#![tactic(auto)]

ghost use Rattle.tcp_replay.specs.Among.{WhatIsKeptOutChangesOnlyPending};
ghost use Rattle.tcp_strangers.specs.Guesses.{AnyNumberAtAShutWindow, BurstsRarelyGetIn, FewNumbersLetIn, FlightIsReleased, HalfOfAcksLetIn};
ghost use Rattle.tcp_strangers.specs.Guesses.{FewAcksPass, FewNumbersPassAtAShutWindow, OneNumberAnswers, OneNumberResets};

/// Bytes that an end doesn't let in change nothing of it, but that an acknowledgement may be pending, or a reset wait.
/// An end lets in what opens or ends a connection, and anything of which it takes text, FIN, acknowledgement, window or
/// blocks.
pub fn what_is_kept_out_changes_only_pending()
    ensures { WhatIsKeptOutChangesOnlyPending }
{}

/// From SYN-RECEIVED on, where the window is open, at most `window + count - 1` of the 2^32 sequence numbers let a
/// segment in that takes `count` of them (one of none counts as one of one), whatever else it says (RFC 9293, 3.10.7.4,
/// first). With a window of 2^20 bytes that is one number in 4,096.
pub fn few_numbers_let_in()
    ensures { FewNumbersLetIn }
{}

/// From SYN-RECEIVED on, at most one of the 2^32 sequence numbers of a reset ends the connection, RCV.NXT, whatever the
/// window (RFC 5961, 3.2; RFC 9293, 3.10.7.4, second).
pub fn one_number_resets()
    ensures { OneNumberResets }
{}

/// At most one of the 2^32 acknowledgement numbers lets a segment in, that of this end's SYN: in SYN-SENT, whatever the
/// sequence number, of a reset too (RFC 9293, 3.10.7.3, first), and in SYN-RECEIVED of any segment but a reset (3.10.7.4,
/// fifth).
pub fn one_number_answers()
    ensures { OneNumberAnswers }
{}

/// From ESTABLISHED on, exactly `2^31 + flight + 1` of the 2^32 acknowledgement numbers let a segment in that has come
/// so far: it has ACK, and neither RST nor SYN, and is acceptable or comes while the window is shut (RFC 9293, 3.10.7.4,
/// fifth). `flight` is SND.NXT - SND.UNA. These are the older ones, SND.UNA, and what is in flight: more than half of
/// all, where RFC 5961, 5.2, would let in those of the last window alone.
pub fn half_of_acks_let_in()
    ensures { HalfOfAcksLetIn }
{}

/// Of such a segment exactly `flight` of the 2^32 acknowledgement numbers move SND.UNA on, so that text is released.
pub fn flight_is_released()
    ensures { FlightIsReleased }
{}

/// While the window is shut the sequence number of such a segment doesn't matter: where one of the 2^32 lets it in, all
/// do. So with 2^20 bytes in flight one acknowledgement in 4,096 releases text, which the peer may never have had.
pub fn any_number_at_a_shut_window()
    ensures { AnyNumberAtAShutWindow }
{}

/// With a guard at most `reach + flight + 1` of the 2^32 acknowledgement numbers let such a segment in, where more than
/// half of all do without one (RFC 5961, 5.2): the last ones, SND.UNA, and what is in flight.
pub fn few_acks_pass()
    ensures { FewAcksPass }
{}

/// And at most `reach + receive capacity + 2` of the 2^32 sequence numbers do while the window is shut, where all do
/// without one: the last ones, and those that the receive buffer may have had a place for, with a FIN behind them.
pub fn few_numbers_pass_at_a_shut_window()
    ensures { FewNumbersPassAtAShutWindow }
{}

/// Any number of segments of any kind, one after another, with any numbers, at one end from SYN-RECEIVED on whose window
/// is open. Of the 2^32 numbers at which RCV.NXT may stand, at most as many let any of them in as their widths sum up to:
/// `window + count - 1` each, and none for bytes that are no segment.
pub fn bursts_rarely_get_in()
    ensures { BurstsRarelyGetIn }
{}
