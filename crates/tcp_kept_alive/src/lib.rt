//! Laws of two ends that ask each other whether they are there (RFC 9293, 3.8.4): what holds of two ends holds of them, too.
//! These functions do nothing when they run: each carries the law that it ensures.
#![tactic(auto)]

ghost use Rattle.tcp_kept_alive.specs.Asked.{EveryRunThatAsksIsSafe, KeepAliveIsACall, KeepAlivesAreBlind};

/// What `tcp_replay`'s `every_run_is_safe` says holds while the ends ask each other, over every list of what happens: what is
/// delivered to each user is a prefix of the bytes accepted from the other one, the end of the stream comes only after all of
/// them, an acknowledgement releases only what the receiver has had in order, and what selective acknowledgement reports is
/// true. A keep-alive may come late, again, in any order, with one byte changed, which is found, or never, and the end that it
/// comes to may be in any state.
pub fn every_run_that_asks_is_safe()
    ensures { EveryRunThatAsksIsSafe }
{}

/// A keep-alive that reaches an end which takes its peer's text, and whose window is open, is what the end's own call
/// `acknowledge` is, or nothing at all. So what holds of every list of events holds where some of these calls are
/// keep-alives. An end whose window is shut takes of it what it takes of any acknowledgement (RFC 9293, 3.10.7.4, first).
pub fn keep_alive_is_a_call()
    ensures { KeepAliveIsACall }
{}

/// Whatever state the end is in that a keep-alive reaches, where its window is open it lets nothing of it in, and holds no
/// reset for anybody but its peer: it is blind, as what strangers send. So what holds among strangers holds beside
/// keep-alives at open windows, in `tcp_progress` (`goes_on_among_strangers`), too.
pub fn keep_alives_are_blind()
    ensures { KeepAlivesAreBlind }
{}
