ghost use Rattle.std.specs.Prelude.{◌≡◌, false, true};
ghost use Rattle.tcp_steady.specs.Steady.{after_arriving, arrival_answer_of, end_of, heard_if, is_heard, plain, with_keep_alive, with_pacing};

use std::alloc::{Allocator, Global};
use tcp_congestion::Congestion;
use tcp_conn::{Arrival, Endpoint};
use tcp_driver::Taken;
use tcp_end::Wired;
use tcp_keep_alive::{KeepAlive, KeepAliveRules};
use tcp_pacing::Pacer;
use tcp_repair::Repairing;

/// One end with its times, its congestion window, its policy and its loss recovery, whose silent peer is asked whether it is there
/// (RFC 9293, 3.8.4), and whose new text goes out spread over a round trip (RFC 9002, 7.7), each where its user wants that. Without
/// either each call is the connection's.
#[derive(Drop)]
pub struct Steady<W: Congestion + Drop, B: Allocator = Global, A: Allocator = Global> {
    /// The connection. What isn't called of the whole is called of it: what its user sends and reads, and what is chosen.
    pub repairing: Repairing<Wired<B>, W, A>,
    /// Its keep-alives, which [`set_keep_alive`](Steady::set_keep_alive) turns on.
    pub keep_alive: KeepAlive,
    /// How fast new text goes out, which [`set_pacing`](Steady::set_pacing) bounds.
    pub pacer: Pacer,
}

/// Whether the peer was heard: something was taken of the connection.
fn is_heard(taken: &Taken<tcp_conn::Taken>) -> bool
    ensures { result ≡ is_heard taken.now }
{
    match taken {
        Taken::Done(_, found) => matches!(found.arrival, Arrival::Processed),
        Taken::EmitFirst | Taken::Withheld => false,
    }
}

impl<W: Congestion + Drop, B: Allocator, A: Allocator> Steady<W, B, A> {
    /// A connection without keep-alives, whose text isn't paced.
    pub fn new(repairing: Repairing<Wired<B>, W, A>) -> Steady<W, B, A>
        ensures { result ≡ plain repairing }
    {
        Steady {
            repairing,
            keep_alive: KeepAlive::new(None, 0),
            pacer: Pacer::off(),
        }
    }

    /// The end.
    #[must_use]
    pub fn end(&self) -> &Endpoint<B>
        ensures { result.now ≡ end_of self.now }
    {
        &self.repairing.flow().driver().core().end
    }

    /// From `now` on, in microseconds, the peer is asked by these rules where nothing is heard of it, or never: its silence counts
    /// from now on. The rules count as [`bounded`](KeepAliveRules::bounded) has them (RFC 9293, 3.8.4).
    pub fn set_keep_alive(&mut self, rules: Option<KeepAliveRules>, now: u64)
        ensures { self.new ≡ with_keep_alive self.old rules now }
    {
        self.keep_alive = KeepAlive::new(rules, now);
    }

    /// New text goes out at the pace of the congestion window and the round trip, in portions, or at once, as it begins. What is sent
    /// again isn't paced, and the first segment of all goes out though its portion is used up where nothing is in flight (RFC 9002,
    /// 7.7).
    pub fn set_pacing(&mut self, is_on: bool)
        ensures { self.new ≡ with_pacing self.old is_on }
    {
        self.pacer.set(is_on);
    }

    /// A segment has come at a time, from the IPv4 address `src` to `dst`, as for the connection. The peer is heard by what is taken
    /// of it: by no segment that isn't acceptable, which may be anybody's (RFC 9293, 3.10.7.4, first).
    #[inline(always)]
    pub fn arrive(
        &mut self,
        now: u64,
        src: [u8; 4],
        dst: [u8; 4],
        bytes: &[u8],
    ) -> Taken<tcp_conn::Taken>
        ensures answer { result ≡ arrival_answer_of self.old src dst bytes.now false }
        ensures state { self.new ≡ after_arriving W.control self.old now src dst bytes.now false }
    {
        let taken = self.repairing.arrive(now, src, dst, bytes);
        self.hear_of(&taken, now);
        taken
    }

    /// The same of a segment whose checksum a device has found right: it isn't summed (RFC 9293, 3.1).
    #[inline(always)]
    pub fn arrive_vouched(
        &mut self,
        now: u64,
        src: [u8; 4],
        dst: [u8; 4],
        bytes: &[u8],
    ) -> Taken<tcp_conn::Taken>
        ensures answer { result ≡ arrival_answer_of self.old src dst bytes.now true }
        ensures state { self.new ≡ after_arriving W.control self.old now src dst bytes.now true }
    {
        let taken = self.repairing.arrive_vouched(now, src, dst, bytes);
        self.hear_of(&taken, now);
        taken
    }

    /// The peer may have been heard.
    #[inline(always)]
    fn hear_of(&mut self, taken: &Taken<tcp_conn::Taken>, now: u64)
        ensures { self.new ≡ heard_if (is_heard taken.now) self.old now }
    {
        if is_heard(taken) {
            self.keep_alive.heard(now);
        }
    }
}
