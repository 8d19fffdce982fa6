ghost use Rattle.std.specs.Prelude.{◌≡◌, ◌≤◌, ◌<◌, unwrap_or};
ghost use Rattle.tcp_connection.specs.Connection.{edge_by, first_ack, first_smss};
ghost use Rattle.tcp_congestion.specs.SwsAvoidance.{after_window};
ghost use Rattle.tcp_connection.specs.Policy.{no_text};
ghost use Rattle.tcp_congestion.specs.Sizes.{max_segment};

use crate::deferring::Deferring;
use crate::policy::Policy;
use std::marker::Model;
use tcp_congestion::{Congestion, DelayedAck, Limiter, SwsAvoidance};
use tcp_driver::Taken;
use tcp_flow::Flow;

/// SMSS before both SYNs have agreed on it (RFC 9293, 3.7.1).
const FIRST_SMSS: u64 = 536;

/// One end with its times, under a congestion window, whose acknowledgements and small segments wait as its [`Policy`] have it
/// (RFC 9293, 3.7.4 and 3.8.6; RFC 5961, 7). Where nothing waits, and all is answered, each call is the flow's.
#[derive(Drop)]
pub struct Connection<C: Deferring + Drop, W: Congestion + Drop> {
    pub(crate) flow: Flow<C, W>,
    pub(crate) policy: Policy,
    /// Whether there are any.
    pub(crate) is_deferring: bool,
    pub(crate) smss: u64,
    pub(crate) ack: DelayedAck,
    pub(crate) text: SwsAvoidance,
    pub(crate) limiter: Limiter,
    pub(crate) is_bare: bool,
    pub(crate) edge: u64,
}

impl<C: Deferring + Drop, W: Congestion + Drop> Model for Connection<C, W> {
    ghost use Rattle.tcp_connection.specs.Connection.{Connecting, IsDeferring};

    ghost Value = { Connecting C W };

    ghost view = { λ k. record { flowing = k.flow; policy = k.policy; smss = k.smss; ack = k.ack; text = k.text; limiter = k.limiter; bare = k.is_bare; edge = k.edge } };

    ghost invariant = { λ k. IsDeferring k.policy k.is_deferring k.smss k.text.timeout };
}

impl<C: Deferring + Drop, W: Congestion + Drop> Connection<C, W> {
    ghost use Rattle.std.specs.Prelude.{false, true};
    ghost use Rattle.tcp_driver.specs.Driver.{arrival_answer, way_of};
    ghost use Rattle.tcp_connection.specs.Connection.{after_arriving, new_connecting};
    ghost use Rattle.tcp_connection.specs.Using.{with_policy};

    /// A flow, with a policy. Nothing waits yet.
    pub fn new(flow: Flow<C, W>, policy: Policy) -> Connection<C, W>
        ensures { result ≡ new_connecting C.machine C.insight C.smss_of flow policy }
    {
        let smss = smss_of(flow.driver().core());
        let pending = flow.driver().core().is_pending();
        let edge = edge_of(flow.driver().core());
        let text = first_text(policy, smss, flow.driver().core().snd_wnd());
        Connection {
            flow,
            policy,
            is_deferring: policy.holds_any(),
            smss,
            ack: first_ack(policy, smss, pending),
            text,
            limiter: Limiter::new(policy.answer_interval),
            is_bare: false,
            edge,
        }
    }

    /// Chooses another policy. An acknowledgement that waited is due then, and text begins to wait anew.
    pub fn set_policy(&mut self, policy: Policy)
        ensures { self.new ≡ with_policy C.machine C.insight C.smss_of self.old policy }
    {
        let smss = smss_of(self.flow.driver().core());
        let pending = self.flow.driver().core().is_pending();
        self.edge = edge_of(self.flow.driver().core());
        self.policy = policy;
        self.is_deferring = policy.holds_any();
        self.smss = smss;
        self.ack = first_ack(policy, smss, pending);
        self.text = first_text(policy, smss, self.flow.driver().core().snd_wnd());
        self.limiter = Limiter::new(policy.answer_interval);
        self.is_bare = false;
    }

    /// The flow: its driver, its window, and what it says of both.
    #[must_use]
    pub fn flow(&self) -> &Flow<C, W>
        ensures { result.now ≡ self.now.flowing }
    {
        &self.flow
    }

    /// What waits, and how long.
    #[must_use]
    pub fn policy(&self) -> Policy
        ensures { result ≡ self.now.policy }
    {
        self.policy
    }

    /// A segment has come at a time, from the IPv4 address `src` to `dst`, as for the flow.
    pub fn arrive(
        &mut self,
        now: u64,
        src: [u8; 4],
        dst: [u8; 4],
        bytes: &[u8],
    ) -> Taken<C::Arriving>
        ensures answer { result ≡ arrival_answer C.machine C.arrival_answer self.old.flowing.driving src dst bytes.now (way_of self.old.flowing.driving false) }
        ensures state { self.new ≡ after_arriving C.machine C.insight C.smss_of W.control self.old now src dst bytes.now false }
    {
        if !self.is_deferring {
            return self.flow.arrive(now, src, dst, bytes);
        }
        let before = self.before(bytes);
        let taken = self.flow.arrive(now, src, dst, bytes);
        self.hear_of(before, bytes, &taken, now);
        taken
    }

    /// The same of a segment whose checksum a device has found right: it isn't summed (RFC 9293, 3.1).
    pub fn arrive_vouched(
        &mut self,
        now: u64,
        src: [u8; 4],
        dst: [u8; 4],
        bytes: &[u8],
    ) -> Taken<C::Arriving>
        ensures answer { result ≡ arrival_answer C.machine C.arrival_answer self.old.flowing.driving src dst bytes.now (way_of self.old.flowing.driving true) }
        ensures state { self.new ≡ after_arriving C.machine C.insight C.smss_of W.control self.old now src dst bytes.now true }
    {
        if !self.is_deferring {
            return self.flow.arrive_vouched(now, src, dst, bytes);
        }
        let before = self.before(bytes);
        let taken = self.flow.arrive_vouched(now, src, dst, bytes);
        self.hear_of(before, bytes, &taken, now);
        taken
    }
}

/// No acknowledgement waits yet, but one that is pending already is due.
fn first_ack(policy: Policy, smss: u64, pending: bool) -> DelayedAck
    requires least { 0 < smss }
    requires most { smss ≤ max_segment }
    ensures { result ≡ first_ack policy smss pending }
{
    let mut ack = policy.no_ack(smss);
    if pending {
        ack.arrived(0, true, 0);
    }
    ack
}

/// No text waits yet, and the greatest of the peer's windows is this.
fn first_text(policy: Policy, smss: u64, snd_wnd: u64) -> SwsAvoidance
    requires least { 0 < smss }
    requires most { smss ≤ max_segment }
    ensures { result ≡ after_window (no_text policy smss) snd_wnd }
{
    let mut text = policy.no_text(smss);
    text.window(snd_wnd);
    text
}

/// SMSS of an end, before both SYNs have agreed on it, too.
fn smss_of<C: Deferring>(core: &C) -> u64
    ensures value { result ≡ unwrap_or (C.smss_of core.now) first_smss }
    ensures least { 0 < result }
    ensures most { result ≤ max_segment }
{
    match core.smss() {
        Some(smss) => smss,
        None => FIRST_SMSS,
    }
}

/// The right edge of the window that an end's segment advertises now, as a position of the peer's direction.
pub(crate) fn edge_of<C: Deferring>(core: &C) -> u64
    ensures { result ≡ edge_by C.insight core.now }
{
    core.rcv_nxt().saturating_add(core.window())
}
