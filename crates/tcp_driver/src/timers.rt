mod expiring;

ghost use Rattle.std.specs.Prelude.{IfSome, None, Some, is_some, max, min, false, true, ◌≡◌, ◌==◌, ◌≤◌, ◌+◌, ◌<◌, ◌*◌, ◌^◌};
ghost use Rattle.tcp_driver.specs.Deadlines.{kept, last};
ghost use Rattle.tcp_driver.specs.Times.{first_span, restarts};

use crate::codes::code_of;
use crate::conditions::{goes_again, is_shut, opens, runs_none, shut_after, still};
use crate::deadlines::{Deadlines, LAST, kept};
use crate::limits::Limits;
use crate::machine::{Report, Sent, Timer, Wants};
use std::marker::Model;
use tcp_timing::{Estimator, Rules, Watch};

/// The times of one end, whatever the end is.
#[derive(Debug, Drop)]
pub struct Timers {
    limits: Limits,
    estimator: Estimator,
    watch: Watch,
    deadlines: Deadlines,
    /// SND.UNA when those were set.
    una: u64,
    /// While the retransmission timer runs: since when nothing has been acknowledged.
    since: Option<u64>,
    /// How often that timer has expired since then.
    resent: u32,
    /// Whether it was started anew since then, because what begins at SND.UNA went out again.
    restarted: bool,
    /// The code of what the timers were set to run as, or 0 where one may have been stopped or started since: so one comparison
    /// says at most calls that they stand.
    stood: u8,
    /// How long the gaps that the peer reported may take to be filled.
    span: u64,
    /// Whether the peer's window was shut when it was last taken.
    shut: bool,
    /// In FIN-WAIT-2, while the user has read all: since when nothing of the peer's has come.
    left: Option<u64>,
    /// A timer has expired, and not all that is due then has gone out.
    bursting: bool,
    /// The time of the last call.
    clock: u64,
}

impl Model for Timers {
    ghost use Rattle.std.specs.Prelude.{false, true, ◌≡◌, ◌==◌};
    ghost use Rattle.tcp_driver.specs.Codes.{wanted_by};
    ghost use Rattle.tcp_driver.specs.Times.{IsSoon, Times, stands};

    ghost Value = { Times };

    ghost view = { λ t. record { limits = t.limits; estimate = t.estimator; watch = t.watch; deadlines = t.deadlines; una = t.una; since = t.since; resent = t.resent; restarted = t.restarted; span = t.span; shut = t.shut; left = t.left; bursting = t.bursting; clock = t.clock } };

    ghost invariant = { λ t. IsSoon (record { limits = t.limits; estimate = t.estimator; watch = t.watch; deadlines = t.deadlines; una = t.una; since = t.since; resent = t.resent; restarted = t.restarted; span = t.span; shut = t.shut; left = t.left; bursting = t.bursting; clock = t.clock }) × ((t.stood == 0) ≡ false → stands (record { limits = t.limits; estimate = t.estimator; watch = t.watch; deadlines = t.deadlines; una = t.una; since = t.since; resent = t.resent; restarted = t.restarted; span = t.span; shut = t.shut; left = t.left; bursting = t.bursting; clock = t.clock }) (wanted_by t.stood) t.una ≡ true) };
}

impl Timers {
    ghost use Rattle.tcp_driver.specs.Times.{IsSoon, after_expiry, after_segment, after_window, first_times, followed, is_suspect, measured, rests, stands, taken, time_at, waits_on, with_patience, with_user_timeout};
    ghost use Rattle.tcp_timing.specs.Rules.{IsSound};

    /// No timer runs.
    pub fn new(rules: Rules, limits: Limits, una: u64, now: u64) -> Timers
        requires sound { IsSound rules }
        requires early { now ≤ last }
        ensures { result ≡ first_times rules limits una now }
    {
        let estimator = Estimator::new(rules);
        let span = estimator.rto();
        Timers {
            limits,
            estimator,
            watch: Watch::new(),
            deadlines: Deadlines::none(),
            una,
            since: None,
            resent: 0,
            restarted: false,
            span,
            shut: false,
            left: None,
            bursting: false,
            clock: now,
            stood: 0,
        }
    }

    /// The time of a call: time never goes back, and stands still at the last one.
    pub fn time_at(&self, now: u64) -> u64
        ensures value { result ≡ time_at self.now now }
        ensures early { result ≤ last }
        ensures later { self.now.clock ≤ result }
    {
        self.clock.max(LAST.min(now))
    }

    /// The retransmission timeout and the round trip.
    pub fn estimator(&self) -> &Estimator
        ensures { result.now ≡ self.now.estimate }
    {
        &self.estimator
    }

    /// How far the guard reaches.
    pub fn guard(&self) -> Option<u32>
        ensures { result ≡ self.now.limits.guard }
    {
        self.limits.guard
    }

    /// Whether a burst is on.
    pub fn is_bursting(&self) -> bool
        ensures { result ≡ self.now.bursting }
    {
        self.bursting
    }

    /// What reordering is given at first: SRTT, or the clock's granularity where that is more, but no more than the timeout; or by
    /// patience the timeout.
    fn first_span(&self) -> u64
        ensures { result ≡ first_span self.now.limits.is_patient self.now.estimate }
    {
        match self.estimator.trip() {
            Some(trip) if !self.limits.is_patient => {
                let least = 1_u64.max(self.estimator.granularity());
                self.estimator.rto().min(least.max(trip.srtt))
            }
            _ => self.estimator.rto(),
        }
    }

    /// Whether the timers are known to run as the end wants them already, and nothing was acknowledged.
    #[inline(always)]
    #[tactic(auto, using(crate::proofs::Standing::stands_as_before))]
    fn stands(&self, wants: Wants, una: u64) -> bool
        ensures { result ≡ true → stands self.now wants una ≡ true }
    {
        una == self.una && code_of(wants) == self.stood
    }

    /// The timers run as the end wants them, and start anew where something was acknowledged. Mostly they do already, and
    /// nothing was: then only time passes.
    #[inline(always)]
    pub fn follow(&mut self, wants: Wants, una: u64, now: u64)
        requires early { now ≤ last }
        requires later { self.old.clock ≤ now }
        ensures state { self.new ≡ followed self.old wants una now }
        ensures soon { IsSoon self.new }
        ensures una { self.new.una ≡ una }
        ensures retransmit { is_some self.new.deadlines.retransmit ≡ wants.retransmit }
        ensures since { is_some self.new.since ≡ wants.retransmit }
        ensures left { is_some self.new.left ≡ wants.fin_wait_2 }
        ensures reorder { is_some self.new.deadlines.reorder ≡ wants.reorder }
        ensures time_wait { is_some self.new.deadlines.time_wait ≡ wants.time_wait }
        ensures rests { rests wants.retransmit self.new ≡ true }
    {
        if self.stands(wants, una) {
            self.pass(now);
        } else {
            self.pass(now);
            self.start(
                una,
                wants.retransmit,
                wants.reorder,
                wants.time_wait,
                wants.fin_wait_2,
            );
        }
    }

    /// As `follow` now, whether they do already or not. What the end wants comes as words, which stay in registers.
    #[inline(always)]
    fn start(
        &mut self,
        una: u64,
        retransmit: bool,
        reorder: bool,
        time_wait: bool,
        fin_wait_2: bool,
    )
        ensures state { self.new ≡ followed self.old (record { retransmit = retransmit; reorder = reorder; time_wait = time_wait; fin_wait_2 = fin_wait_2 }) una self.old.clock }
        ensures soon { IsSoon self.new }
        ensures una { self.new.una ≡ una }
        ensures retransmit { is_some self.new.deadlines.retransmit ≡ retransmit }
        ensures since { is_some self.new.since ≡ retransmit }
        ensures left { is_some self.new.left ≡ fin_wait_2 }
        ensures reorder { is_some self.new.deadlines.reorder ≡ reorder }
        ensures time_wait { is_some self.new.deadlines.time_wait ≡ time_wait }
        ensures rests { rests retransmit self.new ≡ true }
    {
        if una == self.una {
            self.start_some(retransmit, reorder, time_wait, fin_wait_2);
        } else {
            self.start_anew(una, retransmit, reorder, time_wait, fin_wait_2);
        }
        self.note(Wants {
            retransmit,
            reorder,
            time_wait,
            fin_wait_2,
        });
    }

    /// They run as the end wants them, and this is kept in mind.
    #[inline(always)]
    fn note(&mut self, wants: Wants)
        requires retransmit { is_some self.old.deadlines.retransmit ≡ wants.retransmit }
        requires since { is_some self.old.since ≡ wants.retransmit }
        requires rests { rests wants.retransmit self.old ≡ true }
        requires reorder { is_some self.old.deadlines.reorder ≡ wants.reorder }
        requires time_wait { is_some self.old.deadlines.time_wait ≡ wants.time_wait }
        requires left { is_some self.old.left ≡ wants.fin_wait_2 }
        ensures { self.new ≡ self.old }
    {
        self.stood = code_of(wants);
    }

    /// Those that don't run and have to start, where nothing was acknowledged.
    #[inline(never)]
    fn start_some(&mut self, retransmit: bool, reorder: bool, time_wait: bool, fin_wait_2: bool)
        ensures state { self.new ≡ followed self.old (record { retransmit = retransmit; reorder = reorder; time_wait = time_wait; fin_wait_2 = fin_wait_2 }) self.old.una self.old.clock }
        ensures soon { IsSoon self.new }
        ensures una { self.new.una ≡ self.old.una }
        ensures retransmit { is_some self.new.deadlines.retransmit ≡ retransmit }
        ensures since { is_some self.new.since ≡ retransmit }
        ensures left { is_some self.new.left ≡ fin_wait_2 }
        ensures reorder { is_some self.new.deadlines.reorder ≡ reorder }
        ensures time_wait { is_some self.new.deadlines.time_wait ≡ time_wait }
        ensures rests { rests retransmit self.new ≡ true }
    {
        self.stood = 0;
        let now = self.clock;
        let rto = self.estimator.rto();
        self.deadlines.retransmit = kept(retransmit, true, self.deadlines.retransmit, now + rto);
        self.since = kept(retransmit, true, self.since, now);
        self.resent = if retransmit { self.resent } else { 0 };
        self.restarted = still(retransmit, true, self.restarted);
        self.start_others(true, reorder, time_wait, fin_wait_2);
    }

    /// All start anew that have to run, where something was acknowledged.
    #[inline(never)]
    fn start_anew(
        &mut self,
        una: u64,
        retransmit: bool,
        reorder: bool,
        time_wait: bool,
        fin_wait_2: bool,
    )
        requires { (una == self.old.una) ≡ false }
        ensures state { self.new ≡ followed self.old (record { retransmit = retransmit; reorder = reorder; time_wait = time_wait; fin_wait_2 = fin_wait_2 }) una self.old.clock }
        ensures soon { IsSoon self.new }
        ensures una { self.new.una ≡ una }
        ensures retransmit { is_some self.new.deadlines.retransmit ≡ retransmit }
        ensures since { is_some self.new.since ≡ retransmit }
        ensures left { is_some self.new.left ≡ fin_wait_2 }
        ensures reorder { is_some self.new.deadlines.reorder ≡ reorder }
        ensures time_wait { is_some self.new.deadlines.time_wait ≡ time_wait }
        ensures rests { rests retransmit self.new ≡ true }
    {
        self.stood = 0;
        let now = self.clock;
        let rto = self.estimator.rto();
        self.deadlines.retransmit = if retransmit { Some(now + rto) } else { None };
        self.since = if retransmit { Some(now) } else { None };
        self.resent = 0;
        self.restarted = false;
        self.una = una;
        self.span = self.first_span();
        self.start_others(false, reorder, time_wait, fin_wait_2);
    }

    /// The timers but that of retransmission. Mostly no other runs, and none is wanted.
    #[inline(always)]
    fn start_others(&mut self, same: bool, reorder: bool, time_wait: bool, fin_wait_2: bool)
        ensures state { self.new ≡ record self.old { deadlines = record self.old.deadlines { reorder = kept reorder same self.old.deadlines.reorder (self.old.clock + min self.old.estimate.rto self.old.span); time_wait = kept time_wait true self.old.deadlines.time_wait (self.old.clock + min last self.old.limits.time_wait) }; left = kept fin_wait_2 true self.old.left self.old.clock } }
        ensures soon { IsSoon self.new }
    {
        if runs_none(self.deadlines.reorder, self.deadlines.time_wait, self.left)
            && !(reorder || time_wait || fin_wait_2)
        {
            return;
        }
        self.start_each(same, reorder, time_wait, fin_wait_2);
    }

    /// As `start_others`, whether one runs or is wanted, or not.
    #[cold]
    #[inline(never)]
    fn start_each(&mut self, same: bool, reorder: bool, time_wait: bool, fin_wait_2: bool)
        ensures state { self.new ≡ record self.old { deadlines = record self.old.deadlines { reorder = kept reorder same self.old.deadlines.reorder (self.old.clock + min self.old.estimate.rto self.old.span); time_wait = kept time_wait true self.old.deadlines.time_wait (self.old.clock + min last self.old.limits.time_wait) }; left = kept fin_wait_2 true self.old.left self.old.clock } }
        ensures soon { IsSoon self.new }
    {
        self.stood = 0;
        let now = self.clock;
        let late = now + self.estimator.rto().min(self.span);
        let longest = LAST.min(self.limits.time_wait);
        self.deadlines.reorder = kept(reorder, same, self.deadlines.reorder, late);
        self.deadlines.time_wait = kept(time_wait, true, self.deadlines.time_wait, now + longest);
        self.left = kept(fin_wait_2, true, self.left, now);
    }

    /// All before `una` is acknowledged.
    fn measure(&mut self, una: u64, now: u64)
        ensures { self.new ≡ measured self.old una now }
    {
        // Mostly nothing has expired.
        if 0 < self.resent && (self.una == 0 && 0 < una) {
            self.estimator.syn_was_resent();
        }
        if let Some(rtt) = self.watch.acked(una, now) {
            self.estimator.sample(rtt);
        }
    }

    /// The peer's window was taken, if one was. Mostly it was open and is, and nothing changes.
    #[inline(always)]
    fn take_window(&mut self, una: u64, window: Option<u64>)
        ensures { self.new ≡ after_window self.old una window }
    {
        if self.shut || is_shut(window) {
            self.turn_window(una, window);
        }
    }

    /// The same, whether it was open or not.
    #[cold]
    #[inline(never)]
    fn turn_window(&mut self, una: u64, window: Option<u64>)
        ensures { self.new ≡ after_window self.old una window }
    {
        self.stood = 0;
        if opens(self.shut, window) {
            self.estimator.forget_back_off();
            self.deadlines.retransmit = None;
        }
        if is_shut(window) && 0 < una {
            self.since = None;
            self.resent = 0;
        }
        self.shut = shut_after(self.shut, window);
    }

    /// A segment has come: all before `una` is acknowledged after it.
    #[inline(always)]
    pub fn take(&mut self, una: u64, report: Report, now: u64)
        ensures { self.new ≡ taken self.old una report now }
    {
        self.measure(una, now);
        self.take_window(una, report.window);
        if report.repeats_fin {
            self.stood = 0;
            self.deadlines.time_wait = None;
        }
        // Mostly it isn't in FIN-WAIT-2.
        if self.left.is_some() && report.from_peer {
            self.stood = 0;
            self.left = None;
        }
    }

    /// Whether a segment that goes out starts the retransmission timer anew: it begins at SND.UNA, goes out again, and none
    /// has since something was acknowledged.
    fn restarts(&self, sent: Sent) -> bool
        ensures { result ≡ restarts self.now sent }
    {
        goes_again(&self.watch, sent) && (sent.start == self.una && !self.restarted)
    }

    /// A segment has gone out. Mostly it is new, and no timer starts anew.
    #[inline(always)]
    pub fn emitted(&mut self, sent: Sent, now: u64)
        requires fits { sent.start + sent.count < 2 ^ 64 }
        ensures { self.new ≡ after_segment (Some sent) self.old now }
    {
        if goes_again(&self.watch, sent) {
            self.emitted_again(sent, now);
        } else {
            self.watch.sent(sent.start, sent.count, now);
        }
    }

    /// The same, whether it is new or not.
    #[cold]
    #[inline(never)]
    fn emitted_again(&mut self, sent: Sent, now: u64)
        requires fits { sent.start + sent.count < 2 ^ 64 }
        ensures { self.new ≡ after_segment (Some sent) self.old now }
    {
        self.stood = 0;
        if self.restarts(sent) {
            self.deadlines.retransmit = None;
            self.restarted = true;
        }
        if goes_again(&self.watch, sent) {
            self.deadlines.reorder = None;
        }
        self.watch.sent(sent.start, sent.count, now);
    }

    /// None was due: a burst is over, and else only time passes.
    pub fn rest(&mut self, now: u64)
        requires early { now ≤ last }
        requires later { self.old.clock ≤ now }
        ensures state { self.new ≡ record self.old { bursting = false; clock = now } }
        ensures soon { IsSoon self.new }
    {
        self.bursting = false;
        self.clock = now;
    }

    /// Whether the retransmission timer has expired so often that the path is suspect.
    pub fn is_suspect(&self) -> bool
        ensures { result ≡ is_suspect self.now }
    {
        self.limits.suspect_after <= self.resent
    }

    /// A timer has expired: a burst begins.
    pub fn expire(&mut self, timer: Timer)
        ensures state { self.new ≡ after_expiry self.old timer }
        ensures clock { self.new.clock ≡ self.old.clock }
    {
        self.stood = 0;
        match timer {
            Timer::Retransmit => {
                self.estimator.back_off();
                self.resent = self.resent.saturating_add(1);
            }
            Timer::Reorder => {
                let rto = self.estimator.rto();
                self.span = rto.min(2 * rto.min(self.span));
            }
            Timer::TimeWait => {}
            Timer::User => {
                self.since = None;
                self.resent = 0;
                self.left = None;
            }
        }
        self.deadlines = self.deadlines.without(timer);
        self.bursting = true;
    }

    /// Nothing happens until `now`.
    pub fn pass(&mut self, now: u64)
        requires early { now ≤ last }
        requires later { self.old.clock ≤ now }
        ensures state { self.new ≡ record self.old { clock = now } }
        ensures soon { IsSoon self.new }
    {
        self.clock = now;
    }

    /// The user timeout is set.
    pub fn set_user_timeout(&mut self, limit: Option<u64>)
        ensures { self.new ≡ with_user_timeout self.old limit }
    {
        self.limits.user = limit;
    }

    /// Whether reordering is given a whole timeout is set.
    pub fn set_patience(&mut self, is_patient: bool)
        ensures { self.new ≡ with_patience self.old is_patient }
    {
        self.limits.is_patient = is_patient;
    }
}
