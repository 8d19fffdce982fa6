ghost use Rattle.std.specs.Prelude.{◌≡◌};

use crate::rules::KeepAliveRules;
use std::marker::Model;

/// What has to be done at a time.
#[derive(Clone, Copy, Debug, PartialEq, Eq)]
pub enum KeepAliveAction {
    /// Nothing.
    Nothing,
    /// A keep-alive has to go out (see [`write_keep_alive`](crate::write_keep_alive)).
    Asks,
    /// As many as the rules say went unanswered: the connection is dead, and its end is to be aborted.
    GivesUp,
}

/// The keep-alives of one end (RFC 9293, 3.8.4): when its silent peer is asked, and when it is given up. Times are counts of
/// microseconds.
///
/// Whether the peer may be asked is for the caller to say, each time: [`may_ask`](crate::may_ask) knows it.
#[derive(Clone, Copy, Debug, PartialEq, Eq)]
pub struct KeepAlive {
    rules: Option<KeepAliveRules>,
    heard_at: u64,
    asked_at: u64,
    unanswered: u32,
}

impl Model for KeepAlive {
    ghost use Rattle.tcp_keep_alive.specs.KeepAlive.{Asking, IsAsking};

    ghost Value = { Asking };

    ghost view = { λ k. record { rules = k.rules; heard_at = k.heard_at; asked_at = k.asked_at; unanswered = k.unanswered } };

    ghost invariant = { λ k. IsAsking (record { rules = k.rules; heard_at = k.heard_at; asked_at = k.asked_at; unanswered = k.unanswered }) };

    ghost inverse = { λ k. record { rules = k.rules; heard_at = k.heard_at; asked_at = k.asked_at; unanswered = k.unanswered } };
}

impl KeepAlive {
    ghost use Rattle.tcp_keep_alive.specs.KeepAlive.{action_at, after_action, after_heard, deadline_of, new_asking, with_rules};

    /// The peer was heard at `now`. Without rules it is never asked: that is the default of the standard, and a user has to
    /// ask for anything else (RFC 9293, 3.8.4). The rules count as [`bounded`](KeepAliveRules::bounded) has them.
    pub fn new(rules: Option<KeepAliveRules>, now: u64) -> KeepAlive
        ensures { result ≡ new_asking rules now }
    {
        KeepAlive {
            rules: rules.map(KeepAliveRules::bounded),
            heard_at: now,
            asked_at: now,
            unanswered: 0,
        }
    }

    /// Turns keep-alives on by other rules, or off. When the peer was heard stays, and no keep-alive counts as unanswered.
    pub fn set_rules(&mut self, rules: Option<KeepAliveRules>)
        ensures { self.new ≡ with_rules self.old rules }
    {
        self.rules = rules.map(KeepAliveRules::bounded);
        self.unanswered = 0;
    }

    /// The rules as they count, where keep-alives are on.
    #[must_use]
    pub fn rules(&self) -> Option<KeepAliveRules>
        ensures { result ≡ self.now.rules }
    {
        self.rules
    }

    /// How many keep-alives went out since the peer was heard.
    #[must_use]
    pub fn unanswered(&self) -> u32
        ensures { result ≡ self.now.unanswered }
    {
        self.unanswered
    }

    /// A segment of the connection came, whatever it brought. Who can write the peer's address and port keeps the peer heard so: a
    /// caller that minds it calls this of acceptable segments alone (RFC 9293, 3.10.7.4, first).
    pub fn heard(&mut self, now: u64)
        ensures { self.new ≡ after_heard self.old now }
    {
        self.heard_at = now;
        self.unanswered = 0;
    }

    /// When [`timeout`](Self::timeout) has to be called, if nothing is heard before. `None` where the peer mustn't be asked,
    /// or never is.
    #[must_use]
    pub fn poll_at(&self, may_ask: bool) -> Option<u64>
        ensures { result ≡ deadline_of self.now may_ask }
    {
        if !may_ask {
            return None;
        }
        let rules = self.rules?;
        if self.unanswered == 0 {
            self.heard_at.checked_add(rules.idle)
        } else {
            self.asked_at.checked_add(rules.interval)
        }
    }

    /// It is `now`: what has to be done. A keep-alive that has to go out counts as unanswered until the peer is heard.
    /// Nothing changes otherwise.
    #[must_use]
    pub fn timeout(&mut self, now: u64, may_ask: bool) -> KeepAliveAction
        ensures action { result ≡ action_at self.old now may_ask }
        ensures after { self.new ≡ after_action self.old now may_ask }
    {
        let (Some(at), Some(rules)) = (self.poll_at(may_ask), self.rules) else {
            return KeepAliveAction::Nothing;
        };
        if now < at {
            return KeepAliveAction::Nothing;
        }
        if self.unanswered >= rules.most {
            return KeepAliveAction::GivesUp;
        }
        self.unanswered += 1;
        self.asked_at = now;
        KeepAliveAction::Asks
    }
}
