ghost use Rattle.std.specs.Prelude.{◌≡◌};
ghost use Rattle.tcp_conn.specs.Pending.{only_reset_pending};
ghost use Rattle.tcp_conn.specs.Endings.{after_discarding, after_orderly_end};

use crate::endpoint::Endpoint;
use crate::pending::Pending;
use crate::phase::{Ending, Phase};
use std::alloc::Allocator;

/// Nothing is pending but a waiting reset.
fn keep_only_reset(pending: &mut Pending)
    ensures { pending.new ≡ only_reset_pending pending.old }
{
    pending.syn = false;
    pending.ack = false;
    pending.probe = false;
}

impl<A: Allocator> Endpoint<A> {
    /// The connection ends by a reset or an abort: what is queued, unread or kept out of order is discarded, and
    /// nothing is pending but a waiting reset.
    pub(crate) fn end_by(&mut self, ending: Ending)
        ensures { self.new ≡ after_discarding self.old ending }
    {
        self.phase = Phase::Closed;
        self.ending = ending;
        self.sender.discard();
        self.receiver.discard();
        keep_only_reset(&mut self.pending);
    }

    /// The connection ends in order: what is unread can still be read.
    pub(crate) fn end_in_order(&mut self)
        ensures { self.new ≡ after_orderly_end self.old }
    {
        self.phase = Phase::Closed;
        self.ending = Ending::Orderly;
        self.sender.resend = None;
        keep_only_reset(&mut self.pending);
    }
}
