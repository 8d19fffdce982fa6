//! When something has to be done next (RFC 8985, 6.2, step 5, and 7.3).
ghost use Rattle.std.specs.Prelude.{◌≡◌};

use crate::recovery::Recovery;
use crate::seen::Seen;
use crate::trips::earlier;

impl Recovery {
    ghost use Rattle.tcp_repair.specs.Deadlines.{own_deadline, rack_deadline};

    /// When a probe is due, or a stretch is lost.
    #[tactic(auto, unfolding(crate::specs::Deadlines::own_deadline))]
    pub(crate) fn deadline(&self, seen: Seen) -> Option<u64>
        ensures { result ≡ own_deadline self.now seen }
    {
        earlier(self.probe.deadline(), self.rack_deadline(seen))
    }

    /// When the next stretch is lost, where none is now.
    fn rack_deadline(&self, seen: Seen) -> Option<u64>
        ensures { result ≡ rack_deadline self.now seen }
    {
        // Mostly nothing is looked for.
        if !self.is_looking(seen) || self.lost(seen).is_some() {
            return None;
        }
        self.timed.rack().deadline(self.window(seen))
    }
}
