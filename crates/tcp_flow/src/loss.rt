//! What a caller finds that finds losses by itself.
ghost use Rattle.std.specs.Prelude.{◌≡◌};

use crate::flow::Flow;
use crate::paced::Paced;
use tcp_congestion::Congestion;

/// What a caller has found that finds losses by itself.
#[derive(Clone, Copy, Debug, PartialEq, Eq)]
pub enum Loss {
    /// Something in flight is lost: the window shrinks once for all that is in flight (RFC 5681, 4.3).
    Found,
    /// What was sent again since then is lost again: it shrinks once more (RFC 5681, 4.3).
    Again,
    /// What was lost is repaired already, as the answer to a probe shows (RFC 8985, 7.4.2): the window shrinks, and recovery is over
    /// with the next acknowledgement.
    Repaired,
}

impl<C: Paced + Drop, W: Congestion + Drop> Flow<C, W> {
    ghost use Rattle.std.specs.Prelude.{true};
    ghost use Rattle.tcp_flow.specs.Flow.{after_loss, after_trip, found_by};

    /// A caller that finds losses by itself has found this, and the window is told, as of a loss that blocks found.
    pub fn lose(&mut self, loss: Loss)
        ensures { self.new ≡ after_loss C.machine W.control self.old loss }
    {
        if self.window.limits() {
            self.tell(loss);
        }
    }

    /// Behind what came a caller that finds losses by itself has measured a round trip of `trip` microseconds, and the window is told:
    /// where round trips become longer, its first slow start ends before anything is lost (RFC 9406, 4.2).
    pub fn measured(&mut self, trip: u64)
        ensures { self.new ≡ after_trip C.machine W.control self.old trip }
    {
        if !self.window.limits() {
            return;
        }
        let una = self.driver.core().una();
        let nxt = self.nxt();
        self.window.measured(trip, una, nxt);
    }

    /// The window is told of what was found.
    fn tell(&mut self, loss: Loss)
        ensures { self.new ≡ record self.old { window = found_by C.machine W.control self.old loss } }
    {
        let una = self.driver.core().una();
        let flight = self.driver.flight();
        let nxt = self.nxt();
        match loss {
            Loss::Found => {
                let _ = self.window.lost(una, flight, nxt);
                self.window.finds_by_time();
            }
            Loss::Again => self.window.lost_again(),
            Loss::Repaired => {
                let _ = self.window.lost(una, flight, una);
                self.window.finds_by_time();
            }
        }
    }
}
