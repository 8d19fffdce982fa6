//! When a host has to be told the time, and whom it tells.
ghost use Rattle.std.specs.Prelude.{◌≡◌};
ghost use Rattle.tcp_c.specs.Answers.{answer_of, done, no_end};
ghost use Rattle.tcp_c.specs.Hosts.{IsNextTime, OnHost, Tells, nobody_told, tick_number, tick_told, timer_named};

use crate::answers::{DONE, NO_END, NOBODY};
use crate::connection::timing::{time_number, timer_number};
use crate::host::host_handle::HostHandle;
use crate::host::ids::{PLACE_NONE, no_id, place_number};
use crate::host::lodging::Lodging;
use crate::records::CHostTold;
use tcp_driver::Timer;
use tcp_host::Place;

/// The number of no timer.
pub const NO_TIMER_EXPIRED: u32 = 4;

/// Nobody was due.
fn nobody_told() -> CHostTold
    ensures { result ≡ nobody_told }
{
    CHostTold {
        id: no_id(),
        place: PLACE_NONE,
        timer: NO_TIMER_EXPIRED,
    }
}

/// The number of a timer that has expired, or of none.
fn timer_named(timer: Option<Timer>) -> u32
    ensures { result ≡ timer_named timer }
{
    match timer {
        Some(timer) => timer_number(timer),
        None => NO_TIMER_EXPIRED,
    }
}

impl Lodging {
    /// What is reported of who was told.
    fn tick_told(&self, told: Option<(Place, Option<Timer>)>) -> (u32, CHostTold)
        ensures answer { result.0 ≡ tick_number told }
        ensures report { result.1 ≡ tick_told self.now.host told }
    {
        let Some((place, timer)) = told else {
            return (NOBODY, nobody_told());
        };
        let told = CHostTold {
            id: self.named(place),
            place: place_number(place),
            timer: timer_named(timer),
        };
        (DONE, told)
    }

    /// Whoever is due first is told.
    fn timeout(&mut self, now: u64) -> (u32, CHostTold)
        ensures { Tells self.old.host self.new.host now result.0 result.1 }
    {
        let told = self.host.timeout(now);
        self.tick_told(told)
    }

    /// When somebody has to be told.
    fn poll_at(&self) -> u64
        ensures { IsNextTime self.now.host result }
    {
        time_number(self.host.poll_at())
    }
}

/// It is `now`: a record whose TIME-WAIT is over goes; else the end is told that is due first, and reported with the timer
/// that has expired (RFC 9293, 3.10.8). Call this until it is 63: then nobody is due any more; and
/// [`tcp_c_host_emit`](crate::tcp_c_host_emit) until nobody waits.
#[unsafe(no_mangle)]
pub extern "C" fn tcp_c_host_timeout(handle: &mut HostHandle, now: u64, told: &mut CHostTold) -> u32
    ensures { OnHost ((result ≡ no_end) × (told.new ≡ nobody_told)) (λ old new. Tells old new now result told.new) handle.old.held.host handle.new.held.host }
{
    let Some(mut lodging) = handle.take() else {
        *told = nobody_told();
        return NO_END;
    };
    let (answer, found) = lodging.timeout(now);
    handle.put(lodging);
    *told = found;
    answer
}

/// Reports when [`tcp_c_host_timeout`] has to be called, if nothing else happens before; 2^64 - 1 where nobody has a
/// deadline.
#[unsafe(no_mangle)]
pub extern "C" fn tcp_c_host_poll_at(handle: &mut HostHandle, at: &mut u64) -> u32
    ensures answer { result ≡ answer_of (λ _. done) handle.old.held.host }
    ensures at { OnHost (at.new ≡ 0) (λ old new. IsNextTime old at.new) handle.old.held.host handle.new.held.host }
    ensures state { handle.new.held.host ≡ handle.old.held.host }
{
    let Some(lodging) = handle.take() else {
        *at = 0;
        return NO_END;
    };
    let next = lodging.poll_at();
    handle.put(lodging);
    *at = next;
    DONE
}
