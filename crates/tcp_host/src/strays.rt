//! Strays (RFC 9293, 3.10.7.1), and what acknowledges where nothing was sent (3.10.7.2, second).
ghost use Rattle.std.specs.Prelude.{◌≡◌, ◌≤◌, true, false, None, IfSome, IfNone, if◌then◌else◌, length, option_map};
ghost use Rattle.tcp_conn.specs.Stray.{stray_reset, with_front};
ghost use Rattle.tcp_congestion.specs.Limiter.{after_granted, is_granted, new_limiter};

use crate::host::Host;
use crate::pair::{Pair, Socket, acknowledges, pair_of};
use crate::timed::Timed;
use std::alloc::Allocator;
use tcp_congestion::Limiter;
use tcp_conn::{RESET_LEN, stray_reset};
use tcp_wire::Addr;

impl<T: Timed + Drop, L: Drop, A: Allocator + Copy> Host<T, L, A> {
    ghost use Rattle.tcp_host.specs.Hosting.{IsNobodys};

    /// Answers a stray, which came at a time from the IPv4 address `src` to `dst`: the length of the reset that is
    /// written, which goes from `dst` to `src` (RFC 9293, 3.10.7.1). One goes out in an interval, since whoever sends
    /// strays chooses the addresses that they come from (RFC 5961, 7). What acknowledges something is a stray at a
    /// listener, too, as of a connection from before a restart (3.10.7.2, second). `None`, and nothing is written or
    /// changes, where an end or a record has the segment, or a listener one without ACK: none of theirs draws a reset
    /// here; where the last answer was less than the interval ago; and where the bytes are no segment, or a reset.
    pub fn stray(
        &mut self,
        now: u64,
        src: [u8; 4],
        dst: [u8; 4],
        bytes: &[u8],
        out: &mut [u8],
    ) -> Option<usize>
        requires { RESET_LEN ≤ length out.old }
        ensures nobodys { IfSome result (λ len. IsNobodys ⟦<Pair as Ord>⟧.cmp ⟦<Socket as Ord>⟧.cmp self.old src dst bytes.now) }
        ensures answered { IsNobodys ⟦<Pair as Ord>⟧.cmp ⟦<Socket as Ord>⟧.cmp self.old src dst bytes.now → result ≡ (if is_granted self.old.strays now then option_map (λ reset. RESET_LEN) (stray_reset src dst bytes.now) else None) }
        ensures written { IfSome result (λ len. out.new ≡ with_front (stray_reset src dst bytes.now) out.old) }
        ensures limited { IfSome result (λ len. self.new ≡ record self.old { strays = after_granted self.old.strays now }) }
        ensures none { IfNone result ((self.new ≡ self.old) × (out.new ≡ out.old)) }
    {
        let pair = pair_of(src, dst, bytes)?;
        if self.has(&pair, acknowledges(bytes)) {
            return None;
        }
        let mut strays = self.strays;
        if !strays.grant(now) {
            return None;
        }
        let len = stray_reset(Addr(src), Addr(dst), bytes, out)?;
        self.strays = strays;
        Some(len)
    }

    ghost use Rattle.tcp_host.specs.Hosting.{IsFree};

    /// Whether an end or a record has a pair, or a listener, where what came for it acknowledges nothing.
    fn has(&self, pair: &Pair, acknowledging: bool) -> bool
        ensures known { result ≡ true → IsFree ⟦<Pair as Ord>⟧.cmp ⟦<Socket as Ord>⟧.cmp self.now pair.now acknowledging → ⊥ }
        ensures free { result ≡ false → IsFree ⟦<Pair as Ord>⟧.cmp ⟦<Socket as Ord>⟧.cmp self.now pair.now acknowledging }
    {
        if self.ends.find(pair).is_some() {
            return true;
        }
        if self.records.find(pair).is_some() {
            return true;
        }
        if acknowledging {
            return false;
        }
        self.listeners.find(&pair.local).is_some()
    }

    /// One stray is answered in so many microseconds from now on; 0: there is no limit.
    pub fn limit_strays(&mut self, interval: u64)
        ensures { self.new ≡ record self.old { strays = new_limiter interval } }
    {
        self.strays = Limiter::new(interval);
    }
}
