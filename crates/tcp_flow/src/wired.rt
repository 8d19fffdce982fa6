//! An end of a connection under a congestion window.
use crate::paced::Paced;
use std::alloc::Allocator;
use tcp_conn::Train;
use tcp_end::Wired;

impl<A: Allocator> Paced for Wired<A> {
    ghost use Rattle.tcp_conn.specs.TrainWithin.{train_within};
    ghost use Rattle.tcp_flow.specs.Wired.{counted, numbers_of, smss_of};

    ghost smss_of = { λ w. smss_of w.end };

    ghost numbers_of = { numbers_of };

    ghost counts = { λ w window most room. counted (train_within w.end window most room) };

    fn smss(&self) -> Option<u64> {
        match self.end.negotiated() {
            Some(agreed) if agreed.mss > 0 => Some(u64::from(agreed.mss)),
            _ => None,
        }
    }

    fn numbers(train: &Train) -> u64 {
        train.whole.end.saturating_sub(train.whole.position)
    }
}
