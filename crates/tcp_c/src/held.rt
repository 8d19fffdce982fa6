//! An end that C keeps.
ghost use Rattle.std.specs.Prelude.{◌≡◌, IsSome, IsNone, Option, Some, None};
ghost use Rattle.tcp_conn.specs.State.{State};

use crate::loose::Loose;
use region_heap::{Region, Still};
use std::marker::Model;
use std::ptr::null_mut;
use tcp_conn::Endpoint;

/// An end behind a pointer that C can keep, or none. It isn't `Drop`: an end can't be lost by mistake.
#[repr(C)]
pub struct Held {
    at: *mut u8,
    heap: Still,
    pub ghost end: { Option State },
}

impl Model for Held {
    ghost use Rattle.tcp_c.specs.Held.{held};

    ghost also_owns = { λ h. held h.heap h.at h.end };
}

// It owns the box that it points to, which may go to another thread.
unsafe impl Send for Held {}

impl Held {
    /// No end.
    pub(crate) fn empty(heap: Still) -> Held
        ensures { result.end ≡ None }
    {
        Held {
            at: null_mut(),
            heap,
        }
    }

    /// The end of this box.
    pub(crate) fn of(end: Loose<Endpoint<Region>, Still>) -> Held
        ensures { result.end ≡ Some end.value }
    {
        let Loose { at, alloc } = end;
        Held {
            at: at as *mut u8,
            heap: alloc,
        }
    }

    /// The end as a box.
    pub(crate) fn into_loose(self) -> Loose<Endpoint<Region>, Still>
        requires { IsSome self.end }
        ensures { self.end ≡ Some result.value }
    {
        let Held { at, heap } = self;
        Loose {
            at: at as *mut Endpoint<Region>,
            alloc: heap,
        }
    }

    /// There is no end: nothing is lost.
    pub(crate) fn discard(self)
        requires { IsNone self.end }
    {
        let Held { at: _, heap: _ } = self;
    }
}
