//! An end with its timers that C keeps.
ghost use Rattle.std.specs.Prelude.{◌≡◌, IsSome, IsNone, Option, Some, None};
ghost use Rattle.tcp_c.specs.declared.connection.driven.Driven.{Driven};

use crate::connection::driven::Driven;
use crate::loose::Loose;
use region_heap::Still;
use std::marker::Model;
use std::ptr::null_mut;

/// An end with its timers behind a pointer that C can keep, or none. It isn't `Drop`: an end can't be lost by mistake.
#[repr(C)]
pub struct DrivenHeld {
    at: *mut u8,
    heap: Still,
    pub ghost end: { Option Driven },
}

impl Model for DrivenHeld {
    ghost use Rattle.tcp_c.specs.DrivenHeld.{held};

    ghost also_owns = { λ h. held h.heap h.at h.end };
}

impl DrivenHeld {
    /// No end.
    pub(crate) fn empty(heap: Still) -> DrivenHeld
        ensures { result.end ≡ None }
    {
        DrivenHeld {
            at: null_mut(),
            heap,
        }
    }

    /// The end of this box.
    pub(crate) fn of(end: Loose<Driven, Still>) -> DrivenHeld
        ensures { result.end ≡ Some end.value }
    {
        let Loose { at, alloc } = end;
        DrivenHeld {
            at: at as *mut u8,
            heap: alloc,
        }
    }

    /// The end as a box.
    pub(crate) fn into_loose(self) -> Loose<Driven, Still>
        requires { IsSome self.end }
        ensures { self.end ≡ Some result.value }
    {
        let DrivenHeld { at, heap } = self;
        Loose {
            at: at as *mut Driven,
            alloc: heap,
        }
    }

    /// There is no end: nothing is lost.
    pub(crate) fn discard(self)
        requires { IsNone self.end }
    {
        let DrivenHeld { at: _, heap: _ } = self;
    }
}
