//! A host that C keeps.
ghost use Rattle.std.specs.Prelude.{◌≡◌, IsSome, IsNone, Option, Some, None};
ghost use Rattle.tcp_c.specs.declared.host.lodging.Lodging.{Lodging};

use crate::host::lodging::Lodging;
use crate::loose::Loose;
use region_heap::Still;
use std::marker::Model;
use std::ptr::null_mut;

/// A host behind a pointer that C can keep, or none. It isn't `Drop`: a host can't be lost by mistake.
#[repr(C)]
pub struct HostHeld {
    at: *mut u8,
    heap: Still,
    pub ghost host: { Option Lodging },
}

impl Model for HostHeld {
    ghost use Rattle.tcp_c.specs.HostHeld.{held};

    ghost also_owns = { λ h. held h.heap h.at h.host };
}

impl HostHeld {
    /// No host.
    pub(crate) fn empty(heap: Still) -> HostHeld
        ensures { result.host ≡ None }
    {
        HostHeld {
            at: null_mut(),
            heap,
        }
    }

    /// The host of this box.
    pub(crate) fn of(host: Loose<Lodging, Still>) -> HostHeld
        ensures { result.host ≡ Some host.value }
    {
        let Loose { at, alloc } = host;
        HostHeld {
            at: at as *mut u8,
            heap: alloc,
        }
    }

    /// The host as a box.
    pub(crate) fn into_loose(self) -> Loose<Lodging, Still>
        requires { IsSome self.host }
        ensures { self.host ≡ Some result.value }
    {
        let HostHeld { at, heap } = self;
        Loose {
            at: at as *mut Lodging,
            alloc: heap,
        }
    }

    /// There is no host: nothing is lost.
    pub(crate) fn discard(self)
        requires { IsNone self.host }
    {
        let HostHeld { at: _, heap: _ } = self;
    }
}
