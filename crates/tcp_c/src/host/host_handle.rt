ghost use Rattle.std.specs.Prelude.{◌≡◌, ◌↔◌, IsSome, None, Some, option_map};
ghost use Rattle.tcp_c.specs.declared.host.host_handle.TheConstants.{MARK_OF_HOST};

use crate::host::host_held::HostHeld;
use crate::host::lodging::Lodging;
use crate::loose::Loose;
use region_heap::Still;
use std::mem;

/// The first word of a handle with a host. A handle without one has any other.
pub const MARK_OF_HOST: u64 = 0x7a43_5052_6174_746c;

/// What C allocates, sets to zero and passes to each call of a host: a host, or none.
#[repr(C)]
pub struct HostHandle {
    /// `MARK_OF_HOST` exactly where there is a host.
    pub mark: u64,
    /// The host, if there is one.
    pub held: HostHeld,
    pub ghost agrees: { (mark ≡ MARK_OF_HOST) ↔ IsSome held.host },
}

impl HostHandle {
    /// All zero: no host.
    fn empty() -> HostHandle
        ensures { result.held.host ≡ None }
    {
        HostHandle {
            mark: 0,
            held: HostHeld::empty(Still {}),
        }
    }

    /// Takes the host out, if there is one.
    pub(crate) fn take(&mut self) -> Option<Box<Lodging, Still>>
        ensures taken { option_map (λ lodging. lodging.value) result ≡ self.old.held.host }
        ensures empty { self.new.held.host ≡ None }
    {
        let HostHandle { mark, held } = mem::replace(self, HostHandle::empty());
        if mark != MARK_OF_HOST {
            held.discard();
            return None;
        }
        Some(held.into_loose().into_box())
    }

    /// Puts a host in, where there is none.
    pub(crate) fn put(&mut self, lodging: Box<Lodging, Still>)
        requires { self.old.held.host ≡ None }
        ensures { self.new.held.host ≡ Some lodging.value }
    {
        let live = HostHandle {
            mark: MARK_OF_HOST,
            held: HostHeld::of(Loose::of(lodging)),
        };
        mem::replace(self, live).discard();
    }

    /// Discards a handle without a host.
    fn discard(self)
        requires { self.held.host ≡ None }
    {
        let HostHandle { mark: _, held } = self;
        held.discard();
    }
}
