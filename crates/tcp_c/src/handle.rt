ghost use Rattle.std.specs.Prelude.{◌≡◌, ◌↔◌, IsSome, None, Some, option_map};
ghost use Rattle.tcp_c.specs.declared.handle.TheConstants.{MARK_OF_LIVE};

use crate::held::Held;
use crate::loose::Loose;
use region_heap::{Region, Still};
use std::mem;
use tcp_conn::Endpoint;

/// The first word of a handle with an end. A handle without one has any other.
pub const MARK_OF_LIVE: u64 = 0x7443_5052_6174_746c;

/// What C allocates, sets to zero and passes to each call: an end, or none.
#[repr(C)]
pub struct Handle {
    /// `MARK_OF_LIVE` exactly where there is an end.
    pub mark: u64,
    /// The end, if there is one.
    pub held: Held,
    pub ghost agrees: { (mark ≡ MARK_OF_LIVE) ↔ IsSome held.end },
}

impl Handle {
    /// All zero: no end.
    fn empty() -> Handle
        ensures { result.held.end ≡ None }
    {
        Handle {
            mark: 0,
            held: Held::empty(Still {}),
        }
    }

    /// Takes the end out, if there is one.
    pub(crate) fn take(&mut self) -> Option<Box<Endpoint<Region>, Still>>
        ensures taken { option_map (λ end. end.value) result ≡ self.old.held.end }
        ensures empty { self.new.held.end ≡ None }
    {
        let Handle { mark, held } = mem::replace(self, Handle::empty());
        if mark != MARK_OF_LIVE {
            held.discard();
            return None;
        }
        Some(held.into_loose().into_box())
    }

    /// Puts an end in, where there is none.
    pub(crate) fn put(&mut self, end: Box<Endpoint<Region>, Still>)
        requires { self.old.held.end ≡ None }
        ensures { self.new.held.end ≡ Some end.value }
    {
        let live = Handle {
            mark: MARK_OF_LIVE,
            held: Held::of(Loose::of(end)),
        };
        mem::replace(self, live).discard();
    }

    /// Discards a handle without an end.
    fn discard(self)
        requires { self.held.end ≡ None }
    {
        let Handle { mark: _, held } = self;
        held.discard();
    }
}
