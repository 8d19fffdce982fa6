ghost use Rattle.std.specs.Prelude.{◌≡◌, ◌↔◌, IsSome, None, Some, option_map};
ghost use Rattle.tcp_c.specs.declared.connection.driven_handle.TheConstants.{MARK_OF_CONNECTION};

use crate::connection::driven::Driven;
use crate::connection::driven_held::DrivenHeld;
use crate::loose::Loose;
use region_heap::Still;
use std::mem;

/// The first word of a handle with an end that has its timers. A handle without one has any other.
pub const MARK_OF_CONNECTION: u64 = 0x7643_5052_6174_746c;

/// What C allocates, sets to zero and passes to each call of a connection: an end with its timers, or none.
#[repr(C)]
pub struct DrivenHandle {
    /// `MARK_OF_CONNECTION` exactly where there is an end.
    pub mark: u64,
    /// The end, if there is one.
    pub held: DrivenHeld,
    pub ghost agrees: { (mark ≡ MARK_OF_CONNECTION) ↔ IsSome held.end },
}

impl DrivenHandle {
    /// All zero: no end.
    fn empty() -> DrivenHandle
        ensures { result.held.end ≡ None }
    {
        DrivenHandle {
            mark: 0,
            held: DrivenHeld::empty(Still {}),
        }
    }

    /// Takes the end out, if there is one.
    pub(crate) fn take(&mut self) -> Option<Box<Driven, Still>>
        ensures taken { option_map (λ driven. driven.value) result ≡ self.old.held.end }
        ensures empty { self.new.held.end ≡ None }
    {
        let DrivenHandle { mark, held } = mem::replace(self, DrivenHandle::empty());
        if mark != MARK_OF_CONNECTION {
            held.discard();
            return None;
        }
        Some(held.into_loose().into_box())
    }

    /// Puts an end in, where there is none.
    pub(crate) fn put(&mut self, driven: Box<Driven, Still>)
        requires { self.old.held.end ≡ None }
        ensures { self.new.held.end ≡ Some driven.value }
    {
        let live = DrivenHandle {
            mark: MARK_OF_CONNECTION,
            held: DrivenHeld::of(Loose::of(driven)),
        };
        mem::replace(self, live).discard();
    }

    /// Puts an end in, if there is one, where there is none.
    pub(crate) fn put_back(&mut self, driven: Option<Box<Driven, Still>>)
        requires { self.old.held.end ≡ None }
        ensures { self.new.held.end ≡ option_map (λ driven. driven.value) driven }
    {
        if let Some(driven) = driven {
            self.put(driven);
        }
    }

    /// Discards a handle without an end.
    fn discard(self)
        requires { self.held.end ≡ None }
    {
        let DrivenHandle { mark: _, held } = self;
        held.discard();
    }
}
