//! The names that C has for ends and listeners of a host, and where something is.
ghost use Rattle.std.specs.Prelude.{◌≡◌, is_some, option_copied, option_map};
ghost use Rattle.tcp_c.specs.Hosts.{guest_of, id_of, id_told, no_id, place_named, place_number};
ghost use Rattle.tcp_table.specs.Table.{slot_of};

use crate::host::lodger::Lodger;
use crate::host::lodging::Lodging;
use crate::records::CHostId;
use tcp_host::Place;
use tcp_table::Id;

/// Nowhere.
pub const PLACE_NONE: u32 = 0;

/// At an end.
pub const PLACE_END: u32 = 1;

/// At a TIME-WAIT record.
pub const PLACE_RECORD: u32 = 2;

/// At a listener that it asks for a connection.
pub const PLACE_LISTENER: u32 = 3;

/// At a listener whose backlog is full.
pub const PLACE_FULL: u32 = 4;

/// A stray.
pub const PLACE_STRAY: u32 = 5;

/// The handle of C's record.
pub(crate) fn id_of(id: &CHostId) -> Id
    ensures { result ≡ id_of id.now }
{
    Id {
        slot: id.slot,
        number: id.number,
    }
}

/// No name: all zero, as no name is.
pub(crate) fn no_id() -> CHostId
    ensures { result ≡ no_id }
{
    CHostId { number: 0, slot: 0 }
}

/// C's record of a handle.
pub(crate) fn id_told(id: Option<Id>) -> CHostId
    ensures { result ≡ id_told id }
{
    match id {
        Some(id) => CHostId {
            number: id.number,
            slot: id.slot,
        },
        None => no_id(),
    }
}

impl Lodging {
    /// What C calls the end in a place.
    pub(crate) fn named(&self, place: Place) -> CHostId
        ensures { result ≡ place_named self.now.host place }
    {
        match place {
            Place::End(slot) => id_told(self.host.id(slot)),
            Place::Record(_) => no_id(),
        }
    }

    /// Whether a listener is there.
    pub(crate) fn has_listener(&self, id: Id) -> bool
        ensures { result ≡ is_some (slot_of self.now.host.listeners id) }
    {
        match self.host.listener_id(id.slot) {
            Some(found) => found.number == id.number,
            None => false,
        }
    }

    /// Whether an end is there.
    fn has_end(&self, id: Id) -> bool
        ensures { result ≡ is_some (slot_of self.now.host.ends id) }
    {
        match self.host.id(id.slot) {
            Some(found) => found.number == id.number,
            None => false,
        }
    }

    /// The end of a name, while it is there.
    pub(crate) fn lodger(&self, id: Id) -> Option<&Lodger>
        ensures { option_copied result ≡ option_map (λ guest. guest.end) (guest_of self.now.host id) }
    {
        if !self.has_end(id) {
            return None;
        }
        self.host.end(id.slot)
    }
}

/// The number of a place.
pub(crate) fn place_number(place: Place) -> u32
    ensures { result ≡ place_number place }
{
    match place {
        Place::End(_) => PLACE_END,
        Place::Record(_) => PLACE_RECORD,
    }
}
