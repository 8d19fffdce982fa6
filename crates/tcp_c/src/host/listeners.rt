//! Listeners, and the backlog of each (RFC 9293, 3.10.1 and 3.10.7.2; RFC 4987, 3.2).
ghost use Rattle.std.specs.Prelude.{◌≡◌, IfNone, IfSome, MatchOption, option_map};
ghost use Rattle.tcp_c.specs.Answers.{no_end};
ghost use Rattle.tcp_c.specs.Hosts.{Accepts, Admits, Listens, OnHost, Unlistens, id_of, no_id, too_short};
ghost use Rattle.tcp_host.specs.Pair.{pair_of};

use crate::answers::{BACKLOG_FULL, DONE, GONE, NO_END, NOBODY, TAKEN};
use crate::connection::driven::Driven;
use crate::connection::driven_handle::DrivenHandle;
use crate::host::host_handle::HostHandle;
use crate::host::ids::{id_of, id_told, no_id};
use crate::host::lodger::Lodger;
use crate::host::lodging::Lodging;
use crate::records::{CAddr, CHostId};
use region_heap::Still;
use tcp_conn::ConfigError;
use tcp_host::{NotAdmitted, Pair, Socket, pair_of};
use tcp_table::Id;
use tcp_wire::DecodeError;

impl Lodging {
    /// Somebody listens at a socket, if nobody does.
    fn listen(&mut self, socket: Socket, backlog: usize) -> (u32, CHostId)
        ensures { Listens ⟦<Socket as Ord>⟧.cmp self.old.host self.new.host socket backlog result.0 result.1 }
    {
        if self.host.find_listener(&socket).is_some() {
            return (TAKEN, no_id());
        }
        match self.host.listen(socket, (), backlog) {
            Ok(id) => (DONE, id_told(Some(id))),
            Err(_) => (u32::from(ConfigError::NoMemory.number()), no_id()),
        }
    }

    /// Nobody listens any more where a listener did.
    fn unlisten(&mut self, id: Id) -> u32
        ensures { Unlistens self.old.host self.new.host id result }
    {
        match self.host.unlisten(id) {
            Some(()) => DONE,
            None => GONE,
        }
    }

    /// A connection comes for a listener, if no end has its pair: it comes back where it can't.
    fn admit(
        &mut self,
        origin: Id,
        pair: Pair,
        driven: Box<Driven, Still>,
    ) -> (u32, CHostId, Option<Box<Driven, Still>>)
        ensures { Admits ⟦<Pair as Ord>⟧.cmp self.old.host self.new.host origin pair driven.value (option_map (λ back. back.value) result.2) result.0 result.1 }
    {
        if self.host.find(&pair).is_some() {
            return (TAKEN, no_id(), Some(driven));
        }
        match self.host.admit(origin, pair, Lodger { driven }) {
            Ok(id) => (DONE, id_told(Some(id)), None),
            Err(NotAdmitted::Gone(lodger)) => (GONE, no_id(), Some(lodger.driven)),
            Err(NotAdmitted::Full(lodger)) => (BACKLOG_FULL, no_id(), Some(lodger.driven)),
            Err(NotAdmitted::HasRecord(lodger)) => (TAKEN, no_id(), Some(lodger.driven)),
            Err(NotAdmitted::NoMemory(lodger)) => {
                let answer = u32::from(ConfigError::NoMemory.number());
                (answer, no_id(), Some(lodger.driven))
            }
        }
    }

    /// The end of a listener whose handshake was over first.
    fn accept(&mut self, listener: Id) -> (u32, CHostId)
        ensures { Accepts self.old.host self.new.host listener result.0 result.1 }
    {
        if !self.has_listener(listener) {
            return (GONE, no_id());
        }
        match self.host.accept(listener) {
            Some(id) => (DONE, id_told(Some(id))),
            None => (NOBODY, no_id()),
        }
    }
}

/// Somebody listens at an address and a port from now on, and may have so many connections that aren't accepted
/// (RFC 9293, 3.10.1; RFC 4987, 3.2): reports the listener's name. 60 where somebody does already, 22 where there is no
/// memory in the host's block.
#[unsafe(no_mangle)]
pub extern "C" fn tcp_c_host_listen(
    handle: &mut HostHandle,
    addr: &CAddr,
    port: u16,
    backlog: usize,
    listener: &mut CHostId,
) -> u32
    ensures { OnHost ((result ≡ no_end) × (listener.new ≡ no_id)) (λ old new. Listens ⟦<Socket as Ord>⟧.cmp old new (record { addr = addr.now.byte; port = port }) backlog result listener.new) handle.old.held.host handle.new.held.host }
{
    let Some(mut lodging) = handle.take() else {
        *listener = no_id();
        return NO_END;
    };
    let addr = addr.byte;
    let (answer, id) = lodging.listen(Socket { addr, port }, backlog);
    handle.put(lodging);
    *listener = id;
    answer
}

/// Nobody listens any more where this listener did. The connections that came for it stay. 61 where it is gone.
#[unsafe(no_mangle)]
pub extern "C" fn tcp_c_host_unlisten(handle: &mut HostHandle, listener: &CHostId) -> u32
    ensures { OnHost (result ≡ no_end) (λ old new. Unlistens old new (id_of listener.now) result) handle.old.held.host handle.new.held.host }
{
    let Some(mut lodging) = handle.take() else {
        return NO_END;
    };
    let answer = lodging.unlisten(id_of(listener));
    handle.put(lodging);
    answer
}

/// Moves a connection that listens into the host, for the listener that the segment asks which came from `src` to `dst`:
/// it is in the listener's backlog until it is accepted. Reports its name; the segment comes again then. The struct has no
/// connection any more. 31 where a struct has none, 1 where the bytes are too short for ports, 60 where an end of the host
/// has its four values, or a TIME-WAIT record of it, 61 where the listener is gone, 62 where its backlog is full, 22 where
/// there is no memory in the host's block: then nothing changes.
#[unsafe(no_mangle)]
pub extern "C" fn tcp_c_host_admit(
    handle: &mut HostHandle,
    listener: &CHostId,
    connection: &mut DrivenHandle,
    src: &CAddr,
    dst: &CAddr,
    bytes: &[u8],
    id: &mut CHostId,
) -> u32
    ensures { OnHost ((result ≡ no_end) × (id.new ≡ no_id) × (connection.new.held.end ≡ connection.old.held.end)) (λ old new. MatchOption connection.old.held.end ((result ≡ no_end) × (id.new ≡ no_id) × (new ≡ old) × (connection.new.held.end ≡ None)) (λ d. MatchOption (pair_of src.now.byte dst.now.byte bytes.now) ((result ≡ too_short) × (id.new ≡ no_id) × (new ≡ old) × (connection.new.held.end ≡ Some d)) (λ pair. Admits ⟦<Pair as Ord>⟧.cmp old new (id_of listener.now) pair d connection.new.held.end result id.new))) handle.old.held.host handle.new.held.host }
{
    let Some(mut lodging) = handle.take() else {
        *id = no_id();
        return NO_END;
    };
    let Some(driven) = connection.take() else {
        handle.put(lodging);
        *id = no_id();
        return NO_END;
    };
    let Some(pair) = pair_of(src.byte, dst.byte, bytes) else {
        handle.put(lodging);
        connection.put(driven);
        *id = no_id();
        return u32::from(DecodeError::TooShort.number());
    };
    let (answer, found, back) = lodging.admit(id_of(listener), pair, driven);
    handle.put(lodging);
    connection.put_back(back);
    *id = found;
    answer
}

/// Accepts the connection of a listener whose handshake was over first: reports its name. 63 where there is none, 61
/// where the listener is gone. One that was removed meanwhile is reported, too: no call finds it.
#[unsafe(no_mangle)]
pub extern "C" fn tcp_c_host_accept(
    handle: &mut HostHandle,
    listener: &CHostId,
    id: &mut CHostId,
) -> u32
    ensures { OnHost ((result ≡ no_end) × (id.new ≡ no_id)) (λ old new. Accepts old new (id_of listener.now) result id.new) handle.old.held.host handle.new.held.host }
{
    let Some(mut lodging) = handle.take() else {
        *id = no_id();
        return NO_END;
    };
    let (answer, found) = lodging.accept(id_of(listener));
    handle.put(lodging);
    *id = found;
    answer
}
