//! Connections move into a host and out of it.
ghost use Rattle.std.specs.Prelude.{◌≡◌, MatchOption, None, Some, option_map};
ghost use Rattle.tcp_c.specs.Answers.{in_use, no_end};
ghost use Rattle.tcp_c.specs.Hosts.{OnHost, Opens, Removes, Retires, id_of, no_id, pair_in};

use crate::answers::{DONE, GONE, IN_USE, NO_END, NOT_TIME_WAIT, TAKEN};
use crate::connection::driven::Driven;
use crate::connection::driven_handle::DrivenHandle;
use crate::host::host_handle::HostHandle;
use crate::host::ids::{id_of, id_told, no_id};
use crate::host::lodger::Lodger;
use crate::host::lodging::Lodging;
use crate::records::CHostId;
use region_heap::Still;
use tcp_conn::{CallError, ConfigError};
use tcp_host::{NotOpened, NotRetired, Pair, Socket};
use tcp_table::Id;
use tcp_wire::Addr;

/// The pair of sockets of a connection, once its peer is known.
fn pair_in(driven: &Driven) -> Option<Pair>
    ensures { result ≡ pair_in driven.now }
{
    let end = driven.connection.end();
    let config = end.config();
    let peer = end.peer()?;
    let (Addr(own), Addr(other)) = (config.addr, peer.addr);
    Some(Pair {
        local: Socket {
            addr: own,
            port: config.port,
        },
        peer: Socket {
            addr: other,
            port: peer.port,
        },
    })
}

impl Lodging {
    /// A connection comes, if its peer is known and no end has its pair: it comes back where it can't.
    fn open(&mut self, driven: Box<Driven, Still>) -> (u32, CHostId, Option<Box<Driven, Still>>)
        ensures { Opens ⟦<Pair as Ord>⟧.cmp self.old.host self.new.host driven.value (option_map (λ back. back.value) result.2) result.0 result.1 }
    {
        let Some(pair) = pair_in(&driven) else {
            let answer = u32::from(CallError::NotConnected.number());
            return (answer, no_id(), Some(driven));
        };
        if self.host.find(&pair).is_some() {
            return (TAKEN, no_id(), Some(driven));
        }
        match self.host.open(pair, Lodger { driven }) {
            Ok(id) => (DONE, id_told(Some(id)), None),
            Err(NotOpened::HasRecord(lodger)) => (TAKEN, no_id(), Some(lodger.driven)),
            Err(NotOpened::NoMemory(lodger)) => {
                let answer = u32::from(ConfigError::NoMemory.number());
                (answer, no_id(), Some(lodger.driven))
            }
        }
    }

    /// An end in TIME-WAIT leaves a record, and goes.
    fn retire(&mut self, id: Id) -> (u32, Option<Box<Driven, Still>>)
        ensures { Retires ⟦<Pair as Ord>⟧.cmp self.old.host self.new.host id result.0 (option_map (λ moved. moved.value) result.1) }
    {
        match self.host.retire(id) {
            Ok(lodger) => (DONE, Some(lodger.driven)),
            Err(NotRetired::Gone) => (GONE, None),
            Err(NotRetired::IsActive) => (NOT_TIME_WAIT, None),
            Err(NotRetired::HasRecord) => (TAKEN, None),
            Err(NotRetired::NoMemory) => (u32::from(ConfigError::NoMemory.number()), None),
        }
    }

    /// An end goes.
    fn remove(&mut self, id: Id) -> (u32, Option<Box<Driven, Still>>)
        ensures { Removes self.old.host self.new.host id result.0 (option_map (λ moved. moved.value) result.1) }
    {
        match self.host.remove(id) {
            Some(lodger) => (DONE, Some(lodger.driven)),
            None => (GONE, None),
        }
    }
}

/// Moves a connection into the host, under its own address and port and its peer's: reports its name. The struct has no
/// connection any more. 31 where a struct has none, 16 where the connection has no peer yet, 60 where an end of the host
/// has these four values, or a TIME-WAIT record of it (RFC 9293, 3.10.1), 22 where there is no memory in the host's block:
/// then nothing changes.
#[unsafe(no_mangle)]
pub extern "C" fn tcp_c_host_open(
    handle: &mut HostHandle,
    connection: &mut DrivenHandle,
    id: &mut CHostId,
) -> u32
    ensures { OnHost ((result ≡ no_end) × (id.new ≡ no_id) × (connection.new.held.end ≡ connection.old.held.end)) (λ old new. MatchOption connection.old.held.end ((result ≡ no_end) × (id.new ≡ no_id) × (new ≡ old) × (connection.new.held.end ≡ None)) (λ d. Opens ⟦<Pair as Ord>⟧.cmp old new d connection.new.held.end result id.new)) handle.old.held.host handle.new.held.host }
{
    let Some(mut lodging) = handle.take() else {
        *id = no_id();
        return NO_END;
    };
    let Some(driven) = connection.take() else {
        handle.put(lodging);
        *id = no_id();
        return NO_END;
    };
    let (answer, found, back) = lodging.open(driven);
    handle.put(lodging);
    connection.put_back(back);
    *id = found;
    answer
}

/// A connection in TIME-WAIT gives its place in the host to a record, which answers late segments for it until TIME-WAIT
/// is over (RFC 9293, 3.3.2), and moves into the struct. 61 where it is gone, 57 where it isn't in TIME-WAIT or something
/// is left of it to read or to send, 60 where a record has its four values, 22 where there is no memory in the host's
/// block, 32 where the struct has a connection: then nothing changes.
#[unsafe(no_mangle)]
pub extern "C" fn tcp_c_host_retire(
    handle: &mut HostHandle,
    id: &CHostId,
    connection: &mut DrivenHandle,
) -> u32
    ensures { OnHost ((result ≡ no_end) × (connection.new.held.end ≡ connection.old.held.end)) (λ old new. MatchOption connection.old.held.end (Retires ⟦<Pair as Ord>⟧.cmp old new (id_of id.now) result connection.new.held.end) (λ d. (result ≡ in_use) × (new ≡ old) × (connection.new.held.end ≡ Some d))) handle.old.held.host handle.new.held.host }
{
    let Some(mut lodging) = handle.take() else {
        return NO_END;
    };
    if let Some(held) = connection.take() {
        handle.put(lodging);
        connection.put(held);
        return IN_USE;
    }
    let (answer, moved) = lodging.retire(id_of(id));
    handle.put(lodging);
    connection.put_back(moved);
    answer
}

/// Moves a connection out of the host into the struct: its four values have no end there any more. 61 where it is gone,
/// 32 where the struct has a connection: then nothing changes.
#[unsafe(no_mangle)]
pub extern "C" fn tcp_c_host_remove(
    handle: &mut HostHandle,
    id: &CHostId,
    connection: &mut DrivenHandle,
) -> u32
    ensures { OnHost ((result ≡ no_end) × (connection.new.held.end ≡ connection.old.held.end)) (λ old new. MatchOption connection.old.held.end (Removes old new (id_of id.now) result connection.new.held.end) (λ d. (result ≡ in_use) × (new ≡ old) × (connection.new.held.end ≡ Some d))) handle.old.held.host handle.new.held.host }
{
    let Some(mut lodging) = handle.take() else {
        return NO_END;
    };
    if let Some(held) = connection.take() {
        handle.put(lodging);
        connection.put(held);
        return IN_USE;
    }
    let (answer, moved) = lodging.remove(id_of(id));
    handle.put(lodging);
    connection.put_back(moved);
    answer
}
