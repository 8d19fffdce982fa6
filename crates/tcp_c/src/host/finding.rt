//! Which connection of a host has four values (RFC 9293, 3.3.1).
ghost use Rattle.std.specs.Prelude.{◌≡◌};
ghost use Rattle.tcp_c.specs.Answers.{no_end};
ghost use Rattle.tcp_c.specs.Hosts.{Finds, OnHost, no_id, pair_between};

use crate::answers::{DONE, NO_END, NOBODY};
use crate::host::host_handle::HostHandle;
use crate::host::ids::{id_told, no_id};
use crate::host::lodging::Lodging;
use crate::records::{CAddr, CHostId};
use tcp_host::{Pair, Socket};

/// The pair of a connection's address and port and its peer's.
fn pair_between(addr: &CAddr, port: u16, peer_addr: &CAddr, peer_port: u16) -> Pair
    ensures { result ≡ pair_between addr.now.byte port peer_addr.now.byte peer_port }
{
    let local = Socket {
        addr: addr.byte,
        port,
    };
    let peer = Socket {
        addr: peer_addr.byte,
        port: peer_port,
    };
    Pair { local, peer }
}

impl Lodging {
    /// The end of a pair: the answer, and its name.
    fn find(&self, pair: &Pair) -> (u32, CHostId)
        ensures { Finds ⟦<Pair as Ord>⟧.cmp self.now.host pair.now result.0 result.1 }
    {
        match self.host.find(pair) {
            Some(slot) => (DONE, id_told(self.host.id(slot))),
            None => (NOBODY, no_id()),
        }
    }
}

/// Reports the name of the connection with this address and port and this peer (RFC 9293, 3.3.1): of what an ICMP error
/// is about, say. 63 where there is none.
#[unsafe(no_mangle)]
pub extern "C" fn tcp_c_host_find(
    handle: &mut HostHandle,
    addr: &CAddr,
    port: u16,
    peer_addr: &CAddr,
    peer_port: u16,
    id: &mut CHostId,
) -> u32
    ensures found { OnHost ((result ≡ no_end) × (id.new ≡ no_id)) (λ old new. Finds ⟦<Pair as Ord>⟧.cmp old (pair_between addr.now.byte port peer_addr.now.byte peer_port) result id.new) handle.old.held.host handle.new.held.host }
    ensures state { handle.new.held.host ≡ handle.old.held.host }
{
    let Some(lodging) = handle.take() else {
        *id = no_id();
        return NO_END;
    };
    let (answer, found) = lodging.find(&pair_between(addr, port, peer_addr, peer_port));
    handle.put(lodging);
    *id = found;
    answer
}
