//! What is reported of an end.
ghost use Rattle.std.specs.Prelude.{◌≡◌, Some};
ghost use Rattle.tcp_conn.specs.Status.{peer_of};
ghost use Rattle.tcp_c.specs.Answers.{done, answer_of, number_written};
ghost use Rattle.tcp_c.specs.Status.{phase_number, ending_number, agreed, address_told, no_status, status_of, peer_found, peer_number, peer_address, port_told, length_due};

use crate::answers::{DONE, NO_END};
use crate::handle::Handle;
use crate::records::{CAddr, CStatus};
use region_heap::Region;
use tcp_conn::{CallError, Ending, Endpoint, Negotiated, Peer, Phase};
use tcp_wire::Addr;

/// The number of a phase, in the order of RFC 9293, 3.3.2.
pub(crate) fn phase_number(phase: Phase) -> u32
    ensures { result ≡ phase_number phase }
{
    match phase {
        Phase::Closed => 0,
        Phase::Listen => 1,
        Phase::SynSent => 2,
        Phase::SynReceived => 3,
        Phase::Established => 4,
        Phase::FinWait1 => 5,
        Phase::FinWait2 => 6,
        Phase::CloseWait => 7,
        Phase::Closing => 8,
        Phase::LastAck => 9,
        Phase::TimeWait => 10,
    }
}

/// The number of an ending.
pub(crate) fn ending_number(ending: Ending) -> u16
    ensures { result ≡ ending_number ending }
{
    match ending {
        Ending::NotEnded => 0,
        Ending::Orderly => 1,
        Ending::Reset => 2,
        Ending::Aborted => 3,
    }
}

/// What the two SYNs agreed on; nothing before the peer's was taken.
fn agreed(end: &Endpoint<Region>) -> Negotiated
    ensures { result ≡ agreed end.now }
{
    end.negotiated().unwrap_or(Negotiated {
        mss: 0,
        scaling: false,
        own_shift: 0,
        peer_shift: 0,
        sack: false,
    })
}

/// No status: all zero.
pub(crate) fn no_status() -> CStatus
    ensures { result ≡ no_status }
{
    CStatus {
        phase: 0,
        ending: 0,
        unread: 0,
        released: 0,
        ordered: 0,
        snd_una: 0,
        rcv_position: 0,
        room: 0,
        queued: 0,
        in_flight: 0,
        mss: 0,
        own_shift: 0,
        peer_shift: 0,
        scaling: 0,
        sack: 0,
        snd_wnd: 0,
        rcv_wnd: 0,
        snd_nxt: 0,
        closing: 0,
        finished: 0,
    }
}

/// What is reported of this end.
pub(crate) fn status_of(end: &Endpoint<Region>) -> CStatus
    ensures { result ≡ status_of (Some end.now) }
{
    let agreed = agreed(end);
    CStatus {
        phase: phase_number(end.phase()),
        ending: u32::from(ending_number(end.ending())),
        unread: end.unread(),
        released: end.released(),
        ordered: end.ordered(),
        snd_una: end.snd_una(),
        rcv_position: end.rcv_position(),
        room: end.room(),
        queued: end.queued(),
        in_flight: end.in_flight(),
        mss: u32::from(agreed.mss),
        own_shift: agreed.own_shift,
        peer_shift: agreed.peer_shift,
        scaling: u8::from(agreed.scaling),
        sack: u8::from(agreed.sack),
        snd_wnd: end.windows().1,
        rcv_wnd: end.windows().0,
        snd_nxt: end.snd_nxt(),
        closing: u32::from(end.is_closing()),
        finished: u32::from(end.is_finished()),
    }
}

/// Reports the phase, the ending, the counts, the positions, and what the SYNs agreed on (RFC 9293, 3.10.6); all zero
/// where there is no end.
#[unsafe(no_mangle)]
pub extern "C" fn tcp_c_status(handle: &mut Handle, status: &mut CStatus) -> u32
    ensures answer { result ≡ answer_of (λ _. done) handle.old.held.end }
    ensures status { status.new ≡ status_of handle.old.held.end }
    ensures state { handle.new.held.end ≡ handle.old.held.end }
{
    let Some(end) = handle.take() else {
        *status = no_status();
        return NO_END;
    };
    *status = status_of(&end);
    handle.put(end);
    DONE
}

/// Reports this peer, if one is known; else zeros.
pub(crate) fn report_peer(peer: Option<Peer>, addr: &mut CAddr, port: &mut u16) -> u32
    ensures answer { result ≡ peer_found peer }
    ensures addr { addr.new.byte ≡ address_told peer }
    ensures port { port.new ≡ port_told peer }
{
    addr.byte = [0; 4];
    *port = 0;
    let Some(peer) = peer else {
        return u32::from(CallError::NotConnected.number());
    };
    let Addr(byte) = peer.addr;
    addr.byte = byte;
    *port = peer.port;
    DONE
}

/// Reports the peer's address and port: from `tcp_c_connect` on, or from the SYN that came in LISTEN on, also after the
/// connection has ended (RFC 9293, 3.10.6). 16, and zeros, before.
#[unsafe(no_mangle)]
pub extern "C" fn tcp_c_peer(handle: &mut Handle, addr: &mut CAddr, port: &mut u16) -> u32
    ensures answer { result ≡ answer_of peer_number handle.old.held.end }
    ensures addr { addr.new.byte ≡ peer_address handle.old.held.end }
    ensures port { port.new ≡ number_written (λ s. port_told (peer_of s)) handle.old.held.end }
    ensures state { handle.new.held.end ≡ handle.old.held.end }
{
    let Some(end) = handle.take() else {
        addr.byte = [0; 4];
        *port = 0;
        return NO_END;
    };
    let peer = end.peer();
    handle.put(end);
    report_peer(peer, addr, port)
}

/// Reports the length of the segment that `tcp_c_emit` would write now, 0 where none is due.
#[unsafe(no_mangle)]
pub extern "C" fn tcp_c_pending(handle: &mut Handle, due: &mut u32) -> u32
    ensures answer { result ≡ answer_of (λ _. done) handle.old.held.end }
    ensures due { due.new ≡ number_written length_due handle.old.held.end }
    ensures state { handle.new.held.end ≡ handle.old.held.end }
{
    *due = 0;
    let Some(end) = handle.take() else {
        return NO_END;
    };
    let pending = end.pending();
    handle.put(end);
    if let Some(len) = pending {
        *due = len as u32;
    }
    DONE
}
