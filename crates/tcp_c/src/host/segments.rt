//! Segments that come to a host and go out (RFC 9293, 3.3.1 and 3.10.7).
ghost use Rattle.std.specs.Prelude.{◌≡◌, ◌≤◌, false, length, true};
ghost use Rattle.tcp_conn.specs.declared.emit.transmit.TheConstants.{EMIT_ROOM};
ghost use Rattle.tcp_conn.specs.declared.stray.TheConstants.{RESET_LEN};
ghost use Rattle.tcp_c.specs.Answers.{little_room, no_end};
ghost use Rattle.tcp_c.specs.Hosts.{AnswersStray, Arrives, OnHost, Turns, Within, at_place, late_number, no_id, nothing_sent, number_told, place_address, place_told, report_told, turn_number, turn_told};
ghost use Rattle.tcp_c.specs.Reports.{no_arrive_report};

use crate::answers::{DONE, LITTLE_ROOM, NO_END, NOBODY, NOTHING_DUE, WITHHELD, arrival_number};
use crate::connection::segments::arrival_told;
use crate::host::host_handle::HostHandle;
use crate::host::ids::{
    PLACE_END, PLACE_FULL, PLACE_LISTENER, PLACE_NONE, PLACE_RECORD, PLACE_STRAY, id_told, no_id,
    place_number,
};
use crate::host::lodging::Lodging;
use crate::records::{CAddr, CArriveReport, CHostArrived, CHostId, CHostSent};
use crate::reports::no_arrive_report;
use tcp_conn::{Arrival, EMIT_ROOM, RESET_LEN};
use tcp_driver::{Sent, Taken};
use tcp_host::{Arrived, Pair, Place, Socket, asks};
use tcp_wire::Addr;

/// The answer of a record: a reset counts as lost.
fn late_number(answer: Option<Arrival>) -> u32
    ensures { result ≡ late_number answer }
{
    match answer {
        Some(arrival) => arrival_number(arrival),
        None => WITHHELD,
    }
}

/// The answer to what became of a segment, and the report of a connection.
fn taken_told(arrived: Arrived<Taken<tcp_conn::Taken>>) -> (u32, CArriveReport)
    ensures answer { result.0 ≡ number_told arrived }
    ensures report { result.1 ≡ report_told arrived }
{
    match arrived {
        Arrived::Taken(_, taken) => arrival_told(taken),
        Arrived::Late(_, answer) => (late_number(answer), no_arrive_report()),
        _ => (DONE, no_arrive_report()),
    }
}

/// At a place.
fn at_place(id: CHostId, place: u32) -> CHostArrived
    ensures { result ≡ at_place id place }
{
    CHostArrived { id, place }
}

/// No segment of whose turn it was.
fn nothing_sent(id: CHostId, place: u32) -> CHostSent
    ensures { result ≡ nothing_sent id place }
{
    CHostSent {
        id,
        length: 0,
        position: 0,
        count: 0,
        from: CAddr { byte: [0; 4] },
        to: CAddr { byte: [0; 4] },
        place,
    }
}

impl Lodging {
    /// Whose a segment is.
    fn place_told(&self, arrived: &Arrived<Taken<tcp_conn::Taken>>, is_asking: bool) -> CHostArrived
        ensures { result ≡ place_told self.now.host is_asking arrived.now }
    {
        match arrived {
            Arrived::Taken(slot, _) => at_place(id_told(self.host.id(*slot)), PLACE_END),
            Arrived::Late(_, _) => at_place(no_id(), PLACE_RECORD),
            Arrived::Listening(slot) => {
                if is_asking {
                    at_place(id_told(self.host.listener_id(*slot)), PLACE_LISTENER)
                } else {
                    at_place(no_id(), PLACE_STRAY)
                }
            }
            Arrived::Full(slot) => {
                if is_asking {
                    at_place(id_told(self.host.listener_id(*slot)), PLACE_FULL)
                } else {
                    at_place(no_id(), PLACE_STRAY)
                }
            }
            Arrived::Stray => at_place(no_id(), PLACE_STRAY),
            Arrived::Short => at_place(no_id(), PLACE_NONE),
        }
    }

    /// A segment comes, which is summed.
    fn arrive(
        &mut self,
        now: u64,
        src: [u8; 4],
        dst: [u8; 4],
        bytes: &[u8],
    ) -> (u32, CHostArrived, CArriveReport)
        ensures { Arrives ⟦<Pair as Ord>⟧.cmp ⟦<Socket as Ord>⟧.cmp self.old.host self.new.host now src dst bytes.now false result.0 result.1 result.2 }
    {
        let found = self.host.arrive(now, src, dst, bytes);
        let place = self.place_told(&found, asks(bytes));
        let (answer, report) = taken_told(found);
        (answer, place, report)
    }

    /// A segment comes, which a device has vouched for.
    fn arrive_vouched(
        &mut self,
        now: u64,
        src: [u8; 4],
        dst: [u8; 4],
        bytes: &[u8],
    ) -> (u32, CHostArrived, CArriveReport)
        ensures { Arrives ⟦<Pair as Ord>⟧.cmp ⟦<Socket as Ord>⟧.cmp self.old.host self.new.host now src dst bytes.now true result.0 result.1 result.2 }
    {
        let found = self.host.arrive_vouched(now, src, dst, bytes);
        let place = self.place_told(&found, asks(bytes));
        let (answer, report) = taken_told(found);
        (answer, place, report)
    }

    /// A stray is answered, or isn't: the answer, and the length.
    fn stray(
        &mut self,
        now: u64,
        src: [u8; 4],
        dst: [u8; 4],
        bytes: &[u8],
        out: &mut [u8],
    ) -> (u32, usize)
        requires { RESET_LEN ≤ length out.old }
        ensures { AnswersStray ⟦<Pair as Ord>⟧.cmp ⟦<Socket as Ord>⟧.cmp self.old.host self.new.host now src dst bytes.now out.old out.new result.0 result.1 }
    {
        match self.host.stray(now, src, dst, bytes, out) {
            Some(_) => (DONE, RESET_LEN),
            None => (NOTHING_DUE, 0),
        }
    }

    /// The address of the end or the record in a place.
    fn address(&self, place: Place) -> [u8; 4]
        ensures { result ≡ place_address self.now.host place }
    {
        match place {
            Place::End(slot) => match self.host.end(slot) {
                Some(lodger) => {
                    let end = lodger.driven.connection.end();
                    let Addr(byte) = end.config().addr;
                    byte
                }
                None => [0; 4],
            },
            Place::Record(slot) => match self.host.record(slot) {
                Some(record) => {
                    let Addr(byte) = record.time_wait.fields().addr;
                    byte
                }
                None => [0; 4],
            },
        }
    }

    /// What is reported of a turn.
    fn turn_told(&self, turn: Option<(Place, Option<Sent>)>) -> (u32, CHostSent)
        ensures answer { result.0 ≡ turn_number turn }
        ensures report { result.1 ≡ turn_told self.now.host turn }
    {
        let Some((place, sent)) = turn else {
            return (NOBODY, nothing_sent(no_id(), PLACE_NONE));
        };
        let Some(sent) = sent else {
            return (
                NOTHING_DUE,
                nothing_sent(self.named(place), place_number(place)),
            );
        };
        let (from, to) = (self.address(place), sent.to);
        let told = CHostSent {
            id: self.named(place),
            length: sent.len,
            position: sent.start,
            count: sent.count,
            from: CAddr { byte: from },
            to: CAddr { byte: to },
            place: place_number(place),
        };
        (DONE, told)
    }

    /// Whose turn it is has its turn.
    fn emit(&mut self, now: u64, window: u64, out: &mut [u8]) -> (u32, CHostSent)
        requires { EMIT_ROOM ≤ length out.old }
        ensures { Turns self.old.host self.new.host now window out.old out.new result.0 result.1 }
    {
        let turn = self.host.emit(now, window, out);
        self.turn_told(turn)
    }
}

/// Takes bytes that came from `src` to `dst` at `now` (RFC 9293, 3.3.1 and 3.10.7): the end of their four values takes
/// them, or where there is none its TIME-WAIT record; no other one changes. Reports whose they are, and of an end the
/// report of [`tcp_c_connection_arrive`](crate::tcp_c_connection_arrive), whose answers these are; of a record, as of
/// [`tcp_c_time_wait_arrive`](crate::tcp_c_time_wait_arrive), and 59 for a reset (RFC 1337, 3). Else 0, and nothing
/// changes: where they ask a listener for a connection, that is reported; where its backlog is full, they are dropped; what
/// else is nobody's is a stray's, for [`tcp_c_host_stray`].
#[unsafe(no_mangle)]
pub extern "C" fn tcp_c_host_arrive(
    handle: &mut HostHandle,
    now: u64,
    src: &CAddr,
    dst: &CAddr,
    bytes: &[u8],
    arrived: &mut CHostArrived,
    report: &mut CArriveReport,
) -> u32
    ensures { OnHost ((result ≡ no_end) × (arrived.new ≡ at_place no_id 0) × (report.new ≡ no_arrive_report)) (λ old new. Arrives ⟦<Pair as Ord>⟧.cmp ⟦<Socket as Ord>⟧.cmp old new now src.now.byte dst.now.byte bytes.now false result arrived.new report.new) handle.old.held.host handle.new.held.host }
{
    let Some(mut lodging) = handle.take() else {
        *arrived = at_place(no_id(), PLACE_NONE);
        *report = no_arrive_report();
        return NO_END;
    };
    let (answer, place, told) = lodging.arrive(now, src.byte, dst.byte, bytes);
    handle.put(lodging);
    *arrived = place;
    *report = told;
    answer
}

/// Takes bytes whose checksum a device has found right as [`tcp_c_host_arrive`] does, and an end doesn't sum them (RFC 9293, 3.1). A
/// record does, and so does [`tcp_c_host_stray`]: where the device has left the sum out it is made before.
#[unsafe(no_mangle)]
pub extern "C" fn tcp_c_host_arrive_vouched(
    handle: &mut HostHandle,
    now: u64,
    src: &CAddr,
    dst: &CAddr,
    bytes: &[u8],
    arrived: &mut CHostArrived,
    report: &mut CArriveReport,
) -> u32
    ensures { OnHost ((result ≡ no_end) × (arrived.new ≡ at_place no_id 0) × (report.new ≡ no_arrive_report)) (λ old new. Arrives ⟦<Pair as Ord>⟧.cmp ⟦<Socket as Ord>⟧.cmp old new now src.now.byte dst.now.byte bytes.now true result arrived.new report.new) handle.old.held.host handle.new.held.host }
{
    let Some(mut lodging) = handle.take() else {
        *arrived = at_place(no_id(), PLACE_NONE);
        *report = no_arrive_report();
        return NO_END;
    };
    let (answer, place, told) = lodging.arrive_vouched(now, src.byte, dst.byte, bytes);
    handle.put(lodging);
    *arrived = place;
    *report = told;
    answer
}

/// Writes the reset that answers a stray from `src` to `dst` at `now` into the front of `out`, and reports its length
/// (RFC 9293, 3.10.7.1 and 3.10.7.2, second). 53 where none goes out: an end, a record or a listener has the bytes, they
/// are no segment or a reset, or another one was answered less than the interval ago (RFC 5961, 7). 33 where `out` has
/// less than [`RESET_LEN`] bytes.
#[unsafe(no_mangle)]
pub extern "C" fn tcp_c_host_stray(
    handle: &mut HostHandle,
    now: u64,
    src: &CAddr,
    dst: &CAddr,
    bytes: &[u8],
    out: &mut [u8],
    count: &mut usize,
) -> u32
    ensures { OnHost ((result ≡ no_end) × (count.new ≡ 0) × (out.new ≡ out.old)) (λ old new. Within RESET_LEN (length out.old) ((result ≡ little_room) × (count.new ≡ 0) × (out.new ≡ out.old) × (new ≡ old)) (AnswersStray ⟦<Pair as Ord>⟧.cmp ⟦<Socket as Ord>⟧.cmp old new now src.now.byte dst.now.byte bytes.now out.old out.new result count.new)) handle.old.held.host handle.new.held.host }
{
    let Some(mut lodging) = handle.take() else {
        *count = 0;
        return NO_END;
    };
    if out.len() < RESET_LEN {
        handle.put(lodging);
        *count = 0;
        return LITTLE_ROOM;
    }
    let (answer, written) = lodging.stray(now, src.byte, dst.byte, bytes, out);
    handle.put(lodging);
    *count = written;
    answer
}

/// Whose turn it is has its turn at `now`: writes what may go out within `window`, as
/// [`tcp_c_connection_emit`](crate::tcp_c_connection_emit) does, into the front of `out`, and reports it. 53 where
/// whose turn it was has nothing that may: call again. 63 where nobody waits. 33 where `out` has less than [`EMIT_ROOM`]
/// bytes: then nothing changes.
#[unsafe(no_mangle)]
pub extern "C" fn tcp_c_host_emit(
    handle: &mut HostHandle,
    now: u64,
    window: u64,
    out: &mut [u8],
    sent: &mut CHostSent,
) -> u32
    ensures { OnHost ((result ≡ no_end) × (sent.new ≡ nothing_sent no_id 0) × (out.new ≡ out.old)) (λ old new. Within EMIT_ROOM (length out.old) ((result ≡ little_room) × (sent.new ≡ nothing_sent no_id 0) × (out.new ≡ out.old) × (new ≡ old)) (Turns old new now window out.old out.new result sent.new)) handle.old.held.host handle.new.held.host }
{
    let Some(mut lodging) = handle.take() else {
        *sent = nothing_sent(no_id(), PLACE_NONE);
        return NO_END;
    };
    if out.len() < EMIT_ROOM {
        handle.put(lodging);
        *sent = nothing_sent(no_id(), PLACE_NONE);
        return LITTLE_ROOM;
    }
    let (answer, told) = lodging.emit(now, window, out);
    handle.put(lodging);
    *sent = told;
    answer
}
