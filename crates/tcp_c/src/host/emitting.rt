//! What a connection in a host emits by its name, alone, or as one for a device that cuts segments and computes their checksums.
ghost use Rattle.std.specs.Prelude.{◌≡◌, ◌≤◌, length, option_map};
ghost use Rattle.tcp_conn.specs.declared.emit.transmit.TheConstants.{EMIT_ROOM};
ghost use Rattle.tcp_c.specs.Answers.{little_room, no_end};
ghost use Rattle.tcp_c.specs.ConnectionTrains.{train_answer, train_found};
ghost use Rattle.tcp_c.specs.Connections.{no_segment};
ghost use Rattle.tcp_c.specs.HostEmissions.{EmitsAlone, EmitsTrain, lodger_train, lodger_trained, train_written_by, written_by};
ghost use Rattle.tcp_c.specs.Hosts.{OnHost, Within, after_use, guest_of, id_of};
ghost use Rattle.tcp_c.specs.Lodgers.{of_lodger};
ghost use Rattle.tcp_c.specs.Trains.{no_train};

use crate::answers::{DONE, GONE, LITTLE_ROOM, NO_END, NOTHING_DUE};
use crate::connection::segments::{emission_told, no_segment};
use crate::host::host_handle::HostHandle;
use crate::host::ids::id_of;
use crate::host::lodging::Lodging;
use crate::records::{CConnectionSegment, CHostId, CTrain};
use crate::trains::{no_train, record_of};
use tcp_conn::{EMIT_ROOM, Train};
use tcp_driver::Sent;
use tcp_table::Id;

/// What is reported of segments as one: the answer, and their record.
fn train_told(sent: Option<Train>) -> (u32, CTrain)
    ensures answer { result.0 ≡ train_answer sent }
    ensures train { result.1 ≡ train_found sent }
{
    match sent {
        Some(sent) => (DONE, record_of(sent)),
        None => (NOTHING_DUE, no_train()),
    }
}

impl Lodging {
    /// An end emits.
    fn emit_of(&mut self, now: u64, id: Id, window: u64, out: &mut [u8]) -> Option<Option<Sent>>
        requires { EMIT_ROOM ≤ length out.old }
        ensures sent { result ≡ option_map (λ guest. of_lodger.emission guest.end now window) (guest_of self.old.host id) }
        ensures written { out.new ≡ written_by now window out.old (guest_of self.old.host id) }
        ensures state { self.new ≡ after_use id (λ g. of_lodger.emitted g now window) self.old }
    {
        self.host.emit_by_id(now, id, window, out)
    }

    /// An end emits: the answer, and what is reported.
    fn emit_by_id(
        &mut self,
        now: u64,
        id: Id,
        window: u64,
        out: &mut [u8],
    ) -> (u32, CConnectionSegment)
        requires { EMIT_ROOM ≤ length out.old }
        ensures { EmitsAlone self.old.host self.new.host id now window out.old out.new result.0 result.1 }
    {
        match self.emit_of(now, id, window, out) {
            Some(sent) => emission_told(sent),
            None => (GONE, no_segment()),
        }
    }

    /// An end emits segments as one.
    fn emit_as_one(
        &mut self,
        now: u64,
        id: Id,
        window: u64,
        out: &mut [u8],
        most: usize,
    ) -> Option<Option<Train>>
        requires { EMIT_ROOM ≤ length out.old }
        ensures train { result ≡ option_map (λ guest. lodger_train guest.end now window most (length out.old)) (guest_of self.old.host id) }
        ensures written { out.new ≡ train_written_by now window most out.old (guest_of self.old.host id) }
        ensures state { self.new ≡ after_use id (λ g. lodger_trained g now window most (length out.old)) self.old }
    {
        self.host.emit_train(now, id, window, out, most)
    }

    /// An end emits segments as one: the answer, and what is reported.
    fn emit_train(
        &mut self,
        now: u64,
        id: Id,
        window: u64,
        out: &mut [u8],
        most: usize,
    ) -> (u32, CTrain)
        requires { EMIT_ROOM ≤ length out.old }
        ensures { EmitsTrain self.old.host self.new.host id now window most out.old out.new result.0 result.1 }
    {
        match self.emit_as_one(now, id, window, out, most) {
            Some(sent) => train_told(sent),
            None => (GONE, no_train()),
        }
    }
}

/// Writes the segment of a connection that is due at `now`, and reports it, as
/// [`tcp_c_connection_emit`](crate::tcp_c_connection_emit) does, whosever turn it is. 61 where the end is gone, 53 where none
/// goes out. 33 where `out` has less than [`EMIT_ROOM`] bytes: then nothing changes.
#[unsafe(no_mangle)]
pub extern "C" fn tcp_c_host_emit_by_id(
    handle: &mut HostHandle,
    now: u64,
    id: &CHostId,
    window: u64,
    out: &mut [u8],
    segment: &mut CConnectionSegment,
) -> u32
    ensures { OnHost ((result ≡ no_end) × (segment.new ≡ no_segment) × (out.new ≡ out.old)) (λ old new. Within EMIT_ROOM (length out.old) ((result ≡ little_room) × (segment.new ≡ no_segment) × (out.new ≡ out.old) × (new ≡ old)) (EmitsAlone old new (id_of id.now) now window out.old out.new result segment.new)) handle.old.held.host handle.new.held.host }
{
    let Some(mut lodging) = handle.take() else {
        *segment = no_segment();
        return NO_END;
    };
    if out.len() < EMIT_ROOM {
        handle.put(lodging);
        *segment = no_segment();
        return LITTLE_ROOM;
    }
    let (answer, told) = lodging.emit_by_id(now, id_of(id), window, out);
    handle.put(lodging);
    *segment = told;
    answer
}

/// Writes the segments of a connection that may go out at `now` as one, for a device that cuts them and computes their checksums, as
/// [`tcp_c_connection_emit_train`](crate::tcp_c_connection_emit_train) does, whosever turn it is, and reports them. 61 where the end is
/// gone, 53 where none goes out. 33 where `out` has less than [`EMIT_ROOM`] bytes: then nothing changes.
#[unsafe(no_mangle)]
pub extern "C" fn tcp_c_host_emit_train(
    handle: &mut HostHandle,
    now: u64,
    id: &CHostId,
    window: u64,
    out: &mut [u8],
    most: usize,
    train: &mut CTrain,
) -> u32
    ensures { OnHost ((result ≡ no_end) × (train.new ≡ no_train) × (out.new ≡ out.old)) (λ old new. Within EMIT_ROOM (length out.old) ((result ≡ little_room) × (train.new ≡ no_train) × (out.new ≡ out.old) × (new ≡ old)) (EmitsTrain old new (id_of id.now) now window most out.old out.new result train.new)) handle.old.held.host handle.new.held.host }
{
    let Some(mut lodging) = handle.take() else {
        *train = no_train();
        return NO_END;
    };
    if out.len() < EMIT_ROOM {
        handle.put(lodging);
        *train = no_train();
        return LITTLE_ROOM;
    }
    let (answer, told) = lodging.emit_train(now, id_of(id), window, out, most);
    handle.put(lodging);
    *train = told;
    answer
}
