//! Segments whose checksum a device has checked.
ghost use Rattle.std.specs.Prelude.{◌≡◌, option_map};
ghost use Rattle.tcp_wire.specs.Vouched.{with_right_sum};
ghost use Rattle.tcp_conn.specs.Arrival.{after_arrival, arrival_answer};
ghost use Rattle.tcp_c.specs.Answers.{answer_of, arrival_number};
ghost use Rattle.tcp_c.specs.Reports.{arrive_report_of};

use crate::answers::{NO_END, arrival_number};
use crate::handle::Handle;
use crate::records::{CAddr, CArriveReport};
use crate::reports::{no_arrive_report, report_arrival};
use tcp_wire::Addr;

/// Takes bytes whose checksum a device has found right, and doesn't sum them. Answer and end are those of
/// `tcp_c_arrive` for the same bytes with the checksum field that is right for them (RFC 9293, 3.1 and 3.10.7). The
/// answer is never 3.
#[unsafe(no_mangle)]
pub extern "C" fn tcp_c_arrive_vouched(
    handle: &mut Handle,
    src: &CAddr,
    dst: &CAddr,
    bytes: &[u8],
) -> u32
    ensures answer { result ≡ answer_of (λ s. arrival_number (arrival_answer s src.now.byte dst.now.byte (with_right_sum src.now.byte dst.now.byte bytes.now))) handle.old.held.end }
    ensures state { handle.new.held.end ≡ option_map (λ s. after_arrival s src.now.byte dst.now.byte (with_right_sum src.now.byte dst.now.byte bytes.now)) handle.old.held.end }
{
    let Some(mut end) = handle.take() else {
        return NO_END;
    };
    let answer = end.arrive_vouched(Addr(src.byte), Addr(dst.byte), bytes);
    handle.put(end);
    arrival_number(answer)
}

/// Takes bytes as `tcp_c_arrive_vouched` does, with the report of `tcp_c_arrive_with_report`.
#[unsafe(no_mangle)]
pub extern "C" fn tcp_c_arrive_vouched_with_report(
    handle: &mut Handle,
    src: &CAddr,
    dst: &CAddr,
    bytes: &[u8],
    report: &mut CArriveReport,
) -> u32
    ensures answer { result ≡ answer_of (λ s. arrival_number (arrival_answer s src.now.byte dst.now.byte (with_right_sum src.now.byte dst.now.byte bytes.now))) handle.old.held.end }
    ensures report { report.new ≡ arrive_report_of src.now.byte dst.now.byte (with_right_sum src.now.byte dst.now.byte bytes.now) handle.old.held.end }
    ensures state { handle.new.held.end ≡ option_map (λ s. after_arrival s src.now.byte dst.now.byte (with_right_sum src.now.byte dst.now.byte bytes.now)) handle.old.held.end }
{
    let Some(mut end) = handle.take() else {
        *report = no_arrive_report();
        return NO_END;
    };
    let found = end.take_vouched(Addr(src.byte), Addr(dst.byte), bytes);
    handle.put(end);
    *report = report_arrival(found);
    arrival_number(found.arrival)
}
