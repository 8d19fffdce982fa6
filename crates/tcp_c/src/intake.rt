//! Segments that come in past a guard, summed or vouched for.
ghost use Rattle.std.specs.Prelude.{◌≡◌, option_map};
ghost use Rattle.tcp_conn.specs.Guard.{after_intake, intake_answer};
ghost use Rattle.tcp_c.specs.Answers.{answer_of, arrival_number};
ghost use Rattle.tcp_c.specs.Intakes.{intake_of, intake_report_of};

use crate::answers::{NO_END, arrival_number};
use crate::connection::rules::reach_of;
use crate::handle::Handle;
use crate::records::{CAddr, CArriveReport, CIntake};
use crate::reports::{no_arrive_report, report_arrival};
use tcp_conn::Intake;
use tcp_wire::Addr;

/// How bytes come in.
fn intake_of(intake: &CIntake) -> Intake
    ensures { result ≡ intake_of intake.now }
{
    Intake {
        is_vouched: intake.is_vouched != 0,
        guard: reach_of(intake.guard),
    }
}

/// Takes bytes that came from `src` to `dst` in this way, with the report of
/// [`tcp_c_arrive_with_report`](crate::tcp_c_arrive_with_report), and answers as that does (RFC 9293, 3.10.7). What the guard keeps out
/// counts as unacceptable: it is dropped, and an acknowledgement is due (RFC 5961, 5.2). The answer is never 3 where a device has found
/// the checksum right.
#[unsafe(no_mangle)]
pub extern "C" fn tcp_c_arrive_by(
    handle: &mut Handle,
    src: &CAddr,
    dst: &CAddr,
    bytes: &[u8],
    intake: &CIntake,
    report: &mut CArriveReport,
) -> u32
    ensures answer { result ≡ answer_of (λ s. arrival_number (intake_answer (intake_of intake.now) s src.now.byte dst.now.byte bytes.now)) handle.old.held.end }
    ensures report { report.new ≡ intake_report_of (intake_of intake.now) src.now.byte dst.now.byte bytes.now handle.old.held.end }
    ensures state { handle.new.held.end ≡ option_map (λ s. after_intake (intake_of intake.now) s src.now.byte dst.now.byte bytes.now) handle.old.held.end }
{
    let Some(mut end) = handle.take() else {
        *report = no_arrive_report();
        return NO_END;
    };
    let found = end.take_with(Addr(src.byte), Addr(dst.byte), bytes, intake_of(intake));
    handle.put(end);
    *report = report_arrival(found);
    arrival_number(found.arrival)
}
