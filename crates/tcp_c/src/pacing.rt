//! What is in flight once more, for a sender that finds losses by itself.
ghost use Rattle.std.specs.Prelude.{◌≡◌, option_map};
ghost use Rattle.tcp_conn.specs.Timers.{after_resend, after_resend_first};
ghost use Rattle.tcp_c.specs.Answers.{answer_of};
ghost use Rattle.tcp_c.specs.Pacing.{resend_number, stretch_number};

use crate::answers::{DONE, NO_END, NO_RULE};
use crate::handle::Handle;

/// Of what is in flight, as much as one segment carries must be sent again, from SND.UNA on, and then new data (RFC 5681, 3.2;
/// RFC 6582, 3.2). Where the text leaves room in it for the FIN behind it the FIN, too, which goes out by itself. 54 where
/// nothing is in flight: then nothing changes.
#[unsafe(no_mangle)]
pub extern "C" fn tcp_c_resend_first(handle: &mut Handle) -> u32
    ensures answer { result ≡ answer_of resend_number handle.old.held.end }
    ensures state { handle.new.held.end ≡ option_map after_resend_first handle.old.held.end }
{
    let Some(mut end) = handle.take() else {
        return NO_END;
    };
    let again = end.resend_first();
    handle.put(end);
    if again { DONE } else { NO_RULE }
}

/// Of what is in flight, what lies from the position `from` on and before `to` must be sent again, and nothing else of it, and then new data
/// (RFC 6675, 5; RFC 8985, 6.2). Positions count from the SYN, which is at 0. 54 where nothing in flight lies there: then nothing changes.
#[unsafe(no_mangle)]
pub extern "C" fn tcp_c_resend(handle: &mut Handle, from: u64, to: u64) -> u32
    ensures answer { result ≡ answer_of (stretch_number from to) handle.old.held.end }
    ensures state { handle.new.held.end ≡ option_map (λ s. after_resend s from to) handle.old.held.end }
{
    let Some(mut end) = handle.take() else {
        return NO_END;
    };
    let again = end.resend(from, to);
    handle.put(end);
    if again { DONE } else { NO_RULE }
}
