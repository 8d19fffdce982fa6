//! Which timers an end wants, in one byte.
ghost use Rattle.std.specs.Prelude.{◌≡◌};
ghost use Rattle.tcp_driver.specs.Codes.{bit, code_of};

use crate::machine::Wants;

fn bit(flag: bool) -> u8
    ensures { result ≡ bit flag }
{
    if flag { 1 } else { 0 }
}

/// The code of what is wanted: it is never 0.
#[inline(always)]
pub(crate) fn code_of(wants: Wants) -> u8
    ensures { result ≡ code_of wants }
{
    let main = 16 + bit(wants.retransmit) + 2 * bit(wants.reorder);
    main + 4 * bit(wants.time_wait) + 8 * bit(wants.fin_wait_2)
}
