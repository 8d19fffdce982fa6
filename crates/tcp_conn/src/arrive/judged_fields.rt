//! What the judgement of a segment reads of an end.
ghost use Rattle.std.specs.Prelude.{◌<◌, ◌≤◌, ◌^◌};
ghost use Rattle.tcp_reasm.specs.Reassembly.{max_capacity};

use tcp_wire::Seq;

/// What is read of an end whose peer is known to judge a segment (RFC 9293, 3.10.7.4).
#[derive(Clone, Copy)]
pub(crate) struct JudgedFields {
    /// RCV.NXT.
    pub(crate) rcv_nxt: Seq,
    /// RCV.WND in bytes.
    pub(crate) rcv_wnd: u32,
    /// Whether it is in SYN-RECEIVED.
    pub(crate) is_syn_received: bool,
    /// The number of position 0 of its direction.
    pub(crate) isn: Seq,
    /// SND.UNA and SND.NXT as positions.
    pub(crate) snd_una: u64,
    pub(crate) snd_nxt: u64,
    pub(crate) ghost window_fits: { rcv_wnd ≤ max_capacity },
    pub(crate) ghost una_fits: { snd_una < 2 ^ 63 },
}
