ghost use Rattle.std.specs.Prelude.{◌≡◌, ◌≤◌, ◌+◌};
ghost use Rattle.tcp_reasm.specs.Reassembly.{max_capacity};
ghost use Rattle.tcp_wire.specs.Wire.{max_text_len};
ghost use Rattle.tcp_halves.specs.Acceptable.{is_acceptable};

use tcp_wire::Seq;

/// Whether a segment that takes `count` sequence numbers (SEG.LEN) is acceptable, where `next` is RCV.NXT and `window`
/// is RCV.WND in bytes (RFC 9293, 3.10.7.4).
#[tactic(auto, using(tcp_wire::proofs::Lemmas::first_inside, tcp_wire::proofs::Lemmas::last_inside), unfolding(crate::specs::Acceptable::is_acceptable))]
pub fn is_acceptable(next: Seq, window: u32, seq: Seq, count: u32) -> bool
    requires count { count ≤ max_text_len + 2 }
    requires window { window ≤ max_capacity }
    ensures { result ≡ is_acceptable next.0 window seq.0 count }
{
    if count == 0 && window == 0 {
        return seq == next;
    }
    if count == 0 {
        return seq.in_window(next, window);
    }
    window > 0 && (seq.in_window(next, window) || seq.plus(count - 1).in_window(next, window))
}
