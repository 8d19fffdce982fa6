ghost use Rattle.std.specs.Prelude.{◌≡◌, ◌↔◌, ◌+◌, ◌*◌, ◌≤◌, length, map, IsSome, IfSome};
ghost use Rattle.std.specs.List.{AllByRecursion};
ghost use Rattle.tcp_numbers.specs.Checksum.{AreBytes};
ghost use Rattle.tcp_wire.specs.Options.{Unknown, has_own_length, IsBlock, IsSpellable, spelling};
ghost use Rattle.tcp_wire.specs.View.{block, option_content};

use arrayvec::ArrayVec;
use tcp_numbers::Seq;

/// An option of a segment (RFC 9293, 3.2). The end of the list (kind 0) is no option: it and the
/// zeros after it are `Segment::pad`.
#[derive(Clone, Debug, Default, PartialEq, Eq, Drop)]
pub enum TcpOption<'a> {
    /// No operation: one byte of padding between options.
    #[default]
    Nop,
    /// Maximum segment size, in bytes.
    Mss(u16),
    /// Window scale: the shift count (RFC 7323, 2.2).
    WindowScale(u8),
    /// Selective acknowledgement is permitted (RFC 2018, 2).
    SackPermitted,
    /// Blocks that were received out of order, each as its left edge and the number after its last (RFC 2018, 3). From
    /// 1 to 4 blocks can be written.
    Sack(ArrayVec<(Seq, Seq), 4>),
    /// Another kind, or a known kind with another length than its own. `body` is what follows the length byte, at most
    /// 38 bytes.
    Unknown { kind: u8, body: &'a [u8] },
}

/// Whether the kind is a known one with a length byte, and `len` is its length.
pub(crate) fn has_own_length(kind: u8, len: usize) -> bool
    ensures { result ≡ has_own_length kind len }
{
    match kind {
        2 => len == 4,
        3 => len == 3,
        4 => len == 2,
        5 => len == 10 || len == 18 || len == 26 || len == 34,
        _ => false,
    }
}

/// The length in bytes of these blocks.
fn blocks_len(blocks: &[(Seq, Seq)]) -> usize
    requires { length blocks.now ≤ 4 }
    ensures len { result ≡ 8 * length blocks.now }
    ensures edges { AllByRecursion IsBlock (map block blocks.now) }
{
    let mut len = 0;
    for edges in blocks {
        let _left = edges.0.0;
        let _right = edges.1.0;
        len += 8;
    }
    len
}

/// The length in bytes of an option of this kind, where it can be written.
fn unknown_len(kind: u8, body: &[u8]) -> Option<usize>
    ensures some { IsSome result ↔ IsSpellable (Unknown kind body.now) }
    ensures len { IfSome result (λ n. n ≡ length body.now + 2) }
    ensures small { IfSome result (λ n. n ≤ 40) }
{
    if kind < 2 || body.len() > 38 || has_own_length(kind, body.len() + 2) {
        return None;
    }
    Some(body.len() + 2)
}

impl TcpOption<'_> {
    /// The length in bytes of the option, where it can be written.
    pub(crate) fn spelled_len(&self) -> Option<usize>
        ensures some { IsSome result ↔ IsSpellable (option_content self.now) }
        ensures len { IfSome result (λ n. n ≡ length (spelling (option_content self.now))) }
        ensures small { IfSome result (λ n. n ≤ 40) }
    {
        match self {
            TcpOption::Nop => Some(1),
            TcpOption::Mss(size) => {
                let _size = *size;
                Some(4)
            }
            TcpOption::WindowScale(shift) => {
                let _shift = *shift;
                Some(3)
            }
            TcpOption::SackPermitted => Some(2),
            TcpOption::Sack(blocks) => {
                if blocks.is_empty() {
                    return None;
                }
                Some(2 + blocks_len(blocks.as_slice()))
            }
            TcpOption::Unknown { kind, body } => unknown_len(*kind, body),
        }
    }
}
