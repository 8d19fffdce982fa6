//! The segments that an end emits (RFC 9293, 3.1 and 3.10; RFC 7323, 2.2; RFC 2018, 2 to 4): fixed header, options and
//! text of each form.
ghost use Rattle.std.specs.Prelude.{◌≡◌, ◌<◌, ◌≤◌, ◌^◌, ◌++◌, [], length, map};
ghost use Rattle.tcp_wire.specs.Checksum.{AreBytes};
ghost use Rattle.tcp_wire.specs.Position.{number};
ghost use Rattle.tcp_wire.specs.View.{block, content_of, option_content};
ghost use Rattle.tcp_wire.specs.Wire.{IsValid, max_text_len};
ghost use Rattle.tcp_reasm.specs.Reassembly.{blocks};
ghost use Rattle.tcp_conn.specs.Blocks.{block_numbers, blocks_to_report, sack_length, sack_options};
ghost use Rattle.tcp_conn.specs.Due.{IsSendable, count_of};
ghost use Rattle.tcp_conn.specs.Forms.{flags_of, is_sack_offered, permission_options, plain_segment, reset_from, reset_segment, scale_options, shift_offered, syn_options, syn_segment, text_of};

use crate::emit::due::Due;
use crate::endpoint::Endpoint;
use crate::windows::MAX_WINDOW;
use arrayvec::ArrayVec;
use std::alloc::Allocator;
use tcp_halves::WaitingReset;
use tcp_wire::{Flags, Header, Seq, TcpOption};

/// Appends the offer of a window shift, if there is one (RFC 7323, 2.2).
fn push_scale(options: &mut ArrayVec<TcpOption<'_>, 6>, shift: Option<u8>)
    requires { length options.old.items ≤ 1 }
    ensures items { map option_content options.new.items ≡ map option_content options.old.items ++ scale_options shift }
    ensures len { length options.new.items ≤ 3 }
{
    if let Some(shift) = shift {
        options.push(TcpOption::Nop);
        options.push(TcpOption::WindowScale(shift));
    }
}

/// Appends the permission of selective acknowledgement, where it is given (RFC 2018, 2).
fn push_permission(options: &mut ArrayVec<TcpOption<'_>, 6>, permitted: bool)
    requires { length options.old.items ≤ 3 }
    ensures { map option_content options.new.items ≡ map option_content options.old.items ++ permission_options permitted }
{
    if permitted {
        options.push(TcpOption::Nop);
        options.push(TcpOption::Nop);
        options.push(TcpOption::SackPermitted);
    }
}

/// The fixed header of a reset from this port; it has no options (RFC 9293, 3.10.7.1).
pub(crate) fn reset_from(port: u16, reset: WaitingReset) -> Header
    ensures value { content_of result [] 0 [] ≡ reset_from port reset }
    ensures valid { IsValid (content_of result [] 0 []) }
{
    let (ack, flags) = match reset.ack {
        Some(ack) => (ack, Flags::RST.union(Flags::ACK)),
        None => (Seq(0), Flags::RST),
    };
    Header {
        src_port: port,
        dst_port: reset.to.port,
        seq: reset.seq,
        ack,
        reserved: 0,
        flags,
        window: 0,
        urgent: 0,
    }
}

/// The sequence numbers of blocks that are counted from RCV.NXT.
fn block_numbers(next: Seq, blocks: &[(u32, u32)]) -> ArrayVec<(Seq, Seq), 4>
    requires { length blocks.now ≤ 4 }
    ensures { map block result.items ≡ map (block_numbers next.0) blocks.now }
{
    let mut numbers = ArrayVec::new();
    for edges in blocks {
        numbers.push((next.plus(edges.0), next.plus(edges.1)));
    }
    numbers
}

/// The options that report these blocks (RFC 2018, 3).
pub(crate) fn sack_options<'a>(blocks: ArrayVec<(Seq, Seq), 4>) -> ArrayVec<TcpOption<'a>, 3>
    ensures { map option_content result.items ≡ sack_options (map block blocks.items) }
{
    let mut options = ArrayVec::new();
    if !blocks.is_empty() {
        options.push(TcpOption::Nop);
        options.push(TcpOption::Nop);
        options.push(TcpOption::Sack(blocks));
    }
    options
}

impl<A: Allocator> Endpoint<A> {
    /// The sequence number of a position of this end's direction (RFC 9293, 3.4).
    pub(crate) fn number_of(&self, position: u64) -> Seq
        ensures { result.0 ≡ number self.now.config.isn.0 position }
    {
        self.config.isn.plus((position % (1 << 32)) as u32)
    }

    /// The shift that a SYN offers: in an answer only where the peer offered one (RFC 7323, 2.2).
    pub(crate) fn shift_offered(&self) -> Option<u8>
        ensures { result ≡ shift_offered self.now }
    {
        if self.receiver.opened && !self.link.scaling {
            None
        } else {
            self.config.window_shift
        }
    }

    /// Whether a SYN permits selective acknowledgement: in an answer only where the peer did (RFC 2018, 2).
    pub(crate) fn is_sack_offered(&self) -> bool
        ensures { result ≡ is_sack_offered self.now }
    {
        if self.receiver.opened {
            self.link.sack
        } else {
            self.config.sack
        }
    }

    /// The options of this end's SYN.
    pub(crate) fn syn_options<'a>(&self) -> ArrayVec<TcpOption<'a>, 6>
        ensures { map option_content result.items ≡ syn_options self.now }
    {
        let mut options = ArrayVec::new();
        options.push(TcpOption::Mss(self.config.mss));
        push_scale(&mut options, self.shift_offered());
        push_permission(&mut options, self.is_sack_offered());
        options
    }

    /// The fixed header of this end's SYN (RFC 9293, 3.10.1 and 3.10.7.2). Its window is never scaled.
    pub(crate) fn syn_header(&self) -> Header
        ensures { content_of result (syn_options self.now) 0 [] ≡ syn_segment self.now }
    {
        let opened = self.receiver.opened;
        Header {
            src_port: self.config.port,
            dst_port: self.peer.port,
            seq: self.number_of(0),
            ack: if opened {
                self.receiver.rcv_nxt
            } else {
                Seq(0)
            },
            reserved: 0,
            flags: if opened {
                Flags::SYN.union(Flags::ACK)
            } else {
                Flags::SYN
            },
            window: self.receiver.inbox.window().min(MAX_WINDOW) as u16,
            urgent: 0,
        }
    }

    /// The fixed header of a reset, which has no options (RFC 9293, 3.10.7.1).
    pub(crate) fn reset_header(&self, reset: WaitingReset) -> Header
        ensures value { content_of result [] 0 [] ≡ reset_segment self.now reset }
        ensures valid { IsValid (content_of result [] 0 []) }
    {
        reset_from(self.config.port, reset)
    }

    /// The fixed header of any other segment.
    #[inline(always)]
    pub(crate) fn plain_header(&self, due: Due) -> Header
        requires sendable { IsSendable self.now.sending max_text_len due }
        ensures { content_of result (sack_options (blocks_to_report self.now)) 0 (text_of self.now.sending due) ≡ plain_segment self.now due }
    {
        Header {
            src_port: self.config.port,
            dst_port: self.peer.port,
            seq: self.number_of(self.start_of(due)),
            ack: self.receiver.rcv_nxt,
            reserved: 0,
            flags: self.flags_of(due),
            window: self.advertised_window(),
            urgent: 0,
        }
    }

    /// The control bits of a segment that is no reset and no SYN.
    pub(crate) fn flags_of(&self, due: Due) -> Flags
        requires { IsSendable self.now.sending max_text_len due }
        ensures value { result.0 ≡ flags_of self.now.sending due }
        ensures fits { result.0 < 2 ^ 8 }
    {
        match due {
            Due::Text(sent) => self.sender.flags(sent),
            Due::Reset | Due::Syn | Due::Acknowledgement => Flags::ACK,
        }
    }

    /// Copies the text of what is due into `out`, which has exactly its length.
    pub(crate) fn copy(&self, due: Due, out: &mut [u8])
        requires sendable { IsSendable self.now.sending max_text_len due }
        requires len { length out.old ≡ count_of due }
        ensures text { out.new ≡ text_of self.now.sending due }
        ensures bytes { AreBytes out.new }
    {
        if let Due::Text(sent) = due {
            self.sender.copy(sent, out);
        }
    }

    /// The text of what is due, where it lies in the queue, in two parts. The first is empty only where there is no
    /// text.
    pub(crate) fn text(&self, due: Due) -> (&[u8], &[u8])
        requires { IsSendable self.now.sending max_text_len due }
        ensures text { result.0.now ++ result.1.now ≡ text_of self.now.sending due }
        ensures bytes { AreBytes (result.0.now ++ result.1.now) }
    {
        match due {
            Due::Text(sent) => self.sender.text(sent),
            Due::Reset | Due::Syn | Due::Acknowledgement => (&[], &[]),
        }
    }

    /// The blocks that a segment would report: while a run is kept out of order and selective acknowledgement is in use
    /// (RFC 2018, 4).
    pub(crate) fn blocks_to_report(&self) -> ArrayVec<(Seq, Seq), 4>
        ensures { map block result.items ≡ blocks_to_report self.now }
    {
        if !self.link.sack {
            return ArrayVec::new();
        }
        let blocks = self.receiver.inbox.blocks();
        block_numbers(self.receiver.rcv_nxt, blocks.as_slice())
    }

    /// Their length in bytes among the options: two Nops, kind and length byte, and eight for each block. No block is
    /// made for that.
    pub(crate) fn report_len(&self) -> u16
        ensures value { result ≡ sack_length (blocks_to_report self.now) }
        ensures most { result ≤ 36 }
    {
        if !self.link.sack {
            return 0;
        }
        match self.receiver.inbox.block_count() {
            0 => 0,
            count => 4 + 8 * count as u16,
        }
    }
}
