//! Writes a segment that is due: the one place where an end's bytes are made.
ghost use Rattle.std.specs.Prelude.{◌≡◌, ◌≤◌, ◌+◌, ◌++◌, [], take, drop, length, map};
ghost use Rattle.tcp_wire.specs.Partial.{completed};
ghost use Rattle.tcp_wire.specs.View.{around, option_content, text_offset};
ghost use Rattle.tcp_wire.specs.Wire.{IsValid, encoded_bytes, header_len, max_area_len, wire_length};
ghost use Rattle.tcp_conn.specs.declared.emit.write.Sum.TheVariants.{Partial};
ghost use Rattle.tcp_conn.specs.Blocks.{blocks_to_report, sack_options};
ghost use Rattle.tcp_conn.specs.Endpoint.{FitsFields};
ghost use Rattle.tcp_conn.specs.Forms.{plain_segment, reset_segment, segment_of, syn_segment};
ghost use Rattle.tcp_conn.specs.Writing.{IsWritable, bytes_of, destination_of, summed, written_of};

use crate::emit::due::Due;
use crate::emit::segment::sack_options;
use crate::endpoint::Endpoint;
use std::alloc::Allocator;
use tcp_halves::WaitingReset;
use tcp_wire::{Addr, HEADER_LEN, Header, TcpOption, write_around, write_around_partial};

/// The length of the longest header with options, in bytes (RFC 9293, 3.1): the room that [`parts`](Endpoint::parts)
/// requires.
pub const HEADER_ROOM: usize = 60;

/// Who computes the checksum of a segment that is written.
#[derive(Clone, Copy, Debug, PartialEq, Eq)]
pub(crate) enum Sum {
    /// This end, over the pseudo-header and all of the segment (RFC 9293, 3.1).
    Whole,
    /// A device: the field has the sum of the pseudo-header alone, and no text is summed (RFC 1071, 2).
    Partial,
}

/// Writes header, options and checksum around `count` bytes of text, which are in `out` already, and returns the length
/// of the whole.
#[inline(always)]
fn write_header(
    sum: Sum,
    header: &Header,
    options: &[TcpOption<'_>],
    count: usize,
    src: Addr,
    dst: Addr,
    out: &mut [u8],
) -> usize
    requires valid { IsValid (around header.now options.now 0 count out.old) }
    requires room { text_offset (map option_content options.now) 0 + count ≤ length out.old }
    ensures len { result ≡ wire_length (around header.now options.now 0 count out.old) }
    ensures bytes { out.new ≡ summed sum src.0 dst.0 (encoded_bytes src.0 dst.0 (around header.now options.now 0 count out.old)) ++ drop (wire_length (around header.now options.now 0 count out.old)) out.old }
    ensures completes { sum ≡ Partial → completed (take result out.new) ≡ encoded_bytes src.0 dst.0 (around header.now options.now 0 count out.old) }
{
    match sum {
        Sum::Whole => write_around(header, options, 0, count, src, dst, out),
        Sum::Partial => write_around_partial(header, options, 0, count, src, dst, out),
    }
}

/// Writes a segment that is nothing but a header, without options, at the start of `out`, and returns its length.
#[inline(always)]
pub(crate) fn write_bare(header: &Header, src: Addr, dst: Addr, out: &mut [u8]) -> usize
    requires valid { IsValid (around header.now [] 0 0 out.old) }
    requires room { header_len ≤ length out.old }
    ensures len { result ≡ wire_length (around header.now [] 0 0 out.old) }
    ensures written { out.new ≡ encoded_bytes src.0 dst.0 (around header.now [] 0 0 out.old) ++ drop (wire_length (around header.now [] 0 0 out.old)) out.old }
{
    write_around(header, &[], 0, 0, src, dst, out)
}

impl<A: Allocator> Endpoint<A> {
    /// Each of its numbers fits its field of a segment. It does nothing when it runs: callers learn the fact.
    pub(crate) fn fits_fields(&self)
        ensures { FitsFields self.now }
    {
        let _peer_port = self.peer.port;
        let _next = self.receiver.rcv_nxt;
    }

    /// Writes this end's SYN at the start of `out`, and returns its length.
    #[inline(never)]
    #[tactic(auto, using(crate::proofs::Segments::length_syn_segment))]
    fn write_syn(&self, sum: Sum, out: &mut [u8]) -> usize
        requires { HEADER_ROOM ≤ length out.old }
        ensures len { result ≡ wire_length (syn_segment self.now) }
        ensures bytes { out.new ≡ summed sum self.now.config.addr.0 self.now.peer.addr.0 (encoded_bytes self.now.config.addr.0 self.now.peer.addr.0 (syn_segment self.now)) ++ drop result out.old }
        ensures completes { sum ≡ Partial → completed (take result out.new) ≡ encoded_bytes self.now.config.addr.0 self.now.peer.addr.0 (syn_segment self.now) }
    {
        self.fits_fields();
        let header = self.syn_header();
        let options = self.syn_options();
        write_header(
            sum,
            &header,
            options.as_slice(),
            0,
            self.config.addr,
            self.peer.addr,
            out,
        )
    }

    /// Writes a waiting reset at the start of `out`, and returns its length.
    #[inline(never)]
    fn write_reset(&self, reset: WaitingReset, sum: Sum, out: &mut [u8]) -> usize
        requires { HEADER_ROOM ≤ length out.old }
        ensures len { result ≡ wire_length (reset_segment self.now reset) }
        ensures bytes { out.new ≡ summed sum self.now.config.addr.0 reset.to.addr.0 (encoded_bytes self.now.config.addr.0 reset.to.addr.0 (reset_segment self.now reset)) ++ drop result out.old }
        ensures completes { sum ≡ Partial → completed (take result out.new) ≡ encoded_bytes self.now.config.addr.0 reset.to.addr.0 (reset_segment self.now reset) }
    {
        let header = self.reset_header(reset);
        write_header(sum, &header, &[], 0, self.config.addr, reset.to.addr, out)
    }

    /// Where the text of a segment begins, after the options that report blocks (RFC 9293, 3.1, Data Offset).
    #[inline(always)]
    #[tactic(auto, using(crate::proofs::Segments::offset_of_report))]
    pub(crate) fn text_start(&self) -> usize
        ensures offset { result ≡ text_offset (sack_options (blocks_to_report self.now)) 0 }
        ensures most { result ≤ header_len + max_area_len }
    {
        HEADER_LEN + usize::from(self.report_len())
    }

    /// Writes a segment that may have text, with these options, at the start of `out`, and returns its length. The text
    /// goes from the queue to its offset in `out`, and the rest is written around it.
    #[inline(always)]
    fn write_text(&self, due: Due, options: &[TcpOption<'_>], sum: Sum, out: &mut [u8]) -> usize
        requires writable { IsWritable self.now due (length out.old) }
        requires options { map option_content options.now ≡ sack_options (blocks_to_report self.now) }
        ensures len { result ≡ wire_length (plain_segment self.now due) }
        ensures bytes { out.new ≡ summed sum self.now.config.addr.0 self.now.peer.addr.0 (encoded_bytes self.now.config.addr.0 self.now.peer.addr.0 (plain_segment self.now due)) ++ drop result out.old }
        ensures completes { sum ≡ Partial → completed (take result out.new) ≡ encoded_bytes self.now.config.addr.0 self.now.peer.addr.0 (plain_segment self.now due) }
    {
        self.fits_fields();
        let header = self.plain_header(due);
        let start = self.text_start();
        let count = due.count();
        self.copy(due, &mut out[start..start + count]);
        write_header(
            sum,
            &header,
            options,
            count,
            self.config.addr,
            self.peer.addr,
            out,
        )
    }

    /// Writes a segment that may have text, with the options that report blocks. It is a separate function, as the
    /// writing of a SYN and a reset is, so that a plain segment has no blocks among its locals.
    #[inline(never)]
    fn write_blocks(&self, due: Due, sum: Sum, out: &mut [u8]) -> usize
        requires writable { IsWritable self.now due (length out.old) }
        ensures len { result ≡ wire_length (plain_segment self.now due) }
        ensures bytes { out.new ≡ summed sum self.now.config.addr.0 self.now.peer.addr.0 (encoded_bytes self.now.config.addr.0 self.now.peer.addr.0 (plain_segment self.now due)) ++ drop result out.old }
        ensures completes { sum ≡ Partial → completed (take result out.new) ≡ encoded_bytes self.now.config.addr.0 self.now.peer.addr.0 (plain_segment self.now due) }
    {
        let options = sack_options(self.blocks_to_report());
        self.write_text(due, options.as_slice(), sum, out)
    }

    /// Writes a segment that may have text at the start of `out`, and returns its length.
    #[inline(always)]
    #[tactic(auto, using(crate::proofs::Segments::none_reported))]
    fn write_plain(&self, due: Due, sum: Sum, out: &mut [u8]) -> usize
        requires writable { IsWritable self.now due (length out.old) }
        ensures len { result ≡ wire_length (plain_segment self.now due) }
        ensures bytes { out.new ≡ summed sum self.now.config.addr.0 self.now.peer.addr.0 (encoded_bytes self.now.config.addr.0 self.now.peer.addr.0 (plain_segment self.now due)) ++ drop result out.old }
        ensures completes { sum ≡ Partial → completed (take result out.new) ≡ encoded_bytes self.now.config.addr.0 self.now.peer.addr.0 (plain_segment self.now due) }
    {
        if self.report_len() == 0 {
            return self.write_text(due, &[], sum, out);
        }
        self.write_blocks(due, sum, out)
    }

    /// Writes what is due at the start of `out`, and returns its length.
    #[inline(always)]
    #[tactic(auto, using(crate::proofs::Segments::as_acknowledgement), unfolding(crate::specs::Forms::segment_of, crate::specs::Writing::bytes_of, crate::specs::Writing::written_of))]
    pub(crate) fn write(&self, due: Due, sum: Sum, out: &mut [u8]) -> usize
        requires { IsWritable self.now due (length out.old) }
        ensures len { result ≡ wire_length (segment_of self.now due) }
        ensures bytes { out.new ≡ written_of sum self.now due ++ drop result out.old }
        ensures completes { sum ≡ Partial → completed (take result out.new) ≡ bytes_of self.now due }
    {
        match due {
            Due::Reset => match self.pending.reset {
                Some(reset) => self.write_reset(reset, sum, out),
                None => self.write_plain(Due::Acknowledgement, sum, out),
            },
            Due::Syn => self.write_syn(sum, out),
            Due::Text(_) | Due::Acknowledgement => self.write_plain(due, sum, out),
        }
    }

    /// The address to which what is due goes.
    pub(crate) fn destination(&self, due: Due) -> Addr
        ensures { result ≡ (destination_of self.now due).addr }
    {
        match (due, self.pending.reset) {
            (Due::Reset, Some(reset)) => reset.to.addr,
            _ => self.peer.addr,
        }
    }
}
