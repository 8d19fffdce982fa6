//! A segment that is due in parts: its header is written, and its text is lent from the queue.
ghost use Rattle.std.specs.Prelude.{◌≡◌, ◌≤◌, ◌++◌, [], length, map, take, drop, option_map, IfSome, IfNone};
ghost use Rattle.tcp_wire.specs.View.{option_content};
ghost use Rattle.tcp_wire.specs.Wire.{encoded_bytes};
ghost use Rattle.tcp_halves.specs.Config.{max_mss};
ghost use Rattle.tcp_conn.specs.Blocks.{blocks_to_report, sack_options};
ghost use Rattle.tcp_conn.specs.Due.{IsSendable};
ghost use Rattle.tcp_conn.specs.Emission.{destination, emitted_bytes};
ghost use Rattle.tcp_conn.specs.Forms.{plain_segment};
ghost use Rattle.tcp_conn.specs.Writing.{bytes_of, destination_of};

use crate::emit::due::Due;
use crate::emit::segment::sack_options;
use crate::emit::write::{HEADER_ROOM, Sum};
use crate::endpoint::Endpoint;
use std::alloc::Allocator;
use tcp_wire::{Addr, TcpOption, write_front};

/// A segment that is due: its header, which was written, then all of `first`, then all of `second`.
#[derive(Clone, Copy, Debug)]
pub struct Parts<'a> {
    /// Where it goes.
    pub to: Addr,
    /// The length of its header in bytes with options, at most [`HEADER_ROOM`].
    pub header: usize,
    /// The first bytes of its text, where they lie in the queue.
    pub first: &'a [u8],
    /// The bytes after those.
    pub second: &'a [u8],
}

/// A segment without text, of which `header` bytes were written.
fn without_text<'a>(to: Addr, header: usize) -> Parts<'a>
    ensures to { result.to ≡ to }
    ensures header { result.header ≡ header }
    ensures first { result.first.now ≡ [] }
    ensures second { result.second.now ≡ [] }
{
    Parts {
        to,
        header,
        first: &[],
        second: &[],
    }
}

impl<A: Allocator> Endpoint<A> {
    /// Writes the header of a segment that may have text, with these options, at the start of `header`, and lends its
    /// text.
    #[inline(always)]
    fn front_of_text(&self, due: Due, options: &[TcpOption<'_>], header: &mut [u8]) -> Parts<'_>
        requires sendable { IsSendable self.now.sending max_mss due }
        requires options { map option_content options.now ≡ sack_options (blocks_to_report self.now) }
        requires room { HEADER_ROOM ≤ length header.old }
        ensures to { result.to ≡ self.now.peer.addr }
        ensures most { result.header ≤ HEADER_ROOM }
        ensures bytes { take result.header header.new ++ (result.first.now ++ result.second.now) ≡ encoded_bytes self.now.config.addr.0 self.now.peer.addr.0 (plain_segment self.now due) }
        ensures rest { drop result.header header.new ≡ drop result.header header.old }
    {
        self.fits_fields();
        let fields = self.plain_header(due);
        let (first, second) = self.text(due);
        let len = write_front(
            &fields,
            options,
            0,
            first,
            second,
            self.config.addr,
            self.peer.addr,
            header,
        );
        Parts {
            to: self.peer.addr,
            header: len,
            first,
            second,
        }
    }

    /// Writes such a header with the options that report blocks, where there are any.
    #[tactic(auto, using(crate::proofs::Segments::none_reported))]
    fn front_of_plain(&self, due: Due, header: &mut [u8]) -> Parts<'_>
        requires sendable { IsSendable self.now.sending max_mss due }
        requires room { HEADER_ROOM ≤ length header.old }
        ensures to { result.to ≡ self.now.peer.addr }
        ensures most { result.header ≤ HEADER_ROOM }
        ensures bytes { take result.header header.new ++ (result.first.now ++ result.second.now) ≡ encoded_bytes self.now.config.addr.0 self.now.peer.addr.0 (plain_segment self.now due) }
        ensures rest { drop result.header header.new ≡ drop result.header header.old }
    {
        if self.report_len() == 0 {
            return self.front_of_text(due, &[], header);
        }
        let options = sack_options(self.blocks_to_report());
        self.front_of_text(due, options.as_slice(), header)
    }

    /// Writes the header of what is due, and lends its text: what has none is written whole.
    #[tactic(auto, using(crate::proofs::Parting::bare_bytes, crate::proofs::Parting::bare_rest, crate::proofs::Parting::bare_writable, crate::proofs::Parting::bare_short), unfolding(crate::specs::Forms::segment_of, crate::specs::Writing::bytes_of, crate::specs::Writing::written_of))]
    fn front_of(&self, due: Due, header: &mut [u8]) -> Parts<'_>
        requires sendable { IsSendable self.now.sending max_mss due }
        requires room { HEADER_ROOM ≤ length header.old }
        ensures to { result.to ≡ (destination_of self.now due).addr }
        ensures most { result.header ≤ HEADER_ROOM }
        ensures bytes { take result.header header.new ++ (result.first.now ++ result.second.now) ≡ bytes_of self.now due }
        ensures rest { drop result.header header.new ≡ drop result.header header.old }
    {
        match due {
            Due::Text(_) => self.front_of_plain(due, header),
            Due::Reset | Due::Syn | Due::Acknowledgement => {
                let len = self.write(due, Sum::Whole, header);
                without_text(self.destination(due), len)
            }
        }
    }

    /// Writes the header of the segment that is due at the start of `header`, which has room for [`HEADER_ROOM`] bytes.
    /// Its text is lent where it lies in the queue, in two parts: header, `first` and `second` together are what
    /// [`emit`](Endpoint::emit) would write. The rest of `header` is unchanged. `None`, and `header` is unchanged,
    /// exactly where none is due. Nothing changes in the end: once the segment was sent, call [`sent`](Endpoint::sent).
    #[must_use]
    #[tactic(auto, unfolding(crate::specs::Emission::destination, crate::specs::Emission::emitted_bytes))]
    pub fn parts(&self, header: &mut [u8]) -> Option<Parts<'_>>
        requires { HEADER_ROOM ≤ length header.old }
        ensures destination { option_map (λ parts. parts.to.0) result ≡ destination self.now }
        ensures bytes { option_map (λ parts. take parts.header header.new ++ (parts.first.now ++ parts.second.now)) result ≡ emitted_bytes self.now }
        ensures most { IfSome result (λ parts. parts.header ≤ HEADER_ROOM) }
        ensures rest { IfSome result (λ parts. drop parts.header header.new ≡ drop parts.header header.old) }
        ensures none { IfNone result (header.new ≡ header.old) }
    {
        let due = self.due()?;
        Some(self.front_of(due, header))
    }
}
