//! What is in the two buffers of an end, beside lengths: windows, blocks, and what the peer reported.
ghost use Rattle.std.specs.Prelude.{◌≡◌, ◌≤◌, IfSome, length};
ghost use Rattle.tcp_sendq.specs.SendQueue.{next_unmarked, IsNextUnmarked, count_marked};
ghost use Rattle.tcp_reasm.specs.Reassembly.{blocks, window};

use crate::endpoint::Endpoint;
use arrayvec::ArrayVec;
use std::alloc::Allocator;

impl<A: Allocator> Endpoint<A> {
    /// RCV.WND and SND.WND in bytes: how much more this end takes, and how much the peer advertised last (RFC 9293,
    /// 3.3.1).
    #[must_use]
    pub fn windows(&self) -> (u32, u32)
        ensures own { result.0 ≡ window self.now.receiving.inbox }
        ensures peers { result.1 ≡ self.now.sending.snd_wnd }
    {
        (self.receiver.inbox.window(), self.sender.snd_wnd)
    }

    /// The runs that are kept out of order, each by its start and end in bytes from RCV.NXT on. The most recent is
    /// first, and there are at most four (RFC 2018, 4). A segment reports these where selective acknowledgement is in
    /// use.
    #[must_use]
    pub fn held_blocks(&self) -> ArrayVec<(u32, u32), 4>
        ensures { result.items ≡ blocks self.now.receiving.inbox }
    {
        self.receiver.inbox.blocks()
    }

    /// The first byte of the send queue, from the offset `at` on, that the peer hasn't reported as received, and the
    /// end of its run of such bytes (RFC 2018, 5). Offset 0 is the oldest byte that isn't acknowledged.
    #[must_use]
    pub fn next_unmarked(&self, at: usize) -> Option<(usize, usize)>
        ensures value { result ≡ next_unmarked self.now.sending.queue at }
        ensures first { IfSome result (IsNextUnmarked self.now.sending.queue at) }
    {
        self.sender.queue.next_unmarked(at)
    }

    /// How many bytes of the send queue the peer has reported as received (RFC 2018, 5).
    #[must_use]
    pub fn marked(&self) -> usize
        ensures value { result ≡ count_marked self.now.sending.queue.marks }
        ensures within { result ≤ length self.now.sending.queue.bytes }
    {
        self.sender.queue.marked()
    }
}
