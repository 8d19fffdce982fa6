ghost use Rattle.std.specs.Prelude.{◌≡◌, ◌+◌, ◌<◌, ◌≤◌, ◌^◌, IfSome, IsNone, None, Option, length, option_map, ℕ, List};

/// A segment: the address that it goes to, its length in bytes, the position where it begins, and how many numbers it takes
/// (RFC 9293, 3.4). A position counts from the SYN, which is at 0.
#[derive(Clone, Copy, Debug, PartialEq, Eq)]
pub struct Sent {
    /// The IPv4 address that it goes to.
    pub to: [u8; 4],
    /// The length of the segment, in bytes.
    pub len: usize,
    /// The position of its first number.
    pub start: u64,
    /// How many numbers it takes: one for each byte of text, one for a SYN, one for a FIN.
    pub count: u64,
}

/// Segments that go out as one, for a device that cuts them, one after another: each begins where the one before it ends.
#[derive(Clone, Copy, Debug, PartialEq, Eq)]
pub struct Row {
    /// The position of their first number.
    pub start: u64,
    /// How many numbers all of them take together.
    pub count: u64,
    /// How many numbers each takes but the last, which takes the rest.
    pub each: u64,
    /// How many they are.
    pub segments: usize,
}

/// The timers of an end (RFC 9293, 3.10.8; RFC 2018, 5).
#[derive(Clone, Copy, Debug, PartialEq, Eq)]
pub enum Timer {
    /// The retransmission timeout: what is in flight goes out again.
    Retransmit,
    /// The reordering timeout: what fills the gaps that the peer reported goes out again.
    Reorder,
    /// The TIME-WAIT timeout: the connection ends.
    TimeWait,
    /// The user timeout, or the limit of FIN-WAIT-2: the connection is aborted.
    User,
}

/// Which timers have to run. The user timeout counts while the retransmission timer runs, and in FIN-WAIT-2 where that has
/// a limit.
#[derive(Clone, Copy, Debug, PartialEq, Eq)]
pub struct Wants {
    /// Whether something waits for an acknowledgement, or for a window.
    pub retransmit: bool,
    /// Whether the peer has reported a gap: it holds something, and lacks what comes before it.
    pub reorder: bool,
    /// Whether the end is in TIME-WAIT.
    pub time_wait: bool,
    /// Whether the end is in FIN-WAIT-2 and the user has read all that came: there a peer that is gone is missed by nobody. As
    /// long as something is unread it is the user who keeps the peer waiting.
    pub fin_wait_2: bool,
}

/// What an arrival has brought.
#[derive(Clone, Copy, Debug, PartialEq, Eq)]
pub struct Report {
    /// How many text bytes were acknowledged.
    pub acked: u64,
    /// Whether it is a duplicate acknowledgement (RFC 5681, 2).
    pub is_duplicate: bool,
    /// Whether it has to be answered at once (RFC 5681, 4.2).
    pub at_once: bool,
    /// The peer's window, in bytes, where it was taken from the segment.
    pub window: Option<u64>,
    /// Whether it is the peer's FIN again, in TIME-WAIT, which starts that anew (RFC 9293, 3.10.7.4, eighth).
    pub repeats_fin: bool,
    /// Whether it is the peer's: a segment of the connection that brought text or a FIN, again or not, or a window that was
    /// taken.
    pub from_peer: bool,
}

/// How a segment comes in.
#[derive(Clone, Copy, Debug, PartialEq, Eq)]
pub struct Way {
    /// Whether a device has found its checksum right, so that it isn't summed (RFC 9293, 3.1).
    pub is_vouched: bool,
    /// How many numbers behind SND.UNA its acknowledgement may lie ([`Limits::guard`](crate::Limits::guard)).
    pub guard: Option<u32>,
}

/// An end without a clock (RFC 9293, 3.10): which timers have to run, and what each event leads to.
pub trait Core {
    /// What `send` answers.
    type Sending;
    /// What `receive` answers.
    type Receiving;
    /// What `consume` answers.
    type Consuming;
    /// What `close` answers.
    type Closing;
    /// What `abort` answers.
    type Aborting;
    /// What an arrival answers, beside what the driver is told of it.
    type Arriving;
    /// What an emission of segments as one answers, beside what the driver is told of it.
    type Train;

    ghost use Rattle.tcp_driver.specs.Driver.{core_after, sent_of, written_of};
    ghost use Rattle.tcp_driver.specs.Machine.{Machine};
    ghost use Rattle.tcp_driver.specs.Rows.{IsRow, core_after_many, emissions_of};
    ghost use Rattle.tcp_driver.specs.declared.machine.Way.{Way};

    /// What it does, as functions of its state.
    ghost machine: { Machine Self };

    ghost send_answer: { Self → List ℕ → Self.Sending };

    ghost receive_answer: { Self → ℕ → Self.Receiving };

    ghost consume_answer: { Self → ℕ → Self.Consuming };

    ghost close_answer: { Self → Self.Closing };

    ghost abort_answer: { Self → Self.Aborting };

    ghost arrival_answer: { Self → List ℕ → List ℕ → List ℕ → Way → Self.Arriving };

    ghost train_answer: { Self → ℕ → ℕ → ℕ → Option Self.Train };

    /// Which timers have to run.
    fn wants(&self) -> Wants
        ensures { result ≡ machine.wants self.now };

    /// SND.UNA, as a position.
    fn una(&self) -> u64
        ensures { result ≡ machine.una self.now };

    /// How many numbers are in flight.
    fn flight(&self) -> u64
        ensures { result ≡ machine.flight self.now };

    /// How many bytes of these the peer's blocks report as received (RFC 2018, 4).
    fn reported(&self) -> u64
        ensures { result ≡ machine.reported self.now };

    /// Whether a reset counts as lost now: in TIME-WAIT (RFC 1337, 3), and in CLOSING and LAST-ACK while there is text that
    /// the user hasn't read, which a reset would discard.
    fn ignores_resets(&self) -> bool
        ensures { result ≡ machine.ignores_resets self.now };

    /// A timer has expired.
    fn expire(&mut self, timer: Timer)
        ensures { self.new ≡ machine.expired self.old timer };

    /// A segment has come from the IPv4 address `src` to `dst`, by this way: what the driver is told of it, and the end's own
    /// answer.
    fn arrive(
        &mut self,
        src: [u8; 4],
        dst: [u8; 4],
        bytes: &[u8],
        way: Way,
    ) -> (Report, Self::Arriving)
        ensures report { result.0 ≡ machine.report self.old src dst bytes.now way }
        ensures answer { result.1 ≡ arrival_answer self.old src dst bytes.now way }
        ensures state { self.new ≡ machine.arrived self.old src dst bytes.now way };

    /// Writes the segment that may go out within a window, in numbers from SND.UNA, if one may: the one that is due, or where
    /// that waits the acknowledgement alone, if one is pending. [`holds`](crate::holds) says which. Where none may nothing changes.
    fn transmit_within(&mut self, window: u64, out: &mut [u8]) -> Option<Sent>
        requires room { machine.room ≤ length out.old }
        ensures sent { result ≡ sent_of machine self.old window }
        ensures written { out.new ≡ written_of machine self.old window out.old }
        ensures state { self.new ≡ core_after machine self.old window }
        ensures most { IfSome result (λ sent. sent.len ≤ machine.room) }
        ensures fits { IfSome result (λ sent. sent.start + sent.count < 2 ^ 64) }
        ensures idle { IsNone result → self.new ≡ self.old };

    /// Writes as one, for a device that cuts and sums them, at most `most` of the segments that may go out within a window: what
    /// the device makes of it is what so many calls of `transmit_within` write, after which the end is this. What the driver
    /// is told of them, and the end's own answer. Where none may go out nothing changes.
    fn transmit_train(
        &mut self,
        window: u64,
        out: &mut [u8],
        most: usize,
    ) -> Option<(Row, Self::Train)>
        requires room { machine.room ≤ length out.old }
        ensures row { option_map (λ told. told.0) result ≡ machine.row self.old window most (length out.old) }
        ensures answer { option_map (λ told. told.1) result ≡ train_answer self.old window most (length out.old) }
        ensures written { out.new ≡ machine.written_row self.old window most out.old }
        ensures state { self.new ≡ core_after_many machine (emissions_of (machine.row self.old window most (length out.old))) window self.old }
        ensures turns { IfSome result (λ told. IsRow machine self.old window told.0) }
        ensures fits { IfSome result (λ told. told.0.start + told.0.count < 2 ^ 64) }
        ensures none { IsNone result → sent_of machine self.old window ≡ None }
        ensures idle { IsNone result → self.new ≡ self.old };

    /// Of what is in flight the first segment goes out again (RFC 5681, 3.2): whether anything is in flight.
    fn resend_first(&mut self) -> bool
        ensures answer { result ≡ machine.can_resend self.old }
        ensures state { self.new ≡ machine.first_resent self.old };

    /// Of what is in flight what lies from the position `from` on and before `to` goes out again (RFC 6675, 5; RFC 8985, 6.2):
    /// whether anything does.
    fn resend(&mut self, from: u64, to: u64) -> bool
        ensures answer { result ≡ machine.resends self.old from to }
        ensures state { self.new ≡ machine.resent self.old from to };

    /// The user has text to send (RFC 9293, 3.10.2).
    fn send(&mut self, text: &[u8]) -> Self::Sending
        ensures answer { result ≡ send_answer self.old text.now }
        ensures state { self.new ≡ machine.sent self.old text.now };

    /// The user reads (RFC 9293, 3.10.3).
    fn receive(&mut self, out: &mut [u8]) -> Self::Receiving
        ensures answer { result ≡ receive_answer self.old (length out.old) }
        ensures read { out.new ≡ machine.read self.old out.old }
        ensures state { self.new ≡ machine.received self.old (length out.old) };

    /// The user has read the first bytes where they lie, at most so many: they are gone, as after `receive` (RFC 9293, 3.10.3).
    fn consume(&mut self, count: usize) -> Self::Consuming
        ensures answer { result ≡ consume_answer self.old count }
        ensures state { self.new ≡ machine.received self.old count };

    /// The user has read, and wants the window that is open now to be advertised (RFC 9293, 3.8.6.2.2).
    fn acknowledge(&mut self)
        ensures { self.new ≡ machine.acknowledged self.old };

    /// The user has no more to send (RFC 9293, 3.10.4).
    fn close(&mut self) -> Self::Closing
        ensures answer { result ≡ close_answer self.old }
        ensures state { self.new ≡ machine.closed self.old };

    /// The user gives the connection up (RFC 9293, 3.10.5).
    fn abort(&mut self) -> Self::Aborting
        ensures answer { result ≡ abort_answer self.old }
        ensures state { self.new ≡ machine.aborted self.old };
}
