//! What is known of an end's own direction, and the rules of positions.
ghost use Rattle.std.specs.Prelude.{◌≡◌, ◌+◌, ◌<◌, ◌≤◌, ◌^◌, true, false, IfOk, OnOk, OnErr, is_none, length};
ghost use Rattle.std.specs.Option.{option_or};
ghost use Rattle.tcp_wire.specs.Decoded.{decode_answer};
ghost use Rattle.tcp_wire.specs.View.{raw_content};
ghost use Rattle.tcp_wire.specs.Wire.{max_text_len};
ghost use Rattle.tcp_judge.specs.Known.{nothing_known, place_of, is_keep_alive, ends_by, known_after, count_acked, acked_position, known_with};
ghost use Rattle.tcp_judge.specs.Heard.{acks_beyond, is_further, goes_further, acked_number_after, after_went};
ghost use Rattle.tcp_judge.specs.Rules.{fin_finding, form_finding, text_finding, position_finding, order_finding, report_finding, heard_finding};
ghost use Rattle.tcp_judge.specs.Judgement.{finding_read, known_read, known_came};
ghost use Rattle.tcp_judge.specs.Taken.{taken_of};

use crate::answers::{goes_elsewhere, is_stray, keep_answer};
use crate::edge::Edge;
use crate::finding::Finding;
use crate::form::form_finding;
use crate::heard::{
    ack_rule, carries_ack, is_elsewhere, is_syn, keep_span, keep_syn, offers_sack, offers_scale,
    oversteps, ports_after, standing,
};
use crate::lookup::is_from;
use crate::positions::{
    acked_position_by, early_by, fin_by, initial_after, initial_by, next_finding, opens_fast,
    takes_numbers,
};
use crate::reports::{any_report, options_finding};
use crate::spans::Spans;
use crate::stream::Stream;
use crate::taken::read_taken;
use std::alloc::{AllocError, Allocator, Global};
use std::marker::Model;
use tcp_wire::{Addr, RawSegment, Seq};

/// Takes the segments of one connection in the order of the end that is judged. It keeps what isn't acknowledged of what
/// was sent, and of what came. A clause sees it as what is known up to now.
#[derive(Debug, Drop)]
pub struct Judge<A: Allocator = Global> {
    /// The number of the first SYN that was sent.
    initial: Option<Seq>,
    /// What was sent, as far as it isn't acknowledged.
    stream: Stream<A>,
    /// The position of the FIN.
    fin: Option<u64>,
    /// Whether its SYN was acknowledged.
    acked: bool,
    /// Whether text may go before that: a SYN has the option of TCP Fast Open, or text.
    fast: bool,
    /// Whether it reset the connection.
    ended: bool,
    /// What the peer's windows allow.
    edge: Edge,
    /// The resets that answer what came, as far as it acknowledges none of the end's numbers.
    answers: Vec<(Seq, Option<Seq>), A>,
    /// The number of each segment that came, and how many numbers it takes, as far as they aren't acknowledged.
    spans: Spans<A>,
    /// The number of each SYN that came before anything was acknowledged, or behind a reset, since the last
    /// acknowledgement.
    syns: Vec<Seq, A>,
    /// The acknowledgement that was sent, the furthest one.
    acked_number: Option<Seq>,
    /// Whether a reset came.
    reset: bool,
    /// Whether a SYN that came offered a window scale.
    scaling: bool,
    /// Whether a SYN that came permitted selective acknowledgement.
    sack: bool,
    /// The ports of the connection, the end's own first: those of the last SYN that was sent, until a reset comes.
    ports: Option<(u16, u16)>,
}

impl<A: Allocator> Model for Judge<A> {
    ghost use Rattle.tcp_judge.specs.Known.{Known};

    ghost Value = { Known };

    ghost view = { λ j. record { initial = j.initial; stream = j.stream; fin = j.fin; acked = j.acked; fast = j.fast; ended = j.ended; edge = j.edge; answers = j.answers.items; heard = record { spans = j.spans; syns = j.syns.items; acked_number = j.acked_number; reset = j.reset; scaling = j.scaling; sack = j.sack; ports = j.ports } } };
}

impl Judge {
    /// A judge that knows nothing.
    pub fn new(alloc: Global) -> Self
        ensures { result ≡ nothing_known }
    {
        Self::new_in(alloc)
    }
}

impl<A: Allocator + Copy> Judge<A> {
    /// A judge that knows nothing, over any allocator.
    pub fn new_in(alloc: A) -> Self
        ensures { result ≡ nothing_known }
    {
        Judge {
            initial: None,
            stream: Stream::new(alloc),
            fin: None,
            acked: false,
            fast: false,
            ended: false,
            edge: Edge::none(),
            answers: Vec::new(alloc),
            spans: Spans::new(alloc),
            syns: Vec::new(alloc),
            acked_number: None,
            reset: false,
            scaling: false,
            sack: false,
            ports: None,
        }
    }

    /// The position where the segment's text begins, or 0.
    fn place(&self, segment: &RawSegment<'_>) -> u64
        ensures place { result ≡ place_of self.now (raw_content segment.now) }
        ensures most { result < 2 ^ 63 + 2 ^ 32 }
    {
        let Some(number) = initial_after(self.initial, segment) else {
            return 0;
        };
        if segment.header.flags.is_rst() {
            return 0;
        }
        let _number = segment.header.seq.0;
        let place = segment.header.seq.position(number, self.stream.count());
        if segment.header.flags.is_syn() {
            place + 1
        } else {
            place
        }
    }

    fn fin_finding(&self, place: u64, segment: &RawSegment<'_>) -> Option<Finding>
        requires place { place < 2 ^ 63 + 2 ^ 32 }
        requires short { length segment.now.text.now ≤ max_text_len }
        ensures { result ≡ fin_finding self.now place (raw_content segment.now) }
    {
        if place == 0 {
            return None;
        }
        let behind = 1 + self.stream.count();
        fin_by(self.fin, behind, place + segment.text.len() as u64, segment)
    }

    /// Whether it is a keep-alive with a byte (RFC 9293, 3.8.4).
    fn is_keep_alive(&self, place: u64, segment: &RawSegment<'_>) -> bool
        requires { place < 2 ^ 63 + 2 ^ 32 }
        ensures { result ≡ is_keep_alive self.now place (raw_content segment.now) }
    {
        let flags = segment.header.flags;
        (segment.text.len() == 1 && place + 1 == self.stream.count_taken(self.fin.is_some()))
            && (!flags.is_syn() && !flags.is_fin())
    }

    /// The first rule of text and FIN that the segment breaks.
    fn text_finding(&self, place: u64, segment: &RawSegment<'_>) -> Option<Finding>
        requires place { place < 2 ^ 63 + 2 ^ 32 }
        requires short { length segment.now.text.now ≤ max_text_len }
        ensures { result ≡ text_finding self.now place (raw_content segment.now) }
    {
        if let Some(finding) = early_by(self.initial, place, segment) {
            return Some(finding);
        }
        if self.stream.changes_bytes(place, segment.text) {
            return Some(Finding::OtherByte(segment.header.seq));
        }
        self.fin_finding(place, segment)
    }

    /// The first rule of positions that the segment breaks.
    fn position_finding(&self, place: u64, segment: &RawSegment<'_>) -> Option<Finding>
        requires place { place < 2 ^ 63 + 2 ^ 32 }
        requires short { length segment.now.text.now ≤ max_text_len }
        ensures { result ≡ position_finding self.now place (raw_content segment.now) }
    {
        if let Some(finding) = initial_by(self.initial, segment) {
            return Some(finding);
        }
        if self.is_keep_alive(place, segment) {
            return None;
        }
        self.text_finding(place, segment)
    }

    /// The first rule of order that the segment breaks: when text and FIN may go, and what is at SND.NXT or before it. None
    /// is tried once a reset came.
    fn order_finding(&self, place: u64, segment: &RawSegment<'_>) -> Option<Finding>
        requires place { place < 2 ^ 63 + 2 ^ 32 }
        requires short { length segment.now.text.now ≤ max_text_len }
        ensures { result ≡ order_finding self.now place (raw_content segment.now) }
    {
        if self.reset {
            return None;
        }
        let number = segment.header.seq;
        let may_send = self.acked || self.fast || segment.header.flags.is_syn();
        if place > 0 && !may_send && !segment.text.is_empty() {
            return Some(Finding::BeforeAck(number));
        }
        if self.ended && (place > 0 && takes_numbers(segment)) {
            return Some(Finding::AfterReset(number));
        }
        let next = self.stream.count_taken(self.fin.is_some());
        if let Some(finding) = next_finding(place, next, segment) {
            return Some(finding);
        }
        if self.edge.is_beyond(place, segment) {
            return Some(Finding::BeyondWindow(number));
        }
        if is_stray(self.ports, self.initial, next, &self.answers, segment) {
            return Some(Finding::StrayReset(number));
        }
        None
    }

    /// The first rule of form or of positions that the segment breaks.
    fn early_finding(&self, place: u64, segment: &RawSegment<'_>) -> Option<Finding>
        requires place { place < 2 ^ 63 + 2 ^ 32 }
        requires short { length segment.now.text.now ≤ max_text_len }
        ensures { result ≡ option_or (form_finding (raw_content segment.now)) (position_finding self.now place (raw_content segment.now)) }
    {
        if let Some(finding) = form_finding(segment) {
            return Some(finding);
        }
        self.position_finding(place, segment)
    }

    /// The first rule that the segment breaks, which is `before` where that is one: those of order come last, so that where they
    /// aren't tried none is hidden by them.
    fn last_finding(
        &self,
        before: Option<Finding>,
        place: u64,
        segment: &RawSegment<'_>,
    ) -> Option<Finding>
        requires place { place < 2 ^ 63 + 2 ^ 32 }
        requires short { length segment.now.text.now ≤ max_text_len }
        ensures { result ≡ option_or before (order_finding self.now place (raw_content segment.now)) }
    {
        match before {
            Some(finding) => Some(finding),
            None => self.order_finding(place, segment),
        }
    }

    /// The first rule that the segment breaks against what came.
    fn heard_finding(
        &self,
        is_beyond: bool,
        is_further: bool,
        segment: &RawSegment<'_>,
    ) -> Option<Finding>
        requires beyond { is_beyond ≡ acks_beyond self.now.heard (raw_content segment.now) }
        requires further { is_further ≡ goes_further self.now.heard (raw_content segment.now) }
        ensures { result ≡ heard_finding self.now.heard (raw_content segment.now) }
    {
        if is_beyond {
            return Some(ack_rule(self.acked_number, segment.header.ack));
        }
        if oversteps(self.scaling, segment) {
            return Some(Finding::Unoffered);
        }
        self.report_finding(is_further, segment)
    }

    /// The first rule that the segment breaks, which is `early` where that is one.
    fn finding(
        &self,
        early: Option<Finding>,
        is_beyond: bool,
        is_further: bool,
        segment: &RawSegment<'_>,
    ) -> Option<Finding>
        requires beyond { is_none early ≡ true → is_beyond ≡ acks_beyond self.now.heard (raw_content segment.now) }
        requires further { is_further ≡ goes_further self.now.heard (raw_content segment.now) }
        ensures { result ≡ option_or early (heard_finding self.now.heard (raw_content segment.now)) }
    {
        match early {
            Some(finding) => Some(finding),
            None => self.heard_finding(is_beyond, is_further, segment),
        }
    }

    /// The furthest acknowledgement, that of this segment included.
    fn acked_number_after(&self, is_further: bool, segment: &RawSegment<'_>) -> Option<Seq>
        requires { is_further ≡ goes_further self.now.heard (raw_content segment.now) }
        ensures { result ≡ acked_number_after self.now.heard (raw_content segment.now) }
    {
        if is_further {
            Some(segment.header.ack)
        } else {
            self.acked_number
        }
    }

    /// The first rule of blocks that the segment breaks.
    fn report_finding(&self, is_further: bool, segment: &RawSegment<'_>) -> Option<Finding>
        requires { is_further ≡ goes_further self.now.heard (raw_content segment.now) }
        ensures { result ≡ report_finding self.now.heard (raw_content segment.now) }
    {
        if any_report(segment.options_left()) && !self.sack {
            return Some(Finding::Unpermitted);
        }
        options_finding(
            self.acked_number_after(is_further, segment),
            &self.spans,
            segment.options_left(),
        )
    }

    /// Whether a segment with this acknowledgement may have the furthest one from then on: an older one may only where a
    /// SYN waits, and is looked up no further where another rule is broken.
    fn may_go_further(&self, acked_number: Seq) -> bool
        ensures { result ≡ false → is_further self.now.heard.acked_number self.now.heard.spans self.now.heard.syns acked_number.0 ≡ false }
    {
        match self.acked_number {
            Some(last) => is_from(last, acked_number) || !self.syns.is_empty(),
            None => true,
        }
    }

    /// Readies what came for what is asked of it: of the acknowledgement and the blocks of a segment that breaks no other
    /// rule, and of an acknowledgement that may be the furthest one.
    fn note_spans(&mut self, is_asked: bool, segment: &RawSegment<'_>)
        ensures { self.new ≡ self.old }
    {
        if is_asked || (carries_ack(segment) && self.may_go_further(segment.header.ack)) {
            self.spans.note();
        }
    }

    /// Whether the acknowledgement covers what didn't come, or is less than an earlier one, where that is asked; and
    /// whether it is the furthest one from then on.
    fn look(&self, is_asked: bool, segment: &RawSegment<'_>) -> (bool, bool)
        ensures beyond { is_asked ≡ true → result.0 ≡ acks_beyond self.now.heard (raw_content segment.now) }
        ensures further { result.1 ≡ goes_further self.now.heard (raw_content segment.now) }
    {
        let number = segment.header.ack;
        if !carries_ack(segment) || (!is_asked && !self.may_go_further(number)) {
            return (false, false);
        }
        let (is_of_came, is_further) = standing(
            self.acked_number,
            &self.spans,
            self.syns.as_slice(),
            number,
        );
        (!is_of_came, is_further && is_of_came)
    }

    /// Adds the ports and the acknowledgement of a segment that was sent, and forgets what came before this.
    fn tell(&mut self, is_further: bool, segment: &RawSegment<'_>)
        requires { is_further ≡ goes_further self.old.heard (raw_content segment.now) }
        ensures { self.new ≡ record self.old { heard = after_went self.old.heard (raw_content segment.now) } }
    {
        self.ports = ports_after(self.ports, segment);
        if !is_further {
            return;
        }
        self.spans.forget(segment.header.ack);
        self.syns.clear();
        self.acked_number = Some(segment.header.ack);
    }

    /// Whether it is the end's own reset, at SND.NXT and with the connection's ports, of one whose SYN was acknowledged.
    fn ends_by(&self, segment: &RawSegment<'_>) -> bool
        ensures { result ≡ ends_by self.now (raw_content segment.now) }
    {
        let Some(first) = self.initial else {
            return false;
        };
        let count = self.stream.count_taken(self.fin.is_some()) % (1 << 32);
        let next = first.plus(count as u32);
        let is_here = segment.header.seq.0 == next.0 && !goes_elsewhere(self.ports, segment);
        (segment.header.flags.is_rst() && self.acked) && is_here
    }

    /// Adds a segment that was sent to what is known.
    fn learn(
        &mut self,
        place: u64,
        is_further: bool,
        segment: &RawSegment<'_>,
    ) -> Result<(), AllocError>
        requires place { place ≡ place_of self.old (raw_content segment.now) }
        requires further { is_further ≡ goes_further self.old.heard (raw_content segment.now) }
        requires most { place < 2 ^ 63 + 2 ^ 32 }
        requires short { length segment.now.text.now ≤ max_text_len }
        ensures known { OnOk result (self.new ≡ known_after self.old (raw_content segment.now)) }
        ensures err { OnErr result (self.new ≡ self.old) }
    {
        let is_end = self.ends_by(segment);
        if !self.is_keep_alive(place, segment) {
            self.stream.extend(place, segment.text)?;
        }
        if place > 0 && segment.header.flags.is_fin() {
            self.fin = Some(place + segment.text.len() as u64);
        }
        self.initial = initial_after(self.initial, segment);
        self.fast = self.fast || opens_fast(segment);
        self.ended = !is_syn(segment) && (self.ended || is_end);
        self.tell(is_further, segment);
        Ok(())
    }

    /// The position that a segment which came acknowledges: 0 where that is none, or more than was sent.
    fn acked_position(&self, segment: &RawSegment<'_>) -> u64
        ensures { result ≡ acked_position self.now (raw_content segment.now) }
    {
        let next = self.stream.count_taken(self.fin.is_some());
        acked_position_by(self.initial, self.stream.count(), next, segment)
    }

    /// How many of the bytes that are kept a segment that came acknowledges.
    fn count_acked(&self, segment: &RawSegment<'_>) -> usize
        ensures count { result ≡ count_acked self.now (raw_content segment.now) }
        ensures most { result ≤ length self.now.stream.sent }
    {
        let position = self.acked_position(segment);
        self.stream.count_covered(self.fin.is_some(), position)
    }

    /// What a segment that came changes of what was sent: what it acknowledges is forgotten, and all where it leads back
    /// to where nothing is sent.
    fn follow(&mut self, segment: &RawSegment<'_>)
        ensures { self.new ≡ record (known_with self.old (raw_content segment.now)) { answers = self.old.answers; heard = self.old.heard } }
    {
        let position = self.acked_position(segment);
        self.edge.widen(position, segment);
        if segment.header.flags.is_rst() && !self.acked {
            self.initial = None;
            self.stream.forget();
            self.fin = None;
        } else {
            let acked = self.count_acked(segment);
            self.stream.release(acked);
        }
        self.acked = self.acked || position > 0;
        self.fast = self.fast || opens_fast(segment);
    }

    /// A segment came from `src` to `dst`. The text that it acknowledges is forgotten. One with other ports than those of the
    /// SYN that was sent adds nothing. After an `Err`, for which there was no memory, no more is known than before.
    pub fn came(&mut self, src: Addr, dst: Addr, bytes: &[u8]) -> Result<(), AllocError>
        ensures known { OnOk result (self.new ≡ known_came self.old (taken_of src.0 dst.0 bytes.now)) }
        ensures err { OnErr result (self.new ≡ self.old) }
    {
        let Some(segment) = read_taken(src, dst, bytes) else {
            return Ok(());
        };
        if is_elsewhere(self.ports, &segment) {
            return Ok(());
        }
        self.syns.reserve(1)?;
        self.answers.reserve(1)?;
        keep_span(&mut self.spans, &segment)?;
        keep_syn(self.acked_number, self.reset, &mut self.syns, &segment);
        let next = self.stream.count_taken(self.fin.is_some());
        keep_answer(self.initial, next, &mut self.answers, &segment);
        self.follow(&segment);
        self.reset = self.reset || segment.header.flags.is_rst();
        self.scaling = self.scaling || offers_scale(&segment);
        self.sack = self.sack || offers_sack(&segment);
        if segment.header.flags.is_rst() {
            self.ports = None;
        }
        Ok(())
    }

    /// A segment was sent from `src` to `dst`: the first rule that it breaks, if it breaks one. What it acknowledges is
    /// forgotten. After an `Err`, for which there was no memory, no more is known than before; a stream of 2^63 bytes has
    /// none.
    #[tactic(auto, using(crate::proofs::Orders::option_or_four))]
    pub fn went(
        &mut self,
        src: Addr,
        dst: Addr,
        bytes: &[u8],
    ) -> Result<Option<Finding>, AllocError>
        ensures finding { IfOk result (λ finding. finding ≡ finding_read self.old (decode_answer src.0 dst.0 bytes.now)) }
        ensures known { OnOk result (self.new ≡ known_read self.old (decode_answer src.0 dst.0 bytes.now)) }
        ensures err { OnErr result (self.new ≡ self.old) }
    {
        let segment = match RawSegment::parse(src, dst, bytes) {
            Ok(segment) => segment,
            Err(fault) => return Ok(Some(Finding::Unreadable(fault))),
        };
        let place = self.place(&segment);
        let early = self.early_finding(place, &segment);
        self.note_spans(early.is_none(), &segment);
        let (is_beyond, is_further) = self.look(early.is_none(), &segment);
        let found = self.finding(early, is_beyond, is_further, &segment);
        let finding = self.last_finding(found, place, &segment);
        self.learn(place, is_further, &segment)?;
        Ok(finding)
    }
}
