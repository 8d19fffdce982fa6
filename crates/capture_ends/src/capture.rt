//! A capture read to its end.
ghost use Rattle.std.specs.Prelude.{◌≡◌, ◌↔◌, ◌++◌, [], IfOk, IfSome, IsSome, None, Some, length, false, true};
ghost use Rattle.capture_form.specs.Blocks.{is_section};
ghost use Rattle.capture_form.specs.Pcap.{form_of};
ghost use Rattle.capture_form.specs.Sections.{start};
ghost use Rattle.capture_window.specs.Windows.{Holds, HoldsBehind, wires, section_wires};
ghost use Rattle.capture_ends.specs.Captures.{frames_behind, pcap_form};

use crate::connections::Connections;
use crate::error::CaptureError;
use crate::judged_end::Packet;
use capture_form::pcapng::{Section, is_section};
use capture_form::{Form, Found, Frame, packet_of, tcp_of};
use capture_window::{Taker, Window, open, take_frames, take_sections};
use kit_io::{Input, ReadError};
use std::alloc::{AllocError, Allocator, Global};
use std::marker::Model;

/// Who is told how far a capture is read.
pub trait Watcher {
    /// So many packets are read.
    fn tell(&self, packets: usize);
}

/// The form of a capture.
#[derive(Clone, Copy, Debug, PartialEq, Eq)]
pub enum CaptureForm {
    /// pcap, with what its first bytes tell.
    Pcap(Form),
    /// pcapng.
    Sections,
}

/// What a capture has. A clause sees it as how many frames it has, and whether it is cut short or damaged.
#[derive(Drop)]
pub struct Capture<A: Allocator = Global> {
    /// The link of its frames, of the first where they may differ.
    pub(crate) link: Option<u16>,
    pub(crate) connections: Connections<A>,
    /// How many frames it has.
    pub packets: usize,
    /// Whether a record that was cut short, or is damaged, ends it.
    pub is_cut: bool,
    /// Whether packets are missing: dropped when it was taken, or in obsolete packet blocks.
    pub(crate) is_lossy: bool,
}

impl<A: Allocator> Model for Capture<A> {
    ghost use Rattle.capture_ends.specs.Captures.{CaptureContent};

    ghost Value = { CaptureContent };

    ghost view = { λ c. record { packets = c.packets; is_cut = c.is_cut } };
}

/// The most bytes of a segment that is judged: what a packet of IPv4 carries.
const MOST: usize = 65_515;

/// Whether a packet tells no length, so that it is all that was captured, and not all of its frame was.
fn is_cut_train(frame: &Frame<'_>, packet: &[u8]) -> bool {
    if frame.bytes.len() >= frame.wire as usize {
        return false;
    }
    match packet {
        [first, _, _, _, 0, 0, ..] if first / 16 == 6 => true,
        [first, _, 0, 0, ..] => first / 16 == 4,
        _ => false,
    }
}

/// Takes what a frame has of TCP.
fn take_frame<A: Allocator + Copy>(
    connections: &mut Connections<A>,
    alloc: A,
    number: usize,
    frame: &Frame<'_>,
) -> Result<(), AllocError> {
    let left_out = &mut connections.left_out;
    let Some(packet) = packet_of(frame.link, frame.bytes) else {
        left_out.others = left_out.others.saturating_add(1);
        return Ok(());
    };
    let seen = Packet {
        number,
        time: frame.time,
        is_mended: false,
    };
    let is_whole = !is_cut_train(frame, packet);
    match tcp_of(packet) {
        Found::Segment { src, dst, bytes } if is_whole && bytes.len() <= MOST => {
            connections.take(alloc, seen, src, dst, bytes)?;
        }
        Found::Segment6 { src, dst, bytes } if is_whole && bytes.len() <= MOST => {
            connections.take6(alloc, seen, src, dst, bytes)?;
        }
        Found::Segment { .. } | Found::Segment6 { .. } | Found::CutShort => {
            left_out.cut = left_out.cut.saturating_add(1);
            connections.leave_out(packet)?;
        }
        Found::Fragment => {
            left_out.fragments = left_out.fragments.saturating_add(1);
            connections.leave_out(packet)?;
        }
        Found::Other => left_out.others = left_out.others.saturating_add(1),
    }
    Ok(())
}

/// Reads which form a capture has; `None` where it has neither: what was read is in the window then.
pub fn open_capture<I: Input, A: Allocator>(
    input: &mut I,
    window: &mut Window<A>,
) -> Result<Option<CaptureForm>, CaptureError>
    ensures pcap { IfOk result (λ form. IfSome (I.remaining input.old) (λ bytes. pcap_form form ≡ form_of (window.old ++ bytes))) }
    ensures behind { IfOk result (λ form. IsSome (pcap_form form) → HoldsBehind (I.remaining input.old) window.old (I.remaining input.new) window.new) }
    ensures sections { IfOk result (λ form. form ≡ Some CaptureForm.Sections → is_section window.new ≡ true) }
    ensures none { IfOk result (λ form. form ≡ None → is_section window.new ≡ false) }
    ensures held { IfOk result (λ form. pcap_form form ≡ None → Holds (I.remaining input.old) window.old (I.remaining input.new) window.new) }
{
    if let Some(form) = open(input, window)? {
        return Ok(Some(CaptureForm::Pcap(form)));
    }
    if is_section(window.bytes()) {
        return Ok(Some(CaptureForm::Sections));
    }
    Ok(None)
}

/// The frames of a capture go to its connections.
#[derive(Drop)]
struct Frames<'a, W: Watcher, A: Allocator> {
    connections: &'a mut Connections<A>,
    alloc: A,
    /// The link of the first frame.
    link: Option<u16>,
    watcher: &'a W,
}

impl<'a, W: Watcher, A: Allocator + Copy> Taker for Frames<'a, W, A> {
    fn take(&mut self, number: usize, frame: &Frame<'_>) -> Result<(), ReadError> {
        self.link = self.link.or(Some(frame.link));
        self.watcher.tell(number);
        match take_frame(self.connections, self.alloc, number, frame) {
            Ok(()) => Ok(()),
            Err(_) => Err(ReadError::NoMemory),
        }
    }
}

/// Reads the frames behind a capture's form. What is held is the state of each connection, and the record that is read.
fn read_records<I: Input, W: Watcher, A: Allocator + Copy>(
    alloc: A,
    form: Form,
    input: &mut I,
    window: &mut Window<A>,
    watcher: &W,
) -> Result<Capture<A>, CaptureError>
    ensures packets { IfOk result (λ c. IfSome (I.remaining input.old) (λ bytes. c.packets ≡ length (wires form (window.old ++ bytes)))) }
    ensures cut { IfOk result (λ c. (c.is_cut ≡ false) ↔ (window.new ≡ [])) }
{
    let mut connections = Connections::new(alloc);
    let mut frames = Frames {
        connections: &mut connections,
        alloc,
        link: None,
        watcher,
    };
    let packets = take_frames(form, input, window, &mut frames)?;
    Ok(Capture {
        link: Some(form.link),
        connections,
        packets,
        is_cut: !window.bytes().is_empty(),
        is_lossy: false,
    })
}

/// Reads the sections of a capture in the pcapng form, the first of which may have begun. What is held is the state of each
/// connection, the interfaces of a section, and the block that is read.
fn read_from<I: Input, W: Watcher, A: Allocator + Copy>(
    alloc: A,
    section: &mut Section<A>,
    input: &mut I,
    window: &mut Window<A>,
    watcher: &W,
) -> Result<Capture<A>, CaptureError>
    ensures packets { IfOk result (λ c. IfSome (I.remaining input.old) (λ bytes. c.packets ≡ length (section_wires section.old (window.old ++ bytes)))) }
    ensures cut { IfOk result (λ c. (c.is_cut ≡ false) ↔ (window.new ≡ [])) }
{
    let mut connections = Connections::new(alloc);
    let mut frames = Frames {
        connections: &mut connections,
        alloc,
        link: None,
        watcher,
    };
    let packets = take_sections(section, input, window, &mut frames)?;
    let link = frames.link;
    let is_lossy = section.is_lossy();
    Ok(Capture {
        link,
        connections,
        packets,
        is_cut: !window.bytes().is_empty(),
        is_lossy,
    })
}

/// Reads the sections of a capture in the pcapng form.
fn read_sections<I: Input, W: Watcher, A: Allocator + Copy>(
    alloc: A,
    input: &mut I,
    window: &mut Window<A>,
    watcher: &W,
) -> Result<Capture<A>, CaptureError>
    ensures packets { IfOk result (λ c. IfSome (I.remaining input.old) (λ bytes. c.packets ≡ length (section_wires start (window.old ++ bytes)))) }
    ensures cut { IfOk result (λ c. (c.is_cut ≡ false) ↔ (window.new ≡ [])) }
{
    let mut section = Section::new(alloc);
    read_from(alloc, &mut section, input, window, watcher)
}

/// Reads what is behind the form of a capture to its end, and judges both ends of each of its connections.
pub fn judge_capture<I: Input, W: Watcher, A: Allocator + Copy>(
    alloc: A,
    form: CaptureForm,
    input: &mut I,
    window: &mut Window<A>,
    watcher: &W,
) -> Result<Capture<A>, CaptureError>
    ensures packets { IfOk result (λ c. IfSome (I.remaining input.old) (λ bytes. c.packets ≡ frames_behind form (window.old ++ bytes))) }
    ensures cut { IfOk result (λ c. (c.is_cut ≡ false) ↔ (window.new ≡ [])) }
{
    match form {
        CaptureForm::Pcap(form) => read_records(alloc, form, input, window, watcher),
        CaptureForm::Sections => read_sections(alloc, input, window, watcher),
    }
}
