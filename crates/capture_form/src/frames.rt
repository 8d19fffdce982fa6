ghost use Rattle.std.specs.Prelude.{◌≡◌, ◌↔◌, ◌∷◌, [], None, Some, IsNone, ◌≤◌, IfSome, MatchOption, drop, length};
ghost use Rattle.capture_form.specs.Pcap.{is_damaged, record_at, records_of, stopping, frames_of};
ghost use Rattle.capture_form.specs.declared.reading.Stop.TheVariants.{NoCapture};
ghost use Rattle.capture_form.specs.View.{frame_content};

use crate::bytes::behind;
use crate::form::{Form, read_form};
use crate::frame::Frame;
use std::marker::Model;

/// The most that is captured of a frame (libpcap's MAXIMUM_SNAPLEN).
const MAX_CAPTURED: usize = 262_144;

/// Whether a record begins so that tells more than can be captured: no frame follows a damaged record.
pub fn is_damaged(form: Form, bytes: &[u8]) -> bool
    ensures { result ≡ is_damaged form bytes.now }
{
    if bytes.len() < 16 {
        return false;
    }
    form.order.read_u32(&bytes[8..]) as usize > MAX_CAPTURED
}

/// The frame whose record begins these bytes, and the bytes after it.
#[tactic(auto, unfolding(crate::specs::Pcap::record_at))]
pub fn read_record(form: Form, bytes: &[u8]) -> Option<(Frame<'_>, &[u8])>
    ensures { MatchOption result (record_at form bytes.now ≡ None) (λ r. record_at form bytes.now ≡ Some (frame_content r.0, r.1.now)) }
{
    if bytes.len() < 16 {
        return None;
    }
    let seconds = form.order.read_u32(bytes);
    let units = form.order.read_u32(&bytes[4..]);
    let captured = form.order.read_u32(&bytes[8..]) as usize;
    let wire = form.order.read_u32(&bytes[12..]);
    let rest = &bytes[16..];
    if rest.len() < captured || captured > MAX_CAPTURED {
        return None;
    }
    let frame = Frame {
        link: form.link,
        time: u64::from(seconds) * 1_000_000_000 + u64::from(units) * form.unit.nanoseconds(),
        wire,
        bytes: &rest[..captured],
    };
    Some((frame, &rest[captured..]))
}

/// The frames of a capture that weren't taken yet, in their order. A clause sees them as the list of their contents, and
/// what is behind the last of them.
#[derive(Debug, Drop)]
pub struct Frames<'a> {
    form: Form,
    rest: &'a [u8],
}

impl<'a> Model for Frames<'a> {
    ghost use Rattle.std.specs.Prelude.{ℕ, List};
    ghost use Rattle.capture_form.specs.Pcap.{FrameContent, records_of};

    ghost Value = { List FrameContent × List ℕ };

    ghost view = { λ f. records_of f.form f.rest.now };
}

impl<'a> Frames<'a> {
    /// The frames of a capture; `None` where it is none in the pcap form.
    pub fn open(bytes: &'a [u8]) -> Option<Self>
        ensures value { MatchOption result (frames_of bytes.now ≡ ([], NoCapture)) (λ f. frames_of bytes.now ≡ stopping (length bytes.now) f) }
        ensures inside { IfSome result (λ f. length f.1 ≤ length bytes.now) }
    {
        match read_form(bytes) {
            Some(form) => Some(Frames {
                form,
                rest: behind(bytes, 24),
            }),
            None => None,
        }
    }

    /// Takes the next frame; `None` where the form ends.
    pub fn next(&mut self) -> Option<Frame<'a>>
        ensures some { IfSome result (λ frame. self.old ≡ (frame_content frame ∷ self.new.0, self.new.1)) }
        ensures none { IsNone result ↔ (self.old.0 ≡ []) }
        ensures end { IsNone result → self.new ≡ self.old }
    {
        match read_record(self.form, self.rest) {
            Some((frame, behind)) => {
                self.rest = behind;
                Some(frame)
            }
            None => None,
        }
    }

    /// What is behind the last frame, once all were taken: nothing, or a record that was cut short.
    pub fn behind(&self) -> &'a [u8]
        requires { self.now.0 ≡ [] }
        ensures { result.now ≡ self.now.1 }
    {
        self.rest
    }
}
