ghost use Rattle.std.specs.Prelude.{◌≡◌, ◌≤◌, IfOk, length, map};
ghost use Rattle.capture_form.specs.Pcap.{frames_of, stop_before};
ghost use Rattle.capture_form.specs.View.{frame_content};

use crate::frame::Frame;
use crate::frames::Frames;
use std::alloc::{AllocError, Global};

/// Where reading ends.
#[derive(Clone, Copy, Debug, PartialEq, Eq)]
pub enum Stop {
    /// Behind a frame, at the capture's end.
    Whole,
    /// At this byte: what follows is less than a record, or one that tells more than can be captured.
    Cut { at: usize },
    /// At once: it is no capture in the pcap form.
    NoCapture,
}

/// Where reading ends in so many bytes, with these behind the last frame.
pub(crate) fn stop_before(whole: usize, behind: &[u8]) -> Stop
    requires { length behind.now ≤ whole }
    ensures { result ≡ stop_before whole behind.now }
{
    if behind.is_empty() {
        Stop::Whole
    } else {
        Stop::Cut {
            at: whole - behind.len(),
        }
    }
}

/// The frames of a capture, and where reading ends.
pub fn read<'a>(alloc: Global, bytes: &'a [u8]) -> Result<(Vec<Frame<'a>>, Stop), AllocError>
    ensures { IfOk result (λ r. (map frame_content r.0.items, r.1) ≡ frames_of bytes.now) }
{
    let mut found = Vec::new(alloc);
    let Some(mut frames) = Frames::open(bytes) else {
        return Ok((found, Stop::NoCapture));
    };
    while let Some(frame) = frames.next() {
        found.push(frame)?;
    }
    let left = frames.behind();
    let stop = stop_before(bytes.len(), left);
    Ok((found, stop))
}
