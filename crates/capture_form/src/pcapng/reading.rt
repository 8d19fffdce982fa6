ghost use Rattle.std.specs.Prelude.{◌≡◌, IfOk};
ghost use Rattle.capture_form.specs.Sections.{sections_of};
ghost use Rattle.capture_form.specs.SectionView.{reading_content};

use super::block::is_section;
use super::section::{Section, Step};
use crate::frame::Frame;
use crate::reading::{Stop, stop_before};
use std::alloc::{AllocError, Global};

/// What a capture has.
#[derive(Debug, Drop)]
pub struct Reading<'a> {
    pub frames: Vec<Frame<'a>>,
    /// Whether packets are missing: it tells of drops, or has obsolete packet blocks.
    pub is_lossy: bool,
    /// Where reading ends.
    pub stop: Stop,
}

/// The frames of a capture, whether packets are missing, and where reading ends.
pub fn read<'a>(alloc: Global, bytes: &'a [u8]) -> Result<Reading<'a>, AllocError>
    ensures { IfOk result (λ r. reading_content r ≡ sections_of bytes.now) }
{
    let mut frames = Vec::new(alloc);
    if !is_section(bytes) {
        return Ok(Reading {
            frames,
            is_lossy: false,
            stop: Stop::NoCapture,
        });
    }
    let mut section = Section::new(alloc);
    let mut rest = bytes;
    loop {
        match section.step(rest)? {
            Step::NoBlock => {
                return Ok(Reading {
                    frames,
                    is_lossy: section.is_lossy(),
                    stop: stop_before(bytes.len(), rest),
                });
            }
            Step::Passed(behind) => rest = behind,
            Step::Packet(frame, behind) => {
                frames.push(frame)?;
                rest = behind;
            }
        }
    }
}
