//! A capture judged, and the exported function.
ghost use Rattle.std.specs.Prelude.{◌≡◌, ◌≢◌, ◌≤◌, ◌<◌, IfOk, IfSome, length};
ghost use Rattle.tcp_web.specs.Answers.{fault, no_memory, no_room, no_address, bad_capture, IsOfReport};

use crate::answers::{
    BAD_CAPTURE, FAULT, NO_ADDRESS, NO_MEMORY, NOTHING_JUDGED, REFUSED, WELL, put,
};
use capture_ends::{
    Capture, CaptureError, Host, Paint, Verdict, Watcher, judge_capture, open_capture, report,
};
use capture_window::Window;
use kit_io::Counted;
use region_heap::{Block, Region};
use std::alloc::Allocator;

/// Nobody is told how far a capture is read.
struct Unwatched;

impl Watcher for Unwatched {
    fn tell(&self, _packets: usize) {}
}

/// A capture's report, and what is answered.
#[derive(Drop)]
struct Told<A: Allocator> {
    text: String<A>,
    answer: u32,
}

/// How a report is to be.
#[derive(Clone, Copy)]
struct Wanted {
    at: Option<Host>,
    is_json: bool,
    paint: Paint,
}

/// What a capture's verdict comes to.
fn answer_of<A: Allocator>(capture: &Capture<A>, verdict: Verdict) -> u32
    ensures { IsOfReport result }
{
    if capture.is_cut {
        BAD_CAPTURE
    } else if verdict.ends == 0 {
        NOTHING_JUDGED
    } else if verdict.findings == 0 {
        WELL
    } else {
        REFUSED
    }
}

/// The report of a capture; `None` where the bytes are none.
fn told_of<A: Allocator + Copy>(
    alloc: A,
    file: &[u8],
    wanted: Wanted,
) -> Result<Option<Told<A>>, CaptureError>
    ensures { IfOk result (λ found. IfSome found (λ told. IsOfReport told.answer)) }
{
    let mut input = Counted::new(file);
    let mut window = Window::new(alloc);
    let Some(form) = open_capture(&mut input, &mut window)? else {
        return Ok(None);
    };
    let capture = judge_capture(alloc, form, &mut input, &mut window, &Unwatched)?;
    let (text, verdict) = report(alloc, &capture, wanted.at, wanted.is_json, wanted.paint)?;
    Ok(Some(Told {
        text,
        answer: answer_of(&capture, verdict),
    }))
}

/// The address that these bytes name, if they do; none where there are none.
fn place_of(at: &[u8]) -> Result<Option<Host>, ()> {
    if at.is_empty() {
        return Ok(None);
    }
    match Host::read(at) {
        Some(host) => Ok(Some(host)),
        None => Err(()),
    }
}

/// Judges a capture in the pcap or the pcapng form, both ends of each of its connections, and writes the report: [`WELL`]
/// where no rule is broken, [`REFUSED`] where one is, [`NOTHING_JUDGED`] where no end was judged, and [`BAD_CAPTURE`] where
/// the capture is cut short or damaged. `at` is the address of the machine where it was taken, or empty; [`NO_ADDRESS`]
/// where it is none. Where the file is no capture the answer is [`FAULT`]. Where `is_json` isn't 0 the report is JSON, a
/// line each, and where `is_painted` isn't 0 it has colors.
#[unsafe(no_mangle)]
pub extern "C" fn tcp_web_capture(
    memory: Block,
    file: &[u8],
    at: &[u8],
    is_json: u32,
    is_painted: u32,
    out: &mut [u8],
    count: &mut usize,
) -> u32
    ensures nothing { result ≡ fault → count.new ≡ 0 }
    ensures no_memory { result ≡ no_memory → count.new ≡ 0 }
    ensures no_address { result ≡ no_address → count.new ≡ 0 }
    ensures fits { result ≢ no_room → count.new ≤ length out.old }
    ensures no_room { result ≡ no_room → length out.old < count.new }
    ensures answers { result ≤ bad_capture }
{
    *count = 0;
    let Ok(at) = place_of(at) else {
        return NO_ADDRESS;
    };
    let wanted = Wanted {
        at,
        is_json: is_json != 0,
        paint: Paint {
            is_on: is_painted != 0,
        },
    };
    let region = Region::new(memory);
    match told_of(&region, file, wanted) {
        Ok(Some(told)) => put(told.text.as_bytes(), out, count, told.answer),
        Ok(None) => FAULT,
        Err(_) => NO_MEMORY,
    }
}
