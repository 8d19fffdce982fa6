//! The answers of the calls, and how they write their texts.
ghost use Rattle.std.specs.Prelude.{◌≡◌, ◌≤◌, length, take, nat_le, if◌then◌else◌};
ghost use Rattle.tcp_web.specs.Answers.{no_room};

/// No call and no step was refused; or the segment was found; or no rule is broken.
pub const WELL: u32 = 0;

/// A line of the report says `refused`; or a segment is malformed; or a rule is broken.
pub const REFUSED: u32 = 1;

/// The script has a fault, and its line was written; or a line of the list or log is bad.
pub const FAULT: u32 = 2;

/// The block is too small.
pub const NO_MEMORY: u32 = 3;

/// There is too little room for the text.
pub const NO_ROOM: u32 = 4;

/// The side emits no segment of this number, or the number of the side is neither 0 nor 1; or the event delivers no
/// segment.
pub const NO_SEGMENT: u32 = 5;

/// The address of the machine where a capture was taken is none.
pub const NO_ADDRESS: u32 = 6;

/// The capture has no end that could be judged: the report says so.
pub const NOTHING_JUDGED: u32 = 7;

/// The capture is cut short or damaged: the report is of what is before that.
pub const BAD_CAPTURE: u32 = 8;

/// Writes a text, reports its length, and returns this answer; [`NO_ROOM`] where the text is too long, and then nothing
/// is written.
pub(crate) fn put(text: &[u8], out: &mut [u8], count: &mut usize, answer: u32) -> u32
    ensures count { count.new ≡ length text.now }
    ensures room { length out.new ≡ length out.old }
    ensures answer { result ≡ (if nat_le (length text.now) (length out.old) then answer else no_room) }
    ensures text { length text.now ≤ length out.old → take (length text.now) out.new ≡ text.now }
{
    *count = text.len();
    if text.len() > out.len() {
        return NO_ROOM;
    }
    out[..text.len()].copy_from_slice(text);
    answer
}
