//! How a burst's segments come.
ghost use Rattle.std.specs.Prelude.{◌≡◌, ◌≤◌};
ghost use Rattle.bench_transfer.specs.Modes.{mode_of, segments_of, text_of, acknowledged_of, is_first_late};

/// A burst.
#[derive(Clone, Copy, Debug, PartialEq, Eq)]
pub enum Mode {
    /// Two segments, in order, and an acknowledgement after them.
    InOrder,
    /// Two segments, in order, and an acknowledgement after each.
    EachAcknowledged,
    /// Two segments of one byte, in order.
    OneByte,
    /// Ten, the first of which arrives last.
    Late,
    /// Forty, the first of which arrives last.
    Early,
}

/// The mode of this name.
pub fn mode_of(name: &str) -> Option<Mode>
    ensures { result ≡ mode_of name.now }
{
    match name {
        "in_order" => Some(Mode::InOrder),
        "each_acknowledged" => Some(Mode::EachAcknowledged),
        "one_byte" => Some(Mode::OneByte),
        "late" => Some(Mode::Late),
        "early" => Some(Mode::Early),
        _ => None,
    }
}

impl Mode {
    /// How many segments a burst has.
    pub fn segments(self) -> usize
        ensures { result ≡ segments_of self }
    {
        match self {
            Mode::InOrder | Mode::EachAcknowledged | Mode::OneByte => 2,
            Mode::Late => 10,
            Mode::Early => 40,
        }
    }

    /// How many bytes of text a segment has.
    pub fn text(self) -> usize
        ensures value { result ≡ text_of self }
        ensures most { result ≤ 1460 }
    {
        if self == Mode::OneByte { 1 } else { 1460 }
    }

    /// Whether the text of all its segments is written before the first of them is sent.
    pub fn is_written_at_once(self) -> bool {
        self != Mode::OneByte
    }

    /// After how many segments an acknowledgement is sent.
    pub fn acknowledged(self) -> usize
        ensures value { result ≡ acknowledged_of self }
        ensures some { 1 ≤ result }
    {
        if self == Mode::EachAcknowledged { 1 } else { 2 }
    }

    /// Whether its first segment arrives last.
    pub fn is_first_late(self) -> bool
        ensures { result ≡ is_first_late self }
    {
        matches!(self, Mode::Late | Mode::Early)
    }
}
