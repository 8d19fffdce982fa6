//! What a segment brought of the peer's stream, and whether its window was taken.
ghost use Rattle.std.specs.Prelude.{◌≡◌};
ghost use Rattle.tcp_wire.specs.View.{raw_content};
ghost use Rattle.tcp_conn.specs.Taking.{brings, brought_as, brought_in_vain};

use tcp_reasm::Placed;
use tcp_wire::RawSegment;

/// What a segment brought of the peer's stream (RFC 9293, 3.10.7.4, seventh and eighth).
#[derive(Clone, Copy, Debug, PartialEq, Eq)]
pub enum Brought {
    /// It has neither text nor a FIN.
    Nothing,
    /// Text or a FIN that came in order: RCV.NXT was moved.
    InOrder,
    /// Text that came out of order, and is kept until what is missing before it comes.
    Held,
    /// Text or a FIN of which nothing is kept: it came before, lies outside the window, or wasn't taken.
    NotKept,
}

/// What is reported of the effect of a segment.
#[derive(Clone, Copy, Debug, PartialEq, Eq)]
pub(crate) struct Effect {
    /// Whether its window was taken.
    pub(crate) window_taken: bool,
    /// What it brought.
    pub(crate) brought: Brought,
}

impl Brought {
    /// How a text was placed.
    pub(crate) fn text(placed: Placed) -> Brought
        ensures { result ≡ brought_as placed }
    {
        match placed {
            Placed::Advanced(_) => Brought::InOrder,
            Placed::Held => Brought::Held,
            Placed::NotKept => Brought::NotKept,
        }
    }

    /// What a segment brought of which nothing is kept.
    pub(crate) fn in_vain(segment: &RawSegment<'_>) -> Brought
        ensures { result ≡ brought_in_vain (raw_content segment.now) }
    {
        if brings(segment) {
            Brought::NotKept
        } else {
            Brought::Nothing
        }
    }
}

/// Whether a segment has text or a FIN.
pub(crate) fn brings(segment: &RawSegment<'_>) -> bool
    ensures { result ≡ brings (raw_content segment.now) }
{
    !segment.text.is_empty() || segment.header.flags.is_fin()
}
