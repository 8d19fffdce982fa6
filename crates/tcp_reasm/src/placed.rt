/// What became of a piece of text (RFC 9293, 3.10.7.4).
#[derive(Clone, Copy, Debug, PartialEq, Eq)]
pub enum Placed {
    /// As many bytes, at least one, came in order: those of the piece, and what was kept after them.
    Advanced(usize),
    /// The piece came out of order, and is kept until the bytes before it come.
    Held,
    /// Nothing changed: no byte of it is inside the window, or it would have made a run more out of order than
    /// are kept.
    NotKept,
}
