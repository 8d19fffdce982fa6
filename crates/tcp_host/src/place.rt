//! Where something is in a host.

/// Whose turn it is, or who was told the time.
#[derive(Clone, Copy, Debug, PartialEq, Eq)]
pub enum Place {
    /// The end in this slot.
    End(usize),
    /// The TIME-WAIT record in this slot.
    Record(usize),
}
