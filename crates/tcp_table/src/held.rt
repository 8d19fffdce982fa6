//! What a slot of a table has.

/// A value, with the key that it is under and a number that no other value of its table has or had: 1 or more.
#[derive(Debug, Drop)]
pub struct Held<K, T> {
    /// The key.
    pub key: K,
    /// The number.
    pub number: u64,
    /// The value.
    pub value: T,
}

/// A handle of a value: its slot and its number. Once the value is gone it is a handle of none, whoever has the slot
/// then. No value has the number 0: a handle with it is one of none.
#[derive(Clone, Copy, Debug, PartialEq, Eq)]
pub struct Id {
    /// The slot.
    pub slot: usize,
    /// The number.
    pub number: u64,
}
