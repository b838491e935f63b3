//! The slot that a pending job of the sliced heap holds.

/// The slot that a pending job clears, or from which it moves an object. The job holds the slot
/// until its last word is done.
#[derive(Clone, Copy, Debug, PartialEq, Eq)]
pub struct JobSlot {
    /// The first word of the slot, counted from the start of the region.
    pub address: u32,
    /// The number of the slot's size class, from 0 on. It determines how many words the slot has.
    pub class: u32,
    /// How many words of the slot, from its first on, are cleared or moved so far.
    pub done: u32,
}
