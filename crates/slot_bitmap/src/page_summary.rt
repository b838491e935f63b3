//! `PageSummary`, what a slot map keeps of a page beside its words, and how many bytes one has.
use std::mem::size_of;
use step_ledger::WordCell;

/// What a slot map keeps of a page beside its words: two summary words, which show the words with a
/// free slot and those with a used one, and two numbers.
#[derive(Drop)]
pub(crate) struct PageSummary {
    /// Bit j is set if word j has a free slot.
    pub(crate) with_free: WordCell,
    /// Bit j is set if word j has a used slot.
    pub(crate) with_used: WordCell,
    /// How many slots the page has.
    pub(crate) slots: u32,
    /// How many of its slots are used.
    pub(crate) used: u32,
}

/// The bytes of a `PageSummary`.
pub(crate) const SUMMARY_BYTES: u64 = 24;

const _: () = prove!(size_of::<PageSummary>() == 24);
