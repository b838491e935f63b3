//! How many pages of one class may be partly full, set by a caller in C.
ghost use Rattle.held_heap.specs.Bound.{IsBoundCall};

use crate::held::Held;
use c_base::{BOUND, DONE, LIVE, UNKNOWN};
use cf_model::Manager;
use paged_heap::{PageKind, PagedHeap};
use step_ledger::Meter;

impl<A: PageKind> Held<PagedHeap<A>> {
    /// For C, sets to `k`, 1 to 64, how many pages of the class with slots of `slot_words` words
    /// may be partly full. Returns `DONE`; else, with nothing changed, `BOUND` if k is out of
    /// range, `LIVE` if an object is live, or `UNKNOWN` if no class has such slots. Counts no
    /// steps.
    pub fn set_bound(&mut self, slot_words: u32, k: u32) -> i32
        ensures { IsBoundCall self.old slot_words k result self.new }
    {
        if k < 1 || 64 < k {
            return BOUND;
        }
        let mut meter = Meter::for_library(self.memory);
        if self.heap.totals(meter.steps()).live != 0 {
            return LIVE;
        }
        if self.heap.set_bound(slot_words, k) {
            return DONE;
        }
        UNKNOWN
    }
}
