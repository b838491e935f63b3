//! Calls of `Held`, an open heap of a manager (the held manager), for a caller in C that plans a
//! call: how many words an object's slot or block has, and with pages the class of a length.
ghost use Rattle.held_heap.specs.Slots.{IsClassCall, IsSlotWordsCall};

use crate::held::Held;
use crate::of_kind::OfKind;
use c_base::{DONE, SIZE, UNKNOWN};
use cf_base::Handle;
use paged_heap::{PageKind, PagedHeap};
use step_ledger::Meter;

impl<H: OfKind> Held<H> {
    /// For a held manager, writes how many words an object's slot or block has into `words`, as a
    /// free of it would. Returns `DONE`, or `UNKNOWN` if the handle isn't live; then `words` is
    /// unchanged.
    pub fn slot_words(&mut self, handle: u32, words: &mut u32) -> i32
        ensures { IsSlotWordsCall H.of_kind self.old handle words.old result words.new self.new }
    {
        let number = self.handles.number_in(handle);
        let mut meter = Meter::for_library(self.memory);
        let answer = self.heap.words_of(Handle(number), meter.steps());
        self.steps = meter.lap();
        match answer {
            Some(n) => {
                *words = n;
                DONE
            }
            None => UNKNOWN,
        }
    }
}

impl<A: PageKind> Held<PagedHeap<A>> {
    /// For a held manager, writes into `class` the number, from 0, of the class of an object of
    /// `bytes` bytes. Returns `DONE`, or `SIZE` if it needs more than a page; then `class` is
    /// unchanged.
    pub fn class_of(&mut self, bytes: u32, class: &mut u32) -> i32
        ensures { IsClassCall self.old bytes class.old result class.new self.new }
    {
        let mut meter = Meter::for_library(self.memory);
        let answer = self.heap.class_of(bytes, meter.steps());
        self.steps = meter.lap();
        match answer {
            Some(c) => {
                *class = c;
                DONE
            }
            None => SIZE,
        }
    }
}
