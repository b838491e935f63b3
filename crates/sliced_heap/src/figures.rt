//! The figures of an open sliced heap: counts of live objects, bytes, pages and slots; and for callers that plan a call
//! the words of an object's slot and the class of a length. A pending job's slot counts as used and as taken.
ghost use Rattle.std.specs.Prelude.{◌≡◌, ◌+◌, ◌*◌, ◌<◌};
ghost use Rattle.cf_base.specs.Classes.{class_of};
ghost use Rattle.page_model.specs.Figures.{taken_bytes};
ghost use Rattle.page_model.specs.Held.{objects};
ghost use Rattle.page_model.specs.Paging.{classes, slot_words};
ghost use Rattle.slice_model.specs.State.{occupied};
ghost use Rattle.step_ledger.specs.Counting.{RoseBy};
ghost use Rattle.sliced_heap.specs.Figures.{class_figures, sliced_figures_in, sliced_totals_in, sliced_words_steps, slot_words_in};
ghost use Rattle.sliced_heap.specs.Heap.{sliced_seen};
ghost use Rattle.sliced_heap.specs.Layout.{IsValid, plan_of, sliced_paging, sliced_state_of};

use crate::open_heap::{OpenHeap, Pending};
use cf_base::{Figures, Handle, Totals};
use class_lists::Which;
use step_ledger::Steps;

impl OpenHeap {
    /// In a sliced heap, the figures of class c: its slot size in words, slots of a page, live
    /// objects, pages and partly full pages. None if there is no such class. A pending job's slot
    /// counts as used, but not as live.
    pub fn figures(&self, c: u32) -> Option<Figures>
        requires { IsValid (sliced_seen self.now) }
        ensures { result ≡ sliced_figures_in (plan_of (sliced_seen self.now)) (sliced_state_of (sliced_seen self.now)) c }
    {
        if c < self.tables.classes.len() {
            Some(self.figures_of(c))
        } else {
            None
        }
    }

    /// In a sliced heap, the figures of class c, as `figures` returns them. The heap must have this
    /// class.
    fn figures_of(&self, c: u32) -> Figures
        requires kept { IsValid (sliced_seen self.now) }
        requires class { c < classes (sliced_paging (sliced_seen self.now)) }
        ensures { result ≡ class_figures (plan_of (sliced_seen self.now)) (sliced_state_of (sliced_seen self.now)) c }
    {
        let not_full = self.lists.len(c, Which::NotFull);
        Figures {
            slot_words: self.tables.classes.slot_words(c),
            slots: self.tables.classes.slots(c),
            live: self.live[c as usize],
            pages: self.lists.len(c, Which::Full) + not_full,
            not_full,
        }
    }

    /// The figures of the whole open sliced heap: live objects, their bytes and those of their
    /// slots, the used pages and their bytes, the free pages, and the words of a page if one is
    /// free, else 0. A pending job's slot counts as used and its bytes as taken, but neither as
    /// live nor as asked for.
    pub fn totals(&self) -> Totals
        requires { IsValid (sliced_seen self.now) }
        ensures { result ≡ sliced_totals_in (plan_of (sliced_seen self.now)) (sliced_state_of (sliced_seen self.now)) }
    {
        let free = self.tables.pool.left();
        let used = self.settings.pages - free;
        let page_words = self.settings.page_words;
        Totals {
            live: self.proxies.live(),
            asked: self.asked,
            taken: self.taken_with_job(),
            held: 8 * u64::from(page_words) * u64::from(used),
            used,
            free,
            largest: if free == 0 { 0 } else { page_words },
        }
    }

    /// In a sliced heap, the bytes of the objects' slots, and of the pending job's slot if there is
    /// a job.
    fn taken_with_job(&self) -> u64
        requires { IsValid (sliced_seen self.now) }
        ensures { result ≡ taken_bytes (sliced_paging (sliced_seen self.now)) (objects (occupied (plan_of (sliced_seen self.now)) (sliced_state_of (sliced_seen self.now)))) }
    {
        match self.job {
            Pending::Idle => self.taken,
            Pending::Clear(k) => self.taken_with(k.class),
            Pending::Move(_, k) => self.taken_with(k.class),
        }
    }

    /// In a sliced heap, the bytes of the objects' slots and of one more slot of class c.
    fn taken_with(&self, c: u32) -> u64
        requires kept { IsValid (sliced_seen self.now) }
        requires class { c < classes (sliced_paging (sliced_seen self.now)) }
        ensures { result ≡ self.now.taken + 8 * slot_words (sliced_paging (sliced_seen self.now)) c }
    {
        self.taken + 8 * u64::from(self.tables.classes.slot_words(c))
    }

    /// In a sliced heap, the number of words of an object's slot, also while a job moves the
    /// object; none if the handle is not live. Costs three steps; one if not live.
    pub fn slot_words(&self, h: Handle, steps: &mut Steps) -> Option<u32>
        requires { IsValid (sliced_seen self.now) }
        ensures value { result ≡ slot_words_in (plan_of (sliced_seen self.now)) (sliced_state_of (sliced_seen self.now)).held h.0 }
        ensures steps { RoseBy steps.old steps.new (sliced_words_steps result) }
    {
        let Some(length) = self.length(h, steps) else {
            return None;
        };
        let Some(c) = self.tables.classes.class_of(length, steps) else {
            unreachable!();
        };
        Some(self.tables.classes.slot_words(c))
    }

    /// In a sliced heap, the class of an object of `bytes` bytes; none if it needs more than a
    /// page. Costs one step.
    pub fn class_of(&self, bytes: u32, steps: &mut Steps) -> Option<u32>
        requires { IsValid (sliced_seen self.now) }
        ensures value { result ≡ class_of (sliced_paging (sliced_seen self.now)).sizes bytes }
        ensures steps { RoseBy steps.old steps.new 1 }
    {
        self.tables.classes.class_of(bytes, steps)
    }
}
