//! How many words an object's slot has in an open heap with pages, and the class of a length, for callers that plan a
//! call.
ghost use Rattle.std.specs.Prelude.{◌≡◌, option_map};
ghost use Rattle.std.specs.FinMap as map;
ghost use Rattle.step_ledger.specs.Counting.{RoseBy};
ghost use Rattle.cf_base.specs.Classes.{class_of};
ghost use Rattle.cf_model.specs.State.{paging_in};
ghost use Rattle.cf_model.specs.Steps.{slot_in};
ghost use Rattle.paged_heap.specs.Slots.{slot_words_steps};
ghost use Rattle.paged_heap.specs.Layout.{Holds, state_at};

use crate::open_heap::OpenHeap;
use cf_base::Handle;
use step_ledger::Steps;
use virtual_words::Mapping;

impl OpenHeap {
    /// The number of words of an object's slot in an open heap with pages; none if the handle is not live. Costs three
    /// steps moving, four non-moving; one if not live.
    pub fn slot_words<A: Mapping>(&self, h: Handle, steps: &mut Steps) -> Option<u32>
        requires { Holds A.kind self.now }
        ensures value { result ≡ option_map (slot_in A.kind (state_at A.kind self.now)) (map.get (state_at A.kind self.now).held h.0) }
        ensures steps { RoseBy steps.old steps.new (slot_words_steps A.kind result) }
    {
        let Some(place) = self.proxies.lookup(h, steps) else {
            return None;
        };
        let length = self.length_at::<A>(place, steps);
        let Some(c) = self.tables.classes.class_of(length, steps) else {
            unreachable!();
        };
        Some(self.tables.classes.slot_words(c))
    }

    /// The class of an object of `bytes` bytes in an open heap with pages; none if it needs more than a page. Costs one
    /// step.
    pub fn class_of<A: Mapping>(&self, bytes: u32, steps: &mut Steps) -> Option<u32>
        requires { Holds A.kind self.now }
        ensures value { result ≡ class_of (paging_in (state_at A.kind self.now)).sizes bytes }
        ensures steps { RoseBy steps.old steps.new 1 }
    {
        self.tables.classes.class_of(bytes, steps)
    }
}
