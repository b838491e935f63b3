//! The kind of a manager, known by its type, how much of its region is free, and how many words an
//! object's slot or block has.
ghost use Rattle.std.specs.Prelude.{◌≡◌};
ghost use Rattle.cf_base.specs.declared.kind.Kind.{Kind};
ghost use Rattle.held_heap.specs.Counts.{free_left};
ghost use Rattle.held_heap.specs.HeldState.{IsOpenOfKind};
ghost use Rattle.held_heap.specs.Slots.{object_words_steps, slot_words_of};
ghost use Rattle.step_ledger.specs.Counting.{RoseBy};

use cf_base::Handle;
use cf_model::Manager;
use paged_heap::{PageKind, PagedHeap};
use step_ledger::Steps;
use tag_heap::{FitPolicy, TagHeap};

/// A manager whose type fixes its kind. The calls below need an open heap, of that kind.
pub trait OfKind: Manager {
    /// The kind of the managers of this type.
    ghost of_kind: { Kind };

    /// For C's counts, how many pages are free; with blocks, the bytes outside used blocks. Costs
    /// no step.
    fn free_left(&self) -> u64
        requires { IsOpenOfKind of_kind (Self.state self.now) }
        ensures { result ≡ free_left (Self.state self.now) };

    /// For C, how many words an object's slot or block has; none if the handle isn't live. Costs 1
    /// step if it isn't; else 2 with blocks, 3 for the moving and 4 for the non-moving manager.
    fn words_of(&self, h: Handle, steps: &mut Steps) -> Option<u32>
        requires { IsOpenOfKind of_kind (Self.state self.now) }
        ensures value { result ≡ slot_words_of of_kind (Self.state self.now) h.0 }
        ensures steps { RoseBy steps.old steps.new (object_words_steps of_kind result) };
}

impl<A: PageKind> OfKind for PagedHeap<A> {
    ghost of_kind = { A.kind };

    fn free_left(&self) -> u64 {
        u64::from(self.free_pages())
    }

    fn words_of(&self, h: Handle, steps: &mut Steps) -> Option<u32> {
        self.slot_words(h, steps)
    }
}

impl<B: FitPolicy> OfKind for TagHeap<B> {
    ghost of_kind = { B.kind };

    fn free_left(&self) -> u64 {
        let usage = self.usage();
        usage.held.saturating_sub(usage.taken)
    }

    fn words_of(&self, h: Handle, steps: &mut Steps) -> Option<u32> {
        self.block_words(h, steps)
    }
}
