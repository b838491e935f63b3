//! The resize of an object to a length of another class: it is copied to a slot of that class, and
//! its old slot is cleared, or another object moves into it.
ghost use Rattle.std.specs.Prelude.{◌≡◌, ◌+◌, ◌-◌, ◌*◌, ◌/◌, ◌^◌, ◌<◌, ◌≤◌, IfErr, IfOk, IsNone, IsSome, length};
ghost use Rattle.std.specs.FinMap as map;
ghost use Rattle.step_ledger.specs.Counting.{RoseAtMost, RoseBy};
ghost use Rattle.page_model.specs.Image.{IsDisjoint};
ghost use Rattle.page_model.specs.Order.{word_steps};
ghost use Rattle.cf_model.specs.Steps.{IsResizeStep};
ghost use Rattle.proxy_table.specs.Proxies.{AreBelowLimit, with_place};
ghost use Rattle.virtual_words.specs.Words.{AreInStep, FitTable, copy_steps};
ghost use Rattle.paged_heap.specs.ResizeClass.{CopiesToSlot, EntersClass, IsChange, changing_cost, changing_steps, entering_cost, kept_words};
ghost use Rattle.paged_heap.specs.Choices.{ResizeChooses};
ghost use Rattle.paged_heap.specs.Layout.{Holds, state_at};
ghost use Rattle.paged_heap.specs.Heap.{seen};
ghost use Rattle.cf_model.specs.ExactCosts.{tail_steps};

use crate::open_heap::OpenHeap;
use cf_base::{Handle, ResizeFault, Resized};
use page_slots::LeftSlot;
use region::Header;
use step_ledger::Steps;
use virtual_words::Mapping;

/// A resize of the object `handle` to a length of another class. The object's slot begins at word
/// `place`. It has `length` bytes before, which is a length of class `class`, and then `bytes`
/// bytes, a length of class `to`.
#[derive(Clone, Copy)]
pub(crate) struct Change {
    pub(crate) handle: Handle,
    pub(crate) place: u32,
    pub(crate) length: u32,
    pub(crate) class: u32,
    pub(crate) bytes: u32,
    pub(crate) to: u32,
}

impl Change {
    /// The number of words that hold the bytes kept by a resize, without the header. The kept bytes are those that both
    /// the old and the new length have.
    fn words(self) -> u32
        ensures { result ≡ kept_words self }
    {
        self.length.min(self.bytes).div_ceil(8)
    }
}

impl OpenHeap {
    /// Does the resize `x` of an object of an open heap: moves the object to a slot of its new class, and frees its old
    /// slot, into which another object may move. Fails with `Space`, with the objects unchanged, if the new class has
    /// no partly full page and no page is free. Costs at most `1 + changing_steps`; one step if it fails.
    pub(crate) fn resize_to_class<A: Mapping>(
        &mut self,
        x: Change,
        steps: &mut Steps,
    ) -> Result<Resized, ResizeFault>
        requires kept { Holds A.kind self.old }
        requires change { IsChange (seen A.kind self.old) x }
        ensures step { IsResizeStep (state_at A.kind self.old) (record { number = x.handle.0; length = x.bytes }) result (state_at A.kind self.new) }
        ensures kept { Holds A.kind self.new }
        ensures cause { IfErr result (λ e. e ≡ ResizeFault.Space) }
        ensures choice { IfOk result (λ done. ResizeChooses (seen A.kind self.old) (record { number = x.handle.0; length = x.bytes }) done (seen A.kind self.new)) }
        ensures steps { RoseAtMost steps.old steps.new (1 + changing_steps A.kind (seen A.kind self.old) x result) }
        ensures cost { RoseBy steps.old steps.new (1 + changing_cost (seen A.kind self.old) x result) }
    {
        let bound = self.bounds[x.class as usize];
        let moves = self
            .tables
            .must_move(&self.lists, x.class, x.place, bound, steps);
        let old_slot_words = self.tables.classes.slot_words(x.class);
        let slot_words = self.tables.classes.slot_words(x.to);
        let Some(_to) = self.enter_class::<A>(x, steps) else {
            return Err(ResizeFault::Space);
        };
        let slot = LeftSlot {
            class: x.class,
            place: x.place,
            words: old_slot_words,
            first: 0,
        };
        let moved = self.tables.leave_slot::<A>(
            &mut self.lists,
            &mut self.proxies,
            &mut self.region,
            &mut self.blocks,
            slot,
            moves,
            steps,
        );
        Ok(Resized {
            old_slot_words,
            slot_words,
            moved,
        })
    }

    /// Begins the resize `x`: takes a slot of the new class, copies the object there, changes the counts
    /// of both classes, and returns the new address. The old slot stays used in the tables. Returns none if
    /// the new class has no partly full page and no page is free; then nothing changes, at no step. Else
    /// costs `entering_cost`.
    fn enter_class<A: Mapping>(&mut self, x: Change, steps: &mut Steps) -> Option<u32>
        requires kept { Holds A.kind self.old }
        requires change { IsChange (seen A.kind self.old) x }
        ensures entered { EntersClass (seen A.kind self.old) x result (seen A.kind self.new) }
        ensures laid { FitTable A.kind self.new.blocks self.new.region }
        ensures refused { IsNone result → steps.new ≡ steps.old }
        ensures steps { RoseAtMost steps.old steps.new (14 + 2 * word_steps A.kind + copy_steps A.kind 1 (kept_words x)) }
        ensures cost { IsSome result → RoseBy steps.old steps.new (entering_cost (seen A.kind self.old) x) }
    {
        if !self.has_slot(x.to) {
            return None;
        }
        let Some(to) = self.tables.take_slot(&mut self.lists, x.to, steps) else {
            unreachable!();
        };
        self.copy_to_slot::<A>(x, to, steps);
        let old_slot_words = self.tables.classes.slot_words(x.class);
        self.count_out(x.class, old_slot_words, x.length);
        self.count_in(x.to, x.bytes);
        Some(to)
    }

    /// Copies the bytes that the resize `x` keeps to the slot at the address `to`, and clears their
    /// words in the old slot. Then writes a header with the new length at `to`, and changes the
    /// address in the proxy. The caller clears or fills the old slot. The object must be live, and
    /// both slots in the region and apart, non-moving at the same offset in a block.
    fn copy_to_slot<A: Mapping>(&mut self, x: Change, to: u32, steps: &mut Steps)
        requires laid { FitTable A.kind self.old.blocks self.old.region }
        requires live { IsSome (map.get self.old.proxies.places x.handle.0) }
        requires small { length self.old.region ≤ 2 ^ 23 }
        requires source { x.place + 1 + kept_words x ≤ length self.old.region }
        requires target { to + 1 + (x.bytes + 7) / 8 ≤ length self.old.region }
        requires apart { IsDisjoint (x.place + 1) (kept_words x) (to + 1) (kept_words x) }
        requires in_step { AreInStep A.kind (x.place + 1) (to + 1) }
        ensures rest { seen A.kind self.new ≡ record (seen A.kind self.old) {
          proxies = with_place self.old.proxies x.handle.0 to;
          words = (seen A.kind self.new).words;
        } }
        ensures free { self.new.proxies.free ≡ self.old.proxies.free }
        ensures words { CopiesToSlot (seen A.kind self.old).words (seen A.kind self.new).words x to }
        ensures laid { FitTable A.kind self.new.blocks self.new.region }
        ensures handles { AreBelowLimit self.new.proxies }
        ensures steps { RoseBy steps.old steps.new
            (copy_steps A.kind (x.place + 1) (kept_words x) + tail_steps A.kind to x.bytes (8 * kept_words x) + word_steps A.kind + 1) }
    {
        let words = x.words();
        A::move_words(
            &mut self.region,
            &self.blocks,
            x.place + 1,
            to + 1,
            words,
            steps,
        );
        self.zero_tail::<A>(to, x.bytes, 8 * words, steps);
        let header = Header {
            handle: x.handle,
            length: x.bytes,
        };
        A::write(&mut self.region, &self.blocks, to, header.pack(), steps);
        self.proxies.rebind(x.handle, to, steps);
    }
}
