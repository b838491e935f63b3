//! The call `step` of an open sliced heap, which does a slice of the pending job: it clears or moves at most a quantum
//! of words; and `left`, `has_job` and `moving`, which return what is pending.
ghost use Rattle.std.specs.Prelude.{◌≡◌, ◌+◌, ◌-◌, ◌<◌, ◌≤◌, is_some, length, min, option_map, slice_index};
ghost use Rattle.step_ledger.specs.Counting.{RoseBy};
ghost use Rattle.slice_model.specs.Ordered.{HappensInOrder, SlicesInOrder};
ghost use Rattle.slice_model.specs.Runs.{Happens, Slices, Step};
ghost use Rattle.slice_model.specs.State.{Clear, Move, job_slot, left_of};
ghost use Rattle.sliced_heap.specs.Costs.{job_cost, part_cost, slice_cost};
ghost use Rattle.sliced_heap.specs.Heap.{job_of, sliced_seen};
ghost use Rattle.sliced_heap.specs.Layout.{IsValid, plan_of, sliced_order_in, sliced_state_of, working_of};
ghost use Rattle.sliced_heap.specs.Room.{mover};
ghost use Rattle.cf_base.specs.declared.results.Handle.{Handle};

use crate::next_words::{clear_next, move_next, words_of_slice};
use crate::open_heap::{OpenHeap, Pending};
use cf_base::Handle;
use slice_model::JobSlot;
use step_ledger::Steps;

impl OpenHeap {
    /// In a sliced heap, does one slice of the pending job; changes nothing if none is pending.
    /// Costs `slice_cost` steps. `slice` does the same; this contract has the clauses of
    /// `SlicedHeap::step`.
    pub fn step(&mut self, steps: &mut Steps)
        requires { IsValid (sliced_seen self.old) }
        ensures step { Happens (plan_of (sliced_seen self.old)) (working_of (sliced_seen self.old)) Step (working_of (sliced_seen self.new)) }
        ensures ordered { HappensInOrder (plan_of (sliced_seen self.old)) (working_of (sliced_seen self.old)) Step (working_of (sliced_seen self.new))
            (sliced_order_in (sliced_seen self.old)) (sliced_order_in (sliced_seen self.new)) }
        ensures kept { IsValid (sliced_seen self.new) }
        ensures plan { plan_of (sliced_seen self.new) ≡ plan_of (sliced_seen self.old) }
        ensures steps { RoseBy steps.old steps.new (slice_cost (plan_of (sliced_seen self.old)) (sliced_state_of (sliced_seen self.old))) }
    {
        self.slice(steps);
    }

    /// In a sliced heap, the number of words that the pending job has yet to clear or move; 0 if none is pending.
    pub fn left(&self) -> u32
        requires { IsValid (sliced_seen self.now) }
        ensures { result ≡ left_of (plan_of (sliced_seen self.now)) (sliced_state_of (sliced_seen self.now)) }
    {
        match self.job {
            Pending::Idle => 0,
            Pending::Clear(k) => self.tables.classes.slot_words(k.class) - k.done,
            Pending::Move(_, k) => self.tables.classes.slot_words(k.class) - k.done,
        }
    }

    /// Returns whether a job is pending in a sliced heap.
    pub fn has_job(&self) -> bool
        ensures { result ≡ is_some (job_slot (job_of self.now.job)) }
    {
        match self.job {
            Pending::Idle => false,
            _ => true,
        }
    }

    /// In a sliced heap, the object that the pending job moves; `None` if it moves none, or no job is pending.
    pub fn moving(&self) -> Option<Handle>
        ensures { option_map (λ (h : Handle). h.0) result ≡ mover (job_of self.now.job) }
    {
        match self.job {
            Pending::Move(h, _) => Some(h),
            _ => None,
        }
    }

    /// In a sliced heap, does one slice of the pending job, whether it clears a slot or moves an
    /// object; changes nothing if none is pending. Costs `job_cost` steps.
    pub(crate) fn slice(&mut self, steps: &mut Steps)
        requires { IsValid (sliced_seen self.old) }
        ensures step { Slices (plan_of (sliced_seen self.old)) (working_of (sliced_seen self.old)) (working_of (sliced_seen self.new)) }
        ensures ordered { SlicesInOrder (plan_of (sliced_seen self.old)) (working_of (sliced_seen self.old)) (working_of (sliced_seen self.new))
            (sliced_order_in (sliced_seen self.old)) (sliced_order_in (sliced_seen self.new)) }
        ensures kept { IsValid (sliced_seen self.new) }
        ensures plan { plan_of (sliced_seen self.new) ≡ plan_of (sliced_seen self.old) }
        ensures steps { RoseBy steps.old steps.new (job_cost (plan_of (sliced_seen self.old)) (sliced_state_of (sliced_seen self.old)).held (job_of self.old.job)) }
    {
        match self.job {
            Pending::Idle => {}
            Pending::Clear(k) => self.clear_slice(k, steps),
            Pending::Move(h, k) => self.move_slice(h, k, steps),
        }
    }

    /// In a sliced heap, the number of words that the next slice of a job with slot `k` clears or
    /// moves: the quantum, or all words left if they are fewer.
    fn words_of(&self, k: JobSlot) -> u32
        requires class { k.class < length self.now.tables.classes.sizes }
        requires done { k.done ≤ slice_index self.now.tables.classes.sizes k.class }
        ensures { result ≡ min self.now.quantum (slice_index self.now.tables.classes.sizes k.class - k.done) }
    {
        words_of_slice(
            self.tables.classes.slot_words(k.class),
            k.done,
            self.quantum,
        )
    }

    /// Does a slice of the pending job, which clears slot `k`. If the slot's last word is cleared,
    /// the job ends: the slot becomes free, or the next job moves an object into it. Costs
    /// `part_cost` steps.
    fn clear_slice(&mut self, k: JobSlot, steps: &mut Steps)
        requires kept { IsValid (sliced_seen self.old) }
        requires job { job_of self.old.job ≡ Clear k }
        ensures step { Slices (plan_of (sliced_seen self.old)) (working_of (sliced_seen self.old)) (working_of (sliced_seen self.new)) }
        ensures ordered { SlicesInOrder (plan_of (sliced_seen self.old)) (working_of (sliced_seen self.old)) (working_of (sliced_seen self.new))
            (sliced_order_in (sliced_seen self.old)) (sliced_order_in (sliced_seen self.new)) }
        ensures kept { IsValid (sliced_seen self.new) }
        ensures plan { plan_of (sliced_seen self.new) ≡ plan_of (sliced_seen self.old) }
        ensures steps { RoseBy steps.old steps.new (part_cost (plan_of (sliced_seen self.old)) (sliced_state_of (sliced_seen self.old)).held k) }
    {
        let n = self.words_of(k);
        clear_next(&mut self.region, k, n, steps);
        let done = k.done + n;
        if done < self.tables.classes.slot_words(k.class) {
            self.job = Pending::Clear(JobSlot { done, ..k });
            return;
        }
        let vacant = JobSlot { done: 0, ..k };
        self.job = Pending::Clear(vacant);
        self.end(vacant, steps);
    }

    /// Does a slice of the pending job, which moves object `h` out of slot `k`. Each word that it
    /// moves becomes 0 in slot `k`. If the last word is moved, the job ends: slot `k` becomes free,
    /// or the next job moves an object into it. Costs `part_cost` steps, and one more.
    fn move_slice(&mut self, h: Handle, k: JobSlot, steps: &mut Steps)
        requires kept { IsValid (sliced_seen self.old) }
        requires job { job_of self.old.job ≡ Move h.0 k }
        ensures step { Slices (plan_of (sliced_seen self.old)) (working_of (sliced_seen self.old)) (working_of (sliced_seen self.new)) }
        ensures ordered { SlicesInOrder (plan_of (sliced_seen self.old)) (working_of (sliced_seen self.old)) (working_of (sliced_seen self.new))
            (sliced_order_in (sliced_seen self.old)) (sliced_order_in (sliced_seen self.new)) }
        ensures kept { IsValid (sliced_seen self.new) }
        ensures plan { plan_of (sliced_seen self.new) ≡ plan_of (sliced_seen self.old) }
        ensures steps { RoseBy steps.old steps.new (1 + part_cost (plan_of (sliced_seen self.old)) (sliced_state_of (sliced_seen self.old)).held k) }
    {
        let Some(to) = self.proxies.lookup(h, steps) else {
            unreachable!();
        };
        let n = self.words_of(k);
        move_next(&mut self.region, k, to, n, steps);
        let done = k.done + n;
        if done < self.tables.classes.slot_words(k.class) {
            self.job = Pending::Move(h, JobSlot { done, ..k });
            return;
        }
        let vacant = JobSlot { done: 0, ..k };
        self.job = Pending::Clear(vacant);
        self.end(vacant, steps);
    }
}
