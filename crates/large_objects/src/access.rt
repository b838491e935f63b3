//! Reads and writes of an object's bytes in a heap of long objects: by one call of the manager
//! under it if the object fits a page, else part by part. Each function requires that the heap is
//! open, that the object has the bytes, and a count of steps of at most 2 ^ 62 (for one part,
//! 2 ^ 63 - 68).
ghost use Rattle.std.specs.Prelude.{◌≡◌, ◌+◌, ◌*◌, ◌<◌, ◌≤◌, ◌^◌, ℕ, List, Some, IsTrue, length, take, drop};
ghost use Rattle.step_ledger.specs.Counting.{RoseAtMost};
ghost use Rattle.std.specs.FinMap.{get};
ghost use Rattle.large_objects.specs.LargeCosts.{ByCosts, handle_steps, parts_access_steps};
ghost use Rattle.large_objects.specs.LargeSteps.{HasLong, HasPartRange, HasShort, StaysKept, WritesLarge, part_bytes_in};

use crate::heap::LargeHeap;
use crate::inner_calls::{read_inner, write_inner};
use crate::spine::part_handle;
use cf_base::Handle;
use cf_model::Manager;
use step_ledger::Steps;

impl<H: Manager> LargeHeap<H> {
    /// Writes `bytes` into the live object h, which fits a page, from byte `at` on.
    pub(crate) fn write_short(&mut self, h: Handle, at: u32, bytes: &[u8], steps: &mut Steps)
        requires open { IsTrue self.old.is_open }
        requires has { HasShort self.old h.0 at (length bytes.now) }
        requires low { steps.old ≤ 2 ^ 62 }
        ensures writes { WritesLarge self.old (record { number = h.0; from = at }) bytes.now self.new }
        ensures kept { StaysKept self.old self.new }
        ensures steps { ByCosts self.old.inner H.most (λ c. steps.new ≡ steps.old + c.access at (length bytes.now)) }
    {
        write_inner(&mut self.inner, h, at, bytes, steps);
    }

    /// Writes `bytes`, fewer than 2 ^ 32, into the parts of the live object h, which is longer than a
    /// page, from byte `at` of the object on.
    pub(crate) fn write_long(&mut self, h: Handle, at: u32, bytes: &[u8], steps: &mut Steps)
        requires open { IsTrue self.old.is_open }
        requires has { HasLong self.old h.0 at (length bytes.now) }
        requires small { length bytes.now < 2 ^ 32 }
        requires low { steps.old ≤ 2 ^ 62 }
        ensures writes { WritesLarge self.old (record { number = h.0; from = at }) bytes.now self.new }
        ensures kept { StaysKept self.old self.new }
        ensures steps { ByCosts self.old.inner H.most (λ c. steps.new ≡ steps.old + parts_access_steps c (part_bytes_in self.old) at (length bytes.now)) }
    {
        let part_bytes = self.part_bytes as usize;
        let mut done = 0;
        'parts: while done < bytes.len() {
            let from = at as usize + done;
            let within = from % part_bytes;
            let count = (bytes.len() - done).min(part_bytes - within);
            let i = (from / part_bytes) as u32;
            self.write_part(h, i, within as u32, &bytes[done..done + count], steps);
            done += count;
        }
    }

    /// Writes `bytes` into part i of the live object h, which is longer than a page, from byte `at` of the
    /// part on. No byte passes the part's end.
    fn write_part(&mut self, h: Handle, i: u32, at: u32, bytes: &[u8], steps: &mut Steps)
        requires open { IsTrue self.old.is_open }
        requires has { HasPartRange self.old h.0 i at (length bytes.now) }
        requires low { steps.old + 68 ≤ 2 ^ 63 }
        ensures writes { WritesLarge self.old (record { number = h.0; from = part_bytes_in self.old * i + at }) bytes.now self.new }
        ensures kept { StaysKept self.old self.new }
        ensures few { RoseAtMost steps.old steps.new (132 + length bytes.now) }
        ensures steps { ByCosts self.old.inner H.most (λ c. steps.new ≡ steps.old + (handle_steps c i + c.access at (length bytes.now))) }
    {
        let part = part_handle(&self.inner, h, i, steps);
        write_inner(&mut self.inner, part, at, bytes, steps);
    }

    /// Fills `out` with bytes of the live object h, which fits a page, from byte `at` on.
    pub(crate) fn read_short(&self, h: Handle, at: u32, out: &mut [u8], steps: &mut Steps)
        requires open { IsTrue self.now.is_open }
        requires has { HasShort self.now h.0 at (length out.old) }
        requires low { steps.old ≤ 2 ^ 62 }
        ensures value { (v : List ℕ) → get self.now.objects h.0 ≡ Some v → out.new ≡ take (length out.old) (drop at v) }
        ensures steps { ByCosts self.now.inner H.most (λ c. steps.new ≡ steps.old + c.access at (length out.old)) }
    {
        read_inner(&self.inner, h, at, out, steps);
    }

    /// Fills `out`, of fewer than 2 ^ 32 bytes, with bytes from the parts of the live object h, which is
    /// longer than a page, from byte `at` of the object on.
    pub(crate) fn read_long(&self, h: Handle, at: u32, out: &mut [u8], steps: &mut Steps)
        requires open { IsTrue self.now.is_open }
        requires has { HasLong self.now h.0 at (length out.old) }
        requires small { length out.old < 2 ^ 32 }
        requires low { steps.old ≤ 2 ^ 62 }
        ensures value { (v : List ℕ) → get self.now.objects h.0 ≡ Some v → out.new ≡ take (length out.old) (drop at v) }
        ensures steps { ByCosts self.now.inner H.most (λ c. steps.new ≡ steps.old + parts_access_steps c (part_bytes_in self.now) at (length out.old)) }
    {
        let part_bytes = self.part_bytes as usize;
        let mut done = 0;
        'parts: while done < out.len() {
            let from = at as usize + done;
            let within = from % part_bytes;
            let count = (out.len() - done).min(part_bytes - within);
            let i = (from / part_bytes) as u32;
            self.read_part(h, i, within as u32, &mut out[done..done + count], steps);
            done += count;
        }
    }

    /// Fills `out` with bytes from part i of the live object h, which is longer than a page, from byte `at` of
    /// the part on. No byte passes the part's end.
    fn read_part(&self, h: Handle, i: u32, at: u32, out: &mut [u8], steps: &mut Steps)
        requires open { IsTrue self.now.is_open }
        requires has { HasPartRange self.now h.0 i at (length out.old) }
        requires low { steps.old + 68 ≤ 2 ^ 63 }
        ensures value { (v : List ℕ) → get self.now.objects h.0 ≡ Some v
            → out.new ≡ take (length out.old) (drop (part_bytes_in self.now * i + at) v) }
        ensures few { RoseAtMost steps.old steps.new (132 + length out.old) }
        ensures steps { ByCosts self.now.inner H.most (λ c. steps.new ≡ steps.old + (handle_steps c i + c.access at (length out.old))) }
    {
        let part = part_handle(&self.inner, h, i, steps);
        read_inner(&self.inner, part, at, out, steps);
    }
}
