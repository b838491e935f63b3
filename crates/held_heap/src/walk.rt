//! A walk over the live objects of an open heap.
ghost use Rattle.std.specs.Prelude.{◌≡◌, ◌+◌, ◌<◌, IsTrue, Some};
ghost use Rattle.step_ledger.specs.Counting.{RoseBy};
ghost use Rattle.held_heap.specs.Walk.{IsNextCall, IsNextLive, looked_at};

use crate::held::Held;
use crate::of_kind::OfKind;
use c_base::{DONE, NONE, UNKNOWN};
use cf_base::Handle;
use cf_model::Manager;
use step_ledger::{Meter, Steps};

/// For a walk, the first live object of an open heap whose number is at least `from` and below `count`; none if there
/// is no such object. Costs one step for each number that the call looks at.
fn next_live<H: Manager>(heap: &H, from: u32, count: u32, steps: &mut Steps) -> Option<Handle>
    requires open { IsTrue (H.state heap.now).is_open }
    ensures found { IsNextLive (H.state heap.now).held from count result }
    ensures steps { RoseBy steps.old steps.new (looked_at from count result) }
{
    for n in from..count {
        if heap.place(Handle(n), steps).is_some() {
            return Some(Handle(n));
        }
    }
    None
}

impl<H: OfKind> Held<H> {
    /// Writes the handle of the next live object after that of `handle` into `next`, by rising
    /// number; of the first one if `handle` is `NONE`. After the last one the call writes `NONE`.
    /// It takes one step for each number that it looks at, that of `handle` included. Returns
    /// `DONE`, or `UNKNOWN` if the handle isn't live; then `next` is unchanged.
    pub fn next(&mut self, handle: u32, next: &mut u32) -> i32
        ensures { IsNextCall self.old handle next.old result next.new self.new }
    {
        let count = self.handles.count();
        let mut meter = Meter::for_library(self.memory);
        let mut from = 0;
        if handle != NONE {
            let number = self.handles.number_in(handle);
            // For its contract: an open heap keeps its rules, so the number of an object is small.
            let _open = self.heap.is_open();
            if self.heap.place(Handle(number), meter.steps()).is_none() {
                self.steps = meter.lap();
                return UNKNOWN;
            }
            from = number + 1;
        }
        let answer = next_live(&self.heap, from, count, meter.steps());
        self.steps = meter.lap();
        *next = self.handles.of_moved(answer);
        DONE
    }
}
