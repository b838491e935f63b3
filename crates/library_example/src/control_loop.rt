//! An example: one cycle of a control loop on the sliced heap. It frees the object with the data of the
//! last cycle (a frame) and makes the next frame, in at most a number of steps that is known beforehand.
ghost use Rattle.std.specs.Prelude.{◌≡◌, ◌≢◌, ◌+◌, ◌*◌, ◌≤◌, IsTrue, IfErr, IfOk, Err};
ghost use Rattle.page_model.specs.Counts.{ceil_div};
ghost use Rattle.slice_model.specs.declared.refusals.SliceRefusal.TheVariants.{Busy};
ghost use Rattle.sliced_heap.specs.Shown.{KeepsSlicedRules, StaysSlicedOpen};
ghost use Rattle.step_ledger.specs.Counting.{RoseAtMost};
ghost use Rattle.library_example.specs.Cycle.{HasFrame, IsMissed};
ghost use Rattle.library_example.specs.declared.control_loop.Missed.TheVariants.{Malloc};

use cf_base::Handle;
use slice_model::{
    SliceFault, SliceRefusal, a_malloc_is_busy_only_with_a_job, slices_alone_end_every_job,
};
use sliced_heap::SlicedHeap;
use step_ledger::Steps;

/// The cause if a cycle makes no new frame.
#[derive(Clone, Copy, Debug, PartialEq, Eq)]
pub enum Missed {
    /// The free of the last frame was refused; no object has changed.
    Free(SliceFault),
    /// The last frame was freed, and the malloc of the new one was refused.
    Malloc(SliceRefusal),
}

/// Does one cycle of the control loop: frees the last frame, calls `step` `slices` times for the
/// job that the free left, and makes the next frame, of `bytes` zeros. Returns the new frame's
/// handle, or which call was refused and why. The bytes of every other object are unchanged. Let p
/// be the words of a page divided by the quantum, rounded up: if `slices` is at least 2p, the malloc
/// is never refused as `Busy`. The cycle takes at most 40 + q + n(15 + q) steps, where n is `slices`
/// and q the quantum in words. The heap must be open, and stays open.
pub fn next_frame(
    heap: &mut SlicedHeap,
    last: Handle,
    bytes: u32,
    slices: u32,
    steps: &mut Steps,
) -> Result<Handle, Missed>
    requires open { IsTrue heap.old.is_open }
    ensures made { IfOk result (λ h. HasFrame heap.old last.0 bytes h.0 heap.new) }
    ensures failed { IfErr result (λ cause. IsMissed heap.old last.0 bytes cause heap.new) }
    ensures in_time { 2 * ceil_div heap.old.profile.page_words heap.old.quantum ≤ slices → result ≢ Err (Malloc Busy) }
    ensures same { StaysSlicedOpen heap.old heap.new }
    ensures rules { KeepsSlicedRules heap.new }
    ensures steps { RoseAtMost steps.old steps.new (40 + heap.old.quantum + slices * (15 + heap.old.quantum)) }
{
    // For their contracts: an open heap keeps its rules, enough slices end every job, and without one
    // no malloc is refused as `Busy`.
    let _open = heap.is_open();
    slices_alone_end_every_job();
    a_malloc_is_busy_only_with_a_job();
    if let Err(cause) = heap.free(last, steps) {
        return Err(Missed::Free(cause));
    }
    for i in 0..slices {
        heap.step(steps);
    }
    match heap.malloc(bytes, steps) {
        Ok(frame) => Ok(frame),
        Err(cause) => Err(Missed::Malloc(cause)),
    }
}
