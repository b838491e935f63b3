//! How a call changes what a heap counts from its opening on (`NphCounted`), and the call for the counts.
ghost use Rattle.std.specs.Prelude.{◌≡◌, Err};
ghost use Rattle.cf_model.specs.State.{HeapState};
ghost use Rattle.held_heap.specs.Calls.{IsCountsCall};
ghost use Rattle.held_heap.specs.HeldState.{IsOpenOfKind};
ghost use Rattle.held_heap.specs.Counts.{counted_move, malloc_counts, next_count, resize_counts, with_peaks};

use crate::held::Held;
use crate::of_kind::OfKind;
use c_base::{DONE, NphCounted};
use cf_base::{Handle, Refusal, ResizeFault};

/// Adds one to a count for C, which stops at `2^64 - 1`.
pub(crate) fn count(n: &mut u64)
    ensures { n.new ≡ next_count n.old }
{
    *n = n.saturating_add(1);
}

/// For C, raises `most_asked` to the bytes that the live objects of an open heap asked for, if
/// these are more. Lowers `least_free` to the number of free pages, or with blocks to the bytes
/// outside used blocks, if that is less (`free_left`).
pub(crate) fn count_peaks<H: OfKind>(heap: &H, counts: &mut NphCounted)
    requires { IsOpenOfKind H.of_kind (H.state heap.now) }
    ensures { counts.new ≡ with_peaks counts.old (H.state heap.now) }
{
    let asked = heap.usage().asked;
    if counts.most_asked < asked {
        counts.most_asked = asked;
    }
    let left = heap.free_left();
    if left < counts.least_free {
        counts.least_free = left;
    }
}

/// For C, counts a move if another object moved.
pub(crate) fn count_move(counts: &mut NphCounted, moved: Option<Handle>)
    ensures { counts.new ≡ counted_move counts.old moved }
{
    if moved.is_some() {
        count(&mut counts.moves);
    }
}

/// For C, counts a resize that succeeded: the peaks, and a move if another object moved
/// (`count_peaks`, `count_move`).
pub(crate) fn count_resized<H: OfKind>(heap: &H, counts: &mut NphCounted, moved: Option<Handle>)
    requires { IsOpenOfKind H.of_kind (H.state heap.now) }
    ensures { counts.new ≡ counted_move (with_peaks counts.old (H.state heap.now)) moved }
{
    count_peaks(heap, counts);
    count_move(counts, moved);
}

/// For C, counts a refused malloc by its cause.
pub(crate) fn count_refusal(counts: &mut NphCounted, cause: Refusal)
    ensures { (s : HeapState) → counts.new ≡ malloc_counts counts.old (Err cause) s }
{
    match cause {
        Refusal::Size => count(&mut counts.size),
        Refusal::Proxy => count(&mut counts.proxy),
        Refusal::Space => count(&mut counts.space),
    }
}

/// For C, counts a refused resize by its cause; not if the cause is that managers with blocks don't
/// resize (`Kind`).
pub(crate) fn count_resize_fault(counts: &mut NphCounted, cause: ResizeFault)
    ensures { (s : HeapState) → counts.new ≡ resize_counts counts.old (Err cause) s }
{
    // Not a match of four cases: LLVM would compile it to a jump through a table.
    if cause == ResizeFault::Unknown {
        count(&mut counts.unknown);
    } else if cause == ResizeFault::Size {
        count(&mut counts.size);
    } else if cause == ResizeFault::Space {
        count(&mut counts.space);
    }
}

impl<H: OfKind> Held<H> {
    /// For C, writes what the heap has counted since its opening into `counts`; counts no steps.
    /// Always returns `DONE`.
    pub fn counts(&mut self, counts: &mut NphCounted) -> i32
        ensures { IsCountsCall self.old result counts.new self.new }
    {
        *counts = self.counts;
        DONE
    }
}
