//! What the contracts of a sliced heap's `Held` imply together, of the handles that C has and of the bytes that it
//! reads. The functions do nothing; each contract is a law, for states with `KeepsSlicedHandles`.
ghost use Rattle.std.specs.Prelude.{◌≡◌, ◌+◌, ◌<◌, ◌≤◌, ℕ, ℤ, List, Some, length, pos, slice_index};
ghost use Rattle.std.specs.FinMap.{get};
ghost use Rattle.cf_base.specs.Settings.{Profile};
ghost use Rattle.page_model.specs.Held.{Placed};
ghost use Rattle.sliced_heap.specs.Shown.{working_in};
ghost use Rattle.c_base.specs.Handles.{none, number_in};
ghost use Rattle.norphuen_sliced.specs.Calls.{IsFreshSlicedHeap, IsSlicedFreeCall, IsSlicedLengthCall, IsSlicedMallocCall, IsSlicedPlaceCall, IsSlicedReadCall, IsSlicedSlotWordsCall, IsSlicedWriteCall, IsStepCall};
ghost use Rattle.norphuen_sliced.specs.HandleRules.{IsNewSlicedHandle, KeepsSlicedHandles};
ghost use Rattle.norphuen_sliced.specs.HeldState.{SlicedHeldState};

/// A sliced heap that was just opened keeps its rules, and each number that an object can have has
/// a handle (`KeepsSlicedHandles`, clause `opened`). Each call keeps this true; `others` are the
/// calls that change neither the heap nor the handles.
pub fn every_call_keeps_the_handles()
    ensures opened { (p : Profile) (quantum last : ℕ) (new : SlicedHeldState) → IsFreshSlicedHeap p quantum last new → KeepsSlicedHandles new }
    ensures malloc { (old new : SlicedHeldState) (bytes before after : ℕ) (code : ℤ) → IsSlicedMallocCall old bytes before code after new
        → KeepsSlicedHandles old → KeepsSlicedHandles new }
    ensures free { (old new : SlicedHeldState) (handle : ℕ) (code : ℤ) → IsSlicedFreeCall old handle code new → KeepsSlicedHandles old → KeepsSlicedHandles new }
    ensures step { (old new : SlicedHeldState) (code : ℤ) → IsStepCall old code new → KeepsSlicedHandles old → KeepsSlicedHandles new }
    ensures write { (old new : SlicedHeldState) (handle from : ℕ) (bytes : List ℕ) (code : ℤ) → IsSlicedWriteCall old handle from bytes code new
        → KeepsSlicedHandles old → KeepsSlicedHandles new }
    ensures others { (old new : SlicedHeldState) → new.heap ≡ old.heap → new.handles ≡ old.handles → KeepsSlicedHandles old → KeepsSlicedHandles new }
{}

/// The handle of a sliced heap's malloc that returns 0 named no object before, and names the new one.
pub fn a_malloc_gives_a_new_handle()
    ensures { (old new : SlicedHeldState) (bytes before after : ℕ) → IsSlicedMallocCall old bytes before (pos 0) after new → KeepsSlicedHandles old
        → IsNewSlicedHandle old after new }
{}

/// On a sliced heap, also while a job is pending, a call with a stale handle returns 4 (`UNKNOWN`).
/// The low bits of a handle are the number of an object; the handle is stale if `handles` has
/// another one for that number now, so that `number_in` returns `none`. A free or write then leaves
/// the objects, the job and the words unchanged, a free also the handles; the other calls leave the
/// caller's number or buffer unchanged.
pub fn a_stale_handle_is_refused()
    ensures free { (old new : SlicedHeldState) (handle : ℕ) (code : ℤ) → IsSlicedFreeCall old handle code new → KeepsSlicedHandles old
        → number_in old.handles handle ≡ none → (code ≡ pos 4) × (working_in new.heap ≡ working_in old.heap) × (new.handles ≡ old.handles) }
    ensures write { (old new : SlicedHeldState) (handle from : ℕ) (bytes : List ℕ) (code : ℤ) → IsSlicedWriteCall old handle from bytes code new
        → KeepsSlicedHandles old → number_in old.handles handle ≡ none → (code ≡ pos 4) × (working_in new.heap ≡ working_in old.heap) }
    ensures read { (old new : SlicedHeldState) (handle from : ℕ) (before after : List ℕ) (code : ℤ) → IsSlicedReadCall old handle from before code after new
        → KeepsSlicedHandles old → number_in old.handles handle ≡ none → (code ≡ pos 4) × (after ≡ before) }
    ensures length { (old new : SlicedHeldState) (handle before after : ℕ) (code : ℤ) → IsSlicedLengthCall old handle before code after new
        → KeepsSlicedHandles old → number_in old.handles handle ≡ none → (code ≡ pos 4) × (after ≡ before) }
    ensures place { (old new : SlicedHeldState) (handle before after : ℕ) (code : ℤ) → IsSlicedPlaceCall old handle before code after new
        → KeepsSlicedHandles old → number_in old.handles handle ≡ none → (code ≡ pos 4) × (after ≡ before) }
    ensures slot_words { (old new : SlicedHeldState) (handle before after : ℕ) (code : ℤ) → IsSlicedSlotWordsCall old handle before code after new
        → KeepsSlicedHandles old → number_in old.handles handle ≡ none → (code ≡ pos 4) × (after ≡ before) }
{}

/// A read that returns 0 fills the caller's buffer with the bytes of the object from byte `from`
/// on, also while a job moves the object.
pub fn a_read_gives_the_bytes_of_the_object()
    ensures { (old new : SlicedHeldState) (handle from : ℕ) (before after : List ℕ) → IsSlicedReadCall old handle from before (pos 0) after new
        → KeepsSlicedHandles old → (x : Placed) × (get old.heap.held (number_in old.handles handle) ≡ Some x)
        × (length after ≡ length before) × (from + length before ≤ length x.bytes)
        × ((k : ℕ) → k < length before → slice_index after k ≡ slice_index x.bytes (from + k)) }
{}
