//! What the contracts of `Held` on long objects imply: each number of an object keeps a handle, a malloc's handle is
//! new, a stale handle is refused, and a read gives what was written. The low bits of a handle of C are an object's
//! number, and the others a generation, which a free raises. The functions do nothing; each contract is a law.
ghost use Rattle.std.specs.Prelude.{◌≡◌, ℕ, ℤ, List, length, pos};
ghost use Rattle.cf_base.specs.Settings.{Profile};
ghost use Rattle.c_base.specs.Handles.{none, number_in};
ghost use Rattle.norphuen_large.specs.Calls.{IsFreshLargeHeap, IsLargeFreeCall, IsLargeLengthCall, IsLargeMallocCall, IsLargeReadCall, IsLargeWriteCall};
ghost use Rattle.norphuen_large.specs.HandleRules.{IsNewLargeHandle, KeepsLargeHandles};
ghost use Rattle.norphuen_large.specs.HeldState.{LargeHeldState};

/// A heap of long objects that was just opened keeps its rules, and each number that an object can
/// have has a handle (`KeepsLargeHandles`, clause `opened`). Each call keeps this true; `others`
/// are the calls that change neither the heap nor the handles.
pub fn every_call_keeps_the_handles()
    ensures opened { (p : Profile) (last : ℕ) (new : LargeHeldState) → IsFreshLargeHeap p last new → KeepsLargeHandles new }
    ensures malloc { (old new : LargeHeldState) (bytes before after : ℕ) (code : ℤ) → IsLargeMallocCall old bytes before code after new
        → KeepsLargeHandles old → KeepsLargeHandles new }
    ensures free { (old new : LargeHeldState) (handle : ℕ) (code : ℤ) → IsLargeFreeCall old handle code new → KeepsLargeHandles old → KeepsLargeHandles new }
    ensures write { (old new : LargeHeldState) (handle from : ℕ) (bytes : List ℕ) (code : ℤ) → IsLargeWriteCall old handle from bytes code new
        → KeepsLargeHandles old → KeepsLargeHandles new }
    ensures others { (old new : LargeHeldState) → new.heap ≡ old.heap → new.handles ≡ old.handles → KeepsLargeHandles old → KeepsLargeHandles new }
{}

/// On long objects, the handle of a malloc that returns 0 named no object before, and names the new one, whose bytes
/// are zero.
pub fn a_malloc_gives_a_new_handle()
    ensures { (old new : LargeHeldState) (bytes before after : ℕ) → IsLargeMallocCall old bytes before (pos 0) after new → KeepsLargeHandles old
        → IsNewLargeHandle old bytes after new }
{}

/// On long objects, a call with a stale handle returns 4 (`UNKNOWN`). A handle is stale if the number
/// in its low bits now has a handle of another generation. A free or write then leaves the heap
/// unchanged, a free also the handles; a read or a call for the length leaves the caller's buffer or
/// number unchanged.
pub fn a_stale_handle_is_refused()
    ensures free { (old new : LargeHeldState) (handle : ℕ) (code : ℤ) → IsLargeFreeCall old handle code new → KeepsLargeHandles old
        → number_in old.handles handle ≡ none → (code ≡ pos 4) × (new.heap ≡ old.heap) × (new.handles ≡ old.handles) }
    ensures write { (old new : LargeHeldState) (handle from : ℕ) (bytes : List ℕ) (code : ℤ) → IsLargeWriteCall old handle from bytes code new
        → KeepsLargeHandles old → number_in old.handles handle ≡ none → (code ≡ pos 4) × (new.heap ≡ old.heap) }
    ensures read { (old new : LargeHeldState) (handle from : ℕ) (before after : List ℕ) (code : ℤ) → IsLargeReadCall old handle from before code after new
        → KeepsLargeHandles old → number_in old.handles handle ≡ none → (code ≡ pos 4) × (after ≡ before) }
    ensures length { (old new : LargeHeldState) (handle before after : ℕ) (code : ℤ) → IsLargeLengthCall old handle before code after new
        → KeepsLargeHandles old → number_in old.handles handle ≡ none → (code ≡ pos 4) × (after ≡ before) }
{}

/// On long objects, right after a write that returns 0, a read of as many bytes from the same byte
/// of the object returns 0 and fills the caller's buffer with the bytes written.
pub fn a_read_gives_what_was_written()
    ensures { (old mid new : LargeHeldState) (handle from : ℕ) (bytes before after : List ℕ) (code : ℤ) → IsLargeWriteCall old handle from bytes (pos 0) mid
        → IsLargeReadCall mid handle from before code after new → length before ≡ length bytes → (code ≡ pos 0) × (after ≡ bytes) }
{}
